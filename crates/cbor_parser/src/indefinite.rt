//! Indefinite lengths: the openers of strings, arrays and maps, and the break that ends them.

ghost use Rattle.std.specs.Prelude.{◌≡◌, ◌≤◌, ◌<◌, ◌-◌, ◌%◌, ◌∷◌, length};
ghost use Rattle.cbor_head.specs.declared.keys.Keys.{Keys};
ghost use Rattle.cbor_parser.specs.Stack.{open_levels};
ghost use Rattle.cbor_parser.specs.inner.OpenContainer.{Cell};
ghost use Rattle.cbor_parser.specs.inner.Parser.{IsExpectedIn, Takes};
ghost use Rattle.cbor_parser.specs.inner.Begins.{IsLeft};
ghost use Rattle.cbor_parser.specs.inner.Parts.{TakesPrefix};
ghost use Rattle.cbor_parser.specs.declared.item_rules.Part.TheVariants as parts;

use crate::container::Expected;
use crate::item_rules::Part;
use crate::open_container::OpenContainer;
use crate::parser::{Parser, SinkStop};
use crate::sink::Sink;
use crate::stack::Stack;
use cbor_head::Major;

impl<S> Parser<S> {
    /// Takes what `rest` begins with, if its first byte is an opener of indefinite length, or a
    /// break.
    #[inline(always)]
    pub(crate) fn take_indefinite<'a>(
        &mut self,
        rest: &'a [u8],
        first: u8,
        following: &'a [u8],
        stack: &mut Stack<OpenContainer<usize>>,
        cells: &mut [OpenContainer<usize>],
        depth: usize,
    ) -> Part<SinkStop>
    where
        S: Sink<'a>,
        requires cells { stack.old.height ≤ length cells.old }
        requires begins { rest.now ≡ first ∷ following.now }
        requires expected { IsExpectedIn S S.agrees S.trusts depth (open_levels Cell stack.old cells.old) self.old.sink rest.now }
        ensures cells { stack.new.height ≤ length cells.new }
        ensures takes { Takes S S.agrees S.trusts S.holds S.refused result depth rest.now (open_levels Cell stack.old cells.old)
            self.old.sink (open_levels Cell stack.new cells.new) self.new.sink }
        ensures prefix { TakesPrefix result (depth - stack.old.height) stack.old.top rest.now }
        ensures untaken { result ≡ parts.Untaken → 27 < first % 32 → (keys : Keys)
            → IsLeft keys depth stack.new.top stack.new.height (length cells.new) rest.now }
    {
        match first {
            0x5f => self.take_chunks(&stack.top, false, rest, following),
            0x7f => self.take_chunks(&stack.top, true, rest, following),
            0x9f => self.open(
                Major::Array,
                0,
                OpenContainer::indefinite(Expected::Item, following.len()),
                rest,
                following,
                stack,
                cells,
                depth,
            ),
            0xbf => self.open(
                Major::Map,
                0,
                OpenContainer::indefinite(Expected::Key, following.len()),
                rest,
                following,
                stack,
                cells,
                depth,
            ),
            0xff if stack.top.may_break() => Part::Break(1),
            _ => Part::Untaken,
        }
    }
}
