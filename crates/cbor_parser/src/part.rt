//! The next part of a valid item: an item without members, the head of a container, or a break.

ghost use Rattle.std.specs.Prelude.{◌≡◌, ◌≤◌, ◌-◌, length};
ghost use Rattle.cbor_builder.specs.Built.{IsLeaf, IsContainer};
ghost use Rattle.cbor_head.specs.declared.keys.Keys.TheVariants.{IntegersAndTexts};
ghost use Rattle.theory_verdicts.specs.PathKinds.{IsFitPrefix};
ghost use Rattle.cbor_parser.specs.Stack.{open_levels};
ghost use Rattle.cbor_parser.specs.inner.OpenContainer.{Cell};
ghost use Rattle.cbor_parser.specs.inner.Parser.{IsExpectedIn, IsExpectedFor, Takes, TakesItem};
ghost use Rattle.cbor_parser.specs.declared.item_rules.Part.TheVariants as parts;
ghost use Rattle.cbor_parser.specs.inner.Begins.{IsFull, IsLeft};
ghost use Rattle.cbor_parser.specs.inner.Parts.{IsHead, IsOpener, Counts, HasTaken, TakesPrefix, TakesScalar};

use crate::container::Expected;
use crate::item_rules::Part;
use crate::kinds::is_other_key;
use crate::open_container::OpenContainer;
use crate::parser::{Parser, SinkStop};
use crate::sink::Sink;
use crate::stack::Stack;
use cbor_head::{FIRST_SIMPLE_IN_TWO_BYTES, Keys, Major, read_argument};

impl<S> Parser<S> {
    /// Takes what is at the start of `rest`, except a key of another kind if kinds are judged.
    #[inline(always)]
    pub(crate) fn take_part<'a>(
        &mut self,
        rest: &'a [u8],
        stack: &mut Stack<OpenContainer<usize>>,
        cells: &mut [OpenContainer<usize>],
        depth: usize,
        keys: Keys,
    ) -> Part<SinkStop>
    where
        S: Sink<'a>,
        requires cells { stack.old.height ≤ length cells.old }
        requires expected { IsExpectedIn S S.agrees S.trusts depth (open_levels Cell stack.old cells.old) self.old.sink rest.now }
        ensures cells { stack.new.height ≤ length cells.new }
        ensures takes { Takes S S.agrees S.trusts S.holds S.refused result depth rest.now (open_levels Cell stack.old cells.old)
            self.old.sink (open_levels Cell stack.new cells.new) self.new.sink }
        ensures prefix { TakesPrefix result (depth - stack.old.height) stack.old.top rest.now }
        ensures fits { HasTaken result → keys ≡ IntegersAndTexts → stack.old.top.expected ≡ Expected.Key
            → IsFitPrefix rest.now }
        ensures untaken { result ≡ parts.Untaken
            → IsLeft keys depth stack.new.top stack.new.height (length cells.new) rest.now }
    {
        let Some((first, following)) = rest.split_first() else {
            return Part::Untaken;
        };
        let (kind, low) = (*first / 32, *first % 32);
        if low > 27 {
            if is_other_key(keys, stack.top.expected, rest) {
                return Part::Untaken;
            }
            return self.take_indefinite(rest, *first, following, stack, cells, depth);
        }
        let Some(head) = read_argument(low, following) else {
            return Part::Untaken;
        };
        let (number, following) = (head.number, head.rest);
        match kind {
            0 => self.give_leaf(&stack.top, Major::Unsigned, number, rest, following),
            1 => self.give_leaf(&stack.top, Major::Negative, number, rest, following),
            3 => self.take_string(&stack.top, true, number, rest, following),
            _ if is_other_key(keys, stack.top.expected, rest) => Part::Untaken,
            2 => self.take_string(&stack.top, false, number, rest, following),
            4 => self.take_counted(
                Major::Array,
                Expected::Item,
                number,
                rest,
                following,
                stack,
                cells,
                depth,
            ),
            5 => self.take_counted(
                Major::Map,
                Expected::Key,
                number,
                rest,
                following,
                stack,
                cells,
                depth,
            ),
            6 => {
                let opened = OpenContainer::counted(Expected::Item, 0, following.len());
                self.open(
                    Major::Tag,
                    number,
                    opened,
                    rest,
                    following,
                    stack,
                    cells,
                    depth,
                )
            }
            _ => {
                if low > 24 || low == 24 && number < FIRST_SIMPLE_IN_TWO_BYTES {
                    return Part::Untaken;
                }
                self.give_leaf(&stack.top, Major::Simple, number, rest, following)
            }
        }
    }

    // Gives an item that consists of its head.
    #[inline(always)]
    fn give_leaf<'a>(
        &mut self,
        top: &OpenContainer<usize>,
        major: Major,
        number: u64,
        rest: &'a [u8],
        following: &'a [u8],
    ) -> Part<SinkStop>
    where
        S: Sink<'a>,
        requires kind { IsLeaf major }
        requires head { IsHead major number rest.now following.now }
        requires expected { IsExpectedFor S S.agrees S.trusts top.now self.old.sink rest.now }
        ensures takes { TakesItem S S.agrees S.trusts S.holds S.refused result rest.now top.now self.old.sink self.new.sink }
        ensures prefix { TakesScalar result rest.now }
        ensures untaken { result ≡ parts.Untaken → ⊥ }
    {
        match self.sink.leaf(top.expected.is_key(), major, number) {
            Ok(()) => Part::Item(rest.len() - following.len()),
            Err(_) => Part::Stopped(SinkStop::Memory),
        }
    }

    // An array or a map of this number of members or pairs.
    #[inline(always)]
    fn take_counted<'a>(
        &mut self,
        major: Major,
        expected: Expected,
        number: u64,
        rest: &'a [u8],
        following: &'a [u8],
        stack: &mut Stack<OpenContainer<usize>>,
        cells: &mut [OpenContainer<usize>],
        depth: usize,
    ) -> Part<SinkStop>
    where
        S: Sink<'a>,
        requires kind { Counts major expected }
        requires cells { stack.old.height ≤ length cells.old }
        requires head { IsHead major number rest.now following.now }
        requires expected { IsExpectedIn S S.agrees S.trusts depth (open_levels Cell stack.old cells.old) self.old.sink rest.now }
        ensures cells { stack.new.height ≤ length cells.new }
        ensures takes { Takes S S.agrees S.trusts S.holds S.refused result depth rest.now (open_levels Cell stack.old cells.old)
            self.old.sink (open_levels Cell stack.new cells.new) self.new.sink }
        ensures prefix { TakesPrefix result (depth - stack.old.height) stack.old.top rest.now }
        ensures untaken { result ≡ parts.Untaken
            → IsFull depth stack.new.height (length cells.new) }
    {
        if number > 0 {
            let opened = OpenContainer::counted(expected, number - 1, following.len());
            return self.open(major, number, opened, rest, following, stack, cells, depth);
        }
        if stack.height >= depth {
            return Part::Untaken;
        }
        let Ok(()) = self.sink.begin(stack.top.expected.is_key(), major, 0) else {
            return Part::Stopped(SinkStop::Memory);
        };
        // It has no cell. As it has no keys, no two are the same.
        match self.sink.end(expected.is_key()) {
            Ok(None) => Part::Item(rest.len() - following.len()),
            Ok(Some(_repeat)) => unreachable!(),
            Err(_) => Part::Stopped(SinkStop::Memory),
        }
    }

    // Opens the container with this head.
    #[inline(always)]
    pub(crate) fn open<'a>(
        &mut self,
        major: Major,
        number: u64,
        opened: OpenContainer<usize>,
        rest: &'a [u8],
        following: &'a [u8],
        stack: &mut Stack<OpenContainer<usize>>,
        cells: &mut [OpenContainer<usize>],
        depth: usize,
    ) -> Part<SinkStop>
    where
        S: Sink<'a>,
        requires kind { IsContainer major }
        requires cells { stack.old.height ≤ length cells.old }
        requires opener { IsOpener major number opened rest.now following.now }
        requires expected { IsExpectedIn S S.agrees S.trusts depth (open_levels Cell stack.old cells.old) self.old.sink rest.now }
        ensures cells { stack.new.height ≤ length cells.new }
        ensures takes { Takes S S.agrees S.trusts S.holds S.refused result depth rest.now (open_levels Cell stack.old cells.old)
            self.old.sink (open_levels Cell stack.new cells.new) self.new.sink }
        ensures prefix { TakesPrefix result (depth - stack.old.height) stack.old.top rest.now }
        ensures untaken { result ≡ parts.Untaken
            → IsFull depth stack.new.height (length cells.new) }
    {
        if stack.height >= depth || stack.height >= cells.len() {
            return Part::Untaken;
        }
        let Ok(()) = self.sink.begin(stack.top.expected.is_key(), major, number) else {
            return Part::Stopped(SinkStop::Memory);
        };
        stack.push(cells, opened);
        Part::Head(rest.len() - following.len())
    }
}
