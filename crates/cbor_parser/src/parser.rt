//! The parser of valid items, which gives their parts to a sink.

ghost use Rattle.std.specs.Prelude.{◌≡◌, ◌≤◌, ◌^◌, ℕ, Bool, List, true, false, [], length, IfErr, MatchResult};
ghost use Rattle.cbor_head.specs.Limits.{Bounds};
ghost use Rattle.cbor_head.specs.declared.reason.Reason.TheVariants as reasons;
ghost use Rattle.theory_verdicts.specs.Levels.{item_expected};
ghost use Rattle.cbor_parser.specs.Stack.{open_levels};
ghost use Rattle.cbor_parser.specs.ParsedItem.{IsStop};
ghost use Rattle.cbor_parser.specs.Sink.{IsKnownValid, IsGivenPrefix};
ghost use Rattle.cbor_parser.specs.inner.OpenContainer.{Cell};
ghost use Rattle.cbor_parser.specs.inner.Parser.{Expects, HasItem, Fills, Passes, Stops, Lacks, IsStopWithin};
ghost use Rattle.cbor_parser.specs.inner.Repeated.{IsKeyReportedIn};
ghost use Rattle.cbor_parser.specs.inner.Rules.{StopsAt, HasCellLeft};

use crate::container::Expected;
use crate::item_rules::{ItemRules, Part, Step};
use crate::item_start::{Here, ItemStart, item_start};
use crate::kinds::is_asked;
use crate::limit::{truncated_or_too_long, within};
use crate::open_container::OpenContainer;
use crate::parse::parse;
use crate::repeated_key::{repeated_key, reported_map};
use crate::sink::Sink;
use crate::stack::Stack;
use crate::walk::WalkStop;
use cbor_builder::Repeat;
use cbor_head::{Limits, Reason, Refusal};

/// The parser of valid items, which gives their parts to a sink.
#[derive(Drop)]
pub struct Parser<S> {
    /// Stays in place from one item to the next: moving it costs as much as a small item.
    pub sink: S,
    // The key that the sink reported as repeated. It is here so that the result of each item stays small.
    repeat: Repeat,
}

/// Why nothing more is given to the sink.
#[derive(Clone, Copy)]
pub(crate) enum SinkStop {
    /// A string in chunks has begun, and is refused. The sink has some of its chunks.
    Broken,
    /// Two keys of the map that should end are the same. The map is still open.
    Repeated,
    /// Memory was refused.
    Memory,
}

/// Why there is no valid item.
#[derive(Clone, Copy)]
pub(crate) enum ParseError {
    /// The refusal of the bytes within the limits, or refused memory.
    Refused(Refusal),
    /// A key is the same as an earlier one of its map.
    Repeated {
        /// This number of bytes of the input follows the map's head,
        following: usize,
        /// and this number of pairs comes before the key.
        pair: usize,
    },
}

impl<S> Parser<S> {
    /// A parser that has parsed nothing.
    #[inline(always)]
    pub fn new(sink: S) -> Parser<S>
        ensures { result.sink ≡ sink }
    {
        let repeat = Repeat {
            outside: 0,
            pair: 0,
        };
        Parser { sink, repeat }
    }

    /// Gives the sink the parts of the well-formed, valid item that the slice begins with (RFC 8949,
    /// sections 3 and 5.3.1), within the limits, and returns the item's size in bytes; else the refusal of
    /// the bytes within the limits, or `Memory`, if memory was refused before that, with 0 as `place` and
    /// `read`. A sink that does not look for equal keys must be given only items that are known to be
    /// valid.
    ///
    /// It reads the bytes once, without recursion; if a key is repeated, it reads its map once more, up to
    /// that key.
    pub fn parse_item<'a>(&mut self, bytes: &'a [u8], limits: Limits) -> Result<u64, Refusal>
    where
        S: Sink<'a>,
        requires fresh { S.agrees self.old.sink self.old.sink (item_expected []) }
        requires known { S.trusts ≡ true → IsKnownValid limits bytes.now }
        ensures given { MatchResult result
            (λ size. IsGivenPrefix (S.agrees self.old.sink self.new.sink) limits bytes.now size)
            (λ f. IsStop limits bytes.now f) }
        ensures memory { IfErr result (λ f. f.reason ≡ reasons.Memory → S.refused self.new.sink) }
    {
        let input = within(bytes, limits.bytes());
        let outermost = OpenContainer::counted(Expected::Item, 0, 0);
        match parse(self, input, outermost, limits) {
            Ok(following) => Ok((input.len() - following.len()) as u64),
            Err(ParseError::Refused(refusal)) => Err(refusal),
            // Only here the cells of the walk are off the stack.
            Err(ParseError::Repeated { following, pair }) => {
                Err(repeated_key(input, following, pair, limits))
            }
        }
    }
}

impl<'a, S: Sink<'a>> ItemRules<'a> for Parser<S> {
    /// How many bytes of the input follow the container's head.
    type Kept = usize;

    type Stop = SinkStop;

    type Error = ParseError;

    ghost agrees = { Expects S S.agrees S.trusts };

    ghost ends = { HasItem S S.agrees S.trusts };

    ghost fills = { Fills S S.agrees S.trusts };

    ghost passes = { Passes S S.agrees S.trusts };

    ghost lacks = { Lacks };

    ghost stops = { Stops S S.agrees S.trusts S.holds S.refused };

    ghost refuses = { λ first now limits input error. IsStopWithin (S.refused now.sink) limits input error };

    #[inline(always)]
    fn take(
        &mut self,
        rest: &'a [u8],
        stack: &mut Stack<OpenContainer<usize>>,
        cells: &mut [OpenContainer<usize>],
        limits: Limits,
    ) -> Part<SinkStop> {
        let depth = usize::from(limits.depth());
        self.take_part(rest, stack, cells, depth, limits.keys())
    }

    #[inline(always)]
    fn end_item(&mut self, top: &mut OpenContainer<usize>, _rest: &'a [u8]) -> Step<SinkStop> {
        if top.advance() {
            Step::Next
        } else {
            Step::Full
        }
    }

    // The container is ended in the sink first: if two of its keys are the same, its cell is still there
    // and has the number of bytes after its head.
    #[inline(always)]
    fn end_container(&mut self, top: &OpenContainer<usize>, _rest: &'a [u8]) -> Option<SinkStop> {
        match self.sink.end(top.expected.is_in_map()) {
            Ok(None) => None,
            Ok(Some(repeat)) => {
                self.repeat = repeat;
                Some(SinkStop::Repeated)
            }
            Err(_) => Some(SinkStop::Memory),
        }
    }

    // Two equal keys of an open map are reported first. Else the reason is that of the bytes at which an
    // item is expected, or a string in chunks has begun.
    #[cold]
    #[inline(never)]
    fn error(
        &mut self,
        stop: WalkStop<'a, SinkStop>,
        stack: &Stack<OpenContainer<usize>>,
        cells: &[OpenContainer<usize>],
        input: &'a [u8],
        limits: Limits,
    ) -> ParseError
        requires cells { stack.now.height ≤ length cells.now }
        requires left { HasCellLeft stop stack.now.height (length cells.now) limits }
        requires within { length input.now ≤ 2 ^ 62 }
        requires stopped { (first : Parser S) × StopsAt (Parser S) ℕ SinkStop (Expects S S.agrees S.trusts) (Stops S S.agrees S.trusts S.holds S.refused)
            Lacks stop first self.old limits input.now (open_levels Cell stack.now cells.now) (length cells.now) }
        ensures { (first : Parser S) → StopsAt (Parser S) ℕ SinkStop (Expects S S.agrees S.trusts) (Stops S S.agrees S.trusts S.holds S.refused)
            Lacks stop.entry first self.old limits input.now (open_levels Cell stack.now cells.now) (length cells.now)
            → IsStopWithin (S.refused self.new.sink) limits input.now result }
    {
        let rest = match stop {
            WalkStop::Untaken(rest) => rest,
            WalkStop::Stopped(rest, why) => match why {
                SinkStop::Broken => rest,
                SinkStop::Repeated => return repeated(stack, cells, self.repeat),
                SinkStop::Memory => {
                    return ParseError::Refused(Refusal::at(Reason::Memory, 0));
                }
            },
        };
        if let Some(repeat) = self.sink.first_repeat() {
            return repeated(stack, cells, repeat);
        }
        let at = input.len() - rest.len();
        let here = Here {
            space: stack.height < usize::from(limits.depth()),
            is_key: is_asked(limits.keys(), stack.top.expected),
            may_break: stack.top.may_break(),
        };
        match item_start(rest, at, here, false) {
            ItemStart::Refused(refusal) => {
                ParseError::Refused(truncated_or_too_long(refusal, input, limits.bytes()))
            }
            // Only what is refused is left.
            _ => unreachable!(),
        }
    }
}

// The position of the reported key, from the cells of the open maps.
fn repeated(
    stack: &Stack<OpenContainer<usize>>,
    cells: &[OpenContainer<usize>],
    repeat: Repeat,
) -> ParseError
    requires cells { stack.now.height ≤ length cells.now }
    requires reported { (limits : Bounds) × (input : List ℕ)
        × IsKeyReportedIn limits input (open_levels Cell stack.now cells.now) repeat }
    ensures { (limits : Bounds) (input : List ℕ)
        → IsKeyReportedIn limits input (open_levels Cell stack.now cells.now) repeat
        → IsStopWithin ⊥ limits input result }
{
    match reported_map(stack, cells, repeat.outside) {
        Some(map) => ParseError::Repeated {
            following: map.kept,
            pair: repeat.pair,
        },
        None => unreachable!(),
    }
}
