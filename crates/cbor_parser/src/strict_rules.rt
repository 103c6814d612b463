//! The rules of the deterministic encoding: what is not canonical is refused, and the last key of each open map is stored.

ghost use Rattle.std.specs.Prelude.{◌≡◌, ◌≤◌, ◌<◌, ◌-◌, ◌∷◌, ◌^◌, ℕ, List, length};
ghost use Rattle.cbor_head.specs.Limits.{Bounds};
ghost use Rattle.cbor_head.specs.declared.order.KeyOrder as orders;
ghost use Rattle.theory_verdicts.specs.Stop.{IsRefused};
ghost use Rattle.cbor_parser.specs.Stack.{open_levels};
ghost use Rattle.cbor_parser.specs.inner.Cells.{StrictCell, OutOfOrder};
ghost use Rattle.cbor_parser.specs.inner.StrictRules.{Expect, HaveItem, Fill, Pass, LackCells, Stop};
ghost use Rattle.cbor_parser.specs.inner.Rules.{TakesTo, StopsAt, HasCellLeft};

use crate::container::Expected;
use crate::fast_item::{FastItem, fast_item};
use crate::item_rules::{ItemRules, Part, Step};
use crate::item_start::{Here, ItemStart, item_start, refusal_at};
use crate::kinds::is_asked;
use crate::last_key::{LastKey, strict_cell};
use crate::open_container::OpenContainer;
use crate::stack::Stack;
use crate::walk::WalkStop;
use cbor_head::{KeyOrder, Limits, Reason, Refusal};
use theory_values::part;

/// The rules of the deterministic encoding with this order of keys, for an item at the start of this input.
#[derive(Clone, Copy)]
pub(crate) struct StrictRules<'a> {
    input: &'a [u8],
    order: KeyOrder,
    // The refusal of the next item, if the walk stops for it. It is here so that the result of each item stays small.
    refusal: Refusal,
}

/// Why there is no canonical item.
#[derive(Clone, Copy)]
pub(crate) enum StrictStop {
    /// The next item is refused.
    Refused,
    /// The key that has ended does not come after the last one.
    OutOfOrder,
}

impl<'a> ItemRules<'a> for StrictRules<'a> {
    type Kept = LastKey;

    type Stop = StrictStop;

    type Error = Refusal;

    ghost agrees = { Expect };

    ghost ends = { HaveItem };

    ghost fills = { Fill };

    ghost passes = { Pass };

    ghost lacks = { LackCells };

    ghost stops = { Stop };

    ghost refuses = { λ first now limits input f. IsRefused first.order limits input f };

    #[inline(always)]
    fn take(
        &mut self,
        rest: &'a [u8],
        stack: &mut Stack<OpenContainer<LastKey>>,
        cells: &mut [OpenContainer<LastKey>],
        limits: Limits,
    ) -> Part<StrictStop> {
        let Some((first, _)) = rest.split_first() else {
            return self.take_any(rest, stack, cells, limits);
        };
        match fast_item(*first, rest, &stack.top.expected, limits.keys()) {
            FastItem::Item(used) => return Part::Item(used),
            FastItem::Opens(expected, left, used) => {
                if stack.height < usize::from(limits.depth()) && stack.height < cells.len() {
                    let at = self.input.len() - rest.len();
                    stack.push(cells, strict_cell(expected, left, at + used));
                    return Part::Head(used);
                }
            }
            FastItem::Other => {}
        }
        self.take_any(rest, stack, cells, limits)
    }

    #[inline(always)]
    fn end_item(&mut self, top: &mut OpenContainer<LastKey>, rest: &'a [u8]) -> Step<StrictStop> {
        top.end_item(self.input, self.order, self.input.len() - rest.len())
    }

    #[inline(always)]
    fn end_container(
        &mut self,
        _top: &OpenContainer<LastKey>,
        _rest: &'a [u8],
    ) -> Option<StrictStop> {
        None
    }

    #[cold]
    #[inline(never)]
    fn error(
        &mut self,
        stop: WalkStop<'a, StrictStop>,
        stack: &Stack<OpenContainer<LastKey>>,
        cells: &[OpenContainer<LastKey>],
        input: &'a [u8],
        limits: Limits,
    ) -> Refusal
        requires cells { stack.now.height ≤ length cells.now }
        requires left { HasCellLeft stop stack.now.height (length cells.now) limits }
        requires within { length input.now ≤ 2 ^ 62 }
        requires stopped { (first : StrictRules) × StopsAt StrictRules LastKey StrictStop Expect Stop LackCells stop first self.old limits input.now
            (open_levels StrictCell stack.now cells.now) (length cells.now) }
        ensures { (first : StrictRules) → StopsAt StrictRules LastKey StrictStop Expect Stop LackCells stop.entry first self.old limits input.now
            (open_levels StrictCell stack.now cells.now) (length cells.now)
            → IsRefused first.order limits input.now result }
    {
        match stop {
            WalkStop::Stopped(_, StrictStop::Refused) => self.refusal,
            WalkStop::Stopped(rest, StrictStop::OutOfOrder) => {
                key_out_of_order(input, &stack.top.kept, input.len() - rest.len())
            }
            // If a cell is left, each item is taken or refused.
            WalkStop::Untaken(_) => unreachable!(),
        }
    }
}

impl<'a> StrictRules<'a> {
    /// The rules for the item at the start of this input.
    #[inline(always)]
    pub(crate) fn new(input: &'a [u8], order: KeyOrder) -> StrictRules<'a>
        ensures input { result.input.now ≡ input.now }
        ensures order { result.order ≡ order }
    {
        StrictRules {
            input,
            order,
            refusal: Refusal::at(Reason::Memory, 0),
        }
    }

    // Takes any item that the fast functions do not recognise.
    #[inline(always)]
    fn take_any(
        &mut self,
        rest: &'a [u8],
        stack: &mut Stack<OpenContainer<LastKey>>,
        cells: &mut [OpenContainer<LastKey>],
        limits: Limits,
    ) -> Part<StrictStop>
        requires cells { stack.old.height ≤ length cells.old }
        requires expected { (first : StrictRules) × (input : List ℕ)
            × Expect first self.old limits input (open_levels StrictCell stack.old cells.old) rest.now }
        ensures cells { stack.new.height ≤ length cells.new }
        ensures takes { (first : StrictRules) (input : List ℕ)
            → Expect first self.old limits input (open_levels StrictCell stack.old cells.old) rest.now
            → TakesTo StrictRules LastKey StrictStop Expect Stop HaveItem Fill Pass LackCells result first self.new limits input
            (open_levels StrictCell stack.new cells.new) (length cells.new) rest.now }
    {
        let here = Here {
            space: stack.height < usize::from(limits.depth()),
            is_key: is_asked(limits.keys(), stack.top.expected),
            may_break: false,
        };
        let at = self.input.len() - rest.len();
        match item_start(rest, at, here, true) {
            ItemStart::Leaf(used) => Part::Item(used),
            ItemStart::Opens(expected, left, used) => {
                if stack.height >= cells.len() {
                    return Part::Untaken;
                }
                stack.push(cells, strict_cell(expected, left, at + used));
                Part::Head(used)
            }
            ItemStart::Refused(refusal) => {
                self.refusal = refusal;
                Part::Stopped(StrictStop::Refused)
            }
            // Nothing of indefinite length is canonical.
            ItemStart::Indefinite => unreachable!(),
        }
    }
}

// The refusal of the expected key, which ends there and does not come after the last one. If it is the same, it is repeated.
fn key_out_of_order(input: &[u8], keys: &LastKey, at: usize) -> Refusal
    ensures { (order : orders.KeyOrder) (limits : Bounds)
        → OutOfOrder order limits input.now keys.now at
        → IsRefused order limits input.now result }
{
    let last = part(input, keys.last, keys.last_end);
    let key = part(input, keys.key, at);
    let reason = if last == key {
        Reason::RepeatedKey
    } else {
        Reason::KeyOrder
    };
    refusal_at(reason, keys.key, at)
}
