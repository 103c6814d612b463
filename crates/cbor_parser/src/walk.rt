//! The walk over an item, by any rules.

ghost use Rattle.std.specs.Prelude.{◌≡◌, ◌≤◌, ℕ, List, length, MatchResult};
ghost use Rattle.cbor_head.specs.Limits.{Bounds};
ghost use Rattle.cbor_parser.specs.Stack.{open_levels};
ghost use Rattle.cbor_parser.specs.declared.open_container.OpenContainer.{OpenContainer as Cell};
ghost use Rattle.cbor_parser.specs.inner.Rules.{IsFilled, LeadsTo, StopsAt};

use crate::item_rules::{ItemRules, Part, Step};
use crate::open_container::OpenContainer;
use crate::stack::Stack;
use cbor_head::Limits;

/// Why a walk stops before the item's end.
#[derive(Clone, Copy)]
pub(crate) enum WalkStop<'a, E> {
    /// An item is expected before these bytes. What begins there is not allowed, or there is no cell for it.
    Untaken(&'a [u8]),
    /// The rules stopped it before these bytes.
    Stopped(&'a [u8], E),
}

/// What is expected after a container that is complete.
#[derive(Clone, Copy)]
pub(crate) enum CloseResult<E> {
    /// Another item.
    Item,
    /// Nothing: the input's item is complete.
    Done,
    /// Nothing: the rules stopped the walk.
    Stopped(E),
}

/// Walks from where an item is expected to the end of the input's item. Returns the bytes after it.
pub(crate) fn walk<'a, R: ItemRules<'a>>(
    rules: &mut R,
    start: &'a [u8],
    stack: &mut Stack<OpenContainer<R::Kept>>,
    cells: &mut [OpenContainer<R::Kept>],
    limits: Limits,
) -> Result<&'a [u8], WalkStop<'a, R::Stop>>
    requires cells { stack.old.height ≤ length cells.old }
    requires expected { (first : R) × (input : List ℕ)
        × R.agrees first rules.old limits input (open_levels (Cell R.Kept) stack.old cells.old) start.now }
    ensures cells { stack.new.height ≤ length cells.new }
    ensures walked { (first : R) (input : List ℕ)
        → R.agrees first rules.old limits input (open_levels (Cell R.Kept) stack.old cells.old) start.now
        → MatchResult result
        (λ following. R.passes first rules.new limits input following.now)
        (λ stop. StopsAt R R.Kept R.Stop R.agrees R.stops R.lacks stop first rules.new limits input
        (open_levels (Cell R.Kept) stack.new cells.new) (length cells.new)) }
{
    let mut rest = start;
    'parts: loop {
        match rules.take(rest, stack, cells, limits) {
            Part::Head(used) => rest = &rest[used..],
            Part::Item(used) => {
                rest = &rest[used..];
                match rules.end_item(&mut stack.top, rest) {
                    Step::Next => {}
                    Step::Full => match close(rules, rest, stack, cells) {
                        CloseResult::Item => {}
                        CloseResult::Done => return Ok(rest),
                        CloseResult::Stopped(stop) => return Err(WalkStop::Stopped(rest, stop)),
                    },
                    Step::Stopped(stop) => return Err(WalkStop::Stopped(rest, stop)),
                }
            }
            Part::Break(used) => {
                rest = &rest[used..];
                match close_at_break(rules, rest, stack, cells) {
                    CloseResult::Item => {}
                    CloseResult::Done => return Ok(rest),
                    CloseResult::Stopped(stop) => return Err(WalkStop::Stopped(rest, stop)),
                }
            }
            Part::Untaken => return Err(WalkStop::Untaken(rest)),
            Part::Stopped(stop) => return Err(WalkStop::Stopped(rest, stop)),
        }
    }
}

// Closes the innermost container, which is complete, and those around it that are complete with it.
#[inline(always)]
fn close<'a, R: ItemRules<'a>>(
    rules: &mut R,
    rest: &'a [u8],
    stack: &mut Stack<OpenContainer<R::Kept>>,
    cells: &[OpenContainer<R::Kept>],
) -> CloseResult<R::Stop>
    requires cells { stack.old.height ≤ length cells.now }
    requires filled { (first : R) × (limits : Bounds) × (input : List ℕ)
        × IsFilled R R.Kept R.fills R.passes first rules.old limits input (open_levels (Cell R.Kept) stack.old cells.now) rest.now }
    ensures cells { stack.new.height ≤ length cells.now }
    ensures leads { (first : R) (limits : Bounds) (input : List ℕ)
        → IsFilled R R.Kept R.fills R.passes first rules.old limits input (open_levels (Cell R.Kept) stack.old cells.now) rest.now
        → LeadsTo R R.Kept R.Stop R.agrees R.stops R.passes result first rules.new limits input
        (open_levels (Cell R.Kept) stack.new cells.now) rest.now }
{
    'levels: while stack.height > 0 {
        if let Some(stop) = rules.end_container(&stack.top, rest) {
            return CloseResult::Stopped(stop);
        }
        stack.pop(cells);
        match rules.end_item(&mut stack.top, rest) {
            Step::Next => return CloseResult::Item,
            Step::Full => {}
            Step::Stopped(stop) => return CloseResult::Stopped(stop),
        }
    }
    CloseResult::Done
}

// Closes the innermost container at a break. Not inlined, so that the code that ends a container is in the loop once.
#[inline(never)]
fn close_at_break<'a, R: ItemRules<'a>>(
    rules: &mut R,
    rest: &'a [u8],
    stack: &mut Stack<OpenContainer<R::Kept>>,
    cells: &[OpenContainer<R::Kept>],
) -> CloseResult<R::Stop>
    requires cells { stack.old.height ≤ length cells.now }
    requires filled { (first : R) × (limits : Bounds) × (input : List ℕ)
        × IsFilled R R.Kept R.fills R.passes first rules.old limits input (open_levels (Cell R.Kept) stack.old cells.now) rest.now }
    ensures cells { stack.new.height ≤ length cells.now }
    ensures leads { (first : R) (limits : Bounds) (input : List ℕ)
        → IsFilled R R.Kept R.fills R.passes first rules.old limits input (open_levels (Cell R.Kept) stack.old cells.now) rest.now
        → LeadsTo R R.Kept R.Stop R.agrees R.stops R.passes result first rules.new limits input
        (open_levels (Cell R.Kept) stack.new cells.now) rest.now }
{
    close(rules, rest, stack, cells)
}
