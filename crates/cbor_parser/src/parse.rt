//! The item at the start of a slice, by any rules, with a stack that grows.

ghost use Rattle.std.specs.Prelude.{◌≡◌, ◌≤◌, ◌∷◌, ◌^◌, [], length, MatchResult};
ghost use Rattle.cbor_parser.specs.Stack.{open_levels};
ghost use Rattle.cbor_parser.specs.declared.open_container.OpenContainer.{OpenContainer as Cell};
ghost use Rattle.cbor_parser.specs.inner.Rules.{CellsFitInMemory};

use crate::item_rules::ItemRules;
use crate::open_container::OpenContainer;
use crate::stack::{FEW, MOST, Stack, lend};
use crate::walk::{WalkStop, walk};
use cbor_head::Limits;

/// Parses the item that the input begins with, and returns the bytes after it. The outermost
/// container is the input itself.
#[inline(always)]
pub(crate) fn parse<'a, R: ItemRules<'a>>(
    rules: &mut R,
    input: &'a [u8],
    outermost: OpenContainer<R::Kept>,
    limits: Limits,
) -> Result<&'a [u8], R::Error>
    requires expected { R.agrees rules.old rules.old limits input.now (outermost ∷ []) input.now }
    requires within { length input.now ≤ 2 ^ 62 }
    requires fits { CellsFitInMemory R.Kept.row }
    ensures { MatchResult result
        (λ following. R.passes rules.old rules.new limits input.now following.now)
        (R.refuses rules.old rules.new limits input.now) }
{
    let none = [outermost; 0];
    shallow(rules, input, input, Stack::new(outermost), &none, limits)
}

// Parses with few cells, which are enough for an item that is not deep.
#[inline(always)]
fn shallow<'a, R: ItemRules<'a>>(
    rules: &mut R,
    input: &'a [u8],
    rest: &'a [u8],
    stack: Stack<OpenContainer<R::Kept>>,
    few: &[OpenContainer<R::Kept>],
    limits: Limits,
) -> Result<&'a [u8], R::Error>
    requires few { length few.now ≤ FEW }
    requires full { stack.height ≡ length few.now }
    requires expected { (first : R) × R.agrees first rules.old limits input.now
        (open_levels (Cell R.Kept) stack few.now) rest.now }
    requires within { length input.now ≤ 2 ^ 62 }
    requires fits { CellsFitInMemory R.Kept.row }
    ensures { (first : R)
        → R.agrees first rules.old limits input.now (open_levels (Cell R.Kept) stack few.now) rest.now
        → MatchResult result
        (λ following. R.passes first rules.new limits input.now following.now)
        (R.refuses first rules.new limits input.now) }
{
    let mut stack = stack;
    let mut cells = [stack.top; FEW];
    lend(few, &mut cells);
    match walk(rules, rest, &mut stack, &mut cells, limits) {
        Ok(following) => Ok(following),
        // If a cell is left, a missing cell is not the reason.
        Err(WalkStop::Untaken(rest)) if stack.height >= FEW => {
            deeper(rules, input, rest, stack, &cells, limits)
        }
        Err(stop) => Err(rules.error(stop, &stack, &cells, input, limits)),
    }
}

// Continues at the position where the cells ran out, with one for each container that may be open.
#[inline(never)]
fn deeper<'a, R: ItemRules<'a>>(
    rules: &mut R,
    input: &'a [u8],
    rest: &'a [u8],
    stack: Stack<OpenContainer<R::Kept>>,
    few: &[OpenContainer<R::Kept>],
    limits: Limits,
) -> Result<&'a [u8], R::Error>
    requires few { length few.now ≤ MOST }
    requires full { stack.height ≡ length few.now }
    requires expected { (first : R) × R.agrees first rules.old limits input.now
        (open_levels (Cell R.Kept) stack few.now) rest.now }
    requires within { length input.now ≤ 2 ^ 62 }
    requires fits { CellsFitInMemory R.Kept.row }
    ensures { (first : R)
        → R.agrees first rules.old limits input.now (open_levels (Cell R.Kept) stack few.now) rest.now
        → MatchResult result
        (λ following. R.passes first rules.new limits input.now following.now)
        (R.refuses first rules.new limits input.now) }
{
    let mut stack = stack;
    let mut cells = [stack.top; MOST];
    lend(few, &mut cells);
    match walk(rules, rest, &mut stack, &mut cells, limits) {
        Ok(following) => Ok(following),
        Err(stop) => Err(rules.error(stop, &stack, &cells, input, limits)),
    }
}
