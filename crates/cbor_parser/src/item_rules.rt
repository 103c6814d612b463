//! The rules by which a parse takes items, and what it does with them.

ghost use Rattle.std.specs.Prelude.{◌≤◌, ◌^◌, ◌∷◌, [], ℕ, List, length};
ghost use Rattle.cbor_head.specs.Limits.{Bounds};
ghost use Rattle.cbor_parser.specs.Stack.{open_levels};
ghost use Rattle.cbor_parser.specs.declared.open_container.OpenContainer.{OpenContainer as Cell};
ghost use Rattle.cbor_parser.specs.inner.Rules.{TakesTo, StepsTo, ClosesTo, StopsAt, HasCellLeft};

use crate::open_container::OpenContainer;
use crate::stack::Stack;
use crate::walk::WalkStop;
use cbor_head::Limits;

/// What was taken where an item was expected, with its number of bytes. Numbers stay in registers; slices would be
/// copied for each item.
#[derive(Clone, Copy)]
pub(crate) enum Part<E> {
    /// An item.
    Item(usize),
    /// The head of a container, which is now open.
    Head(usize),
    /// The break of the innermost container, which is complete, and is still open.
    Break(usize),
    /// Nothing: it is not allowed there, or it is a container and there is no cell for it.
    Untaken,
    /// Nothing: the parse stops.
    Stopped(E),
}

/// What follows an item in its container.
#[derive(Clone, Copy)]
pub(crate) enum Step<E> {
    /// Another is expected.
    Next,
    /// The container is complete.
    Full,
    /// The parse stops.
    Stopped(E),
}

/// The rules by which a parse takes items, with what is stored for each open container, and what is done with the
/// items. `StrictRules` stores the last key of each map; `Parser` gives each part of a valid item to a sink.
pub(crate) trait ItemRules<'a> {
    /// What is stored for an open container.
    type Kept: Copy;

    /// Why a parse stops after what is taken.
    type Stop: Copy;

    /// Why there is no item.
    type Error;

    // The rules went from the first state to this one, within these limits; now an item is expected in these
    // containers, before the rest of the input.
    ghost agrees: { Self → Self → Bounds → List ℕ → List (Cell Self.Kept) → List ℕ → Type 0 };

    // An item of the innermost container is complete.
    ghost ends: { Self → Self → Bounds → List ℕ → List (Cell Self.Kept) → List ℕ → Type 0 };

    // The innermost container, which is not the input itself, is complete.
    ghost fills: { Self → Self → Bounds → List ℕ → List (Cell Self.Kept) → List ℕ → Type 0 };

    // The input's item is complete.
    ghost passes: { Self → Self → Bounds → List ℕ → List ℕ → Type 0 };

    // With this number of cells for these containers, what is next, at the start of these bytes, may be left.
    ghost lacks: { Bounds → List (Cell Self.Kept) → ℕ → List ℕ → Type 0 };

    // The parse stops, before the rest of the input.
    ghost stops: { Self → Self → Bounds → List ℕ → List (Cell Self.Kept) → List ℕ → Self.Stop → Type 0 };

    // The rules went from the first state to this one, and the input is refused for this reason.
    ghost refuses: { Self → Self → Bounds → List ℕ → Self.Error → Type 0 };

    /// Takes the item, head or break at the start of `rest`.
    fn take(
        &mut self,
        rest: &'a [u8],
        stack: &mut Stack<OpenContainer<Self::Kept>>,
        cells: &mut [OpenContainer<Self::Kept>],
        limits: Limits,
    ) -> Part<Self::Stop>
        requires cells { stack.old.height ≤ length cells.old }
        requires expected { (start : Self) × (input : List ℕ)
            × agrees start self.old limits input (open_levels (Cell Self.Kept) stack.old cells.old) rest.now }
        ensures cells { stack.new.height ≤ length cells.new }
        ensures takes { (start : Self) (input : List ℕ)
            → agrees start self.old limits input (open_levels (Cell Self.Kept) stack.old cells.old) rest.now
            → TakesTo Self Self.Kept Self.Stop agrees stops ends fills passes lacks result start self.new limits input
            (open_levels (Cell Self.Kept) stack.new cells.new) (length cells.new) rest.now };

    /// Ends an item of this container; these bytes follow it.
    fn end_item(&mut self, top: &mut OpenContainer<Self::Kept>, rest: &'a [u8]) -> Step<Self::Stop>
        requires { (start : Self) × (limits : Bounds) × (input : List ℕ) × (outer : List (Cell Self.Kept))
            × ends start self.old limits input (top.old ∷ outer) rest.now }
        ensures { (start : Self) (limits : Bounds) (input : List ℕ) (outer : List (Cell Self.Kept))
            → ends start self.old limits input (top.old ∷ outer) rest.now
            → StepsTo Self Self.Kept Self.Stop agrees stops fills passes result start self.new limits input (top.new ∷ outer) rest.now };

    /// Ends this container, which is not the input itself; these bytes follow it.
    fn end_container(
        &mut self,
        top: &OpenContainer<Self::Kept>,
        rest: &'a [u8],
    ) -> Option<Self::Stop>
        requires { (start : Self) × (limits : Bounds) × (input : List ℕ) × (c : Cell Self.Kept) × (outer : List (Cell Self.Kept))
            × fills start self.old limits input (top.now ∷ c ∷ outer) rest.now }
        ensures { (start : Self) (limits : Bounds) (input : List ℕ) (c : Cell Self.Kept) (outer : List (Cell Self.Kept))
            → fills start self.old limits input (top.now ∷ c ∷ outer) rest.now
            → ClosesTo Self Self.Kept Self.Stop stops ends result start self.new limits input top.now (c ∷ outer) rest.now };

    /// Why there is no item, if a walk stops for this reason.
    fn error(
        &mut self,
        stop: WalkStop<'a, Self::Stop>,
        stack: &Stack<OpenContainer<Self::Kept>>,
        cells: &[OpenContainer<Self::Kept>],
        input: &'a [u8],
        limits: Limits,
    ) -> Self::Error
        requires cells { stack.now.height ≤ length cells.now }
        requires left { HasCellLeft stop stack.now.height (length cells.now) limits }
        requires within { length input.now ≤ 2 ^ 62 }
        requires stopped { (start : Self) × StopsAt Self Self.Kept Self.Stop agrees stops lacks stop start self.old limits input.now
            (open_levels (Cell Self.Kept) stack.now cells.now) (length cells.now) }
        ensures { (start : Self) → StopsAt Self Self.Kept Self.Stop agrees stops lacks stop.entry start self.old limits input.now
            (open_levels (Cell Self.Kept) stack.now cells.now) (length cells.now)
            → refuses start self.new limits input.now result };
}
