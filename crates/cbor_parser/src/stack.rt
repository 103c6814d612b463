//! The open containers of an item, in cells that the caller lends.

ghost use Rattle.std.specs.Prelude.{◌≡◌, ◌≤◌, ◌<◌, ◌∷◌, suc, length, take};
ghost use Rattle.cbor_parser.specs.Stack.{around, open_levels};

use cbor_head::MAX_DEPTH;

/// The number of open containers, and the innermost. Those around it are in the first of the cells that
/// each call borrows. The outermost is the input itself, in which one item is expected.
#[derive(Clone, Copy)]
pub struct Stack<L> {
    pub height: usize,
    pub top: L,
}

impl<L: Copy> Stack<L> {
    /// A stack with the input alone.
    pub fn new(input: L) -> Stack<L>
        ensures height { result.height ≡ 0 }
        ensures top { result.top ≡ input }
    {
        Stack {
            height: 0,
            top: input,
        }
    }

    /// Opens one more container.
    #[inline(always)]
    pub fn push(&mut self, cells: &mut [L], level: L)
        requires { self.old.height < length cells.old }
        ensures height { self.new.height ≡ suc self.old.height }
        ensures levels { open_levels L self.new cells.new ≡ level ∷ open_levels L self.old cells.old }
    {
        cells[self.height] = self.top;
        self.height += 1;
        self.top = level;
    }

    /// Closes the innermost container.
    #[inline(always)]
    pub fn pop(&mut self, cells: &[L])
        requires open { 0 < self.old.height }
        requires cells { self.old.height ≤ length cells.now }
        ensures height { self.old.height ≡ suc self.new.height }
        ensures levels { open_levels L self.new cells.now ≡ around L self.old cells.now }
    {
        self.height -= 1;
        self.top = cells[self.height];
    }
}

/// Few items are deeper. The cells of these and of the deepest items have to fit in 64 KiB of stack.
pub const FEW: usize = 16;
/// No item is deeper.
pub const MOST: usize = MAX_DEPTH as usize;

/// Copies these cells to the start of a larger array of the caller. Returning the array would need its size
/// twice on the stack.
#[inline(always)]
pub fn lend<L: Copy>(few: &[L], cells: &mut [L])
    requires { length few.now ≤ length cells.old }
    ensures { take (length few.now) cells.new ≡ few.now }
{
    cells[..few.len()].copy_from_slice(few);
}
