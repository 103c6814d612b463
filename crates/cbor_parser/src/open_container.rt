//! What is still to come in an open container, of definite or indefinite length, and what is stored
//! for it.

ghost use Rattle.std.specs.Prelude.{◌≡◌, ◌≢◌, Some, None, true, false};
ghost use Rattle.cbor_parser.specs.Expected.{pairs};
ghost use Rattle.cbor_parser.specs.inner.OpenContainer.{after, counted, indefinite};

use crate::container::Expected;

/// An open container. The check of canonical bytes stores the last key of a map (`LastKey`); the
/// parser of valid items stores how many bytes of the input follow the head (`usize`), so that the
/// pairs of a map can be read again if two of its keys are the same.
#[derive(Clone, Copy)]
pub(crate) struct OpenContainer<K> {
    // How many members or pairs follow the one that is expected; 0 for indefinite length.
    pub(crate) left: u64,
    pub(crate) expected: Expected,
    // A break ends it.
    pub(crate) is_indefinite: bool,
    pub(crate) kept: K,
}

impl<K: Copy> OpenContainer<K> {
    /// One of definite length: what is expected in it, and how many members or pairs follow the
    /// first.
    #[inline(always)]
    pub(crate) fn counted(expected: Expected, left: u64, kept: K) -> OpenContainer<K>
        ensures { result ≡ counted expected left kept }
    {
        OpenContainer {
            left,
            expected,
            is_indefinite: false,
            kept,
        }
    }

    /// One of indefinite length, in which this is expected.
    #[inline(always)]
    pub(crate) fn indefinite(expected: Expected, kept: K) -> OpenContainer<K>
        ensures { result ≡ indefinite expected kept }
    {
        OpenContainer {
            left: 0,
            expected,
            is_indefinite: true,
            kept,
        }
    }

    /// Whether a break is allowed here.
    #[inline(always)]
    pub(crate) fn may_break(self) -> bool
        ensures may { self.is_indefinite ≡ true → self.expected ≢ Expected.Value → result ≡ true }
        ensures only { result ≡ true → (self.is_indefinite ≡ true) × (self.expected ≢ Expected.Value) }
    {
        self.is_indefinite && !matches!(self.expected, Expected::Value)
    }

    /// Ends an item of it. Returns whether another is expected.
    #[inline(always)]
    pub(crate) fn advance(&mut self) -> bool
        ensures more { result ≡ true → after self.old ≡ Some self.new }
        ensures full { result ≡ false → after self.old ≡ None }
        ensures kind { pairs self.new.expected ≡ pairs self.old.expected }
        ensures kept { self.new.kept ≡ self.old.kept }
    {
        match self.expected {
            Expected::Key => {
                self.expected = Expected::Value;
                return true;
            }
            Expected::Value => self.expected = Expected::Key,
            Expected::Item => {}
        }
        // A member or a pair is complete.
        if self.left == 0 {
            return self.is_indefinite;
        }
        self.left -= 1;
        true
    }
}
