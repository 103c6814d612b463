//! How much may be checked in vain.

ghost use Rattle.std.specs.Prelude.{◌≤◌};

// In quarters of a byte: before an item, at most, and the least with which an item is checked at once.
const FIRST: usize = 4 << 12;

const MOST: usize = 4 << 16;

const LEAST: usize = 4 << 7;

// What a check in vain costs, also if it reads few bytes.
const CALL: usize = 64;

/// How many bytes may be checked at once and in vain, because their item is longer than the input,
/// or refused. Each event allows a quarter of a byte more, and an item that was consumed at once as
/// many bytes as it has. So what is checked in vain takes a small part of the time.
#[derive(Clone, Copy)]
pub(crate) struct Allowance {
    quarters: usize,
}

impl Allowance {
    /// What is allowed before an item's first byte.
    pub(crate) fn new() -> Allowance {
        Allowance { quarters: FIRST }
    }

    /// The number of bytes to check of an input of this length: at most half of what is allowed,
    /// and 0 if little is.
    #[inline(always)]
    pub(crate) fn part(self, length: usize) -> usize
        ensures { result ≤ length }
    {
        if self.quarters < LEAST {
            return 0;
        }
        length.min(self.quarters / 8)
    }

    /// This number of bytes was checked in vain.
    pub(crate) fn spend(&mut self, bytes: usize) {
        self.quarters = self.quarters.saturating_sub(4 * bytes.min(MOST) + CALL);
    }

    /// An item of this number of bytes was consumed at once.
    #[inline(always)]
    pub(crate) fn earn(&mut self, bytes: usize) {
        self.quarters = self.quarters.saturating_add(4 * bytes.min(MOST)).min(MOST);
    }

    /// An event was reported.
    #[inline(always)]
    pub(crate) fn earn_event(&mut self) {
        if self.quarters < LEAST {
            self.quarters += 1;
        }
    }
}
