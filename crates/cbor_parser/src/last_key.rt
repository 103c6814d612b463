//! The last keys of open maps, which the next keys are compared with, and what a complete item changes in its
//! container.

ghost use Rattle.std.specs.Prelude.{◌≡◌, ◌≤◌, true, length};
ghost use Rattle.theory_values.specs.KeyPrefix.{prefix_of};
ghost use Rattle.cbor_head.specs.Order.{key_lt};
ghost use Rattle.cbor_parser.specs.inner.Cells.{strict_cell, no_key, key_at, last_key, IsPrefixed, TakesKey};
ghost use Rattle.cbor_parser.specs.inner.StrictRules.{Advances};

use crate::container::Expected;
use crate::item_rules::Step;
use crate::open_container::OpenContainer;
use crate::strict_rules::StrictStop;
use cbor_head::KeyOrder;
use std::cmp::Ordering;
use theory_values::{compare_keys, key_prefix, part};

/// Where the keys of an open map are in the input.
#[derive(Clone, Copy)]
pub(crate) struct LastKey {
    // The offset of the key that is expected.
    pub(crate) key: usize,
    // Where the last key begins and ends; an empty range before the first key.
    pub(crate) last: usize,
    pub(crate) last_end: usize,
    // The first eight bytes of the last key, as a number.
    pub(crate) prefix: u64,
}

impl LastKey {
    /// No last key, in a map whose first key begins there.
    #[inline(always)]
    pub(crate) fn none(at: usize) -> LastKey
        ensures { result ≡ no_key at }
    {
        LastKey {
            key: at,
            last: at,
            last_end: at,
            prefix: 0,
        }
    }

    // Takes the expected key, which ends there. Returns whether it comes after the last one.
    #[inline(always)]
    fn take_key(&mut self, input: &[u8], order: KeyOrder, at: usize) -> bool
        requires { at ≤ length input.now }
        ensures { TakesKey result order input.now at self.old self.new }
    {
        if self.key > at {
            return false;
        }
        let prefix = key_prefix(input, self.key, at);
        if !self.rises(input, order, prefix, at) {
            return false;
        }
        self.prefix = prefix;
        self.last = self.key;
        self.last_end = at;
        true
    }

    // Whether the key that ends there, with this prefix, comes after the last one.
    #[inline(always)]
    fn rises(&self, input: &[u8], order: KeyOrder, prefix: u64, at: usize) -> bool
        requires { prefix ≡ prefix_of (key_at input.now self.now at) }
        ensures { IsPrefixed input.now self.now
            → result ≡ key_lt order (last_key input.now self.now) (key_at input.now self.now at) }
    {
        if let KeyOrder::Bytewise = order {
            if self.prefix != prefix {
                return self.prefix < prefix;
            }
        }
        let last = part(input, self.last, self.last_end);
        let key = part(input, self.key, at);
        compare_keys(order, last, key) == Ordering::Less
    }
}

/// The cell of a container after its head: what is expected in it, and how many members or pairs follow the first.
#[inline(always)]
pub(crate) fn strict_cell(expected: Expected, left: u64, at: usize) -> OpenContainer<LastKey>
    ensures { result ≡ strict_cell expected left at }
{
    OpenContainer::counted(expected, left, LastKey::none(at))
}

impl OpenContainer<LastKey> {
    /// Ends an item of this container there.
    #[inline(always)]
    pub(crate) fn end_item(&mut self, input: &[u8], order: KeyOrder, at: usize) -> Step<StrictStop>
        requires { at ≤ length input.now }
        ensures { Advances result order input.now at self.old self.new }
    {
        match self.expected {
            Expected::Key => {
                if !self.kept.take_key(input, order, at) {
                    return Step::Stopped(StrictStop::OutOfOrder);
                }
            }
            // The next key, if there is one, begins there.
            Expected::Value => self.kept.key = at,
            Expected::Item => {}
        }
        if self.advance() {
            Step::Next
        } else {
            Step::Full
        }
    }
}
