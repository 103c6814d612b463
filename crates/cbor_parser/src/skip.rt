//! Skips items that are known to be valid, and stores nothing of them.

ghost use Rattle.std.specs.Prelude.{◌≡◌, ◌≤◌, ◌^◌, ℕ, true, List, length};
ghost use Rattle.cbor_head.specs.declared.keys.Keys.TheVariants.{Any};
ghost use Rattle.cbor_parser.specs.inner.Skip.{anywhere, anything, HasItemsAtStart};

use crate::container::Expected;
use crate::open_container::OpenContainer;
use crate::parse::parse;
use crate::parser::Parser;
use crate::sink::Sink;
use cbor_builder::Repeat;
use cbor_head::{Limits, Major};
use std::alloc::AllocError;

/// Stores nothing.
#[derive(Drop)]
pub(crate) struct Nothing;

impl<'a> Sink<'a> for Nothing {
    ghost agrees = { anywhere Self };

    ghost holds = { anything Self };

    ghost trusts = { true };

    ghost refused = { λ _. ⊥ };

    #[inline(always)]
    fn is_trusting() -> bool {
        true
    }

    #[inline(always)]
    fn leaf(&mut self, _is_key: bool, _major: Major, _number: u64) -> Result<(), AllocError> {
        Ok(())
    }

    #[inline(always)]
    fn string(
        &mut self,
        _is_key: bool,
        _is_text: bool,
        _prefix: &'a [u8],
        _count: usize,
    ) -> Result<(), AllocError> {
        Ok(())
    }

    #[inline(always)]
    fn begin_string(&mut self, _is_key: bool, _is_text: bool) -> Result<(), AllocError> {
        Ok(())
    }

    #[inline(always)]
    fn chunk(
        &mut self,
        _is_key: bool,
        _is_text: bool,
        _prefix: &'a [u8],
        _count: usize,
    ) -> Result<(), AllocError> {
        Ok(())
    }

    #[inline(always)]
    fn end_string(&mut self, _is_key: bool, _is_text: bool) -> Result<(), AllocError> {
        Ok(())
    }

    #[inline(always)]
    fn begin(&mut self, _is_key: bool, _major: Major, _number: u64) -> Result<(), AllocError> {
        Ok(())
    }

    #[inline(always)]
    fn end(&mut self, _is_map: bool) -> Result<Option<Repeat>, AllocError> {
        Ok(None)
    }

    #[inline(always)]
    fn first_repeat(&mut self) -> Option<Repeat> {
        None
    }
}

/// The bytes after this number of items, which are known to be valid; the kinds of their keys are not judged.
pub(crate) fn past_items(items: &[u8], count: u64, limits: Limits) -> &[u8]
    requires small { length items.now ≤ 2 ^ 62 }
    requires within { length items.now ≤ limits.bytes }
    requires any { limits.keys ≡ Any }
    requires items { (following : List ℕ) × HasItemsAtStart limits.depth items.now count following }
    ensures { (following : List ℕ) → HasItemsAtStart limits.depth items.now count following
        → result.now ≡ following }
{
    let mut rest = items;
    for _ in 0..count {
        let outermost = OpenContainer::counted(Expected::Item, 0, 0);
        match parse(&mut Parser::new(Nothing), rest, outermost, limits) {
            Ok(following) => rest = following,
            // A valid item is not refused, and this sink requests no memory.
            Err(_) => unreachable!(),
        }
    }
    rest
}
