//! A builder of canonical bytes as a sink.

ghost use Rattle.std.specs.Prelude.{◌≡◌, IsTrue};
ghost use Rattle.theory_verdicts.specs.Reading.{string_major};
ghost use Rattle.cbor_parser.specs.CanonSink.{canon_agrees, canon_holds};

use crate::sink::Sink;
use cbor_builder::{CanonBuilder, Repeat};
use cbor_head::Major;
use std::alloc::AllocError;

impl<'a> Sink<'a> for CanonBuilder {
    ghost agrees = { canon_agrees };

    ghost holds = { canon_holds };

    ghost refused = { λ builder. IsTrue builder.refused };

    #[inline(always)]
    fn is_trusting() -> bool {
        false
    }

    #[inline(always)]
    fn leaf(&mut self, _is_key: bool, major: Major, number: u64) -> Result<(), AllocError> {
        CanonBuilder::leaf(self, major, number)?;
        Ok(())
    }

    #[inline(always)]
    fn string(
        &mut self,
        _is_key: bool,
        is_text: bool,
        prefix: &'a [u8],
        count: usize,
    ) -> Result<(), AllocError> {
        self.prefix_string(string_type(is_text), prefix, count)?;
        Ok(())
    }

    #[inline(always)]
    fn begin_string(&mut self, _is_key: bool, is_text: bool) -> Result<(), AllocError> {
        CanonBuilder::begin_string(self, string_type(is_text))
    }

    #[inline(always)]
    fn chunk(
        &mut self,
        _is_key: bool,
        _is_text: bool,
        prefix: &'a [u8],
        count: usize,
    ) -> Result<(), AllocError> {
        self.prefix_bytes(prefix, count)
    }

    #[inline(always)]
    fn end_string(&mut self, _is_key: bool, _is_text: bool) -> Result<(), AllocError> {
        CanonBuilder::end_string(self)?;
        Ok(())
    }

    #[inline(always)]
    fn begin(&mut self, _is_key: bool, major: Major, number: u64) -> Result<(), AllocError> {
        CanonBuilder::begin(self, major, number)?;
        Ok(())
    }

    #[inline(always)]
    fn end(&mut self, _is_map: bool) -> Result<Option<Repeat>, AllocError> {
        self.end_if_distinct()
    }

    fn first_repeat(&mut self) -> Option<Repeat> {
        CanonBuilder::first_repeat(self)
    }
}

/// The major type of a string.
#[inline(always)]
pub fn string_type(is_text: bool) -> Major
    ensures { result ≡ string_major is_text }
{
    if is_text { Major::Text } else { Major::Bytes }
}
