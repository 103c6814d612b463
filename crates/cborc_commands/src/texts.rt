//! Canonical bytes in a form.

ghost use Rattle.std.specs.Prelude.{◌≡◌, IfOk, IfErr};
ghost use Rattle.std.specs.Cow.{cow_slice_items};
ghost use Rattle.cborc_commands.specs.Texts.{in_form, IsCanonicalText};
ghost use Rattle.cborc_commands.specs.inner.NotWritten.{IsNoText};

use crate::fault::Fault;
use cbor_head::{KeyOrder, Limits};
use cbor_reader::canonical_bytes;
use cborc_words::Form;
use std::alloc::{AllocError, Global};
use std::borrow::CowSlice;

/// The canonical bytes of the item that the bytes are, in the requested form. Canonical bytes are
/// returned unchanged.
pub fn canonical_text<'a, 'b>(
    alloc: Global,
    bytes: &'b [u8],
    limits: Limits,
    order: KeyOrder,
    form: Form,
) -> Result<CowSlice<'b, u8>, Fault<'a>>
    ensures text { IfOk result
        (λ c. IsCanonicalText limits order form bytes.now (cow_slice_items c)) }
    ensures fault { IfErr result (IsNoText limits order bytes.now) }
{
    let canonical = canonical_bytes(alloc, bytes, limits, order)?;
    match formed(alloc, canonical, form) {
        Ok(text) => Ok(text),
        Err(_) => Err(Fault::Memory),
    }
}

/// Bytes in a form: unchanged, or two hex digits for each and a line feed.
pub fn formed<'b>(
    alloc: Global,
    bytes: CowSlice<'b, u8>,
    form: Form,
) -> Result<CowSlice<'b, u8>, AllocError>
    ensures { IfOk result (λ c. cow_slice_items c ≡ in_form form (cow_slice_items bytes.entry)) }
{
    match form {
        Form::Raw => Ok(bytes),
        Form::Hex => {
            let mut text = hex::encode(alloc, bytes.as_slice())?.into_bytes();
            text.push(b'\n')?;
            Ok(CowSlice::Owned(text))
        }
    }
}
