//! The bytes that a signature is made over.

ghost use Rattle.std.specs.Prelude.{IfOk};
ghost use Rattle.cbor_head.specs.Limits.{bounds};
ghost use Rattle.cbor_head.specs.declared.order.KeyOrder.TheVariants.{Bytewise};
ghost use Rattle.cbor_reader.specs.Canonicalise.{IsCanonicalOf};

use cbor_head::{KeyOrder, Limits, Refusal};
use cbor_reader::canonicalise;
use std::alloc::Global;

/// Returns the bytes to sign for a document: the same bytes for each encoding of the same value,
/// and different ones for different values.
pub fn bytes_to_sign(alloc: Global, document: &[u8]) -> Result<Vec<u8>, Refusal>
    ensures { IfOk result (λ v. IsCanonicalOf (bounds 64 65536) Bytewise document.now v.items) }
{
    let limits = Limits::new(64, 65_536).unwrap();
    canonicalise(alloc, document, limits, KeyOrder::Bytewise)
}
