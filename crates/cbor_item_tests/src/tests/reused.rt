//! A builder for one item after another.

use cbor_head::Major;
use cbor_item::{CanonBuilder, KeyOrder};
use std::alloc::AllocError;

#[test]
fn shows_and_clears_finished_items(rt: HostRuntime) -> Result<(), AllocError> {
    let mut builder = CanonBuilder::new(rt.alloc(), KeyOrder::Bytewise);
    builder.string(Major::Text, b"ab")?;
    assert!(rt; builder.as_slice() == b"\x62ab".as_slice());
    builder.clear(KeyOrder::LengthFirst);
    assert!(rt; builder.order() == KeyOrder::LengthFirst);
    builder.leaf(Major::Unsigned, 7)?;
    assert!(rt; builder.as_slice() == b"\x07".as_slice());
    Ok(())
}
