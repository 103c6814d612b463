//! Views of inputs.

use super::texts::{TEXTS, row_of};
use bumpalo::Bump;
use cbor_diag::{diagnostic_view, diagnostic_view_indented};
use cbor_head::Limits;
use cbor_reader::read_view;
use std::test::Fail;

#[test]
fn views_are_shown(rt: HostRuntime) -> Result<(), Fail> {
    let alloc = rt.alloc();
    let limits = Limits::new(256, 1 << 20).ok_or("limits")?;
    for line in TEXTS.trim().lines() {
        let (input, want) = row_of(alloc, line)?;
        let arena = Bump::new(alloc);
        let (view, _) = read_view(alloc, &input, limits, &arena)?;
        let mut shown = Vec::new(alloc);
        let count = diagnostic_view(&view, &mut shown);
        assert!(rt; count == Ok(want.len() as u64));
        assert!(rt; shown.as_slice() == want.as_bytes());
    }
    Ok(())
}

// {"a": 1, "b": [2, 3]}
#[test]
fn indented_views_are_shown(rt: HostRuntime) -> Result<(), Fail> {
    let alloc = rt.alloc();
    let limits = Limits::new(256, 1 << 20).ok_or("limits")?;
    let arena = Bump::new(alloc);
    let input = b"\xa2\x61\x61\x01\x61\x62\x82\x02\x03";
    let (view, _) = read_view(alloc, input, limits, &arena)?;
    let mut shown = Vec::new(alloc);
    let want = b"{\n  \"a\": 1,\n  \"b\": [\n    2,\n    3\n  ]\n}";
    assert!(rt; diagnostic_view_indented(&view, &mut shown) == Ok(want.len() as u64));
    assert!(rt; shown.as_slice() == want.as_slice());
    Ok(())
}
