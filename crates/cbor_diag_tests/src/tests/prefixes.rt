//! Encoded items that were found to be valid.

use super::push_times;
use super::texts::{TEXTS, row_of};
use cbor_diag::TextBuffer;
use cbor_head::Limits;
use cbor_reader::check_valid;
use std::test::Fail;

#[test]
fn prefixes_are_shown(rt: HostRuntime) -> Result<(), Fail> {
    let alloc = rt.alloc();
    let limits = Limits::new(256, 1 << 20).ok_or("limits")?;
    let mut space = TextBuffer::new(alloc);
    for line in TEXTS.trim().lines() {
        let (mut input, want) = row_of(alloc, line)?;
        // What follows the item is not part of its text.
        input.push(0xff)?;
        check_valid(alloc, &input, limits)?;
        let shown = space.diagnostic_prefix(&input, limits)?;
        assert!(rt; shown == want.as_bytes());
    }
    Ok(())
}

// Nested arrays around 7: as many as the first cells can hold, one more, and the greatest depth. Memory
// may run out at any array, so no contract says that these are shown.
#[test]
fn deep_prefixes_are_shown(rt: HostRuntime) -> Result<(), Fail> {
    let alloc = rt.alloc();
    let limits = Limits::new(1024, 1 << 20).ok_or("limits")?;
    let mut space = TextBuffer::new(alloc);
    for depth in [16, 17, 1024] {
        let mut digits = String::new(alloc);
        push_times(&mut digits, "81", depth)?;
        digits.push_str("07")?;
        let input = hex::decode(alloc, digits.as_bytes())?;
        let mut want = String::new(alloc);
        push_times(&mut want, "[", depth)?;
        want.push_str("7")?;
        push_times(&mut want, "]", depth)?;
        check_valid(alloc, &input, limits)?;
        let shown = space.diagnostic_prefix(&input, limits)?;
        assert!(rt; shown == want.as_bytes(), "{depth} arrays");
    }
    Ok(())
}
