//! Views of whole slices.

use super::limits;
use bumpalo::Bump;
use cbor_head::{Reason, Refusal};
use cbor_reader::whole_view;

#[test]
fn views_a_whole_slice(rt: HostRuntime) {
    let alloc = rt.alloc();
    let limits = limits(&rt, 1, 2);
    let arena = Bump::new(alloc);
    match whole_view(alloc, b"\x81\x05", limits, &arena) {
        Ok(view) => match view.as_array() {
            Some([member]) => assert!(rt; member.as_u64() == Some(5)),
            _ => panic!(rt; "an array of one member"),
        },
        Err(_) => panic!(rt; "a view"),
    }
    match whole_view(alloc, b"\x05\x81", limits, &arena) {
        Ok(_) => panic!(rt; "no view"),
        Err(refusal) => assert!(rt; refusal == Refusal::at(Reason::Trailing, 1)),
    }
}
