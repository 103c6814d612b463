//! The strict readers against tables.

mod slice;
mod strict_events;
mod text;
mod whole;

use cbor_head::Limits;
use std::process::Abort;

pub(crate) fn limits<R: Abort>(rt: &R, depth: u16, bytes: u64) -> Limits {
    Limits::new(depth, bytes).expect(rt, "limits")
}
