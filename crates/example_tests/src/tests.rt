//! Encodings of one document are signed alike, and a document that could be read in two ways is
//! refused. Two fields of records are reported, however the records are encoded.

mod memory;

use cbor_head::{Limits, Reason, Refusal};
use example::{FieldsError, bytes_to_sign, two_fields};
use std::process::Abort;
use std::test::Fail;

fn limits<R: Abort>(rt: &R) -> Limits {
    Limits::new(64, 65_536).expect(rt, "limits")
}

#[test]
fn encodings_of_one_document_are_signed_alike(rt: HostRuntime) -> Result<(), Fail> {
    let alloc = rt.alloc();
    // {_ "Fun": true, "Amt": -2}, the example of RFC 8949, appendix A
    let streamed = b"\xbf\x63Fun\xf5\x63Amt\x21\xff";
    // {"Amt": -2, "Fun": true}
    let canonical = b"\xa2\x63Amt\x21\x63Fun\xf5".as_slice();
    assert!(rt; bytes_to_sign(alloc, streamed)?.as_slice() == canonical);
    assert!(rt; bytes_to_sign(alloc, canonical)?.as_slice() == canonical);
    Ok(())
}

#[test]
fn a_repeated_key_is_refused_with_its_offset(rt: HostRuntime) -> Result<(), Fail> {
    // {"Fun": true, "Fun": false}: the second key is at 6, and ends at 10
    let repeated = b"\xa2\x63Fun\xf5\x63Fun\xf4";
    let refusal = bytes_to_sign(rt.alloc(), repeated).err();
    let expected = Refusal {
        reason: Reason::RepeatedKey,
        place: 6,
        read: 10,
    };
    assert!(rt; refusal == Some(expected));
    Ok(())
}

// {"id": 1, "by": -5}, and {"x": ["y"], "by": 7, "id": 2} of indefinite length and with a key in
// chunks
static RECORDS: &[u8] =
    b"\xa2\x62id\x01\x62by\x24\xbf\x61x\x9f\x61y\xff\x62by\x07\x7f\x61i\x61d\xff\x02\xff";

#[test]
fn fields_are_reported_of_each_record(rt: HostRuntime) -> Result<(), Fail> {
    let rows = two_fields(rt.alloc(), RECORDS, limits(&rt), "id", "by")?;
    assert!(rt; rows.as_slice() == [(1, -5), (2, 7)].as_slice());
    let none = two_fields(rt.alloc(), b"", limits(&rt), "id", "by")?;
    assert!(rt; none.is_empty());
    Ok(())
}

#[test]
fn a_record_without_a_field_is_a_fault(rt: HostRuntime) {
    let fault = two_fields(rt.alloc(), RECORDS, limits(&rt), "id", "x").err();
    assert!(rt; fault == Some(FieldsError::NoInteger));
    // {"id": and no more
    let fault = two_fields(rt.alloc(), b"\xa2\x62id", limits(&rt), "id", "by").err();
    let cut = Refusal::at(Reason::Truncated, 4);
    assert!(rt; fault == Some(FieldsError::Refused(cut)));
}
