//! Annotated bytes, line by line, of examples of RFC 8949 (sections 3 and 3.4, appendix A) and of inputs that are refused.

use super::streams::{STOPS, Sink, Stop};
use cbor_diag::annotated;
use cbor_head::{Limits, Reason, Refusal};
use std::alloc::Global;
use std::test::Fail;

// The bytes in hex, the number of bytes of the item, and its lines.
static ITEMS: [(&str, u64, &str); 7] = [
    (
        "00",
        1,
        "       0  00                                unsigned integer 0\n",
    ),
    (
        "f8ff",
        2,
        "       0  f8ff                              simple value 255\n",
    ),
    (
        "bf6346756ef563416d7421ff",
        12,
        "       0  bf                                map, indefinite length
       1  63                                  text string, 3 bytes
       2  46756e                                \"Fun\"
       5  f5                                  true
       6  63                                  text string, 3 bytes
       7  416d74                                \"Amt\"
      10  21                                  negative integer -2
      11  ff                                break
",
    ),
    (
        "5f42010243030405ff",
        9,
        "       0  5f                                byte string, indefinite length
       1  42                                  chunk, 2 bytes
       2  0102                                  h'0102'
       4  43                                  chunk, 3 bytes
       5  030405                                h'030405'
       8  ff                                break
",
    ),
    (
        "c249010000000000000000",
        11,
        "       0  c2                                tag 2
       1  49                                  byte string, 9 bytes
       2  010000000000000000                    h'010000000000000000'
",
    ),
    (
        "a1613b3bffffffffffffffff",
        12,
        "       0  a1                                map, 1 pair
       1  61                                  text string, 1 byte
       2  3b                                    \";\"
       3  3bffffffffffffffff                  negative integer -18446744073709551616
",
    ),
    (
        "8352c3bc0102030405060708090a0b0c0d0e0f1062c3bc60",
        24,
        "       0  83                                array, 3 members
       1  52                                  byte string, 18 bytes
       2  c3bc0102030405060708090a0b0c0d0e      h'c3bc0102030405060708090a0b0c0d0e'
      18  0f10                                  h'0f10'
      20  62                                  text string, 2 bytes
      21  c3bc                                  \"..\"
      23  60                                  text string, 0 bytes
",
    ),
];

fn limits() -> Result<Limits, Fail> {
    Ok(Limits::new(256, 1 << 20).ok_or("limits")?)
}

// A byte after the item does not matter.
#[test]
fn items_are_annotated(rt: HostRuntime) -> Result<(), Fail> {
    let alloc = rt.alloc();
    for (digits, size, lines) in ITEMS {
        let mut bytes = hex::decode(alloc, digits.as_bytes())?;
        bytes.push(0xff)?;
        let mut shown = Vec::new(alloc);
        assert_eq!(rt; annotated(&bytes, 0, limits()?, &mut shown), Ok(size));
        assert!(rt; shown.as_slice() == lines.as_bytes(), "{digits}");
    }
    Ok(())
}

#[test]
fn offsets_from_the_start_of_the_input(rt: HostRuntime) -> Result<(), Fail> {
    let mut shown = Vec::new(rt.alloc());
    assert_eq!(rt;
        annotated(b"\x81\xf6", 99999999, limits()?, &mut shown),
        Ok(2)
    );
    let lines = "99999999  81                                array, 1 member
100000000  f6                                  null
";
    assert!(rt; shown.as_slice() == lines.as_bytes());
    Ok(())
}

// The bytes in hex, the refusal (reason, offset, bytes consumed), and the lines before it.
static REFUSED: [(&str, Reason, u64, u64, &str); 3] = [
    (
        "8201",
        Reason::Truncated,
        2,
        2,
        "       0  82                                array, 2 members
       1  01                                  unsigned integer 1
",
    ),
    (
        "634675",
        Reason::Truncated,
        3,
        3,
        "       0  63                                text string, 3 bytes\n",
    ),
    (
        "82011c",
        Reason::Reserved,
        2,
        3,
        "       0  82                                array, 2 members
       1  01                                  unsigned integer 1
",
    ),
];

#[test]
fn lines_before_a_refusal_stay(rt: HostRuntime) -> Result<(), Fail> {
    let alloc = rt.alloc();
    for (digits, reason, place, read, lines) in REFUSED {
        let bytes = hex::decode(alloc, digits.as_bytes())?;
        let mut shown = Vec::new(alloc);
        let refusal = Refusal {
            reason,
            place,
            read,
        };
        assert_eq!(rt; annotated(&bytes, 0, limits()?, &mut shown), Err(refusal));
        assert!(rt; shown.as_slice() == lines.as_bytes(), "{digits}");
    }
    Ok(())
}

// Of 513 bytes the first 512 are shown, in 32 lines, and a line says that there are more.
#[test]
fn long_payloads_are_cut(rt: HostRuntime) -> Result<(), Fail> {
    let alloc = rt.alloc();
    let mut bytes = Vec::from_slice(alloc, b"\x59\x02\x01")?;
    for _ in 0..513 {
        bytes.push(0xa5)?;
    }
    let mut shown = Vec::new(alloc);
    assert_eq!(rt; annotated(&bytes, 0, limits()?, &mut shown), Ok(516));
    let count = shown.iter().filter(|byte| **byte == b'\n').count();
    assert_eq!(rt; count, 34);
    assert!(rt; shown.as_slice().ends_with(b"'\n          ..\n"));
    Ok(())
}

// Whether the lines end where a writer stops that accepts only these bytes of them.
fn stops_after(
    alloc: Global,
    bytes: &[u8],
    before: &[u8],
    stop: (usize, Stop),
) -> Result<bool, Fail> {
    let mut sink = Sink::stopping(alloc, before.len(), stop.0, stop.1);
    let given = annotated(bytes, 0, limits()?, &mut sink);
    let is_reported = match given {
        Ok(_) => false,
        Err(refusal) => refusal.reason == Reason::Write && refusal.place == before.len() as u64,
    };
    Ok(is_reported && sink.ended_with(before))
}

#[test]
fn a_failed_write_ends_the_lines(rt: HostRuntime) -> Result<(), Fail> {
    let alloc = rt.alloc();
    for (digits, _, lines) in ITEMS {
        let bytes = hex::decode(alloc, digits.as_bytes())?;
        let lines = lines.as_bytes();
        for place in 0..lines.len() {
            for stop in STOPS {
                let is_right = stops_after(alloc, &bytes, &lines[..place], stop)?;
                assert!(rt; is_right, "{digits} at {place}");
            }
        }
    }
    Ok(())
}

// A writer that stops within the second line has the whole first line, and no byte after the second head was read.
#[test]
fn stops_within_a_line(rt: HostRuntime) -> Result<(), Fail> {
    let alloc = rt.alloc();
    let mut sink = Sink::stopping(alloc, 70, usize::MAX, Stop::TakesNothing);
    let refusal = Refusal::new(Reason::Write, 70, 2);
    assert_eq!(rt;
        annotated(b"\x81\x01", 0, limits()?, &mut sink),
        Err(refusal)
    );
    let lines = "       0  81                                array, 1 member\n       1  ";
    assert!(rt; sink.held.as_slice() == lines.as_bytes());
    Ok(())
}
