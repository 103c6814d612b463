//! Tables of heads, limits, simple values and reasons.

use cbor_head::{
    Head, Keys, Limits, Major, Reason, Refusal, Simple, Width, argument_bytes, head_laws,
    initial_byte_error, initial_byte_reason, read_argument,
};
use std::alloc::{AllocError, Global};
use std::test::Fail;

// The first and the last argument of each width, as the shortest head of an unsigned integer, and other
// shortest heads. Most of them begin an item of RFC 8949, appendix A.
static SHORTEST: &str = r#"
00 | Unsigned Direct 0
17 | Unsigned Direct 23
1818 | Unsigned One 24
18ff | Unsigned One 255
190100 | Unsigned Two 256
19ffff | Unsigned Two 65535
1a00010000 | Unsigned Four 65536
1affffffff | Unsigned Four 4294967295
1b0000000100000000 | Unsigned Eight 4294967296
1bffffffffffffffff | Unsigned Eight 18446744073709551615
1903e8 | Unsigned Two 1000 | 1000
20 | Negative Direct 0 | -1
3863 | Negative One 99 | -100
44 | Bytes Direct 4 | h'01020304'
62 | Text Direct 2 | "ü"
9819 | Array One 25 | [1, 2, .. 25]
a2 | Map Direct 2 | {1: 2, 3: 4}
a5 | Map Direct 5 | {.., .., .., .., ..}
d820 | Tag One 32 | 32("http://www.example.com")
f4 | Simple Direct 20 | false
f5 | Simple Direct 21 | true
f0 | Simple Direct 16 | simple(16)
f820 | Simple One 32 | simple(32)
f8ff | Simple One 255 | simple(255)
"#;

// Heads that are longer than necessary.
static LONGER: &str = "
1800 | Unsigned One 0
1b0000000000000017 | Unsigned Eight 23
";

// Bytes that are not one definite head.
static OTHERS: &str = "
| nothing
18 | no argument
1901 | half an argument
1b00000001000000 | seven eighths of one
1c | reserved
3d | reserved
5e | reserved
1f | an integer of indefinite length
5f | a byte string of indefinite length
9f | an array of indefinite length
df | a tag of indefinite length
ff | the break
f8 | a simple value without its number
f800 | a simple value of one byte, in two
f81f | simple value 31, which does not exist
f90000 | 0.0
fa00000000 | 0.0
fb0000000000000000 | 0.0
0000 | two heads
181800 | two heads
";

// The bytes of a row, and its second column.
fn row_of(alloc: Global, line: &'static str) -> Result<(Vec<u8>, &'static str), Fail> {
    let (digits, rest) = line.split_once('|').ok_or("two columns")?;
    let (column, _) = rest.split_once('|').unwrap_or((rest, ""));
    Ok((hex::decode(alloc, digits.trim())?, column.trim()))
}

// Whether the bytes are read as this head.
fn is_read(alloc: Global, bytes: &[u8], reported: &str) -> Result<Option<Head>, AllocError> {
    let Some(head) = Head::read(bytes) else {
        return Ok(None);
    };
    let text = format!(in alloc; "{:?} {:?} {}", head.major(), head.width(), head.argument())?;
    let holds = text.as_str() == reported
        && head.bytes().as_slice() == bytes
        && head_laws::read_back(&head) == Some(head);
    Ok(Some(head).filter(|_| holds))
}

#[test]
fn heads(rt: HostRuntime) -> Result<(), Fail> {
    for line in SHORTEST.trim().lines() {
        let (bytes, reported) = row_of(rt.alloc(), line)?;
        let head = is_read(rt.alloc(), &bytes, reported)?.ok_or(line)?;
        assert!(rt;
            Head::shortest(head.major(), head.argument()) == head
                && Width::shortest(head.argument()) == head.width()
                && head.width().is_shortest(head.argument()),
            "{line}"
        );
    }
    for line in LONGER.trim().lines() {
        let (bytes, reported) = row_of(rt.alloc(), line)?;
        let head = is_read(rt.alloc(), &bytes, reported)?.ok_or(line)?;
        assert!(rt; !head.width().is_shortest(head.argument()), "{line}");
    }
    for line in OTHERS.trim().lines() {
        let (bytes, _) = row_of(rt.alloc(), line)?;
        assert!(rt; Head::read(&bytes).is_none(), "{line}");
    }
    Ok(())
}

#[test]
fn argument_lengths(rt: HostRuntime) {
    for (first, count) in [
        (0x00, 0),
        (0x17, 0),
        (0x18, 1),
        (0x19, 2),
        (0x1a, 4),
        (0x1b, 8),
        (0x1c, 0),
        (0x1d, 0),
        (0x1e, 0),
        (0x1f, 0),
        (0x79, 2),
        (0xbb, 8),
        (0xf8, 1),
        (0xff, 0),
    ] {
        assert!(rt; argument_bytes(first) == count, "at {first}");
    }
}

#[test]
fn arguments(rt: HostRuntime) -> Result<(), Fail> {
    // The heads 17, 18ff, 190100, 1a00010000 and 1b0000000100000000 of RFC 8949, each with a byte after it.
    for (low, following, width, number) in [
        (23, b"\x00".as_slice(), Width::Direct, 23),
        (24, b"\xff\x00".as_slice(), Width::One, 255),
        (25, b"\x01\x00\x00".as_slice(), Width::Two, 256),
        (26, b"\x00\x01\x00\x00\x00".as_slice(), Width::Four, 65536),
        (
            27,
            b"\x00\x00\x00\x01\x00\x00\x00\x00\x00".as_slice(),
            Width::Eight,
            4294967296,
        ),
    ] {
        let argument = read_argument(low, following).ok_or("an argument")?;
        assert!(rt;
            argument.width == width && argument.number == number && argument.rest.len() == 1,
            "at {low}"
        );
        if low > 23 {
            let cut = &following[..following.len() - 2];
            assert!(rt; read_argument(low, cut).is_none(), "cut at {low}");
        }
    }
    for low in [28, 29, 30, 31] {
        assert!(rt; read_argument(low, &[0; 9]).is_none(), "at {low}");
    }
    Ok(())
}

// Initial bytes, and why no item may begin with them if no container may open (RFC 8949, section 3).
static INITIAL: [(u8, Option<Reason>); 14] = [
    (0x00, None),
    (0x1b, None),
    (0x5f, None),
    (0x7f, None),
    (0xf8, None),
    (0x1c, Some(Reason::Reserved)),
    (0xfe, Some(Reason::Reserved)),
    (0x1f, Some(Reason::NoIndefinite)),
    (0xdf, Some(Reason::NoIndefinite)),
    (0xf9, Some(Reason::Float)),
    (0xff, Some(Reason::StrayBreak)),
    (0x80, Some(Reason::TooDeep)),
    (0xbf, Some(Reason::TooDeep)),
    (0xc0, Some(Reason::TooDeep)),
];

#[test]
fn initial_bytes(rt: HostRuntime) {
    for (first, reason) in INITIAL {
        assert!(rt; initial_byte_error(first, false) == reason, "at {first}");
        let deep = reason == Some(Reason::TooDeep);
        assert!(rt;
            initial_byte_error(first, true) == reason.filter(|_| !deep),
            "at {first} with space"
        );
        if let Some(reason) = reason {
            assert!(rt; initial_byte_reason(first) == reason, "why at {first}");
        }
    }
}

#[test]
fn major_numbers(rt: HostRuntime) {
    assert!(rt; Major::Unsigned.number() == 0 && Major::Map.number() == 5);
    assert!(rt; Major::Simple.number() == 7);
    for number in 0..8 {
        assert!(rt; Major::of_number(number).number() == number, "at {number}");
    }
    assert!(rt; Major::of_number(4) == Major::Array && Major::of_number(6) == Major::Tag);
    assert!(rt; Major::of_number(8) == Major::Simple && Major::of_number(255) == Major::Simple);
}

#[test]
fn simple_values(rt: HostRuntime) {
    for number in [0, 20, 23, 32, 255] {
        assert!(rt;
            Simple::new(number).map(Simple::number) == Some(number),
            "at {number}"
        );
    }
    for number in [24, 31] {
        assert!(rt; Simple::new(number).is_none(), "at {number}");
    }
}

#[test]
fn limits(rt: HostRuntime) -> Result<(), Fail> {
    let most = 4611686018427387904;
    for (depth, bytes) in [(0, 0), (256, 1048576), (1024, 0), (1024, most)] {
        let limits = Limits::new(depth, bytes).ok_or("limits")?;
        assert!(rt;
            limits.depth() == depth && limits.bytes() == bytes && limits.keys() == Keys::Any,
            "at {depth} and {bytes}"
        );
        let basic = limits.with_keys(Keys::IntegersAndTexts);
        assert!(rt;
            basic.depth() == depth
                && basic.bytes() == bytes
                && basic.keys() == Keys::IntegersAndTexts,
            "keys at {depth} and {bytes}"
        );
    }
    for (depth, bytes) in [(1025, 0), (0, most + 1), (65535, u64::MAX)] {
        assert!(rt;
            Limits::new(depth, bytes).is_none(),
            "at {depth} and {bytes}"
        );
    }
    Ok(())
}

// The reasons, in the order of their numbers.
static REASONS: [Reason; 20] = [
    Reason::Truncated,
    Reason::TooLong,
    Reason::Reserved,
    Reason::NoIndefinite,
    Reason::Float,
    Reason::BadSimple,
    Reason::StrayBreak,
    Reason::BadChunk,
    Reason::TooDeep,
    Reason::InvalidText,
    Reason::RepeatedKey,
    Reason::Trailing,
    Reason::CanonicalTooLong,
    Reason::NotShortest,
    Reason::Indefinite,
    Reason::KeyOrder,
    Reason::Read,
    Reason::Write,
    Reason::Memory,
    Reason::KeyKind,
];

// Their numbers and their names.
static NAMES: &str = "1 Truncated, 2 TooLong, 3 Reserved, 4 NoIndefinite, 5 Float, 6 BadSimple, \
    7 StrayBreak, 8 BadChunk, 9 TooDeep, 10 InvalidText, 11 RepeatedKey, 12 Trailing, \
    13 CanonicalTooLong, 14 NotShortest, 15 Indefinite, 16 KeyOrder, 17 Read, 18 Write, 19 Memory, \
    20 KeyKind";

#[test]
fn reasons(rt: HostRuntime) -> Result<(), Fail> {
    let mut names = NAMES.split(", ");
    for reason in REASONS {
        let text = format!(in rt.alloc(); "{} {reason}", reason.number())?;
        assert!(rt; names.next() == Some(text.as_str()), "{text}");
    }
    assert!(rt; names.next().is_none());
    let refusal = Refusal::trailing(1);
    assert!(rt; refusal == Refusal::new(Reason::Trailing, 1, 1));
    let text = format!(in rt.alloc(); "{refusal}")?;
    assert!(rt; text.as_str() == "12 Trailing at 1");
    // A repeated key of one byte, at offset 3.
    let key = Refusal::new(Reason::RepeatedKey, 3, 4);
    assert!(rt; key.reason == Reason::RepeatedKey && key.place == 3 && key.read == 4);
    Ok(())
}
