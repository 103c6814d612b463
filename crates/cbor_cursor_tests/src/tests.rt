//! Each public call, on examples of RFC 8392 and RFC 8949.

use cbor_cursor::{
    Cursor, HeadAt, ItemAt, KeyOrder, Limits, Lookup, Major, Refusal, find, head_at, item_at,
    item_end, skip_item,
};
use cbor_head::Reason;
use std::test::Fail;

// The claims of RFC 8392, appendix A.1.
const CLAIMS: &[u8] =
    b"\xa7\x01\x75coap://as.example.com\x02\x65erikw\x03\x78\x18coap://light.example.com\
    \x04\x1a\x56\x12\xae\xb0\x05\x1a\x56\x10\xd9\xf0\x06\x1a\x56\x10\xd9\xf0\x07\x42\x0b\x71";

fn whole(bytes: &[u8]) -> Result<Cursor<'_>, Refusal> {
    let limits = Limits::new(16, 1 << 20).unwrap();
    Cursor::open_whole(bytes, limits, KeyOrder::Bytewise)
}

#[test]
fn reads_claims(rt: HostRuntime) -> Result<(), Fail> {
    let claims = whole(CLAIMS)?;
    assert!(rt; claims.kind() == Major::Map);
    assert!(rt; claims.count() == Some(7));
    let issuer = claims.get_integer(1).ok_or("no issuer")?;
    assert!(rt; issuer.text() == Some("coap://as.example.com"));
    let expiry = claims.get(b"\x04").ok_or("no expiry")?;
    assert!(rt; expiry.integer() == Some(1_444_064_944));
    let id = claims.get_integer(7).ok_or("no id")?;
    assert!(rt; id.bytes() == Some(b"\x0b\x71".as_slice()));
    assert!(rt; claims.get_integer(8).is_none());
    assert!(rt; claims.get_integer(-1).is_none());
    assert!(rt; claims.get(b"\x04\x1a").is_none());
    Ok(())
}

#[test]
fn iterates_pairs(rt: HostRuntime) -> Result<(), Fail> {
    let mut pairs = whole(CLAIMS)?.pairs().ok_or("no map")?;
    assert!(rt; pairs.count() == 7);
    let (issuer, _) = pairs.next().ok_or("no pair")?;
    assert!(rt; issuer.integer() == Some(1));
    let (subject, name) = pairs.next().ok_or("no pair")?;
    assert!(rt; subject.integer() == Some(2));
    assert!(rt; name.text() == Some("erikw"));
    for _ in 0..5 {
        assert!(rt; pairs.next().is_some());
    }
    assert!(rt; pairs.next().is_none());
    Ok(())
}

// [1, [2, 3], [4, 5]] (RFC 8949, appendix A)
#[test]
fn iterates_members(rt: HostRuntime) -> Result<(), Fail> {
    let array = whole(b"\x83\x01\x82\x02\x03\x82\x04\x05")?;
    let mut members = array.members().ok_or("no array")?;
    let first = members.next().ok_or("no member")?;
    assert!(rt; first.integer() == Some(1));
    assert!(rt; members.count() == 2);
    let second = members.next().ok_or("no member")?;
    assert!(rt; second.encoded() == b"\x82\x02\x03".as_slice());
    assert!(rt; members.next().is_some());
    assert!(rt; members.next().is_none());
    let last = array.at(2).ok_or("no member")?.at(1).ok_or("no member")?;
    assert!(rt; last.integer() == Some(5));
    assert!(rt; array.at(3).is_none());
    Ok(())
}

// {"a": 1, "b": [2, 3]} (RFC 8949, appendix A)
#[test]
fn finds_texts(rt: HostRuntime) -> Result<(), Fail> {
    let map = whole(b"\xa2\x61a\x01\x61b\x82\x02\x03")?;
    let array = map.get_text("b").ok_or("no b")?;
    assert!(rt; array.count() == Some(2));
    assert!(rt; map.get_text("c").is_none());
    assert!(rt; map.get_text("").is_none());
    Ok(())
}

// 1(1363896240), -18446744073709551616, 18446744073709551615 and false (RFC 8949, appendix A)
#[test]
fn reads_scalars(rt: HostRuntime) -> Result<(), Fail> {
    let (number, content) = whole(b"\xc1\x1a\x51\x4b\x67\xb0")?.tag().ok_or("no tag")?;
    assert!(rt; number == 1);
    assert!(rt; content.integer() == Some(1_363_896_240));
    let least = whole(b"\x3b\xff\xff\xff\xff\xff\xff\xff\xff")?;
    assert!(rt; least.integer() == Some(-18_446_744_073_709_551_616));
    let most = whole(b"\x1b\xff\xff\xff\xff\xff\xff\xff\xff")?;
    assert!(rt; most.argument() == 18_446_744_073_709_551_615);
    let no = whole(b"\xf4")?;
    assert!(rt; no.kind() == Major::Simple && no.argument() == 20);
    assert!(rt; no.integer().is_none() && no.count().is_none());
    Ok(())
}

#[test]
fn opens_sequences(rt: HostRuntime) -> Result<(), Fail> {
    let limits = Limits::new(16, 1 << 20).unwrap();
    let (first, rest) = Cursor::open(b"\x20\x21", limits, KeyOrder::LengthFirst)?;
    assert!(rt; first.integer() == Some(-1));
    assert!(rt; rest == b"\x21".as_slice());
    assert!(rt; whole(b"\x20\x21").err() == Some(Refusal::at(Reason::Trailing, 1)));
    assert!(rt; whole(b"\x18\x17").err() == Some(Refusal::new(Reason::NotShortest, 0, 2)));
    Ok(())
}

#[test]
fn reads_offsets(rt: HostRuntime) -> Result<(), Fail> {
    let head = HeadAt {
        kind: 5,
        argument: 7,
        content: 1,
    };
    assert!(rt; head_at(CLAIMS, 0) == Some(head));
    let issuer = ItemAt {
        kind: 3,
        argument: 21,
        offset: 2,
        content: 3,
        end: 24,
    };
    assert!(rt; item_at(CLAIMS, 2) == Some(issuer));
    assert!(rt; find(CLAIMS, 0, b"\x01") == Lookup::Found(issuer));
    assert!(rt; find(CLAIMS, 0, b"\x08") == Lookup::NotThere);
    assert!(rt; find(CLAIMS, 2, b"\x01") == Lookup::NotMap);
    assert!(rt; item_end(CLAIMS, 0) == Some(CLAIMS.len()));
    assert!(rt; skip_item(b"\x20\x21") == Some(b"\x21".as_slice()));
    Ok(())
}

// Reserved additional information, an indefinite length, a truncated string, and no byte.
#[test]
fn refuses_offsets(rt: HostRuntime) {
    assert!(rt; head_at(b"\x1c\x00", 0) == None);
    assert!(rt; item_end(b"\x9f\x01\xff", 0) == None);
    assert!(rt; item_at(b"\x44\x01", 0) == None);
    assert!(rt; find(b"\xa1\x01", 0, b"\x01") == Lookup::NotThere);
    assert!(rt; find(b"\xa0", 1, b"\x01") == Lookup::NotThere);
    assert!(rt; head_at(b"\x00", usize::MAX) == None);
}

// Where a well-formed item of definite lengths ends, for any bytes: truncated items, indefinite
// lengths, reserved additional information, a break, a simple value below 32 in two bytes.
#[test]
fn finds_the_ends_of_items(rt: HostRuntime) {
    let rows: [(&[u8], Option<usize>); 22] = [
        (b"", None),
        (b"\x18", None),
        (b"\x18\x00\xff", Some(2)),
        (b"\x1c", None),
        (b"\x44\x01", None),
        (b"\x44\x01\x02\x03\x04\x05", Some(5)),
        (b"\x5b\xff\xff\xff\xff\xff\xff\xff\xff", None),
        (b"\x62\xff\xff", Some(3)),
        (b"\x82\x01", None),
        (b"\x82\x01\x81\x02\x03", Some(4)),
        (b"\x9b\x80\x00\x00\x00\x00\x00\x00\x00\x01", None),
        (b"\x9f\x01\xff", None),
        (b"\x82\x01\x9f\xff", None),
        (b"\xa1\x01", None),
        (b"\xa2\x01\x02\x01\x02", Some(5)),
        (b"\xbb\x80\x00\x00\x00\x00\x00\x00\x00\x01", None),
        (b"\xc1", None),
        (b"\xc1\xd8\x18\x41\x00", Some(5)),
        (b"\xf8\x1f", None),
        (b"\xf8\x20", Some(2)),
        (b"\xf9\x7e\x00", Some(3)),
        (b"\xff", None),
    ];
    for (bytes, end) in rows {
        assert_eq!(rt; item_end(bytes, 0), end);
        assert_eq!(rt; item_at(bytes, 0).map(|item| item.end), end);
        assert_eq!(rt; skip_item(bytes).map(|rest| bytes.len() - rest.len()), end);
    }
    assert_eq!(rt; head_at(b"\xf8\x1f", 0), None);
    assert_eq!(rt; head_at(b"\xff", 0), None);
}

// {0: 5, 1: 5}; a break, and heads that are not of a definite length
#[test]
fn finds_the_value_of_its_own_pair(rt: HostRuntime) {
    let value = ItemAt {
        kind: 0,
        argument: 5,
        offset: 4,
        content: 5,
        end: 5,
    };
    assert_eq!(rt;
        find(b"\xa2\x00\x05\x01\x05", 0, b"\x01"),
        Lookup::Found(value)
    );
    assert_eq!(rt; find(b"\xff", 0, b"\x01"), Lookup::NotThere);
    assert_eq!(rt; find(b"\xf8\x1f", 0, b"\x01"), Lookup::NotThere);
    assert_eq!(rt; find(b"\x9f\xff", 0, b"\x01"), Lookup::NotThere);
}
