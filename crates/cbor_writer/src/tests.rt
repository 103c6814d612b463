//! Each call once: the bytes of RFC 8949, appendix A, the counts and the statuses.

use crate::{OK, TOO_SMALL, Writer};
use cbor_head::Major;

#[test]
fn each_call_once(rt: HostRuntime) {
    let mut buffer = [0; 20];
    let mut writer = Writer::new();
    writer.put_opening(&mut buffer, Major::Map);
    writer.put_string(&mut buffer, Major::Text, b"IETF");
    writer.put_head(&mut buffer, Major::Tag, 1);
    writer.put_head(&mut buffer, Major::Unsigned, 1363896240);
    writer.put_integer(&mut buffer, -1000);
    writer.put_item(&mut buffer, b"\x82\x01\x02");
    writer.put_end(&mut buffer);
    let bytes = b"\xbf\x64IETF\xc1\x1a\x51\x4b\x67\xb0\x39\x03\xe7\x82\x01\x02\xff\0";
    assert_eq!(rt; buffer.as_slice(), bytes.as_slice());
    assert_eq!(rt; writer.needed, 19);
    assert_eq!(rt; writer.status, OK);
}

#[test]
fn counts_what_has_no_space(rt: HostRuntime) {
    let mut buffer = [0; 3];
    let mut writer = Writer::new();
    writer.put_integer(&mut buffer, 24);
    writer.put_string(&mut buffer, Major::Bytes, b"\x01\x02");
    assert_eq!(rt; buffer.as_slice(), b"\x18\x18\0".as_slice());
    assert_eq!(rt; writer.needed, 5);
    assert_eq!(rt; writer.status, TOO_SMALL);
    // The first failure that more space would not fix stays.
    writer.fail(12);
    writer.fail(10);
    assert_eq!(rt; writer.status, 12);
}
