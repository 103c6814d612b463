//! Texts, and bytes that are not UTF-8 (RFC 3629, section 4).

use cbor_text::{check_text, is_text_prefix};

#[test]
fn reports_where_text_ends(rt: HostRuntime) {
    assert!(rt; check_text(b"") == Ok(()));
    // U+00FC, U+6C34 and U+10151
    assert!(rt; check_text(b"\xc3\xbc\xe6\xb0\xb4\xf0\x90\x85\x91") == Ok(()));
    // the first two of the three bytes of U+6C34
    assert!(rt; check_text(b"ab\xe6\xb0") == Err(2));
    // a surrogate, and "/" in two bytes
    assert!(rt; check_text(b"a\xed\xa0\x80") == Err(1));
    assert!(rt; check_text(b"\xc0\xaf") == Err(0));
}

#[test]
fn checks_a_prefix(rt: HostRuntime) {
    // "a" and U+00FC, and then a byte that begins no text
    assert!(rt; is_text_prefix(b"a\xc3\xbc\xff", 3));
    assert!(rt; !is_text_prefix(b"a\xc3\xbc\xff", 2) && !is_text_prefix(b"a\xc3\xbc\xff", 4));
    assert!(rt; is_text_prefix(&[b'~'; 40], 32) && is_text_prefix(b"", 0));
}
