//! Items that are accepted: their canonical bytes, and their diagnostic text.

use super::{columns, ran};
use std::alloc::{AllocError, Global};
use std::test::Fail;

// The file, its canonical bytes in both orders of keys, and maybe what `show` prints. First come the
// examples of RFC 8949, appendix A, without floating-point numbers (a bignum is a tag here); then
// empty strings, arrays and maps, keys that differ, and text that must be escaped; and then integers
// and simple values, in each width that holds them.
static ITEMS: &str = r#"00 | same | 0
01 | same | 1
0a | same | 10
17 | same | 23
1818 | same | 24
1819 | same | 25
1864 | same | 100
1903e8 | same | 1000
1a000f4240 | same | 1000000
1b000000e8d4a51000 | same | 1000000000000
1bffffffffffffffff | same | 18446744073709551615
c249010000000000000000 | same | 2(h'010000000000000000')
3bffffffffffffffff | same | -18446744073709551616
c349010000000000000000 | same | 3(h'010000000000000000')
20 | same | -1
29 | same | -10
3863 | same | -100
3903e7 | same | -1000
f4 | same | false
f5 | same | true
f6 | same | null
f7 | same | undefined
f0 | same | simple(16)
f8ff | same | simple(255)
c074323031332d30332d32315432303a30343a30305a | same | 0("2013-03-21T20:04:00Z")
c11a514b67b0 | same | 1(1363896240)
d74401020304 | same | 23(h'01020304')
d818456449455446 | same | 24(h'6449455446')
d82076687474703a2f2f7777772e6578616d706c652e636f6d | same | 32("http://www.example.com")
40 | same | h''
4401020304 | same | h'01020304'
60 | same | ""
6161 | same | "a"
6449455446 | same | "IETF"
62225c | same | "\"\\"
62c3bc | same | "ü"
63e6b0b4 | same | "水"
64f0908591 | same | "𐅑"
80 | same | []
83010203 | same | [1, 2, 3]
8301820203820405 | same | [1, [2, 3], [4, 5]]
98190102030405060708090a0b0c0d0e0f101112131415161718181819 | same | [1, 2, 3, 4, 5, 6, 7, 8, 9, 10, 11, 12, 13, 14, 15, 16, 17, 18, 19, 20, 21, 22, 23, 24, 25]
a0 | same | {}
a201020304 | same | {1: 2, 3: 4}
a26161016162820203 | same | {"a": 1, "b": [2, 3]}
826161a161626163 | same | ["a", {"b": "c"}]
a56161614161626142616361436164614461656145 | same | {"a": "A", "b": "B", "c": "C", "d": "D", "e": "E"}
5f42010243030405ff | 450102030405 | h'0102030405'
7f657374726561646d696e67ff | 6973747265616d696e67 | "streaming"
9fff | 80 | []
9f018202039f0405ffff | 8301820203820405 | [1, [2, 3], [4, 5]]
9f01820203820405ff | 8301820203820405 | [1, [2, 3], [4, 5]]
83018202039f0405ff | 8301820203820405 | [1, [2, 3], [4, 5]]
83019f0203ff820405 | 8301820203820405 | [1, [2, 3], [4, 5]]
9f0102030405060708090a0b0c0d0e0f101112131415161718181819ff | 98190102030405060708090a0b0c0d0e0f101112131415161718181819 | [1, 2, 3, 4, 5, 6, 7, 8, 9, 10, 11, 12, 13, 14, 15, 16, 17, 18, 19, 20, 21, 22, 23, 24, 25]
bf61610161629f0203ffff | a26161016162820203 | {"a": 1, "b": [2, 3]}
826161bf61626163ff | 826161a161626163 | ["a", {"b": "c"}]
bf6346756ef563416d7421ff | a263416d74216346756ef5 | {"Fun": true, "Amt": -2}
5fff | 40 | h''
7fff | 60 | ""
bfff | a0 | {}
a2416100616101 | same | {h'61': 0, "a": 1}
a2c101000101 | a20101c10100 | {1(1): 0, 1: 1}
c18201f820 | same | 1([1, simple(32)])
826122f6 | same | ["\"", null]
a14101d8ff40 | same | {h'01': 255(h'')}
64225c0a7f | same | "\"\\\u000a\u007f"
a10102 | same | {1: 2}
181c | same | -
411c | same | -
611c | same | -
1800 | 00 | 0
1817 | 17 | -
190017 | 17 | -
1a00000017 | 17 | -
1b0000000000000017 | 17 | -
190018 | 1818 | -
1a00000018 | 1818 | -
1b0000000000000018 | 1818 | -
18ff | same | 255
1900ff | 18ff | -
1a000000ff | 18ff | -
1b00000000000000ff | 18ff | -
190100 | same | 256
1a00000100 | 190100 | -
1b0000000000000100 | 190100 | -
19ffff | same | 65535
1a0000ffff | 19ffff | -
1b000000000000ffff | 19ffff | -
1a00010000 | same | 65536
1b0000000000010000 | 1a00010000 | -
1affffffff | same | 4294967295
1b00000000ffffffff | 1affffffff | -
1b0000000100000000 | same | 4294967296
3b0000000000000000 | 20 | -
3818 | same | -25
3b0000000000000018 | 3818 | -
390100 | same | -257
3a00000100 | 390100 | -
e0 | same | simple(0)
f3 | same | simple(19)
f820 | same | simple(32)"#;

// The options, the file, and its canonical bytes. The long one is
// {"aa": 1, 10: 2, 100: 3, -1: 4, "z": 5, [100]: 6, [-1]: 7, false: 8}, and those after it are
// {0: {100: 0, -1: 0}} and {{100: 0, -1: 0}: 0, 1: 0}.
static WITH_OPTIONS: &str = r#"--bytes 2 | 1864 | 1864 | 100
--bytes 9 | 1b0000000000000000 | 00 | 0
--bytes 1 | 00 | 00
--bytes 4611686018427387904 | 00 | 00
--depth 0 | 00 | 00
--depth 256 | 00 | 00
--depth 0 | 5fff | 40
--depth 2 | 818101 | 818101 | [[1]]
--order bytewise | a8626161010a021864032004617a0581186406812007f408 | a80a021864032004617a056261610181186406812007f408
--order length | a8626161010a021864032004617a0581186406812007f408 | a80a022004f408186403617a058120076261610181186406
--order bytewise | a100a21864002000 | a100a21864002000
--order length | a100a21864002000 | a100a22000186400
--order bytewise | a2a21864002000000100 | a20100a2186400200000
--order length | a2a21864002000000100 | a20100a2200018640000
--order bytewise | a21864002000 | a21864002000 | {100: 0, -1: 0}
--keys any | a19fff00 | a18000 | {[]: 0}
--keys basic | a17fff00 | a16000 | {"": 0}
--keys basic | bf6161002000ff | a22000616100 | {"a": 0, -1: 0}
--keys basic | a10081f4 | a10081f4 | {0: [false]}"#;

// Whether `check` accepts all bytes of the file, with these options.
fn is_accepted(alloc: Global, options: &str, file: &str) -> Result<bool, AllocError> {
    let line = format!(in alloc; "check in {options}")?;
    let wanted = format!(in alloc; "accepted {} bytes", file.len() / 2)?;
    Ok(ran(alloc, line.as_str(), file)?.printed(wanted.as_str()))
}

// Whether `canon` turns the file into these bytes, with these options.
fn is_turned(alloc: Global, options: &str, file: &str, wanted: &str) -> Result<bool, AllocError> {
    let line = format!(in alloc; "canon in out {options}")?;
    let wanted = hex::decode(alloc, wanted).map_err(|_| AllocError)?;
    Ok(ran(alloc, line.as_str(), file)?.wrote("out", wanted.as_slice()))
}

// Whether both do, and `check --strict` accepts the canonical bytes.
fn is_item(alloc: Global, options: &str, file: &str, wanted: &str) -> Result<bool, AllocError> {
    let strict = format!(in alloc; "--strict {options}")?;
    Ok(
        is_turned(alloc, options, file, wanted)?
            && is_accepted(alloc, options, file)?
            && is_accepted(alloc, strict.as_str(), wanted)?,
    )
}

// Whether a row holds, with both orders of keys and as hex digits, and whether `show` prints its
// text.
fn is_taken(alloc: Global, file: &str, canonical: &str, text: &str) -> Result<bool, AllocError> {
    let wanted = if canonical == "same" { file } else { canonical };
    Ok(
        is_item(alloc, "--order bytewise", file, wanted)?
            && is_item(alloc, "--order length", file, wanted)?
            && is_accepted(alloc, "--hex", file)?
            && is_printed(alloc, "canon --hex --hex-out in -", file, wanted)?
            && (text == "-" || is_printed(alloc, "show in", file, text)?),
    )
}

fn is_printed(alloc: Global, line: &str, file: &str, wanted: &str) -> Result<bool, AllocError> {
    Ok(ran(alloc, line, file)?.printed(wanted))
}

#[test]
fn takes_items(rt: HostRuntime) -> Result<(), Fail> {
    for row in ITEMS.lines() {
        let (file, canonical, text) = columns(row).ok_or("a row has three columns")?;
        assert!(rt; is_taken(rt.alloc(), file, canonical, text)?, "{row}");
    }
    Ok(())
}

#[test]
fn takes_items_with_options(rt: HostRuntime) -> Result<(), Fail> {
    for row in WITH_OPTIONS.lines() {
        let (options, file, wanted) = columns(row).ok_or("a row has three columns")?;
        assert!(rt; is_item(rt.alloc(), options, file, wanted)?, "{row}");
    }
    Ok(())
}

// An array of 256 zeros has 258 bytes if it ends with a break, and 259 canonical bytes. The limit
// holds for both; in a comparison it holds only for the inputs.
#[test]
fn canonical_bytes_have_the_limit_too(rt: HostRuntime) -> Result<(), AllocError> {
    let alloc = rt.alloc();
    let zeros = "00".repeat(alloc, 256)?;
    let given = format!(in alloc; "9f{zeros}ff")?;
    let wanted = format!(in alloc; "990100{zeros}")?;
    assert!(rt; is_turned(alloc, "--bytes 259", given.as_str(), wanted.as_str())?);
    assert!(rt; is_accepted(alloc, "--bytes 258", given.as_str())?);
    let refused = ran(alloc, "canon in out --bytes 258", given.as_str())?;
    assert!(rt; refused.stopped(1, "refused 13 CanonicalTooLong at 258"));
    let following = format!(in alloc; "00{given}")?;
    let refused = ran(alloc, "canon --seq in out --bytes 258", following.as_str())?;
    assert!(rt; refused.stopped(1, "item 2 refused 13 CanonicalTooLong at 258"));
    let both = format!(in alloc; "{given} / {given}")?;
    let compared = ran(alloc, "compare a b --bytes 258", both.as_str())?;
    assert!(rt; compared.printed("same"));
    Ok(())
}

// This number of tags 1 around 0, as digits.
fn tags(alloc: Global, count: usize) -> Result<String, AllocError> {
    let mut digits = "c1".repeat(alloc, count)?;
    digits.push_str("00")?;
    Ok(digits)
}

#[test]
fn takes_the_deepest_item(rt: HostRuntime) -> Result<(), AllocError> {
    let alloc = rt.alloc();
    let deepest = tags(alloc, 256)?;
    assert!(rt; is_item(alloc, "", deepest.as_str(), deepest.as_str())?);
    assert!(rt; is_accepted(alloc, "--hex", deepest.as_str())?);
    let digits = ran(alloc, "canon --hex --hex-out in -", deepest.as_str())?;
    assert!(rt; digits.printed(deepest.as_str()));
    let deeper = tags(alloc, 257)?;
    for line in ["check in", "check --hex in"] {
        let refused = ran(alloc, line, deeper.as_str())?;
        assert!(rt; refused.stopped(1, "refused 9 TooDeep at 256"), "{line}");
    }
    Ok(())
}
