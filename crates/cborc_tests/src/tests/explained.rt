//! `--explain`: what follows the line of a refusal or a fault.

use super::{Outcome, ran};
use cborc_files::Visible;
use std::alloc::{AllocError, Global};
use std::str;

const FLOAT: &str = "\
refused 5 Float at 5
  in in
  A floating-point number begins here; floats are not accepted.
  Encode it as an integer, as a text, or as a tag that contains integers.
  bytes from 0: a1 61 61 82 00 f9 00 00
                               ^^
  at $.\"a\"[1]
";

const REPEATED: &str = "\
refused 11 RepeatedKey at 4
  in in
  This key equals an earlier key of its map.
  Remove one of the two pairs.
  bytes from 0: a2 61 61 00 61 61 01
                            ^^
  at $, key 2 of the map at 0
";

const TRUNCATED: &str = "\
refused 1 Truncated at 3
  in in
  The input ends within the item.
  Check whether the input was cut off, or a length is too large.
  bytes from 0: d8 18 82
                         ^^
  at $(24)[0]
";

const TRAILING: &str = "\
refused 12 Trailing at 19
  in in
  The item is complete, and a byte follows it.
  Read several items as a sequence; decode hex text first.
  bytes from 11: 00 00 00 00 00 00 00 00 01
                                         ^^
  at $
";

const OF_SEQUENCE: &str = "\
item 3 refused 7 StrayBreak at 1
  in in, at offset 5; the item starts at 4
  There is a break (ff) where an item must begin.
  Check whether a length is wrong, or the value of a key is missing.
  bytes from 0: 81 ff
                   ^^
  at $[0]
";

// The same from standard input: hex text with white space in it.
const OF_STREAM: &str = "\
item 3 refused 7 StrayBreak at 1
  in standard input, at offset 5; the item starts at 4
  There is a break (ff) where an item must begin.
  Check whether a length is wrong, or the value of a key is missing.
  bytes from 0: 81 ff
                   ^^
  at $[0]
";

const TEXT: &str = "\
refused 10 InvalidText at 3
  in in
  From here on, a text string or a chunk of one is not UTF-8.
  Encode the text in UTF-8, or encode its bytes as a byte string.
  bytes from 0: 81 62 61 ff
                         ^^
  at $[0]
";

// After a string in chunks.
const RESERVED: &str = "\
refused 3 Reserved at 5
  in in
  No item begins with this byte: its low five bits are reserved.
  The input may not be CBOR, or an earlier length may be wrong.
  bytes from 0: 82 7f 61 61 ff 1c
                               ^^
  at $[1]
";

const OTHER_KEY: &str = "\
refused 20 KeyKind at 1
  in in
  The key that begins here is neither an integer nor a text.
  Encode the key as an integer or a text, or allow keys of any kind.
  bytes from 0: a1 80 00
                   ^^
  at $, key 1 of the map at 0
";

const DEEP: &str = "\
refused 9 TooDeep at 1
  in in
  An array, map or tag is nested deeper than the limit.
  Raise the depth limit, which can be at most 1024.
  bytes from 0: 81 80
                   ^^
  at $[0]
  The option --depth sets the depth limit.
";

const LONG: &str = "\
refused 2 TooLong at 2
  in in
  The item is longer than the byte limit.
  Raise the byte limit if such items are expected.
  bytes from 0: 82 00 00
                      ^^
  at $[1]
  The option --bytes sets the byte limit.
";

const OTHER_DIGIT: &str = "\
not hex: in
  With --hex, the input must consist of hex digits, two for each byte, and white space.
  line 2, column 2: not a hex digit (byte 67)
";

const ODD: &str = "\
not hex: in
  With --hex, the input must consist of hex digits, two for each byte, and white space.
  line 1, column 4: the last digit has no second digit
";

// The arguments, the file as hex (with `--hex` its text), and what is on standard error.
static EXPLAINED: [(&str, &str, &str); 14] = [
    ("check --explain in", "a161618200f90000", FLOAT),
    ("canon --explain in out", "a2616100616101", REPEATED),
    ("show --explain in", "d81882", TRUNCATED),
    (
        "events --explain in",
        "9200000000000000000000000000000000000001",
        TRAILING,
    ),
    ("check --seq --explain in", "0082010281ff", OF_SEQUENCE),
    ("canon --seq --explain in -", "0082010281ff", OF_SEQUENCE),
    ("events --seq --explain in", "0082010281ff", OF_SEQUENCE),
    (
        "show --seq --explain --hex -",
        " 0\n0 820102 81 ff",
        OF_STREAM,
    ),
    ("check --explain in", "816261ff", TEXT),
    ("events --explain in", "827f6161ff1c", RESERVED),
    ("check --keys basic --explain in", "a18000", OTHER_KEY),
    ("check --depth 1 --explain in", "8180", DEEP),
    ("check --bytes 2 --explain in", "820000", LONG),
    (
        "check --seq --hex --explain in",
        "0082010281ff",
        OF_SEQUENCE,
    ),
];

// The text on standard error.
fn text_of(ran: &Outcome) -> &str {
    str::from_utf8(ran.err.as_slice()).unwrap_or("bytes that are not UTF-8")
}

#[test]
fn explains_refusals(rt: HostRuntime) -> Result<(), AllocError> {
    for &(line, file, wanted) in &EXPLAINED {
        let ran = ran(rt.alloc(), line, file)?;
        let found = text_of(&ran);
        assert!(rt; found == wanted, "{line}: found {found}, expected {wanted}");
    }
    Ok(())
}

/// Whether this command, of a file with this text, writes this explanation.
fn is_explained(
    alloc: Global,
    command: &str,
    text: &str,
    wanted: &str,
) -> Result<bool, AllocError> {
    let ran = ran(alloc, command, text)?;
    Ok(text_of(&ran) == wanted)
}

#[test]
fn explains_text_that_is_no_hex(rt: HostRuntime) -> Result<(), AllocError> {
    let alloc = rt.alloc();
    let command = "check --explain --hex in";
    assert!(rt; is_explained(alloc, command, "00\n0g", OTHER_DIGIT)?);
    assert!(rt; is_explained(alloc, command, "00 ", "")?);
    assert!(rt; is_explained(alloc, command, "000", ODD)?);
    Ok(())
}

// For a fault after 65,536 characters, and for one after as many lines.
const FAR_COLUMN: &str = "\
not hex: in
  With --hex, the input must consist of hex digits, two for each byte, and white space.
  line 2, column 70001: not a hex digit (byte 67)
";

const FAR_LINE: &str = "\
not hex: in
  With --hex, the input must consist of hex digits, two for each byte, and white space.
  line 70001, column 2: not a hex digit (byte 67)
";

const FAR_END: &str = "\
not hex: in
  With --hex, the input must consist of hex digits, two for each byte, and white space.
  line 1, column 70002: the last digit has no second digit
";

#[test]
fn explains_a_fault_of_a_long_text(rt: HostRuntime) -> Result<(), AllocError> {
    let alloc = rt.alloc();
    let command = "check --seq --explain --hex in";
    let digits = "0".repeat(alloc, 70_000)?;
    let lines = "\n".repeat(alloc, 70_000)?;
    let text = format!(in alloc; "\n{digits}g0")?;
    assert!(rt; is_explained(alloc, command, text.as_str(), FAR_COLUMN)?);
    let text = format!(in alloc; "{lines} g")?;
    assert!(rt; is_explained(alloc, command, text.as_str(), FAR_LINE)?);
    let text = format!(in alloc; "{digits}0")?;
    assert!(rt; is_explained(alloc, command, text.as_str(), FAR_END)?);
    Ok(())
}

const FAR_FLOAT: &str = "\
refused 5 Float at 101
  in in
  A floating-point number begins here; floats are not accepted.
  Encode it as an integer, as a text, or as a tag that contains integers.
  bytes from 93: 00 00 00 00 00 00 00 00 f9 00
                                         ^^
  at $[100]
";

// An offset after the first 64 bytes of the input.
#[test]
fn explains_an_offset_of_a_long_item(rt: HostRuntime) -> Result<(), AllocError> {
    let alloc = rt.alloc();
    let members = "00".repeat(alloc, 100)?;
    let file = format!(in alloc; "9f{members}f900")?;
    let ran = ran(alloc, "check --explain in", file.as_str())?;
    let found = text_of(&ran);
    assert!(rt; found == FAR_FLOAT, "found {found}, expected {FAR_FLOAT}");
    Ok(())
}

#[test]
fn explains_either_side(rt: HostRuntime) -> Result<(), AllocError> {
    let alloc = rt.alloc();
    let left = ran(alloc, "compare --explain a b", "1f / 00")?;
    assert!(rt;
        left.err
            .starts_with(b"left refused 4 NoIndefinite at 0\n  in a\n")
    );
    let shown = b"bytes from 0: 1f\n".as_slice();
    assert!(rt; left.err.windows(shown.len()).any(|part| part == shown));
    let right = ran(alloc, "compare --explain a b", "00 / 1e")?;
    assert!(rt;
        right
            .err
            .starts_with(b"right refused 3 Reserved at 0\n  in b\n")
    );
    let shown = b"bytes from 0: 1e\n".as_slice();
    assert!(rt; right.err.windows(shown.len()).any(|part| part == shown));
    Ok(())
}

#[test]
fn shows_control_characters(rt: HostRuntime) -> Result<(), AllocError> {
    let path = Visible("a\u{1b}\n\u{7f}é\u{9b}\u{2028}\u{202e}\u{2066}\u{61c}");
    let shown = format!(in rt.alloc(); "{path}")?;
    assert!(rt; shown.as_str() == "a\\u001b\\u000a\\u007fé\\u009b\\u2028\\u202e\\u2066\\u061c");
    Ok(())
}
