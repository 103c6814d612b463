//! `check` of several files.

use super::ran;
use std::alloc::AllocError;

const EXPLAINED: &str = "\
b: refused 7 StrayBreak at 1
b:   in b
b:   There is a break (ff) where an item must begin.
b:   Check whether a length is wrong, or the value of a key is missing.
b:   bytes from 0: 81 ff
b:                    ^^
b:   at $[0]
";

// The arguments, the files, the status, and what is on standard output and on standard error.
static ROWS: [(&str, &str, u8, &str, &str); 10] = [
    (
        "check a b",
        "00 / 1800",
        0,
        "a: accepted 1 bytes\nb: accepted 2 bytes\n",
        "",
    ),
    (
        "check --strict b a b",
        "00 / 1800",
        1,
        "a: accepted 1 bytes\n",
        "b: refused 14 NotShortest at 0\nb: refused 14 NotShortest at 0\n",
    ),
    (
        "check a absent b",
        "00 / ff",
        3,
        "a: accepted 1 bytes\n",
        "absent: cannot read absent\nb: refused 7 StrayBreak at 0\n",
    ),
    (
        "check b absent a",
        "00 / ff",
        3,
        "a: accepted 1 bytes\n",
        "b: refused 7 StrayBreak at 0\nabsent: cannot read absent\n",
    ),
    (
        "check - --seq b",
        "0000 / 00ff",
        1,
        "-: accepted 2 items\n",
        "b: item 2 refused 7 StrayBreak at 0\n",
    ),
    (
        "check --hex a b",
        "00 / 0g",
        3,
        "a: accepted 1 bytes\n",
        "b: not hex: b\n",
    ),
    (
        "check --explain a b",
        "00 / 81ff",
        1,
        "a: accepted 1 bytes\n",
        EXPLAINED,
    ),
    ("check --quiet a b", "00 / 00", 0, "", ""),
    ("check --quiet a absent b", "00 / ff", 3, "", ""),
    (
        "check x\u{1b}y a",
        "00",
        3,
        "a: accepted 1 bytes\n",
        "x\\u001by: cannot read x\\u001by\n",
    ),
];

#[test]
fn checks_several_files(rt: HostRuntime) -> Result<(), AllocError> {
    for &(line, files, status, out, err) in &ROWS {
        let ran = ran(rt.alloc(), line, files)?;
        assert!(rt; ran.status == status && ran.written.is_empty(), "{line}");
        assert!(rt; ran.out.as_slice() == out.as_bytes(), "{line}");
        assert!(rt; ran.err.as_slice() == err.as_bytes(), "{line}");
    }
    Ok(())
}
