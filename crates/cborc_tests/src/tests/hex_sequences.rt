//! Sequences in hex text that is longer than a part of its file.

use super::{is_line, ran};
use std::alloc::{AllocError, Global};

// What comes before and after 30,000 items; the status and the line of `check --seq`.
static TEXTS: [(&str, &str, u8, &str); 8] = [
    ("", "", 0, "accepted 30000 items"),
    ("", "ff", 1, "item 30001 refused 7 StrayBreak at 0"),
    ("", "18", 1, "item 30001 refused 1 Truncated at 1"),
    ("ff", "", 1, "item 1 refused 7 StrayBreak at 0"),
    ("ff", "g", 3, "not hex: in"),
    ("ff", "0", 3, "not hex: in"),
    ("", "g", 3, "not hex: in"),
    ("", "0", 3, "not hex: in"),
];

// Each item, the number 100, has five bytes of text, so the first 65,536 end between two digits.
fn long_text(alloc: Global, prefix: &str, following: &str) -> Result<String, AllocError> {
    let items = "1864 ".repeat(alloc, 30_000)?;
    let items = items.as_str();
    format!(in alloc; "{prefix}{items}{following}")
}

#[test]
fn judges_the_whole(rt: HostRuntime) -> Result<(), AllocError> {
    let alloc = rt.alloc();
    for &(prefix, following, status, line) in &TEXTS {
        let text = long_text(alloc, prefix, following)?;
        let ran = ran(alloc, "check --seq --hex in", text.as_str())?;
        let reported = if status == 0 {
            ran.printed(line)
        } else {
            ran.stopped(status, line)
        };
        assert!(rt; reported, "{prefix} {following}");
    }
    Ok(())
}

#[test]
fn shows_the_items_of_the_parts_before(rt: HostRuntime) -> Result<(), AllocError> {
    let alloc = rt.alloc();
    let text = long_text(alloc, "", "g")?;
    let ran = ran(alloc, "show --seq --hex in", text.as_str())?;
    assert!(rt; ran.status == 3 && is_line(ran.err.as_slice(), "not hex: in"));
    // Two parts are 131,072 bytes of text.
    let shown = "100\n".repeat(alloc, 26_214)?;
    assert!(rt; ran.out.as_slice() == shown.as_bytes());
    Ok(())
}

// To standard output; a file is not made.
#[test]
fn writes_the_items_of_the_parts_before(rt: HostRuntime) -> Result<(), AllocError> {
    let alloc = rt.alloc();
    let text = long_text(alloc, "", "0")?;
    let printed = ran(alloc, "canon --seq --hex in -", text.as_str())?;
    assert!(rt; printed.status == 3 && is_line(printed.err.as_slice(), "not hex: in"));
    let written = "\x18\x64".repeat(alloc, 26_214)?;
    assert!(rt; printed.out.as_slice() == written.as_bytes());
    let kept = ran(alloc, "canon --seq --hex in out", text.as_str())?;
    assert!(rt; kept.stopped(3, "not hex: in"));
    Ok(())
}

#[test]
fn reads_over_white_space(rt: HostRuntime) -> Result<(), AllocError> {
    let alloc = rt.alloc();
    let space = "\n".repeat(alloc, 200_000)?;
    let space = space.as_str();
    let text = format!(in alloc; "1{space}864 00")?;
    let following = ran(alloc, "check --seq --hex in", text.as_str())?;
    assert!(rt; following.printed("accepted 2 items"));
    let alone = ran(alloc, "check --seq --hex in", space)?;
    assert!(rt; alone.printed("accepted 0 items"));
    Ok(())
}

#[test]
fn explains_an_item_of_a_later_part(rt: HostRuntime) -> Result<(), AllocError> {
    let alloc = rt.alloc();
    let text = long_text(alloc, "", "81ff 0000")?;
    let ran = ran(alloc, "check --seq --hex --explain in", text.as_str())?;
    for shown in [
        ", at offset 60001; the item starts at 60000\n",
        "bytes from 0: 81 ff",
    ] {
        let bytes = shown.as_bytes();
        assert!(rt;
            ran.err.windows(bytes.len()).any(|part| part == bytes),
            "{shown}"
        );
    }
    Ok(())
}
