//! What a run leaves in each file.

use super::{is_line, words};
use cbor_head::{KeyOrder, Limits};
use cborc_commands::canon_in_memory;
use cborc_files::FilesInMemory;
use cborc_program::run;
use std::alloc::{AllocError, Global};
use std::test::Fail;

// The files `in` and `out`, which is to be replaced, and one that no command names.
fn files(alloc: Global, input: &[u8]) -> Result<FilesInMemory, AllocError> {
    let mut files = FilesInMemory::new(alloc);
    files.put("in", input)?;
    files.put("out", b"\x05")?;
    files.put("other", b"\x06")?;
    Ok(files)
}

// The arguments, the file `in` before, the status, and what `in` and `out` hold afterwards.
static ROWS: [(&str, &[u8], u8, &[u8], &[u8]); 18] = [
    ("canon in out", b"\x18\x00", 0, b"\x18\x00", b"\x00"),
    ("canon in in", b"\x18\x00", 0, b"\x00", b"\x05"),
    (
        "canon --hex-out in out",
        b"\x18\x00",
        0,
        b"\x18\x00",
        b"00\n",
    ),
    ("canon --hex in in", b"18 00", 0, b"\x00", b"\x05"),
    (
        "canon --explain in out",
        b"\x18\x00",
        0,
        b"\x18\x00",
        b"\x00",
    ),
    ("canon --quiet in out", b"\x18\x00", 0, b"\x18\x00", b"\x00"),
    ("canon in -", b"\x18\x00", 0, b"\x18\x00", b"\x05"),
    (
        "canon --seq in out",
        b"\x18\x00\x20",
        0,
        b"\x18\x00\x20",
        b"\x00\x20",
    ),
    ("canon --seq in in", b"\x18\x00", 0, b"\x00", b"\x05"),
    ("canon --seq in out", b"\x00\xff", 1, b"\x00\xff", b"\x05"),
    ("canon in out", b"\x00\x00", 1, b"\x00\x00", b"\x05"),
    ("canon in in", b"\xff", 1, b"\xff", b"\x05"),
    ("canon --explain in out", b"\xff", 1, b"\xff", b"\x05"),
    ("canon --hex in out", b"0", 3, b"0", b"\x05"),
    ("canon absent out", b"\x00", 3, b"\x00", b"\x05"),
    ("canon in", b"\x00", 2, b"\x00", b"\x05"),
    ("compare in out", b"\x00", 1, b"\x00", b"\x05"),
    ("check in", b"\x00", 0, b"\x00", b"\x05"),
];

#[test]
fn leaves_other_files_alone(rt: HostRuntime) -> Result<(), AllocError> {
    let alloc = rt.alloc();
    for &(line, input, wanted, source, target) in &ROWS {
        let mut files = files(alloc, input)?;
        let mut out = Vec::with_capacity(alloc, 64)?;
        let mut err = Vec::with_capacity(alloc, 2048)?;
        let words = words(alloc, line)?;
        let status = run(alloc, words, &mut files, &mut out, &mut err);
        assert!(rt; status == wanted, "{line}");
        assert!(rt; files.get("in") == Some(source), "{line}");
        assert!(rt; files.get("out") == Some(target), "{line}");
        assert!(rt; files.get("other") == Some(b"\x06".as_slice()), "{line}");
        assert!(rt; files.get("-").is_none(), "{line}");
    }
    Ok(())
}

#[test]
fn standard_input_is_a_file_there(rt: HostRuntime) -> Result<(), AllocError> {
    let alloc = rt.alloc();
    let mut files = FilesInMemory::new(alloc);
    files.put("-", b"\x82\x00\x01")?;
    let mut out = Vec::with_capacity(alloc, 64)?;
    let mut err = Vec::new(alloc);
    let status = run(
        alloc,
        words(alloc, "show -")?,
        &mut files,
        &mut out,
        &mut err,
    );
    assert!(rt; status == 0 && is_line(out.as_slice(), "[0, 1]") && err.is_empty());
    Ok(())
}

#[test]
fn replaces_a_file_by_its_canonical_bytes(rt: HostRuntime) -> Result<(), Fail> {
    let alloc = rt.alloc();
    let limits = Limits::new(256, 1 << 20).ok_or("the limits are in range")?;
    let mut files = files(alloc, b"\xa2\x41\x00\x00\x01\xf6")?;
    let done = canon_in_memory(alloc, &mut files, "in", "in", KeyOrder::Bytewise, limits);
    assert!(rt; done.is_ok());
    assert!(rt; files.get("in") == Some(b"\xa2\x01\xf6\x41\x00\x00".as_slice()));
    let refused = canon_in_memory(alloc, &mut files, "none", "in", KeyOrder::Bytewise, limits);
    assert!(rt; refused.is_err());
    assert!(rt; files.get("in") == Some(b"\xa2\x01\xf6\x41\x00\x00".as_slice()));
    Ok(())
}
