//! Inputs without an end, and an output that accepts nothing.

use super::run_with;
use cborc_files::{FileFault, Folder, LONGEST, append_from};
use cborc_program::run;
use std::alloc::{AllocError, Global};
use std::io::{self, Read};

// A folder in which every file begins with one byte and continues with another for ever.
#[derive(Drop)]
struct Endless {
    first: u8,
    rest: u8,
}

impl Folder for Endless {
    type Draft = io::Sink;

    fn read_on(
        &mut self,
        _: Global,
        _: &str,
        from: u64,
        most: u64,
        bytes: &mut Vec<u8>,
    ) -> Result<(), FileFault> {
        let most = most.min(LONGEST.saturating_sub(from));
        let first = [self.first];
        let prefix = if from == 0 { &first[..] } else { &[] };
        match append_from(&mut prefix.chain(io::repeat(self.rest)), most, bytes) {
            Ok(()) => Ok(()),
            Err(_) => Err(FileFault::Memory),
        }
    }

    fn begin(&mut self, _: &str) -> Result<io::Sink, AllocError> {
        Ok(io::sink())
    }

    fn replace(&mut self, _: &str, _: io::Sink) -> Result<(), FileFault> {
        Err(FileFault::Failed)
    }

    fn abandon(&mut self, _: io::Sink) -> FileFault {
        FileFault::Failed
    }
}

// The arguments, the first byte of the file and the bytes after it, and the line on standard error.
static INDEFINITE: [(&str, u8, u8, &str); 8] = [
    ("check in", 0, 0, "refused 12 Trailing at 1"),
    ("check in", 0x9f, 0, "refused 2 TooLong at 1048576"),
    ("canon in out", 0x9f, 0x81, "refused 9 TooDeep at 256"),
    ("show --bytes 3 in", 0x9f, 0, "refused 2 TooLong at 3"),
    ("compare in -", 0xff, 0, "left refused 7 StrayBreak at 0"),
    ("check --seq in", 0, 0x1c, "item 2 refused 3 Reserved at 0"),
    (
        "canon --seq in out",
        0x78,
        0xff,
        "item 1 refused 10 InvalidText at 2",
    ),
    (
        "check --seq --bytes 70000 in",
        0x9f,
        0,
        "item 1 refused 2 TooLong at 70000",
    ),
];

#[test]
fn decides_on_a_prefix(rt: HostRuntime) -> Result<(), AllocError> {
    let alloc = rt.alloc();
    for &(line, first, rest, wanted) in &INDEFINITE {
        let mut out = Vec::new(alloc);
        let mut err = Vec::with_capacity(alloc, 64)?;
        let mut files = Endless { first, rest };
        let words = super::words(alloc, line)?;
        let status = run(alloc, words, &mut files, &mut out, &mut err);
        let reported = super::is_line(err.as_slice(), wanted);
        assert!(rt; status == 1 && out.is_empty() && reported, "{line}");
    }
    Ok(())
}

// Standard output accepts none of the canonical bytes, and no file is written.
#[test]
fn standard_output_takes_nothing(rt: HostRuntime) -> Result<(), AllocError> {
    let alloc = rt.alloc();
    let mut full = [];
    let mut out = full.as_mut_slice();
    let mut err = Vec::with_capacity(alloc, 64)?;
    let (status, written) = run_with(alloc, "canon in -", "00", &mut out, &mut err)?;
    let reported = super::is_line(err.as_slice(), "cannot write standard output");
    assert!(rt; status == 3 && written.is_empty() && reported);
    Ok(())
}
