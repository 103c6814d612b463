//! `events --annotate`: the bytes of each event, and what they mean.

use super::{ran, words};
use cborc_files::FilesInMemory;
use cborc_program::run;
use std::alloc::AllocError;

// Of RFC 8949, section 3.2.2, which annotates these bytes.
const MAP: &str = "       0  bf                                map, indefinite length
       1  63                                  text string, 3 bytes
       2  46756e                                \"Fun\"
       5  f5                                  true
       6  63                                  text string, 3 bytes
       7  416d74                                \"Amt\"
      10  21                                  negative integer -2
      11  ff                                break
";

// A tag over an array of a byte string in chunks and a number.
const CHUNKS: &str = "       0  c1                                tag 1
       1  82                                  array, 2 members
       2  5f                                    byte string, indefinite length
       3  41                                      chunk, 1 byte
       4  aa                                        h'aa'
       5  40                                      chunk, 0 bytes
       6  ff                                    break
       7  1903e8                                unsigned integer 1000
";

// Sixteen bytes of a payload in each line.
const LINES: &str = "       0  5811                              byte string, 17 bytes
       2  000102030405060708090a0b0c0d0e0f    h'000102030405060708090a0b0c0d0e0f'
      18  10                                  h'10'
";

// The lines before a refusal stay; of a string, once all of it was read.
const REFUSED: &str = "       0  82                                array, 2 members
       1  61                                  text string, 1 byte
       2  e9                                    \".\"
";

const CUT: &str = "       0  43                                byte string, 3 bytes
";

// Of a sequence: offsets from the start of the file, an empty line before each item but the first.
const SEQUENCE: &str = "       0  00                                unsigned integer 0

       1  81                                array, 1 member
       2  f6                                  null
";

const ZERO: &str = "       0  00                                unsigned integer 0
";

// The arguments, the file as hex (with `--hex` its text), the status, and what is on standard output.
static ANNOTATED: [(&str, &str, u8, &str); 12] = [
    ("events --annotate in", "bf6346756ef563416d7421ff", 0, MAP),
    ("events in --annotate", "c1825f41aa40ff1903e8", 0, CHUNKS),
    (
        "events --annotate in",
        "5811000102030405060708090a0b0c0d0e0f10",
        0,
        LINES,
    ),
    ("events --annotate in", "8261e9f90000", 1, REFUSED),
    ("events --annotate in", "430102", 1, CUT),
    ("events --annotate in", "0000", 1, ZERO),
    ("events --annotate in", "", 1, ""),
    (
        "events --annotate --hex -",
        "82 01 ",
        1,
        "       0  82                                array, 2 members\n       1  01                                  unsigned integer 1\n",
    ),
    ("events --annotate --seq in", "0081f6", 0, SEQUENCE),
    (
        "events --annotate --seq in",
        "0081f6ff",
        1,
        "       0  00                                unsigned integer 0\n\n       1  81                                array, 1 member\n       2  f6                                  null\n\n",
    ),
    ("events --annotate --quiet in", "00", 0, ""),
    ("events --annotate --explain in", "00", 0, ZERO),
];

#[test]
fn annotates_bytes(rt: HostRuntime) -> Result<(), AllocError> {
    for &(line, file, status, wanted) in &ANNOTATED {
        let ran = ran(rt.alloc(), line, file)?;
        let is_right = ran.status == status && ran.out.as_slice() == wanted.as_bytes();
        assert!(rt; is_right && ran.written.is_empty(), "{line} {file}");
    }
    Ok(())
}

#[test]
fn annotates_a_file_in_memory(rt: HostRuntime) -> Result<(), AllocError> {
    let alloc = rt.alloc();
    let mut files = FilesInMemory::new(alloc);
    files.put("in", b"\xbf\x63Fun\xf5\x63Amt\x21\xff")?;
    let mut out = Vec::with_capacity(alloc, 1024)?;
    let mut err = Vec::new(alloc);
    let words = words(alloc, "events --annotate in")?;
    let status = run(alloc, words, &mut files, &mut out, &mut err);
    assert!(rt; status == 0 && err.is_empty() && out.as_slice() == MAP.as_bytes());
    Ok(())
}
