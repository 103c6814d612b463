//! An output that writes the name of a file before each line.

ghost use Rattle.std.specs.Prelude.{◌≤◌, ◌<◌, length};

use cborc_files::Visible;
use std::io::{self, Write};

/// An output that writes the name of a file and `: ` before each line.
#[derive(Drop)]
pub(crate) struct Labelled<'a, W: Write> {
    out: &'a mut W,
    path: &'a str,
    // Whether the next byte begins a line.
    begins: bool,
}

impl<'a, W: Write> Labelled<'a, W> {
    /// An output at the start of a line.
    pub(crate) fn new(path: &'a str, out: &'a mut W) -> Labelled<'a, W> {
        Labelled {
            out,
            path,
            begins: true,
        }
    }
}

impl<'a, W: Write> Write for Labelled<'a, W> {
    fn write(&mut self, bytes: &[u8]) -> io::Result<usize> {
        let end = end_of_line(bytes);
        if end == 0 {
            return Ok(0);
        }
        if self.begins {
            write!(self.out, "{}: ", Visible(self.path))?;
            self.begins = false;
        }
        let count = self.out.write(&bytes[..end])?;
        self.begins = count == end && bytes[end - 1] == b'\n';
        Ok(count)
    }

    fn flush(&mut self) -> io::Result<()> {
        self.out.flush()
    }
}

// The offset after the first line feed, or after the last byte if there is none.
fn end_of_line(bytes: &[u8]) -> usize
    ensures within { result ≤ length bytes.now }
    ensures some { 0 < length bytes.now → 0 < result }
{
    match bytes.iter().position(|byte| *byte == b'\n') {
        Some(offset) => offset + 1,
        None => bytes.len(),
    }
}
