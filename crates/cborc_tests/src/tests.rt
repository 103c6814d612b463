//! The program, over a folder in memory.

mod annotated;
mod command_line;
mod disk;
mod explained;
mod failures;
mod help;
mod hex_sequences;
mod in_memory;
mod items;
mod refused;
mod rows;
mod several_files;
mod streams;

use cborc_files::{Cause, FileFault, Folder, append_part};
use cborc_program::run;
use std::alloc::{AllocError, Global};
use std::io::{self, ErrorKind, Write};

// A folder with two files to read, of which the first is also standard input. It stores what is written.
// The path `locked` is not permitted, `folder` is a folder, `full` is out of memory, `small` has space
// for two bytes, and any other file is missing. No new file can be created in the folders `locked` and
// `absent`.
#[derive(Drop)]
struct Shelf<'a> {
    first: &'a [u8],
    second: &'a [u8],
    written: Vec<(String, Vec<u8>)>,
    cause: Option<Cause>,
}

// The bytes of a file, and for how many more there is space.
#[derive(Drop)]
struct LimitedFile {
    bytes: Vec<u8>,
    space: usize,
}

impl Write for LimitedFile {
    fn write(&mut self, bytes: &[u8]) -> io::Result<usize> {
        let taken = bytes.len().min(self.space);
        if taken == 0 {
            return Err(io::Error::from(ErrorKind::StorageFull));
        }
        self.bytes.extend_from_slice(&bytes[..taken])?;
        self.space -= taken;
        Ok(taken)
    }

    fn flush(&mut self) -> io::Result<()> {
        Ok(())
    }
}

impl<'a> Folder for Shelf<'a> {
    type Draft = LimitedFile;

    fn read_on(
        &mut self,
        _alloc: Global,
        path: &str,
        from: u64,
        most: u64,
        bytes: &mut Vec<u8>,
    ) -> Result<(), FileFault> {
        match path {
            "in" | "a" | "-" => append_part(self.first, from, most, bytes),
            "b" => append_part(self.second, from, most, bytes),
            "full" => Err(FileFault::Memory),
            _ => Err(self.fail(path)),
        }
    }

    fn begin(&mut self, path: &str) -> Result<LimitedFile, AllocError> {
        Ok(LimitedFile {
            bytes: Vec::new(*self.written.allocator()),
            space: if path == "small" { 2 } else { usize::MAX },
        })
    }

    fn replace(&mut self, path: &str, draft: LimitedFile) -> Result<(), FileFault> {
        match path {
            "full" => Err(FileFault::Memory),
            "locked" | "folder" | "locked/out" | "absent/out" => Err(self.fail(path)),
            _ => self.keep(path, draft.bytes).map_err(|_| FileFault::Memory),
        }
    }

    fn abandon(&mut self, draft: LimitedFile) -> FileFault {
        if draft.space == 0 {
            self.fail("small")
        } else {
            FileFault::Memory
        }
    }

    fn cause(&self) -> Option<Cause> {
        self.cause
    }
}

impl<'a> Shelf<'a> {
    fn fail(&mut self, path: &str) -> FileFault {
        let kind = match path {
            "locked" | "locked/out" => Some(ErrorKind::PermissionDenied),
            "folder" => Some(ErrorKind::IsADirectory),
            "odd" => Some(ErrorKind::Other),
            "small" => Some(ErrorKind::StorageFull),
            "silent" => None,
            _ => Some(ErrorKind::NotFound),
        };
        let beside = path.ends_with("/out");
        let code = if path == "odd" { Some(5) } else { None };
        self.cause = kind.map(|kind| Cause { kind, code, beside });
        FileFault::Failed
    }

    fn keep(&mut self, path: &str, bytes: Vec<u8>) -> Result<(), AllocError> {
        let path = String::from_str(*self.written.allocator(), path)?;
        self.written.push((path, bytes))?;
        Ok(())
    }
}

// What a run left.
#[derive(Drop)]
struct Outcome {
    status: u8,
    out: Vec<u8>,
    err: Vec<u8>,
    written: Vec<(String, Vec<u8>)>,
}

impl Outcome {
    // Whether it succeeded and wrote only this file.
    fn wrote(&self, path: &str, bytes: &[u8]) -> bool {
        let quiet = self.status == 0 && self.out.is_empty() && self.err.is_empty();
        match self.written.as_slice() {
            [(at, held)] => quiet && at.as_str() == path && held.as_slice() == bytes,
            _ => false,
        }
    }

    // Whether it wrote only these bytes, to the file `out` or to standard output.
    fn left(&self, is_file: bool, bytes: &[u8]) -> bool {
        if is_file {
            return self.wrote("out", bytes);
        }
        self.written.is_empty() && self.out.as_slice() == bytes
    }

    // Whether it succeeded and wrote only this line, to standard output.
    fn printed(&self, line: &str) -> bool {
        let quiet = self.status == 0 && self.written.is_empty() && self.err.is_empty();
        quiet && is_line(self.out.as_slice(), line)
    }

    // Whether it ended with this status and wrote only this line, to standard error.
    fn stopped(&self, status: u8, line: &str) -> bool {
        let quiet = self.status == status && self.written.is_empty() && self.out.is_empty();
        quiet && is_line(self.err.as_slice(), line)
    }
}

fn is_line(bytes: &[u8], line: &str) -> bool {
    match bytes.strip_suffix(b"\n".as_slice()) {
        Some(text) => text == line.as_bytes(),
        None => false,
    }
}

// The first three columns of a row, which are separated by bars; a fourth says what the bytes are. (A
// table is one text: each element of an array would be a value of its own in each proof of a function
// that names the array.)
fn columns(row: &str) -> Option<(&str, &str, &str)> {
    let (first, rest) = row.split_once(" | ")?;
    let (second, rest) = rest.split_once(" | ")?;
    let third = rest.split_once(" | ").map_or(rest, |(third, _)| third);
    Some((first, second, third))
}

// The words of a line, after the program's name.
fn words(alloc: Global, line: &str) -> Result<Vec<String>, AllocError> {
    let mut words = Vec::new(alloc);
    words.push(String::from_str(alloc, "cborc")?)?;
    for word in line.split_whitespace() {
        words.push(String::from_str(alloc, word)?)?;
    }
    Ok(words)
}

// Runs the words of a line over these outputs and the files of a row. Returns the status and what was
// written.
fn run_with<O: Write, E: Write>(
    alloc: Global,
    line: &str,
    files: &str,
    out: &mut O,
    err: &mut E,
) -> Result<(u8, Vec<(String, Vec<u8>)>), AllocError> {
    let (first, second) = files.split_once(" / ").unwrap_or((files, ""));
    let first = bytes_of(alloc, line, first)?;
    let second = bytes_of(alloc, line, second)?;
    let mut files = Shelf {
        first: first.as_slice(),
        second: second.as_slice(),
        written: Vec::new(alloc),
        cause: None,
    };
    let status = run(alloc, words(alloc, line)?, &mut files, out, err);
    let Shelf { written, .. } = files;
    Ok((status, written))
}

// A file's bytes: its text, as `--hex` reads it, or else the bytes that its hex digits encode.
fn bytes_of(alloc: Global, line: &str, file: &str) -> Result<Vec<u8>, AllocError> {
    if line.split_whitespace().any(|word| word == "--hex") {
        Vec::from_slice(alloc, file.as_bytes())
    } else {
        hex::decode(alloc, file).map_err(|_| AllocError)
    }
}

// Runs the words with outputs that accept everything. An unexpected end with out of memory is an error
// here: so a test ends when an allocation is made to fail.
fn ran(alloc: Global, line: &str, files: &str) -> Result<Outcome, AllocError> {
    let mut out = Vec::with_capacity(alloc, 2048)?;
    let mut err = Vec::with_capacity(alloc, 2048)?;
    let (status, written) = run_with(alloc, line, files, &mut out, &mut err)?;
    if status == 3 && err.ends_with(b"out of memory\n") && !line.contains("full") {
        return Err(AllocError);
    }
    Ok(Outcome {
        status,
        out,
        err,
        written,
    })
}
