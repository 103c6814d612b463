//! Outputs that fail, and arguments that cannot be read.

use super::{LimitedFile, run_with};
use cborc_commands::end;
use cborc_program::{Watched, fault_of_words};
use std::alloc::AllocError;
use std::env::{Env, FillError};
use std::io;
use std::io::{ErrorKind, Write};

// An output that accepts this number of bytes and then fails.
#[derive(Drop)]
struct Short {
    left: usize,
}

impl Write for Short {
    fn write(&mut self, bytes: &[u8]) -> io::Result<usize> {
        if self.left == 0 {
            return Err(io::Error::from(ErrorKind::BrokenPipe));
        }
        let taken = bytes.len().min(self.left);
        self.left -= taken;
        Ok(taken)
    }

    fn flush(&mut self) -> io::Result<()> {
        Ok(())
    }
}

// The arguments, the file, and the status.
static STATUSES: [(&str, &str, u8); 10] = [
    ("canon in out", "00", 0),
    ("canon in out", "0000", 1),
    ("canon in", "00", 2),
    ("", "00", 2),
    ("canon absent out", "00", 3),
    ("check in", "00", 0),
    ("check --strict in", "1800", 1),
    ("check absent", "00", 3),
    ("check --seq in", "0000", 0),
    ("check --seq in", "00ff", 1),
];

#[test]
fn standard_error_fails(rt: HostRuntime) -> Result<(), AllocError> {
    for &(line, file, wanted) in &STATUSES {
        for left in [0, 3] {
            let mut out = Short { left: 64 };
            let mut err = Short { left };
            let (status, _) = run_with(rt.alloc(), line, file, &mut out, &mut err)?;
            if status == 3 && wanted != 3 {
                return Err(AllocError);
            }
            assert!(rt; status == wanted, "{line}");
        }
    }
    Ok(())
}

// The arguments, and how many bytes standard output accepts of the output for a file that holds 0.
static PRINTED: [(&str, usize); 27] = [
    ("help", 0),
    ("help", 1),
    ("help", 20),
    ("check in", 0),
    ("check in", 1),
    ("check in", 16),
    ("check --strict in", 0),
    ("check --seq in", 0),
    ("check --seq in", 16),
    ("check in a", 0),
    ("check in a", 21),
    ("check in a", 25),
    ("compare in in", 0),
    ("compare in in", 4),
    ("show in", 0),
    ("show in", 1),
    ("show --indent in", 1),
    ("show --seq in", 0),
    ("show --seq in", 1),
    ("canon --seq in -", 0),
    ("canon --seq --hex-out in -", 2),
    ("events in", 0),
    ("events in", 14),
    ("events --annotate in", 0),
    ("events --annotate in", 14),
    ("events --seq in", 0),
    ("events --seq in", 14),
];

#[test]
fn standard_output_fails(rt: HostRuntime) -> Result<(), AllocError> {
    for &(line, left) in &PRINTED {
        let mut out = Short { left };
        let mut err = Vec::with_capacity(rt.alloc(), 2048)?;
        let (status, _) = run_with(rt.alloc(), line, "00", &mut out, &mut err)?;
        if err.as_slice() == b"out of memory\n".as_slice() {
            return Err(AllocError);
        }
        let reported = err.as_slice() == b"cannot write standard output\n".as_slice();
        assert!(rt; status == 3 && reported, "{line} {left}");
    }
    Ok(())
}

// An output whose reader closed it, and one that is full.
#[test]
fn notices_a_closed_pipe(rt: HostRuntime) -> io::Result<()> {
    let mut pipe = Watched::new(Short { left: 1 });
    assert!(rt; pipe.write(b"a")? == 1 && !pipe.is_closed());
    assert!(rt; pipe.write(b"b").is_err() && pipe.is_closed());
    let mut file = Watched::new(LimitedFile {
        bytes: Vec::new(rt.alloc()),
        space: 1,
    });
    assert!(rt; file.write(b"ab")? == 1);
    assert!(rt; file.write(b"b").is_err() && !file.is_closed());
    Ok(())
}

// An output whose flush finds that the reader closed it.
#[derive(Drop)]
struct Unflushed;

impl Write for Unflushed {
    fn write(&mut self, bytes: &[u8]) -> io::Result<usize> {
        Ok(bytes.len())
    }

    fn flush(&mut self) -> io::Result<()> {
        Err(io::Error::from(ErrorKind::BrokenPipe))
    }
}

#[test]
fn passes_a_flush_on(rt: HostRuntime) -> io::Result<()> {
    let mut pipe = Watched::new(Unflushed);
    assert!(rt; pipe.write(b"a")? == 1 && !pipe.is_closed());
    assert!(rt; pipe.flush().is_err() && pipe.is_closed());
    Ok(())
}

// Arguments, of which one is longer than the initial space and is not UTF-8.
struct Words;

impl Env for Words {
    fn arg(&self, i: usize, buf: &mut [u8]) -> Result<usize, FillError> {
        let size = if i == 2 { 5000 } else { 5 };
        if buf.len() < size {
            return Err(FillError::TooLong);
        }
        buf[..size].fill(b'a');
        if i == 2 {
            buf[size - 1] = 0xff;
        }
        Ok(size)
    }

    fn var(&self, _name: &str, _buf: &mut [u8]) -> Result<usize, FillError> {
        Err(FillError::NotPresent)
    }

    fn var_at(&self, _i: usize, _buf: &mut [u8]) -> Result<usize, FillError> {
        Err(FillError::NotPresent)
    }
}

// The error of reading the arguments, the status, and the line on standard error.
static NO_WORDS: [(ErrorKind, u8, &[u8]); 2] = [
    (
        ErrorKind::InvalidData,
        2,
        b"argument 2 is not UTF-8; to read a file of such a name, use '- < FILE'\n",
    ),
    (ErrorKind::OutOfMemory, 3, b"out of memory\n"),
];

#[test]
fn has_no_words(rt: HostRuntime) -> Result<(), AllocError> {
    for &(kind, status, line) in &NO_WORDS {
        let mut err = Vec::with_capacity(rt.alloc(), 64)?;
        let fault = fault_of_words(rt.alloc(), &Words, &io::Error::from(kind));
        let ended = end(Err(fault), &mut err);
        assert!(rt; ended == status && err.as_slice() == line);
    }
    Ok(())
}
