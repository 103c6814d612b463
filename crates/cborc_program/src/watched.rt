//! An output that records whether its reader closed it.

ghost use Rattle.std.specs.Prelude.{◌≡◌, false, MatchResult};
ghost use Rattle.std.specs.Io.{WritesAtMost};
ghost use Rattle.std.specs.Io.KnownBytes.{Keeps, WriteAppends};
ghost use Rattle.std.specs.IoError.{error_kind};
ghost use Rattle.cborc_program.specs.Watched.{IsClosedBy};

use std::io::{self, ErrorKind, Write};

/// An output, and whether it is a pipe that its reader closed.
#[derive(Drop)]
pub struct Watched<W> {
    out: W,
    is_closed: bool,
}

impl<W> Watched<W> {
    /// An output that is not known to be closed.
    pub fn new(out: W) -> Watched<W>
        ensures { result ≡ record { out = out; is_closed = false } }
    {
        Watched {
            out,
            is_closed: false,
        }
    }

    /// Whether a write or a flush found that the reader closed it.
    pub fn is_closed(&self) -> bool
        ensures { result ≡ self.now.is_closed }
    {
        self.is_closed
    }

    // Records this error of the output.
    fn notice(&mut self, error: &io::Error)
        ensures out { self.new.out ≡ self.old.out }
        ensures closed { IsClosedBy (error_kind error.now) self.old.is_closed self.new.is_closed }
    {
        if error.kind() == ErrorKind::BrokenPipe {
            self.is_closed = true;
        }
    }
}

impl<W: Write> Write for Watched<W> {
    ghost contents = { λ watched. W.contents watched.out };

    fn write(&mut self, bytes: &[u8]) -> io::Result<usize>
        ensures bound { WritesAtMost result bytes.now }
        ensures bytes { WriteAppends (W.contents self.old.out) (W.contents self.new.out) result bytes.now }
        ensures closed { MatchResult result (λ _. self.new.is_closed ≡ self.old.is_closed)
            (λ error. IsClosedBy (error_kind error) self.old.is_closed self.new.is_closed) }
    {
        match self.out.write(bytes) {
            Ok(count) => Ok(count),
            Err(error) => {
                self.notice(&error);
                Err(error)
            }
        }
    }

    fn flush(&mut self) -> io::Result<()>
        ensures bytes { Keeps (W.contents self.old.out) (W.contents self.new.out) }
        ensures closed { MatchResult result (λ _. self.new.is_closed ≡ self.old.is_closed)
            (λ error. IsClosedBy (error_kind error) self.old.is_closed self.new.is_closed) }
    {
        match self.out.flush() {
            Ok(()) => Ok(()),
            Err(error) => {
                self.notice(&error);
                Err(error)
            }
        }
    }
}
