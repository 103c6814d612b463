//! A reader and a writer that read and accept few bytes at a time, or fail.

use std::alloc::Global;
use std::io;
use std::io::{Read, Write};

// A reader that reads at most `part` bytes a call, fails once at one offset, and then continues.
#[derive(Drop)]
pub(super) struct Source<'a> {
    pub(super) rest: &'a [u8],
    pub(super) part: usize,
    // The number of bytes that it reads before it fails.
    pub(super) fails: Option<usize>,
    // The number of bytes requested by each read.
    pub(super) asked: Vec<usize>,
}

impl<'a> Source<'a> {
    pub(super) fn new(alloc: Global, bytes: &'a [u8]) -> Source<'a> {
        Source {
            rest: bytes,
            part: usize::MAX,
            fails: None,
            asked: Vec::new(alloc),
        }
    }
}

impl Read for Source<'_> {
    fn read(&mut self, buf: &mut [u8]) -> io::Result<usize> {
        self.asked.push(buf.len())?;
        let mut n = buf.len().min(self.rest.len()).min(self.part);
        match self.fails {
            None => {}
            Some(0) => {
                self.fails = None;
                return Err(io::Error::from(io::ErrorKind::Interrupted));
            }
            Some(left) => {
                n = n.min(left);
                self.fails = Some(left - n);
            }
        }
        buf[..n].copy_from_slice(&self.rest[..n]);
        self.rest = &self.rest[n..];
        Ok(n)
    }
}

// How a writer stops.
#[derive(Clone, Copy, PartialEq)]
pub(super) enum Stop {
    Fails,
    TakesNothing,
}

// The number of bytes that a write accepts at most, and how the writer stops.
pub(super) static STOPS: [(usize, Stop); 4] = [
    (1, Stop::Fails),
    (4, Stop::Fails),
    (usize::MAX, Stop::Fails),
    (usize::MAX, Stop::TakesNothing),
];

// A writer that accepts at most `part` bytes a write, stops once at one offset, and then
// continues.
#[derive(Drop)]
pub(super) struct Sink {
    pub(super) held: Vec<u8>,
    pub(super) part: usize,
    // The number of bytes that it accepts before it stops, and how it stops.
    pub(super) stops: Option<(usize, Stop)>,
    has_stopped: bool,
    // Whether there was a write after it stopped.
    is_asked_again: bool,
}

impl Sink {
    pub(super) fn new(alloc: Global) -> Sink {
        Sink {
            held: Vec::new(alloc),
            part: usize::MAX,
            stops: None,
            has_stopped: false,
            is_asked_again: false,
        }
    }

    // A writer that accepts `space` bytes, at most `part` a write, and then stops once.
    pub(super) fn stopping(alloc: Global, space: usize, part: usize, stop: Stop) -> Sink {
        let mut sink = Sink::new(alloc);
        sink.part = part;
        sink.stops = Some((space, stop));
        sink
    }

    // Whether it holds these bytes, and was not called after it stopped.
    pub(super) fn ended_with(&self, bytes: &[u8]) -> bool {
        self.held.as_slice() == bytes && !self.is_asked_again
    }
}

impl Write for Sink {
    fn write(&mut self, buf: &[u8]) -> io::Result<usize> {
        self.is_asked_again = self.has_stopped;
        let mut n = buf.len().min(self.part);
        match self.stops {
            None => {}
            Some((0, stop)) => {
                self.stops = None;
                self.has_stopped = true;
                return match stop {
                    Stop::Fails => Err(io::Error::from(io::ErrorKind::Interrupted)),
                    Stop::TakesNothing => Ok(0),
                };
            }
            Some((left, stop)) => {
                n = n.min(left);
                self.stops = Some((left - n, stop));
            }
        }
        self.held.extend_from_slice(&buf[..n])?;
        Ok(n)
    }

    fn flush(&mut self) -> io::Result<()> {
        Ok(())
    }
}
