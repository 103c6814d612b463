//! The containers that are open after some events of an item.

ghost use Rattle.std.specs.Prelude.{◌≡◌, ◌≤◌, length};

use crate::item_path::Step;
use cbor_head::{Event, EventKind};
use std::alloc::{AllocError, Global};

// A container that is open.
#[derive(Clone, Copy, Debug)]
pub(crate) struct PathFrame {
    kind: Kind,
    // The offset of its head.
    place: u64,
    // How many items have begun in it; in a map, keys and values.
    begun: u64,
    // In a map, the offset of the last key.
    key: u64,
}

#[derive(Clone, Copy, Debug)]
enum Kind {
    Array,
    Map,
    Tag(u64),
}

impl PathFrame {
    // The step from the container to the last item that began in it.
    pub(crate) fn step(&self) -> Option<Step> {
        if self.begun == 0 {
            return None;
        }
        Some(match self.kind {
            Kind::Array => Step::Member(self.begun - 1),
            Kind::Tag(number) => Step::Content(number),
            Kind::Map if self.begun % 2 == 0 => Step::Value { key: self.key },
            Kind::Map => Step::Key {
                number: self.begun / 2 + 1,
                map: self.place,
            },
        })
    }
}

// The open containers, from the outermost in, and what is left of an open string.
#[derive(Drop)]
pub(crate) struct Frames {
    open: Vec<PathFrame>,
    // The bytes that are left of a payload.
    payload: u64,
    // Whether more chunks may follow.
    chunked: bool,
}

impl Frames {
    pub(crate) fn new(alloc: Global) -> Frames {
        Frames {
            open: Vec::new(alloc),
            payload: 0,
            chunked: false,
        }
    }

    // The containers, from the outermost in.
    pub(crate) fn open(&self) -> &[PathFrame]
        ensures { result.now ≡ self.now.open.items }
    {
        self.open.as_slice()
    }

    // Keeps only the outermost `count` containers open.
    pub(crate) fn leave(&mut self, count: usize)
        ensures { length self.new.open.items ≤ count }
    {
        self.open.truncate(count);
    }

    // Whether a string has bytes or chunks left.
    pub(crate) fn is_in_string(&self) -> bool {
        self.payload > 0 || self.chunked
    }

    // Begins an item in the innermost container.
    pub(crate) fn begin(&mut self, place: u64)
        ensures { length self.new.open.items ≤ length self.old.open.items }
    {
        if let Some(frame) = self.open.last_mut() {
            if frame.begun % 2 == 0 {
                frame.key = place;
            }
            frame.begun = frame.begun.saturating_add(1);
        }
    }

    // Follows an event: an item begins, and may open a container or a string.
    pub(crate) fn enter(&mut self, event: &Event) -> Result<(), AllocError> {
        match event.kind {
            EventKind::Piece(count) => {
                self.payload = self.payload.saturating_sub(count as u64);
                return Ok(());
            }
            EventKind::Chunk(count) => {
                self.payload = count;
                return Ok(());
            }
            EventKind::End => {
                self.chunked = false;
                return Ok(());
            }
            _ => self.begin(event.place),
        }
        match event.kind {
            EventKind::Bytes(count) | EventKind::Text(count) => {
                self.payload = count.unwrap_or(0);
                self.chunked = count.is_none();
                Ok(())
            }
            EventKind::Array(_) => self.push(Kind::Array, event.place),
            EventKind::Map(_) => self.push(Kind::Map, event.place),
            EventKind::Tag(number) => self.push(Kind::Tag(number), event.place),
            _ => Ok(()),
        }
    }

    fn push(&mut self, kind: Kind, place: u64) -> Result<(), AllocError> {
        self.open.push(PathFrame {
            kind,
            place,
            begun: 0,
            key: 0,
        })?;
        Ok(())
    }
}
