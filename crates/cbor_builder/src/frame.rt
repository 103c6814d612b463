//! What is open in a builder.

ghost use Rattle.std.specs.Prelude.{◌≡◌};
ghost use Rattle.cbor_builder.specs.inner.Laid.{outermost};
ghost use Rattle.cbor_builder.specs.inner.Repeats.{first_of, maps_of};

use crate::span::Span;
use cbor_head::Major;

/// The kind of an open part, and how far it has come.
#[derive(Clone, Copy)]
pub(crate) enum Shape {
    /// The item itself, or a tag's content after the tag's head.
    Plain,
    /// An array with this number of members so far.
    Array(u64),
    /// A map whose pairs are the spans from this index on.
    Map(usize),
    /// A map whose pairs are the spans from the first index on, with a key that waits for its value. The
    /// key begins at the second offset, after all pairs.
    Key(usize, usize),
    /// A string.
    Content(Major),
}

/// An open part of the buffer: space for a head from `from` on, content from `start` on.
#[derive(Clone, Copy)]
pub(crate) struct Frame {
    pub(crate) from: usize,
    pub(crate) start: usize,
    pub(crate) shape: Shape,
    /// For a map, whether the keys of its pairs rise so far.
    pub(crate) rises: bool,
}

impl Frame {
    /// The frame of the item itself, before any part of it was given.
    pub(crate) fn outermost() -> Frame
        ensures { result ≡ outermost }
    {
        Frame {
            from: 0,
            start: 0,
            shape: Shape::Plain,
            rises: true,
        }
    }

    // The index of the first span of its pairs.
    pub(crate) fn first_span(&self, spans: &[Span]) -> usize
        ensures { result ≡ first_of spans.now self.now.shape }
    {
        match self.shape {
            Shape::Map(first) | Shape::Key(first, ..) => first,
            _ => spans.len(),
        }
    }

    // 1 for a map, 0 for anything else.
    pub(crate) fn maps(&self) -> usize
        ensures { result ≡ maps_of self.now.shape }
    {
        match self.shape {
            Shape::Map(_) | Shape::Key(..) => 1,
            _ => 0,
        }
    }
}
