//! What a step of the machine returns.

use cbor_head::{Event, Refusal};

/// The result of a step.
#[derive(Clone, Copy, Debug, PartialEq, Eq)]
pub enum Out {
    /// All of the input was used, and no event is complete.
    More,
    /// An event is complete.
    Event(Event),
    /// The item is complete, and all of its events were reported.
    Done,
    /// The item is refused.
    Refused(Refusal),
}

/// The number of bytes of the input that a step used, and its result.
///
/// Of the input `19 03 e8 00` the first step uses three bytes and reports `Unsigned(1000)`, and the
/// next uses none of `00` and returns `Done`.
#[derive(Clone, Copy, Debug, PartialEq, Eq)]
pub struct Step {
    /// The number of bytes used, from the start of the input.
    pub used: usize,
    /// The result.
    pub out: Out,
}
