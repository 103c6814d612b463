//! The path to an offset in an item, from its events.

ghost use Rattle.std.specs.Prelude.{◌≤◌, length, IfOk};

use crate::frames::Frames;
use cbor_events::EventReader;
use cbor_head::{Limits, Refusal};
use std::alloc::{AllocError, Global};

/// A step of a path: from a container to what is in it.
#[derive(Clone, Copy, Debug, PartialEq, Eq)]
pub enum Step {
    /// A member of an array, counted from 0.
    Member(u64),
    /// A key of a map.
    Key {
        /// The number of the key, from 1.
        number: u64,
        /// The offset of the map's head, in bytes.
        map: u64,
    },
    /// The value of a key.
    Value {
        /// The offset of the key, in bytes.
        key: u64,
    },
    /// The content of a tag, with the tag's number.
    Content(u64),
}

/// The path through an item to the offset of a refusal: a step for each container that is open
/// there. The bytes begin with the item, and offsets are counted from its first byte. The path
/// comes from the events before that offset, so only form matters.
pub(crate) fn path_to(
    alloc: Global,
    item: &[u8],
    limits: Limits,
    refusal: Refusal,
) -> Result<Vec<Step>, AllocError>
    ensures { IfOk result (λ way. length way.items ≤ limits.depth) }
{
    let frames = frames_at(alloc, item, limits, refusal.place)?;
    let mut way = Vec::new(alloc);
    for frame in frames.open() {
        if let Some(step) = frame.step() {
            way.push(step)?;
        }
    }
    Ok(way)
}

// The containers that are open at an offset.
fn frames_at(alloc: Global, item: &[u8], limits: Limits, place: u64) -> Result<Frames, AllocError>
    ensures { IfOk result (λ frames. length frames.open.items ≤ limits.depth) }
{
    let mut frames = Frames::new(alloc);
    let mut events = EventReader::new(item, limits);
    let mut open = 0;
    'events: for _ in 0..=item.len() {
        match events.next() {
            Ok(Some(event)) => {
                frames.enter(&event)?;
                if events.taken() > place {
                    break 'events;
                }
                open = events.open();
                frames.leave(open);
            }
            Ok(None) => break 'events,
            Err(_) => {
                if !frames.is_in_string() {
                    frames.begin(place);
                }
                break 'events;
            }
        }
    }
    // What began at the offset is not a step of the path.
    frames.leave(open);
    Ok(frames)
}
