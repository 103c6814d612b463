//! The strict check: accepts only the deterministic encoding (RFC 8949, section 4.2), from a slice, a reader, or event by event.
//!
//! Users call it through `cbor_reader`. [`check_canonical`] checks the item at the start of a slice and does not allocate;
//! [`read_strict`] reads one item from a reader, and [`StrictReader`] gives its events. These two allocate only for the last key
//! of each open map. [`read_strict_in`] is `read_strict` with a record of whether a request for memory was refused.
//!
//! ```
//! // {"Amt": -2, "Fun": true}
//! let canonical = b"\xa2\x63Amt\x21\x63Fun\xf5";
//! assert_eq!(rt; check_canonical(canonical, limits, KeyOrder::Bytewise), Ok(11));
//! // the key "Amt" does not rise: its offset, and the bytes up to its end
//! let turned = b"\xa2\x63Fun\xf5\x63Amt\x21";
//! let refusal = Refusal::new(Reason::KeyOrder, 6, 10);
//! assert_eq!(rt; check_canonical(turned, limits, KeyOrder::Bytewise), Err(refusal));
//! ```
#![tactic(auto)]

mod head_faults;
mod last_keys;
mod next_event;
mod open_items;
mod strict_events;
mod strict_reader;
mod strict_slice;

// The greatest number of open containers.
const MOST_OPEN: usize = cbor_head::MAX_DEPTH as usize;

pub use cbor_head::KeyOrder;
pub use last_keys::LastKeys;
pub use open_items::OpenItems;
pub use strict_events::StrictEvents;
pub use strict_reader::{StrictReader, read_strict, read_strict_by, read_strict_in};
pub use strict_slice::check_canonical;
