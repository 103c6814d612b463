//! The slice parser, in one loop without recursion: it accepts canonical bytes, or any valid item,
//! whose parts it gives to a sink.
//!
//! `cbor_strict` and `cbor_reader` call [`canonical_prefix`], which stops at the first byte, head,
//! text or key that is not canonical. `cbor_reader` and `cbor_diag` call [`Parser::parse_item`],
//! which gives a [`Sink`], for example a `CanonBuilder`, the parts of any valid item. Both report
//! the exact refusal. The loop is compiled for each set of rules. The open containers are on a
//! stack that grows from 16 to 1,024 entries, so that a shallow item does not pay for the greatest
//! depth.
#![tactic(auto)]

mod canonical;
mod canonical_sink;
mod chunk_refusal;
mod container;
mod content;
mod fast_item;
mod indefinite;
mod item_rules;
mod item_start;
mod kinds;
mod last_key;
mod limit;
mod open_container;
mod parse;
mod parser;
mod part;
mod repeated_key;
mod sink;
mod skip;
mod stack;
mod strict_rules;
mod walk;

pub use canonical::canonical_prefix;
pub use canonical_sink::string_type;
pub use parser::Parser;
pub use sink::Sink;
