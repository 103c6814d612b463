//! Two examples of calls in Rattle: the bytes to sign for a document, and two fields of each record of a sequence.
//!
//! No crate calls it: it shows how the library is called, by functions with contracts of their own.
#![tactic(auto)]

mod fields;
mod signing;

pub use fields::{FieldsError, two_fields};
pub use signing::bytes_to_sign;
