//! Checks that bytes are UTF-8 (RFC 3629): the engine of every check of a text string.
//!
//! The parsers call [`check_text`] for a slice and [`is_text_prefix`] for a short text of ASCII; the
//! readers over events call [`TextCheck`], which gets a text in pieces. Each reports the length of
//! the longest prefix that is UTF-8. [`is_hidden`] says which characters a terminal would not show.
#![tactic(auto)]

mod ascii;
mod hidden;
mod text;
mod text_check;

pub use hidden::is_hidden;
pub use text::{check_text, is_text_prefix};
pub use text_check::TextCheck;
