//! The library for C: each export of `include/naltvigo.h`, with the clauses of the call beneath it.
//!
//! Programs in C, and the bindings for other languages, call it. An export returns a status and writes what the status calls
//! for. It keeps nothing between calls but the machines of checkers, and reads and writes only what it is passed.
//!
//! ```text
//! naltvigo_canonicalise_raw of bf 63 46 75 6e f5 63 41 6d 74 21 ff  {"Fun": true, "Amt": -2}
//!     0 OK, needed 11         a2 63 41 6d 74 21 63 46 75 6e f5      {"Amt": -2, "Fun": true}
//! naltvigo_check_canonical_raw of a2 01 00 00 00                    {1: 0, 0: 0}
//!     1 REFUSED, reason 16 KeyOrder, offset 3, consumed 4
//! ```
#![tactic(auto)]

mod buffer;
mod canonicalising;
mod checker;
mod checking;
mod comparing;
mod diagnosing;
mod explaining;
mod heads;
mod indexing;
mod items;
mod naming;
mod reading;
mod sequence;
mod settings;
mod status;
mod streaming;
mod writing;

pub use canonicalising::naltvigo_canonicalise_raw;
pub use checker::{
    naltvigo_checker_end_raw, naltvigo_checker_feed_raw, naltvigo_checker_free_raw,
    naltvigo_checker_new_raw, naltvigo_checker_restart_raw,
};
pub use checking::{naltvigo_check_canonical_raw, naltvigo_check_valid_raw};
pub use comparing::naltvigo_compare_raw;
pub use diagnosing::naltvigo_diagnostic_raw;
pub use explaining::naltvigo_explain_raw;
pub use heads::naltvigo_put_head_raw;
pub use indexing::naltvigo_index_raw;
pub use items::{naltvigo_find_raw, naltvigo_item_at_raw};
pub use naming::{naltvigo_reason_name_raw, naltvigo_version_raw};
pub use reading::{
    naltvigo_get_bool_raw, naltvigo_get_count_raw, naltvigo_get_encoded_raw, naltvigo_get_int_raw,
    naltvigo_get_number_raw, naltvigo_get_string_raw,
};
pub use sequence::{naltvigo_next_canonical_raw, naltvigo_next_valid_raw};
pub use status::NaltvigoRefusal;
pub use streaming::{NaltvigoEvent, naltvigo_machine_feed_raw, naltvigo_machine_start_raw};
pub use writing::{
    naltvigo_writer_encoded_raw, naltvigo_writer_end_raw, naltvigo_writer_head_raw,
    naltvigo_writer_int_raw, naltvigo_writer_open_raw, naltvigo_writer_string_raw,
};
