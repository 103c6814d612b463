//! The subcommands of the program `cborc`, over any folder and any two outputs: check, canon, compare, show and events.
//!
//! The program calls [`perform`], which performs a [`Request`](cborc_words::Request) and returns the exit status. The contract of each subcommand
//! says what it does by what the files hold. [`canon_in_memory`] is `canon` over [`FilesInMemory`](cborc_files::FilesInMemory).
#![tactic(auto)]

mod canon;
mod canon_sequence;
mod check;
mod check_parts;
mod check_sequence;
mod compare;
mod events;
mod events_sequence;
mod explanation;
mod fault;
mod first_item;
mod in_memory;
mod input;
mod input_parts;
mod listing;
mod requests;
mod sequence;
mod show;
mod show_sequence;
mod source;
mod status;
mod texts;

pub use fault::Fault;
pub use in_memory::canon_in_memory;
pub use requests::{end, end_in, flushed, perform};
pub use status::Status;
