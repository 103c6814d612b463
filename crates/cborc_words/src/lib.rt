//! The command line of the program `cborc`: its grammar, and what it requests.
//!
//! The program calls [`parse`], which returns a [`Task`]; `cborc_commands` performs it. `clap` parses the arguments. The
//! contracts say which task they request, and which usage errors refuse them.
#![tactic(auto)]

mod arguments;
mod byte_counts;
mod cli;
mod command_line;
mod request;

pub use command_line::parse;
pub use request::{
    Accepted, Action, EventStyle, Form, Options, Output, Request, Task, TextStyle, Verbosity,
};
