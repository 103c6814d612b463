//! `cborc`, a program for deterministic CBOR files: see [`run`](cborc_program::run).
//!
//! ```text
//! $ printf bf6346756ef563416d7421ff | cborc canon --hex --hex-out - -
//! a263416d74216346756ef5
//! $ printf a201000000 | cborc check --strict --hex -
//! refused 16 KeyOrder at 3
//! ```
#![tactic(auto)]

use cborc_commands::{Fault, end};
use cborc_files::Disk;
use cborc_program::{Watched, fault_of_words, run};
use std::io::{BufWriter, Write};
use std::process::ExitCode;
use std::{env, io};

fn main(rt: HostRuntime) -> ExitCode {
    let status = match words(&rt) {
        Ok(words) => run_over_streams(&rt, words),
        Err(error) => end(
            Err(fault_of_words(rt.alloc(), &rt, &error)),
            &mut rt.stderr(),
        ),
    };
    ExitCode::from(status)
}

// Runs the program over the disk and the standard streams. If the reader of standard output closed it, as
// in `cborc .. | head -1`, nothing is written to standard error.
fn run_over_streams(rt: &HostRuntime, words: Vec<String>) -> u8 {
    let (Ok(mut out), Ok(mut err)) = (
        BufWriter::new(rt.alloc(), Watched::new(rt.stdout())),
        BufWriter::new(rt.alloc(), rt.stderr()),
    ) else {
        return end(Err(Fault::Memory), &mut rt.stderr());
    };
    let status = run(rt.alloc(), words, &mut Disk::new(rt), &mut out, &mut err);
    let (out, _) = out.into_parts();
    if out.is_closed() {
        let _ = err.into_parts();
    } else {
        let _ = err.flush();
    }
    status
}

// The arguments of the command line, of which the first is the program's name.
fn words(rt: &HostRuntime) -> io::Result<Vec<String>> {
    Ok(env::args(rt)?.collect(rt.alloc())?)
}
