//! The program `cborc` as a library: a run over any folder and any two outputs.
//!
//! `main` of `cborc` calls [`run`] with the files of the disk, and [`fault_of_words`] if the arguments cannot be read. The tests
//! call them with folders in memory. [`Watched`] tells `main` whether the reader of standard output closed it.
#![tactic(auto)]

mod labelled;
mod no_text;
mod program;
mod several_files;
mod watched;

pub use no_text::fault_of_words;
pub use program::run;
pub use watched::Watched;
