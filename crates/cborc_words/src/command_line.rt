//! Parses the arguments of the command line.

ghost use Rattle.std.specs.Prelude.{◌≡◌, ◌≢◌, false, true, IfErr, IfOk, IfSome, IsSomeAnd};
ghost use Rattle.std.specs.List.{count_by};
ghost use Rattle.clap.specs.Words.{found_of, kind_of, rows_of, subcommand_rows_of};
ghost use Rattle.cborc_files.specs.Folder.{is_stream};
ghost use Rattle.cborc_words.specs.CommandLine.{files_given, HasNoByteCount, HasOneVerbosity, HasTwoVerbosities, reads_stream_twice};
ghost use Rattle.cborc_words.specs.Words.{asks_help_of_help, parsed_words as words_parsed, texts_of, AskFor, HasFault};

use crate::arguments::{files_given, task_of};
use crate::byte_counts::byte_count;
use crate::cli::command;
use crate::request::{Action, Task};
use cborc_files::is_stream;
use clap::error::ErrorKind;
use clap::{ArgMatches, Error};
use std::alloc::Global;

/// Parses the arguments, of which the first is the program's name. The error is a usage error, a
/// request for help, or out of memory; its kind says which.
pub fn parse<'a>(alloc: Global, words: &'a [String]) -> Result<Task<'a>, Error>
    ensures ok { IfOk result (AskFor (words_parsed (texts_of words.now))) }
    ensures err { IfErr result (λ error. kind_of error ≢ ErrorKind.OutOfMemory
        → HasFault (words_parsed (texts_of words.now)) (kind_of error)) }
{
    let mut command = command(alloc)?;
    let matches = command.try_get_matches_from_mut(parsed_words(words))?;
    if has_no_byte_count(&matches) {
        let word = bytes_given(&matches);
        let message = format!(in alloc; "invalid value '{word}' for '--bytes <count>': {BYTES}")?;
        return Err(command.error(ErrorKind::ValueValidation, message.as_str())?);
    }
    let files = files_given(alloc, &matches)?;
    let Some(task) = task_of(&matches, files) else {
        // Unreachable: clap has checked that each argument exists and is in range. The types do not say so.
        return Err(command.error(ErrorKind::MissingSubcommand, "an argument is missing")?);
    };
    if has_two_verbosities(&matches) {
        let message = "the argument '--quiet' cannot be used with '--explain'";
        return Err(command.error(ErrorKind::ArgumentConflict, message)?);
    }
    if reads_stream_twice(&task) {
        let message = "standard input is read once: '-' cannot be given twice";
        return Err(command.error(ErrorKind::ArgumentConflict, message)?);
    }
    Ok(task)
}

// Describes a value of `--bytes`.
const BYTES: &str =
    "expected a number from 0 to 4611686018427387904, with K, M or G after it or no unit";

// The arguments that clap parses. It has no help for `help`, so `help --help` and `help -h` are
// parsed as `help`.
fn parsed_words(words: &[String]) -> &[String]
    ensures { texts_of result.now ≡ words_parsed (texts_of words.now) }
{
    match words {
        [_, subcommand, flag] if asks_help_of_help(subcommand, flag) => &words[..2],
        _ => words,
    }
}

fn asks_help_of_help(subcommand: &str, flag: &str) -> bool
    ensures { result ≡ asks_help_of_help subcommand.now flag.now }
{
    subcommand == "help" && (flag == "--help" || flag == "-h")
}

// Whether the task would read standard input for two files.
fn reads_stream_twice(task: &Task<'_>) -> bool
    ensures { result ≡ reads_stream_twice task.now }
{
    match &task.request.action {
        Action::Compare { right } => is_stream(task.request.source) && is_stream(right),
        _ => streams_among(task.files.as_slice()) > 1,
    }
}

// How many of the files are standard input.
fn streams_among(files: &[&str]) -> usize
    ensures { result ≡ count_by (λ file. is_stream file.now) files.now }
{
    let mut count = 0;
    'files: for file in files {
        if is_stream(file) {
            count += 1;
        }
    }
    count
}

// Whether the value of `--bytes` is not a number of bytes.
fn has_no_byte_count(matches: &ArgMatches<'_>) -> bool
    ensures yes { result ≡ true → IsSomeAnd (subcommand_rows_of matches.now)
        (λ given. HasNoByteCount given.1) }
    ensures no { result ≡ false → IfSome (subcommand_rows_of matches.now)
        (λ given. ¬ HasNoByteCount given.1) }
{
    match matches.subcommand() {
        Some((_, given)) => is_no_byte_count(given),
        None => false,
    }
}

#[tactic(auto, using(crate::proofs::Rows::getters))]
fn is_no_byte_count(given: &ArgMatches<'_>) -> bool
    ensures yes { result ≡ true → HasNoByteCount (rows_of (found_of given.now)) }
    ensures no { result ≡ false → ¬ HasNoByteCount (rows_of (found_of given.now)) }
{
    let Some(word) = given.get_str("bytes") else {
        return false;
    };
    match byte_count(word) {
        Some(_) => false,
        None => true,
    }
}

// The value of `--bytes`.
fn bytes_given<'a>(matches: &ArgMatches<'a>) -> &'a str {
    match matches.subcommand() {
        Some((_, given)) => given.get_str("bytes").unwrap_or(""),
        None => "",
    }
}

// Whether both `--quiet` and `--explain` are given.
fn has_two_verbosities(matches: &ArgMatches<'_>) -> bool
    ensures yes { result ≡ true → IsSomeAnd (subcommand_rows_of matches.now)
        (λ given. HasTwoVerbosities given.1) }
    ensures no { result ≡ false → IfSome (subcommand_rows_of matches.now)
        (λ given. HasOneVerbosity given.1) }
{
    match matches.subcommand() {
        Some((_, given)) => are_two_verbosities(given),
        None => false,
    }
}

#[tactic(auto, using(crate::proofs::Rows::getters))]
fn are_two_verbosities(given: &ArgMatches<'_>) -> bool
    ensures yes { result ≡ true → HasTwoVerbosities (rows_of (found_of given.now)) }
    ensures no { result ≡ false → HasOneVerbosity (rows_of (found_of given.now)) }
{
    given.get_flag("quiet") && given.get_flag("explain")
}
