//! The task that parsed arguments make.

ghost use Rattle.std.specs.Prelude.{◌≡◌, [], codes, false, map, unwrap_or, IfOk, IfSome, IsSome, IsSomeAnd};
ghost use Rattle.clap.specs.Words.{all_of, first_of, found_of, rows_of, subcommand_rows_of};
ghost use Rattle.cborc_words.specs.CommandLine.{files_given, keys_named, order_named, AsksFor, HasLimits, IsAcceptedOf, IsComplete, IsEventStyleOf, IsTextStyleOf, IsVerbosityOf, IsOptionsOf, IsOutputOf};

use crate::byte_counts::byte_count;
use crate::request::{
    Accepted, Action, EventStyle, Form, Options, Output, Request, Task, TextStyle, Verbosity,
};
use cbor_head::{KeyOrder, Keys, Limits};
use clap::ArgMatches;
use std::alloc::{AllocError, Global};

// The files of `check`, in the order of the command line. There are none for any other subcommand.
pub(crate) fn files_given<'a>(
    alloc: Global,
    matches: &ArgMatches<'a>,
) -> Result<Vec<&'a str>, AllocError>
    ensures { IfOk result (λ files. IfSome (subcommand_rows_of matches.now)
        (λ given. map (λ file. file.now) files.items ≡ files_given given)) }
{
    match matches.subcommand() {
        Some(("check", given)) => values_of_file(alloc, given),
        _ => Ok(Vec::new(alloc)),
    }
}

#[tactic(auto, using(crate::proofs::Rows::getters))]
fn values_of_file<'a>(alloc: Global, given: &ArgMatches<'a>) -> Result<Vec<&'a str>, AllocError>
    ensures { IfOk result (λ files. map (λ file. file.now) files.items
        ≡ unwrap_or (all_of (codes "FILE") (rows_of (found_of given.now))) []) }
{
    match given.get_raw("FILE") {
        Some(files) => Vec::from_slice(alloc, files),
        None => Ok(Vec::new(alloc)),
    }
}

// The task that the arguments make, with these files.
pub(crate) fn task_of<'a>(matches: &ArgMatches<'a>, files: Vec<&'a str>) -> Option<Task<'a>>
    ensures value { IfSome result (λ task. IsSomeAnd (subcommand_rows_of matches.now)
        (λ given. AsksFor given task.request × IsVerbosityOf given.1 task.verbosity)) }
    ensures files { IfSome result (λ task. task.files ≡ files.entry) }
    ensures some { IfSome (subcommand_rows_of matches.now)
        (λ given. IsComplete given → IsSome result) }
{
    let verbosity = verbosity_asked(matches)?;
    match request_of(matches) {
        Some(request) => Some(Task {
            request,
            files,
            verbosity,
        }),
        None => None,
    }
}

fn verbosity_asked(matches: &ArgMatches<'_>) -> Option<Verbosity>
    ensures value { IfSome result (λ verbosity. IsSomeAnd (subcommand_rows_of matches.now)
        (λ given. IsVerbosityOf given.1 verbosity)) }
    ensures some { IsSome (subcommand_rows_of matches.now) → IsSome result }
{
    let (_, given) = matches.subcommand()?;
    Some(verbosity_of(given))
}

#[tactic(auto, using(crate::proofs::Rows::getters))]
fn verbosity_of(given: &ArgMatches<'_>) -> Verbosity
    ensures { IsVerbosityOf (rows_of (found_of given.now)) result }
{
    if given.get_flag("quiet") {
        Verbosity::Quiet
    } else if given.get_flag("explain") {
        Verbosity::Explained
    } else {
        Verbosity::Plain
    }
}

fn request_of<'a>(matches: &ArgMatches<'a>) -> Option<Request<'a>>
    ensures value { IfSome result
        (λ r. IfSome (subcommand_rows_of matches.now) (λ given. AsksFor given r)) }
    ensures some { IfSome (subcommand_rows_of matches.now)
        (λ given. IsComplete given → IsSome result) }
{
    match matches.subcommand()? {
        ("check", given) => check_of(given),
        ("canon", given) => canon_of(given),
        ("compare", given) => compare_of(given),
        ("show", given) => show_of(given),
        ("events", given) => events_of(given),
        _ => None,
    }
}

#[tactic(auto, using(crate::proofs::Rows::getters))]
fn check_of<'a>(given: &ArgMatches<'a>) -> Option<Request<'a>>
    ensures value { IfSome result (AsksFor (codes "check", rows_of (found_of given.now))) }
    ensures some { IsComplete (codes "check", rows_of (found_of given.now)) → IsSome result }
{
    let source = given.get_str("FILE")?;
    let accepted = accepted_of(given)?;
    let options = options_of(given)?;
    Some(Request {
        action: Action::Check(accepted),
        source,
        sequence: given.get_flag("seq"),
        options,
    })
}

#[tactic(auto, using(crate::proofs::Rows::getters))]
fn canon_of<'a>(given: &ArgMatches<'a>) -> Option<Request<'a>>
    ensures value { IfSome result (AsksFor (codes "canon", rows_of (found_of given.now))) }
    ensures some { IsComplete (codes "canon", rows_of (found_of given.now)) → IsSome result }
{
    let source = given.get_str("IN")?;
    let output = output_of(given)?;
    let order = order_of(given.get_str("order")?)?;
    let options = options_of(given)?;
    Some(Request {
        action: Action::Canon { output, order },
        source,
        sequence: given.get_flag("seq"),
        options,
    })
}

#[tactic(auto, using(crate::proofs::Rows::getters))]
fn output_of<'a>(given: &ArgMatches<'a>) -> Option<Output<'a>>
    ensures value { IfSome result (IsOutputOf (rows_of (found_of given.now))) }
    ensures some { IsSome (first_of (codes "OUT") (rows_of (found_of given.now))) → IsSome result }
{
    let path = given.get_str("OUT")?;
    let form = if given.get_flag("hex-out") {
        Form::Hex
    } else {
        Form::Raw
    };
    Some(Output { path, form })
}

#[tactic(auto, using(crate::proofs::Rows::getters))]
fn show_of<'a>(given: &ArgMatches<'a>) -> Option<Request<'a>>
    ensures value { IfSome result (AsksFor (codes "show", rows_of (found_of given.now))) }
    ensures some { IsComplete (codes "show", rows_of (found_of given.now)) → IsSome result }
{
    let source = given.get_str("FILE")?;
    let options = options_of(given)?;
    Some(Request {
        action: Action::Show(text_style_of(given)),
        source,
        sequence: given.get_flag("seq"),
        options,
    })
}

#[tactic(auto, using(crate::proofs::Rows::getters))]
fn text_style_of(given: &ArgMatches<'_>) -> TextStyle
    ensures { IsTextStyleOf (rows_of (found_of given.now)) result }
{
    if given.get_flag("indent") {
        TextStyle::Indented
    } else {
        TextStyle::OneLine
    }
}

#[tactic(auto, using(crate::proofs::Rows::getters))]
fn events_of<'a>(given: &ArgMatches<'a>) -> Option<Request<'a>>
    ensures value { IfSome result (AsksFor (codes "events", rows_of (found_of given.now))) }
    ensures some { IsComplete (codes "events", rows_of (found_of given.now)) → IsSome result }
{
    let source = given.get_str("FILE")?;
    let options = options_of(given)?;
    Some(Request {
        action: Action::Events(event_style_of(given)),
        source,
        sequence: given.get_flag("seq"),
        options,
    })
}

#[tactic(auto, using(crate::proofs::Rows::getters))]
fn event_style_of(given: &ArgMatches<'_>) -> EventStyle
    ensures { IsEventStyleOf (rows_of (found_of given.now)) result }
{
    if given.get_flag("annotate") {
        EventStyle::Annotated
    } else {
        EventStyle::Listed
    }
}

#[tactic(auto, using(crate::proofs::Rows::getters))]
fn compare_of<'a>(given: &ArgMatches<'a>) -> Option<Request<'a>>
    ensures value { IfSome result (AsksFor (codes "compare", rows_of (found_of given.now))) }
    ensures some { IsComplete (codes "compare", rows_of (found_of given.now)) → IsSome result }
{
    let source = given.get_str("A")?;
    let right = given.get_str("B")?;
    let options = options_of(given)?;
    Some(Request {
        action: Action::Compare { right },
        source,
        sequence: false,
        options,
    })
}

#[tactic(auto, using(crate::proofs::Rows::getters))]
fn accepted_of(given: &ArgMatches<'_>) -> Option<Accepted>
    ensures { IsAcceptedOf (rows_of (found_of given.now)) result }
{
    let order = order_of(given.get_str("order")?)?;
    if given.get_flag("strict") {
        Some(Accepted::Canonical(order))
    } else {
        Some(Accepted::Valid)
    }
}

// The order of keys that a word names.
fn order_of(word: &str) -> Option<KeyOrder>
    ensures { result ≡ order_named word.now }
{
    match word {
        "bytewise" => Some(KeyOrder::Bytewise),
        "length" | "length-first" => Some(KeyOrder::LengthFirst),
        _ => None,
    }
}

#[tactic(auto, using(crate::proofs::Rows::getters))]
fn options_of(given: &ArgMatches<'_>) -> Option<Options>
    ensures value { IfSome result (IsOptionsOf (rows_of (found_of given.now))) }
    ensures some { HasLimits (rows_of (found_of given.now)) → IsSome result }
{
    let depth = given.get_one::<u16>("depth")?;
    let bytes = byte_count(given.get_str("bytes")?)?;
    let keys = keys_of(given.get_str("keys")?)?;
    Some(Options {
        limits: Limits::new(depth, bytes)?.with_keys(keys),
        hex: given.get_flag("hex"),
    })
}

// The kinds of keys that a word names.
fn keys_of(word: &str) -> Option<Keys>
    ensures { result ≡ keys_named word.now }
{
    match word {
        "any" => Some(Keys::Any),
        "basic" => Some(Keys::IntegersAndTexts),
        _ => None,
    }
}
