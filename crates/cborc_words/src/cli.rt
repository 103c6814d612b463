//! The grammar of the command line: subcommands, options, and the help texts.

ghost use Rattle.std.specs.Prelude.{◌≡◌, true, IfOk};
ghost use Rattle.clap.specs.Words.{app_of, is_simple, is_simple_and_free};
ghost use Rattle.cborc_words.specs.Cli as grammar;
ghost use Rattle.cborc_words.specs.Cli.{IsGrammar, Kinds, Orders};
ghost use Rattle.cborc_words.specs.inner.Commands.{with_rules, HasRule, HasShape};

use cbor_head::MAX_DEPTH;
use clap::builder::ValueParser;
use clap::{Arg, ArgAction, Command};
use std::alloc::{AllocError, Global};

/// What `--version` prints after the program's name.
const VERSION: &str = "\
2.0.0
Orders of keys: bytewise (RFC 8949, section 4.2.1), length (section 4.2.3)
Kinds of keys: any, basic (integers and texts)
Limits: depth 0 to 1024, bytes 0 to 4611686018427387904
Written for rattle-kit-13. If its prover made this build, each function is proved to be safe, to
return, and to meet its contract. Ask whoever built this file (docs/TRUST.md)";

/// The text after the program's help.
const BELOW_HELP: &str = "\
An item is accepted if it is well-formed and valid CBOR (RFC 8949), in any encoding, and has no
floating-point number. So it consists of integers, byte and text strings, arrays, maps without equal
keys, tags and simple values. As FILE, IN, A or B, - is standard input; as OUT it is standard output.
Without FILE, standard input is read.

Exit status: 0 accepted or same, 1 refused or different, 2 a wrong command line, 3 an error of a file,
its hex text, the output or memory.

Examples:
  cborc show message.cbor
  cborc events --annotate --hex message.hex
  cborc check --strict --explain message.cbor
  cborc canon message.cbor canonical.cbor && sha256sum canonical.cbor
  cborc show --seq records.cbor
  cborc compare old.cbor new.cbor";

/// The program's command line. It is simple enough for clap's model, and no argument has a rule
/// about another.
pub fn command<'a>(alloc: Global) -> Result<Command<'a>, AllocError>
    ensures grammar { IfOk result (λ command. IsGrammar (app_of command)) }
    ensures simple { IfOk result (λ command. is_simple (app_of command) ≡ true) }
    ensures free { IfOk result (λ command. is_simple_and_free (app_of command) ≡ true) }
{
    Command::new(alloc, "cborc")
        .about("Reads and writes deterministic CBOR (RFC 8949, section 4.2)")
        .version("2.0.0")
        .long_version(VERSION)
        .after_help(BELOW_HELP)
        .subcommand_required(true)
        .subcommand(show(alloc)?)?
        .subcommand(events(alloc)?)?
        .subcommand(check(alloc)?)?
        .subcommand(canon(alloc)?)?
        .subcommand(compare(alloc)?)
}

fn check<'a>(alloc: Global) -> Result<Command<'a>, AllocError>
    ensures { IfOk result (λ command. (orders : Orders) × (kinds : Kinds) × HasShape (grammar.check orders kinds) command) }
{
    let command = Command::new(alloc, "check")
        .about("Checks that each FILE is one valid item, or a sequence of them")
        .arg(inputs(alloc, "FILE", "The files to read, or - for standard input"))?
        .arg(flag(alloc, "strict", "Accept only canonical bytes"))?
        .arg(sequence(alloc))?
        .arg(order(alloc, "The order of map keys, with --strict"))?;
    with_options(alloc, command)
}

fn canon<'a>(alloc: Global) -> Result<Command<'a>, AllocError>
    ensures { IfOk result (λ command. (orders : Orders) × (kinds : Kinds) × HasShape (grammar.canon orders kinds) command) }
{
    let command = Command::new(alloc, "canon")
        .about(
            "Writes the canonical bytes of the item in IN, or of each item of a sequence, to OUT",
        )
        .arg(file(alloc, "IN", "The file to read, or - for standard input"))?
        .arg(file(alloc, "OUT", "The file to write, or - for standard output"))?
        .arg(flag(
            alloc,
            "hex-out",
            "Write hex digits, two for each byte, and a line feed",
        ))?
        .arg(sequence(alloc))?
        .arg(order(alloc, "The order of map keys"))?;
    with_options(alloc, command)
}

fn show<'a>(alloc: Global) -> Result<Command<'a>, AllocError>
    ensures { IfOk result (λ command. (kinds : Kinds) × HasShape (grammar.show kinds) command) }
{
    let command = Command::new(alloc, "show")
        .about("Writes the diagnostic text of the item in FILE, or of each item of a sequence")
        .arg(input(alloc, "FILE", "The file to read, or - for standard input"))?
        .arg(flag(alloc, "indent", "Write one member or pair per line"))?
        .arg(sequence(alloc))?;
    with_options(alloc, command)
}

fn events<'a>(alloc: Global) -> Result<Command<'a>, AllocError>
    ensures { IfOk result (λ command. (kinds : Kinds) × HasShape (grammar.events kinds) command) }
{
    let command = Command::new(alloc, "events")
        .about("Writes a line for each event of the item in FILE, or of each item of a sequence")
        .arg(input(alloc, "FILE", "The file to read, or - for standard input"))?
        .arg(flag(
            alloc,
            "annotate",
            "Write the bytes of each event in hex, and what they mean",
        ))?
        .arg(sequence(alloc))?;
    with_options(alloc, command)
}

fn compare<'a>(alloc: Global) -> Result<Command<'a>, AllocError>
    ensures { IfOk result (λ command. (kinds : Kinds) × HasShape (grammar.compare kinds) command) }
{
    let command = Command::new(alloc, "compare")
        .about("Reports whether the items in A and B have the same value")
        .arg(file(
            alloc,
            "A",
            "The first file to read, or - for standard input",
        ))?
        .arg(file(
            alloc,
            "B",
            "The second file to read, or - for standard input",
        ))?;
    with_options(alloc, command)
}

fn file<'a>(alloc: Global, name: &'a str, help: &'a str) -> Arg<'a>
    ensures { HasRule (grammar.file name.entry.now) result }
{
    Arg::new(alloc, name)
        .action(ArgAction::Set)
        .required(true)
        .help(help)
}

// An argument with the default `-`, which is standard input.
fn input<'a>(alloc: Global, name: &'a str, help: &'a str) -> Arg<'a>
    ensures { HasRule (grammar.input name.entry.now) result }
{
    Arg::new(alloc, name)
        .action(ArgAction::Set)
        .default_value("-")
        .help(help)
}

// The same, with one value or more.
fn inputs<'a>(alloc: Global, name: &'a str, help: &'a str) -> Arg<'a>
    ensures { HasRule (grammar.inputs name.entry.now) result }
{
    input(alloc, name, help).action(ArgAction::Append)
}

fn flag<'a>(alloc: Global, name: &'a str, help: &'a str) -> Arg<'a>
    ensures { HasRule (grammar.flag name.entry.now) result }
{
    Arg::new(alloc, name)
        .long(name)
        .action(ArgAction::SetTrue)
        .help(help)
}

fn sequence<'a>(alloc: Global) -> Arg<'a>
    ensures { HasRule grammar.sequence result }
{
    flag(
        alloc,
        "seq",
        "Read a sequence of items; the limits apply to each",
    )
}

fn order<'a>(alloc: Global, help: &'a str) -> Arg<'a>
    ensures { (orders : Orders) × HasRule (grammar.order orders) result }
{
    Arg::new(alloc, "order")
        .long("order")
        .value_name("order")
        .action(ArgAction::Set)
        .value_parser(["bytewise", "length", "length-first"].as_slice())
        .default_value("bytewise")
        .help(help)
}

// The options of all subcommands.
fn with_options<'a>(alloc: Global, command: Command<'a>) -> Result<Command<'a>, AllocError>
    ensures { IfOk result (λ r. (kinds : Kinds) × (app_of r ≡ with_rules (app_of command.entry) (grammar.options kinds))) }
{
    let hex = "Read hex digits, two for each byte; white space is ignored";
    let quiet = "Print no messages; the exit status reports the result";
    let explain = "After a refusal or an error, explain what it means and where it is";
    command
        .arg(depth(alloc))?
        .arg(bytes(alloc))?
        .arg(keys(alloc))?
        .arg(flag(alloc, "hex", hex))?
        .arg(flag(alloc, "quiet", quiet))?
        .arg(flag(alloc, "explain", explain))
}

fn depth<'a>(alloc: Global) -> Arg<'a>
    ensures { HasRule grammar.depth result }
{
    Arg::new(alloc, "depth")
        .long("depth")
        .value_name("count")
        .action(ArgAction::Set)
        .value_parser(clap::value_parser!(u16).range(0..=i64::from(MAX_DEPTH)))
        .default_value("256")
        .help("How deep arrays, maps and tags may nest, 0 to 1024")
}

fn bytes<'a>(alloc: Global) -> Arg<'a>
    ensures { HasRule grammar.bytes result }
{
    Arg::new(alloc, "bytes")
        .long("bytes")
        .value_name("count")
        .action(ArgAction::Set)
        .value_parser(ValueParser::string())
        .default_value("1048576")
        .help(
            "How many bytes an item may have, 0 to 4611686018427387904; K, M or G may follow, for 1024, 1024^2 or 1024^3",
        )
}

fn keys<'a>(alloc: Global) -> Arg<'a>
    ensures { (kinds : Kinds) × HasRule (grammar.keys kinds) result }
{
    Arg::new(alloc, "keys")
        .long("keys")
        .value_name("kinds")
        .action(ArgAction::Set)
        .value_parser(["any", "basic"].as_slice())
        .default_value("any")
        .help("Which keys maps may have: any, or basic (only integers and texts)")
}
