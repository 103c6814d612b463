//! The texts of help and version.

use super::ran;
use std::alloc::AllocError;

const HELP: &str = "\
Reads and writes deterministic CBOR (RFC 8949, section 4.2)

Usage: cborc <COMMAND>

Commands:
  show     Writes the diagnostic text of the item in FILE, or of each item of a sequence
  events   Writes a line for each event of the item in FILE, or of each item of a sequence
  check    Checks that each FILE is one valid item, or a sequence of them
  canon    Writes the canonical bytes of the item in IN, or of each item of a sequence, to OUT
  compare  Reports whether the items in A and B have the same value
  help     Print this message or the help of the given subcommand(s)

Options:
  -h, --help     Print help
  -V, --version  Print version

An item is accepted if it is well-formed and valid CBOR (RFC 8949), in any encoding, and has no
floating-point number. So it consists of integers, byte and text strings, arrays, maps without equal
keys, tags and simple values. As FILE, IN, A or B, - is standard input; as OUT it is standard output.
Without FILE, standard input is read.

Exit status: 0 accepted or same, 1 refused or different, 2 a wrong command line, 3 an error of a file,
its hex text, the output or memory.

Examples:
  cborc show message.cbor
  cborc events --annotate --hex message.hex
  cborc check --strict --explain message.cbor
  cborc canon message.cbor canonical.cbor && sha256sum canonical.cbor
  cborc show --seq records.cbor
  cborc compare old.cbor new.cbor
";

const VERSION: &str = "\
cborc 2.0.0
Orders of keys: bytewise (RFC 8949, section 4.2.1), length (section 4.2.3)
Kinds of keys: any, basic (integers and texts)
Limits: depth 0 to 1024, bytes 0 to 4611686018427387904
Written for rattle-kit-13. If its prover made this build, each function is proved to be safe, to
return, and to meet its contract. Ask whoever built this file (docs/TRUST.md)
";

const HELP_OF_CANON: &str = "\
Writes the canonical bytes of the item in IN, or of each item of a sequence, to OUT

Usage: cborc canon [OPTIONS] <IN> <OUT>

Arguments:
  <IN>   The file to read, or - for standard input
  <OUT>  The file to write, or - for standard output

Options:
      --hex-out        Write hex digits, two for each byte, and a line feed
      --seq            Read a sequence of items; the limits apply to each
      --order <order>  The order of map keys [default: bytewise] [possible values: bytewise, length, length-first]
      --depth <count>  How deep arrays, maps and tags may nest, 0 to 1024 [default: 256]
      --bytes <count>  How many bytes an item may have, 0 to 4611686018427387904; K, M or G may follow, for 1024, 1024^2 or 1024^3 [default: 1048576]
      --keys <kinds>   Which keys maps may have: any, or basic (only integers and texts) [default: any] [possible values: any, basic]
      --hex            Read hex digits, two for each byte; white space is ignored
      --quiet          Print no messages; the exit status reports the result
      --explain        After a refusal or an error, explain what it means and where it is
  -h, --help           Print help
";

const HELP_OF_CHECK: &str = "\
Checks that each FILE is one valid item, or a sequence of them

Usage: cborc check [OPTIONS] [FILE]...

Arguments:
  [FILE]...  The files to read, or - for standard input [default: -]

Options:
      --strict         Accept only canonical bytes
      --seq            Read a sequence of items; the limits apply to each
      --order <order>  The order of map keys, with --strict [default: bytewise] [possible values: bytewise, length, length-first]
      --depth <count>  How deep arrays, maps and tags may nest, 0 to 1024 [default: 256]
      --bytes <count>  How many bytes an item may have, 0 to 4611686018427387904; K, M or G may follow, for 1024, 1024^2 or 1024^3 [default: 1048576]
      --keys <kinds>   Which keys maps may have: any, or basic (only integers and texts) [default: any] [possible values: any, basic]
      --hex            Read hex digits, two for each byte; white space is ignored
      --quiet          Print no messages; the exit status reports the result
      --explain        After a refusal or an error, explain what it means and where it is
  -h, --help           Print help
";

const HELP_OF_EVENTS: &str = "\
Writes a line for each event of the item in FILE, or of each item of a sequence

Usage: cborc events [OPTIONS] [FILE]

Arguments:
  [FILE]  The file to read, or - for standard input [default: -]

Options:
      --annotate       Write the bytes of each event in hex, and what they mean
      --seq            Read a sequence of items; the limits apply to each
      --depth <count>  How deep arrays, maps and tags may nest, 0 to 1024 [default: 256]
      --bytes <count>  How many bytes an item may have, 0 to 4611686018427387904; K, M or G may follow, for 1024, 1024^2 or 1024^3 [default: 1048576]
      --keys <kinds>   Which keys maps may have: any, or basic (only integers and texts) [default: any] [possible values: any, basic]
      --hex            Read hex digits, two for each byte; white space is ignored
      --quiet          Print no messages; the exit status reports the result
      --explain        After a refusal or an error, explain what it means and where it is
  -h, --help           Print help
";

const HELP_OF_COMPARE: &str = "\
Reports whether the items in A and B have the same value

Usage: cborc compare [OPTIONS] <A> <B>

Arguments:
  <A>  The first file to read, or - for standard input
  <B>  The second file to read, or - for standard input

Options:
      --depth <count>  How deep arrays, maps and tags may nest, 0 to 1024 [default: 256]
      --bytes <count>  How many bytes an item may have, 0 to 4611686018427387904; K, M or G may follow, for 1024, 1024^2 or 1024^3 [default: 1048576]
      --keys <kinds>   Which keys maps may have: any, or basic (only integers and texts) [default: any] [possible values: any, basic]
      --hex            Read hex digits, two for each byte; white space is ignored
      --quiet          Print no messages; the exit status reports the result
      --explain        After a refusal or an error, explain what it means and where it is
  -h, --help           Print help
";

// The arguments, and what is on standard output.
static HELPS: [(&str, &str); 17] = [
    ("--version", VERSION),
    ("-V", "cborc 2.0.0\n"),
    ("--help", HELP),
    ("-h", HELP),
    ("help", HELP),
    ("help --help", HELP),
    ("help -h", HELP),
    ("canon --help", HELP_OF_CANON),
    ("canon -h", HELP_OF_CANON),
    ("help canon", HELP_OF_CANON),
    ("canon absent --help", HELP_OF_CANON),
    ("check --help", HELP_OF_CHECK),
    ("help check", HELP_OF_CHECK),
    ("check --strict absent -h", HELP_OF_CHECK),
    ("events --help", HELP_OF_EVENTS),
    ("compare --help", HELP_OF_COMPARE),
    ("help compare", HELP_OF_COMPARE),
];

#[test]
fn helps(rt: HostRuntime) -> Result<(), AllocError> {
    for &(line, wanted) in &HELPS {
        let ran = ran(rt.alloc(), line, "00")?;
        let quiet = ran.err.is_empty() && ran.written.is_empty();
        assert!(rt;
            ran.status == 0 && quiet && ran.out.as_slice() == wanted.as_bytes(),
            "{line}"
        );
    }
    Ok(())
}
