//! The arguments of the command line.

use super::ran;
use std::alloc::{AllocError, Global};

// The options come before or after the files.
static CANON: &str = "\
canon in out
canon --hex in out
canon in --hex out
canon in out --hex
canon --bytes 4 --depth 3 --hex in out
canon in --bytes=4 out --depth=3
canon in out --bytes 4 --hex --depth 3
canon --depth 0 in out
canon --depth 256 in out
canon --bytes 4611686018427387904 in out
canon --order bytewise in out
canon in --order=length out
canon in out --hex --order length
canon --keys basic in out
canon in --keys=any out
canon --seq in out
canon in out --order length --seq --bytes 1
canon --order length-first --bytes 300M in out
canon --bytes 1K in out
canon in out --bytes 4294967296G
canon in out --bytes=+1g
canon -- in out
canon --hex -- in out";

static CHECK: &str = "\
check in
check
check --strict --hex --bytes 1M
check --hex in
check in --strict
check --strict in --hex
check --order length in
check in --keys basic --strict
check in --order=bytewise --strict
check --bytes 1 --depth 0 --order length --strict --hex in
check in --bytes=1 --depth=256
check -- in
check --strict -- in";

static CHECK_SEQUENCE: &str = "\
check in --seq
check --seq
check --seq in
check --seq -- in
check --strict --seq --hex in
check --order length --bytes 1 in --seq --depth 0 --strict";

// The arguments, and what standard error begins with. A row ends with a semicolon.
static FAULTS: &str = "\
compare | error: the following required arguments were not provided:\n  <A>\n  <B>\n;
compare a | error: the following required arguments were not provided:\n  <B>\n;
compare a b c | error: unexpected argument 'c' found\n;
compare --order length a b | error: unexpected argument '--order' found\n;
compare --strict a b | error: unexpected argument '--strict' found\n;
compare - - | error: standard input is read once: '-' cannot be given twice\n;
check --quiet --explain in | error: the argument '--quiet' cannot be used with '--explain'\n;
--quiet check in | error: unexpected argument '--quiet' found\n;
 | error: 'cborc' requires a subcommand but one was not provided\n;
--hex | error: unexpected argument '--hex' found\n;
encode in out | error: unrecognized subcommand 'encode'\n;
--hex canon in out | error: unexpected argument '--hex' found\n;
canon | error: the following required arguments were not provided:\n  <IN>\n  <OUT>\n;
canon in | error: the following required arguments were not provided:\n  <OUT>\n;
canon in out more | error: unexpected argument 'more' found\n;
canon --strict in out | error: unexpected argument '--strict' found\n;
canon --order shortest in out | error: invalid value 'shortest' for '--order <order>'\n  [possible values: bytewise, length, length-first]\n;
canon --order Length in out | error: invalid value 'Length' for '--order <order>'\n  [possible values: bytewise, length, length-first]\n;
canon --order= in out | error: a value is required for '--order <order>' but none was supplied\n  [possible values: bytewise, length, length-first]\n;
canon in out --order | error: a value is required for '--order <order>' but none was supplied\n  [possible values: bytewise, length, length-first]\n;
canon --order length --order length in out | error: the argument '--order <order>' cannot be used multiple times\n;
canon -x in out | error: unexpected argument '-x' found\n;
canon --hex=yes in out | error: unexpected value 'yes' for '--hex' found; no more were expected\n;
canon --hex --hex in out | error: the argument '--hex' cannot be used multiple times\n;
canon --depth 1 --depth 1 in out | error: the argument '--depth <count>' cannot be used multiple times\n;
canon in out --depth | error: a value is required for '--depth <count>' but none was supplied\n;
canon --depth 1025 in out | error: invalid value '1025' for '--depth <count>': 1025 is not in 0..=1024\n;
canon --depth=-1 in out | error: invalid value '-1' for '--depth <count>': ;
canon --depth deep in out | error: invalid value 'deep' for '--depth <count>': invalid digit found in string\n;
canon --bytes 4611686018427387905 in out | error: invalid value '4611686018427387905' for '--bytes <count>': expected a number from 0 to 4611686018427387904, with K, M or G after it or no unit\n;
canon --bytes 18446744073709551616 in out | error: invalid value '18446744073709551616' for '--bytes <count>': expected a number from 0 to 4611686018427387904, with K, M or G after it or no unit\n;
canon --bytes 4294967297G in out | error: invalid value '4294967297G' for '--bytes <count>': expected a number from 0 to 4611686018427387904, with K, M or G after it or no unit\n;
canon --bytes 17179869184G in out | error: invalid value '17179869184G' for '--bytes <count>': expected a number from 0 to 4611686018427387904, with K, M or G after it or no unit\n;
canon --bytes=-1 in out | error: invalid value '-1' for '--bytes <count>': expected a number from 0 to 4611686018427387904, with K, M or G after it or no unit\n;
canon --bytes 1kb in out | error: invalid value '1kb' for '--bytes <count>': expected a number from 0 to 4611686018427387904, with K, M or G after it or no unit\n;
canon --bytes M in out | error: invalid value 'M' for '--bytes <count>': expected a number from 0 to 4611686018427387904, with K, M or G after it or no unit\n;
canon --bytes 1MK in out | error: invalid value '1MK' for '--bytes <count>': expected a number from 0 to 4611686018427387904, with K, M or G after it or no unit\n;
canon --bytes 1é in out | error: invalid value '1é' for '--bytes <count>': expected a number from 0 to 4611686018427387904, with K, M or G after it or no unit\n;
canon --bytes= in out | error: invalid value '' for '--bytes <count>': expected a number from 0 to 4611686018427387904, with K, M or G after it or no unit\n;
check - in - | error: standard input is read once: '-' cannot be given twice\n;
show in more | error: unexpected argument 'more' found\n;
events in more | error: unexpected argument 'more' found\n;
check --strict=yes in | error: unexpected value 'yes' for '--strict' found; no more were expected\n;
check --strict --strict in | error: the argument '--strict' cannot be used multiple times\n;
check --seq=yes in | error: unexpected value 'yes' for '--seq' found; no more were expected\n;
check --seq --seq in | error: the argument '--seq' cannot be used multiple times\n;
compare --seq a b | error: unexpected argument '--seq' found\n;
canon --seq --seq in out | error: the argument '--seq' cannot be used multiple times\n;
events --annotate --annotate in | error: the argument '--annotate' cannot be used multiple times\n;
events --annotate=yes in | error: unexpected value 'yes' for '--annotate' found; no more were expected\n;
show --annotate in | error: unexpected argument '--annotate' found\n;
events --seq --seq in | error: the argument '--seq' cannot be used multiple times\n;
show --seq=1 in | error: unexpected value '1' for '--seq' found; no more were expected\n;
check --keys none in | error: invalid value 'none' for '--keys <kinds>'\n  [possible values: any, basic]\n;
compare --keys Basic a b | error: invalid value 'Basic' for '--keys <kinds>'\n  [possible values: any, basic]\n;
events in --keys | error: a value is required for '--keys <kinds>' but none was supplied\n  [possible values: any, basic]\n;
show --keys any --keys any in | error: the argument '--keys <kinds>' cannot be used multiple times\n;
check --order in | error: invalid value 'in' for '--order <order>'\n  [possible values: bytewise, length, length-first]\n;
check --depth 1025 in | error: invalid value '1025' for '--depth <count>': 1025 is not in 0..=1024\n;
--strict check in | error: unexpected argument '--strict' found\n";

#[test]
fn takes_options_anywhere(rt: HostRuntime) -> Result<(), AllocError> {
    for line in CANON.lines() {
        assert!(rt;
            ran(rt.alloc(), line, "00")?.wrote("out", b"\x00"),
            "{line}"
        );
    }
    Ok(())
}

#[test]
fn takes_options_of_check_anywhere(rt: HostRuntime) -> Result<(), AllocError> {
    for (lines, wanted) in [
        (CHECK, "accepted 1 bytes"),
        (CHECK_SEQUENCE, "accepted 1 items"),
    ] {
        for line in lines.lines() {
            assert!(rt; ran(rt.alloc(), line, "00")?.printed(wanted), "{line}");
        }
    }
    Ok(())
}

// Whether the arguments of the row are a usage error, and standard error begins as the row says.
fn is_fault(alloc: Global, row: &str) -> Result<bool, AllocError> {
    let Some((line, wanted)) = row.split_once(" | ") else {
        return Ok(false);
    };
    let ran = ran(alloc, line, "00")?;
    let quiet = ran.out.is_empty() && ran.written.is_empty();
    Ok(ran.status == 2 && quiet && ran.err.starts_with(wanted.as_bytes()))
}

#[test]
fn faults_in_the_words(rt: HostRuntime) -> Result<(), AllocError> {
    for row in FAULTS.split(";\n") {
        assert!(rt; is_fault(rt.alloc(), row)?, "{row}");
    }
    Ok(())
}
