//! What runs leave: a table of the commands that are not tested item by item.

use super::{Outcome, ran};
use std::alloc::{AllocError, Global};
use std::test::Fail;

// One row per line, with columns between bars:
//
// 1. The arguments.
// 2. The files: `in`, which is also `a` and standard input, and after a slash `b`. Their bytes as hex
//    digits, or with `--hex` their text.
// 3. The status.
// 4. What is written to standard output, or by `canon` to `out`: a line, or the bytes as hex digits
//    where `canon` writes them.
// 5. The line on standard error, if there is one.
// 6. Maybe what the bytes are, for the reader.
//
// A row ends with a semicolon. A row that begins with `#` says what the next rows show.
static ROWS: &str = "\
# What `events` prints: a line for each event, also for those before a refusal.;
events in | bf6346756ef563416d7421ff | 0 | 0 map - -\n1 text 3 0\n5 simple 21 0\n6 text 3 0\n10 negative 1 0\n11 end - -;
events in | 5f42010243030405ff | 0 | 0 bytes - -\n1 chunk 2 0\n4 chunk 3 0\n8 end - -;
events in | f8ff | 0 | 0 simple 255 1;
events in | 1b000000e8d4a51000 | 0 | 0 unsigned 1000000000000 8;
events in | c18201f820 | 0 | 0 tag 1 0\n1 array 2 0\n2 unsigned 1 0\n3 simple 32 1;
events in | 61ff | 0 | 0 text 1 0;
events in | 821864 | 1 | 0 array 2 0\n1 unsigned 100 1 | refused 1 Truncated at 3;
events in | 0000 | 1 | 0 unsigned 0 0 | refused 12 Trailing at 1;
events in |  | 1 |  | refused 1 Truncated at 0;
events in | 8201f90000 | 1 | 0 array 2 0\n1 unsigned 1 0 | refused 5 Float at 2;
events in --depth 1 | 8180 | 1 | 0 array 1 0 | refused 9 TooDeep at 1;
events in --bytes 1 | 1864 | 1 |  | refused 2 TooLong at 1;
# `--keys`: which kinds of keys are accepted. `events` ignores it.;
check --strict --keys basic in | a100818000 | 1 |  | refused 12 Trailing at 4 | {0: [[]]} and a byte;
show --keys basic in | a10080 | 0 | {0: []};
show --seq --keys basic in | 80a18000 | 1 | [] | item 2 refused 20 KeyKind at 1 | [], {[]: 0};
check --seq --keys basic in | 80a18000 | 1 |  | item 2 refused 20 KeyKind at 1 | [], {[]: 0};
check --seq --strict --keys basic in | a19fff00 | 1 |  | item 1 refused 20 KeyKind at 1;
canon --seq --keys basic in - | 1800a1f400 | 1 | 00 | item 2 refused 20 KeyKind at 1 | 0, {false: 0};
compare --keys basic a b | 00 / a18000 | 1 |  | right refused 20 KeyKind at 1 | {[]: 0};
compare --keys basic a b | bf00006000ff / a260000000 | 0 | same |  | {0: 0, \"\": 0};
events in | a18000 | 0 | 0 map 1 0\n1 array 0 0\n2 unsigned 0 0;
events --keys basic in | a18000 | 0 | 0 map 1 0\n1 array 0 0\n2 unsigned 0 0;
events --seq --keys basic in | a18000 | 0 | 0 map 1 0\n1 array 0 0\n2 unsigned 0 0;
# `show --indent`: one member or pair per line, two spaces per level.;
show --indent in | 00 | 0 | 0;
show --indent in | 80 | 0 | [];
show --indent in | a0 | 0 | {};
show --indent in | 82018102 | 0 | [\n  1,\n  [\n    2\n  ]\n];
show --indent in | a26161016162820203 | 0 | {\n  \"a\": 1,\n  \"b\": [\n    2,\n    3\n  ]\n};
show --indent in | c18180 | 0 | 1([\n  []\n]);
show --indent --bytes 1 in | 8000 | 1 |  | refused 12 Trailing at 1;
# Sequences of items.;
check in --seq |  | 0 | accepted 0 items;
check in --seq | 00 | 0 | accepted 1 items;
check in --seq --bytes 1 | 000000 | 0 | accepted 3 items |  | 0, 0, 0;
check in --seq --depth 0 | 00182a40 | 0 | accepted 3 items |  | 0, 42, h'';
check in --seq | 9fffa2c1010001001801 | 0 | accepted 3 items |  | [], {1(1): 0, 1: 0}, 1;
check in --seq --strict | a2186400200000 | 0 | accepted 2 items |  | {100: 0, -1: 0}, 0;
check in --seq --strict --order length | a2200018640000 | 0 | accepted 2 items |  | {-1: 0, 100: 0}, 0;
check --seq --bytes 0 in |  | 1 |  | item 1 refused 2 TooLong at 0;
check --seq --bytes 0 in | 00 | 1 |  | item 1 refused 2 TooLong at 0;
check --seq in | 00a201000100 | 1 |  | item 2 refused 11 RepeatedKey at 3 | 0, {1: 0, 1: 0};
check --seq in | 00810118 | 1 |  | item 3 refused 1 Truncated at 1 | 0, [1], and a number that is cut off;
check --seq --strict in | 001801 | 1 |  | item 2 refused 14 NotShortest at 0 | 0, 1 in two bytes;
check --seq --bytes 1 in | 00011864 | 1 |  | item 3 refused 2 TooLong at 1 | 0, 1, 100 in two bytes;
check --seq in | 00ff00 | 1 |  | item 2 refused 7 StrayBreak at 0 | 0, a break, 0;
check --seq in | 001c | 1 |  | item 2 refused 3 Reserved at 0 | 0, a reserved head;
check --seq --depth 1 in | 808180 | 1 |  | item 2 refused 9 TooDeep at 1 | [], [[]];
check --seq in | 616161ff | 1 |  | item 2 refused 10 InvalidText at 1 | \"a\", a text that is no UTF-8;
check --seq --strict in | 009fff | 1 |  | item 2 refused 15 Indefinite at 0 | 0, [] without length;
check --seq --strict --order length in | a21864002000 | 1 |  | item 1 refused 16 KeyOrder at 4 | {100: 0, -1: 0};
check --seq --strict --order bytewise in | 00a22000186400 | 1 |  | item 2 refused 16 KeyOrder at 3 | 0, {-1: 0, 100: 0};
# The canonical bytes of each item of a sequence, one after another; a file gets those of all items, or is unchanged.;
canon --seq in out |  | 0 | ;
canon --seq in out | 1800 | 0 | 00 |  | 0 in two bytes;
canon --seq in out | 18007f657374726561646d696e67ffbf190003040102ff | 0 | 006973747265616d696e67a201020304 |  | 0, \"streaming\", {3: 4, 1: 2};
canon in out --seq --order length | a8626161010a021864032004617a0581186406812007f40800 | 0 | a80a022004f408186403617a05812007626161018118640600;
canon --seq --order bytewise in out | a8626161010a021864032004617a0581186406812007f40800 | 0 | a80a021864032004617a056261610181186406812007f40800;
canon --seq --bytes 2 in out | 180081001864 | 0 | 0081001864 |  | 0, [0], 100;
canon --seq --hex in out | 18 00\n9fff\n | 0 | 0080;
canon --seq - - | 18009fff | 0 | 0080;
canon --seq --hex-out in - | 18009fff | 0 | 00\n80 |  | a line an item;
canon --seq --quiet in out | 18009fff | 0 | 0080;
canon --seq --quiet in - | 18009fff | 0 | 0080;
canon --seq --quiet in out | 00ff | 1 | ;
canon --seq in out | 00810118 | 1 |  | item 3 refused 1 Truncated at 1 | 0, [1], and a number that is cut off;
canon --seq in out | 00a201000100 | 1 |  | item 2 refused 11 RepeatedKey at 3 | 0, {1: 0, 1: 0};
canon --seq --bytes 1 in out | 00011864 | 1 |  | item 3 refused 2 TooLong at 1 | 0, 1, 100 in two bytes;
canon --seq --bytes 0 in out |  | 1 |  | item 1 refused 2 TooLong at 0;
canon --seq --depth 1 in - | 808180 | 1 | 80 | item 2 refused 9 TooDeep at 1 | [], [[]];
canon --seq in - | 1800ff00 | 1 | 00 | item 2 refused 7 StrayBreak at 0 | 0 in two bytes, a break, 0;
canon --seq in - | ff | 1 |  | item 1 refused 7 StrayBreak at 0;
canon --seq --hex-out in - | 1800811801ff | 1 | 00\n8101 | item 3 refused 7 StrayBreak at 0 | a line an item;
canon --seq --quiet in - | 1800ff | 1 | 00;
canon --seq absent out | 00 | 3 |  | cannot read absent;
canon --seq in locked | 00 | 3 |  | cannot write locked;
canon --seq in locked | 00ff | 1 |  | item 2 refused 7 StrayBreak at 0;
canon --seq in full | 00 | 3 |  | out of memory;
canon --seq in small | 000102 | 3 |  | cannot write small | it takes two bytes;
canon --seq in small | 000102ff | 3 |  | cannot write small;
canon --seq in small | 0001ff | 1 |  | item 3 refused 7 StrayBreak at 0;
canon --seq --hex in out | 0 | 3 |  | not hex: in;
# The text of each item of a sequence, one per line; those before a refusal stay.;
show --seq in |  | 0 | ;
show --seq in | 00 | 0 | 0;
show in --seq | 001bffffffffffffffff820001 | 0 | 0\n18446744073709551615\n[0, 1];
show --seq --bytes 1 in | 000120 | 0 | 0\n1\n-1;
show --seq --hex - | 00 01\n | 0 | 0\n1;
show --seq --indent in | 820181028000 | 0 | [\n  1,\n  [\n    2\n  ]\n]\n[]\n0;
show --seq in | 00810118 | 1 | 0\n[1] | item 3 refused 1 Truncated at 1 | 0, [1], and a number that is cut off;
show --seq in | ff | 1 |  | item 1 refused 7 StrayBreak at 0;
show --seq --bytes 0 in |  | 1 |  | item 1 refused 2 TooLong at 0;
show --seq in | 00a201000100 | 1 | 0 | item 2 refused 11 RepeatedKey at 3 | 0, {1: 0, 1: 0};
show --seq --quiet in | 00ff | 1 | ;
show --seq absent | 00 | 3 |  | cannot read absent;
show --seq --hex in | 0 | 3 |  | not hex: in;
# The events of each item of a sequence: offsets from the start of the file, an empty line before each item but the first; the lines before a refusal stay.;
events --seq in |  | 0 | ;
events in --seq | 61ff | 0 | 0 text 1 0;
events --seq in | 00821864f6 | 0 | 0 unsigned 0 0\n\n1 array 2 0\n2 unsigned 100 1\n4 simple 22 0 |  | 0, [100, null];
events --seq in | c18201f820821864205f42010243030405ff | 0 | 0 tag 1 0\n1 array 2 0\n2 unsigned 1 0\n3 simple 32 1\n\n5 array 2 0\n6 unsigned 100 1\n8 negative 0 0\n\n9 bytes - -\n10 chunk 2 0\n13 chunk 3 0\n17 end - - |  | 1([1, simple(32)]), [100, -1], (_ h'0102', h'030405');
events --seq --bytes 1 in | 000001 | 0 | 0 unsigned 0 0\n\n1 unsigned 0 0\n\n2 unsigned 1 0;
events --seq --hex - | 00 01\n | 0 | 0 unsigned 0 0\n\n1 unsigned 1 0;
events --seq in | 00a201000100 | 0 | 0 unsigned 0 0\n\n1 map 2 0\n2 unsigned 1 0\n3 unsigned 0 0\n4 unsigned 1 0\n5 unsigned 0 0 |  | equal keys are not looked at;
events --seq in | 00810118 | 1 | 0 unsigned 0 0\n\n1 array 1 0\n2 unsigned 1 0\n | item 3 refused 1 Truncated at 1 | 0, [1], and a number that is cut off;
events --seq in | 008201f90000 | 1 | 0 unsigned 0 0\n\n1 array 2 0\n2 unsigned 1 0 | item 2 refused 5 Float at 2 | 0, [1, a float];
events --seq in | ff | 1 |  | item 1 refused 7 StrayBreak at 0;
events --seq --bytes 0 in |  | 1 |  | item 1 refused 2 TooLong at 0;
events --seq --bytes 1 in | 00011864 | 1 | 0 unsigned 0 0\n\n1 unsigned 1 0\n | item 3 refused 2 TooLong at 1 | 0, 1, 100 in two bytes;
events --seq --depth 1 in | 808180 | 1 | 0 array 0 0\n\n1 array 1 0 | item 2 refused 9 TooDeep at 1 | [], [[]];
events --seq --quiet in | 00ff | 1 | ;
events --seq absent | 00 | 3 |  | cannot read absent;
events --seq --hex in | 0 | 3 |  | not hex: in;
events --seq full | 00 | 3 |  | out of memory;
# `compare`: files with the same value, with different values, and refused files.;
compare a b | a201020304 / bf190003040102ff | 0 | same |  | {1: 2, 3: 4};
compare a b | 5f4161ff / 4161 | 0 | same |  | h'61';
compare a b | 1800 / 00 | 0 | same |  | 0;
compare a b | a100a21864002000 / a100a22000186400 | 0 | same |  | {0: {100: 0, -1: 0}};
compare a b | 4161 / 6161 | 1 | different |  | h'61' and \"a\";
compare a b | c24101 / 01 | 1 | different |  | 2(h'01') and 1;
compare a b | 820102 / 820201 | 1 | different |  | [1, 2] and [2, 1];
compare a b | a10102 / a10103 | 1 | different |  | {1: 2} and {1: 3};
compare a b | 61ff / 1f | 1 |  | left refused 10 InvalidText at 1;
compare a b | 1f / 61ff | 1 |  | left refused 4 NoIndefinite at 0;
compare a b | 00 / 0000 | 1 |  | right refused 12 Trailing at 1;
compare a b | 0000 / 1f | 1 |  | left refused 12 Trailing at 1;
compare a b | 00 /  | 1 |  | right refused 1 Truncated at 0;
compare a b --depth 0 | 00 / 80 | 1 |  | right refused 9 TooDeep at 0 | [];
compare a b --bytes 1 | 00 / 1864 | 1 |  | right refused 2 TooLong at 1 | 100;
# Both files are read before either is judged: 1f is refused, and so is the hex text 1f.;
compare absent b | 00 / 00 | 3 |  | cannot read absent;
compare a absent | 00 / 00 | 3 |  | cannot read absent;
compare a absent | 1f / 00 | 3 |  | cannot read absent;
compare absent gone | 00 / 00 | 3 |  | cannot read absent;
compare a full | 1f / 00 | 3 |  | out of memory;
compare full absent | 00 / 00 | 3 |  | out of memory;
compare absent full | 00 / 00 | 3 |  | cannot read absent;
compare --hex a b | 1f / 0g | 3 |  | not hex: b;
compare --hex a b | 0g / 1f | 3 |  | not hex: a;
compare --hex a b | 000 / 0g | 3 |  | not hex: a;
compare --hex a absent | 0g / 00 | 3 |  | not hex: a;
compare --hex absent b | 00 / 0g | 3 |  | cannot read absent;
# The options come before or after the files.;
compare --hex a b |  0 0\n / 00 | 0 | same;
compare a --hex b |  0 0\n / 00 | 0 | same;
compare a b --hex --bytes 1 --depth=0 |  0 0\n / 00 | 0 | same;
compare --hex -- a a |  0 0\n / 00 | 0 | same;
compare a b | 00 / 00 | 0 | same;
compare --bytes=1 a --depth 256 b | 00 / 00 | 0 | same;
compare b b | 00 / 00 | 0 | same;
# Files of hex digits, and digits that are read as bytes: 30 is -17, and a second byte follows it.;
canon --hex in out | 1800 | 0 | 00;
canon --hex in out | 18 00\n | 0 | 00;
canon --hex in out | 1 8\t0\r\n0 | 0 | 00;
canon --hex in out |  \t\r\n1800 | 0 | 00;
canon --hex in out | 18ff | 0 | 18ff;
canon --hex in out | 18FF | 0 | 18ff;
canon --hex in out | 18fF | 0 | 18ff;
canon --hex in out | 1Bffff\nFFFF\nABCD\nEF01 | 0 | 1bffffffffabcdef01;
canon --hex in out |  \n | 1 |  | refused 1 Truncated at 0;
check --hex in |  \n | 1 |  | refused 1 Truncated at 0;
canon --hex in out | 00 00 | 1 |  | refused 12 Trailing at 1;
check --hex in | 00 00 | 1 |  | refused 12 Trailing at 1;
canon in out | 3030 | 1 |  | refused 12 Trailing at 1;
# `--quiet`: only the status, and canonical bytes.;
check --quiet in | 00 | 0 | ;
check --quiet in | 0000 | 1 | ;
check --quiet absent | 00 | 3 | ;
check --seq --quiet in | 0000 | 0 | ;
show --quiet in | 00 | 0 | ;
show --quiet --hex in | 0 | 3 | ;
events --quiet in | 00ff | 1 | ;
compare --quiet in in | 80 | 0 | ;
canon --quiet in locked | 00 | 3 | ;
canon --quiet in out | ff | 1 | ;
canon --quiet in out | 1800 | 0 | 00;
canon --quiet in - | 1800 | 0 | 00;
# Standard input and output as `-`.;
check - | 1800 | 0 | accepted 2 bytes;
check --hex - | 18 00\n | 0 | accepted 2 bytes;
check --seq - | 0001 | 0 | accepted 2 items;
show - | 820001 | 0 | [0, 1];
events - | 00 | 0 | 0 unsigned 0 0;
compare - in | 00 | 0 | same;
compare in - | 00 | 0 | same;
canon - - | 1800 | 0 | 00;
canon in - | 9f20ff | 0 | 8120;
canon --hex in - | 9f 20 ff | 0 | 8120;
canon --hex-out in - | 9f20ff | 0 | 8120;
canon --hex-out --hex - - | 9F20FF | 0 | 8120;
canon --hex-out - out | bfff | 0 | a0;
check - | 0000 | 1 |  | refused 12 Trailing at 1;
canon - out |  | 1 |  | refused 1 Truncated at 0;
canon - - | ff | 1 |  | refused 7 StrayBreak at 0;
check --hex - | 0 | 3 |  | not hex: -;
# Files that cannot be read or written, and memory that is refused.;
canon absent out | 00 | 3 |  | cannot read absent;
canon --hex absent out | 00 | 3 |  | cannot read absent;
canon full out | 00 | 3 |  | out of memory;
canon in locked | 00 | 3 |  | cannot write locked;
canon in full | 00 | 3 |  | out of memory;
canon absent locked | 00 | 3 |  | cannot read absent;
canon in locked | 0000 | 1 |  | refused 12 Trailing at 1;
canon --hex in locked | 0 | 3 |  | not hex: in;
check absent | 00 | 3 |  | cannot read absent;
check --strict absent | 00 | 3 |  | cannot read absent;
check --hex absent | 00 | 3 |  | cannot read absent;
check full | 00 | 3 |  | out of memory;
check --seq absent | 00 | 3 |  | cannot read absent;
show absent | 00 | 3 |  | cannot read absent;
show --hex in | 0 | 3 |  | not hex: in;
events absent | 00 | 3 |  | cannot read absent;
events full | 00 | 3 |  | out of memory;
show full | 00 | 3 |  | out of memory;
check --seq full | 00 | 3 |  | out of memory;
check --seq --hex in | 0 | 3 |  | not hex: in;
check --hex in | 0 | 3 |  | not hex: in;
show folder | 00 | 3 |  | cannot read folder;
canon in absent/out | 00 | 3 |  | cannot write absent/out;
# What `--explain` says about them.;
check --explain absent | 00 | 3 |  | cannot read absent\n  There is no such file or folder.;
canon --explain absent out | 00 | 3 |  | cannot read absent\n  There is no such file or folder.;
show --explain folder | 00 | 3 |  | cannot read folder\n  It is a folder.;
events --explain locked | 00 | 3 |  | cannot read locked\n  It is not permitted.;
compare --explain in odd | 00 | 3 |  | cannot read odd\n  The system reports error 5.;
check --seq --explain silent | 00 | 3 |  | cannot read silent\n  The cause is unknown.;
canon --explain in locked | 00 | 3 |  | cannot write locked\n  It is not permitted.;
canon --explain in folder | 00 | 3 |  | cannot write folder\n  It is a folder.;
canon --explain in locked/out | 00 | 3 |  | cannot write locked/out\n  A new file next to it could not be created. It is not permitted.;
canon --explain in small | 820001 | 3 |  | cannot write small\n  The disk is full.;
canon --explain --seq in small | 000102 | 3 |  | cannot write small\n  The disk is full.;
canon --explain --seq full out | 00 | 3 |  | out of memory\n  Use a lower --bytes to need less memory.;
check --explain --hex full | 00 | 3 |  | out of memory\n  Use a lower --bytes to need less memory.;
show --explain full | 00 | 3 |  | out of memory\n  Use a lower --bytes to need less memory.;
canon in folder | 00 | 3 |  | cannot write folder";

#[derive(Drop)]
struct Row<'a> {
    words: &'a str,
    files: &'a str,
    status: u8,
    written: &'a str,
    complained: &'a str,
}

fn row_of(columns: &str) -> Option<Row<'_>> {
    let (words, rest) = columns.split_once(" | ")?;
    let (files, rest) = rest.split_once(" | ")?;
    let (status, rest) = rest.split_once(" | ")?;
    let (written, rest) = rest.split_once(" | ").unwrap_or((rest, ""));
    let (complained, _) = rest.split_once(" | ").unwrap_or((rest, ""));
    let status = status.parse::<u8>().ok()?;
    Some(Row {
        words,
        files,
        status,
        written,
        complained,
    })
}

// The bytes of an output column.
fn line_of(alloc: Global, column: &str) -> Result<Vec<u8>, AllocError> {
    let end = if column.is_empty() { "" } else { "\n" };
    Ok(format!(in alloc; "{column}{end}")?.into_bytes())
}

// Whether a run left what its row says.
fn is_left(alloc: Global, row: &Row<'_>, ran: &Outcome) -> Result<bool, AllocError> {
    let is_raw = row.words.starts_with("canon") && !row.words.contains("--hex-out");
    let written = if is_raw {
        hex::decode(alloc, row.written).map_err(|_| AllocError)?
    } else {
        line_of(alloc, row.written)?
    };
    let is_file = row.status == 0 && row.words.contains(" out");
    let complained = line_of(alloc, row.complained)?;
    Ok(
        ran.status == row.status
            && ran.left(is_file, written.as_slice())
            && ran.err.as_slice() == complained.as_slice(),
    )
}

#[test]
fn leaves_what_the_rows_say(rt: HostRuntime) -> Result<(), Fail> {
    let alloc = rt.alloc();
    for columns in ROWS.split(";\n") {
        if columns.starts_with("# ") {
            continue;
        }
        let row = row_of(columns).ok_or("a row has four or five columns")?;
        let ran = ran(alloc, row.words, row.files)?;
        assert!(rt; is_left(alloc, &row, &ran)?, "{columns}");
    }
    Ok(())
}
