//! The tables of the listing: bytes, and the lines of their events.
//!
//! One row a line, with five columns separated by bars: the bytes in hex digits; the limits on depth
//! and on bytes, if they are not 256 and 1048576; the lines of the listing; the result; and what the
//! bytes are, or why they are refused.

use cbor_head::{Limits, Refusal};
use std::alloc::{AllocError, Global};
use std::test::Fail;

// Items, and bytes that the form refuses, with the lines before the refusal.
pub(super) static ITEMS: &str = r#"
bf6346756ef563416d7421ff | | 0 map - -; 1 text 3 0; 5 simple 21 0; 6 text 3 0; 10 negative 1 0; 11 end - - | 12 | {_ "Fun": true, "Amt": -2}
5f42010243030405ff | | 0 bytes - -; 1 chunk 2 0; 4 chunk 3 0; 8 end - - | 9 | (_ h'0102', h'030405')
f8ff | | 0 simple 255 1 | 2 | simple(255)
1b000000e8d4a51000 | | 0 unsigned 1000000000000 8 | 9 | the widest spelling of 1000000000000
c18201f820 | | 0 tag 1 0; 1 array 2 0; 2 unsigned 1 0; 3 simple 32 1 | 5 | 1([1, simple(32)])
61ff | | 0 text 1 0 | 2 | a text that is not UTF-8: form alone counts
a2616100616101 | | 0 map 2 0; 1 text 1 0; 3 unsigned 0 0; 4 text 1 0; 6 unsigned 1 0 | 7 | {"a": 0, "a": 1}: form alone counts
40 | | 0 bytes 0 0 | 1 | h''
7f60ff | | 0 text - -; 1 chunk 0 0; 2 end - - | 3 | (_ "")
9a000000031900003900ffd900025800 | | 0 array 3 4; 5 unsigned 0 2; 8 negative 255 2; 11 tag 2 2; 14 bytes 0 1 | 16 | [0, -256, 2(h'')], in each width of a head
813bffffffffffffffff | | 0 array 1 0; 1 negative 18446744073709551615 8 | 10 | [-18446744073709551616]
9fff | | 0 array - -; 1 end - - | 2 | [_ ]
bfff | | 0 map - -; 1 end - - | 2 | {_ }
"#;

pub(super) static REFUSED: &str = r#"
| | | 1 Truncated at 0, read 0 | the input ends
1c | | | 3 Reserved at 0, read 1 | reserved additional information
3d | | | 3 Reserved at 0, read 1 | reserved additional information
5e | | | 3 Reserved at 0, read 1 | reserved additional information
7c | | | 3 Reserved at 0, read 1 | reserved additional information
9d | | | 3 Reserved at 0, read 1 | reserved additional information
be | | | 3 Reserved at 0, read 1 | reserved additional information
dc | | | 3 Reserved at 0, read 1 | reserved additional information
fc | | | 3 Reserved at 0, read 1 | reserved additional information
5f5c | | 0 bytes - - | 8 BadChunk at 1, read 2 | no chunk of the string
1f | | | 4 NoIndefinite at 0, read 1 | no indefinite length
3f | | | 4 NoIndefinite at 0, read 1 | no indefinite length
df | | | 4 NoIndefinite at 0, read 1 | no indefinite length
f97c00 | | | 5 Float at 0, read 1 | a float
fa00000000 | | | 5 Float at 0, read 1 | a float
fb0000000000000000 | | | 5 Float at 0, read 1 | a float
ff | | | 7 StrayBreak at 0, read 1 | a break where an item must begin
81ff | | 0 array 1 0 | 7 StrayBreak at 1, read 2 | a break where an item must begin
a1ff | | 0 map 1 0 | 7 StrayBreak at 1, read 2 | a break where an item must begin
c1ff | | 0 tag 1 0 | 7 StrayBreak at 1, read 2 | a break where an item must begin
a100ff | | 0 map 1 0; 1 unsigned 0 0 | 7 StrayBreak at 2, read 3 | a break where an item must begin
7f4100ff | | 0 text - - | 8 BadChunk at 1, read 2 | no chunk of the string
5f6100ff | | 0 bytes - - | 8 BadChunk at 1, read 2 | no chunk of the string
5f00ff | | 0 bytes - - | 8 BadChunk at 1, read 2 | no chunk of the string
f800 | | | 6 BadSimple at 1, read 2 | a simple value below 32 in two bytes
f818 | | | 6 BadSimple at 1, read 2 | a simple value below 32 in two bytes
18 | | | 1 Truncated at 1, read 1 | the input ends
41 | | 0 bytes 1 0 | 1 Truncated at 1, read 1 | the input ends
9f | | 0 array - - | 1 Truncated at 1, read 1 | the input ends
c1 | | 0 tag 1 0 | 1 Truncated at 1, read 1 | the input ends
f8 | | | 1 Truncated at 1, read 1 | the input ends
1903 | | | 1 Truncated at 2, read 2 | the input ends
8201 | | 0 array 2 0; 1 unsigned 1 0 | 1 Truncated at 2, read 2 | the input ends
5f41 | | 0 bytes - -; 1 chunk 1 0 | 1 Truncated at 2, read 2 | the input ends
821864 | | 0 array 2 0; 1 unsigned 100 1 | 1 Truncated at 3, read 3 | the input ends
5bffffffffffffffff | | 0 bytes 18446744073709551615 8 | 1 Truncated at 9, read 9 | the input ends
1903 | 256 2 | | 2 TooLong at 2, read 2 | the byte limit
820100 | 256 2 | 0 array 2 0; 1 unsigned 1 0 | 2 TooLong at 2, read 2 | the byte limit
c1c100 | 1 1048576 | 0 tag 1 0 | 9 TooDeep at 1, read 2 | one container too many
9f | 0 1048576 | | 9 TooDeep at 0, read 1 | one container too many
9c | 0 1048576 | | 3 Reserved at 0, read 1 | reserved additional information
"#;

#[derive(Drop)]
pub(super) struct Row {
    pub(super) line: &'static str,
    pub(super) bytes: Vec<u8>,
    pub(super) limits: Limits,
    pub(super) listing: String,
    pub(super) outcome: &'static str,
}

pub(super) fn rows_of(alloc: Global, table: &'static str) -> Result<Vec<Row>, Fail> {
    let mut rows = Vec::new(alloc);
    for line in table.trim().lines() {
        rows.push(row_of(alloc, line)?)?;
    }
    Ok(rows)
}

fn row_of(alloc: Global, line: &'static str) -> Result<Row, Fail> {
    let (digits, limits, events, outcome) = columns_of(line).ok_or("five columns")?;
    Ok(Row {
        line,
        bytes: hex::decode(alloc, digits)?,
        limits: limits_of(limits).ok_or("limits")?,
        listing: listing_of(alloc, events)?,
        outcome,
    })
}

fn columns_of(line: &str) -> Option<(&str, &str, &str, &str)> {
    let (digits, rest) = line.split_once('|')?;
    let (limits, rest) = rest.split_once('|')?;
    let (events, rest) = rest.split_once('|')?;
    let (outcome, _) = rest.split_once('|')?;
    Some((digits.trim(), limits.trim(), events.trim(), outcome.trim()))
}

fn limits_of(column: &str) -> Option<Limits> {
    let (depth, bytes) = column.split_once(' ').unwrap_or(("256", "1048576"));
    Limits::new(depth.parse().ok()?, bytes.parse().ok()?)
}

// The lines of a column, which are separated by semicolons.
fn listing_of(alloc: Global, column: &str) -> Result<String, AllocError> {
    let mut listing = String::new(alloc);
    for line in column.split("; ") {
        if !line.is_empty() {
            listing.push_str(line)?;
            listing.push_str("\n")?;
        }
    }
    Ok(listing)
}

// A result as the column has it: the number of bytes of the item, or the refusal.
pub(super) fn outcome_text(
    alloc: Global,
    outcome: Result<u64, Refusal>,
) -> Result<String, AllocError> {
    match outcome {
        Ok(count) => format!(in alloc; "{count}"),
        Err(refusal) => format!(in alloc; "{refusal}, read {}", refusal.read),
    }
}
