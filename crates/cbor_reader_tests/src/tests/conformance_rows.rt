//! The rows of the conformance table, and a reader for their inputs.

use super::conformance_table::tables;
use super::{BadHex, bytes_of};
use cbor_head::{Keys, Limits, Refusal};
use cbor_reader::KeyOrder;
use std::alloc::{AllocError, Global};
use std::io;
use std::io::Read;

// A row that cannot be parsed.
#[derive(Debug, Drop)]
pub(super) enum BadRow {
    Columns,
    Limits,
    Input(BadHex),
    Memory,
}

// A row with its input, its limits, and the expected results.
#[derive(Drop)]
pub(super) struct Row {
    pub(super) line: &'static str,
    pub(super) input: Vec<u8>,
    pub(super) column: &'static str,
    pub(super) limits: Limits,
    pub(super) plain: &'static str,
    pub(super) strict: &'static str,
}

impl Row {
    /// Whether a test that cuts the input, or makes a reader fail, does so at this offset: at each
    /// one of a short input; of a long one, near its ends and at powers of two.
    pub(super) fn is_tried_at(&self, offset: usize) -> bool {
        let length = self.input.len();
        length <= 128
            || offset <= 4
            || length.saturating_sub(offset) <= 4
            || offset.is_power_of_two()
    }
}

pub(super) static ORDERS: [KeyOrder; 2] = [KeyOrder::Bytewise, KeyOrder::LengthFirst];

// All rows of the table.
pub(super) fn rows(alloc: Global) -> Result<Vec<Row>, BadRow> {
    let mut rows = Vec::new(alloc);
    for table in tables() {
        push_rows(alloc, &mut rows, table)?;
    }
    Ok(rows)
}

// The rows of a text with the columns of the table.
pub(super) fn rows_of(alloc: Global, table: &'static str) -> Result<Vec<Row>, BadRow> {
    let mut rows = Vec::new(alloc);
    push_rows(alloc, &mut rows, table)?;
    Ok(rows)
}

fn push_rows(alloc: Global, rows: &mut Vec<Row>, table: &'static str) -> Result<(), BadRow> {
    for line in table.lines() {
        if !line.is_empty() && !line.starts_with("//") {
            rows.push(row_of(alloc, line)?).map_err(|_| BadRow::Memory)?;
        }
    }
    Ok(())
}

fn row_of(alloc: Global, line: &'static str) -> Result<Row, BadRow> {
    let (input, column, plain, strict) = columns_of(line).ok_or(BadRow::Columns)?;
    Ok(Row {
        line,
        input: bytes_of(alloc, input).map_err(BadRow::Input)?,
        column,
        limits: limits_of(column).ok_or(BadRow::Limits)?,
        plain,
        strict,
    })
}

// The columns of a row that tests read: the input, the limits, and the expected results.
pub(super) fn columns_of(line: &str) -> Option<(&str, &str, &str, &str)> {
    let (input, rest) = line.split_once('|')?;
    let (limits, rest) = rest.split_once('|')?;
    let (plain, rest) = rest.split_once('|')?;
    let (strict, _) = rest.split_once('|')?;
    Some((input.trim(), limits.trim(), plain.trim(), strict.trim()))
}

// The part of a column for an order: before the slash or after it; without a slash, the whole.
pub(super) fn by_order(column: &str, order: KeyOrder) -> &str {
    let Some((bytewise, length_first)) = column.split_once('/') else {
        return column;
    };
    match order {
        KeyOrder::Bytewise => bytewise.trim(),
        KeyOrder::LengthFirst => length_first.trim(),
    }
}

// The limits of a column as `depth 1 bytes 4 keys basic`.
fn limits_of(column: &str) -> Option<Limits> {
    let is_known = column.is_empty()
        || column.starts_with("depth ")
        || column.starts_with("bytes ")
        || column.starts_with("keys ");
    if !is_known {
        return None;
    }
    let depth = number_after(column, "depth ", 256)?;
    let bytes = number_after(column, "bytes ", 1048576)?;
    let limits = Limits::new(u16::try_from(depth).ok()?, bytes)?;
    match column.split_once("keys ") {
        Some((_, kinds)) if kinds == "basic" => Some(limits.with_keys(Keys::IntegersAndTexts)),
        Some(_) => None,
        None => Some(limits),
    }
}

// The number after a word; the default if the word is missing.
fn number_after(column: &str, word: &str, otherwise: u64) -> Option<u64> {
    match column.split_once(word) {
        Some((_, following)) => following.split_whitespace().next()?.parse::<u64>().ok(),
        None => Some(otherwise),
    }
}

// Whether the plain rules refuse the input, as a whole.
pub(super) fn is_refused(plain: &str) -> bool {
    plain.contains(" at ")
}

// Whether the input is one item that is valid and within the limits.
pub(super) fn is_item(plain: &str) -> bool {
    !is_refused(plain) || plain.starts_with("13 ")
}

// A refusal in the form of the columns.
pub(super) fn text_of(alloc: Global, refusal: Refusal) -> Result<String, AllocError> {
    format!(in alloc; "{refusal}, read {}", refusal.read)
}

// The canonical bytes that a row expects for an input.
pub(super) fn canonical_of(alloc: Global, input: &[u8], plain: &str) -> Result<Vec<u8>, BadHex> {
    match plain {
        "same" => Vec::from_slice(alloc, input).map_err(|_| BadHex::Memory),
        hex => bytes_of(alloc, hex),
    }
}

// A reader with two parts that gives at most this number of bytes a read, and none of the second
// part in a read of the first.
#[derive(Drop)]
pub(super) struct Cut<'a> {
    first: &'a [u8],
    second: &'a [u8],
    most: usize,
}

impl<'a> Cut<'a> {
    // The ways to give an input: 0 for one byte a read; else cut in two at that offset, which is
    // its length for a whole input.
    pub(super) fn in_way(input: &'a [u8], way: usize) -> Cut<'a> {
        let most = if way == 0 { 1 } else { usize::MAX };
        let (first, second) = input.split_at(way.min(input.len()));
        Cut {
            first,
            second,
            most,
        }
    }

    // The number of bytes of an input that were consumed.
    pub(super) fn taken(&self, input: &[u8]) -> usize {
        let left = self.first.len().saturating_add(self.second.len());
        input.len().saturating_sub(left)
    }
}

impl Read for Cut<'_> {
    fn read(&mut self, buf: &mut [u8]) -> io::Result<usize> {
        if self.first.is_empty() {
            self.first = self.second;
            self.second = &[];
        }
        let n = buf.len().min(self.first.len()).min(self.most);
        buf[..n].copy_from_slice(&self.first[..n]);
        self.first = &self.first[n..];
        Ok(n)
    }
}
