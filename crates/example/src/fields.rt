//! Two fields of each record of a sequence, by views.

ghost use Rattle.std.specs.Prelude.{◌≡◌, ◌≤◌, [], length, IfOk, IfErr, MatchOption};
ghost use Rattle.cbor_head.specs.Complaint.{plain};
ghost use Rattle.cbor_head.specs.Value.{Value};
ghost use Rattle.theory_verdicts.specs.Readers.{IsReadAs};
ghost use Rattle.cbor_item.specs.ViewValue.{view_value};
ghost use Rattle.example.specs.Fields.{HasInteger, HasNoInteger, HasIntegers, AreRows};
ghost use Rattle.example.specs.Fields.{HasNoRow, StopsAt};
ghost use Rattle.example.specs.declared.fields.FieldsError.TheVariants as faults;

use bumpalo::Bump;
use cbor_head::{Limits, Refusal};
use cbor_item::View;
use cbor_reader::read_view;
use std::alloc::Global;

/// Why the fields of a record cannot be returned.
#[derive(Clone, Copy, Debug, PartialEq, Eq)]
pub enum FieldsError {
    /// The record is refused; the offset is counted from its first byte.
    Refused(Refusal),
    /// The record has no integer that fits in an `i64` at one of the keys.
    NoInteger,
    /// There was no memory for the list.
    Memory,
}

impl From<Refusal> for FieldsError {
    ghost from_gives = { λ refusal fault. fault ≡ faults.Refused refusal };

    fn from(refusal: Refusal) -> FieldsError {
        FieldsError::Refused(refusal)
    }
}

/// Returns the integers at two keys of each record, for records one after another (RFC 8742). One
/// arena is reused for all, so that no more memory is held than the largest record needs.
pub fn two_fields(
    alloc: Global,
    records: &[u8],
    limits: Limits,
    first: &str,
    second: &str,
) -> Result<Vec<(i64, i64)>, FieldsError>
    ensures rows { IfOk result (λ rows.
        AreRows limits first.now second.now records.now rows.items []) }
    ensures fault { IfErr result (StopsAt limits first.now second.now records.now) }
{
    let mut rows = Vec::new(alloc);
    let mut arena = Bump::new(alloc);
    let mut rest = records;
    'records: while !rest.is_empty() {
        let (row, size) = row_at(alloc, rest, limits, first, second, &arena)?;
        let Ok(()) = rows.push(row) else {
            return Err(FieldsError::Memory);
        };
        rest = &rest[size..];
        // If the reset fails, the arena goes on growing.
        let _ = arena.reset();
    }
    Ok(rows)
}

// The integers of the record at the start, and the record's size in bytes.
fn row_at(
    alloc: Global,
    bytes: &[u8],
    limits: Limits,
    first: &str,
    second: &str,
    arena: &Bump,
) -> Result<((i64, i64), usize), FieldsError>
    ensures row { IfOk result (λ found. (v : Value)
        × IsReadAs limits plain bytes.now v found.1
        × HasIntegers first.now second.now v found.0) }
    ensures size { IfOk result (λ found. (1 ≤ found.1) × (found.1 ≤ length bytes.now)) }
    ensures fault { IfErr result (HasNoRow limits first.now second.now bytes.now) }
{
    let (record, size) = read_view(alloc, bytes, limits, arena)?;
    let Some(left) = integer_at(&record, first) else {
        return Err(FieldsError::NoInteger);
    };
    let Some(right) = integer_at(&record, second) else {
        return Err(FieldsError::NoInteger);
    };
    Ok(((left, right), size as usize))
}

// The integer at a key.
fn integer_at(map: &View<'_>, key: &str) -> Option<i64>
    ensures { MatchOption result (HasNoInteger key.now (view_value map.now))
        (HasInteger key.now (view_value map.now)) }
{
    match map.get_text(key) {
        Some(value) => value.as_i64(),
        None => None,
    }
}
