//! Each row of the conformance table, read strictly.

use super::conformance_rows::{Cut, ORDERS, Row, by_order, is_refused, rows, text_of};
use cbor_head::{Limits, Refusal};
use cbor_reader::{KeyOrder, StrictReader, check_canonical, read_strict};
use std::alloc::{AllocError, Global};
use std::test::Fail;

#[test]
fn reads_strictly(rt: HostRuntime) -> Result<(), Fail> {
    for row in &rows(rt.alloc())? {
        for &order in &ORDERS {
            let wanted = strict_text(rt.alloc(), row, order)?;
            let outcome = check_canonical(&row.input, row.limits, order);
            let taken = match outcome {
                Ok(count) => count,
                Err(refusal) => refusal.read,
            };
            let is_right = is_strict_right(rt.alloc(), wanted.as_str(), outcome, taken)?;
            assert!(rt; is_right, "{}", row.line);
            for way in 0..=row.input.len() {
                if row.is_tried_at(way) {
                    let mut reader = Cut::in_way(&row.input, way);
                    let outcome = read_strict(rt.alloc(), &mut reader, row.limits, order);
                    let taken = reader.taken(&row.input) as u64;
                    let is_right = is_strict_right(rt.alloc(), wanted.as_str(), outcome, taken)?;
                    assert!(rt; is_right, "{}", row.line);
                }
            }
        }
    }
    Ok(())
}

// The size or the refusal that the events end with, if two calls return the same; none if they do
// not end, or if more is stored than was read.
fn last_of(
    alloc: Global,
    reader: &mut Cut<'_>,
    limits: Limits,
    order: KeyOrder,
) -> Option<Result<u64, Refusal>> {
    let mut events = StrictReader::new(alloc, reader, limits, order);
    for _ in 0..10_000 {
        let outcome = match events.next() {
            Ok(Some(_)) => None,
            Ok(None) => Some(Ok(events.taken())),
            Err(refusal) => Some(Err(refusal)),
        };
        if events.spans() > events.open() || events.kept() > events.taken() {
            return None;
        }
        if let Some(last) = outcome {
            let again = match events.next() {
                Ok(Some(_)) => None,
                Ok(None) => Some(Ok(events.taken())),
                Err(refusal) => Some(Err(refusal)),
            };
            return again.filter(|again| *again == last);
        }
    }
    None
}

#[test]
fn reports_strict_events(rt: HostRuntime) -> Result<(), Fail> {
    for row in &rows(rt.alloc())? {
        for &order in &ORDERS {
            let wanted = strict_text(rt.alloc(), row, order)?;
            for way in [0, row.input.len()] {
                let mut reader = Cut::in_way(&row.input, way);
                let Some(outcome) = last_of(rt.alloc(), &mut reader, row.limits, order) else {
                    return Err(Fail::from("events that do not end"));
                };
                let taken = reader.taken(&row.input) as u64;
                let is_right = is_strict_right(rt.alloc(), wanted.as_str(), outcome, taken)?;
                assert!(rt; is_right, "{}", row.line);
            }
        }
    }
    Ok(())
}

// Whether this is the size or the refusal that is expected, and this is the number of bytes
// consumed.
fn is_strict_right(
    alloc: Global,
    wanted: &str,
    outcome: Result<u64, Refusal>,
    taken: u64,
) -> Result<bool, AllocError> {
    match outcome {
        Ok(count) => {
            let text = format!(in alloc; "taken {count}")?;
            Ok(text.as_str() == wanted && count == taken)
        }
        Err(refusal) => {
            let text = text_of(alloc, refusal)?;
            Ok(text.as_str() == wanted && refusal.read == taken)
        }
    }
}

// The expected result of the strict reader: its column, or else that of the plain rules.
fn strict_text(alloc: Global, row: &Row, order: KeyOrder) -> Result<String, AllocError> {
    let wanted = by_order(row.plain, order);
    if !row.strict.is_empty() {
        String::from_str(alloc, by_order(row.strict, order))
    } else if is_refused(wanted) {
        String::from_str(alloc, wanted)
    } else {
        format!(in alloc; "taken {}", row.input.len())
    }
}
