//! Each row of the conformance table, through every call. A call that is added to the crate gets a
//! test here that tries it on all rows, as the others do; those that read strictly are in
//! `conformance_strict`.

use super::bytes_of;
use super::conformance_rows::{
    BadRow, Cut, ORDERS, Row, by_order, canonical_of, is_item, is_refused, rows, text_of,
};
use super::conformance_table::PAIRS;
use bumpalo::Bump;
use cbor_head::{Limits, Refusal};
use cbor_item::{Tree, encode, same};
use cbor_reader::{
    ItemCanonicaliser, ItemCheck, KeyOrder, Side, canonicalise, check_valid, read_canonical,
    read_tree, read_view, same_meaning,
};
use std::alloc::Global;
use std::test::Fail;

#[test]
fn canonicalises(rt: HostRuntime) -> Result<(), Fail> {
    for row in &rows(rt.alloc())? {
        for &order in &ORDERS {
            let wanted = by_order(row.plain, order);
            let is_right = match canonicalise(rt.alloc(), &row.input, row.limits, order) {
                Ok(bytes) => {
                    !is_refused(wanted) && bytes == canonical_of(rt.alloc(), &row.input, wanted)?
                }
                Err(refusal) => text_of(rt.alloc(), refusal)?.as_str() == wanted,
            };
            assert!(rt; is_right, "{}", row.line);
        }
    }
    Ok(())
}

// The two orders in turn, so that each is used after the other.
#[test]
fn canonicalises_one_after_another(rt: HostRuntime) -> Result<(), Fail> {
    let mut items = ItemCanonicaliser::new(rt.alloc());
    for row in &rows(rt.alloc())? {
        for &order in &ORDERS {
            let alone = read_canonical(rt.alloc(), &row.input, row.limits, order);
            let is_same = match (items.canonicalise(&row.input, row.limits, order), alone) {
                (Ok((bytes, size)), Ok((wanted, wanted_size))) => {
                    bytes == wanted.as_slice() && size == wanted_size
                }
                (Err(refusal), Err(wanted)) => refusal == wanted,
                _ => false,
            };
            assert!(rt; is_same, "{}", row.line);
        }
    }
    Ok(())
}

#[test]
fn reads_trees(rt: HostRuntime) -> Result<(), Fail> {
    for row in &rows(rt.alloc())? {
        for way in [0, row.input.len()] {
            let mut reader = Cut::in_way(&row.input, way);
            let outcome = read_tree(rt.alloc(), &mut reader, row.limits);
            let taken = reader.taken(&row.input) as u64;
            let is_right = is_read_right(rt.alloc(), row, outcome, taken)?;
            assert!(rt; is_right, "{}", row.line);
        }
    }
    Ok(())
}

// Compared with the input in one piece, whose result `reads_trees` checks.
#[test]
fn reads_trees_cut_in_two(rt: HostRuntime) -> Result<(), Fail> {
    for row in &rows(rt.alloc())? {
        let whole = read_tree(rt.alloc(), &mut row.input.as_slice(), row.limits);
        for way in 1..row.input.len() {
            if row.is_tried_at(way) {
                let mut reader = Cut::in_way(&row.input, way);
                let outcome = read_tree(rt.alloc(), &mut reader, row.limits);
                let taken = reader.taken(&row.input) as u64;
                let is_taken = match &outcome {
                    Ok((_, count)) => *count == taken,
                    Err(refusal) => refusal.read == taken,
                };
                let is_right = is_taken && are_alike(&outcome, &whole);
                assert!(rt; is_right, "{}, cut at {way}", row.line);
            }
        }
    }
    Ok(())
}

#[test]
fn reads_views(rt: HostRuntime) -> Result<(), Fail> {
    for row in &rows(rt.alloc())? {
        let arena = Bump::new(rt.alloc());
        let (outcome, taken) = match read_view(rt.alloc(), &row.input, row.limits, &arena) {
            Ok((view, count)) => (Ok((view.to_tree(rt.alloc())?, count)), count),
            Err(refusal) => (Err(refusal), refusal.read),
        };
        let mut reader = row.input.as_slice();
        let read = read_tree(rt.alloc(), &mut reader, row.limits);
        assert!(rt; are_alike(&outcome, &read), "{}", row.line);
        let is_right = is_read_right(rt.alloc(), row, outcome, taken)?;
        assert!(rt; is_right, "{}", row.line);
    }
    Ok(())
}

#[test]
fn checks_slices(rt: HostRuntime) -> Result<(), Fail> {
    let mut items = ItemCheck::new(rt.alloc());
    for row in &rows(rt.alloc())? {
        let wanted = by_order(row.plain, KeyOrder::Bytewise);
        let checked = check_valid(rt.alloc(), &row.input, row.limits);
        let again = items.check(&row.input, row.limits);
        assert!(rt; again == checked, "{}, after others", row.line);
        let given = match checked {
            Ok(count) if wanted.starts_with("12 ") => {
                format!(in rt.alloc(); "12 Trailing at {count}, read {count}")?
            }
            Ok(count) => format!(in rt.alloc(); "taken {count}")?,
            Err(refusal) => text_of(rt.alloc(), refusal)?,
        };
        let whole = format!(in rt.alloc(); "taken {}", row.input.len())?;
        let is_right = match is_item(wanted) {
            true => given == whole,
            false => given.as_str() == wanted,
        };
        assert!(rt; is_right, "{}", row.line);
    }
    Ok(())
}

// Whether both are the same tree of the same size, or the same refusal.
fn are_alike(left: &Result<(Tree, u64), Refusal>, right: &Result<(Tree, u64), Refusal>) -> bool {
    match (left, right) {
        (Ok((tree, count)), Ok((other, size))) => count == size && same(tree, other),
        (Err(refusal), Err(other)) => refusal == other,
        _ => false,
    }
}

// Whether this is the tree or the refusal that a row expects, and this is the number of bytes
// consumed.
fn is_read_right(
    alloc: Global,
    row: &Row,
    outcome: Result<(Tree, u64), Refusal>,
    taken: u64,
) -> Result<bool, Fail> {
    let wanted = by_order(row.plain, KeyOrder::Bytewise);
    let (tree, count) = match outcome {
        Ok(read) => read,
        Err(refusal) => {
            let text = text_of(alloc, refusal)?;
            return Ok(text.as_str() == wanted && refusal.read == taken);
        }
    };
    if wanted.starts_with("12 ") {
        let trailing = format!(in alloc; "12 Trailing at {count}, read {count}")?;
        return Ok(trailing.as_str() == wanted && count == taken);
    }
    let is_whole = count == taken && count == row.input.len() as u64;
    Ok(is_whole && is_item(wanted) && is_tree_right(alloc, row, &tree)?)
}

// Whether a tree has the canonical bytes that a row expects. If they are too long the row does not
// give them.
fn is_tree_right(alloc: Global, row: &Row, tree: &Tree) -> Result<bool, Fail> {
    for &order in &ORDERS {
        let wanted = by_order(row.plain, order);
        let is_right = match encode(alloc, tree, order) {
            Ok(bytes) => is_refused(wanted) || bytes == canonical_of(alloc, &row.input, wanted)?,
            Err(_) => false,
        };
        if !is_right {
            return Ok(false);
        }
    }
    Ok(true)
}

// Each input with itself, and with its canonical bytes.
#[test]
fn compares_with_itself(rt: HostRuntime) -> Result<(), Fail> {
    for row in &rows(rt.alloc())? {
        let is_right = match same_meaning(rt.alloc(), &row.input, &row.input, row.limits) {
            Ok(same) => same && is_item(row.plain),
            Err((Side::Left, refusal)) => text_of(rt.alloc(), refusal)?.as_str() == row.plain,
            Err((Side::Right, _)) => false,
        };
        assert!(rt; is_right, "{}", row.line);
        for &order in &ORDERS {
            let wanted = by_order(row.plain, order);
            if !is_refused(wanted) {
                let bytes = canonical_of(rt.alloc(), &row.input, wanted)?;
                let onward = same_meaning(rt.alloc(), &row.input, &bytes, row.limits);
                let back = same_meaning(rt.alloc(), &bytes, &row.input, row.limits);
                assert!(rt; onward == Ok(true) && back == Ok(true), "{}", row.line);
            }
        }
    }
    Ok(())
}

#[test]
fn compares(rt: HostRuntime) -> Result<(), Fail> {
    for line in PAIRS.trim().lines() {
        let Some((left, right, wanted)) = pair_of(line) else {
            return Err(Fail::from(BadRow::Columns));
        };
        let left = bytes_of(rt.alloc(), left)?;
        let right = bytes_of(rt.alloc(), right)?;
        let Some(limits) = Limits::new(256, 1048576) else {
            return Err(Fail::from(BadRow::Limits));
        };
        let given = match same_meaning(rt.alloc(), &left, &right, limits) {
            Ok(true) => String::from_str(rt.alloc(), "same")?,
            Ok(false) => String::from_str(rt.alloc(), "different")?,
            Err((Side::Left, refusal)) => {
                format!(in rt.alloc(); "left {refusal}, read {}", refusal.read)?
            }
            Err((Side::Right, refusal)) => {
                format!(in rt.alloc(); "right {refusal}, read {}", refusal.read)?
            }
        };
        assert!(rt; given.as_str() == wanted, "{line}");
    }
    Ok(())
}

// The two inputs and the expected result of a pair.
fn pair_of(line: &str) -> Option<(&str, &str, &str)> {
    let (left, rest) = line.split_once('|')?;
    let (right, rest) = rest.split_once('|')?;
    let (outcome, _) = rest.split_once('|')?;
    Some((left.trim(), right.trim(), outcome.trim()))
}
