//! Sequences in slices, in readers that give one byte a read, and in one that fails.

use super::conformance_rows::{Row, rows_of, text_of};
use super::{Parts, bytes_of, limits};
use cbor_head::{Keys, Reason, Refusal};
use cbor_item::encode;
use cbor_reader::{KeyOrder, Sequence, SequenceItems, Tree};
use std::alloc::{AllocError, Global};
use std::io;
use std::io::{ErrorKind, Read};
use std::process::Abort;
use std::test::Fail;

// Inputs and limits; the refusal after the trees, or nothing if `None` follows; and the canonical
// bytes of the trees.
static RUNS: &str = "
| | | | nothing
000000 | bytes 1 | | 00 00 00 | 0, 0, 0, of a byte each
| bytes 0 | 2 TooLong at 0, read 0 | | no byte may be read
00 | bytes 0 | 2 TooLong at 0, read 0 | | no byte may be read
00a201000100 | | 11 RepeatedKey at 3, read 4 | 00 | 0, {1: 0, 1: 0}
00810118 | | 1 Truncated at 1, read 1 | 00 8101 | 0, [1], and a number that is cut off
18641903e8 | bytes 2 | 2 TooLong at 2, read 2 | 1864 | 100 in two bytes, then 1000 in three
9fffa05fff1801 | | | 80 a0 40 01 | [], {}, h'' in chunks, and 1 in two bytes
01ff01 | | 7 StrayBreak at 0, read 1 | 01 | a break where an item is due, and an item after it
";

// Whether a result is the tree with these canonical bytes.
fn is_tree(
    alloc: Global,
    outcome: Option<Result<Tree, Refusal>>,
    canonical: &[u8],
) -> Result<bool, AllocError> {
    match outcome {
        Some(Ok(tree)) => match encode(alloc, &tree, KeyOrder::Bytewise) {
            Ok(bytes) => Ok(bytes.as_slice() == canonical),
            Err(_) => Err(AllocError),
        },
        _ => Ok(false),
    }
}

// The refusal of a result; none for any other result.
fn refused<T: Drop>(outcome: Option<Result<T, Refusal>>) -> Option<Refusal> {
    match outcome {
        Some(Err(refusal)) => Some(refusal),
        _ => None,
    }
}

// The trees, then the refusal, then none, and none again.
fn follows<A: Abort, R: Read + Drop>(
    rt: &A,
    alloc: Global,
    row: &Row,
    reader: R,
) -> Result<(), Fail> {
    let mut sequence = Sequence::new(alloc, reader, row.limits);
    for tree in row.strict.split_whitespace() {
        let canonical = bytes_of(alloc, tree)?;
        assert!(rt;
            is_tree(alloc, sequence.next(), &canonical)?,
            "{}",
            row.line
        );
    }
    if !row.plain.is_empty() {
        let refusal = refused(sequence.next()).ok_or("no refusal")?;
        assert!(rt;
            text_of(alloc, refusal)?.as_str() == row.plain,
            "{}",
            row.line
        );
    }
    for _ in 0..2 {
        assert!(rt; sequence.next().is_none(), "{}", row.line);
        assert!(rt;
            sequence.next_strict(KeyOrder::Bytewise).is_none(),
            "{}",
            row.line
        );
    }
    Ok(())
}

#[test]
fn returns_trees(rt: HostRuntime) -> Result<(), Fail> {
    for row in &rows_of(rt.alloc(), RUNS)? {
        follows(&rt, rt.alloc(), row, row.input.as_slice())?;
        for part in [usize::MAX, 1] {
            let rest = row.input.as_slice();
            follows(&rt, rt.alloc(), row, Parts { rest, part })?;
        }
    }
    Ok(())
}

// No byte after an item is read, nor one after a refusal.
#[test]
fn leaves_what_follows(rt: HostRuntime) -> Result<(), Fail> {
    // [0, 1], 24, a break, 0
    let input: &[u8] = b"\x82\x00\x01\x18\x18\xff\x00";
    let mut reader = input;
    let mut items = SequenceItems::new(rt.alloc(), limits(&rt, 256, 1048576));
    assert!(rt; is_tree(rt.alloc(), items.next(&mut reader), b"\x82\x00\x01")?);
    assert!(rt; reader.len() == 4);
    assert!(rt; items.next_strict(&mut reader, KeyOrder::Bytewise) == Some(Ok(2)));
    assert!(rt; reader.len() == 2);
    let wanted = Some(Refusal::new(Reason::StrayBreak, 0, 1));
    assert!(rt; refused(items.next(&mut reader)) == wanted);
    assert!(rt; reader.len() == 1);
    assert!(rt; items.next(&mut reader).is_none());
    assert!(rt; items.next_strict(&mut reader, KeyOrder::Bytewise) == None);
    assert!(rt; reader.len() == 1);
    Ok(())
}

// 0, and 1 in two bytes.
#[test]
fn reads_strictly(rt: HostRuntime) -> Result<(), Fail> {
    for part in [usize::MAX, 1] {
        let rest = b"\x00\x18\x01";
        let reader = Parts { rest, part };
        let mut sequence = Sequence::new(rt.alloc(), reader, limits(&rt, 256, 1048576));
        assert!(rt; sequence.next_strict(KeyOrder::Bytewise) == Some(Ok(1)));
        let wanted = Some(Err(Refusal::new(Reason::NotShortest, 0, 2)));
        assert!(rt; sequence.next_strict(KeyOrder::Bytewise) == wanted);
        assert!(rt; sequence.next_strict(KeyOrder::Bytewise) == None);
        assert!(rt; sequence.next().is_none());
    }
    Ok(())
}

// {100: 0, -1: 0} has its keys in bytewise order, {-1: 0, 100: 0} in length-first order.
#[test]
fn mixes_calls(rt: HostRuntime) -> Result<(), Fail> {
    let rest = b"\x18\x01\xa2\x18\x64\x00\x20\x00\xa2\x20\x00\x18\x64\x00\xa2\x18\x64\x00\x20\x00";
    for part in [usize::MAX, 1] {
        let reader = Parts { rest, part };
        let mut sequence = Sequence::new(rt.alloc(), reader, limits(&rt, 256, 1048576));
        assert!(rt; is_tree(rt.alloc(), sequence.next(), b"\x01")?);
        assert!(rt; sequence.next_strict(KeyOrder::Bytewise) == Some(Ok(6)));
        assert!(rt; sequence.next_strict(KeyOrder::LengthFirst) == Some(Ok(6)));
        let wanted = Some(Err(Refusal::new(Reason::KeyOrder, 4, 5)));
        assert!(rt; sequence.next_strict(KeyOrder::LengthFirst) == wanted);
        assert!(rt; sequence.next().is_none());
    }
    Ok(())
}

// 0, and {[]: 0}, whose key must be an integer or a text.
#[test]
fn refuses_keys_of_other_kinds(rt: HostRuntime) -> Result<(), Fail> {
    let basic = limits(&rt, 256, 1048576).with_keys(Keys::IntegersAndTexts);
    let wanted = Refusal::new(Reason::KeyKind, 1, 2);
    for part in [usize::MAX, 1] {
        let rest = b"\x00\xa1\x80\x00";
        let mut sequence = Sequence::new(rt.alloc(), Parts { rest, part }, basic);
        assert!(rt; sequence.next_strict(KeyOrder::Bytewise) == Some(Ok(1)));
        assert!(rt; refused(sequence.next()) == Some(wanted));
        assert!(rt; sequence.next().is_none());
        let mut sequence = Sequence::new(rt.alloc(), Parts { rest, part }, basic);
        assert!(rt; is_tree(rt.alloc(), sequence.next(), b"\x00")?);
        assert!(rt; sequence.next_strict(KeyOrder::Bytewise) == Some(Err(wanted)));
        assert!(rt; sequence.next_strict(KeyOrder::Bytewise) == None);
    }
    Ok(())
}

// A reader of zeros that fails once, after this number of them.
#[derive(Drop)]
struct FailsOnce {
    before: usize,
    failed: bool,
    kind: ErrorKind,
}

impl Read for FailsOnce {
    fn read(&mut self, buffer: &mut [u8]) -> io::Result<usize> {
        if self.before == 0 && !self.failed {
            self.failed = true;
            return Err(io::Error::from(self.kind));
        }
        self.before = self.before.saturating_sub(1);
        match buffer {
            [] => Ok(0),
            [first, ..] => {
                *first = 0;
                Ok(1)
            }
        }
    }
}

// An item, the failure, and then none, though the reader would go on.
#[test]
fn stops_where_the_reader_fails(rt: HostRuntime) -> Result<(), Fail> {
    for kind in [ErrorKind::BrokenPipe, ErrorKind::Interrupted] {
        for before in 0..3 {
            let reader = FailsOnce {
                before,
                failed: false,
                kind,
            };
            let mut sequence = Sequence::new(rt.alloc(), reader, limits(&rt, 256, 1048576));
            for _ in 0..before {
                assert!(rt; is_tree(rt.alloc(), sequence.next(), b"\x00")?);
            }
            let wanted = Some(Refusal::new(Reason::Read, 0, 0));
            assert!(rt; refused(sequence.next()) == wanted);
            assert!(rt; sequence.next().is_none());
            assert!(rt; sequence.next_strict(KeyOrder::Bytewise) == None);
        }
    }
    Ok(())
}
