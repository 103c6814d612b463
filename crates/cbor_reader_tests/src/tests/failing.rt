//! Readers that fail once, at each offset, and then go on giving bytes: the failure is reported unless
//! the bytes before it decide the result already, and no read is repeated.

use super::conformance_rows::{ORDERS, Row, rows, rows_of, text_of};
use super::limits;
use cbor_head::{Limits, Reason, Refusal};
use cbor_reader::{KeyOrder, Sequence, Tree, read_strict, read_tree};
use std::alloc::Global;
use std::io;
use std::io::{ErrorKind, Read};
use std::test::Fail;

// A reader that gives at most `part` bytes a read, and fails once.
#[derive(Drop)]
struct Stumbling<'a> {
    rest: &'a [u8],
    part: usize,
    // The number of bytes that it gives before it fails; none once it has failed.
    until: Option<usize>,
    kind: ErrorKind,
}

impl<'a> Stumbling<'a> {
    // Two ways to fail: with reads of one byte, or of as many bytes as are requested.
    fn in_way(input: &'a [u8], way: usize, until: usize) -> Stumbling<'a> {
        let (part, kind) = match way {
            0 => (1, ErrorKind::Interrupted),
            _ => (usize::MAX, ErrorKind::BrokenPipe),
        };
        Stumbling {
            rest: input,
            part,
            until: Some(until),
            kind,
        }
    }
}

impl Read for Stumbling<'_> {
    fn read(&mut self, buf: &mut [u8]) -> io::Result<usize> {
        let mut n = buf.len().min(self.rest.len()).min(self.part);
        match self.until {
            Some(0) => {
                self.until = None;
                return Err(io::Error::from(self.kind));
            }
            Some(left) => {
                n = n.min(left);
                self.until = Some(left - n);
            }
            None => {}
        }
        buf[..n].copy_from_slice(&self.rest[..n]);
        self.rest = &self.rest[n..];
        Ok(n)
    }
}

// A result of `read_tree` with the size alone.
fn counted(outcome: Result<(Tree, u64), Refusal>) -> Result<u64, Refusal> {
    match outcome {
        Ok((_tree, count)) => Ok(count),
        Err(refusal) => Err(refusal),
    }
}

fn taken(outcome: Result<u64, Refusal>) -> u64 {
    match outcome {
        Ok(count) => count,
        Err(refusal) => refusal.read,
    }
}

// The expected result with a reader that fails at this offset, from the result with one that does not
// fail. It is asked for another byte if it has not given all bytes that the result needs; and once more
// if the input had ended, since the call could not know that.
fn expected(usual: Result<u64, Refusal>, place: u64) -> Result<u64, Refusal> {
    let asks_again = match usual {
        Err(refusal) => refusal.reason == Reason::Truncated && place == refusal.read,
        Ok(_) => false,
    };
    if place < taken(usual) || asks_again {
        Err(Refusal::at(Reason::Read, place))
    } else {
        usual
    }
}

// The result of a call by the plain rules, or by the strict rules in an order.
fn outcome<R: Read>(
    alloc: Global,
    reader: &mut R,
    limits: Limits,
    order: Option<KeyOrder>,
) -> Result<u64, Refusal> {
    match order {
        None => counted(read_tree(alloc, reader, limits)),
        Some(order) => read_strict(alloc, reader, limits, order),
    }
}

// Whether such a call, which returns `usual` without a failure, returns what is expected of a reader that
// fails at this offset, and consumes the number of bytes that it reports.
fn reports_failure(
    alloc: Global,
    row: &Row,
    order: Option<KeyOrder>,
    usual: Result<u64, Refusal>,
    place: usize,
) -> bool {
    for way in 0..2 {
        let mut reader = Stumbling::in_way(&row.input, way, place);
        let given = outcome(alloc, &mut reader, row.limits, order);
        let left = reader.rest.len() as u64;
        if given != expected(usual, place as u64)
            || left.checked_add(taken(given)) != Some(row.input.len() as u64)
        {
            return false;
        }
    }
    true
}

// The first offset at which such a call does not report a failure as expected, if there is one.
fn unreported(alloc: Global, row: &Row, order: Option<KeyOrder>) -> Option<usize> {
    let usual = outcome(alloc, &mut row.input.as_slice(), row.limits, order);
    for place in 0..=row.input.len() {
        if row.is_tried_at(place) && !reports_failure(alloc, row, order, usual, place) {
            return Some(place);
        }
    }
    None
}

// Whether a sequence reports the failure within its first item, and then gives no more, though the reader
// would go on.
fn ends_a_sequence(alloc: Global, input: &[u8], limits: Limits, place: usize) -> bool {
    let mut items = Sequence::new(alloc, Stumbling::in_way(input, 0, place), limits);
    let is_reported = match items.next() {
        Some(Err(refusal)) => refusal == Refusal::at(Reason::Read, place as u64),
        _ => false,
    };
    is_reported && items.next().is_none() && items.next_strict(KeyOrder::Bytewise).is_none()
}

// Each row of the conformance table, with the failure at each offset. The results without a failure are
// tested in `conformance`.
#[test]
fn reports_a_failure_at_each_offset(rt: HostRuntime) -> Result<(), Fail> {
    for row in &rows(rt.alloc())? {
        let at = unreported(rt.alloc(), row, None);
        assert!(rt; at.is_none(), "{}, failing at {at:?}", row.line);
    }
    Ok(())
}

#[test]
fn reports_a_failure_of_strict_reading(rt: HostRuntime) -> Result<(), Fail> {
    for row in &rows(rt.alloc())? {
        for &order in &ORDERS {
            let at = unreported(rt.alloc(), row, Some(order));
            assert!(rt; at.is_none(), "{}, failing at {at:?}", row.line);
        }
    }
    Ok(())
}

#[test]
fn ends_a_sequence_at_each_offset(rt: HostRuntime) -> Result<(), Fail> {
    for row in &rows(rt.alloc())? {
        let plain = outcome(rt.alloc(), &mut row.input.as_slice(), row.limits, None);
        for place in 0..=row.input.len() {
            if row.is_tried_at(place) && (place as u64) < taken(plain) {
                let is_ended = ends_a_sequence(rt.alloc(), &row.input, row.limits, place);
                assert!(rt; is_ended, "{}, failing at {place}", row.line);
            }
        }
    }
    Ok(())
}

// What a reader gives before it fails, the limits, and what `read_tree` returns.
static FAILURES: &str = "
| | 17 Read at 0, read 0 | | nothing
830102 | | 17 Read at 3, read 3 | | two of three members
61ff | | 10 InvalidText at 1, read 2 | | a text that is no UTF-8 is complete before the failure
1903 | bytes 2 | 2 TooLong at 2, read 2 | | no byte past the limit is asked for
";

#[test]
fn reports_what_comes_before_the_failure(rt: HostRuntime) -> Result<(), Fail> {
    let alloc = rt.alloc();
    for row in &rows_of(alloc, FAILURES)? {
        for way in 0..2 {
            let mut reader = Stumbling::in_way(&row.input, way, row.input.len());
            let is_reported = match read_tree(alloc, &mut reader, row.limits) {
                Ok(_) => false,
                Err(refusal) => text_of(alloc, refusal)?.as_str() == row.plain,
            };
            assert!(rt; is_reported, "{}", row.line);
        }
    }
    // {1: 0} is accepted without a further byte
    let mut reader = Stumbling::in_way(b"\xa1\x01\x00", 1, 3);
    let given = read_strict(
        alloc,
        &mut reader,
        limits(&rt, 256, 1048576),
        KeyOrder::Bytewise,
    );
    assert!(rt; given == Ok(3));
    Ok(())
}
