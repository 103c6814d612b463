//! Writers that stop.

use super::EIGHT_KEYS;
use super::words::tree_of;
use cbor_head::{Reason, Refusal};
use cbor_item::{KeyOrder, encode_to, write_whole};
use std::io;
use std::io::{Error, ErrorKind, Write};
use std::test::Fail;

// Accepts at most `step` bytes a write. Once, when it holds `space` of them, it fails or accepts
// none, and then continues: a write that is tried again is seen.
#[derive(Drop)]
struct Cup {
    held: Vec<u8>,
    space: usize,
    step: usize,
    fails: bool,
    stopped: bool,
}

impl Write for Cup {
    fn write(&mut self, buf: &[u8]) -> io::Result<usize> {
        if self.held.len() == self.space && !self.stopped {
            self.stopped = true;
            if self.fails {
                return Err(Error::from(ErrorKind::Interrupted));
            }
            return Ok(0);
        }
        let mut count = buf.len().min(self.step);
        if !self.stopped && self.held.len() < self.space {
            count = count.min(self.space - self.held.len());
        }
        self.held.extend_from_slice(&buf[..count])?;
        Ok(count)
    }

    fn flush(&mut self) -> io::Result<()> {
        Ok(())
    }
}

#[test]
fn writers_stop_at_each_place(rt: HostRuntime) -> Result<(), Fail> {
    let alloc = rt.alloc();
    let tree = tree_of(alloc, EIGHT_KEYS)?;
    // {10: 2, 100: 3, -1: 4, "z": 5, "aa": 1, [100]: 6, [-1]: 7, false: 8}
    let bytes =
        b"\xa8\x0a\x02\x18\x64\x03\x20\x04\x61\x7a\x05\x62\x61\x61\x01\x81\x18\x64\x06\x81\x20\x07\xf4\x08";
    for space in 0..bytes.len() + 1 {
        for (step, fails) in [(1, false), (1, true), (100, false), (100, true)] {
            let mut cup = Cup {
                held: Vec::new(alloc),
                space,
                step,
                fails,
                stopped: false,
            };
            let want = if space < bytes.len() {
                Err(Refusal::new(Reason::Write, space as u64, 0))
            } else {
                Ok(24)
            };
            assert!(rt; encode_to(alloc, &tree, KeyOrder::Bytewise, &mut cup) == want);
            assert!(rt; cup.held.as_slice() == &bytes[..space]);
        }
    }
    Ok(())
}

#[test]
fn writes_all(rt: HostRuntime) -> Result<(), Fail> {
    let alloc = rt.alloc();
    let mut cup = Cup {
        held: Vec::new(alloc),
        space: 5,
        step: 2,
        fails: true,
        stopped: false,
    };
    assert!(rt; write_whole(&mut cup, b"abcde") == Ok(()));
    assert!(rt; cup.held.as_slice() == b"abcde".as_slice());
    assert!(rt; write_whole(&mut cup, b"f") == Err(0));
    assert!(rt; write_whole(&mut cup, b"gh") == Ok(()));
    assert!(rt; cup.held.as_slice() == b"abcdegh".as_slice());
    Ok(())
}

// [1, 2, 3], to a writer that accepts two bytes and then fails.
#[test]
fn writes_what_came_before_the_failure(rt: HostRuntime) -> Result<(), Fail> {
    let alloc = rt.alloc();
    let tree = tree_of(alloc, "1 2 3 a:3")?;
    for step in [1, 100] {
        let mut cup = Cup {
            held: Vec::new(alloc),
            space: 2,
            step,
            fails: true,
            stopped: false,
        };
        let want = Err(Refusal::new(Reason::Write, 2, 0));
        assert!(rt; encode_to(alloc, &tree, KeyOrder::Bytewise, &mut cup) == want);
        assert!(rt; cup.held.as_slice() == b"\x83\x01".as_slice());
    }
    Ok(())
}
