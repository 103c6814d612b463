//! A writer: how much was put into a buffer, and whether that failed.

ghost use Rattle.std.specs.Prelude.{◌≡◌, ◌≢◌, ◌⊎◌, ◌+◌, ◌++◌, ℕ, List, [], length};
ghost use Rattle.cbor_head.specs.Head.{IsSimple, head, shortest_head};
ghost use Rattle.cbor_head.specs.declared.width.Width.TheVariants.{Indefinite};
ghost use Rattle.cbor_head.specs.declared.major.Major.TheVariants.{Simple, Bytes, Text, Array, Map};

use cbor_head::Major;

/// The status of a writer that has put everything into its buffer.
pub const OK: u32 = 0;
/// The status of a writer that had no space for all of it.
pub const TOO_SMALL: u32 = 2;

/// How much was put into a buffer, and whether that failed.
///
/// The fields are plain numbers, so that callers in other languages can store a writer. A copy continues
/// from the state that it was copied in. The calls are safe whatever the fields are. Each call gets the
/// same buffer, which the caller does not change in between.
#[derive(Clone, Copy, Debug, PartialEq, Eq)]
pub struct Writer {
    /// The number of bytes that were put, including those for which there was no space; at most
    /// `usize::MAX`.
    pub needed: usize,
    /// `OK`, `TOO_SMALL`, or the first other failure.
    pub status: u32,
}

impl Writer {
    ghost use Rattle.cbor_writer.specs.Parts.{an_integer, a_head, a_string, an_opening, an_end, an_item};
    ghost use Rattle.cbor_writer.specs.Writing.{HasPut, Appends, Puts, Fails};

    /// A writer that has put nothing.
    pub const fn new() -> Writer
        ensures { (buffer : List ℕ) → HasPut [] 0 buffer result }
    {
        Writer {
            needed: 0,
            status: OK,
        }
    }

    /// Puts the shortest head: an integer, a tag, a simple value, or the beginning of an array or map with
    /// a count.
    #[inline(always)]
    pub fn put_head(&mut self, buffer: &mut [u8], major: Major, number: u64)
        requires { major ≡ Simple → IsSimple number }
        ensures { Puts (a_head major number) buffer.old buffer.new self.old self.new }
    {
        self.append_headed(buffer, major, number, &[]);
    }

    /// Puts an integer.
    #[inline(always)]
    pub fn put_integer(&mut self, buffer: &mut [u8], number: i64)
        ensures { Puts (an_integer number) buffer.old buffer.new self.old self.new }
    {
        if number < 0 {
            self.put_head(buffer, Major::Negative, number.unsigned_abs() - 1);
        } else {
            self.put_head(buffer, Major::Unsigned, number as u64);
        }
    }

    /// Puts a string.
    #[inline(always)]
    pub fn put_string(&mut self, buffer: &mut [u8], major: Major, bytes: &[u8])
        requires { (major ≡ Bytes) ⊎ (major ≡ Text) }
        ensures { Puts (a_string major bytes.now) buffer.old buffer.new self.old self.new }
    {
        self.append_headed(buffer, major, bytes.len() as u64, bytes);
    }

    /// Puts the beginning of an array or map without a count.
    #[inline(always)]
    pub fn put_opening(&mut self, buffer: &mut [u8], major: Major)
        requires { (major ≡ Array) ⊎ (major ≡ Map) }
        ensures { Puts (an_opening major) buffer.old buffer.new self.old self.new }
    {
        self.append(buffer, &[32 * major.number() + 31], &[]);
    }

    /// Puts the end of an array or map that has no count.
    #[inline(always)]
    pub fn put_end(&mut self, buffer: &mut [u8])
        ensures { Puts an_end buffer.old buffer.new self.old self.new }
    {
        self.append(buffer, &[0xff], &[]);
    }

    /// Puts an item, given by its encoded bytes.
    #[inline(always)]
    pub fn put_item(&mut self, buffer: &mut [u8], item: &[u8])
        ensures { Puts (an_item item.now) buffer.old buffer.new self.old self.new }
    {
        self.append(buffer, &[], item);
    }

    /// Records a failure that more space would not fix. The first one stays.
    #[inline(always)]
    pub fn fail(&mut self, failure: u32)
        requires { failure ≢ 0 }
        ensures { Fails failure self.old self.new }
    {
        if self.status == OK || self.status == TOO_SMALL {
            self.status = failure;
        }
    }

    // Appends the shortest head, and these bytes after it. Each width has an append of its own, so that
    // the head is written in one piece.
    #[inline(always)]
    fn append_headed(&mut self, buffer: &mut [u8], major: Major, n: u64, bytes: &[u8])
        ensures { Appends (shortest_head major n ++ bytes.now) buffer.old buffer.new self.old self.new }
    {
        let first = 32 * major.number();
        if n < 24 {
            self.append(buffer, &[first + n as u8], bytes);
        } else if n < 0x100 {
            self.append(buffer, &[first + 24, n as u8], bytes);
        } else if n < 0x1_0000 {
            let [a, b] = (n as u16).to_be_bytes();
            self.append(buffer, &[first + 25, a, b], bytes);
        } else if n < 0x1_0000_0000 {
            let [a, b, c, d] = (n as u32).to_be_bytes();
            self.append(buffer, &[first + 26, a, b, c, d], bytes);
        } else {
            let [a, b, c, d, e, f, g, h] = n.to_be_bytes();
            self.append(buffer, &[first + 27, a, b, c, d, e, f, g, h], bytes);
        }
    }

    // Appends a head, and these bytes after it, if there is space for both.
    #[inline(always)]
    fn append(&mut self, buffer: &mut [u8], head: &[u8], bytes: &[u8])
        ensures { Appends (head.now ++ bytes.now) buffer.old buffer.new self.old self.new }
    {
        let count = head.len() + bytes.len();
        if self.needed <= buffer.len() && count <= buffer.len() - self.needed {
            let middle = self.needed + head.len();
            let end = middle + bytes.len();
            buffer[self.needed..middle].copy_from_slice(head);
            buffer[middle..end].copy_from_slice(bytes);
            self.needed = end;
            return;
        }
        self.needed = self.needed.saturating_add(count);
        if self.status == OK {
            self.status = TOO_SMALL;
        }
    }
}
