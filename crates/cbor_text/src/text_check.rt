//! A check that bytes which come in pieces are UTF-8.

ghost use Rattle.std.specs.Prelude.{◌≡◌, ℕ, ◌+◌, ◌^◌, ◌<◌, ◌≤◌, List, [], ◌++◌, length, MatchOption, MatchResult, IsUtf8};
ghost use Rattle.std.specs.Prelude.{true};
ghost use Rattle.std.specs.Str.{IsAscii};
ghost use Rattle.std.specs.Str.Lossy.{utf8_valid_len};
ghost use Rattle.arrayvec.specs.ArrayVec.{array_vec_len};
ghost use Rattle.cbor_text.specs.inner.TextCheck.{IsUnfinished, IsFixed, IsOpen, IsJudged, IsFilled};
ghost use Rattle.cbor_text.specs.TextCheck.{TextView, HasChecked};

use arrayvec::ArrayVec;
use std::marker::Model;

// Up to this length, bytes are checked one by one.
const SHORT: usize = 24;

/// Checks that bytes which come in pieces are UTF-8 as a whole, wherever they are cut. It allocates
/// nothing, and carries at most three bytes from one piece to the next.
#[derive(Drop)]
pub struct TextCheck {
    pushed: u64,
    // The unfinished character at the end of the bytes so far.
    carried: ArrayVec<u8, 3>,
    // The length of the longest valid prefix, once no further byte can make it longer.
    fault: Option<u64>,
}

impl Model for TextCheck {
    ghost Value = { TextView };

    ghost view = { λ c. record {
      pushed = c.pushed;
      inner = record { carried = c.carried.items; fault = c.fault };
    } };

    ghost invariant = { λ c. record {
      unfinished : IsUnfinished c.carried.items;
      within : array_vec_len c.carried ≤ c.pushed;
    } };
}

impl TextCheck {
    /// A check that was given no bytes.
    pub fn new() -> TextCheck
        ensures { HasChecked result [] }
    {
        TextCheck {
            pushed: 0,
            carried: ArrayVec::new(),
            fault: None,
        }
    }

    /// Checks the next bytes of the text. All pieces together may have at most 2^64 - 1 bytes.
    pub fn push(&mut self, piece: &[u8])
        requires { self.old.pushed + length piece.now < 2 ^ 64 }
        ensures checked { (bytes : List ℕ) → HasChecked self.old bytes
            → HasChecked self.new (bytes ++ piece.now) }
        ensures pushed { self.new.pushed ≡ self.old.pushed + length piece.now }
    {
        let before = self.pushed - self.carried.len() as u64;
        self.pushed += piece.len() as u64;
        let None = self.fault else {
            return;
        };
        if let Some(n) = go_on(&mut self.carried, piece) {
            self.fault = Some(before + n as u64);
        }
    }

    /// The number of bytes pushed.
    pub fn pushed(&self) -> u64
        ensures { result ≡ self.now.pushed }
    {
        self.pushed
    }

    /// Checks that all bytes pushed are UTF-8. The error is the length in bytes of their longest
    /// prefix that is; it ends at the end of a character.
    pub fn end(&self) -> Result<(), u64>
        ensures { (bytes : List ℕ) → HasChecked self.now bytes
            → MatchResult result
            (λ _. IsUtf8 bytes)
            (λ n. ¬ (IsUtf8 bytes) × (n ≡ utf8_valid_len bytes)) }
    {
        match self.fault {
            Some(n) => Err(n),
            None if self.carried.is_empty() => Ok(()),
            None => Err(self.pushed - self.carried.len() as u64),
        }
    }
}

// How much of some bytes is UTF-8.
#[derive(Clone, Copy)]
enum Prefix {
    Whole,
    // The first bytes, this number of them; the rest may begin a character.
    Open(usize),
    // The first bytes, this number of them, whatever follows.
    Fixed(usize),
}

// What the next bytes make of a character that was begun.
#[derive(Clone, Copy)]
enum Filled {
    // After this number of them a character ends.
    Past(usize),
    // The character is still unfinished.
    Short,
    // No character begins with these bytes.
    Never,
}

// Whether the bytes are few and all ASCII: it is faster to check them one by one.
#[inline(always)]
fn are_few_ascii(bytes: &[u8]) -> bool
    ensures { result ≡ true → IsAscii bytes.now }
{
    bytes.len() <= SHORT && bytes.iter().all(|byte| byte.is_ascii())
}

// How much of bytes that begin at a character's start is UTF-8.
#[inline(always)]
fn judge(bytes: &[u8]) -> Prefix
    ensures { IsJudged bytes.now result }
{
    if are_few_ascii(bytes) {
        return Prefix::Whole;
    }
    match simdutf8::compat::from_utf8(bytes) {
        Ok(_) => Prefix::Whole,
        Err(e) => match e.error_len() {
            None => Prefix::Open(e.valid_up_to()),
            Some(_) => Prefix::Fixed(e.valid_up_to()),
        },
    }
}

fn append<const N: usize>(to: &mut ArrayVec<u8, N>, bytes: &[u8])
    requires { array_vec_len to.old + length bytes.now ≤ N }
    ensures { to.new.items ≡ to.old.items ++ bytes.now }
{
    let _ = to.try_extend_from_slice(bytes);
}

// The carried bytes and then the next ones, together at most four bytes.
fn join(carried: &[u8], more: &[u8]) -> ArrayVec<u8, 4>
    requires { length carried.now + length more.now ≤ 4 }
    ensures { result.items ≡ carried.now ++ more.now }
{
    let mut joined = ArrayVec::new();
    append(&mut joined, carried);
    append(&mut joined, more);
    joined
}

// What `piece` makes of the character that `carried` begins. A character has at most four bytes, so
// no more of a long piece is read here.
#[inline(never)]
fn fill(carried: &[u8], piece: &[u8]) -> Filled
    requires short { length carried.now < 4 }
    requires some { 0 < length carried.now }
    requires unfinished { IsUnfinished carried.now }
    ensures { IsFilled carried.now piece.now result }
{
    let held = carried.len();
    let more = piece.len().min(4 - held);
    match judge(join(carried, &piece[..more]).as_slice()) {
        Prefix::Whole => Filled::Past(more),
        Prefix::Open(0) => Filled::Short,
        Prefix::Fixed(0) => Filled::Never,
        Prefix::Open(n) => Filled::Past(n - held),
        Prefix::Fixed(n) => Filled::Past(n - held),
    }
}

// Checks a piece that begins at a character's start, and carries its unfinished tail. Returns the
// length of its longest valid prefix if no further byte can make that longer.
#[inline(always)]
fn scan(carried: &mut ArrayVec<u8, 3>, piece: &[u8]) -> Option<usize>
    requires { carried.old.items ≡ [] }
    ensures found { MatchOption result
        (IsOpen piece.now carried.new.items)
        (λ n. IsFixed piece.now n) }
    ensures unfinished { IsUnfinished carried.new.items }
    ensures inside { MatchOption result (Unit {0}) (λ n. n ≤ length piece.now) }
    ensures fewer { length carried.new.items ≤ length piece.now }
{
    match judge(piece) {
        Prefix::Whole => None,
        Prefix::Open(n) => {
            append(carried, &piece[n..]);
            None
        }
        Prefix::Fixed(n) => Some(n),
    }
}

// Checks the carried bytes and the piece that follows them.
#[inline(always)]
fn go_on(carried: &mut ArrayVec<u8, 3>, piece: &[u8]) -> Option<usize>
    requires unfinished { IsUnfinished carried.old.items }
    requires space { length carried.old.items + length piece.now < 2 ^ 64 }
    ensures found { MatchOption result
        (IsOpen (carried.old.items ++ piece.now) carried.new.items)
        (λ n. IsFixed (carried.old.items ++ piece.now) n) }
    ensures unfinished { IsUnfinished carried.new.items }
    ensures inside { MatchOption result (Unit {0})
        (λ n. n ≤ length carried.old.items + length piece.now) }
    ensures fewer { length carried.new.items ≤ length carried.old.items + length piece.now }
{
    if carried.is_empty() {
        return scan(carried, piece);
    }
    let held = carried.len();
    match fill(carried.as_slice(), piece) {
        Filled::Past(n) => {
            carried.clear();
            match scan(carried, &piece[n..]) {
                None => None,
                Some(fault) => Some(held + n + fault),
            }
        }
        Filled::Short => {
            append(carried, piece);
            None
        }
        Filled::Never => Some(0),
    }
}
