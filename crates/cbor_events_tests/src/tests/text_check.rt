//! Texts in pieces.

ghost use Rattle.std.specs.Prelude.{◌≡◌, ◌+◌, ◌^◌, ◌<◌, ◌++◌, length, MatchResult, IsUtf8};
ghost use Rattle.std.specs.Str.Lossy.{utf8_valid_len};

use cbor_events::TextCheck;
use std::alloc::Global;

// Two pieces are checked as one text. The contract shows what callers can conclude from those of
// `TextCheck`.
fn in_two(first: &[u8], second: &[u8]) -> Result<(), u64>
    requires { length first.now + length second.now < 2 ^ 64 }
    ensures { MatchResult result
        (λ _. IsUtf8 (first.now ++ second.now))
        (λ n. ¬ (IsUtf8 (first.now ++ second.now)) × (n ≡ utf8_valid_len (first.now ++ second.now))) }
{
    let mut check = TextCheck::new();
    check.push(first);
    check.push(second);
    check.end()
}

// The result of a check of a text in pieces of this size.
fn in_pieces(text: &[u8], size: usize) -> Result<(), u64>
    requires { 0 < size }
{
    let mut check = TextCheck::new();
    for piece in text.chunks(size) {
        if piece.len() as u64 > u64::MAX - check.pushed() {
            return check.end();
        }
        check.push(piece);
    }
    check.end()
}

// Each text, and, if it is not UTF-8, the length of its longest prefix that is.
static TEXTS: &str = "
| | nothing
49455446 | | IETF
c3bc | | U+00FC, U+6C34, U+10151
e6b0b4 | | U+00FC, U+6C34, U+10151
f0908591 | | U+00FC, U+6C34, U+10151
61c3bce6b0b4f09085917a | | U+00FC, U+6C34, U+10151
ff | 0 | a byte that begins no character
6162bf | 2 | a byte that begins no character
eda080 | 0 | the surrogate U+D800
41c080 | 1 | U+0000 in two bytes
41e6b0 | 1 | U+6C34 without its last byte, at the end and before a letter
41e6b041 | 1 | U+6C34 without its last byte, at the end and before a letter
e6b0b4e6 | 3 | U+6C34 without its last byte, at the end and before a letter
6162f09085 | 2 | U+10151 without its last byte
6162f09085ffbf | 2 | U+10151 without its last byte
f4908080 | 0 | past U+10FFFF
f0908591ffff | 4 | what is wrong first counts
c3bcc341ff | 2 | what is wrong first counts
30313233343536373839303132333435363738393031323334353637383930313233343536373839303132333435363738393031323334353637383930313233343536373839 | | more than one block of 64 bytes
3031323334353637383930313233343536373839303132333435363738393031323334353637383930313233343536373839303132333435363738393031e6b0b4f09085913738393031323334353637383930 | | more than one block of 64 bytes
30313233343536373839303132333435363738393031323334353637383930313233343536373839303132333435363738393031323334353637383930e6b0b4f09085913738393031323334353637383930ff39 | 82 | more than one block of 64 bytes
";

// A text, and the expected result of its check.
fn row_of(alloc: Global, line: &str) -> Option<(Vec<u8>, Result<(), u64>)> {
    let (digits, rest) = line.split_once('|')?;
    let (prefix, _) = rest.split_once('|')?;
    let outcome = match prefix.trim() {
        "" => Ok(()),
        length => Err(length.parse().ok()?),
    };
    Some((hex::decode(alloc, digits.trim()).ok()?, outcome))
}

#[test]
fn cuts_change_nothing(rt: HostRuntime) {
    for line in TEXTS.trim().lines() {
        let (text, want) = row_of(rt.alloc(), line).expect(&rt, "a row");
        for size in 1..6 {
            assert!(rt;
                in_pieces(&text, size) == want,
                "{line}, in pieces of {size}"
            );
        }
        for cut in 0..text.len() {
            let (first, second) = text.split_at(cut);
            assert!(rt; in_two(first, second) == want, "{line}, cut at {cut}");
        }
    }
}

#[test]
fn counts_pushed_bytes(rt: HostRuntime) {
    let mut check = TextCheck::new();
    check.push(b"\xe6");
    assert!(rt; check.end() == Err(0));
    check.push(b"");
    check.push(b"\xb0\xb4");
    assert!(rt; (check.pushed(), check.end()) == (3, Ok(())));
    check.push(b"\xff");
    check.push(b"\xe6\xb0\xb4");
    assert!(rt; (check.pushed(), check.end()) == (7, Err(3)));
}
