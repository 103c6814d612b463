//! What begins where an item is expected, or why it is refused. Slower than the fast functions, and
//! complete.

ghost use Rattle.std.specs.Prelude.{◌≡◌, ◌≤◌, ◌<◌, ◌+◌, ◌-◌, ◌^◌, true, false, length, MatchOption};
ghost use Rattle.cbor_head.specs.Verdict.{refusal};
ghost use Rattle.theory_verdicts.specs.PathKinds.{IsFitPrefix};
ghost use Rattle.cbor_parser.specs.declared.item_start.ItemStart.TheVariants as starts;
ghost use Rattle.cbor_parser.specs.inner.Items.{IsStart, IsTaken};
ghost use Rattle.cbor_parser.specs.inner.Begins.{BeginsUnrefused};
ghost use Rattle.cbor_parser.specs.inner.Faults.{IsRefusedStart, IsIndefiniteStart};
ghost use Rattle.cbor_parser.specs.Strings.{IsStringHead, IsStringWhole, IsStringFault};

use crate::chunk_refusal::chunks_fault;
use crate::container::Expected;
use crate::kinds::begins_other_kind;
use cbor_head::{
    Argument, FIRST_SIMPLE_IN_TWO_BYTES, Reason, Refusal, initial_byte_error, read_argument,
};
use cbor_text::check_text;

/// What is known of the position where an item is expected.
#[derive(Clone, Copy)]
pub(crate) struct Here {
    /// One more container may open.
    pub(crate) space: bool,
    /// A key is expected, and its kind is judged.
    pub(crate) is_key: bool,
    /// A break is allowed there.
    pub(crate) may_break: bool,
}

/// What begins where an item is expected.
#[derive(Clone, Copy)]
pub(crate) enum ItemStart {
    /// An item of this number of bytes.
    Leaf(usize),
    /// The head of a container: what is expected in it, how many members or pairs follow the first,
    /// and the number of bytes of the head.
    Opens(Expected, u64, usize),
    /// An opener of indefinite length, or a break.
    Indefinite,
    /// Nothing that is allowed there.
    Refused(Refusal),
}

/// What begins at this offset of the input, by the rules of the deterministic encoding (`is_strict`)
/// or by those of any valid item.
#[inline(never)]
pub(crate) fn item_start(rest: &[u8], at: usize, here: Here, is_strict: bool) -> ItemStart
    requires { at + length rest.now < 2 ^ 63 }
    ensures refused { IsRefusedStart is_strict rest.now at here result }
    ensures taken { is_strict ≡ true → here.may_break ≡ false → IsStart rest.now here.space result }
    ensures fits { IsTaken result → here.is_key ≡ true → IsFitPrefix rest.now }
    ensures begins { BeginsUnrefused here rest.now result }
{
    let end = at + rest.len();
    let Some((first, following)) = rest.split_first() else {
        return ItemStart::Refused(refusal_at(Reason::Truncated, end, end));
    };
    let (first, low) = (*first, *first % 32);
    if first == 0xff && here.may_break {
        return ItemStart::Indefinite;
    }
    if let Some(reason) = initial_byte_error(first, here.space) {
        return ItemStart::Refused(refusal_at(reason, at, at + 1));
    }
    if here.is_key && begins_other_kind(rest) {
        return ItemStart::Refused(refusal_at(Reason::KeyKind, at, at + 1));
    }
    if low == 31 {
        return indefinite_start(first, following, at, is_strict);
    }
    let Some(head) = read_argument(low, following) else {
        return ItemStart::Refused(refusal_at(Reason::Truncated, end, end));
    };
    if first == 0xf8 && head.number < FIRST_SIMPLE_IN_TWO_BYTES {
        return ItemStart::Refused(refusal_at(Reason::BadSimple, at + 1, at + 2));
    }
    let used = rest.len() - head.rest.len();
    if is_strict && !head.width.is_shortest(head.number) {
        return ItemStart::Refused(refusal_at(Reason::NotShortest, at, at + used));
    }
    if first < 0x40 || first >= 0xe0 {
        return ItemStart::Leaf(used);
    }
    if first < 0x80 {
        return match string_refusal(rest, head, at) {
            Some(refusal) => ItemStart::Refused(refusal),
            None => ItemStart::Leaf(used + head.number as usize),
        };
    }
    container_start(first, head.number, used)
}

/// A refusal with offsets given as `usize`.
pub(crate) fn refusal_at(reason: Reason, place: usize, read: usize) -> Refusal
    ensures { result ≡ refusal reason place read }
{
    Refusal::new(reason, place as u64, read as u64)
}

// What begins with this opener of a string, an array or a map of indefinite length; `following` follows
// it. By the strict rules it is refused; else a string's chunks are checked.
fn indefinite_start(first: u8, following: &[u8], at: usize, is_strict: bool) -> ItemStart
    requires { at + 1 + length following.now < 2 ^ 63 }
    ensures { IsIndefiniteStart is_strict first following.now at result }
{
    if is_strict {
        return ItemStart::Refused(refusal_at(Reason::Indefinite, at, at + 1));
    }
    let chunks = match first {
        0x5f => chunks_fault(false, following, at),
        0x7f => chunks_fault(true, following, at),
        _ => None,
    };
    match chunks {
        Some(refusal) => ItemStart::Refused(refusal),
        None => ItemStart::Indefinite,
    }
}

// The container with this head.
fn container_start(first: u8, number: u64, used: usize) -> ItemStart
    ensures tag { 192 ≤ first → result ≡ starts.Opens Expected.Item 0 used }
    ensures none { first < 192 → number ≡ 0 → result ≡ starts.Leaf used }
    ensures array { first < 160 → 0 < number → result ≡ starts.Opens Expected.Item (number - 1) used }
    ensures map { 160 ≤ first → first < 192 → 0 < number → result ≡ starts.Opens Expected.Key (number - 1) used }
{
    if first >= 0xc0 {
        return ItemStart::Opens(Expected::Item, 0, used);
    }
    if number == 0 {
        return ItemStart::Leaf(used);
    }
    let expected = if first < 0xa0 {
        Expected::Item
    } else {
        Expected::Key
    };
    ItemStart::Opens(expected, number - 1, used)
}

/// Why the string or chunk with this head is refused, by whichever rules its head is read.
#[inline(always)]
pub(crate) fn string_refusal(rest: &[u8], head: Argument<'_>, at: usize) -> Option<Refusal>
    requires place { at + length rest.now < 2 ^ 63 }
    requires head { IsStringHead rest.now head }
    ensures { MatchOption result (IsStringWhole rest.now head.entry)
        (IsStringFault rest.now head.entry at) }
{
    let end = at + rest.len();
    if head.number > head.rest.len() as u64 {
        return Some(refusal_at(Reason::Truncated, end, end));
    }
    let used = rest.len() - head.rest.len();
    let payload = &head.rest[..head.number as usize];
    let size = used + payload.len();
    if rest[0] >= 0x60 {
        if let Err(valid) = check_text(payload) {
            return Some(refusal_at(Reason::InvalidText, at + used + valid, at + size));
        }
    }
    None
}
