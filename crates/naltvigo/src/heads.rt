//! The heads that a caller puts before its own bytes.

ghost use Rattle.std.specs.Prelude.{◌≡◌, ◌≢◌, ◌⊎◌, ◌<◌, ◌≤◌, ℕ, List, IfSome, None};
ghost use Rattle.std.specs.Prelude.{length, take, drop};
ghost use Rattle.cbor_head.specs.Head.{IsHead, IsSimple, head_parts, major_number, shortest};
ghost use Rattle.cbor_head.specs.declared.major.Major.TheVariants.{Simple};
ghost use Rattle.naltvigo.specs.Heads.{HasHead, IsShortestHead};

use crate::buffer::give;
use crate::status::{BAD_HEAD, OK, TOO_SMALL};
use cbor_head::{Head, Major, is_simple};

/// Writes the shortest head of this kind, a major type, and this number to the prefix of `out`.
///
/// `needed` becomes the number of its bytes, 1, 2, 3, 5 or 9, if the status is `OK` or `TOO_SMALL`,
/// else 0. Unless it is `OK`, `out` is unchanged. It allocates nothing.
#[unsafe(no_mangle)]
pub extern "C" fn naltvigo_put_head_raw(
    kind: u32,
    number: u64,
    out: &mut [u8],
    needed: &mut usize,
) -> u32
    ensures written { result ≡ OK → IsShortestHead kind number (take needed.new out.new) }
    ensures space { result ≡ OK → needed.new ≤ length out.old }
    ensures too_small { result ≡ TOO_SMALL → (x : List ℕ) × IsShortestHead kind number x
        × (needed.new ≡ length x) × (length out.old < length x) }
    ensures bad_head { result ≡ BAD_HEAD → ¬ HasHead kind number }
    ensures has_head { result ≢ BAD_HEAD → HasHead kind number }
    // OK, TOO_SMALL, BAD_HEAD
    ensures statuses { (result ≡ 0) ⊎ (result ≡ 2) ⊎ (result ≡ 12) }
    ensures kept { (result ≢ OK → out.new ≡ out.old)
        × (drop needed.new out.new ≡ drop needed.new out.old) }
    ensures no_count { result ≡ BAD_HEAD → needed.new ≡ 0 }
{
    *needed = 0;
    let Some(head) = shortest_head(kind, number) else {
        return BAD_HEAD;
    };
    let bytes = head.bytes();
    give(bytes.as_slice(), out, needed)
}

// The shortest head of the major type of this number; none where that has no head of this argument.
fn shortest_head(kind: u32, number: u64) -> Option<Head>
    ensures kind { IfSome result (λ h. kind ≡ major_number h.major) }
    ensures head { IfSome result (λ h. h ≡ head_parts h.major (shortest number) number) }
    ensures is_head { IfSome result (λ h. IsHead h.major (shortest number) number) }
    ensures some { IfSome result (λ h. HasHead kind number) }
    ensures none { result ≡ None → ¬ HasHead kind number }
{
    let major = major_with(kind, number)?;
    Some(Head::shortest(major, number))
}

// The major type of this number; none where it has no head of this argument.
#[inline(always)]
pub(crate) fn major_with(kind: u32, number: u64) -> Option<Major>
    ensures kind { IfSome result (λ m. kind ≡ major_number m) }
    ensures simple { IfSome result (λ m. m ≡ Simple → IsSimple number) }
    ensures some { IfSome result (λ m. HasHead kind number) }
    ensures none { result ≡ None → ¬ HasHead kind number }
{
    if kind > 7 || (kind == 7 && !is_simple(number)) {
        return None;
    }
    Some(Major::of_number(kind as u8))
}
