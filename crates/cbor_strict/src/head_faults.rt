//! Complaints of the rules about a single head.

ghost use Rattle.std.specs.Prelude.{◌≡◌, MatchOption};
ghost use Rattle.theory_verdicts.specs.Reading.{IsHeadFault};

use cbor_head::{Reason, Width};

// The complaint of the strict rules about the head of an item. A head of a single byte is as short
// as possible, so its argument is not checked.
#[inline(always)]
pub(crate) fn fault_of(width: Width, argument: u64) -> Option<Reason>
    requires { (reason : Reason) → width ≡ Width.Direct → IsHeadFault width argument reason → ⊥ }
    ensures { MatchOption result ((reason : Reason) → IsHeadFault width argument reason → ⊥)
        (IsHeadFault width argument) }
{
    match width {
        Width::Direct => None,
        Width::Indefinite => Some(Reason::Indefinite),
        _ if width.is_shortest(argument) => None,
        _ => Some(Reason::NotShortest),
    }
}
