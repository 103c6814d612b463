//! A whole item that is in no key, from a slice.

ghost use Rattle.std.specs.Prelude.{◌≡◌, ◌<◌, IfSome, ℕ, List, true, false};
ghost use Rattle.cbor_head.specs.Limits.{Bounds};
ghost use Rattle.cbor_head.specs.Complaint.{strict};
ghost use Rattle.cbor_machine.specs.NextEvent.{ItemEventsView};
ghost use Rattle.theory_verdicts.specs.Readers.{IsRead};
ghost use Rattle.cbor_strict.specs.inner.LastKeys.{view_value};
ghost use Rattle.cbor_strict.specs.inner.OpenItems.{HasEnded, Agrees};
ghost use Rattle.cbor_strict.specs.inner.WholeItem.{IsWholeEnded};

use super::OpenItems;
use crate::last_keys::Expected;
use crate::strict_slice::check_canonical;
use cbor_head::Limits;

impl OpenItems {
    /// Whether the next bytes are in a key that is not complete, or is not begun.
    #[inline(always)]
    pub fn is_in_key(&self) -> bool
        ensures outside { result ≡ false → (view_value self.now.keys).open_keys ≡ 0 }
        ensures inside { result ≡ true → 0 < (view_value self.now.keys).open_keys }
    {
        self.keys.is_inside()
    }

    /// The size in bytes of the item that the input begins with, if its bytes are canonical within
    /// these limits. It may return `None` for any input: then the caller only loses a fast path.
    pub fn canonical_item(&self, input: &[u8], limits: Limits) -> Option<u64>
        ensures { IfSome result (λ count. IsRead limits (strict self.now.order) input.now count) }
    {
        match check_canonical(input, limits, self.order) {
            Ok(count) => Some(count),
            Err(_) => None,
        }
    }

    /// Ends an item that was consumed at once and is in no key, and all containers except this
    /// number.
    pub fn end_whole_item(&mut self, open: usize)
        requires { IsWholeEnded self.old «open» }
        ensures order { self.new.order ≡ self.old.order }
        ensures agrees { (b : Bounds) (e : ItemEventsView) (t : List ℕ) → HasEnded self.old b e t
            → «open» ≡ e.machine.open_count → Agrees self.new b e t }
    {
        self.keys.close(open);
        if let Expected::Value = self.keys.expected() {
            self.keys.end_value();
        }
    }
}
