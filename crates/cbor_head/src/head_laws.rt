//! The laws of heads.

ghost use Rattle.std.specs.Prelude.{◌≡◌, ◌++◌, ℕ, List, Some};
ghost use Rattle.cbor_head.specs.Head.{IsHead, head};
ghost use Rattle.cbor_head.specs.declared.major.Major.{Major};
ghost use Rattle.cbor_head.specs.declared.width.Width.{Width};

use crate::Head;

/// A byte list begins with at most one definite head. So no two heads have the same bytes, and no
/// head's bytes are a proper prefix of another's.
pub fn one_head()
    ensures { (l m : Major) (v w : Width) (k n : ℕ) (x y : List ℕ)
        → IsHead l v k → IsHead m w n → head l v k ++ x ≡ head m w n ++ y
        → (l ≡ m) × (v ≡ w) × (k ≡ n) × (x ≡ y) }
{}

/// A head's bytes are read as that head.
pub fn read_back(head: &Head) -> Option<Head>
    ensures { result ≡ Some head.now }
{
    Head::read(&head.bytes())
}
