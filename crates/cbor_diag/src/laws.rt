//! The laws of diagnostic text. These functions compute nothing: their purpose is their contracts.

ghost use Rattle.std.specs.Prelude.{◌≡◌, ◌++◌, ◌↔◌, ℕ, List};
ghost use Rattle.cbor_head.specs.Value.{Value, IsInRange};
ghost use Rattle.cbor_item.specs.View.{view};
ghost use Rattle.cbor_diag.specs.Follows.{Ends};
ghost use Rattle.cbor_diag.specs.IndentedText.{indented};
ghost use Rattle.cbor_diag.specs.Text.{text};

use cbor_item::Tree;

/// A text determines its value, pair for pair in order, and where it ends within a longer text:
/// before anything except a digit or an opening parenthesis. So values have equal texts exactly if
/// they are equal.
pub fn text_determines_the_value()
    ensures reported { (v w : Value) (x y : List ℕ) → IsInRange v → IsInRange w → Ends x → Ends y
        → text v ++ x ≡ text w ++ y → (v ≡ w) × (x ≡ y) }
    ensures equal { (v w : Value) → IsInRange v → IsInRange w → text v ≡ text w ↔ v ≡ w }
{}

/// The text with one member or pair a line determines the value, at any level.
pub fn indented_text_determines_the_value()
    ensures reported { (i j : ℕ) (v w : Value) (x y : List ℕ) → IsInRange v → IsInRange w
        → Ends x → Ends y → indented i v ++ x ≡ indented j w ++ y → (v ≡ w) × (x ≡ y) }
    ensures equal { (i : ℕ) (v w : Value) → IsInRange v → IsInRange w
        → indented i v ≡ indented i w ↔ v ≡ w }
{}

/// Trees have equal texts exactly if their items have equal values, pair for pair in order.
pub fn texts_distinguish_trees(left: &Tree, right: &Tree)
    ensures one_line { text (view left.now) ≡ text (view right.now)
        ↔ view left.now ≡ view right.now }
    ensures lines { indented 0 (view left.now) ≡ indented 0 (view right.now)
        ↔ view left.now ≡ view right.now }
{
    // Items of trees are in range.
    let _left = left.item();
    let _right = right.item();
}
