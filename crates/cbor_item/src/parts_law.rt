//! The law of what a builder of items is given and makes. This function has no code to run: its
//! purpose is its contract.

ghost use Rattle.std.specs.Prelude.{◌∷◌, []};
ghost use Rattle.cbor_head.specs.Value.{Value};
ghost use Rattle.cbor_item.specs.OpenValues.{Makes, parts_of, the_whole};

/// From nothing, each part of a value may follow those before it, and they make the value.
pub fn parts_make_the_value()
    ensures { (v : Value) → Makes v (parts_of v) (the_whole [] ∷ []) }
{}
