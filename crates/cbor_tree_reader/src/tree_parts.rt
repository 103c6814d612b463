//! The parts of an item, given to a builder of trees.

ghost use Rattle.std.specs.Prelude.{◌≡◌, IsTrue, OnOk, OnErr};
ghost use Rattle.cbor_item.specs.OpenValues.{TakesValue, open_levels};
ghost use Rattle.cbor_item.specs.View.{view};
ghost use Rattle.cbor_tree_reader.specs.inner.PlainParts.{IsLeafMajor, leaf_value};
ghost use Rattle.cbor_tree_reader.specs.TreeValues.{IsForTree, values_with};

use crate::item_part::ItemPart;
use cbor_head::{Major, Simple};
use cbor_item::{Item, TreeBuilder};
use cbor_memory::Memory;
use std::alloc::AllocError;

// Gives one part. The bytes of a string move into the tree.
pub(crate) fn give_to_tree(
    memory: &mut Memory,
    tree: &mut TreeBuilder,
    part: ItemPart,
) -> Result<(), AllocError>
    requires fits { IsForTree part }
    requires tree { TakesValue (open_levels tree.old) }
    ensures kept { OnOk result (memory.new ≡ memory.old) }
    ensures refused { OnErr result (IsTrue memory.new) }
    ensures given { OnOk result (open_levels tree.new ≡ values_with part (open_levels tree.old)) }
{
    let done = match part {
        ItemPart::Leaf(major, argument) => tree.leaf(leaf_item(major, argument)),
        ItemPart::String(true, content) => {
            // It was found to be UTF-8.
            let text = unsafe { String::from_utf8_unchecked(content) };
            tree.leaf(Item::Text(text))
        }
        ItemPart::String(false, content) => tree.leaf(Item::Bytes(content)),
        ItemPart::Begin(major, number) => tree.begin(major, number),
        ItemPart::Break => Ok(()),
    };
    memory.noted(done, tree.memory())
}

// An integer or a simple value.
fn leaf_item(major: Major, argument: u64) -> Item
    requires { IsLeafMajor major argument }
    ensures { view result ≡ leaf_value major argument }
{
    match major {
        Major::Negative => Item::Negative(argument),
        Major::Simple => match Simple::new(argument as u8) {
            Some(simple) => Item::Simple(simple),
            None => unreachable!(),
        },
        _ => Item::Unsigned(argument),
    }
}
