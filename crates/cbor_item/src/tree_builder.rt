//! Items from their parts, without recursion.

ghost use Rattle.std.specs.Prelude.{◌≡◌, ◌∷◌, [], IsTrue, OnOk, OnErr, false};
ghost use Rattle.cbor_head.specs.Value.{Value};
ghost use Rattle.cbor_builder.specs.Built.{IsContainer};
ghost use Rattle.cbor_item.specs.OpenValues.{the_whole, opened, give, close, run, parts_of};
ghost use Rattle.cbor_item.specs.OpenValues.{open_levels, TakesValue, MayEnd, IsWhole};
ghost use Rattle.cbor_item.specs.View.{view};

use crate::item::Item;
use crate::tree_level::Level;
use cbor_head::Major;
use cbor_memory::Memory;
use std::alloc::{AllocError, Global};
use std::marker::Model;

/// Builds an item (RFC 8949, section 3) from its parts in their order. What is open is in a
/// list, so a deep item needs memory and no stack. The pairs of a map stay in the order in which
/// they arrived. Memory is allocated for parts that arrived, never for a length in a head. After
/// a call that ran out of memory the builder may only be dropped. It is dropped without
/// recursion, as a [`Tree`](crate::Tree) is.
///
/// ```
/// // {1: [2]}
/// let mut builder = TreeBuilder::new(alloc);
/// builder.begin(Major::Map, 0)?;
/// builder.leaf(Item::Unsigned(1))?;
/// builder.begin(Major::Array, 0)?;
/// builder.leaf(Item::Unsigned(2))?;
/// builder.end()?;
/// builder.end()?;
/// let item = builder.finish();
/// ```
pub struct TreeBuilder {
    alloc: Global,
    memory: Memory,
    top: Level,
    // What is open around it, the innermost last.
    below: Vec<Level>,
}

impl Model for TreeBuilder {
    ghost use Rattle.cbor_item.specs.OpenValues.{Building};
    ghost use Rattle.cbor_item.specs.declared.item.Item.{Item};
    ghost use Rattle.cbor_item.specs.contracts.item.Item as e;
    ghost use Rattle.std.specs.Coded.{codes};

    ghost Value = { Building Item };

    ghost coded = { Prim.hlevel (codes, e.the_row.coded) };

    ghost use Rattle.cbor_item.specs.inner.Levels.{open_items};

    ghost view = { open_items };
}

impl TreeBuilder {
    /// A builder without any part. Allocates nothing.
    pub fn new(alloc: Global) -> TreeBuilder
        ensures open { open_levels result ≡ the_whole [] ∷ [] }
        ensures refused { result.refused ≡ false }
    {
        TreeBuilder {
            alloc,
            memory: Memory::new(),
            top: Level::Whole(None),
            below: Vec::new(alloc),
        }
    }

    /// The requests for memory since the builder was made. One of them was refused if a call has returned an error.
    pub fn memory(&self) -> &Memory
        ensures { result.now ≡ self.now.refused }
    {
        &self.memory
    }

    /// Adds a complete member: one without members, or one that was built before.
    pub fn leaf(&mut self, item: Item) -> Result<(), AllocError>
        requires takes { TakesValue (open_levels self.old) }
        ensures kept { OnOk result (self.new.refused ≡ self.old.refused) }
        ensures refused { OnErr result (IsTrue self.new.refused) }
        ensures given { OnOk result (open_levels self.new ≡ give (view item) (open_levels self.old)) }
    {
        self.top.put(&mut self.memory, item)
    }

    /// Begins an array, a map or a tag. The number is a tag's number.
    pub fn begin(&mut self, major: Major, number: u64) -> Result<(), AllocError>
        requires kind { IsContainer major }
        requires takes { TakesValue (open_levels self.old) }
        ensures kept { OnOk result (self.new.refused ≡ self.old.refused) }
        ensures refused { OnErr result (IsTrue self.new.refused) }
        ensures opened { OnOk result (open_levels self.new ≡ opened major number ∷ open_levels self.old) }
    {
        self.memory.reserve(&mut self.below, 1)?;
        let inner = Level::begun(self.alloc, major, number);
        let outer = std::mem::replace(&mut self.top, inner);
        self.below.push_reserved(outer);
        Ok(())
    }

    /// Ends the array, map or tag.
    pub fn end(&mut self) -> Result<(), AllocError>
        requires container { MayEnd (open_levels self.old) }
        ensures kept { OnOk result (self.new.refused ≡ self.old.refused) }
        ensures refused { OnErr result (IsTrue self.new.refused) }
        ensures closed { OnOk result (open_levels self.new ≡ close (open_levels self.old)) }
    {
        let Some(outer) = self.below.pop() else {
            unreachable!()
        };
        let inner = std::mem::replace(&mut self.top, outer);
        let ended = inner.ended(&mut self.memory, self.alloc)?;
        self.top.put(&mut self.memory, ended)
    }

    /// Returns the item, once it is complete. Allocates nothing.
    pub fn finish(self) -> Item
        requires whole { IsWhole (open_levels self) }
        ensures item { (v : Value) → open_levels self ≡ the_whole (v ∷ []) ∷ [] → view result ≡ v }
        ensures made { (v : Value)
            → open_levels self ≡ run (parts_of v) (the_whole [] ∷ []) → view result ≡ v }
    {
        let TreeBuilder {
            alloc: _,
            memory: _,
            top,
            below: _,
        } = self;
        match top {
            Level::Whole(Some(item)) => item,
            _ => unreachable!(),
        }
    }
}

impl Drop for TreeBuilder {
    fn drop(self) {
        let TreeBuilder {
            alloc: _,
            memory: _,
            top,
            below,
        } = self;
        top.drop_deep();
        for level in below {
            level.drop_deep();
        }
    }
}
