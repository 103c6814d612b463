//! The open parts of an item that is being built.

ghost use Rattle.std.specs.Prelude.{◌≡◌, IsTrue, OnOk, OnErr, IfOk};
ghost use Rattle.cbor_head.specs.declared.major.Major.TheVariants as majors;
ghost use Rattle.cbor_builder.specs.Built.{IsContainer};
ghost use Rattle.cbor_item.specs.OpenValues.{CanHold, CanEnd, with_member, opened, closed};
ghost use Rattle.cbor_item.specs.View.{view};
ghost use Rattle.cbor_item.specs.inner.Levels.{level_value, HasSpace};

use crate::dropping::drop_deep;
use crate::item::Item;
use cbor_head::Major;
use cbor_memory::Memory;
use std::alloc::{AllocError, Global};

/// An open part, with its finished members.
#[derive(Drop)]
pub(crate) enum Level {
    // The outermost: the item, once it is complete.
    Whole(Option<Item>),
    Array(Vec<Item>),
    // The pairs, and the key that waits for its value.
    Map(Vec<(Item, Item)>, Option<Item>),
    // The number, and the content once it is complete.
    Tag(u64, Option<Item>),
}

impl Level {
    // The part that begins; the number is a tag's number.
    pub(crate) fn begun(alloc: Global, major: Major, number: u64) -> Level
        requires { IsContainer major }
        ensures { level_value result ≡ opened major number }
    {
        match major {
            Major::Array => Level::Array(Vec::new(alloc)),
            Major::Map => Level::Map(Vec::new(alloc), None),
            _ => Level::Tag(number, None),
        }
    }

    // Adds one more member. If memory runs out, the member is dropped.
    pub(crate) fn put(&mut self, memory: &mut Memory, item: Item) -> Result<(), AllocError>
        requires { CanHold (level_value self.old) }
        ensures kept { OnOk result (memory.new ≡ memory.old) }
        ensures refused { OnErr result (IsTrue memory.new) }
        ensures given { OnOk result (level_value self.new ≡ with_member (view item) (level_value self.old)) }
    {
        if let Err(refused) = self.make_space(memory) {
            drop_deep(item);
            return Err(refused);
        }
        self.take(item);
        Ok(())
    }

    fn make_space(&mut self, memory: &mut Memory) -> Result<(), AllocError>
        ensures kept { OnOk result (memory.new ≡ memory.old) }
        ensures refused { OnErr result (IsTrue memory.new) }
        ensures same { level_value self.new ≡ level_value self.old }
        ensures space { OnOk result (HasSpace self.new) }
    {
        match self {
            Level::Array(items) => memory.reserve(items, 1),
            Level::Map(pairs, _) => memory.reserve(pairs, 1),
            Level::Whole(_) | Level::Tag(..) => Ok(()),
        }
    }

    fn take(&mut self, item: Item)
        requires holds { CanHold (level_value self.old) }
        requires space { HasSpace self.old }
        ensures { level_value self.new ≡ with_member (view item) (level_value self.old) }
    {
        match self {
            Level::Whole(whole) => *whole = Some(item),
            Level::Array(items) => items.push_reserved(item),
            Level::Map(pairs, key) => match key.take() {
                Some(first) => pairs.push_reserved((first, item)),
                None => *key = Some(item),
            },
            Level::Tag(_, content) => *content = Some(item),
        }
    }

    // The item of the part that ends.
    pub(crate) fn ended(self, memory: &mut Memory, alloc: Global) -> Result<Item, AllocError>
        requires { CanEnd (level_value self) }
        ensures kept { OnOk result (memory.new ≡ memory.old) }
        ensures refused { OnErr result (IsTrue memory.new) }
        ensures item { IfOk result (λ item. view item ≡ closed (level_value self)) }
    {
        match self {
            Level::Array(items) => Ok(Item::Array(items)),
            Level::Map(pairs, _) => Ok(Item::Map(pairs)),
            Level::Tag(number, Some(content)) => match memory.boxed(alloc, content) {
                Ok(content) => Ok(Item::Tag(number, content)),
                Err(content) => {
                    drop_deep(content);
                    Err(AllocError)
                }
            },
            _ => unreachable!(),
        }
    }

    // Drops the part, however deep its members nest.
    pub(crate) fn drop_deep(self) {
        match self {
            Level::Whole(Some(item)) | Level::Tag(_, Some(item)) => drop_deep(item),
            Level::Array(items) => drop_deep(Item::Array(items)),
            Level::Map(pairs, key) => {
                drop_deep(Item::Map(pairs));
                if let Some(key) = key {
                    drop_deep(key);
                }
            }
            _ => {}
        }
    }
}
