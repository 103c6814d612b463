//! Items of bounded depth without equal keys.

ghost use Rattle.std.specs.Prelude.{◌≡◌, ◌≤◌, IsTrue, IfOk, IfErr, OnOk};
ghost use Rattle.cbor_head.specs.Value.{depth, IsInRange, IsValid};
ghost use Rattle.cbor_head.specs.declared.limits.TheConstants.{MAX_DEPTH};
ghost use Rattle.cbor_item.specs.Refused.{Refuses};
ghost use Rattle.cbor_item.specs.View.{view};

use crate::dropping::drop_deep;
use crate::encoding::encode_distinct;
use crate::item::Item;
use crate::within::is_within;
use cbor_head::{KeyOrder, Reason};
use cbor_memory::Memory;
use std::alloc::Global;
use std::marker::Model;

/// An item of depth at most [`MAX_DEPTH`] in which no map has two equal keys (RFC 8949, section 5.6).
/// It is dropped without recursion, which allocates nothing.
pub struct Tree {
    item: Item,
}

impl Model for Tree {
    ghost use Rattle.std.specs.Prelude.{◌≤◌};
    ghost use Rattle.cbor_head.specs.Value.{depth, IsInRange, IsValid};
    ghost use Rattle.cbor_head.specs.declared.limits.TheConstants.{MAX_DEPTH};
    ghost use Rattle.cbor_item.specs.View.{view as value_of};
    ghost use Rattle.cbor_item.specs.declared.item.Item.{Item};
    ghost use Rattle.cbor_item.specs.contracts.item.Item as e;
    ghost use Rattle.std.specs.Coded.{codes};

    ghost Value = { Item };

    ghost coded = { Prim.hlevel (codes, e.the_row.coded) };

    ghost view = { λ t. t.item };

    ghost invariant = { λ t. (depth (value_of t.item) ≤ MAX_DEPTH)
        × IsInRange (value_of t.item) × IsValid (value_of t.item) };
}

impl Tree {
    /// Makes a tree of the item. If it is not one, the item is returned with a reason: `TooDeep` if it is
    /// deeper than `MAX_DEPTH`, else `RepeatedKey` if a map has two equal keys, else `Memory`. Memory may
    /// run out before equal keys are found.
    pub fn of(alloc: Global, item: Item) -> Result<Tree, (Item, Reason)>
        ensures tree { IfOk result (λ tree. tree ≡ item) }
        ensures accepted { IfOk result
            (λ _. (depth (view item) ≤ MAX_DEPTH) × IsInRange (view item) × IsValid (view item)) }
        ensures given_back { IfErr result (λ e. e.0 ≡ item) }
        ensures refused { IfErr result (λ e. Refuses (view item) e.1) }
    {
        Tree::of_in(&mut Memory::new(), alloc, item)
    }

    /// Makes a tree as [`of`](Tree::of) does, and records in `memory` whether a request for memory was refused. The
    /// reason is `Memory` only if one was. Pass a new `Memory` to learn whether this call was refused memory: if `memory`
    /// records a refusal already, the clause `request` says nothing.
    pub fn of_in(memory: &mut Memory, alloc: Global, item: Item) -> Result<Tree, (Item, Reason)>
        ensures request { IfErr result (λ e. e.1 ≡ Reason.Memory → IsTrue memory.new) }
        ensures kept { OnOk result (memory.new ≡ memory.old) }
        ensures tree { IfOk result (λ tree. tree ≡ item) }
        ensures accepted { IfOk result
            (λ _. (depth (view item) ≤ MAX_DEPTH) × IsInRange (view item) × IsValid (view item)) }
        ensures given_back { IfErr result (λ e. e.0 ≡ item) }
        ensures refused { IfErr result (λ e. Refuses (view item) e.1) }
    {
        if !is_within(&item) {
            return Err((item, Reason::TooDeep));
        }
        match encode_distinct(memory, alloc, &item, KeyOrder::Bytewise) {
            Ok(Some(_)) => Ok(Tree { item }),
            Ok(None) => Err((item, Reason::RepeatedKey)),
            Err(_) => Err((item, Reason::Memory)),
        }
    }

    /// Makes a tree of an item without checking it, for a reader that has counted the depth and compared
    /// the keys.
    pub fn from_valid(item: Item) -> Tree
        requires depth { depth (view item) ≤ MAX_DEPTH }
        requires in_range { IsInRange (view item) }
        requires valid { IsValid (view item) }
        ensures { result ≡ item }
    {
        Tree { item }
    }

    /// The item.
    pub fn item(&self) -> &Item
        ensures item { result.now ≡ self.now }
        ensures depth { depth (view self.now) ≤ MAX_DEPTH }
        ensures in_range { IsInRange (view self.now) }
        ensures valid { IsValid (view self.now) }
    {
        &self.item
    }

    /// Takes the item out of the tree. Allocates nothing.
    pub fn into_item(self) -> Item
        ensures item { result ≡ self }
        ensures depth { depth (view self) ≤ MAX_DEPTH }
        ensures in_range { IsInRange (view self) }
        ensures valid { IsValid (view self) }
    {
        let Tree { item } = self;
        item
    }
}

impl Drop for Tree {
    fn drop(self) {
        drop_deep(self.into_item());
    }
}
