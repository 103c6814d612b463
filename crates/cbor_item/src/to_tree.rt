//! Items and trees of views.

ghost use Rattle.std.specs.Prelude.{◌≡◌, ◌≤◌, ◌∷◌, IsTrue, IfOk, IfErr, OnOk, OnErr, option_map};
ghost use Rattle.cbor_head.specs.Value.{depth, IsInRange, IsValid};
ghost use Rattle.cbor_head.specs.declared.limits.TheConstants.{MAX_DEPTH};
ghost use Rattle.cbor_item.specs.Sent.{no_memory};
ghost use Rattle.cbor_item.specs.OpenValues.{open_levels, TakesValue, MayEnd, give, close, opened};
ghost use Rattle.cbor_builder.specs.Built.{IsContainer};
ghost use Rattle.cbor_item.specs.View.{view as value_of};
ghost use Rattle.cbor_item.specs.ViewValue.{view_value};
ghost use Rattle.cbor_item.specs.inner.Rest.{left};
ghost use Rattle.cbor_item.specs.inner.TreeWalk.{IsBegun};

use crate::item::Item;
use crate::node::{Node, NodeKind};
use crate::parts_law::parts_make_the_value;
use crate::rest::Rest;
use crate::tree::Tree;
use crate::tree_builder::TreeBuilder;
use crate::view::View;
use cbor_head::{Major, Reason, Refusal, Simple};
use cbor_memory::Memory;
use std::alloc::{AllocError, Global};

impl View<'_> {
    /// Copies the item, with all that it holds. The number of a `Simple` must be a simple
    /// value's: in any view that was read it is.
    pub fn to_item(&self, alloc: Global) -> Result<Item, AllocError>
        requires { IsInRange (view_value self.now) }
        ensures { IfOk result (λ item. value_of item ≡ view_value self.now) }
    {
        self.to_item_in(&mut Memory::new(), alloc)
    }

    /// Copies the item as [`to_item`](View::to_item) does, and records in `memory` whether a request for memory was
    /// refused. It fails only if one was. Pass a new `Memory` to learn whether this call was refused memory: if `memory`
    /// records a refusal already, the clause `request` says nothing.
    pub fn to_item_in(&self, memory: &mut Memory, alloc: Global) -> Result<Item, AllocError>
        requires { IsInRange (view_value self.now) }
        ensures request { OnErr result (IsTrue memory.new) }
        ensures kept { OnOk result (memory.new ≡ memory.old) }
        ensures item { IfOk result (λ item. value_of item ≡ view_value self.now) }
    {
        item_of(memory, alloc, self)
    }

    /// Copies the item into a tree. It fails only if memory runs out.
    pub fn to_tree(&self, alloc: Global) -> Result<Tree, Refusal>
        requires depth { depth (view_value self.now) ≤ MAX_DEPTH }
        requires in_range { IsInRange (view_value self.now) }
        requires valid { IsValid (view_value self.now) }
        ensures tree { IfOk result (λ tree. value_of tree ≡ view_value self.now) }
        ensures refused { IfErr result (λ f. f ≡ no_memory) }
    {
        self.to_tree_in(&mut Memory::new(), alloc)
    }

    /// Copies the item as [`to_tree`](View::to_tree) does, and records in `memory` whether a request for memory was
    /// refused. It fails only if one was. Pass a new `Memory` to learn whether this call was refused memory: if `memory`
    /// records a refusal already, the clause `request` says nothing.
    pub fn to_tree_in(&self, memory: &mut Memory, alloc: Global) -> Result<Tree, Refusal>
        requires depth { depth (view_value self.now) ≤ MAX_DEPTH }
        requires in_range { IsInRange (view_value self.now) }
        requires valid { IsValid (view_value self.now) }
        ensures request { OnErr result (IsTrue memory.new) }
        ensures kept { OnOk result (memory.new ≡ memory.old) }
        ensures tree { IfOk result (λ tree. value_of tree ≡ view_value self.now) }
        ensures refused { IfErr result (λ f. f ≡ no_memory) }
    {
        match item_of(memory, alloc, self) {
            Ok(item) => Ok(Tree::from_valid(item)),
            Err(_) => Err(Refusal::at(Reason::Memory, 0)),
        }
    }
}

// What is open is in a list and not on the stack, so a node may have any depth.
fn item_of<N: Node>(memory: &mut Memory, alloc: Global, node: &N) -> Result<Item, AllocError>
    requires { IsInRange (N.value node.now) }
    ensures kept { OnOk result (memory.new ≡ memory.old) }
    ensures refused { OnErr result (IsTrue memory.new) }
    ensures item { IfOk result (λ item. value_of item ≡ N.value node.now) }
{
    parts_make_the_value();
    let mut builder = TreeBuilder::new(alloc);
    let mut rest = Rest::One(node);
    let mut outer = Vec::new(alloc);
    'nodes: loop {
        match rest.next() {
            Some((next, following)) => {
                rest = following;
                if let Some(content) = begin(memory, alloc, &mut builder, next)? {
                    memory.push(&mut outer, rest)?;
                    rest = content;
                }
            }
            None => {
                let Some(following) = outer.pop() else {
                    break;
                };
                end(memory, &mut builder)?;
                rest = following;
            }
        }
    }
    Ok(builder.finish())
}

// Adds a node that holds no other. Begins one that does, and returns what it holds.
fn begin<'a, N: Node>(
    memory: &mut Memory,
    alloc: Global,
    builder: &mut TreeBuilder,
    node: &'a N,
) -> Result<Option<Rest<'a, N>>, AllocError>
    requires takes { TakesValue (open_levels builder.old) }
    requires in_range { IsInRange (N.value node.now) }
    ensures kept { OnOk result (memory.new ≡ memory.old) }
    ensures refused { OnErr result (IsTrue memory.new) }
    ensures begun { IfOk result (λ content. IsBegun (N.value node.now) (open_levels builder.old)
        (open_levels builder.new) (option_map (left N.value) content)) }
{
    match node.kind() {
        NodeKind::Unsigned(number) => leaf(memory, builder, Item::Unsigned(number))?,
        NodeKind::Negative(number) => leaf(memory, builder, Item::Negative(number))?,
        NodeKind::Bytes(content) => {
            let copy = memory.copied(alloc, content)?;
            leaf(memory, builder, Item::Bytes(copy))?;
        }
        NodeKind::Text(content) => {
            let copy = memory.copied_text(alloc, content)?;
            leaf(memory, builder, Item::Text(copy))?;
        }
        NodeKind::Array(members) => {
            open(memory, builder, Major::Array, 0)?;
            return Ok(Some(Rest::Members(members)));
        }
        NodeKind::Map(pairs) => {
            open(memory, builder, Major::Map, 0)?;
            return Ok(Some(Rest::Pairs(pairs)));
        }
        NodeKind::Tag(number, content) => {
            open(memory, builder, Major::Tag, number)?;
            return Ok(Some(Rest::One(content)));
        }
        NodeKind::Simple(number) => match Simple::new(number) {
            Some(simple) => leaf(memory, builder, Item::Simple(simple))?,
            None => unreachable!(),
        },
    }
    Ok(None)
}

// Adds a complete member. A refused request is recorded, as in the next two.
fn leaf(memory: &mut Memory, builder: &mut TreeBuilder, item: Item) -> Result<(), AllocError>
    requires { TakesValue (open_levels builder.old) }
    ensures kept { OnOk result (memory.new ≡ memory.old) }
    ensures refused { OnErr result (IsTrue memory.new) }
    ensures given { OnOk result (open_levels builder.new ≡ give (value_of item) (open_levels builder.old)) }
{
    let done = builder.leaf(item);
    memory.noted(done, builder.memory())
}

fn open(
    memory: &mut Memory,
    builder: &mut TreeBuilder,
    major: Major,
    number: u64,
) -> Result<(), AllocError>
    requires kind { IsContainer major }
    requires takes { TakesValue (open_levels builder.old) }
    ensures kept { OnOk result (memory.new ≡ memory.old) }
    ensures refused { OnErr result (IsTrue memory.new) }
    ensures opened { OnOk result (open_levels builder.new ≡ opened major number ∷ open_levels builder.old) }
{
    let done = builder.begin(major, number);
    memory.noted(done, builder.memory())
}

fn end(memory: &mut Memory, builder: &mut TreeBuilder) -> Result<(), AllocError>
    requires { MayEnd (open_levels builder.old) }
    ensures kept { OnOk result (memory.new ≡ memory.old) }
    ensures refused { OnErr result (IsTrue memory.new) }
    ensures closed { OnOk result (open_levels builder.new ≡ close (open_levels builder.old)) }
{
    let done = builder.end();
    memory.noted(done, builder.memory())
}
