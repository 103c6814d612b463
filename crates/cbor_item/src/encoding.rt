//! Canonical bytes.

ghost use Rattle.std.specs.Prelude.{◌≡◌, ◌↔◌, IsSome, IsTrue, IfSome, IfOk, IfErr, OnOk, OnErr, option_map};
ghost use Rattle.cbor_head.specs.Canonical.{canonical};
ghost use Rattle.cbor_head.specs.Value.{IsInRange, IsValid};
ghost use Rattle.cbor_builder.specs.Built.{LeavesIfDistinct, TakesPart};
ghost use Rattle.theory_values.specs.Parts.{IsInContainer, close};
ghost use Rattle.cbor_item.specs.Sent.{no_memory};
ghost use Rattle.cbor_item.specs.View.{view};
ghost use Rattle.cbor_item.specs.inner.Rest.{left};
ghost use Rattle.cbor_item.specs.inner.Walk.{IsBegun};

use crate::node::{Node, NodeKind};
use crate::rest::Rest;
use crate::tree::Tree;
use cbor_builder::{CanonBuilder, Repeat};
use cbor_head::{KeyOrder, Major, Reason, Refusal};
use cbor_memory::Memory;
use std::alloc::{AllocError, Global};

/// The canonical bytes (RFC 8949, sections 4.2.1 and 4.2.3). It fails only if memory runs
/// out.
pub fn encode(alloc: Global, tree: &Tree, order: KeyOrder) -> Result<Vec<u8>, Refusal>
    ensures bytes { IfOk result (λ bytes. bytes.items ≡ canonical order (view tree.now)) }
    ensures refused { IfErr result (λ refusal. refusal ≡ no_memory) }
{
    encode_in(&mut Memory::new(), alloc, tree, order)
}

/// Encodes as [`encode`] does, and records in `memory` whether a request for memory was refused. It fails only if one was.
/// Pass a new `Memory` to learn whether this call was refused memory: if `memory` records a refusal already, the clause
/// `request` says nothing.
pub fn encode_in(
    memory: &mut Memory,
    alloc: Global,
    tree: &Tree,
    order: KeyOrder,
) -> Result<Vec<u8>, Refusal>
    ensures request { OnErr result (IsTrue memory.new) }
    ensures kept { OnOk result (memory.new ≡ memory.old) }
    ensures bytes { IfOk result (λ bytes. bytes.items ≡ canonical order (view tree.now)) }
    ensures refused { IfErr result (λ refusal. refusal ≡ no_memory) }
{
    match encode_distinct(memory, alloc, tree.item(), order) {
        Ok(Some(bytes)) => Ok(bytes),
        Ok(None) => unreachable!(),
        Err(_) => Err(Refusal::at(Reason::Memory, 0)),
    }
}

// The canonical bytes, or none if a map in the node, at any depth, has two equal keys.
//
// What is open is in a list and not on the stack, so a node may have any depth.
pub(crate) fn encode_distinct<N: Node>(
    memory: &mut Memory,
    alloc: Global,
    node: &N,
    order: KeyOrder,
) -> Result<Option<Vec<u8>>, AllocError>
    requires { IsInRange (N.value node.now) }
    ensures kept { OnOk result (memory.new ≡ memory.old) }
    ensures refused { OnErr result (IsTrue memory.new) }
    ensures valid { IfOk result (λ bytes. IsSome bytes ↔ IsValid (N.value node.now)) }
    ensures bytes { IfOk result (λ bytes.
        IfSome bytes (λ bytes. bytes.items ≡ canonical order (N.value node.now))) }
{
    let mut builder = CanonBuilder::new(alloc, order);
    let mut rest = Rest::One(node);
    let mut outer = Vec::new(alloc);
    'nodes: loop {
        match rest.next() {
            Some((next, following)) => {
                rest = following;
                if let Some(content) = begin(memory, &mut builder, next)? {
                    memory.push(&mut outer, rest)?;
                    rest = content;
                }
            }
            None => {
                let Some(following) = outer.pop() else {
                    break;
                };
                if end_if_distinct(memory, &mut builder)?.is_some() {
                    return Ok(None);
                }
                rest = following;
            }
        }
    }
    Ok(Some(builder.finish()))
}

// Ends what is open. A refused request is recorded.
fn end_if_distinct(
    memory: &mut Memory,
    builder: &mut CanonBuilder,
) -> Result<Option<Repeat>, AllocError>
    requires { IsInContainer builder.old.open_levels }
    ensures kept { OnOk result (memory.new ≡ memory.old) }
    ensures refused { OnErr result (IsTrue memory.new) }
    ensures ends { LeavesIfDistinct result builder.old builder.new
        (close builder.old.order builder.old.open_levels) }
{
    let done = builder.end_if_distinct();
    memory.noted(done, builder.memory())
}

// Adds a node that holds no other. Begins one that does, and returns what it holds. A refused request is recorded.
fn begin<'a, N: Node>(
    memory: &mut Memory,
    builder: &mut CanonBuilder,
    node: &'a N,
) -> Result<Option<Rest<'a, N>>, AllocError>
    requires takes { TakesPart builder.old.open_levels }
    requires in_range { IsInRange (N.value node.now) }
    ensures kept { OnOk result (memory.new ≡ memory.old) }
    ensures refused { OnErr result (IsTrue memory.new) }
    ensures order { IfOk result (λ _. builder.new.order ≡ builder.old.order) }
    ensures begun { IfOk result (λ content. IsBegun builder.old.order (N.value node.now)
        builder.old.open_levels builder.new.open_levels (option_map (left N.value) content)) }
{
    let done = begin_part(builder, node);
    memory.noted(done, builder.memory())
}

// The same for the builder alone.
fn begin_part<'a, N: Node>(
    builder: &mut CanonBuilder,
    node: &'a N,
) -> Result<Option<Rest<'a, N>>, AllocError>
    requires takes { TakesPart builder.old.open_levels }
    requires in_range { IsInRange (N.value node.now) }
    ensures refused { OnErr result (IsTrue builder.new.refused) }
    ensures order { IfOk result (λ _. builder.new.order ≡ builder.old.order) }
    ensures begun { IfOk result (λ content. IsBegun builder.old.order (N.value node.now)
        builder.old.open_levels builder.new.open_levels (option_map (left N.value) content)) }
{
    match node.kind() {
        NodeKind::Unsigned(n) => builder.leaf(Major::Unsigned, n)?,
        NodeKind::Negative(n) => builder.leaf(Major::Negative, n)?,
        NodeKind::Bytes(bytes) => builder.string(Major::Bytes, bytes)?,
        NodeKind::Text(text) => builder.string(Major::Text, text.as_bytes())?,
        NodeKind::Array(members) => {
            builder.begin(Major::Array, members.len() as u64)?;
            return Ok(Some(Rest::Members(members)));
        }
        NodeKind::Map(pairs) => {
            builder.begin(Major::Map, pairs.len() as u64)?;
            return Ok(Some(Rest::Pairs(pairs)));
        }
        NodeKind::Tag(n, content) => {
            builder.begin(Major::Tag, n)?;
            return Ok(Some(Rest::One(content)));
        }
        NodeKind::Simple(number) => builder.leaf(Major::Simple, u64::from(number))?,
    }
    Ok(None)
}
