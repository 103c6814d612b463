//! Views from their parts, without recursion.

ghost use Rattle.std.specs.Prelude.{◌≡◌, ◌∷◌, [], OnOk, OnErr, IfOk, IsTrue, Some, false};
ghost use Rattle.std.specs.Prelude.{MatchResult};
ghost use Rattle.cbor_head.specs.Value.{Value, bytes, text};
ghost use Rattle.cbor_builder.specs.Built.{IsContainer};
ghost use Rattle.cbor_item.specs.OpenValues.{the_whole, opened, give, close, run, parts_of};
ghost use Rattle.cbor_item.specs.OpenValues.{TakesValue, MayEnd, IsWhole, CanEnd, closed};
ghost use Rattle.cbor_item.specs.ViewValue.{view_value, open_levels, open_value};
ghost use Rattle.cbor_item.specs.inner.ViewLevels.{open_view, Begins, outer_members, outer_pairs};

use crate::view::View;
use crate::view_level::Level;
use bumpalo::Bump;
use cbor_head::Major;
use cbor_memory::Memory;
use std::alloc::{AllocError, Global};
use std::marker::Model;

/// Builds a view from its parts in their order, as `TreeBuilder` builds an item. What is open is
/// in lists of the builder, so a deep item needs memory and no stack. Members, and the joined
/// chunks of a string, go into the arena once, when they are complete. After a call that ran out
/// of memory the builder may only be dropped.
#[derive(Drop)]
pub struct ViewBuilder<'a> {
    arena: &'a Bump,
    memory: Memory,
    top: Level<'a>,
    // What is open around it, the innermost last.
    below: Vec<Level<'a>>,
    // The finished members of the open arrays, and the finished pairs of the open maps, those of
    // the innermost last.
    members: Vec<View<'a>>,
    pairs: Vec<(View<'a>, View<'a>)>,
}

impl<'a> Model for ViewBuilder<'a> {
    ghost use Rattle.std.specs.Prelude.{◌∷◌, reverse};
    ghost use Rattle.cbor_item.specs.OpenValues.{Building};
    ghost use Rattle.cbor_item.specs.declared.view.View.{View};
    ghost use Rattle.cbor_item.specs.inner.ViewLevels.{open_views, AllBegin};
    ghost use Rattle.cbor_item.specs.contracts.view.View as e;
    ghost use Rattle.std.specs.Coded.{codes};
    ghost use denote.Signature.{static_lft};

    ghost Value = { Building View };

    ghost coded = { Prim.hlevel (codes, (e.the_row static_lft).coded) };

    ghost view = { λ b. record {
      items = open_views (b.top ∷ reverse b.below.items) b.members.items b.pairs.items;
      refused = b.memory;
    } };

    ghost invariant = { λ b.
        AllBegin (b.top ∷ reverse b.below.items) b.members.items b.pairs.items };
}

impl<'a> ViewBuilder<'a> {
    /// A builder without any part. Allocates nothing.
    pub fn new(alloc: Global, arena: &'a Bump) -> ViewBuilder<'a>
        ensures open { open_levels result ≡ the_whole [] ∷ [] }
        ensures refused { result.refused ≡ false }
    {
        ViewBuilder {
            arena,
            memory: Memory::new(),
            top: Level::Whole(None),
            below: Vec::new(alloc),
            members: Vec::new(alloc),
            pairs: Vec::new(alloc),
        }
    }

    /// The requests for memory since the builder was made. One of them was refused if a call has returned an error.
    pub fn memory(&self) -> &Memory
        ensures { result.now ≡ self.now.refused }
    {
        &self.memory
    }

    /// Adds a complete member: one without members, a string that is borrowed, or a view that was
    /// built before.
    #[inline(always)]
    pub fn leaf(&mut self, view: View<'a>) -> Result<(), AllocError>
        requires takes { TakesValue (open_levels self.old) }
        ensures kept { OnOk result (self.new.refused ≡ self.old.refused) }
        ensures refused { OnErr result (IsTrue self.new.refused) }
        ensures given { OnOk result (open_levels self.new ≡ give (view_value view.entry) (open_levels self.old)) }
    {
        match &mut self.top {
            Level::Whole(whole) => *whole = Some(view),
            Level::Array(_) => self.memory.push(&mut self.members, view)?,
            Level::Map(_, key) => match key.take() {
                Some(first) => self.memory.push(&mut self.pairs, (first, view))?,
                None => *key = Some(view),
            },
            Level::Tag(_, content) => *content = Some(view),
        }
        Ok(())
    }

    /// Adds a byte string that is copied into the arena.
    pub fn copied_bytes(&mut self, content: &[u8]) -> Result<(), AllocError>
        requires takes { TakesValue (open_levels self.old) }
        ensures kept { OnOk result (self.new.refused ≡ self.old.refused) }
        ensures refused { OnErr result (IsTrue self.new.refused) }
        ensures given { OnOk result
            (open_levels self.new ≡ give (bytes content.now) (open_levels self.old)) }
    {
        let content = self.memory.copied_into(self.arena, content)?;
        self.leaf(View::Bytes(content))
    }

    /// Adds a text that is copied into the arena.
    pub fn copied_text(&mut self, content: &str) -> Result<(), AllocError>
        requires takes { TakesValue (open_levels self.old) }
        ensures kept { OnOk result (self.new.refused ≡ self.old.refused) }
        ensures refused { OnErr result (IsTrue self.new.refused) }
        ensures given { OnOk result
            (open_levels self.new ≡ give (text content.now) (open_levels self.old)) }
    {
        let content = self.memory.text_copied_into(self.arena, content)?;
        self.leaf(View::Text(content))
    }

    /// Begins an array, a map or a tag. The number is a tag's number.
    pub fn begin(&mut self, major: Major, number: u64) -> Result<(), AllocError>
        requires kind { IsContainer major }
        requires takes { TakesValue (open_levels self.old) }
        ensures kept { OnOk result (self.new.refused ≡ self.old.refused) }
        ensures refused { OnErr result (IsTrue self.new.refused) }
        ensures opened { OnOk result (open_levels self.new ≡ opened major number ∷ open_levels self.old) }
    {
        let inner = match major {
            Major::Array => Level::Array(self.members.len()),
            Major::Map => Level::Map(self.pairs.len(), None),
            _ => Level::Tag(number, None),
        };
        self.memory.push_copy(&mut self.below, &self.top)?;
        self.top = inner;
        Ok(())
    }

    /// Ends the array, map or tag. Its members move into the arena.
    pub fn end(&mut self) -> Result<(), AllocError>
        requires container { MayEnd (open_levels self.old) }
        ensures kept { OnOk result (self.new.refused ≡ self.old.refused) }
        ensures refused { OnErr result (IsTrue self.new.refused) }
        ensures closed { OnOk result (open_levels self.new ≡ close (open_levels self.old)) }
    {
        let ended = ended(
            &mut self.memory,
            self.arena,
            self.top,
            &mut self.members,
            &mut self.pairs,
        )?;
        let Some(outer) = self.below.pop() else {
            unreachable!()
        };
        self.top = outer;
        self.leaf(ended)
    }

    /// Returns the view, once it is complete. Allocates nothing.
    pub fn finish(self) -> View<'a>
        requires whole { IsWhole (open_levels self) }
        ensures view { (v : Value) → open_levels self.entry ≡ the_whole (v ∷ []) ∷ [] → view_value result ≡ v }
        ensures made { (v : Value)
            → open_levels self.entry ≡ run (parts_of v) (the_whole [] ∷ []) → view_value result ≡ v }
    {
        let ViewBuilder {
            arena: _,
            memory: _,
            top,
            below: _,
            members: _,
            pairs: _,
        } = self;
        match top {
            Level::Whole(Some(view)) => view,
            _ => unreachable!(),
        }
    }
}

// The array, map or tag that ends. Its members move from the lists into the arena.
fn ended<'a>(
    memory: &mut Memory,
    arena: &'a Bump,
    top: Level<'a>,
    members: &mut Vec<View<'a>>,
    pairs: &mut Vec<(View<'a>, View<'a>)>,
) -> Result<View<'a>, AllocError>
    requires ends { CanEnd (open_value (open_view top members.old.items pairs.old.items)) }
    requires begins { Begins top members.old.items pairs.old.items }
    ensures kept { OnOk result (memory.new ≡ memory.old) }
    ensures refused { OnErr result (IsTrue memory.new) }
    ensures value { IfOk result (λ view. view_value view
        ≡ closed (open_value (open_view top.entry members.old.items pairs.old.items))) }
    ensures members { MatchResult result
        (λ _. members.new.items ≡ outer_members top.entry members.old.items)
        (λ _. members.new.items ≡ members.old.items) }
    ensures pairs { MatchResult result
        (λ _. pairs.new.items ≡ outer_pairs top.entry pairs.old.items)
        (λ _. pairs.new.items ≡ pairs.old.items) }
{
    match top {
        Level::Array(first) => {
            let kept = memory.copied_into(arena, &members[first..])?;
            members.truncate(first);
            Ok(View::Array(kept))
        }
        Level::Map(first, _) => {
            let kept = memory.copied_into(arena, &pairs[first..])?;
            pairs.truncate(first);
            Ok(View::Map(kept))
        }
        Level::Tag(number, content) => {
            let Some(content) = content else {
                unreachable!()
            };
            Ok(View::Tag(number, memory.moved_into(arena, content)?))
        }
        Level::Whole(_) => unreachable!(),
    }
}
