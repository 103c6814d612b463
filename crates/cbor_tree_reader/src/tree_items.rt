//! The state of the tree reader: the open items, updated event by event.

ghost use Rattle.std.specs.Prelude.{◌≡◌, ◌≢◌, ◌<◌, ◌∷◌, ◌↔◌, [], List, IfOk, IfErr, None, true};
ghost use Rattle.std.specs.Prelude.{take, ◌++◌, IsTrue, OnOk, OnErr, Option};
ghost use Rattle.cbor_builder.specs.Built.{built, IsKeyExpected};
ghost use Rattle.theory_values.specs.Parts.{plain};
ghost use Rattle.cbor_head.specs.Spelling.{Spelling, value_of};
ghost use Rattle.cbor_item.specs.OpenValues.{IsWhole, TakesValue, open_levels};
ghost use Rattle.cbor_item.specs.View.{view};
ghost use Rattle.theory_verdicts.specs.Levels.{item_expected, item_whole};
ghost use Rattle.cbor_tree_reader.specs.TreeValues.{IsForTree, IsTreeAt, values_with};
ghost use Rattle.cbor_tree_reader.specs.declared.key_set.KeySet.{KeySet as KeySetView};
ghost use Rattle.cbor_tree_reader.specs.inner.HeldKeys.{AreHeld};
ghost use Rattle.cbor_tree_reader.specs.inner.TreeItems.{CanTake, IsGiven, IsEnding, ReturnsEnds};
ghost use Rattle.cbor_tree_reader.specs.inner.TreeItems.{sets, AreKeysBegun, ReturnsKey};
ghost use Rattle.cbor_tree_reader.specs.inner.ItemPrefix.{IsExpectedSomewhere, ReturnsExpected};

use crate::item_part::ItemPart;
use crate::key_set::KeySet;
use crate::tree_parts::give_to_tree;
use cbor_builder::CanonBuilder;
use cbor_events::ItemEvents;
use cbor_head::{Event, KeyOrder, Keys, Major, Reason, Refusal};
use cbor_item::{Item, TreeBuilder};
use cbor_memory::Memory;
use std::alloc::{AllocError, Global};
use std::io::Read;
use std::mem;

/// The parts of the item so far, and where each open item began.
#[derive(Drop)]
pub(crate) struct TreeItems {
    // The canonical bytes of the item, by which equal keys are found.
    builder: CanonBuilder,
    // The item itself.
    tree: TreeBuilder,
    // Which kinds of keys maps may have.
    kinds: Keys,
    // For each number of open containers, the offset of the last item that began within that many.
    starts: Vec<u64>,
    // The keys so far of the innermost open container, and of those around it, the outermost first.
    keys: KeySet,
    outer: Vec<KeySet>,
}

impl TreeItems {
    // The state before the item's first byte.
    pub(crate) fn new(alloc: Global, kinds: Keys) -> TreeItems
        ensures built { result.builder ≡ built KeyOrder.Bytewise (plain [] ∷ []) }
        ensures held { AreHeld (sets result) (plain [] ∷ []) }
        ensures tree { IsTreeAt result.tree (item_expected []) }
        ensures kinds { result.kinds ≡ kinds }
    {
        TreeItems {
            builder: CanonBuilder::new(alloc, KeyOrder::Bytewise),
            tree: TreeBuilder::new(alloc),
            kinds,
            starts: Vec::new(alloc),
            keys: KeySet::new(alloc),
            outer: Vec::new(alloc),
        }
    }

    // Whether a key is expected that must be an integer or a text.
    fn asks(&self) -> bool
        ensures { (result ≡ true) ↔ ((self.now.kinds ≡ Keys.IntegersAndTexts)
            × IsKeyExpected self.now.builder.open_levels) }
    {
        match self.kinds {
            Keys::Any => false,
            Keys::IntegersAndTexts => self.builder.is_key_expected(),
        }
    }

    // The head of the item that is expected, or a break. The kind of a key is judged at its first
    // byte.
    pub(crate) fn next_head<R: Read>(
        &self,
        events: &mut ItemEvents,
        reader: &mut R,
    ) -> Result<Event, Refusal>
        requires { IsExpectedSomewhere self.now events.old }
        ensures reason { IfErr result (λ f. f.reason ≢ Reason.Memory) }
        ensures expected { ReturnsExpected self.now events.old
            (R.remaining reader.old) (R.remaining reader.new) events.new result }
    {
        match events.next_by_kind(self.asks(), reader) {
            Ok(Some(event)) => Ok(event),
            Ok(None) => unreachable!(),
            Err(refusal) => Err(refusal),
        }
    }

    // Takes the next part of the item, which begins at this offset within this number of
    // containers. Returns the number of containers that it opens, 0 or 1.
    pub(crate) fn give(
        &mut self,
        memory: &mut Memory,
        alloc: Global,
        height: usize,
        place: u64,
        part: ItemPart,
    ) -> Result<usize, AllocError>
        requires bytes { CanTake self.old.builder part }
        requires fits { IsForTree part }
        requires tree { TakesValue (open_levels self.old.tree) }
        ensures kept { OnOk result (memory.new ≡ memory.old) }
        ensures refused { OnErr result (IsTrue memory.new) }
        ensures starts { OnOk result
            (self.new.starts.items ≡ take height self.old.starts.items ++ place ∷ []) }
        ensures kinds { self.new.kinds ≡ self.old.kinds }
        ensures given { IfOk result (λ opened. IsGiven self.old.builder part self.new.builder opened) }
        ensures tree { OnOk result
            (open_levels self.new.tree ≡ values_with part (open_levels self.old.tree)) }
        ensures sets { IfOk result (λ opened. AreKeysBegun opened (sets self.old) (sets self.new)) }
    {
        self.starts.truncate(height);
        memory.push(&mut self.starts, place)?;
        let opened = give_to_builder(memory, &mut self.builder, &part)?;
        give_to_tree(memory, &mut self.tree, part)?;
        if opened > 0 {
            memory.reserve(&mut self.outer, 1)?;
            let around = mem::replace(&mut self.keys, KeySet::new(alloc));
            self.outer.push_reserved(around);
        }
        Ok(opened)
    }

    // Removes the keys of the innermost container, which ends.
    fn end_keys(&mut self)
        ensures same { (self.new.builder ≡ self.old.builder)
            × (self.new.starts ≡ self.old.starts) × (self.new.tree ≡ self.old.tree)
            × (self.new.kinds ≡ self.old.kinds) }
        ensures sets { (s t : KeySetView) (ss : List KeySetView)
            → sets self.old ≡ s ∷ t ∷ ss → sets self.new ≡ t ∷ ss }
    {
        if let Some(around) = self.outer.pop() {
            self.keys = around;
        }
    }

    // Ends the containers that are full, the innermost first: `height` are open, and `open` of them
    // stay open.
    pub(crate) fn end_full(
        &mut self,
        memory: &mut Memory,
        height: usize,
        open: usize,
    ) -> Result<(), AllocError>
        requires { IsEnding self.old height «open» }
        ensures kept { OnOk result (memory.new ≡ memory.old) }
        ensures refused { OnErr result (IsTrue memory.new) }
        ensures same { self.new.starts ≡ self.old.starts }
        ensures ends { ReturnsEnds self.old self.new height «open» result }
    {
        let mut left = height;
        'full: while left > open {
            memory.noted(self.builder.end(), self.builder.memory())?;
            memory.noted(self.tree.end(), self.tree.memory())?;
            self.end_keys();
            left -= 1;
        }
        Ok(())
    }

    // Returns the offset of the key that has just ended if it is the same as an earlier key of its
    // map; otherwise adds it to them. This number of containers is open.
    pub(crate) fn repeated(
        &mut self,
        memory: &mut Memory,
        alloc: Global,
        open: usize,
    ) -> Result<Option<u64>, AllocError>
        ensures same { (self.new.builder ≡ self.old.builder)
            × (self.new.starts ≡ self.old.starts) × (self.new.tree ≡ self.old.tree)
            × (self.new.kinds ≡ self.old.kinds) }
        ensures kept { OnOk result (memory.new ≡ memory.old) }
        ensures refused { OnErr result (IsTrue memory.new) }
        ensures returned { ReturnsKey self.old self.new «open» result }
    {
        let Some(key) = self.builder.waiting_key() else {
            return Ok(None);
        };
        if self.keys.add(memory, alloc, key)? {
            return Ok(None);
        }
        Ok(Some(self.starts.get(open).copied().unwrap_or(0)))
    }

    // The item, which is complete.
    pub(crate) fn into_item(self) -> Item
        requires { IsWhole (open_levels self.tree) }
        ensures { (s : Spelling) → IsTreeAt self.tree (item_whole s) → view result ≡ value_of s }
    {
        let TreeItems {
            builder: _,
            tree,
            kinds: _,
            starts: _,
            keys: _,
            outer: _,
        } = self;
        tree.finish()
    }
}

// Gives the next part to the builder of canonical bytes. Returns the number of containers that it
// opens, 0 or 1.
fn give_to_builder(
    memory: &mut Memory,
    builder: &mut CanonBuilder,
    part: &ItemPart,
) -> Result<usize, AllocError>
    requires { CanTake builder.old part.now }
    ensures kept { OnOk result (memory.new ≡ memory.old) }
    ensures refused { OnErr result (IsTrue memory.new) }
    ensures given { IfOk result (λ opened. IsGiven builder.old part.now builder.new opened) }
{
    match part {
        ItemPart::Leaf(major, argument) => {
            memory.noted(builder.leaf(*major, *argument), builder.memory())?;
            Ok(0)
        }
        ItemPart::String(is_text, content) => {
            let major = if *is_text { Major::Text } else { Major::Bytes };
            memory.noted(builder.string(major, content), builder.memory())?;
            Ok(0)
        }
        ItemPart::Begin(major, number) => {
            memory.noted(builder.begin(*major, *number), builder.memory())?;
            Ok(1)
        }
        ItemPart::Break => Ok(0),
    }
}
