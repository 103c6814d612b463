//! The canonical bytes of a map's keys.

ghost use Rattle.std.specs.Prelude.{◌≡◌, ◌<◌, ℕ, not, true, IfOk, IsTrue, OnOk, OnErr, List, []};
ghost use Rattle.std.specs.Ordering.{nat_cmp};
ghost use Rattle.std.specs.Cmp.Lexicographic.{slice_cmp};
ghost use Rattle.std.specs.BTreeSet.{Updates};
ghost use Rattle.cbor_tree_reader.specs.inner.HeldKeys.{HasKeyBytes, IsAdded, is_in};

use arrayvec::ArrayVec;
use cbor_memory::Memory;
use std::alloc::{AllocError, Global};
use std::collections::BTreeSet;

// The number of bytes of a key that fit in the node of its set: most keys are not longer.
const SHORT_KEY: usize = 16;

/// The canonical bytes of keys. Short keys are stored in the nodes of their set, so that none is
/// allocated separately and comparing two follows no pointer.
#[derive(Drop)]
pub(crate) struct KeySet {
    short: BTreeSet<ArrayVec<u8, SHORT_KEY>>,
    long: BTreeSet<Vec<u8>>,
}

impl KeySet {
    // A set without keys.
    pub(crate) fn new(alloc: Global) -> KeySet
        ensures { HasKeyBytes result [] }
    {
        KeySet {
            short: BTreeSet::new(alloc),
            long: BTreeSet::new(alloc),
        }
    }

    // Adds a key. Returns whether it was not in the set before.
    pub(crate) fn add(
        &mut self,
        memory: &mut Memory,
        alloc: Global,
        bytes: &[u8],
    ) -> Result<bool, AllocError>
        ensures kept { OnOk result (memory.new ≡ memory.old) }
        ensures refused { OnErr result (IsTrue memory.new) }
        ensures added { (ks : List (List ℕ)) → HasKeyBytes self.old ks
            → IfOk result (IsAdded bytes.now ks self.new) }
    {
        match ArrayVec::try_from(bytes) {
            Ok(short) => insert_short(memory, &mut self.short, short),
            Err(_) => {
                let long = memory.copied(alloc, bytes)?;
                insert_long(memory, &mut self.long, long)
            }
        }
    }
}

fn insert_short(
    memory: &mut Memory,
    all: &mut BTreeSet<ArrayVec<u8, SHORT_KEY>>,
    bytes: ArrayVec<u8, SHORT_KEY>,
) -> Result<bool, AllocError>
    ensures kept { OnOk result (memory.new ≡ memory.old) }
    ensures refused { OnErr result (IsTrue memory.new) }
    ensures added { IfOk result (λ fresh. (fresh ≡ not (is_in (λ x. x.items) all.old bytes))
        × Updates (λ x y. slice_cmp nat_cmp x.items y.items) all.old all.new bytes true) }
{
    memory.insert(all, bytes)
}

fn insert_long(
    memory: &mut Memory,
    all: &mut BTreeSet<Vec<u8>>,
    bytes: Vec<u8>,
) -> Result<bool, AllocError>
    ensures kept { OnOk result (memory.new ≡ memory.old) }
    ensures refused { OnErr result (IsTrue memory.new) }
    ensures added { IfOk result (λ fresh. (fresh ≡ not (is_in (λ x. x.items) all.old bytes))
        × Updates (λ x y. slice_cmp nat_cmp x.items y.items) all.old all.new bytes true) }
{
    memory.insert(all, bytes)
}
