//! Which repeated key a builder reports.

ghost use Rattle.std.specs.Prelude.{ℕ, List, ◌≡◌, ◌∷◌, [], OnOk};
ghost use Rattle.cbor_head.specs.Canonical.{Pair};
ghost use Rattle.cbor_builder.specs.Built.{TakesPart};
ghost use Rattle.theory_values.specs.Parts.{Open, a_map, a_key, plain};

use cbor_head::Major;
use cbor_item::{CanonBuilder, KeyOrder, Repeat};
use std::alloc::{AllocError, Global};
use std::process::Abort;

pub(crate) fn reported(outside: usize, pair: usize) -> Option<Repeat> {
    Some(Repeat { outside, pair })
}

// Begins a map, and adds a pair for each number: the number is the key, and the value is 0.
fn open_map(builder: &mut CanonBuilder, keys: &[u64]) -> Result<(), AllocError>
    requires takes { TakesPart builder.old.open_levels }
    ensures { OnOk result ((ps : List Pair)
        × (builder.new.open_levels ≡ a_map ps ∷ builder.old.open_levels)) }
{
    builder.begin(Major::Map, 0)?;
    for key in keys {
        builder.leaf(Major::Unsigned, *key)?;
        builder.leaf(Major::Unsigned, 0)?;
    }
    Ok(())
}

// {OUTER, 4: [{INNER, and a last key that waits for its value
fn give_opened(
    builder: &mut CanonBuilder,
    outer: &[u64],
    inner: &[u64],
    last: u64,
) -> Result<(), AllocError>
    requires takes { TakesPart builder.old.open_levels }
    ensures { OnOk result ((ps : List Pair) × (k : List ℕ) × (c : Open) × (os : List Open)
        × (builder.new.open_levels ≡ a_key ps k ∷ c ∷ os)) }
{
    open_map(builder, outer)?;
    builder.leaf(Major::Unsigned, 4)?;
    builder.begin(Major::Array, 0)?;
    open_map(builder, inner)?;
    builder.leaf(Major::Unsigned, last)?;
    Ok(())
}

// What is reported of that, by `first_repeat` and when the inner map ends
fn reported_of(
    rt: &impl Abort,
    alloc: Global,
    outer: &[u64],
    inner: &[u64],
    last: u64,
) -> Result<Option<Repeat>, AllocError> {
    let mut builder = CanonBuilder::new(alloc, KeyOrder::Bytewise);
    give_opened(&mut builder, outer, inner, last)?;
    let reported = builder.first_repeat();
    builder.clear(KeyOrder::Bytewise);
    give_opened(&mut builder, outer, inner, last)?;
    builder.leaf(Major::Unsigned, 0)?;
    assert!(rt; builder.end_if_distinct()? == reported);
    Ok(reported)
}

#[test]
fn the_outermost_repeated_key_is_reported(rt: HostRuntime) -> Result<(), AllocError> {
    let alloc = rt.alloc();
    // all keys differ; then a key of the outer map, and then its last key, which waits, is
    // repeated
    assert!(rt; reported_of(&rt, alloc, &[3, 1, 2], &[7, 5, 6], 8)? == None);
    assert!(rt; reported_of(&rt, alloc, &[3, 1, 2, 1, 3], &[7, 7], 8)? == reported(0, 3));
    assert!(rt; reported_of(&rt, alloc, &[3, 4, 2], &[7, 7], 7)? == reported(0, 3));
    // a key of the inner map is repeated, then its last one, after keys that fall or rise
    assert!(rt; reported_of(&rt, alloc, &[3, 1, 2], &[7, 5, 5, 7], 7)? == reported(1, 2));
    assert!(rt; reported_of(&rt, alloc, &[3, 1, 2], &[7, 5, 6], 5)? == reported(1, 3));
    assert!(rt; reported_of(&rt, alloc, &[1, 2, 3], &[5, 6, 7], 6)? == reported(1, 3));
    let mut empty = CanonBuilder::new(alloc, KeyOrder::Bytewise);
    assert!(rt; empty.first_repeat() == None);
    Ok(())
}

// What is reported when a map with these keys ends. Nothing is open then.
fn reported_at_end(
    rt: &impl Abort,
    builder: &mut CanonBuilder,
    keys: &[u64],
) -> Result<Option<Repeat>, AllocError>
    requires empty { builder.old.open_levels ≡ plain [] ∷ [] }
{
    open_map(builder, keys)?;
    let reported = builder.end_if_distinct()?;
    if reported.is_some() {
        assert!(rt; builder.first_repeat() == None);
    }
    Ok(reported)
}

fn reported_by_first_repeat(
    builder: &mut CanonBuilder,
    keys: &[u64],
) -> Result<Option<Repeat>, AllocError>
    requires empty { builder.old.open_levels ≡ plain [] ∷ [] }
{
    open_map(builder, keys)?;
    Ok(builder.first_repeat())
}

#[test]
fn a_map_that_repeats_a_key_does_not_end(rt: HostRuntime) -> Result<(), AllocError> {
    let mut builder = CanonBuilder::new(rt.alloc(), KeyOrder::LengthFirst);
    assert!(rt; reported_at_end(&rt, &mut builder, &[9, 1, 9])? == reported(0, 2));
    // the builder may be cleared
    builder.clear(KeyOrder::Bytewise);
    assert!(rt; reported_at_end(&rt, &mut builder, &[2, 1])? == None);
    assert!(rt; builder.finish().as_slice() == b"\xa2\x01\x00\x02\x00".as_slice());
    Ok(())
}

// Keys of nine bytes that share their first eight. `differ` of them differ, and then they repeat.
fn repeated_keys(alloc: Global, size: u64, step: u64, differ: u64) -> Result<Vec<u64>, AllocError> {
    let mut keys = Vec::new(alloc);
    for i in 0..size {
        keys.push((1 << 32) | (i.wrapping_mul(step) % differ.max(1)))?;
    }
    Ok(keys)
}

// The keys rise, fall, or do neither.
#[test]
fn the_pair_is_reported_in_maps_of_each_size(rt: HostRuntime) -> Result<(), AllocError> {
    let alloc = rt.alloc();
    let mut builder = CanonBuilder::new(alloc, KeyOrder::Bytewise);
    for size in 2u64..201 {
        for differ in [1, size / 2, size - 1] {
            for step in [1, differ - 1, 211] {
                let keys = repeated_keys(alloc, size, step, differ)?;
                builder.clear(KeyOrder::Bytewise);
                assert!(rt;
                    reported_at_end(&rt, &mut builder, &keys)? == reported(0, differ as usize)
                );
                builder.clear(KeyOrder::Bytewise);
                assert!(rt;
                    reported_by_first_repeat(&mut builder, &keys)? == reported(0, differ as usize)
                );
            }
        }
        let keys = repeated_keys(alloc, size, size - 1, size)?;
        builder.clear(KeyOrder::Bytewise);
        assert!(rt; reported_at_end(&rt, &mut builder, &keys)? == None);
    }
    Ok(())
}

// Three pairs of no bytes after others
fn reported_of_nothing(
    builder: &mut CanonBuilder,
    keys: &[u64],
) -> Result<Option<Repeat>, AllocError>
    requires empty { builder.old.open_levels ≡ plain [] ∷ [] }
{
    open_map(builder, keys)?;
    builder.nothing()?;
    builder.nothing()?;
    builder.nothing()?;
    builder.nothing()?;
    builder.nothing()?;
    builder.nothing()?;
    builder.end_if_distinct()
}

// Two pairs of no bytes after one that has only a value, and another
fn reported_of_an_empty_key(builder: &mut CanonBuilder) -> Result<Option<Repeat>, AllocError>
    requires empty { builder.old.open_levels ≡ plain [] ∷ [] }
{
    builder.begin(Major::Map, 0)?;
    builder.nothing()?;
    builder.leaf(Major::Unsigned, 0)?;
    builder.leaf(Major::Unsigned, 1)?;
    builder.nothing()?;
    builder.nothing()?;
    builder.nothing()?;
    builder.nothing()?;
    builder.nothing()?;
    builder.end_if_distinct()
}

#[test]
fn pairs_of_no_bytes_are_distinguished(rt: HostRuntime) -> Result<(), AllocError> {
    let alloc = rt.alloc();
    let mut builder = CanonBuilder::new(alloc, KeyOrder::Bytewise);
    assert!(rt; reported_of_an_empty_key(&mut builder)? == reported(0, 2));
    for size in [1, 2, 14, 40] {
        let keys = repeated_keys(alloc, size, size - 1, size)?;
        builder.clear(KeyOrder::Bytewise);
        assert!(rt; reported_of_nothing(&mut builder, &keys)? == reported(0, size as usize + 1));
    }
    Ok(())
}

fn remove_repeated(builder: &mut CanonBuilder) -> Result<Option<Repeat>, AllocError>
    requires empty { builder.old.open_levels ≡ plain [] ∷ [] }
{
    open_map(builder, &[9, 1, 9])?;
    builder.give_up_if_distinct()
}

#[test]
fn does_not_remove_a_map_with_a_repeated_key(rt: HostRuntime) -> Result<(), AllocError> {
    let mut builder = CanonBuilder::new(rt.alloc(), KeyOrder::Bytewise);
    assert!(rt; remove_repeated(&mut builder)? == reported(0, 2));
    assert!(rt; builder.first_repeat() == None);
    Ok(())
}
