//! The canonical bytes of the keys of an item, and of nothing else.

ghost use Rattle.std.specs.Prelude.{◌≡◌, ◌<◌, ◌≤◌, [], false, IfOk, IfSome, IsNone, IsTrue, OnOk, OnErr, length, take};
ghost use Rattle.theory_values.specs.Parts.{give};
ghost use Rattle.cbor_builder.specs.Built.{built, TakesPart};
ghost use Rattle.theory_verdicts.specs.Levels.{item_expected};
ghost use Rattle.cbor_reader.specs.inner.KeyBytes.{is_kept, after_item, string_bytes, keys_agree, keys_hold, keys_refused};
ghost use Rattle.cbor_reader.specs.declared.key_bytes.KeyBytes.{KeyBytes};
ghost use Rattle.cbor_parser.specs.Sink.{IsContainerFull, Ends, Repeats};

use cbor_builder::{CanonBuilder, Repeat};
use cbor_head::{KeyOrder, Major};
use cbor_memory::Memory;
use cbor_parser::{Sink, string_type};
use std::alloc::{AllocError, Global};

/// Finds equal keys in an item: it holds the canonical bytes of the keys of the open maps. An item
/// that is neither a key nor in one is not stored, and a map's keys are released at its end.
#[derive(Drop)]
pub(crate) struct KeyBytes {
    builder: CanonBuilder,
    // The number of open containers within a key that is not complete.
    inside: usize,
}

impl KeyBytes {
    /// A sink without keys; allocates nothing.
    pub(crate) fn new(alloc: Global) -> KeyBytes
        ensures { keys_agree result result (item_expected []) }
    {
        KeyBytes {
            builder: CanonBuilder::new(alloc, KeyOrder::Bytewise),
            inside: 0,
        }
    }

    /// Removes all keys, whatever was called before. Its buffers stay allocated.
    pub(crate) fn clear(&mut self)
        ensures { keys_agree self.new self.new (item_expected []) }
    {
        self.builder.clear(KeyOrder::Bytewise);
        self.inside = 0;
    }

    /// Whether a request of this sink was refused.
    pub(crate) fn memory(&self) -> &Memory
        ensures { result.now ≡ keys_refused self.now }
    {
        self.builder.memory()
    }

    // Whether the next item is stored: it is within a key, or `is_key` says that it is one.
    #[inline(always)]
    fn keeps(&self, is_key: bool) -> bool
        ensures { result ≡ is_kept self.now.inside is_key }
    {
        self.inside > 0 || is_key
    }

    // An item is complete. It is a key if no container within a key is open; its value is not stored.
    // Not inlined, as the next function, so that the walk's loop stays small enough to be one
    // function.
    #[inline(never)]
    fn settle(&mut self) -> Result<(), AllocError>
        requires { self.old.inside ≡ 0 → TakesPart self.old.builder.open_levels }
        ensures inside { self.new.inside ≡ self.old.inside }
        ensures builder { OnOk result (self.old.builder.refused ≡ false → self.new.builder
            ≡ built self.old.builder.order (after_item self.old.inside self.old.builder.open_levels)) }
        ensures memory { OnErr result (IsTrue self.new.builder.refused) }
    {
        if self.inside == 0 {
            self.builder.nothing()?;
        }
        Ok(())
    }

    // Ends a container within a key, as the sink of canonical bytes does.
    #[inline(never)]
    fn end_in_key(&mut self, is_map: bool) -> Result<Option<Repeat>, AllocError>
        requires inside { 0 < self.old.inside }
        requires full { IsContainerFull KeyBytes keys_agree false is_map self.old }
        ensures ends { IfOk result (λ reported. IsNone reported
            → Ends KeyBytes keys_agree false is_map self.old self.new) }
        ensures repeats { IfOk result (λ reported. IfSome reported
            (Repeats KeyBytes keys_agree false is_map self.old)) }
        ensures memory { OnErr result (IsTrue self.new.builder.refused) }
    {
        if let Some(repeat) = self.builder.end_if_distinct()? {
            return Ok(Some(repeat));
        }
        self.inside -= 1;
        self.settle()?;
        Ok(None)
    }

    // Stores a string, which is a key or within one. If these lines stand in `string`, the compiler
    // spills more of the walk's state, and maps take 1.5 % more instructions.
    #[inline(always)]
    fn store_string(&mut self, is_text: bool, prefix: &[u8], count: usize) -> Result<(), AllocError>
        requires within { count ≤ length prefix.now }
        requires takes { TakesPart self.old.builder.open_levels }
        requires key { self.old.inside ≡ 0 → TakesPart
            (give (string_bytes is_text (take count prefix.now)) self.old.builder.open_levels) }
        ensures inside { self.new.inside ≡ self.old.inside }
        ensures builder { OnOk result (self.new.builder ≡ built self.old.builder.order
            (after_item self.old.inside (give (string_bytes is_text (take count prefix.now))
            self.old.builder.open_levels))) }
        ensures memory { OnErr result (IsTrue self.new.builder.refused) }
    {
        self.builder
            .prefix_string(string_type(is_text), prefix, count)?;
        self.settle()
    }
}

impl<'a> Sink<'a> for KeyBytes {
    ghost agrees = { keys_agree };

    ghost holds = { keys_hold };

    ghost refused = { λ keys. IsTrue (keys_refused keys) };

    #[inline(always)]
    fn is_trusting() -> bool {
        false
    }

    #[inline(always)]
    fn leaf(&mut self, is_key: bool, major: Major, number: u64) -> Result<(), AllocError> {
        if self.keeps(is_key) {
            self.builder.leaf(major, number)?;
            self.settle()?;
        }
        Ok(())
    }

    #[inline(always)]
    fn string(
        &mut self,
        is_key: bool,
        is_text: bool,
        prefix: &'a [u8],
        count: usize,
    ) -> Result<(), AllocError> {
        if self.keeps(is_key) {
            self.store_string(is_text, prefix, count)?;
        }
        Ok(())
    }

    #[inline(always)]
    fn begin_string(&mut self, is_key: bool, is_text: bool) -> Result<(), AllocError> {
        if self.keeps(is_key) {
            self.builder.begin_string(string_type(is_text))?;
        }
        Ok(())
    }

    #[inline(always)]
    fn chunk(
        &mut self,
        is_key: bool,
        _is_text: bool,
        prefix: &'a [u8],
        count: usize,
    ) -> Result<(), AllocError> {
        if self.keeps(is_key) {
            self.builder.prefix_bytes(prefix, count)?;
        }
        Ok(())
    }

    #[inline(always)]
    fn end_string(&mut self, is_key: bool, _is_text: bool) -> Result<(), AllocError> {
        if self.keeps(is_key) {
            self.builder.end_string()?;
            self.settle()?;
        }
        Ok(())
    }

    #[inline(always)]
    fn begin(&mut self, is_key: bool, major: Major, number: u64) -> Result<(), AllocError> {
        let keeps = self.keeps(is_key);
        if !keeps && !matches!(major, Major::Map) {
            return Ok(());
        }
        self.builder.begin(major, number)?;
        if keeps {
            self.inside += 1;
        }
        Ok(())
    }

    #[inline(always)]
    fn end(&mut self, is_map: bool) -> Result<Option<Repeat>, AllocError> {
        if self.inside == 0 {
            if is_map {
                return self.builder.give_up_if_distinct();
            }
            return Ok(None);
        }
        self.end_in_key(is_map)
    }

    fn first_repeat(&mut self) -> Option<Repeat> {
        self.builder.first_repeat()
    }
}
