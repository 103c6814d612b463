//! The requests for memory.
//!
//! Trusted: this file and `memory/arena.rt` set the flag only if the standard library or the arena has refused a request.
//! The prover checks the contracts below, but a method that sets the flag without a request would meet them too, since no
//! contract of the standard library says when its allocator refuses. No other file can set the flag, so no other file has
//! to be read for this. How much a caller requests is in the caller's code: a request for too much is refused too.

ghost use Rattle.std.specs.Prelude.{◌≡◌, ◌<◌, ◌≤◌, ◌+◌, ◌++◌, ◌∷◌, ◌||◌, [], IsTrue, OnOk, OnErr, IfOk};
ghost use Rattle.std.specs.Prelude.{MatchResult, false, not, true, length, replicate, vec_len, vec_capacity, string_bytes};
ghost use Rattle.std.specs.BTreeSet.{contains, Updates};

mod arena;

use std::alloc::{AllocError, Global};
use std::collections::BTreeSet;
use std::marker::Model;

// The first allocation of `push` has space for at least this number, so that a small item allocates once for each list.
const SPACE: usize = 16;

/// Whether a request for memory was refused.
///
/// A contract sees it as a boolean: `false` until a request is refused.
#[derive(Drop)]
pub struct Memory {
    refused: bool,
}

impl Model for Memory {
    ghost use Rattle.std.specs.Prelude.{Bool};

    ghost Value = { Bool };

    ghost view = { λ m. m.refused };
}

impl Memory {
    /// No request so far.
    pub fn new() -> Memory
        ensures { result ≡ false }
    {
        Memory { refused: false }
    }

    /// Whether a request was refused.
    pub fn is_refused(&self) -> bool
        ensures { result ≡ self.now }
    {
        self.refused
    }

    /// Includes the requests that were recorded elsewhere.
    pub fn include(&mut self, other: &Memory)
        ensures { self.new ≡ (self.old || other.now) }
    {
        self.refused = self.refused || other.refused;
    }

    /// Includes the requests that were recorded elsewhere if the call that made them returned an error, and returns what
    /// it returned.
    #[inline(always)]
    pub fn noted<T>(&mut self, done: Result<T, AllocError>, other: &Memory) -> Result<T, AllocError>
        requires { OnErr done (IsTrue other.now) }
        ensures kept { OnOk result (self.new ≡ self.old) }
        ensures refused { OnErr result (IsTrue self.new) }
        ensures same { result ≡ done }
    {
        if done.is_err() {
            self.include(other);
        }
        done
    }

    /// Requests space for this number of further elements, and some more so that many calls together copy little.
    #[inline(always)]
    pub fn reserve<T>(&mut self, list: &mut Vec<T>, more: usize) -> Result<(), AllocError>
        ensures kept { OnOk result (self.new ≡ self.old) }
        ensures refused { OnErr result (IsTrue self.new) }
        ensures needed { OnErr result (vec_capacity list.old < vec_len list.old + more) }
        ensures items { list.new.items ≡ list.old.items }
        ensures len { vec_len list.new ≡ vec_len list.old }
        ensures capacity { vec_capacity list.old ≤ vec_capacity list.new }
        ensures space { OnOk result (vec_len list.new + more ≤ vec_capacity list.new) }
    {
        let done = list.reserve(more);
        if done.is_err() {
            self.refused = true;
        }
        done
    }

    /// Requests space for this number of further elements, and no more.
    pub fn reserve_exact<T>(&mut self, list: &mut Vec<T>, more: usize) -> Result<(), AllocError>
        ensures kept { OnOk result (self.new ≡ self.old) }
        ensures refused { OnErr result (IsTrue self.new) }
        ensures needed { OnErr result (vec_capacity list.old < vec_len list.old + more) }
        ensures items { list.new.items ≡ list.old.items }
        ensures len { vec_len list.new ≡ vec_len list.old }
        ensures capacity { vec_capacity list.old ≤ vec_capacity list.new }
        ensures space { OnOk result (vec_len list.new + more ≤ vec_capacity list.new) }
    {
        let done = list.reserve_exact(more);
        if done.is_err() {
            self.refused = true;
        }
        done
    }

    /// Allocates this number of zeros.
    pub fn zeros(&mut self, alloc: Global, count: usize) -> Result<Vec<u8>, AllocError>
        ensures kept { OnOk result (self.new ≡ self.old) }
        ensures refused { OnErr result (IsTrue self.new) }
        ensures zeros { IfOk result (λ bytes. bytes.items ≡ replicate count 0) }
    {
        let done = Vec::from_elem(alloc, 0, count);
        if done.is_err() {
            self.refused = true;
        }
        done
    }

    /// A copy of these bytes in new memory.
    pub fn copied(&mut self, alloc: Global, bytes: &[u8]) -> Result<Vec<u8>, AllocError>
        ensures kept { OnOk result (self.new ≡ self.old) }
        ensures refused { OnErr result (IsTrue self.new) }
        ensures copied { IfOk result (λ copy. copy.items ≡ bytes.now) }
    {
        let done = Vec::from_slice(alloc, bytes);
        if done.is_err() {
            self.refused = true;
        }
        done
    }

    /// A copy of this text in new memory.
    pub fn copied_text(&mut self, alloc: Global, text: &str) -> Result<String, AllocError>
        ensures kept { OnOk result (self.new ≡ self.old) }
        ensures refused { OnErr result (IsTrue self.new) }
        ensures copied { IfOk result (λ copy. string_bytes copy ≡ text.now) }
    {
        let done = String::from_str(alloc, text);
        if done.is_err() {
            self.refused = true;
        }
        done
    }

    /// Moves a value to new memory. If the request is refused, the value is returned.
    pub fn boxed<T>(&mut self, alloc: Global, value: T) -> Result<Box<T>, T>
        ensures kept { OnOk result (self.new ≡ self.old) }
        ensures refused { OnErr result (IsTrue self.new) }
        ensures moved { MatchResult result (λ moved. moved.value ≡ value) (λ back. back ≡ value) }
    {
        match Box::new(alloc, value) {
            Ok(moved) => Ok(moved),
            Err(refused) => {
                self.refused = true;
                Err(refused.value)
            }
        }
    }

    /// Adds a key to a set. Returns whether it was not in the set before.
    pub fn insert<K: Ord + Drop>(
        &mut self,
        keys: &mut BTreeSet<K>,
        key: K,
    ) -> Result<bool, AllocError>
        ensures kept { OnOk result (self.new ≡ self.old) }
        ensures refused { OnErr result (IsTrue self.new) }
        ensures added { IfOk result (λ added. added ≡ not (contains K.cmp keys.old key)) }
        ensures updates { OnOk result (Updates K.cmp keys.old keys.new key true) }
    {
        match keys.insert(key) {
            Ok(added) => Ok(added),
            Err(_) => {
                self.refused = true;
                Err(AllocError)
            }
        }
    }

    /// Appends one element. It fails only if there was no space for it.
    #[inline(always)]
    pub fn push<T: Copy>(&mut self, list: &mut Vec<T>, last: T) -> Result<(), AllocError>
        ensures kept { OnOk result (self.new ≡ self.old) }
        ensures refused { OnErr result (IsTrue self.new) }
        ensures needed { OnErr result (vec_len list.old ≡ vec_capacity list.old) }
        ensures pushed { MatchResult result (λ _. list.new.items ≡ list.old.items ++ last ∷ [])
            (λ _. list.new.items ≡ list.old.items) }
    {
        if list.len() == list.capacity() {
            self.make_place(list)?;
        }
        list.push_reserved(last);
        Ok(())
    }

    /// Appends a copy of a value that is stored elsewhere, as `push` does. The value is read only once there is space,
    /// so it is copied once.
    #[inline(always)]
    pub fn push_copy<T: Copy>(&mut self, list: &mut Vec<T>, last: &T) -> Result<(), AllocError>
        ensures kept { OnOk result (self.new ≡ self.old) }
        ensures refused { OnErr result (IsTrue self.new) }
        ensures needed { OnErr result (vec_len list.old ≡ vec_capacity list.old) }
        ensures pushed { MatchResult result (λ _. list.new.items ≡ list.old.items ++ last.now ∷ [])
            (λ _. list.new.items ≡ list.old.items) }
    {
        if list.len() == list.capacity() {
            self.make_place(list)?;
        }
        list.push_reserved(*last);
        Ok(())
    }

    /// Appends these bytes. It fails only if there was no space for them.
    #[inline(always)]
    pub fn extend(&mut self, list: &mut Vec<u8>, bytes: &[u8]) -> Result<(), AllocError>
        ensures kept { OnOk result (self.new ≡ self.old) }
        ensures refused { OnErr result (IsTrue self.new) }
        ensures needed { OnErr result (vec_capacity list.old < vec_len list.old + length bytes.now) }
        ensures capacity { vec_capacity list.old ≤ vec_capacity list.new }
        ensures extended { MatchResult result (λ _. list.new.items ≡ list.old.items ++ bytes.now)
            (λ _. list.new.items ≡ list.old.items) }
    {
        let done = list.extend_from_slice(bytes);
        if done.is_err() {
            self.refused = true;
        }
        done
    }

    #[cold]
    #[inline(never)]
    fn make_place<T: Copy>(&mut self, list: &mut Vec<T>) -> Result<(), AllocError>
        ensures kept { OnOk result (self.new ≡ self.old) }
        ensures refused { OnErr result (IsTrue self.new) }
        ensures same { list.new.items ≡ list.old.items }
        ensures len { vec_len list.new ≡ vec_len list.old }
        ensures place { OnOk result (vec_len list.new < vec_capacity list.new) }
    {
        let more = list.len().max(SPACE);
        self.reserve_exact(list, more)
    }
}
