//! The state of the strict reader: the open items, updated event by event.

ghost use Rattle.std.specs.Prelude.{◌≡◌, ◌≢◌, ◌<◌, ◌≤◌, ◌+◌, ◌^◌, ◌++◌, ◌↔◌, ◌⊎◌, ℕ, true, false, List, []};
ghost use Rattle.std.specs.Prelude.{length};
ghost use Rattle.std.specs.Prelude.{OnOk, OnErr, IfErr, IsTrue, MatchResult, IsUtf8};
ghost use Rattle.std.specs.Str.Lossy.{utf8_valid_len};
ghost use Rattle.cbor_head.specs.Head.{IsSimple, major_number, shortest_head};
ghost use Rattle.cbor_head.specs.declared.reason.Reason.TheVariants as reasons;
ghost use Rattle.cbor_head.specs.declared.width.Width.{Width};
ghost use Rattle.cbor_text.specs.TextCheck.{HasChecked};
ghost use Rattle.theory_automaton.specs.Trace.{a_head};
ghost use Rattle.cbor_strict.specs.StrictReader.{IsAgainstEvent, IsMapHead};
ghost use Rattle.theory_verdicts.specs.Frame.{Frame};
ghost use Rattle.theory_verdicts.specs.Kinds.{IsKeyExpected};
ghost use Rattle.cbor_strict.specs.inner.LastKeys.{IsKept, view_value, from_outside};
ghost use Rattle.cbor_strict.specs.inner.OpenItems.{IsItemEnded, ReturnsEnd, IsHeadCome};
ghost use Rattle.cbor_strict.specs.inner.OpenItems.{ReturnsHead};
ghost use Rattle.cbor_strict.specs.inner.OpenItems.{IsPartCome, ReturnsPart, IsBegunIn};
ghost use Rattle.cbor_strict.specs.inner.OpenItems.{ReturnsBegun, IsEventCome, ReturnsEvent};
ghost use Rattle.cbor_strict.specs.inner.OpenItems.{IsSameString, IsLeaf, GoesOn};

mod whole_item;

use crate::head_faults::fault_of;
use crate::last_keys::{Expected, LastKeys};
use cbor_events::head_of;
use cbor_head::{Event, EventKind, Head, KeyOrder, Keys, Major, Reason, Refusal};
use cbor_memory::Memory;
use cbor_text::TextCheck;
use std::alloc::{AllocError, Global};

/// The open containers, the last key of each map among them, and how much of a string was read.
#[derive(Drop)]
pub struct OpenItems {
    order: KeyOrder,
    /// The last keys of the open maps.
    pub keys: LastKeys,
    /// Whether a request for memory was refused for this item.
    pub memory: Memory,
    // How many bytes of a string's payload are still expected, and whether it is a text.
    left: u64,
    is_text: bool,
    check: TextCheck,
}

impl OpenItems {
    /// No item is open.
    pub fn new(alloc: Global, order: KeyOrder) -> OpenItems
        ensures kept { IsKept (view_value result.keys) [] [] }
        ensures none { result.left ≡ 0 }
        ensures order { result.order ≡ order }
        ensures memory { result.memory ≡ false }
    {
        OpenItems {
            order,
            keys: LastKeys::new(alloc),
            memory: Memory::new(),
            left: 0,
            is_text: false,
            check: TextCheck::new(),
        }
    }

    /// Starts again for another item, and keeps the memory.
    pub fn restart(&mut self, order: KeyOrder)
        ensures kept { IsKept (view_value self.new.keys) [] [] }
        ensures none { self.new.left ≡ 0 }
        ensures order { self.new.order ≡ order }
        ensures memory { self.new.memory ≡ false }
    {
        self.order = order;
        self.keys.forget();
        self.memory = Memory::new();
        self.left = 0;
    }

    /// Whether a key is expected that must be an integer or a text, and none of its events was read.
    #[inline(always)]
    pub fn asks(&self, keys: Keys) -> bool
        ensures expected { (fs : List Frame) (p : List ℕ) → IsKept (view_value self.now.keys) fs p
            → self.now.left ≡ 0
            → (result ≡ true) ↔ ((keys ≡ Keys.IntegersAndTexts) × IsKeyExpected (from_outside fs)) }
        ensures payload { 0 < self.now.left → result ≡ false }
    {
        let Keys::IntegersAndTexts = keys else {
            return false;
        };
        if self.left > 0 {
            return false;
        }
        matches!(self.keys.expected(), Expected::Key)
    }

    /// Checks an event that was read: the head of the item that is expected, or the next part of the
    /// payload, with these bytes. After the event this number of containers is open, and this number
    /// of bytes was consumed.
    #[inline(always)]
    pub fn admit(
        &mut self,
        event: &Event,
        piece: &[u8],
        open: usize,
        taken: u64,
    ) -> Result<(), Refusal>
        requires { IsEventCome self.old event.now piece.now «open» taken }
        ensures order { self.new.order ≡ self.old.order }
        ensures returned { ReturnsEvent self.old self.new event.now piece.now «open» taken result }
        ensures against { IfErr result (λ f. IsAgainstEvent self.old.order f.reason) }
        ensures read { IfErr result (λ f. f.read ≡ taken) }
        ensures memory { IfErr result (λ f. f.reason ≡ reasons.Memory → IsTrue self.new.memory) }
        ensures needed { IfErr result (λ f. f.reason ≡ reasons.Memory
            → (0 < (view_value self.old.keys).open_keys) ⊎ IsMapHead event.now.kind) }
        ensures granted { OnOk result (self.new.memory ≡ self.old.memory) }
    {
        if let EventKind::Piece(_) = event.kind {
            return self.admit_piece(piece, open, taken);
        }
        self.admit_head(event, open, taken)
    }

    // Checks the head of the item that is expected, as the events report it. After it this number of
    // containers is open.
    fn admit_head(&mut self, event: &Event, open: usize, taken: u64) -> Result<(), Refusal>
        requires { IsHeadCome self.old event.now «open» taken }
        ensures order { self.new.order ≡ self.old.order }
        ensures returned { ReturnsHead self.old self.new event.now «open» taken result }
        ensures against { IfErr result (λ f. IsAgainstEvent self.old.order f.reason) }
        ensures read { IfErr result (λ f. f.read ≡ taken) }
        ensures memory { IfErr result (λ f. f.reason ≡ reasons.Memory → IsTrue self.new.memory) }
        ensures needed { IfErr result (λ f. f.reason ≡ reasons.Memory
            → (0 < (view_value self.old.keys).open_keys) ⊎ IsMapHead event.now.kind) }
        ensures granted { OnOk result (self.new.memory ≡ self.old.memory) }
    {
        let Some((major, argument)) = head_of(event.kind) else {
            unreachable!()
        };
        match fault_of(event.width, argument) {
            Some(reason) => return Err(Refusal::new(reason, event.place, taken)),
            None => {}
        }
        match self.keep_head(major, argument) {
            Ok(()) => self.begin(major, argument, open, taken),
            Err(_) => Err(Refusal::at(Reason::Memory, taken)),
        }
    }

    // Stores the head of an item, in its shortest form, if the item is in a key.
    fn keep_head(&mut self, major: Major, argument: u64) -> Result<(), AllocError>
        requires { major ≡ Major.Simple → IsSimple argument }
        ensures same { IsSameString self.old self.new }
        ensures inside { OnErr result (0 < (view_value self.old.keys).open_keys) }
        ensures refused { OnErr result (IsTrue self.new.memory) }
        ensures granted { OnOk result (self.new.memory ≡ self.old.memory) }
        ensures kept { (fs : List Frame) → IsKept (view_value self.old.keys) fs []
            → OnOk result (IsKept (view_value self.new.keys) fs (shortest_head major argument)) }
    {
        if !self.keys.is_inside() {
            return Ok(());
        }
        if argument < 24 {
            let first = 32 * major.number() + argument as u8;
            return self.keys.keep(&mut self.memory, &[first]);
        }
        let head = Head::shortest(major, argument).bytes();
        self.keys.keep(&mut self.memory, head.as_slice())
    }

    // Begins the item whose head was read.
    fn begin(&mut self, major: Major, argument: u64, open: usize, taken: u64) -> Result<(), Refusal>
        requires { IsBegunIn self.old major argument «open» taken }
        ensures order { self.new.order ≡ self.old.order }
        ensures returned { ReturnsBegun self.old self.new major argument «open» taken result }
        ensures against { IfErr result (λ f. IsAgainstEvent self.old.order f.reason) }
        ensures read { IfErr result (λ f. f.read ≡ taken) }
        ensures memory { IfErr result (λ f. f.reason ≡ reasons.Memory → IsTrue self.new.memory) }
        ensures needed { IfErr result (λ f. f.reason ≡ reasons.Memory → major ≡ Major.Map) }
        ensures granted { OnOk result (self.new.memory ≡ self.old.memory) }
    {
        if !goes_on(major, argument) {
            return self.end_item(open, taken);
        }
        match major {
            Major::Bytes => self.begin_string(false, argument),
            Major::Text => self.begin_string(true, argument),
            Major::Map => match self.keys.open_map(&mut self.memory) {
                Ok(()) => {}
                Err(_) => return Err(Refusal::at(Reason::Memory, taken)),
            },
            _ => self.keys.open_other(),
        }
        Ok(())
    }

    // Expects a payload of this number of bytes.
    fn begin_string(&mut self, is_text: bool, count: u64)
        ensures same { (self.new.order ≡ self.old.order) × (self.new.keys ≡ self.old.keys) }
        ensures memory { self.new.memory ≡ self.old.memory }
        ensures expected { (self.new.left ≡ count) × (self.new.is_text ≡ is_text) }
        ensures checked { HasChecked self.new.check [] }
    {
        self.left = count;
        self.is_text = is_text;
        self.check = TextCheck::new();
    }

    // Checks the next part of the payload.
    fn admit_piece(&mut self, piece: &[u8], open: usize, taken: u64) -> Result<(), Refusal>
        requires { IsPartCome self.old piece.now «open» taken }
        ensures order { self.new.order ≡ self.old.order }
        ensures returned { ReturnsPart self.old self.new piece.now «open» taken result }
        ensures against { IfErr result (λ f. IsAgainstEvent self.old.order f.reason) }
        ensures read { IfErr result (λ f. f.read ≡ taken) }
        ensures memory { IfErr result (λ f. f.reason ≡ reasons.Memory → IsTrue self.new.memory) }
        ensures needed { IfErr result (λ f. f.reason ≡ reasons.Memory
            → 0 < (view_value self.old.keys).open_keys) }
        ensures granted { OnOk result (self.new.memory ≡ self.old.memory) }
    {
        match self.keys.keep(&mut self.memory, piece) {
            Ok(()) => {}
            Err(_) => return Err(Refusal::at(Reason::Memory, taken)),
        }
        self.take_part(piece);
        if self.left > 0 {
            return Ok(());
        }
        match self.text_end() {
            Ok(()) => self.end_item(open, taken),
            Err(valid) => {
                let following = self.check.pushed() - valid;
                Err(Refusal::new(Reason::InvalidText, taken - following, taken))
            }
        }
    }

    // Takes a part of the payload, which is stored already.
    fn take_part(&mut self, piece: &[u8])
        requires fits { length piece.now ≤ self.old.left }
        requires space { self.old.is_text ≡ true
            → self.old.check.pushed + length piece.now < 2 ^ 64 }
        ensures same { (self.new.order ≡ self.old.order) × (self.new.keys ≡ self.old.keys) }
        ensures memory { self.new.memory ≡ self.old.memory }
        ensures text { self.new.is_text ≡ self.old.is_text }
        ensures left { self.new.left + length piece.now ≡ self.old.left }
        ensures checked { (q : List ℕ) → self.old.is_text ≡ true → HasChecked self.old.check q
            → HasChecked self.new.check (q ++ piece.now) }
    {
        self.left -= piece.len() as u64;
        if self.is_text {
            self.check.push(piece);
        }
    }

    // Checks that the payload that was read is UTF-8, if it is a text's. The error is the length in
    // bytes of its longest prefix that is.
    fn text_end(&self) -> Result<(), u64>
        ensures { (q : List ℕ) → (self.now.is_text ≡ true → HasChecked self.now.check q)
            → MatchResult result
            (λ _. self.now.is_text ≡ true → IsUtf8 q)
            (λ n. (self.now.is_text ≡ true) × ¬ (IsUtf8 q) × (n ≡ utf8_valid_len q)) }
    {
        if self.is_text {
            return self.check.end();
        }
        Ok(())
    }

    // Ends an item, and all containers except this number.
    #[inline(always)]
    fn end_item(&mut self, open: usize, taken: u64) -> Result<(), Refusal>
        requires { IsItemEnded self.old «open» taken }
        ensures order { self.new.order ≡ self.old.order }
        ensures returned { ReturnsEnd self.old self.new «open» taken result }
        ensures against { IfErr result (λ f. IsAgainstEvent self.old.order f.reason) }
        ensures read { IfErr result (λ f. f.read ≡ taken) }
        ensures never { IfErr result (λ f. f.reason ≢ reasons.Memory) }
        ensures granted { OnOk result (self.new.memory ≡ self.old.memory) }
    {
        self.keys.close(open);
        match self.keys.expected() {
            Expected::Member => Ok(()),
            Expected::Value => {
                self.keys.end_value();
                Ok(())
            }
            Expected::Key => match self.keys.end_key(self.order) {
                Ok(()) => Ok(()),
                Err(length) => { Err(Refusal::new(Reason::KeyOrder, taken - length as u64, taken)) }
            },
        }
    }
}

// Whether an item of definite length continues after its head.
fn goes_on(major: Major, argument: u64) -> bool
    ensures leaf { (w : Width) → result ≡ false → IsLeaf (a_head major w argument) }
    ensures more { result ≡ true → GoesOn major argument }
{
    match major {
        Major::Tag => true,
        Major::Unsigned | Major::Negative | Major::Simple => false,
        _ => argument > 0,
    }
}
