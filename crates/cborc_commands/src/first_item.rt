//! The item at the start of some bytes: its size, and its diagnostic text.

ghost use Rattle.std.specs.Prelude.{◌≡◌, ◌≢◌, ◌≤◌, ◌++◌, ℕ, codes, true, false, OnOk, IfOk, IfErr};
ghost use Rattle.std.specs.Io.KnownBytes.{Appends};
ghost use Rattle.cbor_head.specs.Complaint.{plain};
ghost use Rattle.cbor_head.specs.Spelling.{Spelling, value_of};
ghost use Rattle.cbor_head.specs.Value.{depth};
ghost use Rattle.cbor_head.specs.Verdict.{IsVerdict, accepted};
ghost use Rattle.cbor_head.specs.declared.limits.TheConstants.{MAX_DEPTH};
ghost use Rattle.theory_verdicts.specs.Readers.{IsRead, IsUnread};
ghost use Rattle.cbor_item.specs.ViewValue.{view_value};
ghost use Rattle.cbor_reader.specs.BuiltPrefix.{IsBuiltPrefix};
ghost use Rattle.cborc_commands.specs.Rules.{rules_of};
ghost use Rattle.cborc_commands.specs.Texts.{shown_text};
ghost use Rattle.cborc_commands.specs.inner.Decided.{IsDecided};
ghost use Rattle.cborc_commands.specs.inner.NotWritten.{IsNotTaken};

use crate::fault::Fault;
use bumpalo::Bump;
use cbor_diag::{TextBuffer, diagnostic_view_indented};
use cbor_head::{KeyOrder, Limits, Reason, Refusal};
use cbor_item::{View, write_whole};
use cbor_reader::{ItemCanonicaliser, ItemCheck, check_canonical, read_view};
use cborc_words::{Accepted, TextStyle};
use std::alloc::Global;
use std::io::Write;

/// Memory that is used for one item after another.
#[derive(Drop)]
pub struct Scratch {
    alloc: Global,
    check: ItemCheck,
    canonical: ItemCanonicaliser,
}

impl Scratch {
    /// Nothing yet. Does not allocate.
    pub fn new(alloc: Global) -> Scratch {
        Scratch {
            alloc,
            check: ItemCheck::new(alloc),
            canonical: ItemCanonicaliser::new(alloc),
        }
    }

    /// The number of bytes of the item at the start of the bytes.
    #[inline(always)]
    pub fn size_at_start(
        &mut self,
        bytes: &[u8],
        accepted: Accepted,
        limits: Limits,
    ) -> Result<u64, Refusal>
        ensures accepted { IfOk result (IsRead limits (rules_of accepted) bytes.now) }
        ensures refused { IfErr result (IsUnread limits (rules_of accepted) bytes.now) }
    {
        match accepted {
            Accepted::Valid => self.check.check(bytes, limits),
            Accepted::Canonical(order) => check_canonical(bytes, limits, order),
        }
    }

    /// Whether more bytes may change the verdict on the item at the start: the bytes end within it or
    /// with it.
    pub fn is_undecided<'a>(
        &mut self,
        bytes: &[u8],
        accepted: Accepted,
        limits: Limits,
    ) -> Result<bool, Fault<'a>>
        ensures undecided { IfOk result (λ more. more ≡ true
            → ¬ IsDecided (rules_of accepted) limits bytes.now) }
        ensures decided { IfOk result (λ more. more ≡ false
            → IsDecided (rules_of accepted) limits bytes.now) }
        ensures memory { IfErr result (λ fault. fault ≡ Fault.Memory) }
    {
        match self.size_at_start(bytes, accepted, limits) {
            Ok(size) => Ok(size == bytes.len() as u64),
            Err(refusal) => match refusal.reason {
                Reason::Truncated => Ok(true),
                Reason::Memory | Reason::Read => Err(Fault::Memory),
                _ => Ok(false),
            },
        }
    }

    /// The canonical bytes of the item at the start of the bytes, and the item's number of bytes.
    pub fn canonical_at_start<'b>(
        &'b mut self,
        bytes: &'b [u8],
        limits: Limits,
        order: KeyOrder,
    ) -> Result<(&'b [u8], u64), Refusal>
        ensures accepted { IfOk result (λ outcome.
            IsBuiltPrefix limits order bytes.now outcome.0.now outcome.1) }
        ensures refused { IfErr result (IsUnread limits plain bytes.now) }
    {
        self.canonical.canonicalise(bytes, limits, order)
    }

    /// Writes the text of the item at the start of the bytes, which is known to be valid within these
    /// limits, and a line feed. On one line, the text is complete before its first byte is written.
    pub fn print_prefix<'a, O: Write>(
        &self,
        bytes: &[u8],
        limits: Limits,
        text_style: TextStyle,
        out: &mut O,
    ) -> Result<(), Fault<'a>>
        requires { (size : ℕ) × IsRead limits plain bytes.now size }
        ensures shown { OnOk result ((s : Spelling) → IsVerdict limits plain bytes.now (accepted s)
            → Appends (O.contents out.old) (O.contents out.new) (shown_text text_style (value_of s))) }
        ensures fault { IfErr result (λ fault. (s : Spelling)
            → IsVerdict limits plain bytes.now (accepted s)
            → IsNotTaken (shown_text text_style (value_of s)) (O.contents out.old) (O.contents out.new) fault) }
        ensures silent { IfErr result (λ fault. fault ≢ Fault.CannotPrint → out.new ≡ out.old) }
    {
        match text_style {
            TextStyle::OneLine => self.print_on_one_line(bytes, limits, out),
            TextStyle::Indented => self.print_indented(bytes, limits, out),
        }
    }

    // Writes the text on one line. This is a function of its own so that the buffer of the text is not
    // on the stack while the item is checked.
    #[inline(never)]
    fn print_on_one_line<'a, O: Write>(
        &self,
        bytes: &[u8],
        limits: Limits,
        out: &mut O,
    ) -> Result<(), Fault<'a>>
        requires { (size : ℕ) × IsRead limits plain bytes.now size }
        ensures shown { OnOk result ((s : Spelling) → IsVerdict limits plain bytes.now (accepted s)
            → Appends (O.contents out.old) (O.contents out.new) (shown_text TextStyle.OneLine (value_of s))) }
        ensures fault { IfErr result (λ fault. (s : Spelling)
            → IsVerdict limits plain bytes.now (accepted s)
            → IsNotTaken (shown_text TextStyle.OneLine (value_of s))
            (O.contents out.old) (O.contents out.new) fault) }
        ensures silent { IfErr result (λ fault. fault ≢ Fault.CannotPrint → out.new ≡ out.old) }
    {
        let mut scratch = TextBuffer::new(self.alloc);
        match scratch.diagnostic_prefix(bytes, limits) {
            Ok(text) => print_line(text, out),
            Err(_) => Err(Fault::Memory),
        }
    }

    // Writes the text with one member or pair per line. Such a text can be thousands of times as long as
    // the bytes, so it is not built in memory, but written while a view of the item is traversed.
    fn print_indented<'a, O: Write>(
        &self,
        bytes: &[u8],
        limits: Limits,
        out: &mut O,
    ) -> Result<(), Fault<'a>>
        requires { (size : ℕ) × IsRead limits plain bytes.now size }
        ensures shown { OnOk result ((s : Spelling) → IsVerdict limits plain bytes.now (accepted s)
            → Appends (O.contents out.old) (O.contents out.new) (shown_text TextStyle.Indented (value_of s))) }
        ensures fault { IfErr result (λ fault. (s : Spelling)
            → IsVerdict limits plain bytes.now (accepted s)
            → IsNotTaken (shown_text TextStyle.Indented (value_of s))
            (O.contents out.old) (O.contents out.new) fault) }
        ensures silent { IfErr result (λ fault. fault ≢ Fault.CannotPrint → out.new ≡ out.old) }
    {
        let arena = Bump::new(self.alloc);
        match read_view(self.alloc, bytes, limits, &arena) {
            Ok((view, _)) => print_view(&view, out),
            // The item is valid, so memory was refused.
            Err(_) => Err(Fault::Memory),
        }
    }
}

// Writes a text and a line feed.
fn print_line<'a, O: Write>(text: &[u8], out: &mut O) -> Result<(), Fault<'a>>
    ensures shown { OnOk result
        (Appends (O.contents out.old) (O.contents out.new) (text.now ++ codes "\n")) }
    ensures fault { IfErr result (λ fault. fault ≡ Fault.CannotPrint) }
    ensures cut { IfErr result (IsNotTaken (text.now ++ codes "\n")
        (O.contents out.old) (O.contents out.new)) }
{
    match write_whole(out, text) {
        Ok(()) => match write_whole(out, b"\n") {
            Ok(()) => Ok(()),
            Err(_) => Err(Fault::CannotPrint),
        },
        Err(_) => Err(Fault::CannotPrint),
    }
}

// Writes the text of a view with one member or pair per line, and a line feed.
fn print_view<'a, O: Write>(view: &View<'_>, out: &mut O) -> Result<(), Fault<'a>>
    requires { depth (view_value view.now) ≤ MAX_DEPTH }
    ensures shown { OnOk result (Appends (O.contents out.old) (O.contents out.new)
        (shown_text TextStyle.Indented (view_value view.now))) }
    ensures fault { IfErr result (λ fault. fault ≡ Fault.CannotPrint) }
    ensures cut { IfErr result (IsNotTaken (shown_text TextStyle.Indented (view_value view.now))
        (O.contents out.old) (O.contents out.new)) }
{
    match diagnostic_view_indented(view, out) {
        Ok(_) => match write_whole(out, b"\n") {
            Ok(()) => Ok(()),
            Err(_) => Err(Fault::CannotPrint),
        },
        Err(_) => Err(Fault::CannotPrint),
    }
}
