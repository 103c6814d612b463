//! The diagnostic text of an encoded item, in a buffer.

ghost use Rattle.std.specs.Prelude.{◌≡◌, ℕ, IfOk};
ghost use Rattle.cbor_head.specs.Complaint.{plain};
ghost use Rattle.cbor_head.specs.Spelling.{Spelling, value_of};
ghost use Rattle.cbor_head.specs.Verdict.{IsVerdict, accepted};
ghost use Rattle.theory_verdicts.specs.Readers.{IsRead};
ghost use Rattle.cbor_diag.specs.Text.{text};

use crate::outbox::Outbox;
use crate::text_sink::TextSink;
use cbor_head::Limits;
use cbor_parser::Parser;
use std::alloc::{AllocError, Global};
use theory_values::spelling_laws::verdict_is_one;

/// A buffer for one text after another. It has space for 512 bytes; memory is allocated for a longer
/// text.
#[derive(Drop)]
pub struct TextBuffer {
    alloc: Global,
    shown: Vec<u8>,
    out: Outbox,
}

impl TextBuffer {
    /// An empty buffer. Allocates nothing.
    pub fn new(alloc: Global) -> TextBuffer {
        TextBuffer {
            alloc,
            shown: Vec::new(alloc),
            out: Outbox::new(),
        }
    }

    /// Returns the diagnostic text on one line (RFC 8949, section 8) of the item that the bytes
    /// begin with. The item must be valid within these limits: its keys are not compared again. The
    /// previous text is overwritten.
    ///
    /// An `Err` means that memory ran out. Memory is allocated only for a long text, and if a
    /// container is inside another.
    pub fn diagnostic_prefix(&mut self, bytes: &[u8], limits: Limits) -> Result<&[u8], AllocError>
        requires { (size : ℕ) × IsRead limits plain bytes.now size }
        ensures { IfOk result (λ shown. (s : Spelling) → IsVerdict limits plain bytes.now (accepted s)
            → shown.now ≡ text (value_of s)) }
    {
        verdict_is_one();
        self.shown.clear();
        self.out.clear();
        let sink = TextSink::new(self.alloc, &mut self.shown, &mut self.out);
        let mut building = Parser::new(sink);
        match building.parse_item(bytes, limits) {
            Ok(_) => building.sink.finish(),
            // The item is valid, so memory ran out.
            Err(_) => Err(AllocError),
        }
    }
}
