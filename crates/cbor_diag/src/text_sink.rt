//! The diagnostic text of an item, from its parts in their order.

ghost use Rattle.std.specs.Prelude.{◌≡◌, ◌++◌, [], true, IfOk, OnOk, option_to_list};
ghost use Rattle.cbor_head.specs.Head.{IsSimple};
ghost use Rattle.cbor_head.specs.Spelling.{Spelling, value_of};
ghost use Rattle.cbor_head.specs.declared.major.Major.TheVariants as majors;
ghost use Rattle.theory_verdicts.specs.Levels.{item_expected, item_whole};
ghost use Rattle.cbor_parser.specs.Sink.{leaf_value};
ghost use Rattle.cbor_diag.specs.inner.Outbox.{Puts};
ghost use Rattle.cbor_diag.specs.inner.TextSinks.{opener, closer, Reaches};
ghost use Rattle.cbor_diag.specs.inner.TextSinks.{text_agrees, text_holds};
ghost use Rattle.cbor_diag.specs.Text.{text};

use crate::outbox::{Outbox, Stopped};
use crate::pieces::{
    put_closing, put_content, put_negative, put_number, put_opening, put_simple, put_string,
};
use cbor_head::Major;
use cbor_item::Repeat;
use cbor_parser::Sink;
use std::alloc::{AllocError, Global};
use std::io::Write;

/// A sink that writes the text of the parts on one line. It does not look for equal keys.
#[derive(Drop)]
pub(crate) struct TextSink<'o> {
    // The innermost container, and those around it, the outermost first.
    inner: Option<Open>,
    around: Vec<Open>,
    // The text, and what waits to be written after it.
    shown: &'o mut Vec<u8>,
    out: &'o mut Outbox,
}

/// A container whose end is not written yet.
#[derive(Clone, Copy)]
pub(crate) struct Open {
    major: Major,
    // Whether no member or pair of it is written yet.
    is_first: bool,
}

impl<'o> TextSink<'o> {
    // A sink without any part.
    pub(crate) fn new(alloc: Global, shown: &'o mut Vec<u8>, out: &'o mut Outbox) -> TextSink<'o>
        requires shown { shown.old.items ≡ [] }
        requires out { out.old.waiting.items ≡ [] }
        ensures { text_agrees result result (item_expected []) }
    {
        TextSink {
            inner: None,
            around: Vec::new(alloc),
            shown,
            out,
        }
    }

    // Returns the text of the item, which must be whole. A short text is only in the outbox.
    pub(crate) fn finish(self) -> Result<&'o [u8], AllocError>
        ensures { IfOk result (λ shown. (s : Spelling)
            → text_agrees self.entry self.entry (item_whole s) → shown.now ≡ text (value_of s)) }
    {
        let TextSink {
            inner: _,
            around: _,
            shown,
            out,
        } = self;
        if shown.is_empty() {
            return Ok(out.as_slice());
        }
        out.flush(shown)?;
        Ok(shown.as_slice())
    }

    // Puts the text before an item.
    #[inline(always)]
    fn reach(&mut self, is_key: bool) -> Result<(), Stopped>
        ensures { OnOk result (Reaches is_key self.old self.new) }
    {
        let Some(open) = self.inner else {
            return Ok(());
        };
        match open.major {
            Major::Tag => Ok(()),
            Major::Map if !is_key => self.out.put(self.shown, b": "),
            major if open.is_first => {
                self.inner = Some(Open {
                    major,
                    is_first: false,
                });
                Ok(())
            }
            _ => self.out.put(self.shown, b", "),
        }
    }
}

impl<'a, 'o> Sink<'a> for TextSink<'o> {
    ghost agrees = { text_agrees };

    ghost holds = { text_holds };

    ghost trusts = { true };

    #[inline(always)]
    fn is_trusting() -> bool
        ensures { result ≡ true }
    {
        true
    }

    #[inline(always)]
    fn leaf(&mut self, is_key: bool, major: Major, number: u64) -> Result<(), AllocError> {
        self.reach(is_key)?;
        put_leaf(major, number, self.out, self.shown)?;
        Ok(())
    }

    #[inline(always)]
    fn string(
        &mut self,
        is_key: bool,
        is_text: bool,
        prefix: &'a [u8],
        count: usize,
    ) -> Result<(), AllocError> {
        self.reach(is_key)?;
        put_string(is_text, &prefix[..count], self.out, self.shown)?;
        Ok(())
    }

    #[inline(always)]
    fn begin_string(&mut self, is_key: bool, is_text: bool) -> Result<(), AllocError> {
        self.reach(is_key)?;
        put_opening(is_text, self.out, self.shown)?;
        Ok(())
    }

    #[inline(always)]
    fn chunk(
        &mut self,
        _is_key: bool,
        is_text: bool,
        prefix: &'a [u8],
        count: usize,
    ) -> Result<(), AllocError> {
        put_content(is_text, &prefix[..count], self.out, self.shown)?;
        Ok(())
    }

    #[inline(always)]
    fn end_string(&mut self, _is_key: bool, is_text: bool) -> Result<(), AllocError> {
        put_closing(is_text, self.out, self.shown)?;
        Ok(())
    }

    #[inline(always)]
    fn begin(&mut self, is_key: bool, major: Major, number: u64) -> Result<(), AllocError> {
        self.reach(is_key)?;
        put_opener(major, number, self.out, self.shown)?;
        push(&mut self.around, self.inner)?;
        self.inner = Some(Open {
            major,
            is_first: true,
        });
        Ok(())
    }

    #[inline(always)]
    fn end(&mut self, _is_map: bool) -> Result<Option<Repeat>, AllocError> {
        let Some(open) = self.inner else {
            unreachable!();
        };
        put_closer(open.major, self.out, self.shown)?;
        self.inner = self.around.pop();
        Ok(None)
    }

    // The sink stores no keys.
    fn first_repeat(&mut self) -> Option<Repeat> {
        None
    }
}

impl From<Stopped> for AllocError {
    fn from(_stopped: Stopped) -> AllocError {
        AllocError
    }
}

// Adds the container, if there is one, to those around.
#[inline(always)]
fn push(around: &mut Vec<Open>, inner: Option<Open>) -> Result<(), AllocError>
    ensures { OnOk result (around.new.items ≡ around.old.items ++ option_to_list inner) }
{
    if let Some(open) = inner {
        around.push(open)?;
    }
    Ok(())
}

// Puts an integer or a simple value.
fn put_leaf<W: Write>(
    major: Major,
    number: u64,
    out: &mut Outbox,
    writer: &mut W,
) -> Result<(), Stopped>
    requires { major ≡ majors.Simple → IsSimple number }
    ensures { Puts (W.contents writer.old) (W.contents writer.new) out.old out.new
        (text (leaf_value major number)) result }
{
    match major {
        Major::Negative => put_negative(number, out, writer),
        Major::Simple => put_simple(number as u8, out, writer),
        _ => put_number(number, out, writer),
    }
}

// Puts the start of a container.
fn put_opener<W: Write>(
    major: Major,
    number: u64,
    out: &mut Outbox,
    writer: &mut W,
) -> Result<(), Stopped>
    ensures { Puts (W.contents writer.old) (W.contents writer.new) out.old out.new
        (opener major number) result }
{
    match major {
        Major::Array => out.put(writer, b"["),
        Major::Map => out.put(writer, b"{"),
        _ => {
            put_number(number, out, writer)?;
            out.put(writer, b"(")
        }
    }
}

// Puts the end of a container.
#[inline(always)]
fn put_closer<W: Write>(major: Major, out: &mut Outbox, writer: &mut W) -> Result<(), Stopped>
    ensures { Puts (W.contents writer.old) (W.contents writer.new) out.old out.new
        (closer major) result }
{
    match major {
        Major::Array => out.put(writer, b"]"),
        Major::Map => out.put(writer, b"}"),
        _ => out.put(writer, b")"),
    }
}
