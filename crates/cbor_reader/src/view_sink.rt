//! A builder of views as a sink of the slice parser.

ghost use Rattle.std.specs.Prelude.{◌≡◌, [], true, false, IsUtf8};
ghost use Rattle.cbor_builder.specs.Built.{IsLeaf};
ghost use Rattle.cbor_head.specs.Head.{IsSimple};
ghost use Rattle.cbor_head.specs.Spelling.{Spelling, value_of};
ghost use Rattle.cbor_head.specs.declared.major.Major.TheVariants as majors;
ghost use Rattle.cbor_item.specs.OpenValues.{IsWhole};
ghost use Rattle.theory_verdicts.specs.Levels.{item_expected, item_whole};
ghost use Rattle.theory_verdicts.specs.Reading.{string_value};
ghost use Rattle.cbor_reader.specs.declared.view_sink.ViewSink.{ViewSink as ViewSinkView};
ghost use Rattle.cbor_reader.specs.inner.ViewSinks.{view_agrees, view_holds};
ghost use Rattle.cbor_item.specs.ViewValue.{view_value, open_levels};
ghost use Rattle.cbor_parser.specs.Sink.{leaf_value};

use crate::key_bytes::KeyBytes;
use bumpalo::Bump;
use cbor_builder::Repeat;
use cbor_head::Major;
use cbor_item::{Joined, View, ViewBuilder};
use cbor_memory::Memory;
use cbor_parser::Sink;
use std::alloc::{AllocError, Global};

/// The views of the parts so far, and the canonical bytes of keys, which equal ones are found by.
#[derive(Drop)]
pub(crate) struct ViewSink<'a> {
    keys: KeyBytes,
    views: ViewBuilder<'a>,
    // The content so far of a string in chunks.
    joined: Joined,
}

impl<'a> ViewSink<'a> {
    // A sink that was given nothing.
    pub(crate) fn new(alloc: Global, arena: &'a Bump) -> ViewSink<'a>
        ensures { view_agrees result result (item_expected []) }
    {
        ViewSink {
            keys: KeyBytes::new(alloc),
            views: ViewBuilder::new(alloc, arena),
            joined: Joined::new(alloc),
        }
    }

    // The view of the item, which is complete.
    pub(crate) fn finish(self) -> View<'a>
        requires { IsWhole (open_levels self.views) }
        ensures { (start : ViewSinkView) (s : Spelling)
            → view_agrees start self.entry (item_whole s) → view_value result ≡ value_of s }
    {
        let ViewSink {
            keys: _,
            views,
            joined: _,
        } = self;
        views.finish()
    }
}

impl<'a> Sink<'a> for ViewSink<'a> {
    ghost agrees = { view_agrees };

    ghost holds = { view_holds };

    #[inline(always)]
    fn is_trusting() -> bool
        ensures { result ≡ false }
    {
        false
    }

    #[inline(always)]
    fn leaf(&mut self, is_key: bool, major: Major, number: u64) -> Result<(), AllocError> {
        self.keys.leaf(is_key, major, number)?;
        self.views.leaf(leaf_view(major, number))?;
        Ok(())
    }

    #[inline(always)]
    fn string(
        &mut self,
        is_key: bool,
        is_text: bool,
        prefix: &'a [u8],
        count: usize,
    ) -> Result<(), AllocError> {
        self.keys.string(is_key, is_text, prefix, count)?;
        self.views.leaf(string_view(is_text, &prefix[..count]))?;
        Ok(())
    }

    #[inline(always)]
    fn begin_string(&mut self, _is_key: bool, _is_text: bool) -> Result<(), AllocError> {
        self.joined.clear();
        Ok(())
    }

    #[inline(always)]
    fn chunk(
        &mut self,
        _is_key: bool,
        _is_text: bool,
        prefix: &'a [u8],
        count: usize,
    ) -> Result<(), AllocError> {
        self.joined.extend_prefix(&mut Memory::new(), prefix, count)
    }

    #[inline(always)]
    fn end_string(&mut self, is_key: bool, is_text: bool) -> Result<(), AllocError> {
        let content = self.joined.as_slice();
        self.keys.string(is_key, is_text, content, content.len())?;
        if is_text {
            // Each chunk was found to be UTF-8.
            let text = unsafe { str::from_utf8_unchecked(content) };
            self.views.copied_text(text)?;
        } else {
            self.views.copied_bytes(content)?;
        }
        Ok(())
    }

    #[inline(never)]
    fn begin(&mut self, is_key: bool, major: Major, number: u64) -> Result<(), AllocError> {
        self.keys.begin(is_key, major, number)?;
        self.views.begin(major, number)?;
        Ok(())
    }

    #[inline(never)]
    fn end(&mut self, is_map: bool) -> Result<Option<Repeat>, AllocError> {
        if let Some(repeat) = self.keys.end(is_map)? {
            return Ok(Some(repeat));
        }
        self.views.end()?;
        Ok(None)
    }

    fn first_repeat(&mut self) -> Option<Repeat> {
        self.keys.first_repeat()
    }
}

// An integer or a simple value.
#[inline(always)]
fn leaf_view<'a>(major: Major, number: u64) -> View<'a>
    requires kind { IsLeaf major }
    requires simple { major ≡ majors.Simple → IsSimple number }
    ensures { view_value result ≡ leaf_value major number }
{
    match major {
        Major::Negative => View::Negative(number),
        Major::Simple => View::Simple(number as u8),
        _ => View::Unsigned(number),
    }
}

// A string that is borrowed from the input.
#[inline(always)]
fn string_view<'a>(is_text: bool, content: &'a [u8]) -> View<'a>
    requires { is_text ≡ true → IsUtf8 content.now }
    ensures { view_value result ≡ string_value is_text content.now }
{
    if is_text {
        // It was found to be UTF-8.
        View::Text(unsafe { str::from_utf8_unchecked(content) })
    } else {
        View::Bytes(content)
    }
}
