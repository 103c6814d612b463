//! The strings of a valid item: their payloads, in one piece or in chunks.

ghost use Rattle.std.specs.Prelude.{◌≡◌, ◌∷◌, ℕ, List, None, IfSome, MatchOption};
ghost use Rattle.theory_verdicts.specs.Reading.{string_major};
ghost use Rattle.cbor_parser.specs.inner.Parser.{IsExpectedFor, TakesItem};
ghost use Rattle.cbor_parser.specs.declared.item_rules.Part.TheVariants as parts;
ghost use Rattle.cbor_parser.specs.inner.Parts.{IsHead, IsPayload, IsWholePayload, chunked_from, TakesScalar};

use crate::item_rules::Part;
use crate::open_container::OpenContainer;
use crate::parser::{Parser, SinkStop};
use crate::sink::Sink;
use cbor_head::{Argument, read_argument};
use cbor_text::is_text_prefix;

impl<S> Parser<S> {
    /// Takes the string that `rest` begins with. Its payload has `count` bytes; `following` follows
    /// its head.
    #[inline(always)]
    pub(crate) fn take_string<'a>(
        &mut self,
        top: &OpenContainer<usize>,
        is_text: bool,
        count: u64,
        rest: &'a [u8],
        following: &'a [u8],
    ) -> Part<SinkStop>
    where
        S: Sink<'a>,
        requires head { IsHead (string_major is_text) count rest.now following.now }
        requires expected { IsExpectedFor S S.agrees S.trusts top.now self.old.sink rest.now }
        ensures takes { TakesItem S S.agrees S.trusts S.holds S.refused result rest.now top.now self.old.sink self.new.sink }
        ensures prefix { TakesScalar result rest.now }
        ensures untaken { result ≡ parts.Untaken → IsWholePayload is_text count following.now → ⊥ }
    {
        let Some(size) = payload_size::<S>(is_text, count, following) else {
            return Part::Untaken;
        };
        let is_key = top.expected.is_key();
        match self.sink.string(is_key, is_text, following, size) {
            Ok(()) => Part::Item(rest.len() - following.len() + size),
            Err(_) => Part::Stopped(SinkStop::Memory),
        }
    }

    /// Takes the string in chunks that `start` begins with; `following` follows its opener.
    pub(crate) fn take_chunks<'a>(
        &mut self,
        top: &OpenContainer<usize>,
        is_text: bool,
        start: &'a [u8],
        following: &'a [u8],
    ) -> Part<SinkStop>
    where
        S: Sink<'a>,
        requires opener { start.now ≡ chunked_from is_text following.now }
        requires expected { IsExpectedFor S S.agrees S.trusts top.now self.old.sink start.now }
        ensures takes { TakesItem S S.agrees S.trusts S.holds S.refused result start.now top.now self.old.sink self.new.sink }
        ensures prefix { TakesScalar result start.now }
        ensures untaken { result ≡ parts.Untaken → ⊥ }
    {
        let is_key = top.expected.is_key();
        let Ok(()) = self.sink.begin_string(is_key, is_text) else {
            return Part::Stopped(SinkStop::Memory);
        };
        let mut rest = following;
        'chunks: loop {
            let Some((first, following)) = rest.split_first() else {
                return Part::Stopped(SinkStop::Broken);
            };
            if *first == 0xff {
                return match self.sink.end_string(is_key, is_text) {
                    Ok(()) => Part::Item(start.len() - following.len()),
                    Err(_) => Part::Stopped(SinkStop::Memory),
                };
            }
            let Some(head) = chunk_head(is_text, *first, following) else {
                return Part::Stopped(SinkStop::Broken);
            };
            let Some(size) = payload_size::<S>(is_text, head.number, head.rest) else {
                return Part::Stopped(SinkStop::Broken);
            };
            let Ok(()) = self.sink.chunk(is_key, is_text, head.rest, size) else {
                return Part::Stopped(SinkStop::Memory);
            };
            rest = &head.rest[size..];
        }
    }
}

// The head of a chunk with this first byte.
#[inline(always)]
fn chunk_head<'a>(is_text: bool, first: u8, following: &'a [u8]) -> Option<Argument<'a>>
    ensures some { IfSome result (λ head.
        IsHead (string_major is_text) head.number (first ∷ following.now) head.rest.now) }
    ensures none { result ≡ None → (n : ℕ) (rest : List ℕ)
        → IsHead (string_major is_text) n (first ∷ following.now) rest → ⊥ }
{
    let kind = if is_text { 3 } else { 2 };
    if first / 32 != kind || first % 32 > 27 {
        return None;
    }
    read_argument(first % 32, following)
}

// The size of a payload, if all its bytes are there, and are UTF-8 if it is a text's. If the item
// is known to be valid, its texts are not checked.
#[inline(always)]
fn payload_size<'a, S: Sink<'a>>(is_text: bool, count: u64, rest: &'a [u8]) -> Option<usize>
    ensures { MatchOption result (IsWholePayload is_text count rest.now → ⊥)
        (λ size. IsPayload S.trusts is_text count size rest.now) }
{
    if count > rest.len() as u64 {
        return None;
    }
    let size = count as usize;
    if is_text && !S::is_trusting() && !is_text_prefix(rest, size) {
        return None;
    }
    Some(size)
}
