//! The frame of a container that begins.

ghost use Rattle.std.specs.Prelude.{◌≡◌};
ghost use Rattle.cbor_builder.specs.inner.Laid.{opening_frame};

use crate::frame::{Frame, Shape};
use cbor_head::Major;

/// The frame of the container that begins. Its head is from `from` to `end`, and there are `spans`
/// spans before it.
#[inline(always)]
pub(crate) fn opening(major: Major, from: usize, end: usize, spans: usize) -> Frame
    ensures { result ≡ opening_frame major from end spans }
{
    let (start, shape) = match major {
        Major::Array => (end, Shape::Array(0)),
        Major::Map => (end, Shape::Map(spans)),
        Major::Tag => (from, Shape::Plain),
        _ => (end, Shape::Content(major)),
    };
    Frame {
        from,
        start,
        shape,
        rises: true,
    }
}
