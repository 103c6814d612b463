//! Characters that a terminal acts on and does not show.

ghost use Rattle.std.specs.Prelude.{◌≡◌};
ghost use Rattle.cbor_text.specs.Hidden.{is_hidden};

/// Whether a terminal acts on this code point and does not show it: a control character (C0, DELETE,
/// C1), a separator of lines or paragraphs, or a bidirectional control.
pub fn is_hidden(code: u32) -> bool
    ensures { result ≡ is_hidden code }
{
    matches!(
        code,
        0..=0x1f
            | 0x7f..=0x9f
            | 0x061c
            | 0x200e..=0x200f
            | 0x2028..=0x202e
            | 0x2066..=0x2069
    )
}
