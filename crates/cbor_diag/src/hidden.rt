//! Characters of a text that a terminal acts on and does not show, beyond those of ASCII.

ghost use Rattle.std.specs.Prelude.{◌≡◌};
ghost use Rattle.cbor_diag.specs.Hidden as hidden;

use cbor_text::is_hidden;

/// Whether a text in UTF-8 has a C1 control, a separator of lines or paragraphs, or a bidirectional
/// control. Such a character may change how a terminal shows the text around it.
pub(crate) fn has_hidden(text: &[u8]) -> bool
    ensures { result ≡ hidden.has_hidden text.now }
{
    for start in 0..text.len() {
        if begins_hidden(&text[start..]) {
            return true;
        }
    }
    false
}

fn begins_hidden(text: &[u8]) -> bool
    ensures { result ≡ hidden.begins_hidden text.now }
{
    match text {
        [a, b] => is_hidden_pair(*a, *b),
        [a, b, c, ..] => is_hidden_pair(*a, *b) || is_hidden_triple(*a, *b, *c),
        _ => false,
    }
}

// A character in two bytes: U+0080 to U+07FF.
fn is_hidden_pair(a: u8, b: u8) -> bool
    ensures { result ≡ hidden.is_hidden_pair a b }
{
    (0xc2 <= a && a <= 0xdf)
        && (0x80 <= b && b <= 0xbf)
        && is_hidden(64 * u32::from(a - 0xc0) + u32::from(b - 0x80))
}

// A character in three bytes: U+0800 to U+FFFF.
fn is_hidden_triple(a: u8, b: u8, c: u8) -> bool
    ensures { result ≡ hidden.is_hidden_triple a b c }
{
    (0xe0 <= a && a <= 0xef)
        && (0x80 <= b && b <= 0xbf)
        && (0x80 <= c && c <= 0xbf)
        && is_hidden(4096 * u32::from(a - 0xe0) + 64 * u32::from(b - 0x80) + u32::from(c - 0x80))
}
