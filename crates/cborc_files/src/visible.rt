//! Text for a terminal.

ghost use Rattle.std.specs.Prelude.{◌≡◌, Some};
ghost use Rattle.std.specs.Fmt.{DisplaysOnOk};
ghost use Rattle.cborc_files.specs.Visible.{visible_character, visible_text};

use cbor_text::is_hidden;
use std::fmt;

/// A path as messages show it: a character that would move the cursor, end the line or change the
/// direction of the text is written as `\u` and four hex digits.
#[derive(Clone, Copy, Debug)]
pub struct Visible<'a>(pub &'a str);

impl<'a> fmt::Display for Visible<'a> {
    ghost output = { λ v. Some (visible_text v.0.now) };

    fn fmt<W: fmt::Write>(&self, f: &mut fmt::Formatter<W>) -> fmt::Result {
        write_visible(self.0, f)
    }
}

fn write_visible<W: fmt::Write>(path: &str, f: &mut fmt::Formatter<W>) -> fmt::Result
    ensures { DisplaysOnOk W.write_str_gives f.old result (Some (visible_text path.now)) f.new }
{
    for character in path.chars() {
        write!(f, "{}", VisibleCharacter(character))?;
    }
    Ok(())
}

// A character as messages show it.
#[derive(Clone, Copy)]
struct VisibleCharacter(char);

impl fmt::Display for VisibleCharacter {
    ghost output = { λ v. Some (visible_character v.0) };

    fn fmt<W: fmt::Write>(&self, f: &mut fmt::Formatter<W>) -> fmt::Result {
        let character = self.0;
        let code = u32::from(character);
        if is_hidden(code) {
            write!(f, "\\u{code:04x}")
        } else {
            write!(f, "{character}")
        }
    }
}
