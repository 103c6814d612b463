//! Decodes hex text, and says where a text is not hex text.

ghost use Rattle.std.specs.Prelude.{◌≡◌, ◌∷◌, ℕ, List, [], OnOk, IfErr, None, IsErr, IfSome, ◌<◌};
ghost use Rattle.std.specs.List.{filter};
ghost use Rattle.hex.specs.Hex.{decode_of, hex_digit_value};
ghost use Rattle.cborc_files.specs.Hex.{is_kept, is_white};
ghost use Rattle.cborc_files.specs.Digits.{DigitsView, IsOfText, Spells, SpellsOn, IsHexErrorIn, IsWhole};
ghost use Rattle.cborc_files.specs.Place.{IsAtStart, MovesOn, IsOfHexText, IsFirstOther, IsLastAlone};

use std::io::{self, Write};
use std::marker::Model;

/// Why hex text cannot be decoded.
#[derive(Clone, Copy, Debug, PartialEq, Eq)]
pub enum DigitsFault {
    /// Memory was refused.
    Memory,
    /// The text is not hex text from this position on.
    NotHex(HexError),
}

/// Where a text is not hex text: the line and column, both from 1, of the first byte that is
/// neither a digit nor white space, and the byte. Or of the end, if the last digit has no second
/// digit.
#[derive(Clone, Copy, Debug, PartialEq, Eq)]
pub struct HexError {
    /// The line, up to 2^64 - 1.
    pub line: u64,
    /// The column there, up to 2^64 - 1.
    pub column: u64,
    /// The byte, or `None` at the end.
    pub byte: Option<u8>,
}

impl HexError {
    /// Writes a line with the position and the byte.
    pub fn write<E: Write>(&self, err: &mut E) -> io::Result<()> {
        let HexError { line, column, byte } = self;
        match byte {
            Some(byte) => writeln!(
                err,
                "  line {line}, column {column}: not a hex digit (byte {byte:02x})"
            ),
            None => writeln!(
                err,
                "  line {line}, column {column}: the last digit has no second digit"
            ),
        }
    }
}

/// The decoder's state after the last part of a text.
#[derive(Drop)]
pub struct Digits {
    // The first digit of a byte, if its second digit is expected next.
    high: Option<u8>,
    // The position of the next byte of the text.
    line: u64,
    column: u64,
}

impl Model for Digits {
    ghost Value = { DigitsView };

    ghost view = { λ d. record { high = d.high; line = d.line; column = d.column } };

    ghost invariant = { λ d. IfSome d.high (λ value. value < 16) };
}

impl Digits {
    /// The state before any text.
    pub fn new() -> Digits
        ensures none { Spells [] [] result }
        ensures place { IsAtStart result }
    {
        Digits {
            high: None,
            line: 1,
            column: 1,
        }
    }

    /// Decodes the next byte of the text, and appends the byte that it completes, if it completes one.
    pub fn push(&mut self, byte: u8, bytes: &mut Vec<u8>) -> Result<(), DigitsFault>
        ensures goes_on { OnOk result
            (SpellsOn (byte ∷ []) self.old self.new bytes.old.items bytes.new.items) }
        ensures place { OnOk result (MovesOn (byte ∷ []) self.old self.new) }
        ensures digit { OnOk result (IsOfHexText byte) }
        ensures not_hex { IfErr result (λ fault. IsOfText fault
            → IsHexErrorIn (byte ∷ []) self.old) }
        ensures other { IfErr result (IsFirstOther (byte ∷ []) self.old) }
    {
        self.take(byte, bytes)?;
        self.go_on(byte);
        Ok(())
    }

    // As `push`, but does not update the position.
    fn take(&mut self, byte: u8, bytes: &mut Vec<u8>) -> Result<(), DigitsFault>
        ensures goes_on { OnOk result
            (SpellsOn (byte ∷ []) self.old self.new bytes.old.items bytes.new.items) }
        ensures line { self.new.line ≡ self.old.line }
        ensures column { self.new.column ≡ self.old.column }
        ensures digit { OnOk result (IsOfHexText byte) }
        ensures not_hex { IfErr result (λ fault. IsOfText fault
            → IsHexErrorIn (byte ∷ []) self.old) }
        ensures other { IfErr result (IsFirstOther (byte ∷ []) self.old) }
    {
        if is_white(byte) {
            return Ok(());
        }
        let Some(value) = digit_value(byte) else {
            return Err(DigitsFault::NotHex(self.hex_error(Some(byte))));
        };
        match self.high {
            None => self.high = Some(value),
            Some(high) => {
                self.high = None;
                let byte = high * 16 + value;
                match bytes.push(byte) {
                    Ok(()) => {}
                    Err(_) => return Err(DigitsFault::Memory),
                }
            }
        }
        Ok(())
    }

    /// Decodes the next bytes of the text, and appends the bytes that they complete.
    pub fn push_all(&mut self, text: &[u8], bytes: &mut Vec<u8>) -> Result<(), DigitsFault>
        ensures goes_on { OnOk result
            (SpellsOn text.now self.old self.new bytes.old.items bytes.new.items) }
        ensures place { OnOk result (MovesOn text.now self.old self.new) }
        ensures not_hex { IfErr result (λ fault. IsOfText fault → IsHexErrorIn text.now self.old) }
        ensures other { IfErr result (IsFirstOther text.now self.old) }
    {
        'text: for byte in text {
            self.push(*byte, bytes)?;
        }
        Ok(())
    }

    // Moves the position past this byte of the text.
    fn go_on(&mut self, byte: u8)
        ensures high { self.new.high ≡ self.old.high }
        ensures place { MovesOn (byte ∷ []) self.old self.new }
    {
        if byte == b'\n' {
            self.line = self.line.saturating_add(1);
            self.column = 1;
        } else {
            self.column = self.column.saturating_add(1);
        }
    }

    fn hex_error(&self, byte: Option<u8>) -> HexError
        ensures { result ≡ record { line = self.now.line; column = self.now.column; byte = byte } }
    {
        HexError {
            line: self.line,
            column: self.column,
            byte,
        }
    }

    /// Checks that the text can end here: each digit has its second digit.
    pub fn finish(&self) -> Result<(), DigitsFault>
        ensures whole { OnOk result (IsWhole self.now) }
        ensures not_hex { IfErr result (λ fault. (text spelled : List ℕ)
            → Spells text spelled self.now
            → IsErr (decode_of (filter is_kept text))) }
        ensures alone { IfErr result (IsLastAlone self.now) }
    {
        match self.high {
            None => Ok(()),
            Some(_) => Err(DigitsFault::NotHex(self.hex_error(None))),
        }
    }
}

// Whether hex text ignores the byte: a tab, a line feed, a carriage return or a space.
fn is_white(byte: u8) -> bool
    ensures { result ≡ is_white byte }
{
    matches!(byte, b'\t' | b'\n' | b'\r' | b' ')
}

// The value of a digit, of either case.
fn digit_value(byte: u8) -> Option<u8>
    ensures value { result ≡ hex_digit_value byte }
    ensures small { IfSome result (λ value. value < 16) }
{
    match byte {
        b'0'..=b'9' => Some(byte - b'0'),
        b'a'..=b'f' => Some(byte - b'a' + 10),
        b'A'..=b'F' => Some(byte - b'A' + 10),
        _ => None,
    }
}
