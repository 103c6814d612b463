//! Why the program ends without a result.

ghost use Rattle.std.specs.Prelude.{◌≡◌};
ghost use Rattle.cborc_files.specs.Digits.{IsOfText};
ghost use Rattle.cborc_commands.specs.Fault.{fault_status, refusal_fault, at_item, side_fault};

use crate::status::Status;
use cbor_head::{Reason, Refusal};
use cbor_reader::Side;
use cborc_files::{DigitsFault, FileFault, Visible};
use thiserror::Error;

/// Why the program ends without a result. Its text is the line on standard error.
#[derive(Clone, Copy, Debug, Error)]
pub enum Fault<'a> {
    /// The bytes of the input are refused.
    #[error("refused {0}")]
    Refused(Refusal),
    /// An item of the sequence in the input is refused.
    #[error("item {index} refused {refusal}")]
    RefusedItem {
        /// The number of the item, counted from 1.
        index: usize,
        /// The offset in bytes of its first byte in the input.
        start: usize,
        /// Why it is refused. Offsets count from its first byte.
        refusal: Refusal,
    },
    /// The bytes of the first of two inputs are refused.
    #[error("left refused {0}")]
    LeftRefused(Refusal),
    /// The bytes of the second of two inputs are refused.
    #[error("right refused {0}")]
    RightRefused(Refusal),
    /// The argument with this number is not UTF-8. The program's name has the number 0.
    #[error("argument {0} is not UTF-8; to read a file of such a name, use '- < FILE'")]
    NotText(usize),
    /// The file at this path cannot be read.
    #[error("cannot read {}", Visible(.0))]
    CannotRead(&'a str),
    /// The file at this path is not hex text.
    #[error("not hex: {}", Visible(.0))]
    NotHex(&'a str),
    /// The file at this path cannot be written.
    #[error("cannot write {}", Visible(.0))]
    CannotWrite(&'a str),
    /// Standard output cannot be written.
    #[error("cannot write standard output")]
    CannotPrint,
    /// Memory was refused.
    #[error("out of memory")]
    Memory,
}

impl<'a> Fault<'a> {
    /// The exit status.
    pub fn status(&self) -> Status
        ensures { result ≡ fault_status self.now }
    {
        match self {
            Fault::Refused(_) => Status::Refused,
            Fault::RefusedItem { .. } => Status::Refused,
            Fault::LeftRefused(_) | Fault::RightRefused(_) => Status::Refused,
            Fault::NotText(_) => Status::Misused,
            _ => Status::Failed,
        }
    }

    /// The fault of the item with this number in a sequence, at this offset of the input.
    pub fn at_item(self, index: usize, start: usize) -> Fault<'a>
        ensures { result ≡ at_item index start self.entry }
    {
        match self {
            Fault::Refused(refusal) => Fault::RefusedItem {
                index,
                start,
                refusal,
            },
            fault => fault,
        }
    }

    /// The fault of reading the file at this path.
    pub(crate) fn of_reading(path: &'a str, fault: FileFault) -> Fault<'a>
        ensures failed { fault ≡ FileFault.Failed → result ≡ Fault.CannotRead path.entry }
        ensures memory { fault ≡ FileFault.Memory → result ≡ Fault.Memory }
    {
        match fault {
            FileFault::Failed => Fault::CannotRead(path),
            FileFault::Memory => Fault::Memory,
        }
    }

    /// The fault of writing the file at this path.
    pub fn of_writing(path: &'a str, fault: FileFault) -> Fault<'a>
        ensures failed { fault ≡ FileFault.Failed → result ≡ Fault.CannotWrite path.entry }
        ensures memory { fault ≡ FileFault.Memory → result ≡ Fault.Memory }
    {
        match fault {
            FileFault::Failed => Fault::CannotWrite(path),
            FileFault::Memory => Fault::Memory,
        }
    }

    /// The fault of decoding the file at this path as hex text.
    pub(crate) fn of_digits(path: &'a str, fault: DigitsFault) -> Fault<'a>
        ensures not_hex { IsOfText fault → result ≡ Fault.NotHex path.entry }
        ensures memory { ¬ IsOfText fault → result ≡ Fault.Memory }
    {
        match fault {
            DigitsFault::Memory => Fault::Memory,
            DigitsFault::NotHex(_) => Fault::NotHex(path),
        }
    }
}

impl<'a> From<Refusal> for Fault<'a> {
    ghost from_gives = { λ f fault. fault ≡ refusal_fault f };

    fn from(refusal: Refusal) -> Fault<'a> {
        match refusal.reason {
            // Only slices are read, so no read fails.
            Reason::Memory | Reason::Read => Fault::Memory,
            _ => Fault::Refused(refusal),
        }
    }
}

impl<'a> From<(Side, Refusal)> for Fault<'a> {
    ghost from_gives = { λ e fault. fault ≡ side_fault e.0 e.1 };

    fn from((side, refusal): (Side, Refusal)) -> Fault<'a> {
        match (refusal.reason, side) {
            (Reason::Memory, _) => Fault::Memory,
            (_, Side::Left) => Fault::LeftRefused(refusal),
            (_, Side::Right) => Fault::RightRefused(refusal),
        }
    }
}
