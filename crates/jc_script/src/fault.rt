//! Faults of a script's line.

ghost use Rattle.std.specs.Prelude.{◌≡◌};

use crate::hexadecimal::Hexadecimal;
use std::fmt;

/// The cause of a line's fault.
#[derive(Clone, Copy, Debug, PartialEq, Eq)]
pub enum LineCause {
    /// A space begins or ends the line, or follows another space.
    BlankTooMany,
    /// The first word is no command.
    UnknownCommand,
    /// The command has too few words.
    WordMissing,
    /// The command has too many words.
    WordTooMany,
    /// A word in hexadecimal has an odd number of digits.
    OddDigit,
    /// A byte of such a word is no digit.
    NoDigit(u8),
    /// A byte isn't printable, in place of a command or a digit.
    Unprintable(u8),
    /// An AID has fewer than 5 or more than 16 bytes.
    AidLength,
    /// A name isn't UTF-8.
    NotText,
    /// A name begins with a quote that isn't closed.
    OpenQuote,
    /// A budget of steps isn't 1 to 4,294,967,295 in decimal digits.
    NoBudget,
    /// The line has more than 1,024 bytes.
    TooLong,
    /// It follows 100,000 lines.
    TooMany,
}

/// A byte that isn't printable, as Rust escapes it.
#[derive(Clone, Copy)]
struct Escaped {
    byte: u8,
}

impl fmt::Display for Escaped {
    ghost use Rattle.std.specs.Prelude.{Some};
    ghost use Rattle.jc_script.specs.Faults.{escaped};

    ghost output = { λ e. Some (escaped e.byte) };

    fn fmt<W: fmt::Write>(&self, f: &mut fmt::Formatter<W>) -> fmt::Result {
        match self.byte {
            b'\t' => write!(f, "\\t"),
            b'\r' => write!(f, "\\r"),
            byte => write!(f, "\\x{}", Hexadecimal { bytes: &[byte] }),
        }
    }
}

impl fmt::Display for LineCause {
    ghost use Rattle.std.specs.Prelude.{Some};
    ghost use Rattle.jc_script.specs.Faults.{cause_text};

    ghost output = { λ cause. Some (cause_text cause) };

    fn fmt<W: fmt::Write>(&self, f: &mut fmt::Formatter<W>) -> fmt::Result {
        match self {
            LineCause::BlankTooMany => write!(f, "a blank too many"),
            LineCause::UnknownCommand => write!(f, "an unknown command"),
            LineCause::WordMissing => write!(f, "a word is missing"),
            LineCause::WordTooMany => write!(f, "a word too many"),
            LineCause::OddDigit => write!(f, "an odd digit"),
            LineCause::NoDigit(byte) => write!(f, "no hexadecimal digit: {}", char::from(*byte)),
            LineCause::Unprintable(byte) => {
                write!(
                    f,
                    "a byte that isn't printable: {}",
                    Escaped { byte: *byte }
                )
            }
            LineCause::AidLength => write!(f, "an AID with fewer than 5 or more than 16 bytes"),
            LineCause::NotText => write!(f, "a name that isn't UTF-8"),
            LineCause::OpenQuote => write!(f, "a quote without another"),
            LineCause::NoBudget => write!(f, "no number from 1 to 4294967295"),
            LineCause::TooLong => write!(f, "more than 1024 bytes"),
            LineCause::TooMany => write!(f, "more than 100000 lines"),
        }
    }
}

/// A line's fault, and its place.
#[derive(Clone, Copy, Debug, PartialEq, Eq)]
pub struct LineFault {
    pub cause: LineCause,
    /// The column of the first byte at fault, from 1 on, in bytes. If something is missing it is the next column.
    pub column: usize,
}

impl fmt::Display for LineFault {
    ghost use Rattle.std.specs.Prelude.{Some};
    ghost use Rattle.jc_script.specs.Faults.{fault_text};

    ghost output = { λ fault. Some (fault_text fault) };

    fn fmt<W: fmt::Write>(&self, f: &mut fmt::Formatter<W>) -> fmt::Result {
        write!(f, "column {}: {}", self.column, self.cause)
    }
}
