//! Why a script ends before its last line.

ghost use Rattle.std.specs.Prelude.{◌≡◌};

use jc_card::CardFault;
use jc_script::{LineFault, ReadFault};
use std::error::Error;
use std::{fmt, io};

/// Why a script ends before its last line.
#[derive(Debug, Drop)]
pub enum ScriptFault {
    /// The line with this number, from 1 on, is no command, for this reason: it means something else, is too long, or
    /// its number is too great.
    BadLine { number: u32, fault: LineFault },
    /// A package or a certificate that the line with this number names can't be read.
    Source(u32),
    /// The script can't be read.
    Read(ReadFault),
    /// An answer can't be written.
    Write(io::Error),
    /// One of the card's limits is too small or too large.
    BadLimits,
    /// Memory ran out for the card, or for what a line names.
    Memory,
}

impl fmt::Display for ScriptFault {
    ghost use Rattle.jc_run.specs.Texts.{script_fault_text};

    ghost output = { script_fault_text };

    fn fmt<W: fmt::Write>(&self, f: &mut fmt::Formatter<W>) -> fmt::Result {
        match self {
            ScriptFault::BadLine { number, fault } => write!(f, "line {number}, {fault}"),
            ScriptFault::Source(number) => {
                write!(
                    f,
                    "line {number}: the package or its certificate can't be read"
                )
            }
            ScriptFault::Read(fault) => write!(f, "the script can't be read: {fault}"),
            ScriptFault::Write(error) => write!(f, "an answer can't be written: {error}"),
            ScriptFault::BadLimits => write!(f, "the limits are too small or too large"),
            ScriptFault::Memory => write!(f, "out of memory"),
        }
    }
}

impl Error for ScriptFault {}

/// Why no card is made.
impl From<CardFault> for ScriptFault {
    ghost use Rattle.jc_run.specs.End.{card_fault};

    ghost from_gives = { λ why fault. fault ≡ card_fault why };

    fn from(fault: CardFault) -> ScriptFault {
        match fault {
            CardFault::BadLimits => ScriptFault::BadLimits,
            CardFault::Memory => ScriptFault::Memory,
        }
    }
}

/// Why the script isn't read.
impl From<ReadFault> for ScriptFault {
    ghost use Rattle.jc_run.specs.declared.fault.ScriptFault.TheVariants.{Read};

    ghost from_gives = { λ why fault. fault ≡ Read why };

    fn from(fault: ReadFault) -> ScriptFault {
        ScriptFault::Read(fault)
    }
}
