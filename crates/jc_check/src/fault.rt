//! Faults of code that isn't accepted.

ghost use Rattle.std.specs.Prelude.{◌≡◌};
ghost use Rattle.jc_check.specs.FirstFault.{reason_of};
ghost use Rattle.jc_check.specs.declared.fault.WordFault.TheVariants.{Memory, Refused};

use jc_base::Reason;
use jc_code::CodeFault;
use std::alloc::{AllocError, AllocFailed};
use thiserror::Error;

/// A fault of a method: a reason, and the pc for which it is reported.
#[derive(Clone, Copy, Debug, PartialEq, Eq)]
pub struct Fault {
    pub pc: u16,
    pub reason: Reason,
}

/// The reason that is reported for a fault in decoding.
pub fn reason_for(fault: CodeFault) -> Reason
    ensures { result ≡ reason_of fault }
{
    match fault {
        CodeFault::BadOpcode => Reason::BadOpcode,
        CodeFault::BadOperand => Reason::BadOperand,
        CodeFault::CutShort => Reason::CutShort,
    }
}

/// The first fault of a method of a package, and the offset of its header in the Method component.
#[derive(Clone, Copy)]
pub(crate) struct MethodFault {
    pub(crate) method: u16,
    pub(crate) fault: Fault,
}

/// Why code isn't accepted with a certificate.
#[derive(Clone, Copy, Debug, PartialEq, Eq, Drop, Error)]
pub enum WordFault {
    /// The first fault, with the pc for which it is reported.
    #[error("refused")]
    Refused { pc: u16, reason: Reason },
    /// No memory was left.
    #[error("memory")]
    Memory,
}

impl From<Fault> for WordFault {
    ghost from_gives = { λ fault e. e ≡ Refused fault.pc fault.reason };

    fn from(fault: Fault) -> WordFault {
        WordFault::Refused {
            pc: fault.pc,
            reason: fault.reason,
        }
    }
}

impl From<AllocError> for WordFault {
    ghost from_gives = { λ _ e. e ≡ Memory };

    fn from(_e: AllocError) -> WordFault {
        WordFault::Memory
    }
}

impl<T: Drop> From<AllocFailed<T>> for WordFault {
    ghost from_gives = { λ _ e. e ≡ Memory };

    fn from(_e: AllocFailed<T>) -> WordFault {
        WordFault::Memory
    }
}
