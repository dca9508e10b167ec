//! Why an applet isn't installed, and why no card is made.

ghost use Rattle.std.specs.Prelude.{◌≡◌};

use crate::cause::Cause;
use std::alloc::AllocError;
use std::fmt;
use thiserror::Error;

/// Why an applet isn't installed. If several refusals apply, the one with the smallest number is reported.
#[derive(Clone, Copy, Debug, PartialEq, Eq, Error)]
pub enum InstallFault {
    /// No loaded package has an applet with this AID.
    #[error("20 UnknownApplet")]
    UnknownApplet,
    /// The data have more than 108 bytes.
    #[error("21 TooLong")]
    TooLong,
    /// A registered instance has the instance's AID.
    #[error("22 AidInUse")]
    AidInUse,
    /// All 32 instance numbers are used.
    #[error("23 NoInstance")]
    NoInstance,
    /// The install method ended with an exception, spent its budget, or registered no instance.
    #[error("24 InstallFailed {0}")]
    InstallFailed(Failure),
}

/// How an install failed.
#[derive(Clone, Copy, Debug, PartialEq, Eq)]
pub struct Failure {
    /// The status: the reason of an ISOException that nothing caught, or 6F00.
    pub status: u16,
    /// Why the install method didn't end as it should.
    pub cause: Option<Cause>,
}

impl fmt::Display for Failure {
    fn fmt<W: fmt::Write>(&self, f: &mut fmt::Formatter<W>) -> fmt::Result {
        write!(f, "{:04X}", self.status)
    }
}

/// Why no card is made.
#[derive(Clone, Copy, Debug, PartialEq, Eq, Error)]
pub enum CardFault {
    /// One of the limits is too small or too large.
    #[error("the limits are too small or too large")]
    BadLimits,
    /// No memory was left.
    #[error("out of memory")]
    Memory,
}

impl From<AllocError> for CardFault {
    ghost use Rattle.jc_card.specs.declared.fault.CardFault.TheVariants.{Memory};

    ghost from_gives = { λ _ fault. fault ≡ Memory };

    fn from(_error: AllocError) -> CardFault {
        CardFault::Memory
    }
}
