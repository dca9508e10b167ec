//! Why there is no certificate.

ghost use Rattle.std.specs.Prelude.{◌≡◌};
ghost use Rattle.jc_verify.specs.declared.fault.VerifyFault.TheVariants.{Memory};

use jc_check::Fault;
use std::alloc::{AllocError, AllocFailed};
use thiserror::Error;

/// Why a package gets no certificate.
#[derive(Clone, Copy, Debug, PartialEq, Eq, Drop, Error)]
pub enum VerifyFault {
    /// No states carry the method whose header is at this offset of the Method component, the least such offset;
    /// `fault` says where its inference ends, and why.
    #[error("no certificate")]
    NoCertificate { method: u16, fault: Fault },
    /// Out of memory.
    #[error("memory")]
    Memory,
}

impl From<AllocError> for VerifyFault {
    ghost from_gives = { λ _ e. e ≡ Memory };

    fn from(_e: AllocError) -> VerifyFault {
        VerifyFault::Memory
    }
}

impl<T: Drop> From<AllocFailed<T>> for VerifyFault {
    ghost from_gives = { λ _ e. e ≡ Memory };

    fn from(_e: AllocFailed<T>) -> VerifyFault {
        VerifyFault::Memory
    }
}
