//! Why no certificate was read.

ghost use Rattle.std.specs.Prelude.{◌≡◌};
ghost use Rattle.jc_cert.specs.declared.refusal.Refusal.TheVariants.{Unspelled, Memory};
ghost use Rattle.jc_cert.specs.PrivateReading.{fault_of};

use jc_base::LoadFault;
use std::alloc::{AllocError, AllocFailed};

/// The bytes encode no certificate. Steps that allocate nothing have only this fault.
#[derive(Clone, Copy, Debug, PartialEq, Eq)]
pub(crate) struct NoSpelling;

/// Why no certificate was read.
#[derive(Clone, Copy, Debug, PartialEq, Eq)]
pub(crate) enum Refusal {
    /// The bytes encode no certificate.
    Unspelled,
    /// No memory was left.
    Memory,
}

impl From<NoSpelling> for Refusal {
    ghost from_gives = { λ _ refusal. refusal ≡ Unspelled };

    fn from(_none: NoSpelling) -> Refusal {
        Refusal::Unspelled
    }
}

impl From<AllocError> for Refusal {
    ghost from_gives = { λ _ refusal. refusal ≡ Memory };

    fn from(_error: AllocError) -> Refusal {
        Refusal::Memory
    }
}

impl<T: Drop> From<AllocFailed<T>> for Refusal {
    ghost from_gives = { λ _ refusal. refusal ≡ Memory };

    fn from(_error: AllocFailed<T>) -> Refusal {
        Refusal::Memory
    }
}

impl From<Refusal> for LoadFault {
    ghost from_gives = { λ refusal fault. fault ≡ fault_of refusal };

    fn from(refusal: Refusal) -> LoadFault {
        match refusal {
            Refusal::Unspelled => LoadFault::BadCertificate,
            Refusal::Memory => LoadFault::Memory,
        }
    }
}
