//! Why control flow isn't followed further.

ghost use Rattle.std.specs.Prelude.{◌≡◌};
ghost use Rattle.jc_base.specs.declared.reason.Reason.TheVariants.{CertMismatch};
ghost use Rattle.jc_verify.specs.PrivateStop.{stop_of};
ghost use Rattle.jc_verify.specs.declared.stop.Stop.TheVariants.{Memory, Refused};

use crate::place::NotTaken;
use jc_base::Reason;
use std::alloc::AllocError;

/// Why control flow isn't followed further.
#[derive(Clone, Copy, Drop)]
pub(crate) enum Stop {
    /// The code can't be carried.
    Refused(Reason),
    /// Out of memory.
    Memory,
}

impl From<Reason> for Stop {
    ghost from_gives = { λ reason e. e ≡ Refused reason };

    fn from(reason: Reason) -> Stop {
        Stop::Refused(reason)
    }
}

impl From<NotTaken> for Stop {
    ghost from_gives = { λ why e. e ≡ stop_of why };

    fn from(why: NotTaken) -> Stop {
        match why {
            NotTaken::Unlike => Stop::Refused(Reason::CertMismatch),
            NotTaken::Memory => Stop::Memory,
        }
    }
}

impl From<AllocError> for Stop {
    ghost from_gives = { λ _ e. e ≡ Memory };

    fn from(_e: AllocError) -> Stop {
        Stop::Memory
    }
}
