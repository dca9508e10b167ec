//! Why a package isn't linked.

ghost use Rattle.jc_offcard.specs.PrivateVerify.{Tells};

use jc_base::LoadFault;

/// Why a package isn't linked, or not appended to a world.
#[derive(Clone, Copy, Drop)]
pub(crate) enum Unlinked {
    /// It is refused.
    Refused(LoadFault),
    /// No memory was left.
    Memory,
}

impl From<LoadFault> for Unlinked {
    ghost from_gives = { Tells };

    fn from(fault: LoadFault) -> Unlinked {
        match fault {
            LoadFault::Memory => Unlinked::Memory,
            fault => Unlinked::Refused(fault),
        }
    }
}
