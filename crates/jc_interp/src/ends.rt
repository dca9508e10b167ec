//! How a step ends.

use jc_machine::{Budget, CodePoint, DeniedAccess};

/// How a step ends.
#[derive(Clone, Copy, Debug, PartialEq, Eq)]
pub enum StepEnd {
    /// The machine goes on.
    GoesOn,
    /// The object with this number is thrown.
    Throws(u16),
    /// The firewall denied an access. The runtime's SecurityException is thrown.
    AccessDenied(DeniedAccess),
    /// The first frame's method returns a word, or none.
    Gives(Option<u16>),
    /// The call is used up: a frame has no room.
    UsedUp,
}

/// How a call ends.
#[derive(Clone, Copy, Debug, PartialEq, Eq)]
pub enum RunEnd {
    /// The object with this number was thrown, and no frame caught it. It was thrown at a point in a loaded package's
    /// code, or by a native member that the runtime called. If it was thrown because the firewall denied an access,
    /// this is that access.
    Threw {
        object: u16,
        at: Option<CodePoint>,
        denied: Option<DeniedAccess>,
    },
    /// The first frame's method returned a word, or none.
    Gave(Option<u16>),
    /// The call was used up: which budget was spent, and where the top frame was, if there was one.
    RanOut {
        spent: Budget,
        at: Option<CodePoint>,
    },
}

/// The numbers of the runtime's own exception objects.
pub(crate) const ARITHMETIC_EXCEPTION: u16 = 1;

pub(crate) const ARRAY_STORE_EXCEPTION: u16 = 2;

pub(crate) const CLASS_CAST_EXCEPTION: u16 = 3;

pub(crate) const ARRAY_INDEX_EXCEPTION: u16 = 4;

pub(crate) const NEGATIVE_SIZE_EXCEPTION: u16 = 5;

pub(crate) const NULL_POINTER_EXCEPTION: u16 = 6;

pub(crate) const SECURITY_EXCEPTION: u16 = 7;

pub(crate) const SYSTEM_EXCEPTION: u16 = 9;

/// The reason in the runtime's SystemException if there is no room for an object.
pub(crate) const NO_RESOURCE: u16 = 5;
