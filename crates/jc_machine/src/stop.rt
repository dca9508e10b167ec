//! Where a call that doesn't end normally stops, which budget it used up, and which access was denied.

use jc_firewall::{Access, Rule};

/// A place in the code of a loaded package.
#[derive(Clone, Copy, Debug, PartialEq, Eq)]
pub struct CodePoint {
    /// The package's number, from 1 on.
    pub package: u8,
    /// The offset of the method's header in the package's Method component.
    pub method: u16,
    /// The pc, counted from the first byte of the method's code.
    pub pc: u16,
}

/// What is limited in one runtime call.
#[derive(Clone, Copy, Debug, PartialEq, Eq)]
pub enum Budget {
    /// Steps.
    Steps,
    /// Frames.
    Frames,
    /// Words of the frames' locals and operands.
    FrameWords,
}

/// An access that the firewall denied.
#[derive(Clone, Copy, Debug, PartialEq, Eq)]
pub struct DeniedAccess {
    pub access: Access,
    /// The number of the object.
    pub object: u16,
    /// The rule that denies it.
    pub rule: Rule,
}
