//! Headers of frames.

use jc_names::Owner;

/// A method of a loaded package: the package's number, from 1 on, and the offset of the method's header in the Method
/// component.
#[derive(Clone, Copy, Debug, PartialEq, Eq)]
pub struct CodePlace {
    pub package: u8,
    pub offset: u16,
}

/// A frame without its words.
#[derive(Clone, Copy, Debug, PartialEq, Eq)]
pub struct FrameHeader {
    pub method: CodePlace,
    /// The pc; in a waiting frame that of its call.
    pub pc: u16,
    /// How many operands are in use.
    pub depth: u8,
    /// The active owner.
    pub active: Owner,
    /// The owner that was active before the last switch, if there was one.
    pub previous: Option<Owner>,
}

/// How many words a frame takes.
#[derive(Clone, Copy, Debug, PartialEq, Eq)]
pub struct FrameSize {
    /// The locals, the arguments included.
    pub locals: u16,
    /// The most operands that it may have.
    pub operands: u8,
}
