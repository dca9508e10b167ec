//! Why no instruction stands at a pc.

use thiserror::Error;

/// Why no instruction stands at a pc.
#[derive(Clone, Copy, Debug, PartialEq, Eq, Drop, Error)]
pub enum CodeFault {
    /// No instruction of the profile has this opcode.
    #[error("")]
    BadOpcode,
    /// An operand byte is invalid for the instruction.
    #[error("")]
    BadOperand,
    /// The code ends within the instruction, or before it.
    #[error("")]
    CutShort,
}
