//! Marks of the bytes of the code.

/// The mark of a byte of the code.
#[derive(Clone, Copy, Debug, PartialEq, Eq)]
pub(crate) enum ByteMark {
    /// A byte within an instruction.
    Inside,
    /// The first byte of an instruction.
    Start,
    /// The first byte of an instruction, at which the claim with this number stands.
    Holds(u16),
}
