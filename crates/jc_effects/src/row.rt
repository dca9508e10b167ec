//! The demands of an instruction and what it gives.

use jc_types::Ty;

/// A demand on a local or an operand.
#[derive(Clone, Copy, Debug, PartialEq, Eq)]
pub enum Demand {
    /// Below a type.
    Below(Ty),
    /// Null or any object.
    Reference,
    /// Null, or an array of booleans or bytes.
    Bytes,
    /// Null or any array.
    Array,
}

/// The local of a row, and the demand on it.
#[derive(Clone, Copy, Debug, PartialEq, Eq)]
pub enum LocalDemand {
    /// The row has no local.
    Nowhere,
    /// The local with an index.
    At { index: u8, demand: Demand },
}

/// What a row writes to its local, or pushes.
#[derive(Clone, Copy, Debug, PartialEq, Eq)]
pub enum Given {
    /// Nothing.
    Nothing,
    /// A type.
    Exactly(Ty),
    /// The type of the local.
    OfLocal,
    /// The type of an operand that is taken, counted from the deepest, which is 0.
    OfOperand(u8),
    /// The type of the components of an operand that is taken, counted in the same way.
    ComponentOf(u8),
}
