//! The types of fields, parameters and results.

/// The type of a field, a parameter or a result. `C` names its classes: as a file spells them, or as they were resolved
/// (Java Card Virtual Machine Specification, Descriptor component: `type_descriptor_info`). There is no type int.
#[derive(Clone, Copy, Debug, PartialEq, Eq)]
pub enum DeclaredType<C> {
    Boolean,
    Byte,
    Short,
    /// An object of a class, or of a class that implements an interface.
    Reference(C),
    BooleanArray,
    ByteArray,
    ShortArray,
    /// An array of references to objects of this class or interface.
    ReferenceArray(C),
}

/// What a method returns.
#[derive(Clone, Copy, Debug, PartialEq, Eq)]
pub enum ReturnType<C> {
    Void,
    Value(DeclaredType<C>),
}
