//! Kinds of objects.

use jc_names::ClassName;

/// What an object is an instance of.
#[derive(Clone, Copy, Debug, PartialEq, Eq)]
pub enum ObjectType {
    /// An instance of a class.
    Instance(ClassName),
    /// An array of booleans.
    BooleanArray,
    /// An array of bytes.
    ByteArray,
    /// An array of shorts.
    ShortArray,
    /// An array of references to objects of a class or an interface.
    ReferenceArray(ClassName),
}

/// The mark of an object for the firewall (Java Card Runtime Environment Specification, Applet Isolation and Object
/// Sharing: JCRE entry point objects, global arrays).
#[derive(Clone, Copy, Debug, PartialEq, Eq)]
pub enum Mark {
    /// An object without a mark.
    Plain,
    /// A permanent entry point of the runtime: references to it may be stored.
    PermanentEntryPoint,
    /// A temporary entry point of the runtime: no reference to it may be stored.
    TemporaryEntryPoint,
    /// A global array: no reference to it may be stored.
    GlobalArray,
}

/// When a transient array is cleared (Java Card Runtime Environment Specification, Transient Objects).
#[derive(Clone, Copy, Debug, PartialEq, Eq)]
pub enum ClearingEvent {
    /// CLEAR_ON_RESET: when the card is reset.
    Reset,
    /// CLEAR_ON_DESELECT: when an applet of its context is deselected, and when the card is reset.
    Deselect,
}

/// The properties of an object that never change.
#[derive(Clone, Copy, Debug, PartialEq, Eq)]
pub struct ObjectKind {
    pub object_type: ObjectType,
    pub mark: Mark,
    /// The event that clears its cells, if it is transient.
    pub clears: Option<ClearingEvent>,
}
