//! The tags of components (Java Card Virtual Machine Specification, CAP file format: Component model).

/// The Header component.
pub const HEADER: u8 = 1;
/// The Applet component.
pub const APPLET: u8 = 3;
/// The Import component.
pub const IMPORT: u8 = 4;
/// The ConstantPool component.
pub const CONSTANT_POOL: u8 = 5;
/// The Class component.
pub const CLASS: u8 = 6;
/// The Method component.
pub const METHOD: u8 = 7;
/// The StaticField component.
pub const STATIC_FIELD: u8 = 8;
/// The Export component.
pub const EXPORT: u8 = 10;
/// The Descriptor component.
pub const DESCRIPTOR: u8 = 11;
