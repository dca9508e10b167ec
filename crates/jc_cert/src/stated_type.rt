//! Types in certificates, with the names of classes.

use jc_api::ApiClass;
use jc_base::Aid;

/// A class, as a certificate names it.
#[derive(Clone, Copy, Debug, PartialEq, Eq)]
pub enum SpelledClass {
    /// The class of the certificate's own package whose record stands at an offset of the Class component.
    Own { offset: u16 },
    /// A class of the API.
    Api(ApiClass),
    /// The class of another package, by that package's AID and the offset of its record there.
    Other { package: Aid, offset: u16 },
}

/// A verification type in a certificate, with classes by name.
#[derive(Clone, Copy, Debug, PartialEq, Eq)]
pub enum StatedType {
    /// Nothing is known.
    Top,
    /// A word of 16 bits.
    Word,
    /// The null reference.
    Null,
    /// A reference to an object of a class.
    Class(SpelledClass),
    BooleanArray,
    ByteArray,
    ShortArray,
    /// An array of references to objects of a class.
    ReferenceArray(SpelledClass),
}
