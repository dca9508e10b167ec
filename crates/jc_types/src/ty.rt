//! Verification types.

ghost use Rattle.std.specs.Prelude.{◌≡◌};
ghost use Rattle.jc_types.specs.Ty.{type_of_declared, class_of_objects, class_of_components, is_word, is_null};
ghost use Rattle.jc_types.specs.Ty.{is_reference, is_boolean_array, is_byte_array, is_short_array};

use jc_api::ApiClass;
use jc_base::DeclaredType;
use jc_names::ClassName;

/// The class above all classes and interfaces.
const OBJECT: ClassName = ClassName::Api(ApiClass::Object);

/// The type of a local or an operand.
#[derive(Clone, Copy, Debug, PartialEq, Eq)]
pub enum Ty {
    /// Nothing is known: it may hold anything, and may never have been written.
    Top,
    /// A word: boolean, byte or short.
    Word,
    /// The null reference.
    Null,
    /// A reference to an object of a class, or of any class below it; or null.
    Class(ClassName),
    /// A reference to an array of booleans, or null.
    BooleanArray,
    /// A reference to an array of bytes, or null.
    ByteArray,
    /// A reference to an array of shorts, or null.
    ShortArray,
    /// A reference to an array of references to objects of a class or below it, or null.
    ReferenceArray(ClassName),
}

impl Ty {
    /// The verification type of a declared type.
    pub fn of(declared: DeclaredType<ClassName>) -> Ty
        ensures { result ≡ type_of_declared declared }
    {
        match declared {
            DeclaredType::Boolean | DeclaredType::Byte | DeclaredType::Short => Ty::Word,
            DeclaredType::Reference(class) => Ty::Class(class),
            DeclaredType::BooleanArray => Ty::BooleanArray,
            DeclaredType::ByteArray => Ty::ByteArray,
            DeclaredType::ShortArray => Ty::ShortArray,
            DeclaredType::ReferenceArray(class) => Ty::ReferenceArray(class),
        }
    }

    /// The class of the objects of the type: that of arrays is Object.
    pub(crate) fn class_of_objects(self) -> Option<ClassName>
        ensures { result ≡ class_of_objects self }
    {
        match self {
            Ty::Top | Ty::Word | Ty::Null => None,
            Ty::Class(class) => Some(class),
            Ty::BooleanArray | Ty::ByteArray | Ty::ShortArray => Some(OBJECT),
            Ty::ReferenceArray(_) => Some(OBJECT),
        }
    }

    /// The class of the components of an array of references.
    pub(crate) fn class_of_components(self) -> Option<ClassName>
        ensures { result ≡ class_of_components self }
    {
        match self {
            Ty::Top | Ty::Word | Ty::Null | Ty::Class(_) => None,
            Ty::BooleanArray | Ty::ByteArray | Ty::ShortArray => None,
            Ty::ReferenceArray(class) => Some(class),
        }
    }

    /// Whether it is a word.
    pub(crate) fn is_word(self) -> bool
        ensures { result ≡ is_word self }
    {
        match self {
            Ty::Word => true,
            Ty::Top | Ty::Null | Ty::Class(_) | Ty::ReferenceArray(_) => false,
            Ty::BooleanArray | Ty::ByteArray | Ty::ShortArray => false,
        }
    }

    /// Whether it is the null reference.
    pub(crate) fn is_null(self) -> bool
        ensures { result ≡ is_null self }
    {
        match self {
            Ty::Null => true,
            Ty::Top | Ty::Word | Ty::Class(_) | Ty::ReferenceArray(_) => false,
            Ty::BooleanArray | Ty::ByteArray | Ty::ShortArray => false,
        }
    }

    /// Whether it is a type of references.
    pub(crate) fn is_reference(self) -> bool
        ensures { result ≡ is_reference self }
    {
        match self {
            Ty::Top | Ty::Word => false,
            Ty::Null | Ty::Class(_) | Ty::ReferenceArray(_) => true,
            Ty::BooleanArray | Ty::ByteArray | Ty::ShortArray => true,
        }
    }

    /// Whether it is the type of arrays of booleans.
    pub(crate) fn is_boolean_array(self) -> bool
        ensures { result ≡ is_boolean_array self }
    {
        match self {
            Ty::BooleanArray => true,
            Ty::Top | Ty::Word | Ty::Null | Ty::Class(_) => false,
            Ty::ByteArray | Ty::ShortArray | Ty::ReferenceArray(_) => false,
        }
    }

    /// Whether it is the type of arrays of bytes.
    pub(crate) fn is_byte_array(self) -> bool
        ensures { result ≡ is_byte_array self }
    {
        match self {
            Ty::ByteArray => true,
            Ty::Top | Ty::Word | Ty::Null | Ty::Class(_) => false,
            Ty::BooleanArray | Ty::ShortArray | Ty::ReferenceArray(_) => false,
        }
    }

    /// Whether it is the type of arrays of shorts.
    pub(crate) fn is_short_array(self) -> bool
        ensures { result ≡ is_short_array self }
    {
        match self {
            Ty::ShortArray => true,
            Ty::Top | Ty::Word | Ty::Null | Ty::Class(_) => false,
            Ty::BooleanArray | Ty::ByteArray | Ty::ReferenceArray(_) => false,
        }
    }
}
