//! The classes of the API.

ghost use Rattle.std.specs.Prelude.{◌≡◌, ◌≤◌};
ghost use Rattle.jc_api.specs.Class.{class_of, is_abstract, is_interface, last_class, number_of, other_package};
ghost use Rattle.jc_api.specs.Class.{package_of, package_with, size_of, superclass_of};

use crate::numbered::numbered;

/// How many classes the API has: they are numbered from 1 on.
pub const CLASS_COUNT: usize = 22;

/// A package of the API (Java Card API Specification).
#[derive(Clone, Copy, Debug, PartialEq, Eq)]
pub enum ApiPackage {
    /// java.lang
    Lang,
    /// javacard.framework
    Framework,
}

/// A class or interface of the API (Java Card API Specification), numbered from 1 on.
#[derive(Clone, Copy, Debug, PartialEq, Eq)]
pub enum ApiClass {
    Object,
    Throwable,
    Exception,
    RuntimeException,
    ArithmeticException,
    ArrayStoreException,
    ClassCastException,
    IndexOutOfBoundsException,
    ArrayIndexOutOfBoundsException,
    NegativeArraySizeException,
    NullPointerException,
    SecurityException,
    Shareable,
    CardRuntimeException,
    IsoException,
    SystemException,
    ApduException,
    Aid,
    Apdu,
    Applet,
    JcSystem,
    Util,
}

impl ApiPackage {
    /// The package with a number, or `None` outside 1 and 2.
    pub fn from_number(number: u8) -> Option<ApiPackage>
        ensures { result ≡ package_with number }
    {
        numbered(&PACKAGES, number)
    }

    /// The other package.
    pub(crate) fn other(self) -> ApiPackage
        ensures { result ≡ other_package self }
    {
        match self {
            ApiPackage::Lang => ApiPackage::Framework,
            ApiPackage::Framework => ApiPackage::Lang,
        }
    }
}

/// The packages by their numbers.
const PACKAGES: [ApiPackage; 2] = [ApiPackage::Lang, ApiPackage::Framework];

impl ApiClass {
    /// The class's number, 1 to [`CLASS_COUNT`].
    pub fn number(self) -> u8
        ensures number { result ≡ number_of self }
        ensures least { 1 ≤ result }
        ensures most { result ≤ last_class }
    {
        match self {
            ApiClass::Object => 1,
            ApiClass::Throwable => 2,
            ApiClass::Exception => 3,
            ApiClass::RuntimeException => 4,
            ApiClass::ArithmeticException => 5,
            ApiClass::ArrayStoreException => 6,
            ApiClass::ClassCastException => 7,
            ApiClass::IndexOutOfBoundsException => 8,
            ApiClass::ArrayIndexOutOfBoundsException => 9,
            ApiClass::NegativeArraySizeException => 10,
            ApiClass::NullPointerException => 11,
            ApiClass::SecurityException => 12,
            ApiClass::Shareable => 13,
            ApiClass::CardRuntimeException => 14,
            ApiClass::IsoException => 15,
            ApiClass::SystemException => 16,
            ApiClass::ApduException => 17,
            ApiClass::Aid => 18,
            ApiClass::Apdu => 19,
            ApiClass::Applet => 20,
            ApiClass::JcSystem => 21,
            ApiClass::Util => 22,
        }
    }

    /// The class with a number of 1 to [`CLASS_COUNT`].
    pub fn from_number(number: u8) -> Option<ApiClass>
        ensures { result ≡ class_of number }
    {
        numbered(&CLASSES, number)
    }

    /// The package that the class is in.
    pub fn package(self) -> ApiPackage
        ensures { result ≡ package_of self }
    {
        match self {
            ApiClass::Object
            | ApiClass::Throwable
            | ApiClass::Exception
            | ApiClass::RuntimeException
            | ApiClass::ArithmeticException
            | ApiClass::ArrayStoreException
            | ApiClass::ClassCastException
            | ApiClass::IndexOutOfBoundsException
            | ApiClass::ArrayIndexOutOfBoundsException
            | ApiClass::NegativeArraySizeException
            | ApiClass::NullPointerException
            | ApiClass::SecurityException => ApiPackage::Lang,
            ApiClass::Shareable
            | ApiClass::CardRuntimeException
            | ApiClass::IsoException
            | ApiClass::SystemException
            | ApiClass::ApduException
            | ApiClass::Aid
            | ApiClass::Apdu
            | ApiClass::Applet
            | ApiClass::JcSystem
            | ApiClass::Util => ApiPackage::Framework,
        }
    }

    /// The superclass; `None` for `Object` and for the interface.
    pub fn superclass(self) -> Option<ApiClass>
        ensures { result ≡ superclass_of self }
    {
        match self {
            ApiClass::Object | ApiClass::Shareable => None,
            ApiClass::Throwable
            | ApiClass::Aid
            | ApiClass::Apdu
            | ApiClass::Applet
            | ApiClass::JcSystem
            | ApiClass::Util => Some(ApiClass::Object),
            ApiClass::Exception => Some(ApiClass::Throwable),
            ApiClass::RuntimeException => Some(ApiClass::Exception),
            ApiClass::ArithmeticException
            | ApiClass::ArrayStoreException
            | ApiClass::ClassCastException
            | ApiClass::IndexOutOfBoundsException
            | ApiClass::NegativeArraySizeException
            | ApiClass::NullPointerException
            | ApiClass::SecurityException
            | ApiClass::CardRuntimeException => Some(ApiClass::RuntimeException),
            ApiClass::ArrayIndexOutOfBoundsException => Some(ApiClass::IndexOutOfBoundsException),
            ApiClass::IsoException | ApiClass::SystemException | ApiClass::ApduException => {
                Some(ApiClass::CardRuntimeException)
            }
        }
    }

    /// Whether it is an interface: `Shareable` is the only one.
    pub fn is_interface(self) -> bool
        ensures { result ≡ is_interface self }
    {
        self == ApiClass::Shareable
    }

    /// Whether it is an abstract class: `Applet` is the only one. The interface doesn't count.
    pub fn is_abstract(self) -> bool
        ensures { result ≡ is_abstract self }
    {
        self == ApiClass::Applet
    }

    /// How many cells of an object the class itself declares.
    pub fn size(self) -> u8
        ensures { result ≡ size_of self }
    {
        match self {
            ApiClass::CardRuntimeException => 1,
            ApiClass::Aid => 17,
            ApiClass::Object
            | ApiClass::Throwable
            | ApiClass::Exception
            | ApiClass::RuntimeException
            | ApiClass::ArithmeticException
            | ApiClass::ArrayStoreException
            | ApiClass::ClassCastException
            | ApiClass::IndexOutOfBoundsException
            | ApiClass::ArrayIndexOutOfBoundsException
            | ApiClass::NegativeArraySizeException
            | ApiClass::NullPointerException
            | ApiClass::SecurityException
            | ApiClass::Shareable
            | ApiClass::IsoException
            | ApiClass::SystemException
            | ApiClass::ApduException
            | ApiClass::Apdu
            | ApiClass::Applet
            | ApiClass::JcSystem
            | ApiClass::Util => 0,
        }
    }
}

/// The classes by their numbers.
pub(crate) const CLASSES: [ApiClass; CLASS_COUNT] = [
    ApiClass::Object,
    ApiClass::Throwable,
    ApiClass::Exception,
    ApiClass::RuntimeException,
    ApiClass::ArithmeticException,
    ApiClass::ArrayStoreException,
    ApiClass::ClassCastException,
    ApiClass::IndexOutOfBoundsException,
    ApiClass::ArrayIndexOutOfBoundsException,
    ApiClass::NegativeArraySizeException,
    ApiClass::NullPointerException,
    ApiClass::SecurityException,
    ApiClass::Shareable,
    ApiClass::CardRuntimeException,
    ApiClass::IsoException,
    ApiClass::SystemException,
    ApiClass::ApduException,
    ApiClass::Aid,
    ApiClass::Apdu,
    ApiClass::Applet,
    ApiClass::JcSystem,
    ApiClass::Util,
];
