//! The words for an object that nothing caught: its class and its reason.

ghost use Rattle.std.specs.Prelude.{◌≡◌, option_map};
ghost use Rattle.jc_telling.specs.Thrown.{apdu_constant, class_name, system_constant};

use jc_api::ApiClass;
use jc_names::ClassName;
use jc_script::Hexadecimal;
use jc_store::ObjectType;
use std::fmt;

/// The name of a class of the API.
fn class_name(class: ApiClass) -> &'static str
    ensures { result.now ≡ class_name class }
{
    match class {
        ApiClass::Object => "Object",
        ApiClass::Throwable => "Throwable",
        ApiClass::Exception => "Exception",
        ApiClass::RuntimeException => "RuntimeException",
        ApiClass::ArithmeticException => "ArithmeticException",
        ApiClass::ArrayStoreException => "ArrayStoreException",
        ApiClass::ClassCastException => "ClassCastException",
        ApiClass::IndexOutOfBoundsException => "IndexOutOfBoundsException",
        ApiClass::ArrayIndexOutOfBoundsException => "ArrayIndexOutOfBoundsException",
        ApiClass::NegativeArraySizeException => "NegativeArraySizeException",
        ApiClass::NullPointerException => "NullPointerException",
        ApiClass::SecurityException => "SecurityException",
        ApiClass::Shareable => "Shareable",
        ApiClass::CardRuntimeException => "CardRuntimeException",
        ApiClass::IsoException => "ISOException",
        ApiClass::SystemException => "SystemException",
        ApiClass::ApduException => "APDUException",
        ApiClass::Aid => "AID",
        ApiClass::Apdu => "APDU",
        ApiClass::Applet => "Applet",
        ApiClass::JcSystem => "JCSystem",
        ApiClass::Util => "Util",
    }
}

/// The name of a reason (Java Card API Specification, SystemException).
fn system_constant(reason: u16) -> Option<&'static str>
    ensures { option_map (λ name. name.now) result ≡ system_constant reason }
{
    match reason {
        1 => Some("ILLEGAL_VALUE"),
        2 => Some("NO_TRANSIENT_SPACE"),
        3 => Some("ILLEGAL_TRANSIENT"),
        4 => Some("ILLEGAL_AID"),
        5 => Some("NO_RESOURCE"),
        6 => Some("ILLEGAL_USE"),
        _ => None,
    }
}

/// The name of a reason (Java Card API Specification, APDUException).
fn apdu_constant(reason: u16) -> Option<&'static str>
    ensures { option_map (λ name. name.now) result ≡ apdu_constant reason }
{
    match reason {
        1 => Some("ILLEGAL_USE"),
        2 => Some("BUFFER_BOUNDS"),
        3 => Some("BAD_LENGTH"),
        4 => Some("IO_ERROR"),
        _ => None,
    }
}

/// A number, behind its name if it has one.
#[derive(Drop)]
struct NamedNumber {
    name: Option<&'static str>,
    number: u16,
}

impl fmt::Display for NamedNumber {
    ghost use Rattle.std.specs.Prelude.{Some, option_map};
    ghost use Rattle.jc_telling.specs.Thrown.{number_text};

    ghost output = { λ n. Some (number_text (option_map (λ name. name.now) n.name) n.number) };

    fn fmt<W: fmt::Write>(&self, f: &mut fmt::Formatter<W>) -> fmt::Result {
        match self.name {
            Some(name) => write!(f, "{name} ({})", self.number),
            None => write!(f, "{}", self.number),
        }
    }
}

/// A status word, as four digits.
#[derive(Clone, Copy)]
struct StatusWord {
    status: u16,
}

impl fmt::Display for StatusWord {
    ghost use Rattle.std.specs.Prelude.{Some};
    ghost use Rattle.jc_telling.specs.Thrown.{status_text};

    ghost output = { λ s. Some (status_text s.status) };

    fn fmt<W: fmt::Write>(&self, f: &mut fmt::Formatter<W>) -> fmt::Result {
        let bytes = [(self.status / 256) as u8, (self.status % 256) as u8];
        write!(f, "{}", Hexadecimal { bytes: &bytes })
    }
}

/// The reason of an instance of a class of the API, if the class has one, as users of the class write it.
#[derive(Clone, Copy)]
struct Reason {
    class: ApiClass,
    number: u16,
}

impl fmt::Display for Reason {
    ghost use Rattle.std.specs.Prelude.{Some};
    ghost use Rattle.jc_telling.specs.Thrown.{reason_text};

    ghost output = { λ r. Some (reason_text r.class r.number) };

    fn fmt<W: fmt::Write>(&self, f: &mut fmt::Formatter<W>) -> fmt::Result {
        let number = self.number;
        match self.class {
            ApiClass::CardRuntimeException => write!(f, " reason {number}"),
            ApiClass::IsoException => write!(f, " reason {}", StatusWord { status: number }),
            ApiClass::SystemException => {
                let name = system_constant(number);
                write!(f, " reason {}", NamedNumber { name, number })
            }
            ApiClass::ApduException => {
                let name = apdu_constant(number);
                write!(f, " reason {}", NamedNumber { name, number })
            }
            ApiClass::Object
            | ApiClass::Throwable
            | ApiClass::Exception
            | ApiClass::RuntimeException
            | ApiClass::ArithmeticException
            | ApiClass::ArrayStoreException
            | ApiClass::ClassCastException
            | ApiClass::IndexOutOfBoundsException
            | ApiClass::ArrayIndexOutOfBoundsException
            | ApiClass::NegativeArraySizeException
            | ApiClass::NullPointerException
            | ApiClass::SecurityException
            | ApiClass::Shareable
            | ApiClass::Aid
            | ApiClass::Apdu
            | ApiClass::Applet
            | ApiClass::JcSystem
            | ApiClass::Util => Ok(()),
        }
    }
}

/// An instance of a class, with its reason.
#[derive(Clone, Copy)]
struct Exception {
    class: ClassName,
    reason: u16,
}

impl fmt::Display for Exception {
    ghost use Rattle.std.specs.Prelude.{Some};
    ghost use Rattle.jc_telling.specs.Thrown.{class_text};

    ghost output = { λ e. Some (class_text e.class e.reason) };

    fn fmt<W: fmt::Write>(&self, f: &mut fmt::Formatter<W>) -> fmt::Result {
        let Exception { class, reason } = *self;
        match class {
            ClassName::Api(class) => {
                let number = reason;
                write!(f, "{}{}", class_name(class), Reason { class, number })
            }
            ClassName::Loaded { package, offset } => {
                write!(
                    f,
                    "exception of class {offset} of package {package}, reason {reason}"
                )
            }
        }
    }
}

/// An object that nothing caught.
#[derive(Clone, Copy)]
pub(crate) struct Thrown {
    pub(crate) object: ObjectType,
    pub(crate) reason: u16,
}

impl fmt::Display for Thrown {
    ghost use Rattle.std.specs.Prelude.{Some};
    ghost use Rattle.jc_telling.specs.Thrown.{object_text};

    ghost output = { λ t. Some (object_text t.object t.reason) };

    fn fmt<W: fmt::Write>(&self, f: &mut fmt::Formatter<W>) -> fmt::Result {
        let reason = self.reason;
        match self.object {
            ObjectType::Instance(class) => write!(f, "{}", Exception { class, reason }),
            ObjectType::BooleanArray
            | ObjectType::ByteArray
            | ObjectType::ShortArray
            | ObjectType::ReferenceArray(_) => write!(f, "an array"),
        }
    }
}
