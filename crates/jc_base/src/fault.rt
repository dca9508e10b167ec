//! Why an image isn't loaded.

ghost use Rattle.std.specs.Prelude.{◌≡◌, Some};
ghost use Rattle.jc_base.specs.Fault.{is_told_before, least_of, number_of, place_of, words_of};

use crate::reason::Reason;
use std::error::Error;
use std::fmt;

/// Why an image isn't loaded, with the place. If several refusals apply, the one with the smallest number is reported,
/// and of one number the one with the smallest place. Its text is the printed line after `refused`: number, name and
/// places, numbers in decimal.
#[derive(Clone, Copy, Debug, PartialEq, Eq, Drop)]
pub enum LoadFault {
    /// A component's size runs past the image.
    ShortComponent,
    /// One or two bytes stand after the last component.
    ExtraBytes,
    /// A required component is missing: the least such tag.
    MissingComponent(u8),
    /// A tag of 1 to 12 came twice: the least such tag.
    RepeatedComponent(u8),
    /// The Header doesn't begin with DECAFFED.
    BadMagic,
    /// The format's version is neither 2.1 nor 2.2.
    FormatVersion,
    /// The package uses the type int.
    IntPackage,
    /// An AID isn't 5 to 16 bytes long.
    BadAid,
    /// The component with this tag doesn't follow its layout.
    Malformed(u8),
    /// No package meets the import with this package token.
    MissingImport(u8),
    /// The constant pool's entry with this index resolves to nothing, or to something that its tag doesn't allow.
    Unresolved(u16),
    /// The constant pool's entry with this index has a type that differs from its member's.
    TypeMismatch(u16),
    /// The class or interface at this offset isn't well-formed.
    BadClass(u16),
    /// The static field or array at this offset of the static image isn't well-formed.
    BadStatic(u16),
    /// A package with this AID is on the card.
    DuplicatePackage,
    /// The certificate's bytes encode no certificate.
    BadCertificate,
    /// The method at an offset isn't accepted with the certificate, at a pc, for a reason.
    MethodRefused {
        method: u16,
        pc: u16,
        reason: Reason,
    },
    /// The card has no room for the package.
    Full,
    /// No memory was left.
    Memory,
}

impl LoadFault {
    /// The refusal's number, 1 to 19.
    pub fn number(&self) -> u8
        ensures { result ≡ number_of self.now }
    {
        match self {
            LoadFault::ShortComponent => 1,
            LoadFault::ExtraBytes => 2,
            LoadFault::MissingComponent(_) => 3,
            LoadFault::RepeatedComponent(_) => 4,
            LoadFault::BadMagic => 5,
            LoadFault::FormatVersion => 6,
            LoadFault::IntPackage => 7,
            LoadFault::BadAid => 8,
            LoadFault::Malformed(_) => 9,
            LoadFault::MissingImport(_) => 10,
            LoadFault::Unresolved(_) => 11,
            LoadFault::TypeMismatch(_) => 12,
            LoadFault::BadClass(_) => 13,
            LoadFault::BadStatic(_) => 14,
            LoadFault::DuplicatePackage => 15,
            LoadFault::BadCertificate => 16,
            LoadFault::MethodRefused { .. } => 17,
            LoadFault::Full => 18,
            LoadFault::Memory => 19,
        }
    }

    /// The tag, token, index or offset that it names first, or 0 if it names none.
    pub fn place(&self) -> u16
        ensures { result ≡ place_of self.now }
    {
        match self {
            LoadFault::MissingComponent(tag)
            | LoadFault::RepeatedComponent(tag)
            | LoadFault::Malformed(tag) => u16::from(*tag),
            LoadFault::MissingImport(token) => u16::from(*token),
            LoadFault::Unresolved(index) | LoadFault::TypeMismatch(index) => *index,
            LoadFault::BadClass(offset) | LoadFault::BadStatic(offset) => *offset,
            LoadFault::MethodRefused { method, .. } => *method,
            LoadFault::ShortComponent
            | LoadFault::ExtraBytes
            | LoadFault::BadMagic
            | LoadFault::FormatVersion
            | LoadFault::IntPackage
            | LoadFault::BadAid
            | LoadFault::DuplicatePackage
            | LoadFault::BadCertificate
            | LoadFault::Full
            | LoadFault::Memory => 0,
        }
    }

    /// Whether it is reported before the other: its number is smaller, or the numbers are equal and its place is
    /// smaller.
    pub fn is_told_before(&self, other: &LoadFault) -> bool
        ensures { result ≡ is_told_before self.now other.now }
    {
        let (number, others_number) = (self.number(), other.number());
        number < others_number || number == others_number && self.place() < other.place()
    }

    /// The one of two that is reported.
    pub fn least_of(self, other: LoadFault) -> LoadFault
        ensures { result ≡ least_of self other }
    {
        if other.is_told_before(&self) {
            other
        } else {
            self
        }
    }
}

impl fmt::Display for LoadFault {
    ghost output = { λ fault. Some (words_of fault) };

    fn fmt<W: fmt::Write>(&self, f: &mut fmt::Formatter<W>) -> fmt::Result {
        match *self {
            LoadFault::ShortComponent => write!(f, "1 ShortComponent"),
            LoadFault::ExtraBytes => write!(f, "2 ExtraBytes"),
            LoadFault::MissingComponent(tag) => write!(f, "3 MissingComponent {tag}"),
            LoadFault::RepeatedComponent(tag) => write!(f, "4 RepeatedComponent {tag}"),
            LoadFault::BadMagic => write!(f, "5 BadMagic"),
            LoadFault::FormatVersion => write!(f, "6 FormatVersion"),
            LoadFault::IntPackage => write!(f, "7 IntPackage"),
            LoadFault::BadAid => write!(f, "8 BadAid"),
            LoadFault::Malformed(tag) => write!(f, "9 Malformed {tag}"),
            LoadFault::MissingImport(token) => write!(f, "10 MissingImport {token}"),
            LoadFault::Unresolved(index) => write!(f, "11 Unresolved {index}"),
            LoadFault::TypeMismatch(index) => write!(f, "12 TypeMismatch {index}"),
            LoadFault::BadClass(offset) => write!(f, "13 BadClass {offset}"),
            LoadFault::BadStatic(offset) => write!(f, "14 BadStatic {offset}"),
            LoadFault::DuplicatePackage => write!(f, "15 DuplicatePackage"),
            LoadFault::BadCertificate => write!(f, "16 BadCertificate"),
            LoadFault::MethodRefused { method, pc, reason } => {
                write!(f, "17 MethodRefused {method} {pc} {reason}")
            }
            LoadFault::Full => write!(f, "18 Full"),
            LoadFault::Memory => write!(f, "19 Memory"),
        }
    }
}

impl Error for LoadFault {}
