//! Names of classes and methods.

ghost use Rattle.std.specs.Prelude.{◌≡◌};
ghost use Rattle.jc_names.specs.Names.{api_name, home_of, is_same_name, method_home, method_offset, name_in, offset_of};

use crate::place::PackagePlace;
use jc_api::{ApiClass, Member};

/// A class or interface of a world: each has one name.
#[derive(Clone, Copy, Debug, PartialEq, Eq)]
pub enum ClassName {
    /// A class of the API.
    Api(ApiClass),
    /// The class of the loaded package with this number, from 1 on, whose record stands at this offset of its Class
    /// component.
    Loaded { package: u8, offset: u16 },
}

/// A method of a world.
#[derive(Clone, Copy, Debug, PartialEq, Eq)]
pub enum MethodName {
    /// A member of the API, by its number, from 1 on.
    Api { member: u16 },
    /// The method of the loaded package with this number, from 1 on, whose header stands at this offset of its Method
    /// component.
    Loaded { package: u8, offset: u16 },
}

impl ClassName {
    /// The place of the class's package in a world.
    pub fn home(self) -> PackagePlace
        ensures { result ≡ home_of self }
    {
        match self {
            ClassName::Api(class) => PackagePlace::of_api(class.package()),
            ClassName::Loaded { package, .. } => PackagePlace::of_loaded(package),
        }
    }

    /// The offset of the class in its package; for a class of the API, its number.
    pub fn offset(self) -> u16
        ensures { result ≡ offset_of self }
    {
        match self {
            ClassName::Api(class) => u16::from(class.number()),
            ClassName::Loaded { offset, .. } => offset,
        }
    }

    /// Whether two names are equal.
    pub fn is(self, other: ClassName) -> bool
        ensures { result ≡ is_same_name self other }
    {
        match (self, other) {
            (ClassName::Api(a), ClassName::Api(b)) => a.number() == b.number(),
            (
                ClassName::Loaded { package, offset },
                ClassName::Loaded {
                    package: other_package,
                    offset: other_offset,
                },
            ) => package == other_package && offset == other_offset,
            (ClassName::Api(_), ClassName::Loaded { .. }) => false,
            (ClassName::Loaded { .. }, ClassName::Api(_)) => false,
        }
    }
}

impl MethodName {
    /// The place of the method's package in a world, if it has one.
    #[tactic(auto, using(crate::proofs::Numbering::member_past))]
    pub fn home(self) -> Option<PackagePlace>
        ensures { result ≡ method_home self }
    {
        match self {
            MethodName::Api { member } => {
                let number = u8::try_from(member).ok()?;
                let found = Member::from_number(number)?;
                Some(PackagePlace::of_api(found.class.package()))
            }
            MethodName::Loaded { package: 0, .. } => None,
            MethodName::Loaded { package, .. } => Some(PackagePlace::of_loaded(package)),
        }
    }

    /// The offset of the method in its package; for a member of the API, its number.
    pub fn offset(self) -> u16
        ensures { result ≡ method_offset self }
    {
        match self {
            MethodName::Api { member } => member,
            MethodName::Loaded { offset, .. } => offset,
        }
    }
}

/// The class of the API with a number, if it is in the package at this place.
fn api_name(home: PackagePlace, number: u16) -> Option<ClassName>
    ensures { result ≡ api_name home number }
{
    let number = u8::try_from(number).ok()?;
    let class = ApiClass::from_number(number)?;
    if PackagePlace::of_api(class.package()).index() == home.index() {
        Some(ClassName::Api(class))
    } else {
        None
    }
}

/// The name of the class at an offset of the package at this place; an offset of the API's packages is the number of a
/// class.
pub fn name_in(home: PackagePlace, offset: u16) -> Option<ClassName>
    ensures { result ≡ name_in home offset }
{
    match home.number() {
        None => api_name(home, offset),
        Some(package) => Some(ClassName::Loaded { package, offset }),
    }
}
