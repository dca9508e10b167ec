//! Places of packages in a world.

ghost use Rattle.std.specs.Prelude.{◌≡◌, ◌≤◌};
ghost use Rattle.jc_names.specs.Names.{api_home, home_at, number_at};

use jc_api::ApiPackage;
use std::marker::Model;

/// The place of a package in a world, from 0 to 256: the API's two stand at 0 and 1, and the loaded package with number
/// n at n + 1.
#[derive(Clone, Copy, Debug)]
pub struct PackagePlace {
    index: u16,
}

impl Model for PackagePlace {
    ghost use Rattle.std.specs.Prelude.{ℕ, ◌≤◌};

    ghost Value = { ℕ };

    ghost view = { λ p. p.index };

    ghost invariant = { λ p. p.index ≤ 256 };

    ghost inverse = { λ index. record { index = index } };
}

impl PackagePlace {
    /// A place from 0 to 256.
    pub fn new(index: usize) -> PackagePlace
        requires { index ≤ 256 }
        ensures { result ≡ index }
    {
        PackagePlace {
            index: index as u16,
        }
    }

    /// The place of a package of the API.
    pub fn of_api(package: ApiPackage) -> PackagePlace
        ensures { result ≡ api_home «package» }
    {
        match package {
            ApiPackage::Lang => PackagePlace { index: 0 },
            ApiPackage::Framework => PackagePlace { index: 1 },
        }
    }

    /// The place of the loaded package with a number.
    pub fn of_loaded(number: u8) -> PackagePlace
        ensures { result ≡ home_at number }
    {
        PackagePlace {
            index: u16::from(number) + 1,
        }
    }

    /// The number of the package at this place, or `None` if it is one of the API's.
    pub fn number(self) -> Option<u8>
        ensures { result ≡ number_at self }
    {
        if self.index < 2 {
            return None;
        }
        Some((self.index - 1) as u8)
    }

    /// The place as an index, from 0 to 256.
    pub fn index(self) -> usize
        ensures index { result ≡ self }
        ensures most { result ≤ 256 }
    {
        usize::from(self.index)
    }
}
