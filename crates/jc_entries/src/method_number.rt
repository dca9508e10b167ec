//! The numbers of loaded methods.

ghost use Rattle.std.specs.Prelude.{◌≡◌};

use std::marker::Model;

/// The number of a method of a loaded package: its index among all of them.
#[derive(Clone, Copy, Debug)]
pub struct MethodNumber {
    index: u32,
}

impl Model for MethodNumber {
    ghost use Rattle.std.specs.Prelude.{ℕ};

    ghost Value = { ℕ };

    ghost view = { λ n. n.index };

    ghost inverse = { λ index. record { index = index } };
}

impl MethodNumber {
    /// The method with this number.
    pub fn new(index: u32) -> MethodNumber
        ensures { result ≡ index }
    {
        MethodNumber { index }
    }

    /// The number.
    #[inline]
    pub fn index(self) -> u32
        ensures { result ≡ self }
    {
        self.index
    }
}
