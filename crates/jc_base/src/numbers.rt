//! Consecutive numbers, borrowed from an image, and flags.

ghost use Rattle.std.specs.Prelude.{◌≡◌, length, slice_get};
ghost use Rattle.jc_base.specs.Numbers.{u2s, s1s, s2s, has_flag};

use byteorder::{BigEndian, ByteOrder};
use std::marker::Model;

/// Numbers of two bytes each, the high one first.
#[derive(Drop)]
pub struct U2s<'a> {
    bytes: &'a [u8],
}

impl<'a> Model for U2s<'a> {
    ghost use Rattle.std.specs.Prelude.{ℕ, List};
    ghost use Rattle.jc_base.specs.Numbers.{u2s};

    ghost Value = { List ℕ };

    ghost view = { λ t. u2s t.bytes.now };
}

impl<'a> U2s<'a> {
    /// The numbers that these bytes encode. The last byte of an odd number of bytes is ignored.
    pub fn new(bytes: &'a [u8]) -> U2s<'a>
        ensures { result ≡ u2s bytes.now }
    {
        U2s { bytes }
    }

    /// How many numbers there are.
    pub fn len(&self) -> usize
        ensures { result ≡ length self.now }
    {
        self.bytes.len() / 2
    }

    /// The number at an index, or `None` past the last.
    pub fn get(&self, index: usize) -> Option<u16>
        ensures { result ≡ slice_get self.now index }
    {
        if index < self.bytes.len() / 2 {
            let at = 2 * index;
            Some(BigEndian::read_u16(&[self.bytes[at], self.bytes[at + 1]]))
        } else {
            None
        }
    }
}

/// Bytes with their signs.
#[derive(Drop)]
pub struct S1s<'a> {
    bytes: &'a [u8],
}

impl<'a> Model for S1s<'a> {
    ghost use Rattle.std.specs.Prelude.{ℤ, List};
    ghost use Rattle.jc_base.specs.Numbers.{s1s};

    ghost Value = { List ℤ };

    ghost view = { λ t. s1s t.bytes.now };
}

impl<'a> S1s<'a> {
    /// The signed bytes of these bytes.
    pub fn new(bytes: &'a [u8]) -> S1s<'a>
        ensures { result ≡ s1s bytes.now }
    {
        S1s { bytes }
    }

    /// How many bytes there are.
    pub fn len(&self) -> usize
        ensures { result ≡ length self.now }
    {
        self.bytes.len()
    }

    /// The byte at an index, or `None` past the last.
    pub fn get(&self, index: usize) -> Option<i8>
        ensures { result ≡ slice_get self.now index }
    {
        let byte = self.bytes.get(index)?;
        Some(byte.cast_signed())
    }
}

/// Shorts, two bytes each.
#[derive(Drop)]
pub struct S2s<'a> {
    numbers: U2s<'a>,
}

impl<'a> Model for S2s<'a> {
    ghost use Rattle.std.specs.Prelude.{ℤ, List, map};
    ghost use Rattle.std.specs.Int.{w16, cast_signed};

    ghost Value = { List ℤ };

    ghost view = { λ t. map (cast_signed w16) t.numbers };
}

impl<'a> S2s<'a> {
    /// The shorts that these bytes encode. The last byte of an odd number of bytes is ignored.
    pub fn new(bytes: &'a [u8]) -> S2s<'a>
        ensures { result ≡ s2s bytes.now }
    {
        S2s {
            numbers: U2s { bytes },
        }
    }

    /// How many shorts there are.
    pub fn len(&self) -> usize
        ensures { result ≡ length self.now }
    {
        self.numbers.len()
    }

    /// The short at an index, or `None` past the last.
    pub fn get(&self, index: usize) -> Option<i16>
        ensures { result ≡ slice_get self.now index }
    {
        let number = self.numbers.get(index)?;
        Some(number.cast_signed())
    }
}

/// Whether all bits of a flag are set in the flags.
pub fn has_flag(flags: u8, flag: u8) -> bool
    ensures { result ≡ has_flag flags flag }
{
    flags & flag == flag
}
