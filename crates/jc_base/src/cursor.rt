//! A place in a list of bytes.

ghost use Rattle.std.specs.Prelude.{◌≡◌, ◌↔◌, ℕ, List, [], length, drop, IsTrue};
ghost use Rattle.jc_base.specs.Cursor.{next_u1, next_u2, next_u4, next_s1, next_s2, next_bytes, Takes};

use byteorder::{BigEndian, ByteOrder};
use std::marker::Model;

/// The bytes that are left to read. The slices that it returns borrow from the bytes that it was made from.
///
/// A call that finds too few bytes returns `None` and leaves the cursor where it was.
#[derive(Drop)]
pub struct Cursor<'a> {
    rest: &'a [u8],
}

impl<'a> Model for Cursor<'a> {
    ghost Value = { List ℕ };

    ghost view = { λ c. c.rest.now };
}

impl<'a> Cursor<'a> {
    /// A cursor at the first of the bytes.
    #[inline(always)]
    pub fn new(bytes: &'a [u8]) -> Self
        ensures { result ≡ bytes.now }
    {
        Cursor { rest: bytes }
    }

    /// A cursor at an offset of the bytes. Past their end nothing is left.
    #[inline(always)]
    pub fn at(bytes: &'a [u8], offset: usize) -> Self
        ensures { result ≡ drop offset bytes.now }
    {
        if offset > bytes.len() {
            return Cursor { rest: &[] };
        }
        Cursor {
            rest: bytes.split_at(offset).1,
        }
    }

    /// How many bytes are left.
    #[inline(always)]
    pub fn len(&self) -> usize
        ensures { result ≡ length self.now }
    {
        self.rest.len()
    }

    /// Whether no byte is left.
    #[inline(always)]
    pub fn is_empty(&self) -> bool
        ensures { IsTrue result ↔ (self.now ≡ []) }
    {
        self.rest.is_empty()
    }

    /// The bytes that are left.
    #[inline(always)]
    pub fn rest(&self) -> &'a [u8]
        ensures { result.now ≡ self.now }
    {
        self.rest
    }

    /// The next byte.
    #[inline(always)]
    pub fn u1(&mut self) -> Option<u8>
        ensures { Takes (λ x. x) result self.old self.new (next_u1 self.old) }
    {
        let (first, rest) = self.rest.split_first()?;
        self.rest = rest;
        Some(*first)
    }

    /// The next two bytes, the high one first.
    #[inline(always)]
    pub fn u2(&mut self) -> Option<u16>
        ensures { Takes (λ x. x) result self.old self.new (next_u2 self.old) }
    {
        if self.rest.len() < 2 {
            return None;
        }
        let (front, rest) = self.rest.split_at(2);
        self.rest = rest;
        Some(BigEndian::read_u16(front))
    }

    /// The next four bytes, the highest one first.
    #[inline(always)]
    pub fn u4(&mut self) -> Option<u32>
        ensures { Takes (λ x. x) result self.old self.new (next_u4 self.old) }
    {
        if self.rest.len() < 4 {
            return None;
        }
        let (front, rest) = self.rest.split_at(4);
        self.rest = rest;
        Some(BigEndian::read_u32(front))
    }

    /// The next byte, with its sign.
    #[inline(always)]
    pub fn s1(&mut self) -> Option<i8>
        ensures { Takes (λ x. x) result self.old self.new (next_s1 self.old) }
    {
        let (first, rest) = self.rest.split_first()?;
        self.rest = rest;
        Some(first.cast_signed())
    }

    /// The next two bytes, the high one first, with the sign of the whole.
    #[inline(always)]
    pub fn s2(&mut self) -> Option<i16>
        ensures { Takes (λ x. x) result self.old self.new (next_s2 self.old) }
    {
        if self.rest.len() < 2 {
            return None;
        }
        let (front, rest) = self.rest.split_at(2);
        self.rest = rest;
        Some(BigEndian::read_u16(front).cast_signed())
    }

    /// The next `count` bytes.
    #[inline(always)]
    pub fn take(&mut self, count: usize) -> Option<&'a [u8]>
        ensures { Takes (λ bytes. bytes.now) result self.old self.new (next_bytes count self.old) }
    {
        if self.rest.len() < count {
            return None;
        }
        let (front, rest) = self.rest.split_at(count);
        self.rest = rest;
        Some(front)
    }
}
