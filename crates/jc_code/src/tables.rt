//! The tables of switches, borrowed from the code.

ghost use Rattle.std.specs.Prelude.{◌≡◌, ◌*◌, ◌<◌, ◌^◌, length, slice_get};
ghost use Rattle.jc_base.specs.Cursor.{Gives};
ghost use Rattle.jc_code.specs.Tables.{next_offsets, next_cases};

use crate::fault::CodeFault;
use byteorder::{BigEndian, ByteOrder};
use jc_base::Cursor;
use std::marker::Model;

/// Offsets of two bytes each.
#[derive(Drop)]
pub struct Offsets<'a> {
    bytes: &'a [u8],
}

impl<'a> Model for Offsets<'a> {
    ghost use Rattle.std.specs.Prelude.{◌≡◌, ◌*◌, ℤ, List, length};
    ghost use Rattle.jc_code.specs.Tables.{offsets_of_bytes};

    ghost Value = { List ℤ };

    ghost view = { λ t. offsets_of_bytes t.bytes.now };

    ghost invariant = { λ t. length t.bytes.now ≡ 2 * length (offsets_of_bytes t.bytes.now) };
}

impl<'a> Offsets<'a> {
    /// The same offsets, borrowed once more.
    pub(crate) fn lent(&self) -> Offsets<'a>
        ensures { result ≡ self.now }
    {
        Offsets { bytes: self.bytes }
    }

    /// How many offsets there are.
    pub fn len(&self) -> usize
        ensures count { result ≡ length self.now }
        ensures bound { result < 2 ^ 63 }
    {
        self.bytes.len() / 2
    }

    /// The offset at an index.
    pub fn get(&self, index: usize) -> Option<i16>
        ensures { result ≡ slice_get self.now index }
    {
        if index < self.bytes.len() / 2 {
            let at = 2 * index;
            Some(BigEndian::read_u16(&[self.bytes[at], self.bytes[at + 1]]).cast_signed())
        } else {
            None
        }
    }
}

/// The next `count` offsets.
#[tactic(auto, unfolding(crate::specs::Tables::next_offsets))]
pub(crate) fn next_offsets<'a>(
    cursor: &mut Cursor<'a>,
    count: usize,
) -> Result<Offsets<'a>, CodeFault>
    requires { count < 2 ^ 17 }
    ensures { Gives (λ t. t) result cursor.new (next_offsets count cursor.old) }
{
    let Some(bytes) = cursor.take(2 * count) else {
        return Err(CodeFault::CutShort);
    };
    Ok(Offsets { bytes })
}

/// A case of a switch: the key, and its offset.
#[derive(Clone, Copy, Debug, PartialEq, Eq)]
pub struct Case {
    pub key: i16,
    pub offset: i16,
}

/// Cases of four bytes each.
#[derive(Drop)]
pub struct Cases<'a> {
    bytes: &'a [u8],
}

impl<'a> Model for Cases<'a> {
    ghost use Rattle.std.specs.Prelude.{◌≡◌, ◌*◌, List, length};
    ghost use Rattle.jc_code.specs.declared.tables.Case.{Case};

    ghost Value = { List Case };

    ghost use Rattle.jc_code.specs.Tables.{cases_of_bytes};

    ghost view = { λ t. cases_of_bytes t.bytes.now };

    ghost invariant = { λ t. length t.bytes.now ≡ 4 * length (cases_of_bytes t.bytes.now) };
}

impl<'a> Cases<'a> {
    /// The same cases, borrowed once more.
    pub(crate) fn lent(&self) -> Cases<'a>
        ensures { result ≡ self.now }
    {
        Cases { bytes: self.bytes }
    }

    /// How many cases there are.
    pub fn len(&self) -> usize
        ensures count { result ≡ length self.now }
        ensures bound { result < 2 ^ 62 }
    {
        self.bytes.len() / 4
    }

    /// The case at an index.
    pub fn get(&self, index: usize) -> Option<Case>
        ensures { result ≡ slice_get self.now index }
    {
        if index < self.bytes.len() / 4 {
            let at = 4 * index;
            Some(Case {
                key: BigEndian::read_u16(&[self.bytes[at], self.bytes[at + 1]]).cast_signed(),
                offset: BigEndian::read_u16(&[
                    self.bytes[at + 2],
                    self.bytes[at + 3],
                ]).cast_signed(),
            })
        } else {
            None
        }
    }
}

/// The next `count` cases.
#[tactic(auto, unfolding(crate::specs::Tables::next_cases))]
pub(crate) fn next_cases<'a>(cursor: &mut Cursor<'a>, count: usize) -> Result<Cases<'a>, CodeFault>
    requires { count < 2 ^ 17 }
    ensures { Gives (λ t. t) result cursor.new (next_cases count cursor.old) }
{
    let Some(bytes) = cursor.take(4 * count) else {
        return Err(CodeFault::CutShort);
    };
    Ok(Cases { bytes })
}

/// The operands of a stableswitch: the default offset, the least key, and the offsets of the keys from that one on.
#[derive(Drop)]
pub struct StableTable<'a> {
    pub default: i16,
    pub low: i16,
    pub offsets: Offsets<'a>,
}

/// The operands of a slookupswitch: the default offset, and the cases.
#[derive(Drop)]
pub struct LookupTable<'a> {
    pub default: i16,
    pub cases: Cases<'a>,
}
