//! Halves of bytes.

ghost use Rattle.std.specs.Prelude.{◌≡◌, ◌↔◌, [], ◌<◌, length, IsTrue, IfSome};
ghost use Rattle.jc_base.specs.Cursor.{Takes, Gives};
ghost use Rattle.jc_cap.specs.Nibbles.{next_nibble, next_nibbles};

use jc_base::tag::DESCRIPTOR;
use jc_base::{Cursor, LoadFault, Source};
use std::marker::Model;

/// Nibbles that are left to read: four bits each, the high ones of a byte first.
#[derive(Drop)]
pub struct Nibbles<'a> {
    bytes: &'a [u8],
    at: usize,
    end: usize,
}

impl<'a> Model for Nibbles<'a> {
    ghost use Rattle.std.specs.Prelude.{ℕ, List, ◌≤◌, ◌*◌, length, drop, take};
    ghost use Rattle.jc_cap.specs.Nibbles.{nibbles_of};

    ghost Value = { List ℕ };

    ghost view = { λ n. drop n.at (take n.end (nibbles_of n.bytes.now)) };

    ghost invariant = { λ n. (n.at ≤ n.end) × (n.end ≤ 2 * length n.bytes.now) };
}

impl<'a> Nibbles<'a> {
    /// Whether no nibble is left.
    pub(crate) fn is_empty(&self) -> bool
        ensures { IsTrue result ↔ (self.now ≡ []) }
    {
        self.at == self.end
    }

    /// The next nibble, below 16.
    pub(crate) fn next(&mut self) -> Option<u8>
        ensures next { Takes (λ x. x) result self.old self.new (next_nibble self.old) }
        ensures small { IfSome result (λ nibble. nibble < 16) }
    {
        if self.at == self.end {
            return None;
        }
        let byte = self.bytes[self.at / 2];
        let nibble = if self.at % 2 == 0 {
            byte / 16
        } else {
            byte % 16
        };
        self.at += 1;
        Some(nibble)
    }
}

impl<'a> Source for Nibbles<'a> {
    ghost left = { λ nibbles. nibbles };

    fn len(&self) -> usize {
        self.end - self.at
    }

    fn again(&self) -> Nibbles<'a> {
        Nibbles {
            bytes: self.bytes,
            at: self.at,
            end: self.end,
        }
    }

    fn behind(&self, count: usize) -> Nibbles<'a> {
        let at = if count < self.end - self.at {
            self.at + count
        } else {
            self.end
        };
        Nibbles {
            bytes: self.bytes,
            at,
            end: self.end,
        }
    }
}

/// The next `count` nibbles, in whole bytes.
#[tactic(auto, unfolding(crate::specs::Nibbles::next_nibbles))]
pub(crate) fn next_nibbles<'a>(cursor: &mut Cursor<'a>, count: u8) -> Result<Nibbles<'a>, LoadFault>
    ensures { Gives (λ n. n) result cursor.new (next_nibbles count cursor.old) }
{
    let end = usize::from(count);
    let bytes = cursor
        .take((end + 1) / 2)
        .ok_or(LoadFault::Malformed(DESCRIPTOR))?;
    Ok(Nibbles { bytes, at: 0, end })
}
