//! Application identifiers.

ghost use Rattle.std.specs.Prelude.{◌≡◌, ◌≤◌, length, bytes_eq};
ghost use Rattle.std.specs.Cmp.{partial_equiv_from_equiv};
ghost use Rattle.std.specs.Cmp.Lexicographic.{nat_list_eq_equiv};
ghost use Rattle.jc_base.specs.Aid.{aid_of, has_aid_length, next_aid, shortest_aid, longest_aid};
ghost use Rattle.jc_base.specs.Cursor.{Gives};

use crate::cursor::Cursor;
use crate::fault::LoadFault;
use std::marker::Model;

/// The least number of bytes of an AID.
const SHORTEST_AID: usize = 5;

/// The greatest number of bytes of an AID.
const LONGEST_AID: usize = 16;

/// The identifier of a package or an applet: 5 to 16 bytes (ISO/IEC 7816-5).
#[derive(Clone, Copy, Debug)]
pub struct Aid {
    bytes: [u8; LONGEST_AID],
    len: u8,
}

impl Model for Aid {
    ghost use Rattle.std.specs.Prelude.{ℕ, List};

    ghost Value = { List ℕ };

    ghost use Rattle.jc_base.specs.PrivateAid.{held, IsHeld, padded, same_held};

    ghost view = { held };

    ghost invariant = { IsHeld };

    ghost inverse = { padded };

    ghost inverse_ok = { same_held };
}

/// Whether an AID may have this many bytes.
fn is_aid_len(len: usize) -> bool
    ensures { result ≡ has_aid_length len }
{
    SHORTEST_AID <= len && len <= LONGEST_AID
}

impl Aid {
    /// The identifier with these bytes, or `None` if they are fewer than 5 or more than 16.
    pub fn from_slice(bytes: &[u8]) -> Option<Aid>
        ensures { result ≡ aid_of bytes.now }
    {
        let len = bytes.len();
        if !is_aid_len(len) {
            return None;
        }
        let mut held = [0; LONGEST_AID];
        held[..len].copy_from_slice(bytes);
        Some(Aid {
            bytes: held,
            len: len as u8,
        })
    }

    /// Its bytes.
    pub fn as_slice(&self) -> &[u8]
        ensures { result.now ≡ self.now }
    {
        &self.bytes[..usize::from(self.len)]
    }

    /// How many bytes it has, 5 to 16.
    pub fn len(&self) -> usize
        ensures bytes { result ≡ length self.now }
        ensures least { shortest_aid ≤ result }
        ensures most { result ≤ longest_aid }
    {
        usize::from(self.len)
    }
}

impl PartialEq for Aid {
    ghost eq = { bytes_eq };

    ghost laws = { partial_equiv_from_equiv nat_list_eq_equiv };

    fn eq(&self, other: &Aid) -> bool {
        self.as_slice() == other.as_slice()
    }
}

impl Eq for Aid {
    ghost laws = { nat_list_eq_equiv };
}

/// The next AID in the component with a tag: its length, and its bytes. A length outside 5 to 16 is `BadAid`, even if
/// fewer bytes follow. After an `Err` the cursor may stand anywhere.
#[tactic(auto, unfolding(crate::specs::Aid::next_aid))]
pub fn next_aid(cursor: &mut Cursor, tag: u8) -> Result<Aid, LoadFault>
    ensures { Gives (λ aid. aid) result cursor.new (next_aid tag cursor.old) }
{
    let len = usize::from(cursor.u1().ok_or(LoadFault::Malformed(tag))?);
    if !is_aid_len(len) {
        return Err(LoadFault::BadAid);
    }
    let bytes = cursor.take(len).ok_or(LoadFault::Malformed(tag))?;
    Aid::from_slice(bytes).ok_or(LoadFault::BadAid)
}
