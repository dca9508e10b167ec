//! Type descriptors with access in one step.

ghost use Rattle.std.specs.Prelude.{◌≡◌, ◌∷◌};
ghost use Rattle.jc_base.specs.PlacedRows.{placed_rows, row_at};
ghost use Rattle.jc_cap_desc.specs.PrivateOffsets.{PassedSoFar};
ghost use Rattle.jc_cap_desc.specs.PrivateTypes.{HasStarts, PlacedTypes, is_any};
ghost use Rattle.jc_cap.specs.Descriptor.{next_descriptor};

use crate::offsets::put;
use jc_base::{Cursor, LoadFault, NumberSet, Placed};
use jc_cap::{Descriptor, Descriptors};
use std::marker::Model;

/// Consecutive type descriptors, with the offsets at which they begin. They are read on demand.
#[derive(Drop)]
pub struct TypeDescriptors<'a> {
    rows: Descriptors<'a>,
    starts: NumberSet,
}

impl<'a> Model for TypeDescriptors<'a> {
    ghost use Rattle.jc_cap_desc.specs.PrivateTypes.{HasStarts, PlacedTypes};

    ghost Value = { PlacedTypes };

    ghost view = { λ t. t.rows };

    ghost invariant = { λ t. HasStarts t.starts t.rows };
}

/// Adds the offset of a descriptor.
#[tactic(auto, using(crate::proofs::Passing::passed_more, crate::proofs::Passing::put_marks))]
fn add_start(starts: &mut NumberSet, placed: &Placed<Descriptor>)
    ensures { (types left : PlacedTypes) → PassedSoFar is_any types starts.old starts.old (placed.now ∷ left)
        → PassedSoFar is_any types starts.new starts.new left }
{
    put(starts, placed.offset);
}

/// The offsets at which descriptors begin, from one pass over them.
fn starts_of(types: &Descriptors) -> NumberSet
    ensures { HasStarts result types.now }
{
    let mut starts = NumberSet::empty();
    let mut left = types.again();
    while let Some(placed) = left.next() {
        add_start(&mut starts, &placed);
    }
    starts
}

impl<'a> TypeDescriptors<'a> {
    /// The descriptors from an offset of the bytes to their end. Offsets count from where the cursor stands.
    pub(crate) fn read(bytes: &Cursor<'a>, first: usize) -> Result<TypeDescriptors<'a>, LoadFault>
        ensures { result ≡ placed_rows next_descriptor first bytes.now }
    {
        let rows = Descriptors::read(bytes, first)?;
        let starts = starts_of(&rows);
        Ok(TypeDescriptors { rows, starts })
    }

    /// The descriptors, one by one.
    pub fn rows(&self) -> Descriptors<'a>
        ensures { result ≡ self.now }
    {
        self.rows.again()
    }

    /// The descriptor that begins at an offset, or `None` if none begins there, in one step.
    pub fn at(&self, offset: u16) -> Option<Descriptor<'a>>
        ensures { result ≡ row_at offset self.now }
    {
        if !self.starts.contains(offset) {
            return None;
        }
        self.rows.known_at(usize::from(offset))
    }
}
