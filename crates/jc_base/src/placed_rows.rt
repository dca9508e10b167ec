//! Consecutive rows up to the end of the bytes.

ghost use Rattle.std.specs.Prelude.{◌≡◌, ◌↔◌, ◌≤◌, ◌∷◌, ℕ, List, [], Ok, drop, length, IsTrue, IfSome, IfNone};
ghost use Rattle.jc_base.specs.PlacedRows.{Shrinks, IsInFront, IsThatOf, ArePlaced, placed_in, placed_rows, row_at};
ghost use Rattle.jc_base.specs.PrivatePlacedRows.{done};

use crate::fault::LoadFault;
use crate::rows::{Row, Source};
use std::marker::{Model, PhantomData};

/// Rows of at least one byte each, so bytes hold at most as many rows as bytes.
pub trait PlacedRow<S: Source>: Row<S> {
    ghost shrinks: { Shrinks Self.next_row };
}

/// Rows that are read from the front: the end of the bytes is left. So a row whose offset is known is read in one step.
pub trait FrontRow<S: Source>: PlacedRow<S> {
    ghost in_front: { IsInFront Self.next_row };
}

/// A row with its place.
#[derive(Drop)]
pub struct Placed<R> {
    /// Where the row begins.
    pub offset: usize,
    pub row: R,
}

/// Consecutive rows up to the end of a source, each found by the offset at which it begins. They are read on demand.
#[derive(Drop)]
pub struct PlacedRows<S: Source, R: PlacedRow<S>> {
    left: S,
    total: usize,
    kind: PhantomData<R>,
}

impl<S: Source, R: PlacedRow<S>> Model for PlacedRows<S, R> {
    ghost use Rattle.std.specs.Prelude.{◌≡◌, ◌≤◌, List, length, Ok};
    ghost use Rattle.jc_base.specs.declared.placed_rows.Placed.{Placed};
    ghost use Rattle.jc_base.specs.PlacedRows.{placed_in};
    ghost use Rattle.jc_base.specs.PrivatePlacedRows.{listed, done};

    ghost Value = { List (Placed R) };

    ghost view = { λ r. listed (placed_in R.next_row r.total r.total (S.left r.left)) };

    ghost invariant = { λ r. (length (S.left r.left) ≤ r.total)
        × (done (placed_in R.next_row r.total r.total (S.left r.left)) ≡ Ok tt) };
}

/// Checks that the rest of a source is rows to its end.
fn check<S: Source, R: PlacedRow<S>>(left: &S, total: usize) -> Result<(), LoadFault>
    requires { length (S.left left.now) ≤ total }
    ensures { result ≡ done (placed_in R.next_row total total (S.left left.now)) }
{
    let mut source = left.again();
    while source.len() > 0 {
        R::next_row(&mut source)?;
    }
    Ok(())
}

impl<S: Source, R: PlacedRow<S>> PlacedRows<S, R> {
    /// The rows from an offset of a source to its end. Offsets count from where the source stands.
    pub fn read(source: &S, first: usize) -> Result<PlacedRows<S, R>, LoadFault>
        ensures { result ≡ placed_rows R.next_row first (S.left source.now) }
    {
        let total = source.len();
        let left = source.behind(first);
        check::<S, R>(&left, total)?;
        Ok(PlacedRows {
            left,
            total,
            kind: PhantomData,
        })
    }

    /// The same rows, to be taken on their own.
    pub fn again(&self) -> PlacedRows<S, R>
        ensures { result ≡ self.now }
    {
        PlacedRows {
            left: self.left.again(),
            total: self.total,
            kind: PhantomData,
        }
    }

    /// Whether there is no row.
    pub fn is_empty(&self) -> bool
        ensures { IsTrue result ↔ (self.now ≡ []) }
    {
        self.left.len() == 0
    }

    /// The row that begins at an offset, or `None` if none begins. It costs the rows before it.
    pub fn at(&self, offset: usize) -> Option<R>
        ensures { result ≡ row_at offset self.now }
    {
        let mut source = self.left.again();
        while source.len() > 0 {
            let here = self.total - source.len();
            let Ok(row) = R::next_row(&mut source) else {
                return None;
            };
            if here == offset {
                return Some(row);
            }
        }
        None
    }

    /// Takes the first row off, or returns `None` if there is none.
    pub fn next(&mut self) -> Option<Placed<R>>
        ensures some { IfSome result (λ row. self.old ≡ row ∷ self.new) }
        ensures none { IfNone result ((self.old ≡ []) × (self.new ≡ [])) }
    {
        if self.left.len() == 0 {
            return None;
        }
        let offset = self.total - self.left.len();
        let mut source = self.left.again();
        let Ok(row) = R::next_row(&mut source) else {
            return None;
        };
        self.left = source;
        Some(Placed { offset, row })
    }
}

impl<S: Source, R: FrontRow<S>> PlacedRows<S, R> {
    /// The row at an offset at which a row is known to begin. It costs that row alone.
    pub fn known_at(&self, offset: usize) -> Option<R>
        ensures { IsThatOf (row_at offset self.now) result }
    {
        let here = self.total - self.left.len();
        let mut source = self.left.behind(offset.saturating_sub(here));
        let Ok(row) = R::next_row(&mut source) else {
            return None;
        };
        Some(row)
    }
}

/// Bytes are read as placed rows if and only if the bytes are exactly these rows, one after the other, each at its
/// offset.
pub fn placed_rows_are_placed<S: Source, R: PlacedRow<S>>()
    ensures { (first : ℕ) (bytes : List ℕ) (rows : List (Placed R))
        → (placed_rows R.next_row first bytes ≡ Ok rows) ↔ ArePlaced R.next_row (length bytes) (drop first bytes) rows }
{}
