//! Consecutive rows.

ghost use Rattle.std.specs.Prelude.{◌≡◌, ◌↔◌, ◌∷◌, [], drop, length, slice_get, IsTrue, List, ℕ, Result, IfSome};
ghost use Rattle.std.specs.Prelude.{IfNone};
ghost use Rattle.jc_base.specs.Cursor.{Read, Gives, whole};
ghost use Rattle.jc_base.specs.PrivateRows.{rest_of, left_by};
ghost use Rattle.jc_base.specs.Rows.{repeat, part, HasSize};
ghost use Rattle.jc_base.specs.declared.fault.LoadFault.{LoadFault};

use crate::cursor::Cursor;
use crate::fault::LoadFault;
use std::marker::{Model, PhantomData};

/// What rows are read from, from the front: bytes, or halves of bytes.
pub trait Source: Drop {
    ghost left: { Self → List ℕ };

    /// How many are left.
    fn len(&self) -> usize
        ensures { result ≡ length (left self.now) };

    /// A copy, to be read on its own.
    fn again(&self) -> Self
        ensures { left result ≡ left self.now };

    /// A copy from which the next `count` are removed, to be read on its own; it is empty if there are fewer.
    fn behind(&self, count: usize) -> Self
        ensures { left result ≡ drop count (left self.now) };
}

impl<'a> Source for Cursor<'a> {
    ghost left = { λ cursor. cursor };

    fn len(&self) -> usize {
        self.rest().len()
    }

    fn again(&self) -> Cursor<'a> {
        Cursor::new(self.rest())
    }

    fn behind(&self, count: usize) -> Cursor<'a> {
        Cursor::at(self.rest(), count)
    }
}

/// A row: rows of one kind may stand in a source one after the other.
pub trait Row<S: Source>: Drop {
    ghost next_row: { List ℕ → Result (Read Self) LoadFault };

    /// The next row. After an `Err` the source may stand anywhere.
    fn next_row(source: &mut S) -> Result<Self, LoadFault>
        ensures { Gives (λ row. row) result (S.left source.new) (next_row (S.left source.old)) };
}

/// Rows that all have the same number of bytes.
pub trait FixedRow<S: Source>: Row<S> {
    ghost size: { ℕ };

    /// How many bytes each row takes.
    fn size() -> u8
        ensures { result ≡ size };

    ghost has_size: { HasSize size Self.next_row };
}

/// A counted sequence of consecutive rows. They are read on demand.
#[derive(Drop)]
pub struct Rows<S: Source, R: Row<S>> {
    start: S,
    count: u16,
    kind: PhantomData<R>,
}

impl<S: Source, R: Row<S>> Model for Rows<S, R> {
    ghost use Rattle.std.specs.Prelude.{◌≡◌, ℕ, List, Ok};
    ghost use Rattle.jc_base.specs.PrivateRows.{rows_of, rest_of};
    ghost use Rattle.jc_base.specs.Rows.{repeat};

    ghost Value = { List R };

    ghost view = { λ r. rows_of (repeat R.next_row r.count (S.left r.start)) };

    ghost invariant = { λ r. (rest : List ℕ) × (rest_of (repeat R.next_row r.count (S.left r.start)) ≡ Ok rest) };
}

/// Passes over the next `count` rows.
fn skip<S: Source, R: Row<S>>(source: &mut S, count: u16) -> Result<(), LoadFault>
    ensures { left_by result (S.left source.new) ≡ rest_of (repeat R.next_row count (S.left source.old)) }
{
    for _ in 0..count {
        R::next_row(source)?;
    }
    Ok(())
}

impl<S: Source, R: Row<S>> Rows<S, R> {
    /// Reads the next `count` rows, each once. After an `Err` the source may stand anywhere.
    pub fn read(source: &mut S, count: u16) -> Result<Rows<S, R>, LoadFault>
        ensures { Gives (λ rows. rows) result (S.left source.new) (repeat R.next_row count (S.left source.old)) }
    {
        let start = source.again();
        skip::<S, R>(source, count)?;
        Ok(Rows {
            start,
            count,
            kind: PhantomData,
        })
    }

    /// Reads a source that is `count` rows and nothing more. If something is left after them, it reports `fault`.
    pub fn whole(mut source: S, count: u16, fault: LoadFault) -> Result<Rows<S, R>, LoadFault>
        ensures { result ≡ whole fault (repeat R.next_row count (S.left source)) }
    {
        let rows = Rows::read(&mut source, count)?;
        if source.len() > 0 {
            return Err(fault);
        }
        Ok(rows)
    }

    /// No rows.
    #[tactic(auto, unfolding(crate::specs::Rows::repeat))]
    pub fn none(start: S) -> Rows<S, R>
        ensures { result ≡ [] }
    {
        Rows {
            start,
            count: 0,
            kind: PhantomData,
        }
    }

    /// The same rows, to be taken on their own.
    pub fn again(&self) -> Rows<S, R>
        ensures { result ≡ self.now }
    {
        Rows {
            start: self.start.again(),
            count: self.count,
            kind: PhantomData,
        }
    }

    /// How many rows there are.
    pub fn len(&self) -> usize
        ensures { result ≡ length self.now }
    {
        usize::from(self.count)
    }

    /// How many rows there are, as a number of two bytes.
    pub fn count(&self) -> u16
        ensures { result ≡ length self.now }
    {
        self.count
    }

    /// Whether there is no row.
    pub fn is_empty(&self) -> bool
        ensures { IsTrue result ↔ (self.now ≡ []) }
    {
        self.len() == 0
    }

    /// The row at an index, or `None` past the last. It costs the rows before it: to visit all in turn use `next`.
    pub fn get(&self, index: u16) -> Option<R>
        ensures { result ≡ slice_get self.now index }
    {
        if self.count <= index {
            return None;
        }
        let mut source = self.start.again();
        let Ok(()) = skip::<S, R>(&mut source, index) else {
            return None;
        };
        R::next_row(&mut source).ok()
    }

    /// Takes the first row off, or returns `None` if there is none.
    pub fn next(&mut self) -> Option<R>
        ensures some { IfSome result (λ row. self.old ≡ row ∷ self.new) }
        ensures none { IfNone result ((self.old ≡ []) × (self.new ≡ [])) }
    {
        if self.count == 0 {
            return None;
        }
        let mut source = self.start.again();
        let Ok(row) = R::next_row(&mut source) else {
            return None;
        };
        self.count -= 1;
        self.start = source;
        Some(row)
    }
}

impl<S: Source, R: FixedRow<S>> Rows<S, R> {
    /// The row at an index, or `None` past the last, in one step.
    pub fn at(&self, index: u16) -> Option<R>
        ensures { result ≡ slice_get self.now index }
    {
        if self.count <= index {
            return None;
        }
        let mut source = self
            .start
            .behind(usize::from(R::size()) * usize::from(index));
        R::next_row(&mut source).ok()
    }

    /// The `count` rows from index `first` on, or `None` if they run past the last, in one step.
    pub fn part(&self, first: u16, count: u16) -> Option<Rows<S, R>>
        ensures { result ≡ part first count self.now }
    {
        if usize::from(self.count) < usize::from(first) + usize::from(count) {
            return None;
        }
        let start = self
            .start
            .behind(usize::from(R::size()) * usize::from(first));
        Some(Rows {
            start,
            count,
            kind: PhantomData,
        })
    }
}
