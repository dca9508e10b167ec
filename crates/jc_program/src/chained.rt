//! Tables of call targets that link to other tables.

ghost use Rattle.std.specs.Prelude.{◌≡◌, ◌<◌, ℕ, length, Some, IfErr, IfOk};
ghost use Rattle.jc_program.specs.Called.{keyed_in};
ghost use Rattle.jc_program.specs.PrivateChained.{AreChained, IsHead, first_chained, none_chained, number_at};
ghost use Rattle.jc_program.specs.PrivateChained.{number_behind, tables_at, with_table};

use crate::tables::{CalledTables, short_of};
use jc_entries::Called;
use std::alloc::{AllocError, Global};
use std::marker::Model;

/// The number at a place; none after the end.
#[inline]
pub(crate) fn number_at(numbers: &[Option<u16>], place: usize) -> Option<u16>
    ensures { result ≡ number_at numbers.now place }
{
    numbers.get(place).copied().unwrap_or(None)
}

/// Tables with keys. Each has the number of the next table in its list, which is smaller than its own. So lists of
/// tables share their common ends.
#[derive(Drop)]
pub(crate) struct ChainedTables {
    tables: CalledTables,
    nexts: Vec<Option<u16>>,
}

impl Model for ChainedTables {
    ghost use Rattle.jc_program.specs.PrivateChained.{AreChained, Chained};

    ghost Value = { Chained };

    ghost view = { λ t. record { tables = t.tables; nexts = t.nexts.items } };

    ghost invariant = { λ t. AreChained (record { tables = t.tables; nexts = t.nexts.items }) };
}

impl ChainedTables {
    /// Creates a list without tables.
    pub(crate) fn new(alloc: Global) -> ChainedTables
        ensures { result ≡ none_chained }
    {
        ChainedTables {
            tables: CalledTables::new(alloc),
            nexts: Vec::new(alloc),
        }
    }

    /// Appends a table and returns its number. On failure nothing changes.
    pub(crate) fn put(
        &mut self,
        key: u16,
        table: &[Called],
        next: Option<u16>,
    ) -> Result<u16, AllocError>
        requires { IsHead (length self.old.tables) next }
        ensures number { IfOk result (λ number. number ≡ length self.old.tables) }
        ensures done { IfOk result (λ number. self.new
            ≡ with_table self.old (record { key = key; called = table.now }) next) }
        ensures kept { IfErr result (λ e. self.new ≡ self.old) }
    {
        let number = short_of(self.tables.len())?;
        self.nexts.reserve(1)?;
        self.tables.put(key, table)?;
        self.nexts.push_reserved(next);
        Ok(number)
    }

    /// Keeps only the first tables.
    pub(crate) fn keep(&mut self, count: usize)
        ensures first { self.new ≡ first_chained count self.old }
        ensures chained { AreChained self.old }
    {
        self.nexts.truncate(count);
        self.tables.keep(count);
    }

    /// The first table of a list, after skipping a first table that has the key.
    pub(crate) fn behind(&self, head: Option<u16>, key: u16) -> Option<u16>
        ensures head { result ≡ number_behind self.now head key }
        ensures chained { AreChained self.now }
    {
        let nexts = &self.nexts;
        let number = head?;
        let place = usize::from(number);
        match self.tables.key(place) {
            Some(found) if found == key => number_at(nexts, place),
            _ => Some(number),
        }
    }

    /// The first table with a key in a list, at a token.
    #[inline]
    pub(crate) fn find(&self, head: Option<u16>, key: u16, token: u8) -> Option<Called>
        ensures { result ≡ keyed_in (tables_at self.now head) key token }
    {
        let mut number = head;
        for _ in 0..self.tables.len() {
            let place = usize::from(number?);
            if self.tables.key(place)? == key {
                return Some(self.tables.at(place, token));
            }
            number = number_at(&self.nexts, place);
        }
        None
    }
}
