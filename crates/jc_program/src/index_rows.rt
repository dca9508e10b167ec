//! Rows of interfaces: the virtual tokens under which classes have their methods.

ghost use Rattle.std.specs.Prelude.{◌≡◌, ◌+◌, ◌≤◌, ◌++◌, ◌∷◌, [], length, take, IfOk, IfErr};
ghost use Rattle.std.specs.Option.{option_map};
ghost use Rattle.jc_program.specs.InterfaceRows.{indexes_in};
ghost use Rattle.jc_program.specs.PrivateLaid.{part};

use crate::laid::{part_of, start_of};
use crate::tables::{TableRow, entries_end, row_with, short_of};
use std::alloc::{AllocError, Global};
use std::marker::Model;

/// Rows of interfaces, each with the interface's number, and the virtual tokens of all rows in one array.
#[derive(Drop)]
pub(crate) struct IndexRows {
    rows: Vec<TableRow>,
    tokens: Vec<u8>,
}

impl Model for IndexRows {
    ghost use Rattle.std.specs.Prelude.{List, length};
    ghost use Rattle.jc_program.specs.InterfaceRows.{IndexRow};
    ghost use Rattle.jc_program.specs.PrivateCalled.{LieWithin};
    ghost use Rattle.jc_program.specs.PrivateInterfaceRows.{index_rows_in};

    ghost Value = { List IndexRow };

    ghost view = { λ r. index_rows_in r.tokens.items r.rows.items };

    ghost invariant = { λ r. LieWithin (length r.tokens.items) r.rows.items };
}

impl IndexRows {
    /// Creates a list without rows.
    pub(crate) fn new(alloc: Global) -> IndexRows
        ensures { result ≡ [] }
    {
        IndexRows {
            rows: Vec::new(alloc),
            tokens: Vec::new(alloc),
        }
    }

    /// How many there are.
    pub(crate) fn len(&self) -> usize
        ensures { result ≡ length self.now }
    {
        self.rows.len()
    }

    /// Appends a row. On failure nothing changes.
    pub(crate) fn put(&mut self, interface: u16, indexes: &[u8]) -> Result<(), AllocError>
        ensures done { IfOk result (λ u. self.new
            ≡ self.old ++ record { interface = interface; indexes = indexes.now } ∷ []) }
        ensures kept { IfErr result (λ e. self.new ≡ self.old) }
    {
        let start = start_of(self.tokens.len())?;
        let length = short_of(indexes.len())?;
        self.rows.reserve(1)?;
        self.tokens.extend_from_slice(indexes)?;
        self.rows.push_reserved(TableRow {
            start,
            length,
            key: interface,
        });
        Ok(())
    }

    /// Keeps only the first rows.
    pub(crate) fn keep(&mut self, count: usize)
        ensures { self.new ≡ take count self.old }
    {
        self.rows.truncate(count);
        self.tokens.truncate(entries_end(&self.rows));
    }

    /// The virtual tokens of an interface, from the first row for it among `count` rows from `first` on.
    #[inline]
    pub(crate) fn find(&self, first: usize, count: usize, interface: u16) -> Option<&[u8]>
        requires within { first + count ≤ length self.now }
        ensures { option_map (λ indexes. indexes.now) result ≡ indexes_in (part self.now first count) interface }
    {
        match row_with(part_of(&self.rows, first, count), interface) {
            Some(row) => Some(part_of(&self.tokens, row.start as usize, usize::from(row.length))),
            None => None,
        }
    }
}
