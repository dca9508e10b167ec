//! Owned copies of rows.

ghost use Rattle.std.specs.Prelude.{◌≡◌, IfOk};

use crate::rows::{Row, Rows, Source};
use std::alloc::{AllocError, Global};

/// Copies rows into a vector, for rows that borrow nothing.
pub fn owned_rows<S: Source, R: Row<S>>(
    alloc: Global,
    rows: &Rows<S, R>,
) -> Result<Vec<R>, AllocError>
    ensures { IfOk result (λ owned. owned.items ≡ rows.now) }
{
    let mut owned = Vec::new(alloc);
    let mut left = rows.again();
    while let Some(row) = left.next() {
        owned.push(row)?;
    }
    Ok(owned)
}
