//! Copies of tables and of lists of shared values.

ghost use Rattle.std.specs.Prelude.{◌≡◌, ◌++◌, IfOk};

use crate::table::ClassTable;
use jc_base::Shared;
use std::alloc::{AllocError, Global};

/// Appends each of these items, shared.
pub(crate) fn put_shared<T: Drop>(
    others: &mut Vec<Shared<T>>,
    items: &[Shared<T>],
) -> Result<(), AllocError>
    ensures { IfOk result (λ u. others.new.items ≡ others.old.items ++ items.now) }
{
    for item in items {
        others.push(item.share()?)?;
    }
    Ok(())
}

/// A copy of a list that shares its items.
pub(crate) fn all_shared<T: Drop>(
    alloc: Global,
    items: &[Shared<T>],
) -> Result<Vec<Shared<T>>, AllocError>
    ensures { IfOk result (λ copies. copies.items ≡ items.now) }
{
    let mut copies = Vec::new(alloc);
    put_shared(&mut copies, items)?;
    Ok(copies)
}

impl ClassTable {
    /// A table that shares its packages with this one. It takes memory for one pointer a package, and not for the
    /// contents.
    pub fn copy(&self, alloc: Global) -> Result<ClassTable, AllocError>
        ensures { IfOk result (λ copy. copy ≡ self.now) }
    {
        let shapes = self.shapes.shared(alloc)?;
        let tables = all_shared(alloc, &self.tables)?;
        Ok(ClassTable { shapes, tables })
    }
}
