//! Making the tables of a package's classes when it is added.

ghost use Rattle.std.specs.Prelude.{◌≡◌, ◌+◌, ◌≤◌, ◌++◌, ◌∷◌, [], true, false, length, suc, Some, IfOk, IfErr};
ghost use Rattle.std.specs.Prelude.{IfSome, IfNone};
ghost use Rattle.std.specs.Option.{option_map};
ghost use Rattle.jc_classes.specs.PrivateTables.{depth_above, index_at, name_placed, table_of, table_so_far};
ghost use Rattle.jc_classes.specs.PrivateTables.{AreBefore, AreInMaking, AreSettled, AreTables};
ghost use Rattle.jc_classes.specs.PrivateTables.{IsFurther, IsSettled, IsTabled, IsTabledAbove, IsWaiting};
ghost use Rattle.jc_classes.specs.PrivateTables.{LacksTableAbove, LeadsUp};
ghost use Rattle.jc_classes.specs.Subtype.{has_whole_chain};
ghost use Rattle.jc_names.specs.Names.{home_of};

use crate::shapes::Shapes;
use crate::table::ClassTable;
use crate::tables::{Jump, MethodTable, PackageTables};
use crate::walk::MOST_CLASSES;
use jc_base::Shared;
use jc_names::{ClassName, PackagePlace, name_in};
use std::alloc::{AllocError, Global};

impl ClassTable {
    /// The table of a class or an interface. There is none only if neither has this name, or if the superclass chain
    /// doesn't end.
    pub(crate) fn table_of(&self, class: ClassName) -> Option<&MethodTable>
        ensures right { IfSome result (λ table. IsTabled self.now class table.now) }
        ensures none { IfNone result (has_whole_chain self.now class ≡ false) }
    {
        self.shapes.table_in(&self.tables, class)
    }
}

impl Shapes {
    /// The index of a class among those of its package.
    fn index_of(&self, class: ClassName) -> Option<usize>
        ensures { result ≡ index_at self.now class }
    {
        let shape = self.package_at(class)?;
        shape.index_of(class.offset())
    }

    /// The table of a class, if there is one.
    fn table_in<'t>(
        &self,
        tables: &'t [Shared<PackageTables>],
        class: ClassName,
    ) -> Option<&'t MethodTable>
        ensures { option_map (λ t. t.now) result ≡ table_of self.now tables.now class }
    {
        let index = self.index_of(class)?;
        tables.get(class.home().index())?.get().at(index)
    }

    /// The table of a class, if it was made: of an earlier package, or of the last one.
    fn table_so_far<'t>(
        &self,
        tables: &'t [Shared<PackageTables>],
        made: &'t PackageTables,
        class: ClassName,
    ) -> Option<&'t MethodTable>
        ensures { option_map (λ t. t.now) result ≡ table_so_far self.now tables.now made.now class }
    {
        let index = self.index_of(class)?;
        match tables.get(class.home().index()) {
            Some(rows) => rows.get().at(index),
            None => made.at(index),
        }
    }

    /// The table of a class's superclass, if it has one. `None` if the superclass has no table yet.
    fn table_above<'t>(
        &self,
        tables: &'t [Shared<PackageTables>],
        made: &'t PackageTables,
        class: ClassName,
    ) -> Option<Option<&'t MethodTable>>
        requires { AreInMaking self.now tables.now made.now }
        ensures right { IfSome result (λ a. IsTabledAbove self.now class (option_map (λ t. t.now) a)) }
        ensures none { IfNone result (LacksTableAbove self.now tables.now made.now class) }
    {
        let Some(above) = self.superclass_of(class) else {
            return Some(None);
        };
        match self.table_so_far(tables, made, above) {
            Some(table) => Some(Some(table)),
            None => None,
        }
    }

    /// The jump of a class, computed from its superclass `above`. It joins the jump of `above` and the next one, if
    /// both skip as many classes, and otherwise leads to `above`. So a walk of jumps skips any number of classes in few
    /// steps.
    fn jump_from(
        &self,
        tables: &[Shared<PackageTables>],
        made: &PackageTables,
        above: ClassName,
        table: &MethodTable,
    ) -> Jump
        requires making { AreInMaking self.now tables.now made.now }
        requires tabled { IsTabled self.now above table.now }
        ensures { LeadsUp self.now above table.now.depth result }
    {
        match self.table_so_far(tables, made, table.jump().to) {
            Some(far) if far.jump_length() == table.jump_length() => far.jump(),
            Some(_) | None => Jump {
                to: above,
                depth: table.depth(),
            },
        }
    }

    /// The jump of a class with this depth; without a superclass it leads to the class itself.
    fn jump_of(
        &self,
        tables: &[Shared<PackageTables>],
        made: &PackageTables,
        class: ClassName,
        above: Option<&MethodTable>,
        depth: u16,
    ) -> Jump
        requires making { AreInMaking self.now tables.now made.now }
        requires above { IsTabledAbove self.now class (option_map (λ t. t.now) above) }
        requires depth { depth ≡ suc (depth_above (option_map (λ t. t.now) above)) }
        ensures { LeadsUp self.now class depth result }
    {
        let itself = Jump { to: class, depth };
        let Some(superclass) = self.superclass_of(class) else {
            return itself;
        };
        match above {
            Some(table) => self.jump_from(tables, made, superclass, table),
            None => itself,
        }
    }

    /// The table of a class or an interface. `None` if neither has this name, or if the superclass has no table yet. A
    /// chain of as many classes as there can be has a cycle.
    fn table_made(
        &self,
        alloc: Global,
        tables: &[Shared<PackageTables>],
        made: &PackageTables,
        class: ClassName,
    ) -> Result<Option<MethodTable>, AllocError>
        requires { AreInMaking self.now tables.now made.now }
        ensures right { IfOk result (λ found. IfSome found (λ table. IsTabled self.now class table)) }
        ensures none { IfOk result (λ found. IfNone found (IsWaiting self.now tables.now made.now class)) }
    {
        let Some(found) = self.class_at(class) else {
            return Ok(None);
        };
        let Some(above) = self.table_above(tables, made, class) else {
            return Ok(None);
        };
        if depth_of(above) >= MOST_CLASSES {
            return Ok(None);
        }
        let depth = depth_of(above) + 1;
        let jump = self.jump_of(tables, made, class, above, depth);
        let table = self.table_from(alloc, class, found, above, depth, jump)?;
        Ok(Some(table))
    }

    /// Makes the table of a class of the last package, if it has none, and returns whether it did.
    fn fill_class(
        &self,
        alloc: Global,
        tables: &[Shared<PackageTables>],
        made: &mut PackageTables,
        class: ClassName,
    ) -> Result<bool, AllocError>
        requires making { AreInMaking self.now tables.now made.old }
        requires last { home_of class ≡ length tables.now }
        ensures further { IfOk result (λ changed. IsFurther self.now tables.now made.old made.new changed) }
        ensures settled { IfOk result (λ b. b ≡ false → IsSettled self.now tables.now made.new class) }
    {
        if self.table_so_far(tables, made, class).is_some() {
            return Ok(false);
        }
        let Some(index) = self.index_of(class) else {
            return Ok(false);
        };
        match self.table_made(alloc, tables, made, class)? {
            Some(table) => {
                made.put(index, table);
                Ok(true)
            }
            None => Ok(false),
        }
    }

    /// The name of the class with an index in the package at a place.
    fn name_placed(&self, home: PackagePlace, index: usize) -> Option<ClassName>
        ensures { result ≡ name_placed self.now home index }
    {
        let found = self.class_placed(home, index)?;
        name_in(home, found.offset)
    }

    /// The same for the class with an index in the last package.
    fn fill(
        &self,
        alloc: Global,
        tables: &[Shared<PackageTables>],
        made: &mut PackageTables,
        index: usize,
    ) -> Result<bool, AllocError>
        requires making { AreInMaking self.now tables.now made.old }
        requires few { length tables.now ≤ 256 }
        ensures further { IfOk result (λ changed. IsFurther self.now tables.now made.old made.new changed) }
        ensures settled { IfOk result (λ b. b ≡ false → AreSettled self.now tables.now made.new index (index + 1)) }
    {
        match self.name_placed(PackagePlace::new(tables.len()), index) {
            Some(class) => self.fill_class(alloc, tables, made, class),
            None => Ok(false),
        }
    }

    /// The same for each of the first `count` classes. It returns whether it made any table.
    fn fill_each(
        &self,
        alloc: Global,
        tables: &[Shared<PackageTables>],
        made: &mut PackageTables,
        count: usize,
    ) -> Result<bool, AllocError>
        requires making { AreInMaking self.now tables.now made.old }
        requires few { length tables.now ≤ 256 }
        ensures further { IfOk result (λ changed. IsFurther self.now tables.now made.old made.new changed) }
        ensures settled { IfOk result (λ b. b ≡ false → AreSettled self.now tables.now made.new 0 count) }
    {
        let mut changed = false;
        for index in 0..count {
            let filled = self.fill(alloc, tables, made, index)?;
            changed |= filled;
        }
        Ok(changed)
    }

    /// Repeats this until no table is made: a class's table is made after its superclass's.
    fn fill_all(
        &self,
        alloc: Global,
        tables: &[Shared<PackageTables>],
        made: &mut PackageTables,
        count: usize,
    ) -> Result<(), AllocError>
        requires making { AreInMaking self.now tables.now made.old }
        requires few { length tables.now ≤ 256 }
        ensures making { IfOk result (λ u. AreInMaking self.now tables.now made.new) }
        ensures settled { IfOk result (λ u. AreSettled self.now tables.now made.new 0 count) }
    {
        loop {
            if !self.fill_each(alloc, tables, made, count)? {
                return Ok(());
            }
        }
    }

    /// Makes the tables of the classes of the last package.
    fn tables_of_last(
        &self,
        alloc: Global,
        tables: &[Shared<PackageTables>],
    ) -> Result<PackageTables, AllocError>
        requires { AreBefore self.now tables.now }
        ensures { IfOk result (λ made. AreTables self.now (tables.now ++ made ∷ [])) }
    {
        let last = PackagePlace::new(self.len() - 1);
        let count = self.class_count(last);
        let mut made = PackageTables::new(alloc, count)?;
        self.fill_all(alloc, tables, &mut made, count)?;
        Ok(made)
    }

    /// Appends the tables of the last package.
    pub(crate) fn put_tables(
        &self,
        alloc: Global,
        tables: &mut Vec<Shared<PackageTables>>,
    ) -> Result<(), AllocError>
        requires { AreBefore self.now tables.old.items }
        ensures done { IfOk result (λ u. AreTables self.now tables.new.items) }
        ensures kept { IfErr result (λ e. tables.new.items ≡ tables.old.items) }
    {
        let made = self.tables_of_last(alloc, tables)?;
        tables.push(Shared::new(alloc, made)?)?;
        Ok(())
    }
}

/// The length of the superclass's chain, or 0 if there is no superclass.
fn depth_of(above: Option<&MethodTable>) -> u16
    ensures { result ≡ depth_above (option_map (λ t. t.now) above.entry) }
{
    match above {
        Some(table) => table.depth(),
        None => 0,
    }
}
