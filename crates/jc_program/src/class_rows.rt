//! What a machine needs to know of a world's classes, by number: a row of 8 bytes each.

ghost use Rattle.std.specs.Prelude.{◌≡◌, ◌+◌, ◌<◌, ◌≤◌, ◌==◌, List, length, slice_get, take, Some, IfOk, IfSome};
ghost use Rattle.jc_api.specs.declared.class.ApiClass.TheVariants.{Shareable};
ghost use Rattle.jc_cap_desc.specs.Shape.{Shape};
ghost use Rattle.jc_classes.specs.Subtype.{is_interface_at, is_subtype};
ghost use Rattle.jc_link.specs.Named.{size_of};
ghost use Rattle.jc_link.specs.Sound.{IsSound};
ghost use Rattle.jc_program.specs.ClassRows.{AreClassRows, cells_of, class_row_of, row_at};
ghost use Rattle.jc_program.specs.Classes.{class_names};
ghost use Rattle.jc_program.specs.PrivateClassRows.{HaveRows};
ghost use Rattle.jc_program.specs.Supertypes.{AreSupertypes};
ghost use Rattle.jc_names.specs.declared.name.ClassName.{ClassName as Name};
ghost use Rattle.jc_names.specs.declared.name.ClassName.TheVariants.{Api};

use crate::classes::{ClassNumber, Classes};
use crate::supertypes::Supertypes;
use jc_api::ApiClass;
use jc_classes::{ClassTable, found_subtypes_are_subtypes};
use jc_link::{World, built_worlds_are_sound};
use jc_names::ClassName;
use std::alloc::{AllocError, Global};
use std::marker::Model;

/// The greatest number of classes and interfaces.
pub(crate) const MOST_CLASSES: u16 = 17_085;

/// The interface whose objects other applets may call.
const SHAREABLE: ClassName = ClassName::Api(ApiClass::Shareable);

/// What a machine needs to know of a class: 8 bytes.
#[derive(Clone, Copy, Debug)]
pub struct ClassRow {
    /// How many cells an object of it takes: those that it and its superclasses declare.
    pub cells: u32,
    pub is_interface: bool,
    /// Whether it is Shareable or below it.
    pub is_shareable: bool,
}

/// The row of a number that no class has.
const NO_ROW: ClassRow = ClassRow {
    cells: 0,
    is_interface: false,
    is_shareable: false,
};

/// How many cells of an object a class itself declares; none if there is no such class.
fn size_of(table: &ClassTable, class: ClassName) -> u8
    ensures { result ≡ size_of table.now class }
{
    match table.class_at(class) {
        Some(found) => found.declared_size(),
        None => 0,
    }
}

/// The sum of two numbers of cells.
fn sum_of(cells: u32, more: u32) -> Result<u32, AllocError>
    ensures { IfOk result (λ sum. sum ≡ cells + more) }
{
    match cells.checked_add(more) {
        Some(sum) => Ok(sum),
        None => Err(AllocError),
    }
}

/// How many cells an object of a class takes, if the class has a row already.
#[tactic(auto, using(crate::proofs::Summing::cells_there))]
fn cells_made(
    rows: &[ClassRow],
    table: &ClassTable,
    classes: &Classes,
    class: ClassName,
) -> Option<u32>
    requires made { HaveRows table.now classes.now (length rows.now) rows.now }
    ensures { IfSome result (λ cells. cells ≡ cells_of table.now class) }
{
    let place = usize::from(classes.number_of(class)?.index());
    if place < rows.len() {
        Some(rows[place].cells)
    } else {
        None
    }
}

/// How many cells an object of a class takes: its own, and those of its superclasses, read from the first of them that
/// has a row already. If the chain has more than MOST_CLASSES classes it has a cycle, which linking refuses.
#[tactic(auto, using(crate::proofs::Summing::cells_alone, crate::proofs::Summing::cells_up))]
fn cells_of(
    rows: &[ClassRow],
    table: &ClassTable,
    classes: &Classes,
    class: ClassName,
) -> Result<u32, AllocError>
    requires sound { IsSound table.now }
    requires made { HaveRows table.now classes.now (length rows.now) rows.now }
    ensures { IfOk result (λ cells. cells ≡ cells_of table.now class) }
{
    let mut cells: u32 = 0;
    let mut at = class;
    for _ in 0..MOST_CLASSES {
        cells = sum_of(cells, u32::from(size_of(table, at)))?;
        let Some(above) = table.superclass_of(at) else {
            return Ok(cells);
        };
        if let Some(rest) = cells_made(rows, table, classes, above) {
            return sum_of(cells, rest);
        }
        at = above;
    }
    Err(AllocError)
}

/// Whether the class with a number is Shareable or below it, read from its row. If Shareable has no number, the world
/// has no Shareable, and no class is below it.
fn is_shareable(classes: &Classes, supertypes: &Supertypes, number: ClassNumber) -> bool
    ensures { (world : List Shape) → IsSound world → classes.now ≡ class_names world
        → AreSupertypes world classes.now supertypes.now → (c : Name) → slice_get classes.now number ≡ Some c
        → result ≡ is_subtype world c (Api Shareable) }
{
    found_subtypes_are_subtypes();
    match classes.number_of(SHAREABLE) {
        Some(shareable) => supertypes.is_subtype(number, shareable),
        None => false,
    }
}

/// Whether there is an interface with this name.
fn is_interface_at(table: &ClassTable, class: ClassName) -> bool
    ensures { result ≡ is_interface_at table.now class }
{
    match table.class_at(class) {
        Some(found) => !found.is_class(),
        None => false,
    }
}

/// The row of the class with a number, from the rows of the classes before it.
fn class_row_of(
    rows: &[ClassRow],
    table: &ClassTable,
    classes: &Classes,
    supertypes: &Supertypes,
    number: ClassNumber,
) -> Result<ClassRow, AllocError>
    requires sound { IsSound table.now }
    requires names { classes.now ≡ class_names table.now }
    requires above { AreSupertypes table.now classes.now supertypes.now }
    requires made { HaveRows table.now classes.now (length rows.now) rows.now }
    requires there { number < length classes.now }
    ensures { IfOk result (λ row. (c : Name) → slice_get classes.now number ≡ Some c → row ≡ class_row_of table.now c) }
{
    let class = classes.name(number);
    let cells = cells_of(rows, table, classes, class)?;
    Ok(ClassRow {
        cells,
        is_interface: is_interface_at(table, class),
        is_shareable: is_shareable(classes, supertypes, number),
    })
}

/// Appends the rows of the remaining classes, each made from the rows before it.
fn put_rows(
    rows: &mut Vec<ClassRow>,
    table: &ClassTable,
    classes: &Classes,
    supertypes: &Supertypes,
) -> Result<(), AllocError>
    requires sound { IsSound table.now }
    requires names { classes.now ≡ class_names table.now }
    requires above { AreSupertypes table.now classes.now supertypes.now }
    requires first { HaveRows table.now classes.now (length rows.old.items) rows.old.items }
    requires few { length rows.old.items ≤ length classes.now }
    ensures done { IfOk result (λ u. HaveRows table.now classes.now (length classes.now) rows.new.items) }
    ensures begins { take (length rows.old.items) rows.new.items ≡ rows.old.items }
{
    for at in rows.len()..classes.len() {
        let number = ClassNumber::new(at as u16);
        let row = class_row_of(rows, table, classes, supertypes, number)?;
        rows.push(row)?;
    }
    Ok(())
}

/// What a machine needs to know of each class and interface of a world.
#[derive(Drop)]
pub struct ClassRows {
    rows: Vec<ClassRow>,
}

impl Model for ClassRows {
    ghost use Rattle.std.specs.Prelude.{List};
    ghost use Rattle.jc_program.specs.declared.class_rows.ClassRow.{ClassRow as Row};

    ghost Value = { List Row };

    ghost view = { λ r. r.rows.items };
}

impl ClassRows {
    /// Creates the rows of a world's classes, given their supertypes.
    #[tactic(auto, using(crate::proofs::Summing::are_rows))]
    pub(crate) fn new(
        alloc: Global,
        world: &World,
        classes: &Classes,
        supertypes: &Supertypes,
    ) -> Result<ClassRows, AllocError>
        requires names { classes.now ≡ class_names world.now.shapes }
        requires above { AreSupertypes world.now.shapes classes.now supertypes.now }
        ensures rows { IfOk result (λ rows. AreClassRows world.now.shapes classes.now rows) }
        ensures count { IfOk result (λ rows. length rows ≡ length classes.now) }
    {
        let table = world.table();
        // Called only for its contract: what always holds of a table.
        let _count = table.len();
        built_worlds_are_sound();
        let mut rows = Vec::new(alloc);
        put_rows(&mut rows, table, classes, supertypes)?;
        Ok(ClassRows { rows })
    }

    /// Appends the rows of the remaining classes of a world.
    #[tactic(auto, using(crate::proofs::Summing::are_rows))]
    pub(crate) fn grow(
        &mut self,
        table: &ClassTable,
        classes: &Classes,
        supertypes: &Supertypes,
    ) -> Result<(), AllocError>
        requires sound { IsSound table.now }
        requires names { classes.now ≡ class_names table.now }
        requires above { AreSupertypes table.now classes.now supertypes.now }
        requires first { HaveRows table.now classes.now (length self.old) self.old }
        requires few { length self.old ≤ length classes.now }
        ensures rows { IfOk result (λ u. AreClassRows table.now classes.now self.new) }
        ensures count { IfOk result (λ u. length self.new ≡ length classes.now) }
        ensures begins { take (length self.old) self.new ≡ self.old }
    {
        put_rows(&mut self.rows, table, classes, supertypes)
    }

    /// Keeps only the rows of the first classes.
    pub(crate) fn keep(&mut self, count: usize)
        ensures { self.new ≡ take count self.old }
    {
        self.rows.truncate(count);
    }

    /// How many classes it has rows for.
    pub fn len(&self) -> usize
        ensures { result ≡ length self.now }
    {
        self.rows.len()
    }

    /// Whether it has no rows.
    pub fn is_empty(&self) -> bool
        ensures { result ≡ (length self.now == 0) }
    {
        self.rows.len() == 0
    }

    /// The row of the class with a number; if no class has it, a row without cells that isn't an interface's.
    #[inline]
    pub fn row(&self, number: ClassNumber) -> ClassRow
        ensures { result ≡ row_at self.now number }
    {
        self.rows
            .get(usize::from(number.index()))
            .copied()
            .unwrap_or(NO_ROW)
    }
}
