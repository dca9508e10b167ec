//! The classes of a world, by number and by name.

ghost use Rattle.std.specs.Prelude.{◌≡◌, ℕ, ◌+◌, ◌<◌, ◌==◌, ◌&&◌, ◌++◌, ◌∷◌, [], length, slice_get, take, Some};
ghost use Rattle.std.specs.Prelude.{if◌then◌else◌, IfErr, IfOk};
ghost use Rattle.std.specs.List.{filter_map};
ghost use Rattle.std.specs.Option.{option_map_or, option_or, option_to_list};
ghost use Rattle.jc_cap_desc.specs.Shape.{Shape};
ghost use Rattle.jc_classes.specs.Limits.{IsSmall};
ghost use Rattle.jc_classes.specs.Members.{name_of};
ghost use Rattle.jc_program.specs.Classes.{HaveWordOffsets, StandAtWords, class_names, class_number, names_in};
ghost use Rattle.jc_program.specs.PrivateClasses.{AreNamesBefore, HaveLastWordOffsets, table_of};
ghost use Rattle.jc_program.specs.PrivateLaid.{number_in};
ghost use Rattle.jc_names.specs.Names.{offset_of};

use crate::numbers::{OffsetTable, forget_numbers, number_in, put_number};
use jc_classes::{Class, ClassTable};
use jc_link::World;
use jc_names::{ClassName, PackagePlace, name_in};
use std::alloc::{AllocError, Global};
use std::marker::Model;

/// The number of a class or interface of a world: its place among all of them.
#[derive(Clone, Copy, Debug)]
pub struct ClassNumber {
    index: u16,
}

impl Model for ClassNumber {
    ghost use Rattle.std.specs.Prelude.{ℕ};

    ghost Value = { ℕ };

    ghost view = { λ n. n.index };

    ghost inverse = { λ index. record { index = index } };
}

impl ClassNumber {
    /// The class with this number.
    pub fn new(index: u16) -> ClassNumber
        ensures { result ≡ index }
    {
        ClassNumber { index }
    }

    /// The number.
    #[inline]
    pub fn index(self) -> u16
        ensures { result ≡ self }
    {
        self.index
    }
}

/// The table that has a class.
#[inline]
fn table_of(class: ClassName) -> usize
    ensures { result ≡ table_of class }
{
    match class {
        ClassName::Api(_) => 0,
        ClassName::Loaded { package, .. } => usize::from(package) + 1,
    }
}

/// Appends the name of a class, if it has one.
fn put_class(
    names: &mut Vec<ClassName>,
    home: PackagePlace,
    class: &Class,
) -> Result<(), AllocError>
    ensures names { IfOk result (λ u. names.new.items ≡ names.old.items ++ option_to_list (name_of home class.now)) }
    ensures offset { class.now.offset < 0x10000 }
{
    if let Some(name) = name_in(home, class.offset()) {
        names.push(name)?;
    }
    Ok(())
}

/// Appends the names of classes.
fn put_classes(
    names: &mut Vec<ClassName>,
    home: PackagePlace,
    classes: &[Class],
) -> Result<(), AllocError>
    ensures names { IfOk result (λ u. names.new.items ≡ names.old.items ++ filter_map (name_of home) classes.now) }
    ensures offsets { IfOk result (λ u. StandAtWords classes.now) }
{
    for class in classes {
        put_class(names, home, class)?;
    }
    Ok(())
}

/// Appends the names of the classes of the package at a place.
fn put_package(
    names: &mut Vec<ClassName>,
    table: &ClassTable,
    home: PackagePlace,
) -> Result<(), AllocError>
    ensures names { IfOk result (λ u. names.new.items
        ≡ names.old.items ++ option_map_or (names_in home) (slice_get table.now home) []) }
    ensures offsets { IfOk result (λ u. (shape : Shape) → slice_get table.now home ≡ Some shape
        → StandAtWords shape.classes) }
{
    match table.shape(home) {
        Some(shape) => put_classes(names, home, shape.classes()),
        None => Ok(()),
    }
}

/// The names of the classes of all packages.
fn names_of(alloc: Global, table: &ClassTable) -> Result<Vec<ClassName>, AllocError>
    ensures names { IfOk result (λ names. names.items ≡ class_names table.now) }
    ensures offsets { IfOk result (λ names. HaveWordOffsets table.now) }
    ensures small { IsSmall table.now }
{
    let mut names = Vec::new(alloc);
    for at in 0..table.len() {
        put_package(&mut names, table, PackagePlace::new(at))?;
    }
    Ok(names)
}

/// Stores the number of a class, unless it has one already.
fn put_name(
    alloc: Global,
    tables: &mut Vec<OffsetTable>,
    name: ClassName,
    number: u32,
) -> Result<(), AllocError>
    requires few { number < 0xFFFF_FFFF }
    ensures done { IfOk result (λ u. (p i : ℕ) → number_in tables.new.items p i
        ≡ (if table_of name == p && offset_of name == i then option_or (number_in tables.old.items p i) (Some number)
        else number_in tables.old.items p i)) }
    ensures kept { IfErr result (λ e. (p i : ℕ) → number_in tables.new.items p i ≡ number_in tables.old.items p i) }
{
    let offset = usize::from(name.offset());
    put_number(alloc, tables, table_of(name), offset, number)
}

/// The classes and interfaces of a world, each with a number that its name leads to in one step.
#[derive(Drop)]
pub struct Classes {
    names: Vec<ClassName>,
    numbers: Vec<OffsetTable>,
}

impl Model for Classes {
    ghost use Rattle.std.specs.Prelude.{List};
    ghost use Rattle.jc_program.specs.PrivateClasses.{AreNumbered};
    ghost use Rattle.jc_names.specs.declared.name.ClassName.{ClassName as Name};

    ghost Value = { List Name };

    ghost view = { λ c. c.names.items };

    ghost invariant = { λ c. AreNumbered c.numbers.items c.names.items };
}

impl Classes {
    /// Lists the classes of a world, package by package, in the order of their records.
    #[tactic(auto, using(crate::proofs::Naming::few_names))]
    pub fn new(alloc: Global, world: &World) -> Result<Classes, AllocError>
        ensures names { IfOk result (λ classes. classes ≡ class_names world.now.shapes) }
        ensures offsets { IfOk result (λ classes. HaveWordOffsets world.now.shapes) }
    {
        let names = names_of(alloc, world.table())?;
        let mut classes = Classes {
            names: Vec::new(alloc),
            numbers: Vec::new(alloc),
        };
        classes.put_all(alloc, &names)?;
        Ok(classes)
    }

    /// Appends the classes of a world's last package.
    #[tactic(auto, using(crate::proofs::Naming::few_names))]
    pub(crate) fn grow(&mut self, alloc: Global, table: &ClassTable) -> Result<(), AllocError>
        requires before { AreNamesBefore table.now self.old }
        ensures names { IfOk result (λ u. self.new ≡ class_names table.now) }
        ensures offsets { IfOk result (λ u. HaveLastWordOffsets table.now) }
        ensures begins { take (length self.old) self.new ≡ self.old }
    {
        let mut more = Vec::new(alloc);
        put_package(&mut more, table, PackagePlace::new(table.len() - 1))?;
        self.put_all(alloc, &more)
    }

    /// Appends classes.
    fn put_all(&mut self, alloc: Global, names: &[ClassName]) -> Result<(), AllocError>
        requires few { length self.old + length names.now < 0x10000 }
        ensures done { IfOk result (λ u. self.new ≡ self.old ++ names.now) }
        ensures begins { take (length self.old) self.new ≡ self.old }
    {
        for at in 0..names.len() {
            self.push(alloc, names[at])?;
        }
        Ok(())
    }

    /// Appends a class. On failure nothing changes.
    fn push(&mut self, alloc: Global, name: ClassName) -> Result<(), AllocError>
        requires few { length self.old + 1 < 0x10000 }
        ensures done { IfOk result (λ u. self.new ≡ self.old ++ name ∷ []) }
        ensures kept { IfErr result (λ e. self.new ≡ self.old) }
    {
        self.names.reserve(1)?;
        put_name(alloc, &mut self.numbers, name, self.names.len() as u32)?;
        self.names.push_reserved(name);
        Ok(())
    }

    /// Keeps only the first classes.
    pub(crate) fn keep(&mut self, count: usize)
        ensures { self.new ≡ take count self.old }
    {
        self.names.truncate(count);
        forget_numbers(&mut self.numbers, count);
    }

    /// How many there are.
    pub fn len(&self) -> usize
        ensures count { result ≡ length self.now }
        ensures few { result < 0x10000 }
    {
        self.names.len()
    }

    /// Whether there is none.
    pub fn is_empty(&self) -> bool
        ensures { result ≡ (length self.now == 0) }
    {
        self.names.len() == 0
    }

    /// The names of all.
    pub fn names(&self) -> &[ClassName]
        ensures names { result.now ≡ self.now }
        ensures few { length self.now < 0x10000 }
    {
        &self.names
    }

    /// The name of the class with a number.
    #[inline]
    pub fn name(&self, number: ClassNumber) -> ClassName
        requires there { number < length self.now }
        ensures { slice_get self.now number ≡ Some result }
    {
        self.names[usize::from(number.index)]
    }

    /// The number of the class with a name.
    #[inline]
    #[tactic(auto, using(crate::proofs::Naming::number_is, crate::proofs::Naming::number_below))]
    pub fn number_of(&self, class: ClassName) -> Option<ClassNumber>
        ensures { result ≡ class_number self.now class }
    {
        let index = number_in(&self.numbers, table_of(class), usize::from(class.offset()))?;
        Some(ClassNumber {
            index: index as u16,
        })
    }
}
