//! The methods of interfaces that a world's classes implement, by numbers and token.

ghost use Rattle.std.specs.Prelude.{◌≡◌, ℕ, ◌+◌, ◌≤◌, ◌==◌, ◌++◌, ◌∷◌, [], Some, length, map, slice_get, take};
ghost use Rattle.std.specs.Prelude.{IfErr, IfOk};
ghost use Rattle.std.specs.List.{filter_map};
ghost use Rattle.std.specs.Option.{option_and_then, option_map, option_map_or, option_to_list};
ghost use Rattle.jc_classes.specs.World.{class_named, superclass_of};
ghost use Rattle.jc_entries.specs.declared.called.Called.TheVariants.{Nothing};
ghost use Rattle.jc_program.specs.Called.{called_under, interface_call_at};
ghost use Rattle.jc_program.specs.Classes.{class_number};
ghost use Rattle.jc_program.specs.InterfaceRows.{AreInterfaceRows, class_interfaces, index_row, indexes_at};
ghost use Rattle.jc_program.specs.InterfaceRows.{indexes_in, own_rows};
ghost use Rattle.jc_program.specs.PrivateInterfaceRows.{LieWithinRows, classes_in};
ghost use Rattle.jc_program.specs.PrivateLaid.{part};
ghost use Rattle.jc_program.specs.declared.interfaces.ListingClass.{ListingClass as TheClass};

use crate::called::PACKAGE_VISIBLE;
use crate::class_rows::MOST_CLASSES;
use crate::classes::{ClassNumber, Classes};
use crate::index_rows::IndexRows;
use crate::laid::start_of;
use crate::tables::short_of;
use crate::virtuals::VirtualMethods;
use jc_base::ClassRef;
use jc_classes::{ClassTable, ImplementedInterface};
use jc_entries::Called;
use jc_link::World;
use jc_names::{ClassName, PackagePlace};
use std::alloc::{AllocError, Global};
use std::marker::Model;

/// The target of an interface call.
#[derive(Clone, Copy)]
pub enum InterfaceCall {
    /// No class of the object's chain lists the interface: the object doesn't implement it.
    NotListed,
    /// The nearest class that lists it gives the method.
    Listed(Called),
}

/// Where a class's rows begin among those of all classes, how many it has, and the number of its superclass: 12 bytes.
#[derive(Clone, Copy)]
pub(crate) struct ListingClass {
    pub(crate) start: u32,
    pub(crate) count: u16,
    pub(crate) superclass: Option<u16>,
}

/// The class with a number.
#[inline]
fn class_at(classes: &[ListingClass], number: u16) -> Option<ListingClass>
    ensures { result ≡ slice_get classes.now number }
{
    classes.get(usize::from(number)).copied()
}

/// Where the rows of a class end.
fn row_end(class: ListingClass) -> usize
    ensures { result ≡ class.start + class.count }
{
    class.start as usize + usize::from(class.count)
}

/// Where the rows of these classes end.
fn rows_end(classes: &[ListingClass]) -> usize
    ensures { (n : ℕ) (c : TheClass) → slice_get classes.now n ≡ Some c → c.start + c.count ≤ result }
{
    let mut end = 0;
    for class in classes {
        end = end.max(row_end(*class));
    }
    end
}

/// The rows of a class's own record; none if there is no such class.
fn own_rows(table: &ClassTable, class: ClassName) -> &[ImplementedInterface]
    ensures { result.now ≡ own_rows table.now class }
{
    match table.class_at(class) {
        Some(found) => found.interface_rows(),
        None => &[],
    }
}

/// The number of the class that a reference in the package at a place resolves to.
fn number_named(
    table: &ClassTable,
    classes: &Classes,
    home: PackagePlace,
    reference: ClassRef,
) -> Option<ClassNumber>
    ensures { result ≡ option_and_then (class_number classes.now) (class_named table.now home reference) }
{
    classes.number_of(table.class_named(home, reference)?)
}

/// The number of the superclass of a class.
fn superclass_number(table: &ClassTable, classes: &Classes, class: ClassName) -> Option<u16>
    ensures { result ≡ option_and_then (class_number classes.now) (superclass_of table.now class) }
{
    let number = classes.number_of(table.superclass_of(class)?)?;
    Some(number.index())
}

/// Appends the row for an interface, if the interface has a number.
fn put_row(
    rows: &mut IndexRows,
    table: &ClassTable,
    classes: &Classes,
    home: PackagePlace,
    row: &ImplementedInterface,
) -> Result<(), AllocError>
    ensures done { IfOk result (λ u. rows.new
        ≡ rows.old ++ option_to_list (index_row table.now classes.now home row.now)) }
    ensures kept { IfErr result (λ e. rows.new ≡ rows.old) }
{
    match number_named(table, classes, home, row.interface()) {
        Some(number) => rows.put(number.index(), row.indexes()),
        None => Ok(()),
    }
}

/// Appends the rows of a class in the package at a place.
fn put_rows(
    rows: &mut IndexRows,
    table: &ClassTable,
    classes: &Classes,
    home: PackagePlace,
    listed: &[ImplementedInterface],
) -> Result<(), AllocError>
    ensures done { IfOk result (λ u. rows.new
        ≡ rows.old ++ filter_map (index_row table.now classes.now home) listed.now) }
    ensures begins { take (length rows.old) rows.new ≡ rows.old }
{
    for row in listed {
        put_row(rows, table, classes, home, row)?;
    }
    Ok(())
}

/// The virtual tokens of an interface's methods in a class's own rows.
#[inline]
fn own_indexes(rows: &IndexRows, class: ListingClass, interface: u16) -> Option<&[u8]>
    requires within { class.start + class.count ≤ length rows.now }
    ensures { option_map (λ indexes. indexes.now) result
        ≡ indexes_in (part rows.now class.start class.count) interface }
{
    rows.find(class.start as usize, usize::from(class.count), interface)
}

/// The same for a class or its nearest superclass with such a row.
#[inline]
fn indexes_at<'a>(
    rows: &'a IndexRows,
    classes: &[ListingClass],
    class: u16,
    interface: u16,
) -> Option<&'a [u8]>
    requires within { LieWithinRows (length rows.now) classes.now }
    ensures { option_map (λ indexes. indexes.now) result
        ≡ indexes_at (classes_in rows.now classes.now) interface class }
{
    let mut number = class;
    for _ in 0..MOST_CLASSES {
        let at = class_at(classes, number)?;
        if let Some(indexes) = own_indexes(rows, at, interface) {
            return Some(indexes);
        }
        number = at.superclass?;
    }
    None
}

/// The method of a class at the virtual token listed for an interface's token; nothing if none is listed, or it is
/// package-visible.
#[inline]
fn called_under(
    virtual_methods: &VirtualMethods,
    class: ClassNumber,
    indexes: &[u8],
    token: u8,
) -> Called
    ensures { result ≡ option_map_or (called_under virtual_methods.now class) (slice_get indexes.now token) Nothing }
{
    match indexes.get(usize::from(token)).copied() {
        Some(index) => {
            if index < PACKAGE_VISIBLE {
                virtual_methods.virtual_method(class, index)
            } else {
                Called::Nothing
            }
        }
        None => Called::Nothing,
    }
}

/// The interfaces that each class of a world lists in its own record, and its superclass.
#[derive(Drop)]
pub struct InterfaceMethods {
    rows: IndexRows,
    classes: Vec<ListingClass>,
}

impl Model for InterfaceMethods {
    ghost use Rattle.std.specs.Prelude.{List, length};
    ghost use Rattle.jc_program.specs.InterfaceRows.{ClassInterfaces};
    ghost use Rattle.jc_program.specs.PrivateInterfaceRows.{LieWithinRows, classes_in};

    ghost Value = { List ClassInterfaces };

    ghost view = { λ m. classes_in m.rows m.classes.items };

    ghost invariant = { λ m. LieWithinRows (length m.rows) m.classes.items };
}

impl InterfaceMethods {
    /// Lists the interfaces of a world's classes.
    pub fn new(
        alloc: Global,
        world: &World,
        classes: &Classes,
    ) -> Result<InterfaceMethods, AllocError>
        ensures rows { IfOk result (AreInterfaceRows world.now.shapes classes.now) }
        ensures count { IfOk result (λ made. length made ≡ length classes.now) }
    {
        let mut made = InterfaceMethods {
            rows: IndexRows::new(alloc),
            classes: Vec::new(alloc),
        };
        made.grow(world.table(), classes)?;
        Ok(made)
    }

    /// Appends a class. On failure nothing changes.
    fn put(
        &mut self,
        table: &ClassTable,
        classes: &Classes,
        class: ClassName,
    ) -> Result<(), AllocError>
        ensures done { IfOk result (λ u. self.new ≡ self.old ++ class_interfaces table.now classes.now class ∷ []) }
        ensures kept { IfErr result (λ e. self.new ≡ self.old) }
    {
        let first = self.rows.len();
        let start = start_of(first)?;
        let listed = own_rows(table, class);
        put_rows(&mut self.rows, table, classes, class.home(), listed)?;
        let count = short_of(self.rows.len() - first)?;
        let superclass = superclass_number(table, classes, class);
        self.classes.push(ListingClass {
            start,
            count,
            superclass,
        })?;
        Ok(())
    }

    /// Appends the interfaces of the remaining classes of a world.
    pub(crate) fn grow(&mut self, table: &ClassTable, classes: &Classes) -> Result<(), AllocError>
        requires first { self.old ≡ map (class_interfaces table.now classes.now) (take (length self.old) classes.now) }
        requires few { length self.old ≤ length classes.now }
        ensures rows { IfOk result (λ u. AreInterfaceRows table.now classes.now self.new) }
        ensures count { IfOk result (λ u. length self.new ≡ length classes.now) }
        ensures begins { take (length self.old) self.new ≡ self.old }
    {
        let names = classes.names();
        for at in self.classes.len()..names.len() {
            self.put(table, classes, names[at])?;
        }
        Ok(())
    }

    /// Keeps only the interfaces of the first classes.
    pub(crate) fn keep(&mut self, count: usize)
        ensures { self.new ≡ take count self.old }
    {
        self.classes.truncate(count);
        self.rows.keep(rows_end(&self.classes));
    }

    /// How many classes it has rows for.
    pub fn len(&self) -> usize
        ensures { result ≡ length self.now }
    {
        self.classes.len()
    }

    /// Whether it has no classes.
    pub fn is_empty(&self) -> bool
        ensures { result ≡ (length self.now == 0) }
    {
        self.classes.len() == 0
    }

    /// The target of a call of an interface's method by its token, for an object of the class with a number. A number
    /// that no class has lists nothing.
    #[inline]
    pub fn interface_method(
        &self,
        virtual_methods: &VirtualMethods,
        class: ClassNumber,
        interface: ClassNumber,
        token: u8,
    ) -> InterfaceCall
        ensures { result ≡ interface_call_at self.now virtual_methods.now class interface token }
    {
        match indexes_at(&self.rows, &self.classes, class.index(), interface.index()) {
            Some(indexes) => {
                InterfaceCall::Listed(called_under(virtual_methods, class, indexes, token))
            }
            None => InterfaceCall::NotListed,
        }
    }
}
