//! The supertypes of a world's classes, by number.

ghost use Rattle.std.specs.Prelude.{◌≡◌, ℕ, ◌+◌, ◌<◌, ◌≤◌, ◌==◌, ◌&&◌, ◌||◌, ◌++◌, length, map};
ghost use Rattle.std.specs.Prelude.{take, Some, IfOk};
ghost use Rattle.std.specs.List.{filter_map};
ghost use Rattle.std.specs.Option.{option_and_then, option_to_list};
ghost use Rattle.jc_api.specs.declared.class.ApiClass.TheVariants.{Object};
ghost use Rattle.jc_classes.specs.Limits.{IsSmall};
ghost use Rattle.jc_classes.specs.World.{class_named, interfaces_of, listed_refs};
ghost use Rattle.jc_program.specs.BitRow.{has_bit};
ghost use Rattle.jc_program.specs.Classes.{class_number};
ghost use Rattle.jc_program.specs.PrivateSupertypes.{AreAbove, AreBegun, AreNumbersOf, AreRight, AreRowsBefore};
ghost use Rattle.jc_program.specs.PrivateSupertypes.{AreWithin, HasObjects, IsPut};
ghost use Rattle.jc_program.specs.PrivateSupertypes.{itself_and_above};
ghost use Rattle.jc_program.specs.Supertypes.{AreSupertypes, is_listed};
ghost use Rattle.jc_names.specs.Names.{home_of};
ghost use Rattle.jc_names.specs.declared.name.ClassName.TheVariants.{Api};

use crate::bit_row::BitRow;
use crate::bit_rows::{NumberList, settle};
use crate::classes::{ClassNumber, Classes};
use jc_api::ApiClass;
use jc_base::ClassRef;
use jc_classes::{Class, ClassTable, found_subtypes_are_subtypes, growing_keeps_lookups};
use jc_link::World;
use jc_names::ClassName;
use std::alloc::{AllocError, Global};
use std::marker::Model;

/// The supertype of all classes and interfaces.
const OBJECT: ClassName = ClassName::Api(ApiClass::Object);

/// The number of a class. Each class of a world has one, as do its superclass and its interfaces.
pub(crate) fn number_of(classes: &Classes, class: ClassName) -> Result<u16, AllocError>
    ensures { IfOk result (λ number. class_number classes.now class ≡ Some number) }
{
    match classes.number_of(class) {
        Some(number) => Ok(number.index()),
        None => Err(AllocError),
    }
}

/// Appends the number of a class, if there is a class.
fn put_above(
    numbers: &mut Vec<u16>,
    classes: &Classes,
    class: Option<ClassName>,
) -> Result<(), AllocError>
    ensures { IfOk result (λ u. map Some numbers.new.items
        ≡ map Some numbers.old.items ++ map (class_number classes.now) (option_to_list class)) }
{
    match class {
        Some(class) => {
            numbers.push(number_of(classes, class)?)?;
            Ok(())
        }
        None => Ok(()),
    }
}

/// The interface that a reference of a class's record resolves to.
fn interface_named(
    table: &ClassTable,
    lister: ClassName,
    reference: Option<ClassRef>,
) -> Option<ClassName>
    ensures { result ≡ option_and_then (class_named table.now (home_of lister)) reference }
{
    table.class_named(lister.home(), reference?)
}

/// How many interfaces a record lists.
#[tactic(auto, using(crate::proofs::Climbing::class_lists, crate::proofs::Climbing::interface_lists))]
fn listed_count(found: &Class) -> usize
    ensures { result ≡ length (listed_refs found.now.body) }
{
    if found.is_class() {
        found.interface_rows().len()
    } else {
        found.superinterfaces().len()
    }
}

/// Appends the numbers of the interfaces that a class's record lists.
#[tactic(auto, using(crate::proofs::Climbing::numbers_more, crate::proofs::Climbing::numbers_all))]
fn put_listed(
    numbers: &mut Vec<u16>,
    table: &ClassTable,
    classes: &Classes,
    lister: ClassName,
    found: &Class,
) -> Result<(), AllocError>
    ensures { IfOk result (λ u. map Some numbers.new.items ≡ map Some numbers.old.items
        ++ map (class_number classes.now)
        (filter_map (class_named table.now (home_of lister)) (listed_refs found.now.body))) }
{
    for index in 0..listed_count(found) {
        let interface = interface_named(table, lister, found.listed(index));
        put_above(numbers, classes, interface)?;
    }
    Ok(())
}

/// Appends the numbers of the interfaces that a class lists.
#[tactic(auto, using(crate::proofs::Climbing::none_listed))]
fn put_interfaces(
    numbers: &mut Vec<u16>,
    table: &ClassTable,
    classes: &Classes,
    class: ClassName,
) -> Result<(), AllocError>
    ensures { IfOk result (λ u. map Some numbers.new.items
        ≡ map Some numbers.old.items ++ map (class_number classes.now) (interfaces_of table.now class)) }
{
    match table.class_at(class) {
        Some(found) => put_listed(numbers, table, classes, class, found),
        None => Ok(()),
    }
}

/// The numbers of a class, its superclass and the interfaces that it lists.
fn above_of(
    alloc: Global,
    table: &ClassTable,
    classes: &Classes,
    class: ClassName,
) -> Result<NumberList, AllocError>
    ensures { IfOk result (λ list. AreNumbersOf classes.now (itself_and_above table.now class) list) }
{
    let mut numbers = Vec::new(alloc);
    numbers.push(number_of(classes, class)?)?;
    put_above(&mut numbers, classes, table.superclass_of(class))?;
    put_interfaces(&mut numbers, table, classes, class)?;
    Ok(NumberList::new(numbers))
}

/// The same numbers for each class from `first` on.
fn lists_above(
    alloc: Global,
    table: &ClassTable,
    classes: &Classes,
    first: usize,
) -> Result<Vec<NumberList>, AllocError>
    requires { first ≤ length classes.now }
    ensures count { IfOk result (λ lists. first + length lists.items ≡ length classes.now) }
    ensures above { IfOk result (λ lists. AreAbove table.now classes.now first lists.items) }
{
    let mut lists = Vec::new(alloc);
    let names = classes.names();
    for at in first..names.len() {
        let list = above_of(alloc, table, classes, names[at])?;
        lists.push(list)?;
    }
    Ok(lists)
}

/// Puts a number into a row, if `passes` is true.
fn put_if(row: &mut BitRow, passes: bool, number: u16) -> Result<(), AllocError>
    ensures { IfOk result (λ u. (m : ℕ) → has_bit row.new m ≡ (has_bit row.old m || (passes && m == number))) }
{
    if passes {
        return row.put(number);
    }
    Ok(())
}

/// The row with the numbers of Object.
#[tactic(auto, using(crate::proofs::Climbing::objects_none))]
fn objects_of(alloc: Global, classes: &Classes) -> Result<BitRow, AllocError>
    ensures { IfOk result (HasObjects classes.now (length classes.now)) }
{
    let mut row = BitRow::new(alloc);
    let names = classes.names();
    for at in 0..names.len() {
        put_if(&mut row, OBJECT.is(names[at]), at as u16)?;
    }
    Ok(row)
}

/// A row with the same numbers.
#[tactic(auto, using(crate::proofs::Rowing::empty_row))]
fn copy_of(alloc: Global, row: &BitRow) -> Result<BitRow, AllocError>
    ensures { IfOk result (λ copy. (m : ℕ) → has_bit copy m ≡ has_bit row.now m) }
{
    let mut copy = BitRow::new(alloc);
    copy.unite(row)?;
    Ok(copy)
}

/// `count` rows with the same numbers.
fn copies_of(alloc: Global, row: &BitRow, count: usize) -> Result<Vec<BitRow>, AllocError>
    ensures count { IfOk result (λ rows. length rows.items ≡ count) }
    ensures alike { IfOk result (λ rows. (k m : ℕ) → k < count → is_listed rows.items k m ≡ has_bit row.now m) }
{
    let mut rows = Vec::new(alloc);
    for _ in 0..count {
        rows.push(copy_of(alloc, row)?)?;
    }
    Ok(rows)
}

/// Puts a number into the row of a class, if it is among these rows, whose first is that of class `first`.
fn put_own(rows: &mut [BitRow], first: usize, class: u16, number: u16) -> Result<(), AllocError>
    ensures { IfOk result (λ u. IsPut first class number rows.old rows.new) }
{
    let class = usize::from(class);
    if class >= first && class - first < rows.len() {
        rows[class - first].put(number)?;
    }
    Ok(())
}

/// The initial rows of the classes from `first` on: each has Object's and its own number.
fn begun_rows(alloc: Global, classes: &Classes, first: usize) -> Result<Vec<BitRow>, AllocError>
    requires { first ≤ length classes.now }
    ensures { IfOk result (λ rows. AreBegun classes.now first (length classes.now) rows.items) }
{
    let objects = objects_of(alloc, classes)?;
    let names = classes.names();
    let mut rows = copies_of(alloc, &objects, names.len() - first)?;
    for at in first..names.len() {
        put_own(&mut rows, first, number_of(classes, names[at])?, at as u16)?;
    }
    Ok(rows)
}

/// The rows of the classes after those with rows in `made`, from their superclasses and interfaces.
fn rows_behind(
    alloc: Global,
    table: &ClassTable,
    classes: &Classes,
    made: &[BitRow],
) -> Result<Vec<BitRow>, AllocError>
    requires small { IsSmall table.now }
    requires few { length made.now ≤ length classes.now }
    requires right { AreRight table.now classes.now made.now }
    requires within { AreWithin (length classes.now) made.now }
    ensures count { IfOk result (λ rows. length made.now + length rows.items ≡ length classes.now) }
    ensures right { IfOk result (λ rows. AreSupertypes table.now classes.now (made.now ++ rows.items)) }
    ensures within { IfOk result (λ rows. AreWithin (length classes.now) (made.now ++ rows.items)) }
{
    found_subtypes_are_subtypes();
    let mut rows = begun_rows(alloc, classes, made.len())?;
    let above = lists_above(alloc, table, classes, made.len())?;
    settle(alloc, made, &mut rows, &above)?;
    Ok(rows)
}

/// The supertypes of each class and interface of a world: a bit for each class number.
#[derive(Drop)]
pub struct Supertypes {
    rows: Vec<BitRow>,
}

impl Model for Supertypes {
    ghost use Rattle.std.specs.Prelude.{ℕ, List};

    ghost Value = { List (List ℕ) };

    ghost view = { λ s. s.rows.items };
}

impl Supertypes {
    /// Computes the supertypes of a world's classes.
    #[tactic(auto, using(crate::proofs::Enlarging::none_right, crate::proofs::Enlarging::none_within))]
    pub fn new(alloc: Global, world: &World, classes: &Classes) -> Result<Supertypes, AllocError>
        ensures above { IfOk result (λ rows. AreSupertypes world.now.shapes classes.now rows) }
        ensures count { IfOk result (λ rows. length rows ≡ length classes.now) }
        ensures known { IfOk result (AreWithin (length classes.now)) }
    {
        let table = world.table();
        // Called only for its contract: what always holds of a table.
        let _count = table.len();
        let rows = rows_behind(alloc, table, classes, &[])?;
        Ok(Supertypes { rows })
    }

    /// Appends the rows of the remaining classes of a world, which has one package more than when these rows were made.
    /// On failure nothing changes.
    pub(crate) fn grow(
        &mut self,
        alloc: Global,
        table: &ClassTable,
        classes: &Classes,
    ) -> Result<(), AllocError>
        requires before { AreRowsBefore table.now classes.now self.old }
        ensures above { IfOk result (λ u. AreSupertypes table.now classes.now self.new) }
        ensures count { IfOk result (λ u. length self.new ≡ length classes.now) }
        ensures known { IfOk result (λ u. AreWithin (length classes.now) self.new) }
        ensures begins { take (length self.old) self.new ≡ self.old }
    {
        found_subtypes_are_subtypes();
        growing_keeps_lookups();
        // Called only for its contract: what always holds of a table.
        let _count = table.len();
        let mut made = rows_behind(alloc, table, classes, &self.rows)?;
        self.rows.append(&mut made)
    }

    /// Keeps only the rows of the first classes.
    pub(crate) fn keep(&mut self, count: usize)
        ensures { self.new ≡ take count self.old }
    {
        self.rows.truncate(count);
    }

    /// How many classes it has rows for.
    pub fn len(&self) -> usize
        ensures { result ≡ length self.now }
    {
        self.rows.len()
    }

    /// Whether it has no rows.
    pub fn is_empty(&self) -> bool
        ensures { result ≡ (length self.now == 0) }
    {
        self.rows.len() == 0
    }

    /// Whether the class with a number is the other one or below it; false if no class has the number.
    #[inline]
    #[tactic(auto, using(crate::proofs::Rowing::empty_row))]
    pub fn is_subtype(&self, number: ClassNumber, other: ClassNumber) -> bool
        ensures { result ≡ is_listed self.now number other }
    {
        match self.rows.get(usize::from(number.index())) {
            Some(row) => row.has(other.index()),
            None => false,
        }
    }
}
