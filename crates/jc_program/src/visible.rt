//! The package-visible virtual methods of a world's classes, by number, token and package.

ghost use Rattle.std.specs.Prelude.{◌≡◌, ◌≢◌, ◌+◌, ◌<◌, ◌≤◌, ◌==◌, ℕ, true, length, slice_get, take, Some, IfErr, IfOk};
ghost use Rattle.jc_names.specs.Names.{home_at, home_of};
ghost use Rattle.jc_program.specs.Called.{AreVisible, visible_at};
ghost use Rattle.jc_program.specs.PrivateCalled.{AreListed, HasAt, HasVisible};
ghost use Rattle.jc_program.specs.PrivateChained.{AreHeads, AreKept, IsHead, head_of, tables_at};

use crate::called::{PACKAGE_VISIBLE, table_made};
use crate::chained::{ChainedTables, number_at};
use crate::classes::{ClassNumber, Classes};
use crate::methods::Methods;
use crate::nearest::nearest_above;
use jc_classes::ClassTable;
use jc_entries::Called;
use jc_link::World;
use jc_names::{ClassName, PackagePlace};
use std::alloc::{AllocError, Global};
use std::marker::Model;

/// Appends a class's table for its own package, and returns its number. For other packages the class has the tables of
/// a superclass.
fn put_table(
    alloc: Global,
    tables: &mut ChainedTables,
    table: &ClassTable,
    methods: &Methods,
    class: ClassName,
    above: Option<u16>,
) -> Result<u16, AllocError>
    requires above { IsHead (length tables.old.tables) above }
    requires others { (asker : ℕ) → home_of class ≢ home_at asker
        → HasAt table.now methods.now class (tables_at tables.old above) (home_at asker) }
    ensures has { IfOk result (λ number. HasVisible table.now methods.now class (tables_at tables.new (Some number))) }
    ensures within { IfOk result (λ number. number < length tables.new.tables) }
    ensures kept { AreKept tables.old tables.new }
{
    let place = class.home().index() as u16;
    let tokens = table.visible_tokens(class, usize::from(place));
    let called = table_made(alloc, table, methods, class, PACKAGE_VISIBLE, place, tokens)?;
    let next = tables.behind(above, place);
    let number = tables.put(place, &called, next)?;
    Ok(number)
}

/// The first table of a class's list: the list of a superclass, if the class shares its methods, or else one that
/// begins with the class's own table.
fn head_made(
    alloc: Global,
    tables: &mut ChainedTables,
    table: &ClassTable,
    methods: &Methods,
    class: ClassName,
    above: Option<u16>,
    shares: bool,
) -> Result<Option<u16>, AllocError>
    requires above { IsHead (length tables.old.tables) above }
    requires others { (asker : ℕ) → home_of class ≢ home_at asker
        → HasAt table.now methods.now class (tables_at tables.old above) (home_at asker) }
    requires all { shares ≡ true → HasVisible table.now methods.now class (tables_at tables.old above) }
    ensures has { IfOk result (λ head. HasVisible table.now methods.now class (tables_at tables.new head)) }
    ensures within { IfOk result (IsHead (length tables.new.tables)) }
    ensures kept { AreKept tables.old tables.new }
{
    if shares {
        return Ok(above);
    }
    let number = put_table(alloc, tables, table, methods, class, above)?;
    Ok(Some(number))
}

/// The first table of a class's list, by the class's number.
fn head_of(heads: &[Option<u16>], number: Option<u16>) -> Option<u16>
    ensures { result ≡ head_of heads.now number }
{
    number_at(heads, usize::from(number?))
}

/// How many tables there are up to the last one that begins a list.
fn heads_end(heads: &[Option<u16>]) -> usize
    ensures { AreHeads result heads.now }
{
    let mut end = 0;
    for head in heads {
        if let Some(number) = *head {
            end = end.max(usize::from(number) + 1);
        }
    }
    end
}

/// The package-visible methods of each class of a world, by token, for each package in which the class or a superclass
/// declares some. A class has one table, for its own package, if its record declares such methods or precedes that of a
/// superclass that does: at most 128 entries. It shares all other tables with its superclass. So memory grows only with
/// the records of classes, however long their chains are. A call visits at most one table for each package of the
/// chain.
#[derive(Drop)]
pub struct VisibleMethods {
    tables: ChainedTables,
    /// The first table of each class's list.
    heads: Vec<Option<u16>>,
}

impl Model for VisibleMethods {
    ghost use Rattle.std.specs.Prelude.{List, length};
    ghost use Rattle.jc_program.specs.Called.{KeyedTable};
    ghost use Rattle.jc_program.specs.PrivateChained.{AreHeads, lists_in};

    ghost Value = { List (List KeyedTable) };

    ghost view = { λ v. lists_in v.tables v.heads.items };

    ghost invariant = { λ v. AreHeads (length v.tables.tables) v.heads.items };
}

impl VisibleMethods {
    /// Looks up the package-visible methods of a world's classes, given the methods with code.
    #[tactic(auto, using(crate::proofs::Calling::none_listed_yet))]
    pub fn new(
        alloc: Global,
        world: &World,
        methods: &Methods,
        classes: &Classes,
    ) -> Result<VisibleMethods, AllocError>
        ensures visible { IfOk result (λ made. AreVisible world.now.shapes methods.now classes.now made) }
        ensures count { IfOk result (λ made. length made ≡ length classes.now) }
    {
        let mut made = VisibleMethods {
            tables: ChainedTables::new(alloc),
            heads: Vec::new(alloc),
        };
        made.grow(alloc, world.table(), methods, classes)?;
        Ok(made)
    }

    /// Appends a class.
    fn put(
        &mut self,
        alloc: Global,
        table: &ClassTable,
        methods: &Methods,
        classes: &Classes,
        class: ClassName,
    ) -> Result<(), AllocError>
        requires here { slice_get classes.now (length self.old) ≡ Some class }
        requires first { AreListed (HasVisible table.now methods.now) classes.now (length self.old) self.old }
        ensures listed { IfOk result (λ u. AreListed (HasVisible table.now methods.now)
            classes.now (length self.old + 1) self.new) }
        ensures begins { take (length self.old) self.new ≡ self.old }
    {
        let nearest = nearest_above(table, classes, self.len(), class)?;
        let above = head_of(&self.heads, nearest.number);
        let shares = nearest.shares;
        let head = head_made(
            alloc,
            &mut self.tables,
            table,
            methods,
            class,
            above,
            shares,
        )?;
        self.heads.push(head)?;
        Ok(())
    }

    /// Appends the package-visible methods of the remaining classes of a world.
    #[tactic(auto, using(crate::proofs::Showing::are_visible))]
    pub(crate) fn grow(
        &mut self,
        alloc: Global,
        table: &ClassTable,
        methods: &Methods,
        classes: &Classes,
    ) -> Result<(), AllocError>
        requires first { AreListed (HasVisible table.now methods.now) classes.now (length self.old) self.old }
        requires few { length self.old ≤ length classes.now }
        ensures visible { IfOk result (λ u. AreVisible table.now methods.now classes.now self.new) }
        ensures count { IfOk result (λ u. length self.new ≡ length classes.now) }
        ensures begins { take (length self.old) self.new ≡ self.old }
    {
        let names = classes.names();
        for at in self.len()..names.len() {
            self.put(alloc, table, methods, classes, names[at])?;
        }
        Ok(())
    }

    /// Keeps only the lists of the first classes.
    pub(crate) fn keep(&mut self, count: usize)
        ensures { self.new ≡ take count self.old }
    {
        self.heads.truncate(count);
        self.tables.keep(heads_end(&self.heads));
    }

    /// How many classes it has lists for.
    pub fn len(&self) -> usize
        ensures { result ≡ length self.now }
    {
        self.heads.len()
    }

    /// Whether it has no lists.
    pub fn is_empty(&self) -> bool
        ensures { result ≡ (length self.now == 0) }
    {
        self.heads.len() == 0
    }

    /// The target of a call at a package-visible token (from 128 on) that the loaded package with a number makes, for
    /// an object of the class with a number; nothing if no class has the number.
    #[inline]
    #[tactic(auto, using(crate::proofs::Sharing::list_at))]
    pub fn visible_method(&self, number: ClassNumber, token: u8, package: u8) -> Called
        ensures { result ≡ visible_at self.now number token «package» }
    {
        let asker = PackagePlace::of_loaded(package).index() as u16;
        let place = token.saturating_sub(PACKAGE_VISIBLE);
        let head = number_at(&self.heads, usize::from(number.index()));
        self.tables
            .find(head, asker, place)
            .unwrap_or(Called::Nothing)
    }
}
