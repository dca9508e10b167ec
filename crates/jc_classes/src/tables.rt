//! Tables of the methods of classes, made from those of their superclasses.

ghost use Rattle.std.specs.Prelude.{◌≡◌, ℕ, suc, ◌-◌, ◌<◌, ◌≤◌, List, Some, None, [], length, set, unwrap_or};
ghost use Rattle.std.specs.Prelude.{IfOk};
ghost use Rattle.std.specs.Option.{option_map};
ghost use Rattle.jc_cap_desc.specs.Shape.{Shape};
ghost use Rattle.jc_classes.specs.PrivatePlaces.{place_at};
ghost use Rattle.jc_classes.specs.PrivateTables.{no_methods, row_at, row_entry, entry_in, depth_above};
ghost use Rattle.jc_classes.specs.PrivateTables.{AreSameRows, AreVisibleOver, IsRowOver, IsTableOver, IsTabled};
ghost use Rattle.jc_classes.specs.PrivateTables.{IsTabledAbove, LeadsUp};
ghost use Rattle.jc_classes.specs.Walk.{most_classes};
ghost use Rattle.jc_classes.specs.World.{class_at};

use crate::copies::all_shared;
use crate::methods::PACKAGE_VISIBLE;
use crate::places::{make_room, place_at};
use crate::shape::{Body, Class, ClassBody, Table};
use crate::shapes::Shapes;
use crate::walk::Visit;
use jc_base::Shared;
use jc_names::{ClassName, MethodName, PackagePlace};
use std::alloc::{AllocError, Global};
use std::marker::Model;

/// The number of tokens of public methods, and of package-visible ones.
const TOKENS: u8 = 128;

/// Methods by their tokens.
#[derive(Drop)]
pub(crate) struct MethodRow {
    methods: Vec<Option<MethodName>>,
}

impl Model for MethodRow {
    ghost use Rattle.std.specs.Prelude.{List, Option};
    ghost use Rattle.jc_names.specs.declared.name.MethodName.{MethodName};

    ghost Value = { List (Option MethodName) };

    ghost view = { λ r. r.methods.items };
}

/// The package-visible methods of a class, for each package that may ask.
#[derive(Drop)]
pub(crate) struct VisibleRows {
    rows: Vec<Shared<MethodRow>>,
}

impl Model for VisibleRows {
    ghost use Rattle.std.specs.Prelude.{List, Option};
    ghost use Rattle.jc_names.specs.declared.name.MethodName.{MethodName};

    ghost Value = { List (List (Option MethodName)) };

    ghost view = { λ r. r.rows.items };
}

/// A superclass of a class, any number of steps up, or the class itself.
#[derive(Clone, Copy)]
pub(crate) struct Jump {
    /// The class.
    pub(crate) to: ClassName,
    /// The length of its superclass chain, itself included.
    pub(crate) depth: u16,
}

/// The results of the look-ups from a class. It shares with its superclass the rows that are equal.
#[derive(Drop)]
pub(crate) struct MethodTable {
    /// The length of its superclass chain, itself included.
    depth: u16,
    /// A superclass far up.
    jump: Jump,
    /// The public methods.
    public: Shared<MethodRow>,
    /// The package-visible methods.
    visible: Shared<VisibleRows>,
    /// Whether the class or a superclass of it may list an interface.
    lists: bool,
}

impl Model for MethodTable {
    ghost use Rattle.jc_classes.specs.PrivateTables.{Tabled};

    ghost Value = { Tabled };

    ghost view = { λ t. record {
      depth = t.depth;
      jump = t.jump;
      public = t.public;
      visible = t.visible;
      lists = t.lists;
    } };
}

/// The tables of a package's classes that were made so far.
#[derive(Drop)]
pub(crate) struct PackageTables {
    tables: Vec<Option<MethodTable>>,
}

impl Model for PackageTables {
    ghost use Rattle.std.specs.Prelude.{List, Option};
    ghost use Rattle.jc_classes.specs.PrivateTables.{Tabled};

    ghost Value = { List (Option Tabled) };

    ghost view = { λ p. p.tables.items };
}

impl MethodRow {
    /// A row without methods.
    fn empty(alloc: Global) -> Result<Shared<MethodRow>, AllocError>
        ensures { IfOk result (λ made. made ≡ []) }
    {
        let row = MethodRow {
            methods: Vec::new(alloc),
        };
        Shared::new(alloc, row)
    }

    /// The method with a token.
    fn at(&self, token: u8) -> Option<MethodName>
        ensures { result ≡ place_at self.now token }
    {
        place_at(&self.methods, usize::from(token))
    }

    /// A bound on its tokens, at most 128: no token of a row from it on has a method.
    fn count(&self) -> u8
        ensures most { result ≤ 128 }
        ensures none { (i : ℕ) → result ≤ i → i < 128 → place_at self.now i ≡ None }
    {
        match u8::try_from(self.methods.len()) {
            Ok(count) => count.min(TOKENS),
            Err(_) => TOKENS,
        }
    }
}

impl MethodTable {
    /// The table of an interface, which has no methods.
    fn of_interface(alloc: Global, interface: ClassName) -> Result<MethodTable, AllocError>
        ensures { IfOk result (λ made. made ≡ no_methods interface) }
    {
        let visible = VisibleRows {
            rows: Vec::new(alloc),
        };
        Ok(MethodTable {
            depth: 1,
            jump: Jump {
                to: interface,
                depth: 1,
            },
            public: MethodRow::empty(alloc)?,
            visible: Shared::new(alloc, visible)?,
            lists: false,
        })
    }

    /// The length of the superclass chain, the class included.
    pub(crate) fn depth(&self) -> u16
        ensures { result ≡ self.now.depth }
    {
        self.depth
    }

    /// A superclass far up.
    pub(crate) fn jump(&self) -> Jump
        ensures { result ≡ self.now.jump }
    {
        self.jump
    }

    /// How many classes up its jump goes.
    pub(crate) fn jump_length(&self) -> u16
        ensures { result ≡ self.now.depth - self.now.jump.depth }
    {
        self.depth.saturating_sub(self.jump.depth)
    }

    /// The virtual method at a token, for the package at place `asker`.
    pub(crate) fn method(&self, token: u8, asker: usize) -> Option<MethodName>
        ensures { result ≡ entry_in self.now token asker }
    {
        if token < PACKAGE_VISIBLE {
            return self.public.get().at(token);
        }
        match self.visible.get().rows.get(asker) {
            Some(row) => row.get().at(token - PACKAGE_VISIBLE),
            None => None,
        }
    }

    /// A bound on the public tokens that have methods.
    pub(crate) fn public_count(&self) -> u8
        ensures most { result ≤ 128 }
        ensures none { (i : ℕ) → result ≤ i → i < 128 → place_at self.now.public i ≡ None }
    {
        self.public.get().count()
    }

    /// The number of places of packages that have a row of package-visible methods.
    pub(crate) fn visible_count(&self) -> usize
        ensures { result ≡ length self.now.visible }
    {
        self.visible.get().rows.len()
    }

    /// A bound on the package-visible tokens that have methods for the package at a place.
    pub(crate) fn visible_tokens(&self, place: usize) -> u8
        ensures most { result ≤ 128 }
        ensures none { (i : ℕ) → result ≤ i → i < 128 → place_at (row_at self.now.visible place) i ≡ None }
    {
        match self.visible.get().rows.get(place) {
            Some(row) => row.get().count(),
            None => 0,
        }
    }

    /// Whether the class or a superclass of it may list an interface.
    pub(crate) fn lists(&self) -> bool
        ensures { result ≡ self.now.lists }
    {
        self.lists
    }
}

impl PackageTables {
    /// An empty table, with room for more than `count` classes.
    pub(crate) fn new(alloc: Global, count: usize) -> Result<PackageTables, AllocError>
        ensures none { IfOk result (λ made. (i : ℕ) → place_at made i ≡ None) }
        ensures room { IfOk result (λ made. count < length made) }
    {
        let mut tables = Vec::new(alloc);
        make_room(&mut tables, count)?;
        Ok(PackageTables { tables })
    }

    /// The table of the class with an index.
    pub(crate) fn at(&self, index: usize) -> Option<&MethodTable>
        ensures { option_map (λ t. t.now) result ≡ place_at self.now index }
    {
        match self.tables.get(index) {
            Some(Some(table)) => Some(table),
            Some(None) | None => None,
        }
    }

    /// Sets the table of the class with an index.
    pub(crate) fn put(&mut self, index: usize, table: MethodTable)
        requires { index < length self.old }
        ensures { self.new ≡ set self.old index (Some table) }
    {
        self.tables[index] = Some(table);
    }
}

/// The table of the superclass, or one without methods if there is no superclass.
fn above_or<'t>(above: Option<&'t MethodTable>, none: &'t MethodTable) -> &'t MethodTable
    ensures { result.now ≡ unwrap_or (option_map (λ t. t.now) above.entry) none.now }
{
    match above {
        Some(table) => table,
        None => none,
    }
}

/// A bound on the tokens at which a record's table, or the row of the superclass, has a method.
#[tactic(auto, using(crate::proofs::Tabling::row_ends))]
fn tokens_over(table: &Table, above: &MethodRow) -> u8
    ensures most { result ≤ 128 }
    ensures none { (world : List Shape) (home i : ℕ) → result ≤ i → i < 128
        → row_entry world home table.now above.now i ≡ None }
{
    let own = table.methods.len().saturating_add(usize::from(table.base));
    match u8::try_from(own) {
        Ok(count) => count.min(TOKENS).max(above.count()),
        Err(_) => TOKENS,
    }
}

/// Appends empty rows until there are at least `count`.
fn widen(alloc: Global, rows: &mut Vec<Shared<MethodRow>>, count: usize) -> Result<(), AllocError>
    ensures wide { IfOk result (λ u. count ≤ length rows.new.items) }
    ensures same { IfOk result (λ u. AreSameRows rows.old.items rows.new.items) }
{
    while rows.len() < count {
        rows.push(MethodRow::empty(alloc)?)?;
    }
    Ok(())
}

impl Shapes {
    /// The method that a class's row has at a token.
    fn row_entry(
        &self,
        home: PackagePlace,
        table: &Table,
        above: &MethodRow,
        token: u8,
    ) -> Option<MethodName>
        ensures { result ≡ row_entry self.now home table.now above.now token }
    {
        match self.table_visit(home, table, token) {
            Visit::Has(method) => Some(method),
            Visit::Nothing => None,
            Visit::Above => above.at(token),
        }
    }

    /// The methods of a class by their tokens.
    fn row_made(
        &self,
        alloc: Global,
        home: PackagePlace,
        table: &Table,
        above: &MethodRow,
    ) -> Result<MethodRow, AllocError>
        ensures { IfOk result (IsRowOver self.now home table.now above.now) }
    {
        let count = tokens_over(table, above);
        let mut methods = Vec::with_capacity(alloc, usize::from(count))?;
        for token in 0..count {
            methods.push(self.row_entry(home, table, above, token))?;
        }
        Ok(MethodRow { methods })
    }

    /// The same, shared with the superclass if the record's table has no methods.
    #[tactic(auto, using(crate::proofs::Tabling::row_shared))]
    fn row_over(
        &self,
        alloc: Global,
        home: PackagePlace,
        table: &Table,
        above: &Shared<MethodRow>,
    ) -> Result<Shared<MethodRow>, AllocError>
        ensures { IfOk result (IsRowOver self.now home table.now above.now) }
    {
        if table.methods.len() == 0 {
            return above.share();
        }
        Shared::new(alloc, self.row_made(alloc, home, table, above.get())?)
    }

    /// Makes the row of a class's own package, with its package-visible methods.
    fn put_own_row(
        &self,
        alloc: Global,
        home: PackagePlace,
        table: &Table,
        rows: &mut [Shared<MethodRow>],
    ) -> Result<(), AllocError>
        requires { home < length rows.old }
        ensures { IfOk result (λ u. AreVisibleOver self.now home table.now rows.old rows.new) }
    {
        let at = home.index();
        rows[at] = self.row_over(alloc, home, table, &rows[at])?;
        Ok(())
    }

    /// The package-visible methods of a class for each package that may find any: the same as in the superclass, except
    /// for the class's own package.
    #[tactic(auto, using(crate::proofs::Tabling::visible_right))]
    fn visible_made(
        &self,
        alloc: Global,
        home: PackagePlace,
        table: &Table,
        above: &VisibleRows,
    ) -> Result<VisibleRows, AllocError>
        ensures { IfOk result (AreVisibleOver self.now home table.now above.now) }
    {
        let mut rows = all_shared(alloc, &above.rows)?;
        widen(alloc, &mut rows, home.index() + 1)?;
        self.put_own_row(alloc, home, table, &mut rows)?;
        Ok(VisibleRows { rows })
    }

    /// The same, shared with the superclass if the record's table has no methods.
    #[tactic(auto, using(crate::proofs::Tabling::visible_shared))]
    fn visible_over(
        &self,
        alloc: Global,
        home: PackagePlace,
        table: &Table,
        above: &Shared<VisibleRows>,
    ) -> Result<Shared<VisibleRows>, AllocError>
        ensures { IfOk result (AreVisibleOver self.now home table.now above.now) }
    {
        if table.methods.len() == 0 {
            return above.share();
        }
        Shared::new(alloc, self.visible_made(alloc, home, table, above.get())?)
    }

    /// The table of a class's record, over that of its superclass.
    fn table_over(
        &self,
        alloc: Global,
        home: PackagePlace,
        body: &ClassBody,
        above: &MethodTable,
        depth: u16,
        jump: Jump,
    ) -> Result<MethodTable, AllocError>
        ensures { IfOk result (IsTableOver self.now home body.now.public_methods body.now.package_methods
            body.now.interfaces.items above.now depth jump) }
    {
        Ok(MethodTable {
            depth,
            jump,
            public: self.row_over(alloc, home, &body.public_methods, &above.public)?,
            visible: self.visible_over(alloc, home, &body.package_methods, &above.visible)?,
            lists: body.interfaces.len() != 0 || above.lists,
        })
    }

    /// The table of a class or an interface, from that of its superclass.
    pub(crate) fn table_from(
        &self,
        alloc: Global,
        class: ClassName,
        found: &Class,
        above: Option<&MethodTable>,
        depth: u16,
        jump: Jump,
    ) -> Result<MethodTable, AllocError>
        requires there { class_at self.now class ≡ Some found.now }
        requires above { IsTabledAbove self.now class (option_map (λ t. t.now) above) }
        requires depth { depth ≡ suc (depth_above (option_map (λ t. t.now) above)) }
        requires few { depth ≤ most_classes }
        requires jump { LeadsUp self.now class depth jump }
        ensures { IfOk result (λ made. IsTabled self.now class made) }
    {
        let none = MethodTable::of_interface(alloc, class)?;
        match &found.body {
            Body::Interface(_) => Ok(none),
            Body::Class(body) => {
                let above = above_or(above, &none);
                self.table_over(alloc, class.home(), body, above, depth, jump)
            }
        }
    }
}
