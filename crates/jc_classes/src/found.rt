//! The results of a class's look-ups at all public tokens, or at all package-visible ones, from one walk.

ghost use Rattle.std.specs.Prelude.{◌≡◌, ◌⊎◌, ◌+◌, ◌<◌, ◌≤◌, ℕ, List, None, Some, false, true, slice_index_or};
ghost use Rattle.jc_cap_desc.specs.Shape.{ClassShape, Shape};
ghost use Rattle.jc_classes.specs.Methods.{AreMethodsOf, found_at, record_visit, virtual_visit};
ghost use Rattle.jc_classes.specs.PrivateShape.{record_of};
ghost use Rattle.jc_classes.specs.PrivateTables.{entry_in};
ghost use Rattle.jc_classes.specs.PrivateWalked.{asks_above, IsFull, IsSameAt, IsVisited};
ghost use Rattle.jc_classes.specs.World.{class_at, superclass_of};
ghost use Rattle.jc_classes.specs.declared.walk.Visit.TheVariants.{Above};

use crate::methods::PACKAGE_VISIBLE;
use crate::shape::Body;
use crate::shapes::Shapes;
use crate::table::ClassTable;
use crate::tables::MethodTable;
use crate::walk::{MOST_CLASSES, Visit, anchor_behind};
use jc_names::{ClassName, MethodName, PackagePlace};
use std::marker::Model;

/// The number of public tokens, and of package-visible ones.
const TOKENS: u8 = 128;
/// The first public token.
const PUBLIC: u8 = 0;

/// Methods by their public tokens, or by their package-visible ones, counted from the first of these, as one package
/// finds them.
#[derive(Drop)]
pub struct FoundMethods {
    methods: [Option<MethodName>; 128],
}

impl Model for FoundMethods {
    ghost use Rattle.std.specs.Prelude.{List, Option};
    ghost use Rattle.jc_names.specs.declared.name.MethodName.{MethodName};

    ghost Value = { List (Option MethodName) };

    ghost view = { λ v. v.methods };
}

impl FoundMethods {
    /// The method at an index.
    pub fn at(&self, place: u8) -> Option<MethodName>
        ensures { result ≡ found_at self.now place }
    {
        *self.methods.get(usize::from(place))?
    }
}

/// What a walk has found so far, and the tokens that it still looks up in superclasses.
#[derive(Drop)]
pub(crate) struct Walked {
    methods: [Option<MethodName>; 128],
    asks: [bool; 128],
    most: u8,
}

impl Walked {
    /// A walk at its start.
    fn new() -> Walked
        ensures full { IsFull result }
        ensures asks { (token : ℕ) → token < 128 → asks_above result token ≡ true }
        ensures none { (token : ℕ) → token < 128 → found_at result.methods token ≡ None }
    {
        Walked {
            methods: [None; 128],
            asks: [true; 128],
            most: TOKENS,
        }
    }

    /// Records what a class answers at an index, if that is still open.
    fn put(&mut self, place: u8, visit: Visit<MethodName>)
        requires place { place < 128 }
        requires full { IsFull self.old }
        ensures full { IsFull self.new }
        ensures most { self.new.most ≡ self.old.most }
        ensures here { IsVisited visit self.old self.new place }
        ensures others { (other : ℕ) → (other < place) ⊎ (place < other) → IsSameAt self.old self.new other }
    {
        let place = usize::from(place);
        match visit {
            Visit::Above => {}
            Visit::Nothing => self.asks[place] = false,
            Visit::Has(method) => {
                if self.asks[place] {
                    self.methods[place] = Some(method);
                }
                self.asks[place] = false;
            }
        }
    }
}

/// A bound on the open indices: below `count`, no index from it on is open.
fn still_asked(asks: &[bool; 128], count: u8) -> u8
    requires { count ≤ 128 }
    ensures most { result ≤ count }
    ensures none { (i : ℕ) → result ≤ i → i < count → slice_index_or asks.now i false ≡ false }
{
    for less in 0..count {
        let most = count - less;
        if asks[usize::from(most - 1)] {
            return most;
        }
    }
    0
}

/// Whether a record passes the 128 tokens from `first` on to the superclass, for the package at place `asker`.
fn passes_all(first: u8, asker: usize, home: PackagePlace, body: &Body) -> bool
    requires { (first ≡ 0) ⊎ (first ≡ 128) }
    ensures { result ≡ true → (world : List Shape) (i : ℕ) → i < 128
        → record_visit world asker (first + i) home (record_of body.now) ≡ Above }
{
    match body {
        Body::Interface(_) => false,
        Body::Class(class) => {
            if first == PUBLIC {
                class.public_methods.methods.len() == 0
            } else {
                home.index() != asker || class.package_methods.methods.len() == 0
            }
        }
    }
}

/// The methods of a class's table at the 128 tokens from `first` on, as the package at place `asker` finds them.
fn tabled_methods(table: &MethodTable, first: u8, asker: usize) -> FoundMethods
    requires { first ≤ 128 }
    ensures { (i : ℕ) → i < 128 → found_at result i ≡ entry_in table.now (first + i) asker }
{
    let mut methods = [None; 128];
    for place in 0..TOKENS {
        methods[usize::from(place)] = table.method(first + place, asker);
    }
    FoundMethods { methods }
}

impl Shapes {
    /// Looks up the 128 tokens from `first` on in a record, for the package at place `asker`.
    fn ask_record(
        &self,
        first: u8,
        asker: usize,
        home: PackagePlace,
        body: &Body,
        walked: &mut Walked,
    )
        requires first { (first ≡ 0) ⊎ (first ≡ 128) }
        requires full { IsFull walked.old }
        ensures full { IsFull walked.new }
        ensures each { (i : ℕ) → i < 128
            → IsVisited (record_visit self.now asker (first + i) home (record_of body.now)) walked.old walked.new i }
    {
        if passes_all(first, asker, home, body) {
            return;
        }
        let count = walked.most;
        for place in 0..count {
            let visit = self.record_visit(asker, first + place, home, body);
            walked.put(place, visit);
        }
        walked.most = still_asked(&walked.asks, count);
    }
}

impl ClassTable {
    /// Looks up the 128 tokens from `first` on in a class, and returns its superclass.
    fn ask_class(
        &self,
        at: ClassName,
        first: u8,
        asker: usize,
        walked: &mut Walked,
    ) -> Option<ClassName>
        requires first { (first ≡ 0) ⊎ (first ≡ 128) }
        requires full { IsFull walked.old }
        ensures full { IsFull walked.new }
        ensures above { result ≡ superclass_of self.now at }
        ensures each { (i : ℕ) → i < 128 → (k : ClassShape) → class_at self.now at ≡ Some k
            → IsVisited (virtual_visit self.now asker (first + i) at k) walked.old walked.new i }
        ensures none { class_at self.now at ≡ None → walked.new ≡ walked.old }
    {
        let found = self.class_at(at)?;
        self.shapes
            .ask_record(first, asker, at.home(), &found.body, walked);
        self.superclass_of(at)
    }

    /// The methods that a class has at the 128 tokens from `first` on, by a walk along the superclasses. If the walk
    /// meets its anchor again, the chain has a cycle, and it finds nothing more.
    fn walked_methods(&self, class: ClassName, first: u8, asker: usize) -> FoundMethods
        requires { (first ≡ 0) ⊎ (first ≡ 128) }
        ensures { AreMethodsOf self.now class first asker result }
    {
        let mut walked = Walked::new();
        let mut at = class;
        let mut anchor = class;
        for steps in 0..MOST_CLASSES {
            match self.ask_class(at, first, asker, &mut walked) {
                Some(above) => at = above,
                None => return FoundMethods {
                    methods: walked.methods,
                },
            }
            if at.is(anchor) {
                return FoundMethods {
                    methods: walked.methods,
                };
            }
            anchor = anchor_behind(steps + 1, at, anchor);
        }
        FoundMethods {
            methods: walked.methods,
        }
    }

    /// The methods that a class has at the 128 tokens from `first` on, for the package at place `asker`.
    fn methods_from(&self, class: ClassName, first: u8, asker: usize) -> FoundMethods
        requires { (first ≡ 0) ⊎ (first ≡ 128) }
        ensures { AreMethodsOf self.now class first asker result }
    {
        match self.table_of(class) {
            Some(table) => tabled_methods(table, first, asker),
            None => self.walked_methods(class, first, asker),
        }
    }

    /// The method that a class has at each public token, whichever package asks.
    pub fn public_methods(&self, class: ClassName) -> FoundMethods
        ensures { (asker : ℕ) → AreMethodsOf self.now class 0 asker result }
    {
        self.methods_from(class, PUBLIC, 0)
    }

    /// The method that a class has at each package-visible token, for the package at place `asker`.
    pub fn visible_methods(&self, class: ClassName, asker: usize) -> FoundMethods
        ensures { AreMethodsOf self.now class 128 asker result }
    {
        self.methods_from(class, PACKAGE_VISIBLE, asker)
    }
}
