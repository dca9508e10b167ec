//! Look-ups of methods.

ghost use Rattle.std.specs.Prelude.{◌≡◌, ◌≤◌};
ghost use Rattle.jc_classes.specs.Methods.{has_method, method_name, method_there, entry_visit, table_visit};
ghost use Rattle.jc_classes.specs.Methods.{record_visit, virtual_visit, virtual_method_of};
ghost use Rattle.jc_classes.specs.PrivateShape.{record_of};
ghost use Rattle.jc_classes.specs.PrivateWalk.{step_of};

use crate::shape::{Body, PackageShape, Table};
use crate::shapes::Shapes;
use crate::table::ClassTable;
use crate::walk::{MOST_CLASSES, Visit, WalkStep, anchor_behind};
use jc_names::{ClassName, MethodName, PackagePlace};

/// Tokens from this one on are package-visible.
pub(crate) const PACKAGE_VISIBLE: u8 = 128;
/// The entry of a table for a method that another package's class declares.
const DECLARED_ABOVE: u16 = 0xFFFF;

/// The name of the method at an offset of the package at a place.
pub fn method_name(home: PackagePlace, offset: u16) -> MethodName
    ensures { result ≡ method_name home offset }
{
    match home.number() {
        None => MethodName::Api { member: offset },
        Some(package) => MethodName::Loaded { package, offset },
    }
}

impl PackageShape {
    /// Whether a method stands at an offset.
    #[tactic(auto, using(crate::proofs::Placing::has_first))]
    fn has_method(&self, offset: u16) -> bool
        ensures { result ≡ has_method offset self.now }
    {
        self.first_method(offset).is_some()
    }
}

impl Shapes {
    /// The method at an offset of the package at a place, if there is one.
    fn method_there(&self, home: PackagePlace, offset: u16) -> Visit<MethodName>
        ensures { result ≡ method_there self.now home offset }
    {
        match self.shape(home) {
            Some(shape) if shape.has_method(offset) => Visit::Has(method_name(home, offset)),
            _ => Visit::Nothing,
        }
    }

    /// What an entry of a table answers.
    fn entry_visit(&self, home: PackagePlace, entry: Option<u16>) -> Visit<MethodName>
        ensures { result ≡ entry_visit self.now home entry }
    {
        match entry {
            None => Visit::Nothing,
            Some(offset) if offset == DECLARED_ABOVE => Visit::Above,
            Some(offset) => self.method_there(home, offset),
        }
    }

    /// What a table answers at a token.
    pub(crate) fn table_visit(
        &self,
        home: PackagePlace,
        table: &Table,
        token: u8,
    ) -> Visit<MethodName>
        ensures { result ≡ table_visit self.now home table.now token }
    {
        if token < table.base || table.methods.len() == 0 {
            return Visit::Above;
        }
        let entry = table.methods.get(usize::from(token - table.base)).copied();
        self.entry_visit(home, entry)
    }

    /// What a record answers at a virtual token, for the package at place `asker`.
    pub(crate) fn record_visit(
        &self,
        asker: usize,
        token: u8,
        home: PackagePlace,
        body: &Body,
    ) -> Visit<MethodName>
        ensures { result ≡ record_visit self.now asker token home (record_of body.now) }
    {
        match body {
            Body::Interface(_) => Visit::Nothing,
            Body::Class(class) => {
                if token < PACKAGE_VISIBLE {
                    self.table_visit(home, &class.public_methods, token)
                } else if home.index() == asker {
                    self.table_visit(home, &class.package_methods, token - PACKAGE_VISIBLE)
                } else {
                    Visit::Above
                }
            }
        }
    }
}

impl ClassTable {
    /// One step of the look-up of a virtual method.
    fn method_step(&self, at: ClassName, token: u8, asker: usize) -> WalkStep<MethodName>
        ensures { result ≡ step_of (virtual_visit self.now asker token) self.now at }
    {
        let Some(found) = self.class_at(at) else {
            return WalkStep::Ends;
        };
        match self
            .shapes
            .record_visit(asker, token, at.home(), &found.body)
        {
            Visit::Has(method) => WalkStep::Gives(method),
            Visit::Nothing => WalkStep::Ends,
            Visit::Above => match self.superclass_of(at) {
                Some(above) => WalkStep::On(above),
                None => WalkStep::Ends,
            },
        }
    }

    /// The virtual method of a class at a token, for the package at place `asker`. It is read from the class's table.
    /// If there is no table, no class has this name or its superclass chain has a cycle; then a walk finds the method.
    pub fn virtual_method_for(
        &self,
        class: ClassName,
        token: u8,
        asker: usize,
    ) -> Option<MethodName>
        ensures { result ≡ virtual_method_of self.now class token asker }
    {
        match self.table_of(class) {
            Some(table) => table.method(token, asker),
            None => self.walked_method(class, token, asker),
        }
    }

    /// The same by a walk along the superclasses. If the walk meets its anchor again, the chain has a cycle, and there
    /// is none.
    fn walked_method(&self, class: ClassName, token: u8, asker: usize) -> Option<MethodName>
        ensures { result ≡ virtual_method_of self.now class token asker }
    {
        let mut at = class;
        let mut anchor = class;
        for steps in 0..MOST_CLASSES {
            match self.method_step(at, token, asker) {
                WalkStep::Gives(method) => return Some(method),
                WalkStep::Ends => return None,
                WalkStep::On(above) => at = above,
            }
            if at.is(anchor) {
                return None;
            }
            anchor = anchor_behind(steps + 1, at, anchor);
        }
        None
    }
}
