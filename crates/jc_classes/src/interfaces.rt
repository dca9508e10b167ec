//! Look-ups of the methods of interfaces.

ghost use Rattle.std.specs.Prelude.{◌≡◌, ◌+◌};
ghost use Rattle.std.specs.Option.{option_map};
ghost use Rattle.jc_classes.specs.Methods.{is_this, row_for, listing_visit, interface_visit, virtual_method_of};
ghost use Rattle.jc_classes.specs.Methods.{interface_method_of};
ghost use Rattle.jc_classes.specs.PrivateShape.{record_of};
ghost use Rattle.jc_classes.specs.PrivateWalk.{step_map, visit_map, step_of};
ghost use Rattle.jc_classes.specs.Walk.{found};
ghost use Rattle.jc_classes.specs.World.{class_named};

use crate::methods::PACKAGE_VISIBLE;
use crate::shape::{Body, ImplementedInterface};
use crate::table::ClassTable;
use crate::walk::{MOST_CLASSES, Visit, WalkStep, anchor_behind};
use jc_base::ClassRef;
use jc_names::{ClassName, MethodName, PackagePlace};

impl ClassTable {
    /// Whether a reference, as the package at place `home` spells it, names a class.
    fn names(&self, class: ClassName, home: PackagePlace, reference: ClassRef) -> bool
        ensures { result ≡ is_this class (class_named self.now home reference) }
    {
        match self.class_named(home, reference) {
            Some(found) => found.is(class),
            None => false,
        }
    }

    /// The first of a class's rows for an interface.
    fn row_for<'a>(
        &self,
        interface: ClassName,
        home: PackagePlace,
        rows: &'a [ImplementedInterface],
    ) -> Option<&'a ImplementedInterface>
        ensures { option_map (λ row. row.now) result ≡ row_for self.now interface home rows.now }
    {
        rows.iter()
            .find(|row| self.names(interface, home, row.interface))
    }

    /// What a record answers to the look-up of an interface.
    fn listing_visit<'a>(
        &self,
        interface: ClassName,
        home: PackagePlace,
        body: &'a Body,
    ) -> Visit<&'a ImplementedInterface>
        ensures { visit_map (λ row. row.now.indexes) result
            ≡ listing_visit self.now interface home (record_of body.now) }
    {
        match body {
            Body::Interface(_) => Visit::Nothing,
            Body::Class(class) => match self.row_for(interface, home, &class.interfaces) {
                Some(row) => Visit::Has(row),
                None => Visit::Above,
            },
        }
    }

    /// One step of the look-up of an interface.
    fn listing_step(&self, at: ClassName, interface: ClassName) -> WalkStep<&ImplementedInterface>
        ensures { step_map (λ row. row.now.indexes) result ≡ step_of (interface_visit self.now interface) self.now at }
    {
        let Some(found) = self.class_at(at) else {
            return WalkStep::Ends;
        };
        match self.listing_visit(interface, at.home(), &found.body) {
            Visit::Has(row) => WalkStep::Gives(row),
            Visit::Nothing => WalkStep::Ends,
            Visit::Above => match self.superclass_of(at) {
                Some(above) => WalkStep::On(above),
                None => WalkStep::Ends,
            },
        }
    }

    /// The row for an interface of the nearest class that lists it, by a walk along the superclasses. If the walk meets
    /// its anchor again, the chain has a cycle, and there is none.
    fn walked_row(&self, class: ClassName, interface: ClassName) -> Option<&ImplementedInterface>
        ensures { option_map (λ row. row.now.indexes) result
            ≡ found (interface_visit self.now interface) self.now class }
    {
        let mut at = class;
        let mut anchor = class;
        for steps in 0..MOST_CLASSES {
            match self.listing_step(at, interface) {
                WalkStep::Gives(row) => return Some(row),
                WalkStep::Ends => return None,
                WalkStep::On(above) => at = above,
            }
            if at.is(anchor) {
                return None;
            }
            anchor = anchor_behind(steps + 1, at, anchor);
        }
        None
    }

    /// The virtual method of a class at a token (Java Card Virtual Machine Specification, Linking). A token from 128 on
    /// is package-visible: it is looked up for the loaded package with the number `asker`, from 1 on, and classes of
    /// other packages are skipped. It returns `None` if there is no method, or if the superclass chain has a cycle.
    pub fn virtual_method(&self, class: ClassName, token: u8, asker: u8) -> Option<MethodName>
        ensures { result ≡ virtual_method_of self.now class token (asker + 1) }
    {
        self.virtual_method_for(class, token, PackagePlace::of_loaded(asker).index())
    }

    /// The method of an object's class for the token of an interface's method (Java Card Virtual Machine Specification,
    /// Linking and `invokeinterface`). The nearest class of its chain that lists the interface gives the virtual token,
    /// which is looked up from the object's class. It returns `None` if no class lists the interface, or if the token
    /// leads to no method.
    pub fn interface_method(
        &self,
        class: ClassName,
        interface: ClassName,
        token: u8,
    ) -> Option<MethodName>
        ensures { result ≡ interface_method_of self.now class interface token }
    {
        let row = self.walked_row(class, interface)?;
        let index = row.indexes.get(usize::from(token)).copied()?;
        if index >= PACKAGE_VISIBLE {
            return None;
        }
        self.virtual_method_for(class, index, 0)
    }
}
