//! The world of the packages on a card.

ghost use Rattle.std.specs.Prelude.{◌≡◌, ◌-◌, ◌<◌, ◌≤◌, [], length, nat_le, take, IfOk, IfErr};
ghost use Rattle.jc_classes.specs.Limits.{most_packages};
ghost use Rattle.jc_classes.specs.Api.{api_world};
ghost use Rattle.jc_link.specs.Built.{IsBuilt};
ghost use Rattle.jc_link.specs.Linked.{IsBoundTo, IsKnown, IsWorld, WasAdded, most_in_world, with_linked};

use crate::body::PackageBody;
use crate::growth::adding_keeps_linking;
use crate::target::PoolTarget;
use jc_api::Binding;
use jc_classes::ClassTable;
use std::alloc::{AllocError, Global};
use std::marker::Model;

/// The most packages of a world: the API's two and 64 loaded ones.
const MOST_IN_WORLD: usize = 66;

/// The number of the API's packages.
const API_PACKAGES: usize = 2;

/// The rest of a linked package besides its shape.
#[derive(Drop)]
pub struct LinkedBody {
    pub(crate) kept: PackageBody,
    pub(crate) targets: Vec<PoolTarget>,
}

impl Model for LinkedBody {
    ghost use Rattle.jc_link.specs.Linked.{LinkedBody as Body};

    ghost Value = { Body };

    ghost view = { λ b. record { kept = b.kept; targets = b.targets.items } };
}

impl LinkedBody {
    /// The part of the package's body that is kept.
    pub fn kept(&self) -> &PackageBody
        ensures { result.now ≡ self.now.kept }
    {
        &self.kept
    }

    /// The targets of the entries of its constant pool.
    pub fn targets(&self) -> &[PoolTarget]
        ensures { result.now ≡ self.now.targets }
    {
        &self.targets
    }
}

/// A package that is well-formed in the world to which it was linked. It has that world's classes, which both share,
/// with its own appended.
#[derive(Drop)]
pub struct Linked {
    pub(crate) table: ClassTable,
    pub(crate) body: LinkedBody,
}

impl Model for Linked {
    ghost use Rattle.jc_link.specs.Linked.{IsLast, Linked as LinkedPackage};

    ghost Value = { LinkedPackage };

    ghost view = { λ l. record { world = l.table; body = l.body } };

    ghost invariant = { λ l. IsLast (record { world = l.table; body = l.body }) };
}

impl Linked {
    /// The classes of the world, with the package's own last.
    pub fn table(&self) -> &ClassTable
        ensures table { result.now ≡ self.now.world }
        ensures built { IsBuilt self.now.world }
        ensures known { IsKnown self.now.world (length self.now.world - 1) self.now.body }
    {
        &self.table
    }

    /// The rest of the package besides its shape.
    pub fn body(&self) -> &LinkedBody
        ensures body { result.now ≡ self.now.body }
        ensures known { IsKnown self.now.world (length self.now.world - 1) self.now.body }
    {
        &self.body
    }
}

/// The packages on a card: those of the API, and the loaded ones in the order in which they were loaded.
#[derive(Drop)]
pub struct World {
    table: ClassTable,
    bodies: Vec<LinkedBody>,
}

impl Model for World {
    ghost use Rattle.std.specs.Prelude.{◌<◌, ◌≤◌, length};
    ghost use Rattle.jc_classes.specs.Limits.{most_packages};
    ghost use Rattle.jc_link.specs.Linked.{IsWorld, World as LinkedWorld};

    ghost Value = { LinkedWorld };

    ghost view = { λ w. record { shapes = w.table; bodies = w.bodies.items } };

    ghost invariant = { λ w. (2 ≤ length w.table) × (length w.table < most_packages)
        × IsWorld (record { shapes = w.table; bodies = w.bodies.items }) };
}

impl World {
    /// The packages of the API alone.
    pub fn new(alloc: Global, binding: &Binding) -> Result<World, AllocError>
        ensures { IfOk result (λ w. w ≡ record { shapes = api_world binding.now; bodies = [] }) }
    {
        let table = ClassTable::new(alloc, binding)?;
        binding.has_no_clash();
        Ok(World {
            table,
            bodies: Vec::new(alloc),
        })
    }

    /// The classes of the packages.
    pub fn table(&self) -> &ClassTable
        ensures table { result.now ≡ self.now.shapes }
        ensures built { IsBuilt self.now.shapes }
        ensures least { 2 ≤ length self.now.shapes }
        ensures room { length self.now.shapes < most_packages }
    {
        &self.table
    }

    /// The rest of the loaded packages besides their shapes.
    pub fn bodies(&self) -> &[LinkedBody]
        ensures bodies { result.now ≡ self.now.bodies }
        ensures world { IsWorld self.now }
    {
        &self.bodies
    }

    /// How many packages there are, the two of the API included: at most 66.
    pub fn len(&self) -> usize
        ensures count { result ≡ length self.now.shapes }
        ensures most { result ≤ most_in_world }
    {
        self.table.len()
    }

    /// Whether there is no room for another package: 64 are loaded.
    pub fn is_full(&self) -> bool
        ensures { result ≡ nat_le most_in_world (length self.now.shapes) }
    {
        self.len() >= MOST_IN_WORLD
    }

    /// Appends a package that was linked to this world as it is now; the world isn't full. It returns the classes from
    /// before, with which the package can be removed again. If memory runs out, the world is unchanged.
    pub fn add_for_now(&mut self, linked: Linked) -> Result<ClassTable, AllocError>
        requires bound { IsBoundTo self.now linked }
        requires room { length self.now.shapes < most_in_world }
        ensures done { IfOk result (λ before. self.new ≡ with_linked self.old linked) }
        ensures before { IfOk result (λ before. before ≡ self.old.shapes) }
        ensures kept { IfErr result (λ e. self.new ≡ self.old) }
    {
        adding_keeps_linking();
        self.bodies.push(linked.body)?;
        Ok(std::mem::replace(&mut self.table, linked.table))
    }

    /// The same, permanently.
    pub fn add(&mut self, linked: Linked) -> Result<(), AllocError>
        requires bound { IsBoundTo self.now linked }
        requires room { length self.now.shapes < most_in_world }
        ensures done { IfOk result (λ u. self.new ≡ with_linked self.old linked) }
        ensures kept { IfErr result (λ e. self.new ≡ self.old) }
    {
        let _before = self.add_for_now(linked)?;
        Ok(())
    }

    /// Removes the package that was added last; these were the classes before it.
    pub fn take_back(&mut self, before: ClassTable)
        requires added { WasAdded self.old before }
        ensures shapes { self.new.shapes ≡ before }
        ensures bodies { self.new.bodies ≡ take (length before - 2) self.old.bodies }
    {
        self.bodies.truncate(before.len() - API_PACKAGES);
        self.table = before;
    }
}
