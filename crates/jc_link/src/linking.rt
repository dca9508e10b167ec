//! The linker.

ghost use Rattle.std.specs.Prelude.{◌≡◌, ◌<◌, ◌≤◌, map, length, Some, None, Ok, IfOk, IfErr};
ghost use Rattle.jc_cap_desc.specs.Package.{package_of};
ghost use Rattle.jc_cap_desc.specs.Shape.{StandApart, HaveBodies, HaveHeaders, InstallMethods};
ghost use Rattle.jc_classes.specs.Growth.{grown};
ghost use Rattle.jc_classes.specs.Limits.{most_packages};
ghost use Rattle.jc_link.specs.Built.{IsBuilt};
ghost use Rattle.jc_link.specs.Growth.{HasApi};
ghost use Rattle.jc_link.specs.Kept.{kept_of};
ghost use Rattle.jc_link.specs.Target.{target_of};
ghost use Rattle.jc_link.specs.Sound.{LeadSomewhere};
ghost use Rattle.jc_link.specs.Linked.{IsBoundTo, IsLinked, IsLinkedFrom, IsLinkRefusal};
ghost use Rattle.jc_link.specs.PrivateFaults.{class_fault, fault_behind_names, IsTold};
ghost use Rattle.jc_link.specs.PrivateNames.{AreNamed, NamesLead};
ghost use Rattle.jc_link.specs.WellFormed.{IsWellFormed, linking_fault};

use crate::body::body_of;
use crate::growth::built_worlds_are_sound;
use crate::imports::{first_unmet, is_there_already};
use crate::named::Named;
use crate::pool::names_in;
use crate::stated::first_mistyped;
use crate::statics::first_bad_static;
use crate::target::targets_of;
use crate::well_formed::first_bad_class;
use crate::world::{Linked, LinkedBody, World};
use jc_base::{LoadFault, Parts};
use jc_cap_desc::{Package, read_package};
use jc_classes::{ClassTable, PackageShape};
use jc_names::PackagePlace;
use std::alloc::{AllocError, Global};

/// The first fault of the classes or static fields of the package at place `home`, or that it is a duplicate.
fn class_fault(
    table: &ClassTable,
    home: PackagePlace,
    shape: &PackageShape,
    linked: &Package,
) -> Option<LoadFault>
    ensures { result ≡ class_fault table.now home shape.now linked.now.body }
{
    if let Some(offset) = first_bad_class(table, home, shape) {
        return Some(LoadFault::BadClass(offset));
    }
    if let Some(offset) = first_bad_static(linked.statics(), shape) {
        return Some(LoadFault::BadStatic(offset));
    }
    if is_there_already(table, home, shape) {
        return Some(LoadFault::DuplicatePackage);
    }
    None
}

/// The first fault of the package at place `home`, whose entries name these, apart from imports and names.
fn fault_behind_names(
    table: &ClassTable,
    home: PackagePlace,
    shape: &PackageShape,
    linked: &Package,
    names: &[Named],
) -> Option<LoadFault>
    requires named { AreNamed table.now home linked.now.body.pool names.now }
    ensures { result ≡ fault_behind_names table.now home shape.now linked.now.body }
{
    if let Some(index) = first_mistyped(table, home, linked, names) {
        return Some(LoadFault::TypeMismatch(index));
    }
    class_fault(table, home, shape, linked)
}

/// The names of the entries of the package at place `home`, if it is well-formed. Otherwise its fault, or out of
/// memory.
#[tactic(auto, using(crate::proofs::Names::told_first, crate::proofs::Names::told_behind))]
fn names_if_fine(
    alloc: Global,
    table: &ClassTable,
    home: PackagePlace,
    shape: &PackageShape,
    linked: &Package,
) -> Result<Vec<Named>, LoadFault>
    requires same { shape.now ≡ linked.now.shape }
    ensures named { IfOk result (λ names. AreNamed table.now home linked.now.body.pool names.items) }
    ensures fine { IfOk result (λ names. linking_fault table.now home linked.now ≡ None) }
    ensures refused { IfErr result (IsTold (linking_fault table.now home linked.now)) }
{
    let imports = linked.imports().len();
    if let Some(token) = first_unmet(table, home, shape) {
        return Err(LoadFault::MissingImport(token));
    }
    let names = names_in(alloc, table, home, linked)?;
    match fault_behind_names(table, home, shape, linked, &names) {
        Some(fault) => Err(fault),
        None => Ok(names),
    }
}

/// The classes of a world with those of a package appended.
fn with_package(
    alloc: Global,
    world: &ClassTable,
    linked: &Package,
) -> Result<ClassTable, AllocError>
    requires { length world.now < most_packages }
    ensures { IfOk result (λ table. table ≡ grown world.now linked.now.shape) }
{
    let mut table = world.copy(alloc)?;
    table.add(linked)?;
    Ok(table)
}

/// The rest of a linked package besides its shape, if its entries name these.
fn linked_body(
    alloc: Global,
    table: &ClassTable,
    linked: &Package,
    names: &[Named],
) -> Result<LinkedBody, AllocError>
    requires lead { NamesLead table.now names.now }
    ensures kept { IfOk result (λ body. body.kept ≡ kept_of linked.now.body) }
    ensures targets { IfOk result (λ body. map Some body.targets ≡ map (target_of table.now) names.now) }
{
    let kept = body_of(alloc, linked)?;
    let targets = targets_of(alloc, table, names)?;
    Ok(LinkedBody { kept, targets })
}

/// If a well-formed package is appended to a world, the result is a built world, and each entry of the package's pool
/// has a target there.
#[tactic(auto, using(crate::proofs::Leading::built_behind, crate::proofs::Leading::pool_leads))]
fn leads(world: &World, table: &ClassTable, linked: &Package)
    requires table { table.now ≡ grown world.now.shapes linked.now.shape }
    requires fine { IsWellFormed world.now.shapes linked.now }
    ensures built { IsBuilt table.now }
    ensures lead { LeadSomewhere table.now (length world.now.shapes) linked.now.body.pool }
    ensures api { HasApi world.now.shapes }
{
    let _before = world.table();
    let _count = table.len();
    built_worlds_are_sound();
}

/// The package, linked to the packages of a world: it is well-formed there, and its entries name these.
fn bound(
    alloc: Global,
    world: &World,
    table: ClassTable,
    linked: &Package,
    names: &[Named],
) -> Result<Linked, AllocError>
    requires table { table ≡ grown world.now.shapes linked.now.shape }
    requires named { AreNamed table (length world.now.shapes) linked.now.body.pool names.now }
    requires fine { IsWellFormed world.now.shapes linked.now }
    requires apart { StandApart linked.now.body.methods }
    requires headers { HaveHeaders linked.now.shape }
    requires bodies { HaveBodies linked.now }
    requires installs { InstallMethods linked.now }
    ensures { IfOk result (λ l. IsLinked world.now.shapes linked.now l) }
{
    leads(world, &table, linked);
    let body = linked_body(alloc, &table, linked, names)?;
    Ok(Linked { table, body })
}

/// Links a package that was read to the packages of a world. If it isn't well-formed there, the refusal with the least
/// number is reported, at its first place. Out of memory may be reported instead of any result.
pub fn link_package(alloc: Global, read: &Package, world: &World) -> Result<Linked, LoadFault>
    requires apart { StandApart read.now.body.methods }
    requires headers { HaveHeaders read.now.shape }
    requires bodies { HaveBodies read.now }
    requires installs { InstallMethods read.now }
    ensures bound { IfOk result (IsBoundTo world.now) }
    ensures linked { IfOk result (IsLinked world.now.shapes read.now) }
    ensures refused { IfErr result (IsLinkRefusal world.now.shapes (Ok read.now)) }
{
    let Ok(table) = with_package(alloc, world.table(), read) else {
        return Err(LoadFault::Memory);
    };
    let home = PackagePlace::new(world.table().len());
    let Some(shape) = table.shape(home) else {
        return Err(LoadFault::Memory);
    };
    match names_if_fine(alloc, &table, home, shape, read) {
        Ok(names) => bound(alloc, world, table, read, &names).map_err(|_| LoadFault::Memory),
        Err(fault) => Err(fault),
    }
}

/// Reads the package from the parts of an image, and links it to the packages of a world (Java Card Virtual Machine
/// Specification, Linking). Reading takes no memory, so parts that are no package get their refusal. For a package, out
/// of memory may be reported instead of any result.
pub fn link(alloc: Global, parts: &Parts, world: &World) -> Result<Linked, LoadFault>
    ensures bound { IfOk result (IsBoundTo world.now) }
    ensures linked { IfOk result (IsLinkedFrom world.now.shapes parts.now) }
    ensures refused { IfErr result (IsLinkRefusal world.now.shapes (package_of parts.now)) }
{
    link_package(alloc, &read_package(parts)?, world)
}
