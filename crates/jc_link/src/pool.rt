//! The resolution of entries of the constant pool to names.

ghost use Rattle.std.specs.Prelude.{◌≡◌, ◌≤◌, None, length, IfSome, IfOk, IfErr, slice_get};
ghost use Rattle.std.specs.Option.{option_and_then, option_map};
ghost use Rattle.jc_base.specs.declared.fault.LoadFault.TheVariants.{Unresolved};
ghost use Rattle.jc_link.specs.Named.{static_place, is_abstract_method, is_concrete, named_field, named_virtual};
ghost use Rattle.jc_link.specs.Named.{method_above, named_above, named_static_field, named_static_method, named_by};
ghost use Rattle.jc_link.specs.Pool.{first_unresolved};
ghost use Rattle.jc_link.specs.PrivateFaults.{IsTold};
ghost use Rattle.jc_link.specs.PrivateNames.{AreNamed};

use crate::classes::is_class_at;
use crate::fields::{instance_field_at, static_field_at};
use crate::named::{Named, StaticPlace};
use jc_base::LoadFault;
use jc_cap::{MemberRef, PoolEntry, StaticRef};
use jc_cap_desc::Package;
use jc_classes::{ClassTable, DescribedMethod, Export, method_name};
use jc_names::{ClassName, MethodName, PackagePlace};
use std::alloc::Global;

/// The export row of a package for a class token.
fn export_at(table: &ClassTable, there: PackagePlace, class: u8) -> Option<&Export>
    ensures { option_map (λ e. e.now) result
        ≡ option_and_then (λ shape. slice_get shape.exports class) (slice_get table.now there) }
{
    let shape = table.shape(there)?;
    shape.exports().get(usize::from(class))
}

/// The place of the static field that an entry of the package at place `home` refers to.
fn static_field_place(
    table: &ClassTable,
    home: PackagePlace,
    reference: StaticRef,
) -> Option<StaticPlace>
    ensures { result ≡ static_place (λ row. row.fields) table.now home reference }
{
    match reference {
        StaticRef::Internal { offset } => Some(StaticPlace { home, offset }),
        StaticRef::External {
            package,
            class,
            token,
        } => {
            let there = table.import_of(home, package)?;
            let export = export_at(table, there, class)?;
            let offset = export.fields().get(usize::from(token)).copied()?;
            Some(StaticPlace {
                home: there,
                offset,
            })
        }
    }
}

/// The place of the static method or constructor that an entry of the package at place `home` refers to.
fn static_method_place(
    table: &ClassTable,
    home: PackagePlace,
    reference: StaticRef,
) -> Option<StaticPlace>
    ensures { result ≡ static_place (λ row. row.methods) table.now home reference }
{
    match reference {
        StaticRef::Internal { offset } => Some(StaticPlace { home, offset }),
        StaticRef::External {
            package,
            class,
            token,
        } => {
            let there = table.import_of(home, package)?;
            let export = export_at(table, there, class)?;
            let offset = export.methods().get(usize::from(token)).copied()?;
            Some(StaticPlace {
                home: there,
                offset,
            })
        }
    }
}

/// Whether a method's header states that it is abstract.
pub(crate) fn is_abstract_method(method: &DescribedMethod) -> bool
    ensures { result ≡ is_abstract_method method.now }
{
    match method.header() {
        Some(header) => header.is_abstract,
        None => false,
    }
}

/// Whether a method exists and isn't abstract.
pub(crate) fn is_concrete(table: &ClassTable, name: MethodName) -> bool
    ensures { result ≡ is_concrete table.now name }
{
    match table.method_at(name) {
        Some(found) => !is_abstract_method(found.method),
        None => false,
    }
}

/// A field of a class, if the class itself declares it.
fn named_field(table: &ClassTable, class: ClassName, token: u8) -> Option<Named>
    ensures { result ≡ named_field table.now token class }
{
    let _found = instance_field_at(table, class, token)?;
    Some(Named::InstanceField { class, token })
}

/// A virtual method of a class, not of an interface, looked up for the package at place `home`.
fn named_virtual(
    table: &ClassTable,
    home: PackagePlace,
    class: ClassName,
    token: u8,
) -> Option<Named>
    ensures { result ≡ named_virtual table.now home token class }
{
    if !is_class_at(table, class) {
        return None;
    }
    let method = table.virtual_method_for(class, token, home.index())?;
    Some(Named::VirtualMethod {
        class,
        token,
        method,
    })
}

/// The virtual method of a class's superclass, looked up for the package at place `home`.
pub(crate) fn method_above(
    table: &ClassTable,
    home: PackagePlace,
    class: ClassName,
    token: u8,
) -> Option<MethodName>
    ensures { result ≡ method_above table.now home token class }
{
    let above = table.superclass_of(class)?;
    table.virtual_method_for(above, token, home.index())
}

/// A method, not abstract, of a class's superclass, looked up for the package at place `home`.
fn named_above(table: &ClassTable, home: PackagePlace, class: ClassName, token: u8) -> Option<Named>
    ensures { result ≡ named_above table.now home token class }
{
    if !is_class_at(table, class) {
        return None;
    }
    let method = method_above(table, home, class, token)?;
    if !is_concrete(table, method) {
        return None;
    }
    Some(Named::SuperMethod { class, method })
}

/// A static field, if there is one at this place.
fn named_static_field(table: &ClassTable, place: StaticPlace) -> Option<Named>
    ensures { result ≡ named_static_field table.now place }
{
    let StaticPlace { home, offset } = place;
    let _found = static_field_at(table, home, offset)?;
    Some(Named::StaticField(StaticPlace { home, offset }))
}

/// A static method or a constructor, not abstract, if there is one at this place.
fn named_static_method(table: &ClassTable, place: StaticPlace) -> Option<Named>
    ensures { result ≡ named_static_method table.now place }
{
    let method = method_name(place.home, place.offset);
    if !is_concrete(table, method) {
        return None;
    }
    Some(Named::StaticMethod { method })
}

/// What an entry of the package at place `home` names.
pub(crate) fn named_by(table: &ClassTable, home: PackagePlace, entry: PoolEntry) -> Option<Named>
    ensures { result ≡ named_by table.now home entry }
{
    match entry {
        PoolEntry::Classref(reference) => Some(Named::Class(table.class_named(home, reference)?)),
        PoolEntry::InstanceFieldref(MemberRef { class, token }) => {
            let class = table.class_named(home, class)?;
            named_field(table, class, token)
        }
        PoolEntry::VirtualMethodref(MemberRef { class, token }) => {
            let class = table.class_named(home, class)?;
            named_virtual(table, home, class, token)
        }
        PoolEntry::SuperMethodref(MemberRef { class, token }) => {
            let class = table.class_named(home, class)?;
            named_above(table, home, class, token)
        }
        PoolEntry::StaticFieldref(reference) => {
            let place = static_field_place(table, home, reference)?;
            named_static_field(table, place)
        }
        PoolEntry::StaticMethodref(reference) => {
            let place = static_method_place(table, home, reference)?;
            named_static_method(table, place)
        }
    }
}

/// What the entry at an index names, if there is one.
fn named_at(table: &ClassTable, home: PackagePlace, linked: &Package, index: u16) -> Option<Named>
    ensures { result ≡ option_and_then (named_by table.now home) (slice_get linked.now.body.pool index) }
{
    let entry = linked.pool().at(index)?;
    named_by(table, home, entry)
}

/// What the first `count` entries, which are all, name in the package at place `home`. Otherwise it reports the first
/// entry that names nothing, or out of memory.
fn names_of(
    alloc: Global,
    table: &ClassTable,
    home: PackagePlace,
    linked: &Package,
    count: u16,
) -> Result<Vec<Named>, LoadFault>
    requires count { count ≡ length linked.now.body.pool }
    ensures named { IfOk result (λ names. AreNamed table.now home linked.now.body.pool names.items) }
    ensures all { IfOk result (λ names. first_unresolved table.now home linked.now.body.pool ≡ None) }
    ensures refused { IfErr result (IsTold (option_map Unresolved
        (first_unresolved table.now home linked.now.body.pool))) }
{
    let mut names = Vec::new(alloc);
    for index in 0..count {
        let Some(named) = named_at(table, home, linked, index) else {
            return Err(LoadFault::Unresolved(index));
        };
        let Ok(()) = names.push(named) else {
            return Err(LoadFault::Memory);
        };
    }
    Ok(names)
}

/// What the entries of the package at place `home` name, in order. Otherwise it reports the first entry that names
/// nothing, or out of memory.
pub(crate) fn names_in(
    alloc: Global,
    table: &ClassTable,
    home: PackagePlace,
    linked: &Package,
) -> Result<Vec<Named>, LoadFault>
    ensures named { IfOk result (λ names. AreNamed table.now home linked.now.body.pool names.items) }
    ensures all { IfOk result (λ names. first_unresolved table.now home linked.now.body.pool ≡ None) }
    ensures refused { IfErr result (IsTold (option_map Unresolved
        (first_unresolved table.now home linked.now.body.pool))) }
{
    names_of(alloc, table, home, linked, linked.pool().count())
}
