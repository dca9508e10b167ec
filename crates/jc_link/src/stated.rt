//! The types that entries of the constant pool state.

ghost use Rattle.std.specs.Prelude.{◌≡◌, ◌≤◌, Some, length, slice_get};
ghost use Rattle.std.specs.Option.{option_map};
ghost use Rattle.jc_link.specs.Found.{type_found};
ghost use Rattle.jc_link.specs.MemberType.{as_member, type_class, member_type_of, method_type_of, have_same_type};
ghost use Rattle.jc_link.specs.Pool.{is_member, is_mistyped, is_mistyped_at, first_mistyped};
ghost use Rattle.jc_link.specs.Named.{named_by};
ghost use Rattle.jc_link.specs.PrivateAgree.{types_agree, signature_agrees};
ghost use Rattle.jc_link.specs.PrivateNames.{AreNamed};
ghost use Rattle.jc_link.specs.Target.{instance_type_of, static_type_of, named_type_of};

use crate::fields::{instance_field_at, static_field_at};
use crate::named::{Named, StaticPlace};
use crate::types::{return_agrees, type_agrees};
use jc_base::{ClassRef, DeclaredType, ReturnType};
use jc_cap::{Descriptor, Parameters, PoolEntry};
use jc_cap_desc::Package;
use jc_classes::ClassTable;
use jc_names::{ClassName, MethodName, PackagePlace};

/// Whether the parameter types that an entry states equal those of a method in another package.
fn parameters_agree(
    table: &ClassTable,
    home: PackagePlace,
    stated: &Parameters,
    there: PackagePlace,
    others: &[DeclaredType<ClassRef>],
) -> bool
    ensures { result ≡ types_agree (type_class table.now home) (type_class table.now there) stated.now others.now }
{
    let mut left = stated.again();
    for other in others {
        let Some(declared) = left.next() else {
            return false;
        };
        if !type_agrees(table, home, declared, there, *other) {
            return false;
        }
    }
    left.is_empty()
}

/// Whether the type that an entry states equals that of a member in another package.
fn stated_agrees(
    table: &ClassTable,
    home: PackagePlace,
    stated: &Descriptor,
    there: PackagePlace,
    parameters: &[DeclaredType<ClassRef>],
    given: ReturnType<ClassRef>,
) -> bool
    ensures { result ≡ signature_agrees (type_class table.now home) (type_class table.now there) stated.now
        (record { parameters = parameters.now; result = given }) }
{
    parameters_agree(table, home, &stated.parameters(), there, parameters)
        && return_agrees(table, home, stated.result(), there, given)
}

/// Whether the type that an entry states equals that of a field, which the package at place `there` spells.
#[tactic(auto, using(crate::proofs::Agree::field_agrees_is))]
fn is_field_type(
    table: &ClassTable,
    home: PackagePlace,
    stated: &Descriptor,
    there: PackagePlace,
    declared: DeclaredType<ClassRef>,
) -> bool
    ensures { result ≡ have_same_type (member_type_of table.now home stated.now)
        (option_map as_member (type_found (type_class table.now there) declared)) }
{
    stated_agrees(table, home, stated, there, &[], ReturnType::Value(declared))
}

/// Whether the type that an entry states equals that of an instance field.
#[tactic(auto, using(crate::proofs::Agree::agree_none))]
fn is_instance_type(
    table: &ClassTable,
    home: PackagePlace,
    stated: &Descriptor,
    class: ClassName,
    token: u8,
) -> bool
    ensures { result ≡ have_same_type (member_type_of table.now home stated.now)
        (option_map as_member (instance_type_of table.now class token)) }
{
    match instance_field_at(table, class, token) {
        Some(field) => is_field_type(table, home, stated, class.home(), field.declared_type()),
        None => false,
    }
}

/// Whether the type that an entry states equals that of a static field.
#[tactic(auto, using(crate::proofs::Agree::agree_none))]
fn is_static_type(
    table: &ClassTable,
    home: PackagePlace,
    stated: &Descriptor,
    place: StaticPlace,
) -> bool
    ensures { result ≡ have_same_type (member_type_of table.now home stated.now)
        (option_map as_member (static_type_of table.now place)) }
{
    let StaticPlace {
        home: there,
        offset,
    } = place;
    match static_field_at(table, there, offset) {
        Some(field) => is_field_type(table, home, stated, there, field.declared_type()),
        None => false,
    }
}

/// Whether the type that an entry states equals that of a method.
#[tactic(auto, using(crate::proofs::Agree::agree_none, crate::proofs::Agree::signature_agrees_is))]
fn is_method_type(
    table: &ClassTable,
    home: PackagePlace,
    stated: &Descriptor,
    method: MethodName,
) -> bool
    ensures { result ≡ have_same_type (member_type_of table.now home stated.now) (method_type_of table.now method) }
{
    match table.method_at(method) {
        Some(found) => stated_agrees(
            table,
            home,
            stated,
            found.class.home(),
            found.method.parameters(),
            found.method.result(),
        ),
        None => false,
    }
}

/// Whether the type that an entry states equals that of the member that it names.
#[tactic(auto, using(crate::proofs::Agree::agree_none))]
fn is_type_of(table: &ClassTable, home: PackagePlace, stated: &Descriptor, named: Named) -> bool
    ensures { result ≡ have_same_type (member_type_of table.now home stated.now) (named_type_of table.now named) }
{
    match named {
        Named::Class(_) => false,
        Named::InstanceField { class, token } => is_instance_type(
            table, home, stated, class, token,
        ),
        Named::StaticField(place) => is_static_type(table, home, stated, place),
        Named::VirtualMethod { method, .. } => is_method_type(table, home, stated, method),
        Named::SuperMethod { method, .. } => is_method_type(table, home, stated, method),
        Named::StaticMethod { method } => is_method_type(table, home, stated, method),
    }
}

/// Whether an entry refers to a member.
fn is_member(entry: PoolEntry) -> bool
    ensures { result ≡ is_member entry }
{
    match entry {
        PoolEntry::Classref(_) => false,
        PoolEntry::InstanceFieldref(_) => true,
        PoolEntry::VirtualMethodref(_) => true,
        PoolEntry::SuperMethodref(_) => true,
        PoolEntry::StaticFieldref(_) => true,
        PoolEntry::StaticMethodref(_) => true,
    }
}

/// Whether an entry, which names this, states a type that differs from its member's.
fn is_mistyped(
    table: &ClassTable,
    home: PackagePlace,
    entry: PoolEntry,
    named: Named,
    stated: &Descriptor,
) -> bool
    requires named { named_by table.now home entry ≡ Some named }
    ensures { result ≡ is_mistyped table.now home entry (Some stated.now) }
{
    is_member(entry) && !is_type_of(table, home, stated, named)
}

/// The name at an index.
fn name_at(names: &[Named], index: u16) -> Option<Named>
    ensures { result ≡ slice_get names.now index }
{
    names.get(usize::from(index)).copied()
}

/// Whether there is an entry at an index, and it states a type that differs from its member's.
fn is_mistyped_at(
    table: &ClassTable,
    home: PackagePlace,
    linked: &Package,
    names: &[Named],
    index: u16,
) -> bool
    requires named { AreNamed table.now home linked.now.body.pool names.now }
    ensures { result ≡ is_mistyped_at table.now home linked.now.body index }
{
    let Some(entry) = linked.pool().at(index) else {
        return false;
    };
    let Some(named) = name_at(names, index) else {
        return false;
    };
    let Some(stated) = linked.pool_type(index) else {
        return false;
    };
    is_mistyped(table, home, entry, named, &stated)
}

/// The index of the first of the first `count` entries, at place `home`, whose stated type differs from its member's.
fn first_mistyped_of(
    table: &ClassTable,
    home: PackagePlace,
    linked: &Package,
    names: &[Named],
    count: u16,
) -> Option<u16>
    requires named { AreNamed table.now home linked.now.body.pool names.now }
    ensures { count ≡ length linked.now.body.pool → result ≡ first_mistyped table.now home linked.now.body }
{
    for index in 0..count {
        if is_mistyped_at(table, home, linked, names, index) {
            return Some(index);
        }
    }
    None
}

/// The index of the first entry of the package at place `home` whose stated type differs from its member's. The entries
/// name these.
pub(crate) fn first_mistyped(
    table: &ClassTable,
    home: PackagePlace,
    linked: &Package,
    names: &[Named],
) -> Option<u16>
    requires named { AreNamed table.now home linked.now.body.pool names.now }
    ensures { result ≡ first_mistyped table.now home linked.now.body }
{
    first_mistyped_of(table, home, linked, names, linked.pool().count())
}
