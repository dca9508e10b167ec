//! The targets of entries of the constant pool, with the types of members.

ghost use Rattle.std.specs.Prelude.{◌≡◌, ◌≤◌, map, Some, IfOk};
ghost use Rattle.std.specs.Option.{option_map};
ghost use Rattle.jc_link.specs.Found.{types_found};
ghost use Rattle.jc_link.specs.MemberType.{type_class, member_type_of, method_type_of};
ghost use Rattle.jc_link.specs.PrivateNames.{NamesLead};
ghost use Rattle.jc_link.specs.Target.{instance_type_of, static_type_of, cell_of, target_of};
ghost use Rattle.jc_link.specs.declared.named.Named.TheVariants as Names;

use crate::fields::{cells_above, instance_field_at, static_field_at};
use crate::named::{Named, StaticPlace};
use crate::types::{return_found, type_found};
use jc_base::{ClassRef, DeclaredType, ReturnType};
use jc_classes::{ClassTable, DescribedMethod};
use jc_names::{ClassName, MethodName, PackagePlace};
use std::alloc::{AllocError, Global};
use std::marker::Model;

/// The type of a method with its classes resolved. An interface counts as Object.
#[derive(Drop)]
pub struct MemberType {
    /// The types of its parameters, without `this`.
    pub parameters: Vec<DeclaredType<ClassName>>,
    pub result: ReturnType<ClassName>,
}

impl Model for MemberType {
    ghost use Rattle.jc_base.specs.Signature.{Signature};
    ghost use Rattle.jc_names.specs.declared.name.ClassName.{ClassName};

    ghost Value = { Signature ClassName };

    ghost view = { λ t. record { parameters = t.parameters.items; result = t.result } };
}

/// The target of an entry of the constant pool.
#[derive(Drop)]
pub enum PoolTarget {
    /// A class or an interface.
    Class(ClassName),
    /// An instance field of the class that is named: its cell in an object, and its type.
    InstanceField {
        class: ClassName,
        cell: usize,
        declared: DeclaredType<ClassName>,
    },
    /// A static field, and its type.
    StaticField {
        place: StaticPlace,
        declared: DeclaredType<ClassName>,
    },
    /// A method that is looked up from an object's class: the class that is named, its token and its type.
    VirtualMethod {
        class: ClassName,
        token: u8,
        signature: MemberType,
    },
    /// A method of the superclass of the class that is named.
    SuperMethod {
        class: ClassName,
        method: MethodName,
        signature: MemberType,
    },
    /// A static method or a constructor, with the class that declares it.
    StaticMethod {
        class: ClassName,
        method: MethodName,
        is_static: bool,
        signature: MemberType,
    },
}

/// Types with their classes resolved, if all resolve.
fn types_found(
    alloc: Global,
    table: &ClassTable,
    home: PackagePlace,
    types: &[DeclaredType<ClassRef>],
) -> Result<Option<Vec<DeclaredType<ClassName>>>, AllocError>
    ensures { IfOk result (λ found. option_map (λ types. types.items) found
        ≡ types_found (type_class table.now home) types.now) }
{
    let mut found = Vec::new(alloc);
    for declared in types {
        let Some(one) = type_found(table, home, *declared) else {
            return Ok(None);
        };
        found.push(one)?;
    }
    Ok(Some(found))
}

/// The type of a method that the package at place `home` spells.
pub fn member_type(
    alloc: Global,
    table: &ClassTable,
    home: PackagePlace,
    method: &DescribedMethod,
) -> Result<Option<MemberType>, AllocError>
    ensures { IfOk result (λ type. type ≡ member_type_of table.now home method.now.signature) }
{
    let Some(parameters) = types_found(alloc, table, home, method.parameters())? else {
        return Ok(None);
    };
    let Some(result) = return_found(table, home, method.result()) else {
        return Ok(None);
    };
    Ok(Some(MemberType { parameters, result }))
}

/// The type of the method with a name.
fn method_type(
    alloc: Global,
    table: &ClassTable,
    name: MethodName,
) -> Result<Option<MemberType>, AllocError>
    ensures { IfOk result (λ type. type ≡ method_type_of table.now name) }
{
    match table.method_at(name) {
        Some(found) => member_type(alloc, table, found.class.home(), found.method),
        None => Ok(None),
    }
}

/// The type of an instance field.
fn instance_type(table: &ClassTable, class: ClassName, token: u8) -> Option<DeclaredType<ClassName>>
    ensures { result ≡ instance_type_of table.now class token }
{
    let field = instance_field_at(table, class, token)?;
    type_found(table, class.home(), field.declared_type())
}

/// The type of a static field.
fn static_type(
    table: &ClassTable,
    home: PackagePlace,
    offset: u16,
) -> Option<DeclaredType<ClassName>>
    ensures { result ≡ static_type_of table.now (record { home = home; offset = offset }) }
{
    let field = static_field_at(table, home, offset)?;
    type_found(table, home, field.declared_type())
}

/// The target of an instance field, with its cell and its type.
fn instance_target(table: &ClassTable, class: ClassName, token: u8) -> Option<PoolTarget>
    ensures { result ≡ target_of table.now (Names.InstanceField class token) }
{
    let declared = instance_type(table, class, token)?;
    let cell = cells_above(table, class) + usize::from(token);
    Some(PoolTarget::InstanceField {
        class,
        cell,
        declared,
    })
}

/// The target of a static field, with its type.
fn static_target(table: &ClassTable, place: StaticPlace) -> Option<PoolTarget>
    ensures { result ≡ target_of table.now (Names.StaticField place) }
{
    let StaticPlace { home, offset } = place;
    let declared = static_type(table, home, offset)?;
    Some(PoolTarget::StaticField {
        place: StaticPlace { home, offset },
        declared,
    })
}

/// The target of a virtual method, with its type.
fn virtual_target(
    alloc: Global,
    table: &ClassTable,
    class: ClassName,
    token: u8,
    method: MethodName,
) -> Result<Option<PoolTarget>, AllocError>
    ensures { IfOk result (λ target. target ≡ target_of table.now (Names.VirtualMethod class token method)) }
{
    let Some(signature) = method_type(alloc, table, method)? else {
        return Ok(None);
    };
    Ok(Some(PoolTarget::VirtualMethod {
        class,
        token,
        signature,
    }))
}

/// The target of a superclass's method, with its type.
fn super_target(
    alloc: Global,
    table: &ClassTable,
    class: ClassName,
    method: MethodName,
) -> Result<Option<PoolTarget>, AllocError>
    ensures { IfOk result (λ target. target ≡ target_of table.now (Names.SuperMethod class method)) }
{
    let Some(signature) = method_type(alloc, table, method)? else {
        return Ok(None);
    };
    Ok(Some(PoolTarget::SuperMethod {
        class,
        method,
        signature,
    }))
}

/// The target of a static method or a constructor, with its class and its type.
fn static_method_target(
    alloc: Global,
    table: &ClassTable,
    method: MethodName,
) -> Result<Option<PoolTarget>, AllocError>
    ensures { IfOk result (λ target. target ≡ target_of table.now (Names.StaticMethod method)) }
{
    let Some(found) = table.method_at(method) else {
        return Ok(None);
    };
    let class = found.class;
    let Some(signature) = member_type(alloc, table, class.home(), found.method)? else {
        return Ok(None);
    };
    Ok(Some(PoolTarget::StaticMethod {
        class,
        method,
        is_static: found.method.is_static(),
        signature,
    }))
}

/// The target of a name, if its type resolves.
pub(crate) fn target_of(
    alloc: Global,
    table: &ClassTable,
    named: Named,
) -> Result<Option<PoolTarget>, AllocError>
    ensures { IfOk result (λ target. target ≡ target_of table.now named) }
{
    match named {
        Named::Class(class) => Ok(Some(PoolTarget::Class(class))),
        Named::InstanceField { class, token } => Ok(instance_target(table, class, token)),
        Named::StaticField(place) => Ok(static_target(table, place)),
        Named::VirtualMethod {
            class,
            token,
            method,
        } => virtual_target(alloc, table, class, token, method),
        Named::SuperMethod { class, method } => super_target(alloc, table, class, method),
        Named::StaticMethod { method } => static_method_target(alloc, table, method),
    }
}

/// The targets of names, in order. Each name has a target.
#[tactic(auto, using(crate::proofs::Names::name_leads, crate::proofs::Names::target_more))]
pub(crate) fn targets_of(
    alloc: Global,
    table: &ClassTable,
    names: &[Named],
) -> Result<Vec<PoolTarget>, AllocError>
    requires lead { NamesLead table.now names.now }
    ensures { IfOk result (λ targets. map Some targets.items ≡ map (target_of table.now) names.now) }
{
    let mut targets = Vec::new(alloc);
    for named in names {
        let target = target_of(alloc, table, *named)?;
        targets.push(target.unwrap())?;
    }
    Ok(targets)
}
