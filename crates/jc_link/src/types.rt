//! The types of members, with their classes resolved.

ghost use Rattle.std.specs.Prelude.{◌≡◌, ◌≤◌, is_some, length};
ghost use Rattle.std.specs.List.{list_all};
ghost use Rattle.std.specs.Option.{option_and_then};
ghost use Rattle.jc_link.specs.Found.{type_found, return_found, is_same_type, is_same_return};
ghost use Rattle.jc_link.specs.MemberType.{counted, type_class, field_type_of, member_type_of, declared_type_of};
ghost use Rattle.jc_link.specs.MemberType.{method_type_of, have_same_type};
ghost use Rattle.jc_link.specs.PrivateAgree.{type_agrees, types_agree, return_agrees};

use jc_api::ApiClass;
use jc_base::{ClassRef, DeclaredType, ReturnType};
use jc_classes::{ClassTable, DeclaredMethod, DescribedMethod, Field};
use jc_names::{ClassName, MethodName, PackagePlace};

/// A class as types count it: an interface counts as Object.
pub fn counted(table: &ClassTable, class: ClassName) -> ClassName
    ensures { result ≡ counted table.now class }
{
    match table.class_at(class) {
        Some(found) if !found.is_class() => ClassName::Api(ApiClass::Object),
        _ => class,
    }
}

/// The class of a type that a reference of the package at place `home` resolves to.
pub(crate) fn type_class(
    table: &ClassTable,
    home: PackagePlace,
    reference: ClassRef,
) -> Option<ClassName>
    ensures { result ≡ type_class table.now home reference }
{
    let class = table.class_named(home, reference)?;
    Some(counted(table, class))
}

/// A type with its class resolved, if it resolves.
pub fn type_found(
    table: &ClassTable,
    home: PackagePlace,
    declared: DeclaredType<ClassRef>,
) -> Option<DeclaredType<ClassName>>
    ensures { result ≡ type_found (type_class table.now home) declared }
{
    match declared {
        DeclaredType::Boolean => Some(DeclaredType::Boolean),
        DeclaredType::Byte => Some(DeclaredType::Byte),
        DeclaredType::Short => Some(DeclaredType::Short),
        DeclaredType::Reference(class) => {
            Some(DeclaredType::Reference(type_class(table, home, class)?))
        }
        DeclaredType::BooleanArray => Some(DeclaredType::BooleanArray),
        DeclaredType::ByteArray => Some(DeclaredType::ByteArray),
        DeclaredType::ShortArray => Some(DeclaredType::ShortArray),
        DeclaredType::ReferenceArray(class) => Some(DeclaredType::ReferenceArray(type_class(
            table, home, class,
        )?)),
    }
}

/// A result with its class resolved, if it resolves.
pub fn return_found(
    table: &ClassTable,
    home: PackagePlace,
    declared: ReturnType<ClassRef>,
) -> Option<ReturnType<ClassName>>
    ensures { result ≡ return_found (type_class table.now home) declared }
{
    match declared {
        ReturnType::Void => Some(ReturnType::Void),
        ReturnType::Value(found) => Some(ReturnType::Value(type_found(table, home, found)?)),
    }
}

/// Whether two types are equal.
pub(crate) fn is_same_type(one: DeclaredType<ClassName>, other: DeclaredType<ClassName>) -> bool
    ensures { result ≡ is_same_type one other }
{
    match (one, other) {
        (DeclaredType::Boolean, DeclaredType::Boolean) => true,
        (DeclaredType::Byte, DeclaredType::Byte) => true,
        (DeclaredType::Short, DeclaredType::Short) => true,
        (DeclaredType::Reference(class), DeclaredType::Reference(other)) => class.is(other),
        (DeclaredType::BooleanArray, DeclaredType::BooleanArray) => true,
        (DeclaredType::ByteArray, DeclaredType::ByteArray) => true,
        (DeclaredType::ShortArray, DeclaredType::ShortArray) => true,
        (DeclaredType::ReferenceArray(class), DeclaredType::ReferenceArray(other)) => {
            class.is(other)
        }
        _ => false,
    }
}

/// Whether two results are equal.
pub(crate) fn is_same_return(one: ReturnType<ClassName>, other: ReturnType<ClassName>) -> bool
    ensures { result ≡ is_same_return one other }
{
    match (one, other) {
        (ReturnType::Void, ReturnType::Void) => true,
        (ReturnType::Value(one), ReturnType::Value(other)) => is_same_type(one, other),
        _ => false,
    }
}

/// Whether two types, each spelled by its package, resolve and are equal.
pub(crate) fn type_agrees(
    table: &ClassTable,
    home: PackagePlace,
    one: DeclaredType<ClassRef>,
    there: PackagePlace,
    other: DeclaredType<ClassRef>,
) -> bool
    ensures { result ≡ type_agrees (type_class table.now home) (type_class table.now there) one other }
{
    match (
        type_found(table, home, one),
        type_found(table, there, other),
    ) {
        (Some(one), Some(other)) => is_same_type(one, other),
        _ => false,
    }
}

/// Whether two results, each spelled by its package, resolve and are equal.
pub(crate) fn return_agrees(
    table: &ClassTable,
    home: PackagePlace,
    one: ReturnType<ClassRef>,
    there: PackagePlace,
    other: ReturnType<ClassRef>,
) -> bool
    ensures { result ≡ return_agrees (type_class table.now home) (type_class table.now there) one other }
{
    match (
        return_found(table, home, one),
        return_found(table, there, other),
    ) {
        (Some(one), Some(other)) => is_same_return(one, other),
        _ => false,
    }
}

/// Whether two lists of types, each spelled by its package, resolve and are equal.
fn types_agree(
    table: &ClassTable,
    home: PackagePlace,
    types: &[DeclaredType<ClassRef>],
    there: PackagePlace,
    others: &[DeclaredType<ClassRef>],
) -> bool
    ensures { result ≡ types_agree (type_class table.now home) (type_class table.now there) types.now others.now }
{
    if types.len() != others.len() {
        return false;
    }
    for index in 0..types.len() {
        if !type_agrees(table, home, types[index], there, others[index]) {
            return false;
        }
    }
    true
}

/// Whether two methods, each spelled by its package, have types, and these are equal.
#[tactic(auto, using(crate::proofs::Agree::signature_agrees_is))]
fn same_spelled_type(
    table: &ClassTable,
    home: PackagePlace,
    one: &DescribedMethod,
    there: PackagePlace,
    other: &DescribedMethod,
) -> bool
    ensures { result ≡ have_same_type (member_type_of table.now home one.now.signature)
        (member_type_of table.now there other.now.signature) }
{
    types_agree(table, home, one.parameters(), there, other.parameters())
        && return_agrees(table, home, one.result(), there, other.result())
}

/// Whether a field's type resolves.
pub(crate) fn is_known_field(table: &ClassTable, home: PackagePlace, field: &Field) -> bool
    ensures { result ≡ is_some (field_type_of table.now home field.now) }
{
    type_found(table, home, field.declared_type()).is_some()
}

/// Whether types resolve.
fn are_known_types(table: &ClassTable, home: PackagePlace, types: &[DeclaredType<ClassRef>]) -> bool
    ensures { result ≡ list_all (λ t. is_some (type_found (type_class table.now home) t)) types.now }
{
    types
        .iter()
        .all(|declared| type_found(table, home, *declared).is_some())
}

/// Whether a method's type resolves.
#[tactic(auto, using(crate::proofs::Agree::signature_there))]
pub fn is_known_method(table: &ClassTable, home: PackagePlace, method: &DescribedMethod) -> bool
    ensures { result ≡ is_some (member_type_of table.now home method.now.signature) }
{
    are_known_types(table, home, method.parameters())
        && return_found(table, home, method.result()).is_some()
}

/// Whether two declared methods have types, and these are equal.
pub(crate) fn same_declared_type(
    table: &ClassTable,
    one: &DeclaredMethod,
    other: &DeclaredMethod,
) -> bool
    ensures { result ≡ have_same_type (declared_type_of table.now one.now) (declared_type_of table.now other.now) }
{
    same_spelled_type(
        table,
        one.class.home(),
        one.method,
        other.class.home(),
        other.method,
    )
}

/// Whether the methods with two names exist and have types, and these are equal.
#[tactic(auto, using(crate::proofs::Agree::agree_none))]
pub(crate) fn same_method_type(table: &ClassTable, one: MethodName, other: MethodName) -> bool
    ensures { result ≡ have_same_type (method_type_of table.now one) (method_type_of table.now other) }
{
    match (table.method_at(one), table.method_at(other)) {
        (Some(one), Some(other)) => same_declared_type(table, &one, &other),
        _ => false,
    }
}

/// Whether a method that the package at place `home` spells has a type, and another method has the same.
#[tactic(auto, using(crate::proofs::Agree::agree_none))]
pub(crate) fn implements_type(
    table: &ClassTable,
    home: PackagePlace,
    spelled: &DescribedMethod,
    method: Option<MethodName>,
) -> bool
    ensures { result ≡ have_same_type (member_type_of table.now home spelled.now.signature)
        (option_and_then (method_type_of table.now) method) }
{
    let Some(name) = method else {
        return false;
    };
    match table.method_at(name) {
        Some(found) => { same_spelled_type(table, home, spelled, found.class.home(), found.method) }
        None => false,
    }
}
