//! Whether types meet demands, and the types that are given.

ghost use Rattle.std.specs.Prelude.{◌≡◌, ◌≤◌, length, map, slice_get, unwrap_or};
ghost use Rattle.jc_effects.specs.Row as rows;
ghost use Rattle.jc_effects.specs.Coded.{argument, argument_spelled, demands_of};

use crate::row::{Demand, Given, LocalDemand};
use jc_base::{ClassRef, DeclaredType};
use jc_classes::ClassTable;
use jc_link::type_found;
use jc_names::{ClassName, PackagePlace};
use jc_types::{ClassOrder, Ty, is_below};

/// The demands on operands, the deepest first.
#[derive(Clone, Copy)]
pub enum Wanted<'a> {
    /// No operand is taken.
    Nothing,
    /// One operand.
    One(Demand),
    /// Two operands.
    Two(Demand, Demand),
    /// Three operands.
    Three(Demand, Demand, Demand),
    /// Arguments below their declared types.
    Arguments(&'a [DeclaredType<ClassName>]),
    /// An object, and then arguments.
    ObjectAndArguments(Demand, &'a [DeclaredType<ClassName>]),
    /// Any reference, and then the arguments of an interface's method. Their types are resolved as the interface's
    /// package spells them.
    Spelled {
        table: &'a ClassTable,
        interface: ClassName,
        parameters: &'a [DeclaredType<ClassRef>],
    },
}

/// Whether it is null, or a reference to an object.
pub(crate) fn is_object_or_null(ty: Ty) -> bool
    ensures { result ≡ rows.is_object_or_null ty }
{
    match ty {
        Ty::Top | Ty::Word => false,
        Ty::Null | Ty::Class(_) | Ty::ReferenceArray(_) => true,
        Ty::BooleanArray | Ty::ByteArray | Ty::ShortArray => true,
    }
}

/// Whether it is null, or an array of booleans or bytes.
fn is_bytes(ty: Ty) -> bool
    ensures { result ≡ rows.is_bytes ty }
{
    match ty {
        Ty::Null | Ty::BooleanArray | Ty::ByteArray => true,
        Ty::Top | Ty::Word | Ty::Class(_) | Ty::ShortArray | Ty::ReferenceArray(_) => false,
    }
}

/// Whether it is null, or an array.
fn is_array(ty: Ty) -> bool
    ensures { result ≡ rows.is_array ty }
{
    match ty {
        Ty::Top | Ty::Word | Ty::Class(_) => false,
        Ty::Null | Ty::BooleanArray | Ty::ByteArray | Ty::ShortArray | Ty::ReferenceArray(_) =>
            true,
    }
}

/// Whether a type meets a demand.
#[inline(always)]
fn meets<C: ClassOrder>(demand: Demand, ty: Ty, classes: &C) -> bool
    ensures { result ≡ rows.meets (C.lies_below classes.now) demand ty }
{
    match demand {
        Demand::Below(wanted) => is_below(ty, wanted, classes),
        Demand::Reference => is_object_or_null(ty),
        Demand::Bytes => is_bytes(ty),
        Demand::Array => is_array(ty),
    }
}

/// Whether the row's local meets its demand.
#[inline(always)]
pub(crate) fn local_meets<C: ClassOrder>(place: LocalDemand, ty: Ty, classes: &C) -> bool
    ensures { result ≡ rows.local_meets (C.lies_below classes.now) place ty }
{
    match place {
        LocalDemand::Nowhere => true,
        LocalDemand::At { demand, .. } => meets(demand, ty, classes),
    }
}

/// Whether types are below declared types.
fn arguments_meet<C: ClassOrder>(
    arguments: &[DeclaredType<ClassName>],
    types: &[Ty],
    classes: &C,
) -> bool
    requires { length arguments.now ≡ length types.now }
    ensures { result ≡ rows.all_meet (C.lies_below classes.now) (map argument arguments.now) types.now }
{
    for index in 0..arguments.len() {
        if !is_below(types[index], Ty::of(arguments[index]), classes) {
            return false;
        }
    }
    true
}

/// Whether a type is below the declared type that the package at place `home` spells. If that doesn't resolve, every
/// type is.
fn spelled_meets<C: ClassOrder>(
    table: &ClassTable,
    home: PackagePlace,
    spelled: DeclaredType<ClassRef>,
    ty: Ty,
    classes: &C,
) -> bool
    ensures { result ≡ rows.meets (C.lies_below classes.now) (argument_spelled table.now home spelled) ty }
{
    match type_found(table, home, spelled) {
        Some(declared) => is_below(ty, Ty::of(declared), classes),
        None => true,
    }
}

/// Whether types are below the declared types that the package at place `home` spells. A type that doesn't resolve
/// counts as Top.
fn all_spelled_meet<C: ClassOrder>(
    table: &ClassTable,
    home: PackagePlace,
    parameters: &[DeclaredType<ClassRef>],
    types: &[Ty],
    classes: &C,
) -> bool
    requires count { length parameters.now ≡ length types.now }
    ensures { result ≡ rows.all_meet (C.lies_below classes.now)
        (map (argument_spelled table.now home) parameters.now) types.now }
{
    for index in 0..parameters.len() {
        if !spelled_meets(table, home, parameters[index], types[index], classes) {
            return false;
        }
    }
    true
}

impl<'a> Wanted<'a> {
    /// How many operands are taken.
    #[inline(always)]
    pub(crate) fn len(self) -> usize
        ensures { result ≡ length (demands_of self.entry) }
    {
        match self {
            Wanted::Nothing => 0,
            Wanted::One(_) => 1,
            Wanted::Two(_, _) => 2,
            Wanted::Three(_, _, _) => 3,
            Wanted::Arguments(types) => types.len(),
            Wanted::ObjectAndArguments(_, types) => 1 + types.len(),
            Wanted::Spelled { parameters, .. } => 1 + parameters.len(),
        }
    }

    /// Whether the types, of which there are as many, meet the demands.
    #[inline(always)]
    pub(crate) fn are_met<C: ClassOrder>(self, types: &[Ty], classes: &C) -> bool
        requires { length (demands_of self) ≡ length types.now }
        ensures { result ≡ rows.all_meet (C.lies_below classes.now) (demands_of self.entry) types.now }
    {
        match self {
            Wanted::Nothing => true,
            Wanted::One(a) => meets(a, types[0], classes),
            Wanted::Two(a, b) => meets(a, types[0], classes) && meets(b, types[1], classes),
            Wanted::Three(a, b, c) => {
                meets(a, types[0], classes)
                    && meets(b, types[1], classes)
                    && meets(c, types[2], classes)
            }
            Wanted::Arguments(arguments) => arguments_meet(arguments, types, classes),
            Wanted::ObjectAndArguments(object, arguments) => {
                meets(object, types[0], classes) && arguments_meet(arguments, &types[1..], classes)
            }
            Wanted::Spelled {
                table,
                interface,
                parameters,
            } => {
                is_object_or_null(types[0])
                    && all_spelled_meet(table, interface.home(), parameters, &types[1..], classes)
            }
        }
    }
}

/// How many types are given.
#[inline(always)]
pub(crate) fn count_of(given: Given) -> usize
    ensures { result ≡ rows.count_of given }
{
    match given {
        Given::Nothing => 0,
        Given::Exactly(_) | Given::OfLocal | Given::OfOperand(_) | Given::ComponentOf(_) => 1,
    }
}

/// The type of the components of an array of references; of null it is null.
fn component_of(ty: Ty) -> Ty
    ensures { result ≡ rows.component_of ty }
{
    match ty {
        Ty::Null => Ty::Null,
        Ty::ReferenceArray(class) => Ty::Class(class),
        Ty::Top | Ty::Word | Ty::Class(_) => Ty::Top,
        Ty::BooleanArray | Ty::ByteArray | Ty::ShortArray => Ty::Top,
    }
}

/// The type of an operand that is taken, or Top.
#[inline(always)]
fn operand(taken: &[Ty], index: u8) -> Ty
    ensures { result ≡ unwrap_or (slice_get taken.now index) Ty.Top }
{
    taken.get(usize::from(index)).copied().unwrap_or(Ty::Top)
}

/// The type that is given, from the type of the local and the types that are taken.
#[inline(always)]
pub(crate) fn given_type(given: Given, local: Ty, taken: &[Ty]) -> Ty
    ensures { result ≡ rows.given_type given local taken.now }
{
    match given {
        Given::Nothing => Ty::Top,
        Given::Exactly(ty) => ty,
        Given::OfLocal => local,
        Given::OfOperand(index) => operand(taken, index),
        Given::ComponentOf(index) => component_of(operand(taken, index)),
    }
}
