//! The rows of calls.

ghost use Rattle.std.specs.Prelude.{◌≡◌, ◌==◌, ◌∷◌, [], None, if◌then◌else◌};
ghost use Rattle.std.specs.List.{find};
ghost use Rattle.std.specs.Option.{option_and_then, option_map};
ghost use Rattle.jc_cap.specs.ClassComponent.{is_class};
ghost use Rattle.jc_names.specs.Names.{home_of};
ghost use Rattle.jc_classes.specs.World.{class_at};
ghost use Rattle.jc_link.specs.MemberType.{member_type_of};
ghost use Rattle.jc_effects.specs.Coded.{row_said};
ghost use Rattle.jc_effects.specs.Objects as objects;

use crate::applying::Row;
use crate::demands::Wanted;
use crate::row::{Demand, Given};
use crate::setting::Setting;
use crate::words::takes;
use jc_base::ReturnType;
use jc_classes::{Class, ClassTable, DescribedMethod};
use jc_code::Invocation;
use jc_link::{MemberType, PoolTarget, is_known_method, return_found};
use jc_names::ClassName;
use jc_types::Ty;

/// What a call pushes.
fn result_given(returned: ReturnType<ClassName>) -> Given
    ensures { result ≡ objects.result_given returned }
{
    match returned {
        ReturnType::Void => Given::Nothing,
        ReturnType::Value(declared) => Given::Exactly(Ty::of(declared)),
    }
}

/// The row of a call on an object.
fn call_on<'a>(object: Demand, signature: &'a MemberType) -> Row<'a>
    ensures { row_said result ≡ objects.call (object ∷ []) signature.now }
{
    let operands = Wanted::ObjectAndArguments(object, &signature.parameters);
    takes(operands, result_given(signature.result))
}

/// The row of a call of a method that is looked up from the object's class.
fn virtual_row<'a>(target: &'a PoolTarget) -> Option<Row<'a>>
    ensures { option_map row_said result ≡ objects.virtual_row target.now }
{
    match target {
        PoolTarget::VirtualMethod {
            class,
            signature,
            ..
        } => Some(call_on(Demand::Below(Ty::Class(*class)), signature)),
        PoolTarget::Class(_) | PoolTarget::InstanceField { .. } => None,
        PoolTarget::StaticField { .. } | PoolTarget::SuperMethod { .. } => None,
        PoolTarget::StaticMethod { .. } => None,
    }
}

/// The row of a call of a superclass's method or of a constructor.
fn special_row<'a>(target: &'a PoolTarget) -> Option<Row<'a>>
    ensures { option_map row_said result ≡ objects.special_row target.now }
{
    match target {
        PoolTarget::SuperMethod {
            class,
            signature,
            ..
        } => Some(call_on(Demand::Below(Ty::Class(*class)), signature)),
        PoolTarget::StaticMethod {
            class,
            is_static,
            signature,
            ..
        } => {
            if *is_static {
                return None;
            }
            Some(call_on(Demand::Below(Ty::Class(*class)), signature))
        }
        PoolTarget::Class(_) | PoolTarget::InstanceField { .. } => None,
        PoolTarget::StaticField { .. } | PoolTarget::VirtualMethod { .. } => None,
    }
}

/// The row of a call of a static method.
fn static_call_row<'a>(target: &'a PoolTarget) -> Option<Row<'a>>
    ensures { option_map row_said result ≡ objects.static_call_row target.now }
{
    match target {
        PoolTarget::StaticMethod {
            is_static,
            signature,
            ..
        } => {
            if !*is_static {
                return None;
            }
            let operands = Wanted::Arguments(&signature.parameters);
            Some(takes(operands, result_given(signature.result)))
        }
        PoolTarget::Class(_) | PoolTarget::InstanceField { .. } => None,
        PoolTarget::StaticField { .. } | PoolTarget::VirtualMethod { .. } => None,
        PoolTarget::SuperMethod { .. } => None,
    }
}

/// The method with a token in a class's rows.
fn method_with(found: &Class, token: u8) -> Option<&DescribedMethod>
    ensures { option_map (λ m. m.now) result ≡ find (λ m. m.token == token) found.now.methods }
{
    found.methods().iter().find(|m| m.token() == token)
}

/// The method of an interface with a token, from the interface's own rows.
fn interface_method(table: &ClassTable, interface: ClassName, token: u8) -> Option<&DescribedMethod>
    ensures { option_map (λ m. m.now) result ≡ option_and_then
        (λ k. if is_class k.body then None else find (λ m. m.token == token) k.methods) (class_at table.now interface) }
{
    let found = table.class_at(interface)?;
    if found.is_class() {
        return None;
    }
    method_with(found, token)
}

/// The row of a call of an interface's method, which the interface's package spells. The instruction states the number
/// of words that the method takes, the object included.
#[tactic(auto, using(crate::proofs::Spelled::counted_row, crate::proofs::Spelled::other_row, crate::proofs::Spelled::unknown_row, crate::proofs::Spelled::ungiven_row))]
fn spelled_row<'a>(
    table: &'a ClassTable,
    interface: ClassName,
    arguments: u8,
    method: &'a DescribedMethod,
) -> Option<Row<'a>>
    ensures { option_map row_said result ≡ option_and_then (objects.interface_row arguments)
        (member_type_of table.now (home_of interface) method.now.signature) }
{
    let home = interface.home();
    if !is_known_method(table, home, method) {
        return None;
    }
    let returned = return_found(table, home, method.result())?;
    let parameters = method.parameters();
    if usize::from(arguments) != 1 + parameters.len() {
        return None;
    }
    let operands = Wanted::Spelled {
        table,
        interface,
        parameters,
    };
    Some(takes(operands, result_given(returned)))
}

/// The row of a call of the interface's method with a token.
#[tactic(auto, using(crate::proofs::Spelled::method_type))]
fn interface_row<'a>(
    table: &'a ClassTable,
    interface: ClassName,
    arguments: u8,
    token: u8,
) -> Option<Row<'a>>
    ensures { option_map row_said result
        ≡ option_and_then (objects.interface_row arguments) (objects.interface_method_type table.now interface token) }
{
    let method = interface_method(table, interface, token)?;
    spelled_row(table, interface, arguments, method)
}

/// The row of a call of the interface's method with a token, if the target is the interface.
fn interface_target_row<'a>(
    table: &'a ClassTable,
    arguments: u8,
    token: u8,
    target: &PoolTarget,
) -> Option<Row<'a>>
    ensures { option_map row_said result ≡ objects.interface_target_row table.now arguments token target.now }
{
    match target {
        PoolTarget::Class(interface) => interface_row(table, *interface, arguments, token),
        PoolTarget::InstanceField { .. } | PoolTarget::StaticField { .. } => None,
        PoolTarget::VirtualMethod { .. } | PoolTarget::SuperMethod { .. } => None,
        PoolTarget::StaticMethod { .. } => None,
    }
}

/// The row of a call.
pub(crate) fn invocation_row<'l>(setting: &Setting<'l>, invocation: Invocation) -> Option<Row<'l>>
    ensures { option_map row_said result ≡ objects.invocation_row setting.now invocation }
{
    match invocation {
        Invocation::Virtual { index } => virtual_row(setting.target(index)?),
        Invocation::Special { index } => special_row(setting.target(index)?),
        Invocation::Static { index } => static_call_row(setting.target(index)?),
        Invocation::Interface {
            arguments,
            index,
            token,
        } => interface_target_row(setting.table(), arguments, token, setting.target(index)?),
    }
}
