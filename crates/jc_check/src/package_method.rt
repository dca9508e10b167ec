//! The methods of a linked package for the check.

ghost use Rattle.std.specs.Prelude.{◌≡◌, ◌-◌, ◌++◌, map, IfOk, [], OnOk, IfErr, ◌<◌, ◌^◌, length, vec_capacity};
ghost use Rattle.std.specs.Option.{option_and_then, option_map_or};
ghost use Rattle.jc_effects.specs.Method.{max_stack_of, own_method, result_of};
ghost use Rattle.jc_cert.specs.Cert.{stated};
ghost use Rattle.jc_types.specs.Ty.{type_of_declared};
ghost use Rattle.jc_check.specs.Carried.{Carries};
ghost use Rattle.jc_check.specs.Fault.{IfRefused};
ghost use Rattle.jc_check.specs.FirstFault.{IsFirstFault};
ghost use Rattle.jc_check.specs.Package.{arguments_of, caught_class, handler_of, max_locals_of, method_of};
ghost use Rattle.jc_check.specs.Package.{package_rules, receiver_of, thrown_class};

use crate::fault::WordFault;
use crate::handler::CheckedHandler;
use crate::method::CheckedMethod;
use crate::method_check::check_method;
use crate::package_rules::PackageRules;
use jc_api::ApiClass;
use jc_base::DeclaredType;
use jc_cap::Handler as HandlerRow;
use jc_cert::StateRow;
use jc_classes::{ClassTable, DeclaredMethod};
use jc_effects::{own_method, result_of};
use jc_link::{Linked, MethodCode, PoolTarget, member_type};
use jc_names::ClassName;
use jc_types::Ty;
use std::alloc::{AllocError, Global};

const THROWABLE: ClassName = ClassName::Api(ApiClass::Throwable);

/// The index of the constant pool that catches everything that may be thrown.
const CATCHES_ALL: u16 = 0;

/// The class that an entry of the constant pool names, if its objects may be thrown.
fn thrown_class(table: &ClassTable, target: &PoolTarget) -> Option<ClassName>
    ensures { result ≡ thrown_class table.now target.now }
{
    match target {
        PoolTarget::Class(class) => {
            if table.is_class_below(*class, THROWABLE) {
                Some(*class)
            } else {
                None
            }
        }
        PoolTarget::InstanceField { .. } | PoolTarget::StaticField { .. } => None,
        PoolTarget::VirtualMethod { .. } | PoolTarget::SuperMethod { .. } => None,
        PoolTarget::StaticMethod { .. } => None,
    }
}

/// The class that a handler catches, by its index into the constant pool.
fn caught_class(linked: &Linked, index: u16) -> Option<ClassName>
    ensures { result ≡ caught_class linked.now index }
{
    if index == CATCHES_ALL {
        return Some(THROWABLE);
    }
    let target = linked.body().targets().get(usize::from(index))?;
    thrown_class(linked.table(), target)
}

/// The pc at an offset of the Method component, in code that begins at another.
fn pc_at(offset: u16, code_offset: usize) -> u16
    ensures { result ≡ offset - code_offset }
{
    usize::from(offset).saturating_sub(code_offset) as u16
}

/// A handler of code that begins at an offset of the Method component.
fn handler_of(linked: &Linked, code_offset: usize, row: &HandlerRow) -> CheckedHandler
    ensures { result ≡ handler_of linked.now code_offset row.now }
{
    CheckedHandler {
        start: pc_at(row.start, code_offset),
        length: row.active_length,
        goes_on: pc_at(row.handler, code_offset),
        caught: caught_class(linked, row.catch_type),
    }
}

/// The handlers of a method.
fn handlers_of(
    alloc: Global,
    linked: &Linked,
    code_offset: usize,
    rows: &[HandlerRow],
) -> Result<Vec<CheckedHandler>, AllocError>
    ensures handlers { IfOk result (λ handlers. handlers.items ≡ map (handler_of linked.now code_offset) rows.now) }
    ensures room { IfOk result (λ handlers. vec_capacity handlers ≡ length rows.now) }
{
    let mut handlers = Vec::with_capacity(alloc, rows.len())?;
    for row in rows {
        handlers.push_reserved(handler_of(linked, code_offset, row));
    }
    Ok(handlers)
}

/// Appends the types of a method's parameters.
fn put_parameters(
    arguments: &mut Vec<Ty>,
    parameters: &[DeclaredType<ClassName>],
) -> Result<(), AllocError>
    ensures { OnOk result (arguments.new.items ≡ arguments.old.items ++ map type_of_declared parameters.now) }
{
    for parameter in parameters {
        arguments.push(Ty::of(*parameter))?;
    }
    Ok(())
}

/// The types of a method's arguments, the object first.
fn arguments_of(
    alloc: Global,
    table: &ClassTable,
    declared: &DeclaredMethod,
) -> Result<Vec<Ty>, AllocError>
    ensures { IfOk result (λ arguments. arguments.items ≡ arguments_of table.now declared.now) }
{
    let mut arguments = Vec::new(alloc);
    if !declared.method.is_static() {
        arguments.push(Ty::Class(declared.class))?;
    }
    if let Some(signature) = member_type(alloc, table, declared.class.home(), declared.method)? {
        put_parameters(&mut arguments, &signature.parameters)?;
    }
    Ok(arguments)
}

/// The number of a method's locals besides its arguments.
pub(crate) fn max_locals_of(declared: &DeclaredMethod) -> u8
    ensures { result ≡ max_locals_of declared.now }
{
    match declared.method.header() {
        Some(header) => header.max_locals,
        None => 0,
    }
}

/// The greatest number of a method's operands.
pub(crate) fn max_stack_of(declared: &DeclaredMethod) -> u8
    ensures { result ≡ option_map_or (λ h. h.max_stack) declared.now.method.header 0 }
{
    match declared.method.header() {
        Some(header) => header.max_stack,
        None => 0,
    }
}

/// The types and limits of a method's frames, from its row and header.
#[derive(Drop)]
struct FrameTypes {
    arguments: Vec<Ty>,
    max_locals: u8,
    max_stack: u8,
    returned: Option<Ty>,
}

/// The same for the method at an offset of a linked package.
fn frame_types_of(alloc: Global, linked: &Linked, offset: u16) -> Result<FrameTypes, AllocError>
    ensures arguments { IfOk result (λ types. types.arguments.items
        ≡ option_map_or (arguments_of linked.now.world) (own_method linked.now offset) []) }
    ensures locals { IfOk result (λ types.
        types.max_locals ≡ option_map_or max_locals_of (own_method linked.now offset) 0) }
    ensures stack { IfOk result (λ types. types.max_stack ≡ max_stack_of linked.now offset) }
    ensures returned { IfOk result (λ types.
        types.returned ≡ option_and_then (result_of linked.now.world) (own_method linked.now offset)) }
{
    let Some(declared) = own_method(linked, offset) else {
        return Ok(FrameTypes {
            arguments: Vec::new(alloc),
            max_locals: 0,
            max_stack: 0,
            returned: None,
        });
    };
    let arguments = arguments_of(alloc, linked.table(), &declared)?;
    Ok(FrameTypes {
        arguments,
        max_locals: max_locals_of(&declared),
        max_stack: max_stack_of(&declared),
        returned: result_of(linked.table(), &declared),
    })
}

/// A method with code of a linked package, for the check.
pub fn method_of<'m>(
    alloc: Global,
    linked: &Linked,
    body: &'m MethodCode,
) -> Result<CheckedMethod<'m>, AllocError>
    ensures method { IfOk result (λ method. method ≡ method_of linked.now body.now) }
    ensures short { IfOk result (λ method. length method.code < 2 ^ 16) }
{
    let types = frame_types_of(alloc, linked, body.offset)?;
    let handlers = handlers_of(alloc, linked, body.code_offset, &body.handlers)?;
    Ok(CheckedMethod {
        code: &body.code,
        arguments: types.arguments,
        max_locals: types.max_locals,
        max_stack: types.max_stack,
        returned: types.returned,
        handlers,
    })
}

/// Checks a method with code with the certificate's states for it.
pub(crate) fn check_body(
    alloc: Global,
    linked: &Linked,
    body: &MethodCode,
    states: &[StateRow],
) -> Result<(), WordFault>
    requires count { length states.now < 2 ^ 16 }
    ensures accepted { OnOk result
        (Carries (package_rules linked.now) (method_of linked.now body.now) (map stated states.now)) }
    ensures refused { IfErr result (λ fault. IfRefused fault
        (IsFirstFault (package_rules linked.now) (method_of linked.now body.now) (map stated states.now))) }
{
    let method = method_of(alloc, linked, body)?;
    check_method(alloc, &PackageRules { linked }, &method, states)
}
