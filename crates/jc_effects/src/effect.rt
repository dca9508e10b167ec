//! The effect of an instruction.

ghost use Rattle.std.specs.Prelude.{◌≡◌, ◌≤◌, ◌-◌, length, true, Some};
ghost use Rattle.jc_types.specs.Changes.{Became};
ghost use Rattle.jc_effects.specs.Effect.{effect_of};
ghost use Rattle.jc_effects.specs.Method.{own_method, returned_type, result_of, setting_of};
ghost use Rattle.jc_effects.specs.Method.{has_own_method, max_stack_of};

use crate::objects::transfer_object;
use crate::setting::Setting;
use crate::words::transfer_word;
use jc_base::{Reason, ReturnType};
use jc_classes::{ClassTable, DeclaredMethod, method_name};
use jc_code::{Instr, Operation};
use jc_link::{Linked, is_known_method, return_found};
use jc_names::ClassName;
use jc_types::{State, Ty};
use std::marker::Model;

/// Applies an operation to a state, in a method of at most `max_stack` operands with this setting. Of several reasons
/// against it, it reports the first, in the order of `applied`. After a reason the state mustn't be used.
#[tactic(auto, unfolding(crate::specs::Effect::effect_of))]
pub fn transfer_in(
    operation: &Operation,
    state: &mut State,
    max_stack: u8,
    setting: &Setting,
) -> Result<(), Reason>
    requires { max_stack ≤ state.old.room }
    ensures became { Became result state.new.types (effect_of setting.now max_stack operation.now state.old.types) }
    ensures room { state.new.room ≡ state.old.room }
    ensures locals { length state.new.types.locals ≡ length state.old.types.locals }
{
    match operation {
        Operation::Word(operation) => {
            transfer_word(
                operation,
                state,
                max_stack,
                setting.returned(),
                setting.table(),
            )
        }
        Operation::Object(operation) => transfer_object(operation, state, max_stack, setting),
    }
}

/// The type of a result, unless it is void.
fn returned_type(returned: ReturnType<ClassName>) -> Option<Ty>
    ensures { result ≡ returned_type returned }
{
    match returned {
        ReturnType::Void => None,
        ReturnType::Value(declared) => Some(Ty::of(declared)),
    }
}

/// The type of a method's result, unless it is void.
#[tactic(auto, using(crate::proofs::Results::known_result, crate::proofs::Results::unknown_result))]
pub fn result_of(table: &ClassTable, declared: &DeclaredMethod) -> Option<Ty>
    ensures { result ≡ result_of table.now declared.now }
{
    let home = declared.class.home();
    if !is_known_method(table, home, declared.method) {
        return None;
    }
    returned_type(return_found(table, home, declared.method.result())?)
}

/// The method of a linked package at an offset.
pub fn own_method(linked: &Linked, offset: u16) -> Option<DeclaredMethod<'_>>
    ensures { result ≡ own_method linked.now offset }
{
    let table = linked.table();
    table.method_at(method_name(table.last(), offset))
}

/// Applies an instruction of a linked package's method to a state. The method is given by the offset of its header. Of
/// several reasons against the instruction, it reports the first, in the order of `applied`. After a reason the state
/// mustn't be used.
pub fn transfer(
    instr: &Instr,
    state: &mut State,
    method: u16,
    linked: &Linked,
) -> Result<(), Reason>
    requires there { has_own_method linked.now method ≡ true }
    requires room { max_stack_of linked.now method ≤ state.old.room }
    ensures became { Became result state.new.types (effect_of (setting_of linked.now method)
        (max_stack_of linked.now method) instr.now.operation state.old.types) }
    ensures room { state.new.room ≡ state.old.room }
    ensures locals { length state.new.types.locals ≡ length state.old.types.locals }
{
    let declared = own_method(linked, method).unwrap();
    let header = declared.method.header().unwrap();
    let setting = Setting::new(linked, result_of(linked.table(), &declared));
    transfer_in(&instr.operation, state, header.max_stack, &setting)
}
