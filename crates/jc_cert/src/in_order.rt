//! Whether rows are in order.

ghost use Rattle.std.specs.Prelude.{◌↔◌, ◌≤◌, IsTrue, map};
ghost use Rattle.std.specs.List.{AllByRecursion};
ghost use Rattle.jc_cert.specs.Cert.{IsSpelledClass, IsStatedType, IsStated, IsRow, IsCert, PcsAscend, OffsetsAscend};
ghost use Rattle.jc_cert.specs.Cert.{stated, row, rows};

use crate::cert::{MethodStates, StateRow};
use crate::stated_type::{SpelledClass, StatedType};

/// Each name of a class has an offset and an AID within their limits. It does nothing.
fn class_fits(class: SpelledClass)
    ensures { IsSpelledClass class }
{
    match class {
        SpelledClass::Other { package, .. } => {
            package.len();
        }
        SpelledClass::Own { .. } | SpelledClass::Api(_) => {}
    }
}

/// The name of a type's class, if it has one, is within its limits. It does nothing.
fn type_fits(ty: StatedType)
    ensures { IsStatedType ty }
{
    match ty {
        StatedType::Class(class) => class_fits(class),
        StatedType::ReferenceArray(class) => class_fits(class),
        StatedType::Top
        | StatedType::Word
        | StatedType::Null
        | StatedType::BooleanArray
        | StatedType::ByteArray
        | StatedType::ShortArray => {}
    }
}

/// The names of the classes of these types are within their limits. It does nothing.
fn types_fit(types: &[StatedType])
    ensures { AllByRecursion IsStatedType types.now }
{
    for ty in types {
        type_fits(*ty);
    }
}

/// Whether a state's pc is at least `least`, and the counts of its locals and operands are within their limits.
fn is_state_from(state: &StateRow, least: u32) -> bool
    ensures { IsTrue result ↔ ((least ≤ state.now.pc) × IsStated (stated state.now)) }
{
    types_fit(&state.locals);
    types_fit(&state.operands);
    least <= u32::from(state.pc) && state.locals.len() <= 65_535 && state.operands.len() <= 255
}

/// Whether states are in order, by strictly ascending pc.
fn are_states(states: &[StateRow]) -> bool
    ensures { IsTrue result ↔
        (AllByRecursion IsStated (map stated states.now) × PcsAscend 0 (map stated states.now)) }
{
    let mut least = 0u32;
    for state in states {
        if !is_state_from(state, least) {
            return false;
        }
        least = u32::from(state.pc) + 1;
    }
    true
}

/// Whether a row's offset is at least `least`, and it has at least one state, all in order.
fn is_row_from(method: &MethodStates, least: u32) -> bool
    ensures { IsTrue result ↔ ((least ≤ method.now.offset) × IsRow (row method.now)) }
{
    let count = method.states.len();
    least <= u32::from(method.offset) && 1 <= count && count <= 65_535 && are_states(&method.states)
}

/// Whether rows are in order, by strictly ascending offset.
fn are_rows(methods: &[MethodStates]) -> bool
    ensures { IsTrue result ↔
        (AllByRecursion IsRow (rows methods.now) × OffsetsAscend 0 (rows methods.now)) }
{
    let mut least = 0u32;
    for method in methods {
        if !is_row_from(method, least) {
            return false;
        }
        least = u32::from(method.offset) + 1;
    }
    true
}

/// Whether rows are a certificate.
pub(crate) fn is_cert(methods: &[MethodStates]) -> bool
    ensures { IsTrue result ↔ IsCert (rows methods.now) }
{
    methods.len() <= 65_535 && are_rows(methods)
}
