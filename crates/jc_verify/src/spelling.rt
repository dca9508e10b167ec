//! States what places hold as rows of a certificate, with the names of classes.

ghost use Rattle.std.specs.Prelude.{◌≡◌, ◌<◌, ◌≤◌, ◌+◌, ◌++◌, [], ◌∷◌, ℕ, Some, length, map, vec_len, vec_capacity};
ghost use Rattle.std.specs.Prelude.{IfErr, IfNone, IfOk, IfSome};
ghost use Rattle.std.specs.List.{AllByRecursion};
ghost use Rattle.jc_base.specs.declared.reason.Reason.{Reason};
ghost use Rattle.jc_cert.specs.Cert.{IsSpelledClass, IsStatedType, stated};
ghost use Rattle.jc_check.specs.Claim.{type_claimed, types_claimed};
ghost use Rattle.jc_check.specs.Package.{class_of_name};
ghost use Rattle.jc_link.specs.Built.{IsBuilt};
ghost use Rattle.jc_check.specs.declared.fault.WordFault.TheVariants.{Refused};
ghost use Rattle.jc_verify.specs.PrivateFlow.{Places};
ghost use Rattle.jc_verify.specs.PrivateNames.{HasName, HasNames, HasUnnamed, IsUnnamedPlace, TypeHasName};
ghost use Rattle.jc_verify.specs.PrivateStated.{AreStateRows, IsStateRow};

use crate::place::Place;
use jc_base::Reason;
use jc_cert::{SpelledClass, StateRow, StatedType};
use jc_check::{WordFault, name_of_class};
use jc_classes::ClassTable;
use jc_names::ClassName;
use jc_types::{State, Ty};
use std::alloc::{AllocError, Global};

/// Returns a class's name unchanged. The contract says that its offset and its AID fit.
fn fitting(name: SpelledClass) -> SpelledClass
    ensures same { result ≡ name }
    ensures fits { IsSpelledClass name }
{
    match name {
        SpelledClass::Other { package, .. } => {
            // Called for its contract: how long an AID is.
            package.len();
        }
        SpelledClass::Own { .. } | SpelledClass::Api(_) => {}
    }
    name
}

/// The name of a class in a certificate of a world's last package; an interface has none.
fn spelled_class(table: &ClassTable, class: ClassName) -> Option<SpelledClass>
    requires built { IsBuilt table.now }
    ensures named { IfSome result (λ name. class_of_name table.now name ≡ Some class) }
    ensures fits { IfSome result IsSpelledClass }
    ensures none { IfNone result (HasName table.now class → ⊥) }
{
    let name = name_of_class(table, class)?;
    Some(fitting(name))
}

/// A type as a certificate states it, if its class has a name.
fn stated_type(table: &ClassTable, ty: Ty) -> Option<StatedType>
    requires built { IsBuilt table.now }
    ensures stated { IfSome result (λ stated. type_claimed (class_of_name table.now) stated ≡ Some ty) }
    ensures fits { IfSome result IsStatedType }
    ensures none { IfNone result (TypeHasName table.now ty → ⊥) }
{
    match ty {
        Ty::Top => Some(StatedType::Top),
        Ty::Word => Some(StatedType::Word),
        Ty::Null => Some(StatedType::Null),
        Ty::Class(class) => Some(StatedType::Class(spelled_class(table, class)?)),
        Ty::BooleanArray => Some(StatedType::BooleanArray),
        Ty::ByteArray => Some(StatedType::ByteArray),
        Ty::ShortArray => Some(StatedType::ShortArray),
        Ty::ReferenceArray(class) => {
            Some(StatedType::ReferenceArray(spelled_class(table, class)?))
        }
    }
}

/// Types as a certificate states them, if all their classes have names.
fn stated_types(
    alloc: Global,
    table: &ClassTable,
    types: &[Ty],
) -> Result<Option<Vec<StatedType>>, AllocError>
    requires built { IsBuilt table.now }
    ensures claimed { IfOk result (λ o. IfSome o (λ stated. types_claimed (class_of_name table.now) stated.items
        ≡ Some types.now)) }
    ensures fit { IfOk result (λ o. IfSome o (λ stated. AllByRecursion IsStatedType stated.items)) }
    ensures len { IfOk result (λ o. IfSome o (λ stated. length stated.items ≡ length types.now)) }
    ensures none { IfOk result (λ o. IfNone o (AllByRecursion (TypeHasName table.now) types.now → ⊥)) }
    ensures room { IfOk result (λ o. IfSome o (λ stated. length types.now ≤ vec_capacity stated)) }
{
    let mut stated = Vec::with_capacity(alloc, types.len())?;
    for index in 0..types.len() {
        let Some(ty) = stated_type(table, types[index]) else {
            return Ok(None);
        };
        stated.extend_from_slice(&[ty])?;
    }
    Ok(Some(stated))
}

/// The row for what a place holds, if all its classes have names.
fn stated_row(
    alloc: Global,
    table: &ClassTable,
    pc: u16,
    held: &State,
) -> Result<Option<StateRow>, AllocError>
    requires built { IsBuilt table.now }
    ensures row { IfOk result (λ o. IfSome o (λ row.
        IsStateRow (class_of_name table.now) pc held.now.types (stated row))) }
    ensures none { IfOk result (λ o. IfNone o (HasNames table.now held.now.types → ⊥)) }
{
    let Some(locals) = stated_types(alloc, table, held.locals())? else {
        return Ok(None);
    };
    let Some(operands) = stated_types(alloc, table, held.operands())? else {
        return Ok(None);
    };
    Ok(Some(StateRow {
        pc,
        locals,
        operands,
    }))
}

/// The rows for what places hold. Refuses the first place with a class without a name.
pub(crate) fn stated_rows(
    alloc: Global,
    table: &ClassTable,
    places: &[Place<State>],
) -> Result<Vec<StateRow>, WordFault>
    requires built { IsBuilt table.now }
    ensures rows { IfOk result (λ rows. AreStateRows (class_of_name table.now) places.now (map stated rows.items)) }
    ensures refused { IfErr result (λ fault. (pc : ℕ) (reason : Reason) → fault ≡ Refused pc reason
        → HasUnnamed table.now places.now) }
    ensures room { IfOk result (λ rows. vec_capacity rows ≡ length places.now) }
{
    let mut rows = Vec::with_capacity(alloc, places.len())?;
    for index in 0..places.len() {
        put_row(alloc, table, &places[index], &mut rows)?;
    }
    Ok(rows)
}

/// Appends the row for what a place holds, if it holds something.
fn put_row(
    alloc: Global,
    table: &ClassTable,
    place: &Place<State>,
    rows: &mut Vec<StateRow>,
) -> Result<(), WordFault>
    requires built { IsBuilt table.now }
    requires room { vec_len rows.old < vec_capacity rows.old }
    ensures rows { IfOk result (λ u. (places : Places)
        → AreStateRows (class_of_name table.now) places (map stated rows.old.items)
        → AreStateRows (class_of_name table.now) (places ++ place.now ∷ []) (map stated rows.new.items)) }
    ensures refused { IfErr result (λ fault. (pc : ℕ) (reason : Reason) → fault ≡ Refused pc reason
        → IsUnnamedPlace table.now place.now) }
    ensures len { vec_len rows.new ≤ vec_len rows.old + 1 }
    ensures capacity { vec_capacity rows.new ≡ vec_capacity rows.old }
{
    match &place.held {
        None => Ok(()),
        Some(held) => match stated_row(alloc, table, place.pc, held)? {
            Some(row) => {
                rows.push_reserved(row);
                Ok(())
            }
            None => Err(WordFault::Refused {
                pc: place.pc,
                reason: Reason::CertMismatch,
            }),
        },
    }
}
