//! The claim of a certificate for a place, with its classes resolved.

ghost use Rattle.std.specs.Prelude.{◌≡◌, option_map, length, vec_capacity, IfOk, IfSome};
ghost use Rattle.jc_cert.specs.Cert.{stated};
ghost use Rattle.jc_check.specs.Claim.{type_claimed, types_claimed};

use crate::rules::CheckRules;
use jc_cert::StatedType;
use jc_types::Ty;
use std::alloc::{AllocError, Global};
use std::marker::Model;

/// The types at a pc, the operands bottom first.
#[derive(Drop)]
pub(crate) struct Claim {
    pub(crate) pc: u16,
    pub(crate) locals: Vec<Ty>,
    pub(crate) operands: Vec<Ty>,
}

impl Model for Claim {
    ghost use Rattle.jc_check.specs.Claim.{Claim};

    ghost Value = { Claim };

    ghost view = { λ c. record { pc = c.pc; locals = c.locals.items; operands = c.operands.items } };
}

fn type_found<R: CheckRules>(rules: &R, ty: StatedType) -> Option<Ty>
    ensures { result ≡ type_claimed (R.rules rules.now).class_of ty }
{
    match ty {
        StatedType::Top => Some(Ty::Top),
        StatedType::Word => Some(Ty::Word),
        StatedType::Null => Some(Ty::Null),
        StatedType::Class(name) => Some(Ty::Class(rules.class_of(name)?)),
        StatedType::BooleanArray => Some(Ty::BooleanArray),
        StatedType::ByteArray => Some(Ty::ByteArray),
        StatedType::ShortArray => Some(Ty::ShortArray),
        StatedType::ReferenceArray(name) => Some(Ty::ReferenceArray(rules.class_of(name)?)),
    }
}

/// The types that are stated, if all their classes resolve.
pub(crate) fn types_found<R: CheckRules>(
    alloc: Global,
    rules: &R,
    types: &[StatedType],
) -> Result<Option<Vec<Ty>>, AllocError>
    ensures claimed { IfOk result (λ found. option_map (λ types. types.items) found
        ≡ types_claimed (R.rules rules.now).class_of types.now) }
    ensures room { IfOk result (λ found. IfSome found (λ found. vec_capacity found ≡ length types.now)) }
{
    let mut found = Vec::with_capacity(alloc, types.len())?;
    for index in 0..types.len() {
        let Some(ty) = type_found(rules, types[index]) else {
            return Ok(None);
        };
        found.push_reserved(ty);
    }
    Ok(Some(found))
}
