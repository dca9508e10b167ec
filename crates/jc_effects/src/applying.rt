//! Applying a row to a state.

ghost use Rattle.std.specs.Prelude.{◌≡◌, ◌≤◌, ◌<◌, ◌+◌, true, Some, None, length, nat_lt, if◌then◌else◌};
ghost use Rattle.jc_types.specs.Changes.{Became};
ghost use Rattle.jc_effects.specs.Coded.{row_said};
ghost use Rattle.jc_effects.specs.Row as rows;

use crate::demands::{Wanted, count_of, given_type, local_meets};
use crate::row::{Given, LocalDemand};
use jc_base::Reason;
use jc_types::{ClassOrder, State, Ty};

/// The effect of an instruction on types.
#[derive(Clone, Copy)]
pub struct Row<'a> {
    /// The local that it reads or writes, and the demand on it.
    pub local: LocalDemand,
    /// The demands on the operands that it takes.
    pub operands: Wanted<'a>,
    /// Whether its other conditions hold.
    pub fits: bool,
    /// What it writes to that local.
    pub written: Given,
    /// What it pushes.
    pub pushed: Given,
}

/// The type of the row's local, if the local exists; Top if the row has no local.
#[inline(always)]
fn local_of(place: LocalDemand, state: &State) -> Option<Ty>
    ensures { result ≡ (if rows.has_local place state.now.types.locals
        then Some (rows.local_of place state.now.types.locals) else None) }
{
    match place {
        LocalDemand::Nowhere => Some(Ty::Top),
        LocalDemand::At { index, .. } => state.local_type(index),
    }
}

/// Sets the type of the row's local, if the row writes one.
#[inline(always)]
fn put_in(place: LocalDemand, given: Given, ty: Ty, state: &mut State)
    requires { rows.has_local place state.old.types.locals ≡ true }
    ensures locals { state.new.types.locals ≡ rows.put_in place given ty state.old.types.locals }
    ensures operands { state.new.types.operands ≡ state.old.types.operands }
    ensures room { state.new.room ≡ state.old.room }
    ensures count { length state.new.types.locals ≡ length state.old.types.locals }
{
    match place {
        LocalDemand::Nowhere => {}
        LocalDemand::At { index, .. } => {
            if 0 < count_of(given) {
                state.put_local(index, ty);
            }
        }
    }
}

/// Pushes a type, if one is given.
#[inline(always)]
fn put_on(given: Given, ty: Ty, state: &mut State)
    requires { length state.old.types.operands + rows.count_of given ≤ state.old.room }
    ensures locals { state.new.types.locals ≡ state.old.types.locals }
    ensures operands { state.new.types.operands ≡ rows.put_on given ty state.old.types.operands }
    ensures room { state.new.room ≡ state.old.room }
{
    if 0 < count_of(given) {
        state.put(ty);
    }
}

/// Whether pushing onto this many operands exceeds the method's maximum.
#[inline(always)]
fn overflows(operands: usize, given: Given, max_stack: u8) -> bool
    ensures { result ≡ nat_lt max_stack (operands + rows.count_of given) }
{
    match given {
        Given::Nothing => usize::from(max_stack) < operands,
        Given::Exactly(_) | Given::OfLocal | Given::OfOperand(_) | Given::ComponentOf(_) => {
            usize::from(max_stack) <= operands
        }
    }
}

/// Applies a row to a state, in a method of at most `max_stack` operands, or reports the first reason against it, in
/// the order of `applied`. After a reason the state mustn't be used.
#[tactic(auto, unfolding(crate::specs::Row::applied, crate::specs::Row::after))]
#[inline(always)]
pub fn apply<C: ClassOrder>(
    row: Row<'_>,
    state: &mut State,
    max_stack: u8,
    classes: &C,
) -> Result<(), Reason>
    requires { max_stack ≤ state.old.room }
    ensures became { Became result state.new.types
        (rows.applied (C.lies_below classes.now) max_stack (Some (row_said row.entry)) state.old.types) }
    ensures room { state.new.room ≡ state.old.room }
    ensures locals { length state.new.types.locals ≡ length state.old.types.locals }
{
    let Some(local) = local_of(row.local, state) else {
        return Err(Reason::BadLocal);
    };
    let count = row.operands.len();
    let depth = state.depth();
    if depth < count {
        return Err(Reason::StackUnder);
    }
    let taken = state.top(count);
    if !(row.fits
        && local_meets(row.local, local, classes)
        && row.operands.are_met(taken, classes))
    {
        return Err(Reason::WrongType);
    }
    let written = given_type(row.written, local, taken);
    let pushed = given_type(row.pushed, local, taken);
    if overflows(depth - count, row.pushed, max_stack) {
        return Err(Reason::StackOver);
    }
    put_in(row.local, row.written, written, state);
    state.drop_operands(count);
    put_on(row.pushed, pushed, state);
    Ok(())
}
