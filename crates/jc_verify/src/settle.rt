//! Follows control flow from the places that have changed, up to the fixpoint.

ghost use Rattle.std.specs.Prelude.{◌≡◌, ◌⊎◌, ◌<◌, ◌≤◌, ℕ, true, false, Some, None, length, slice_get};
ghost use Rattle.std.specs.Prelude.{IfErr, IfNone, IfOk, IfSome};
ghost use Rattle.jc_types.specs.State.{StateWithRoom};
ghost use Rattle.jc_check.specs.Method.{entry_of};
ghost use Rattle.jc_verify.specs.PrivateFlow.{IsUpper, types_held};
ghost use Rattle.jc_verify.specs.PrivateSettled.{HasSettled, IsEntryMet, IsFilled, IsFollowed, IsSettled, IsSwept};
ghost use Rattle.jc_verify.specs.PrivateSettled.{settled_place};
ghost use Rattle.jc_verify.specs.PrivateTurns.{IsCounted, in_all, owed_of};
ghost use Rattle.jc_verify.specs.PrivateWork.{Anything, HasTaken, HaveRoom, IsAtWork, IsBlank, IsDenial};
ghost use Rattle.jc_verify.specs.declared.place.Place.{Place as PlaceOf};

use crate::flow::{MethodFlow, flow_to, follow, told_at};
use crate::place::Place;
use jc_check::WordFault;
use jc_types::State;

/// Loads what a place holds into a state. Returns false if it holds nothing.
fn load_held(place: &Place<State>, state: &mut State) -> bool
    requires fits { (s : StateWithRoom) → place.now.held ≡ Some s
        → (length s.types.locals ≡ length state.old.types.locals) × (length s.types.operands ≤ state.old.room) }
    ensures held { result ≡ true → types_held place.now ≡ Some state.new.types }
    ensures none { result ≡ false → types_held place.now ≡ None }
    ensures room { state.new.room ≡ state.old.room }
    ensures locals { length state.new.types.locals ≡ length state.old.types.locals }
{
    match &place.held {
        Some(held) => {
            state.load(held.locals(), held.operands());
            true
        }
        None => false,
    }
}

/// If a place has changed, marks it as unchanged, loads what it holds into a state, and returns its pc.
fn take_up(place: &mut Place<State>, state: &mut State) -> Option<u16>
    requires fits { (s : StateWithRoom) → place.old.held ≡ Some s
        → (length s.types.locals ≡ length state.old.types.locals) × (length s.types.operands ≤ state.old.room) }
    ensures taken { IfSome result (λ pc. (place.old.pc ≡ pc) × (place.new ≡ settled_place place.old)
        × (types_held place.old ≡ Some state.new.types)) }
    ensures changed { IfSome result (λ pc. place.old.changed ≡ true) }
    ensures left { IfNone result ((place.new ≡ place.old × (place.old.changed ≡ false))
        ⊎ (place.new ≡ settled_place place.old × (types_held place.old ≡ None))) }
    ensures room { state.new.room ≡ state.old.room }
    ensures locals { length state.new.types.locals ≡ length state.old.types.locals }
{
    if !place.changed {
        return None;
    }
    place.changed = false;
    if load_held(place, state) {
        Some(place.pc)
    } else {
        None
    }
}

/// Follows control flow from the place with this number, if it has changed.
fn follow_place(
    flow: &MethodFlow,
    places: &mut [Place<State>],
    caught: &mut State,
    state: &mut State,
    followed: &mut u64,
    number: usize,
) -> Result<(), WordFault>
    requires work { IsAtWork flow.now places.old }
    requires room { HaveRoom flow.now caught.old state.old }
    requires there { number < length places.old }
    ensures followed { IfOk result (λ u.
        IsFollowed flow.now.linked.now flow.now.method.now flow.now.numbers.now number places.old places.new) }
    ensures counted { IfOk result (λ u.
        IsCounted flow.now.linked.now 0 places.old places.new followed.old followed.new) }
    ensures room { IfOk result (λ u. HaveRoom flow.now caught.new state.new) }
    ensures refused { IfErr result (IsDenial flow.now Anything places.old) }
{
    match take_up(&mut places[number], state) {
        Some(start) => follow(flow, places, caught, state, followed, start),
        None => Ok(()),
    }
}

/// Follows control flow from each place that has changed, by ascending pc.
fn sweep_forwards(
    flow: &MethodFlow,
    places: &mut [Place<State>],
    caught: &mut State,
    state: &mut State,
    followed: &mut u64,
) -> Result<(), WordFault>
    requires work { IsAtWork flow.now places.old }
    requires room { HaveRoom flow.now caught.old state.old }
    ensures swept { IfOk result (λ u. IsSwept flow.now.linked.now flow.now.method.now flow.now.numbers.now 0
        (length places.new) places.old places.new) }
    ensures counted { IfOk result (λ u.
        IsCounted flow.now.linked.now 0 places.old places.new followed.old followed.new) }
    ensures room { IfOk result (λ u. HaveRoom flow.now caught.new state.new) }
    ensures refused { IfErr result (IsDenial flow.now Anything places.old) }
{
    for number in 0..places.len() {
        follow_place(flow, places, caught, state, followed, number)?;
    }
    Ok(())
}

/// Follows control flow from each place that has changed, by descending pc.
fn sweep_backwards(
    flow: &MethodFlow,
    places: &mut [Place<State>],
    caught: &mut State,
    state: &mut State,
    followed: &mut u64,
) -> Result<(), WordFault>
    requires work { IsAtWork flow.now places.old }
    requires room { HaveRoom flow.now caught.old state.old }
    ensures swept { IfOk result (λ u. IsSwept flow.now.linked.now flow.now.method.now flow.now.numbers.now 0
        (length places.new) places.old places.new) }
    ensures counted { IfOk result (λ u.
        IsCounted flow.now.linked.now 0 places.old places.new followed.old followed.new) }
    ensures room { IfOk result (λ u. HaveRoom flow.now caught.new state.new) }
    ensures refused { IfErr result (IsDenial flow.now Anything places.old) }
{
    let mut number = places.len();
    while number > 0 {
        number -= 1;
        follow_place(flow, places, caught, state, followed, number)?;
    }
    Ok(())
}

/// Whether some place has changed.
fn has_changed(places: &[Place<State>]) -> bool
    ensures some { result ≡ true
        → (n : ℕ) × (p : PlaceOf StateWithRoom) × (slice_get places.now n ≡ Some p) × (p.changed ≡ true) }
    ensures none { result ≡ false → (n : ℕ) (p : PlaceOf StateWithRoom) → slice_get places.now n ≡ Some p
        → p.changed ≡ false }
{
    for number in 0..places.len() {
        if places[number].changed {
            return true;
        }
    }
    false
}

/// Sweeps forwards and backwards until no place has changed.
fn settle(
    flow: &MethodFlow,
    places: &mut [Place<State>],
    caught: &mut State,
    state: &mut State,
    followed: &mut u64,
) -> Result<(), WordFault>
    requires work { IsAtWork flow.now places.old }
    requires settled { IsSettled flow.now.linked.now flow.now.method.now flow.now.numbers.now places.old }
    requires room { HaveRoom flow.now caught.old state.old }
    ensures settled { IfOk result (λ u. HasSettled flow.now places.old places.new) }
    ensures done { IfOk result (λ u. in_all owed_of places.new ≡ 0) }
    ensures counted { IfOk result (λ u.
        IsCounted flow.now.linked.now 0 places.old places.new followed.old followed.new) }
    ensures refused { IfErr result (IsDenial flow.now Anything places.old) }
{
    loop {
        sweep_forwards(flow, places, caught, state, followed)?;
        sweep_backwards(flow, places, caught, state, followed)?;
        if !has_changed(places) {
            return Ok(());
        }
    }
}

/// Passes the entry state to pc 0, and follows control flow from there if there is no place.
fn enter(
    flow: &MethodFlow,
    places: &mut [Place<State>],
    caught: &mut State,
    state: &mut State,
    followed: &mut u64,
) -> Result<(), WordFault>
    requires blank { IsBlank flow.now places.old }
    requires room { HaveRoom flow.now caught.old state.old }
    requires entry { state.old.types ≡ entry_of flow.now.method.now }
    ensures taken { IfOk result (λ u. HasTaken flow.now
        (IsEntryMet flow.now.linked.now flow.now.method.now flow.now.numbers.now)
        (IsUpper flow.now.linked.now flow.now.method.now) places.old places.new) }
    ensures counted { IfOk result (λ u.
        IsCounted flow.now.linked.now 1 places.old places.new followed.old followed.new) }
    ensures room { IfOk result (λ u. HaveRoom flow.now caught.new state.new) }
    ensures refused { IfErr result (IsDenial flow.now Anything places.old) }
{
    match flow_to(flow, places, 0, state) {
        Ok(true) => follow(flow, places, caught, state, followed, 0),
        Ok(false) => Ok(()),
        Err(stop) => Err(told_at(0, stop)),
    }
}

/// Fills the places, which hold nothing yet: follows control flow from the entry, and then from places up to the
/// fixpoint.
pub(crate) fn fill(
    flow: &MethodFlow,
    places: &mut [Place<State>],
    followed: &mut u64,
) -> Result<(), WordFault>
    requires blank { IsBlank flow.now places.old }
    ensures filled { IfOk result (λ u.
        IsFilled flow.now.linked.now flow.now.method.now flow.now.numbers.now places.old places.new) }
    ensures done { IfOk result (λ u. in_all owed_of places.new ≡ 0) }
    ensures counted { IfOk result (λ u.
        IsCounted flow.now.linked.now 1 places.old places.new followed.old followed.new) }
    ensures refused { IfErr result (IsDenial flow.now Anything places.old) }
{
    let method = flow.method;
    let mut state = State::entry(
        flow.alloc,
        &method.arguments,
        method.max_locals,
        method.max_stack,
    )?;
    let mut caught = State::entry(
        flow.alloc,
        &method.arguments,
        method.max_locals,
        method.max_stack,
    )?;
    enter(flow, places, &mut caught, &mut state, followed)?;
    settle(flow, places, &mut caught, &mut state, followed)
}
