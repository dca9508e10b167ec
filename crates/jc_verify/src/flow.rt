//! Follows control flow through a method.

ghost use Rattle.std.specs.Prelude.{◌≡◌, ◌+◌, ◌<◌, ◌≤◌, ℤ, true, Some, Ok, length, Contains, slice_get};
ghost use Rattle.std.specs.Prelude.{IfOk, IfErr, IfNone, IfSome};
ghost use Rattle.std.specs.Io.Iter.{u64_saturate};
ghost use Rattle.std.specs.List.{AllByRecursion};
ghost use Rattle.jc_code.specs.Targets.{targets_of};
ghost use Rattle.jc_types.specs.Changes.{Became};
ghost use Rattle.jc_types.specs.PrivateRanges.{AgreeOutside};
ghost use Rattle.jc_check.specs.Method.{caught_types};
ghost use Rattle.jc_check.specs.Package.{package_rules};
ghost use Rattle.jc_verify.specs.PrivateFlow.{HasRoom, number_at, placed};
ghost use Rattle.jc_verify.specs.PrivateSeen.{HasSeen, HaveSeen, StillHolds};
ghost use Rattle.jc_verify.specs.PrivateStop.{fault_at, stop_of};
ghost use Rattle.jc_verify.specs.PrivateTold.{IsUncaught, IsUncaughtAt, IsUnled};
ghost use Rattle.jc_verify.specs.PrivateWork.{Bears, Branches, BranchesAll, ClosedFrom, Falls, FlowsIn, FlowsInto};
ghost use Rattle.jc_verify.specs.PrivateWork.{FlowsTo, Handles, HandlesAll, HasTaken, HasTakenIn, HasVisited, HaveRoom};
ghost use Rattle.jc_verify.specs.PrivateWork.{IsAtWork, IsBranchsWay, IsDecodedAt, IsDenial, IsHandlersWay, IsToldAt};
ghost use Rattle.jc_verify.specs.PrivateWork.{LeadsInto, LeadsTo, MeetsHeld, MeetsHeldBy, Refuses, StandsAt};

use crate::place::{NotTaken, Place, take_in};
use crate::seen::TakenLocals;
use crate::stop::Stop;
use jc_base::Reason;
use jc_check::{CheckedHandler, CheckedMethod, WordFault};
use jc_code::{Instr, Targets, decode, listing_laws};
use jc_effects::{Setting, transfer_in};
use jc_link::Linked;
use jc_names::ClassName;
use jc_types::{LocalRange, State, Ty, are_below_within};
use std::alloc::Global;

/// The fault at an instruction at which control flow stops.
pub(crate) fn told_at(pc: u16, stop: Stop) -> WordFault
    ensures { result ≡ fault_at pc stop }
{
    match stop {
        Stop::Refused(reason) => WordFault::Refused { pc, reason },
        Stop::Memory => WordFault::Memory,
    }
}

/// The package, the method, and the numbers of its places by pc.
#[derive(Drop)]
pub(crate) struct MethodFlow<'f, 'm> {
    pub(crate) alloc: Global,
    pub(crate) linked: &'f Linked,
    pub(crate) method: &'f CheckedMethod<'m>,
    pub(crate) numbers: &'f [Option<u16>],
}

/// The number of the place at a pc, if there is one.
pub(crate) fn number_at(numbers: &[Option<u16>], pc: usize) -> Option<u16>
    ensures { result ≡ number_at numbers.now pc }
{
    if pc < numbers.len() {
        numbers[pc]
    } else {
        None
    }
}

/// Joins a state into the place with this number.
fn arrive(
    flow: &MethodFlow,
    places: &mut [Place<State>],
    number: usize,
    state: &State,
) -> Result<(), NotTaken>
    requires work { IsAtWork flow.now places.old }
    requires flows { FlowsInto flow.now places.old number state.now.types }
    requires room { HasRoom flow.now.method.now state.now }
    ensures taken { IfOk result (λ u.
        HasTakenIn flow.now (LeadsInto flow.now number state.now.types) places.old places.new) }
    ensures refused { IfErr result (λ why. Refuses flow.now (LeadsInto flow.now number state.now.types)
        (MeetsHeldBy flow.now places.old number state.now.types) places.old (stop_of why)) }
{
    // Called for its contract: a state has no more operands than room.
    let _depth = state.depth();
    let linked = flow.linked;
    take_in(flow.alloc, &mut places[number], state, linked.table())
}

/// Joins a state into the place at a pc. Returns true if there is no place: control flow has to be followed there.
pub(crate) fn flow_to(
    flow: &MethodFlow,
    places: &mut [Place<State>],
    pc: usize,
    state: &State,
) -> Result<bool, Stop>
    requires work { IsAtWork flow.now places.old }
    requires flows { FlowsTo flow.now pc state.now.types }
    requires room { HasRoom flow.now.method.now state.now }
    ensures taken { IfOk result (λ on. HasTaken flow.now (Falls flow.now on pc state.now.types)
        (LeadsTo flow.now pc state.now.types) places.old places.new) }
    ensures refused { IfErr result (Refuses flow.now (LeadsTo flow.now pc state.now.types)
        (MeetsHeld flow.now places.old pc state.now.types) places.old) }
{
    match number_at(flow.numbers, pc) {
        Some(number) => {
            arrive(flow, places, usize::from(number), state)?;
            Ok(false)
        }
        None => Ok(true),
    }
}

/// Passes the state's locals to a handler's entry point, with the caught class as the only operand.
fn catch_at(
    flow: &MethodFlow,
    places: &mut [Place<State>],
    caught: &mut State,
    state: &State,
    goes_on: u16,
    class: ClassName,
) -> Result<(), Stop>
    requires work { IsAtWork flow.now places.old }
    requires flows { FlowsIn flow.now goes_on (caught_types class state.now.types) }
    requires room { HaveRoom flow.now caught.old state.now }
    ensures caught { HasRoom flow.now.method.now caught.new }
    ensures taken { IfOk result (λ u.
        HasTakenIn flow.now (LeadsTo flow.now goes_on (caught_types class state.now.types)) places.old places.new) }
    ensures refused { IfErr result (Refuses flow.now (LeadsTo flow.now goes_on (caught_types class state.now.types))
        (IsUncaughtAt flow.now.linked.now flow.now.method.now goes_on (caught_types class state.now.types))
        places.old) }
{
    let method = flow.method;
    if method.max_stack == 0 {
        return Err(Stop::Refused(Reason::CertMismatch));
    }
    caught.load(state.locals(), &[Ty::Class(class)]);
    flow_to(flow, places, usize::from(goes_on), caught)?;
    Ok(())
}

/// Whether the place at a handler's entry point holds types above these locals in the range. Locals outside of the
/// range aren't compared.
fn still_holds(
    flow: &MethodFlow,
    places: &[Place<State>],
    goes_on: u16,
    range: LocalRange,
    locals: &[Ty],
) -> bool
    requires work { IsAtWork flow.now places.now }
    requires ordered { range.first ≤ range.behind }
    requires within { range.behind ≤ length locals.now }
    ensures { result ≡ true → StillHolds flow.now places.now goes_on range locals.now }
{
    let Some(number) = number_at(flow.numbers, usize::from(goes_on)) else {
        return false;
    };
    let linked = flow.linked;
    match &places[usize::from(number)].held {
        Some(held) => are_below_within(locals, held.locals(), range, linked.table()),
        None => false,
    }
}

/// If a handler covers an instruction, passes the state before it, with the caught class, to the handler's entry point.
/// If the handler covers the instruction seen last, only locals in the range need a comparison.
fn handle(
    flow: &MethodFlow,
    places: &mut [Place<State>],
    caught: &mut State,
    seen: &TakenLocals,
    range: LocalRange,
    state: &State,
    pc: u16,
    handler: &CheckedHandler,
) -> Result<(), Stop>
    requires work { IsAtWork flow.now places.old }
    requires way { IsHandlersWay flow.now pc state.now.types handler.now }
    requires room { HaveRoom flow.now caught.old state.now }
    requires seen { HasSeen flow.now places.old seen.now handler.now }
    requires ordered { range.first ≤ range.behind }
    requires within { range.behind ≤ length state.now.types.locals }
    requires agree { length seen.now.locals.items ≡ length state.now.types.locals
        → AgreeOutside range seen.now.locals.items state.now.types.locals }
    ensures caught { HasRoom flow.now.method.now caught.new }
    ensures taken { IfOk result (λ u.
        HasTakenIn flow.now (Handles flow.now pc state.now.types handler.now) places.old places.new) }
    ensures refused { IfErr result (Refuses flow.now (Handles flow.now pc state.now.types handler.now)
        (IsUncaught flow.now.linked.now flow.now.method.now (λ h. h ≡ handler.now) pc state.now.types) places.old) }
{
    if !handler.covers(pc) {
        return Ok(());
    }
    if seen.was_covered(handler)
        && still_holds(flow, places, handler.goes_on, range, state.locals())
    {
        return Ok(());
    }
    match handler.caught {
        Some(class) => catch_at(flow, places, caught, state, handler.goes_on, class),
        None => Err(Stop::Refused(Reason::CertMismatch)),
    }
}

/// Passes the state to each handler that covers the pc, and notes its locals as seen.
fn handle_all(
    flow: &MethodFlow,
    places: &mut [Place<State>],
    caught: &mut State,
    seen: &mut TakenLocals,
    state: &State,
    pc: u16,
) -> Result<(), Stop>
    requires work { IsAtWork flow.now places.old }
    requires ways { AllByRecursion (IsHandlersWay flow.now pc state.now.types) flow.now.method.now.handlers }
    requires room { HaveRoom flow.now caught.old state.now }
    requires seen { HaveSeen flow.now places.old seen.old }
    ensures caught { HasRoom flow.now.method.now caught.new }
    ensures taken { IfOk result (λ u.
        HasTakenIn flow.now (HandlesAll flow.now pc state.now.types) places.old places.new) }
    ensures seen { IfOk result (λ u. HaveSeen flow.now places.new seen.new) }
    ensures refused { IfErr result (Refuses flow.now (HandlesAll flow.now pc state.now.types)
        (IsUncaught flow.now.linked.now flow.now.method.now (Contains flow.now.method.now.handlers) pc
        state.now.types) places.old) }
{
    let handlers = flow.method.handlers();
    if handlers.is_empty() {
        return Ok(());
    }
    let range = seen.changed(state.locals());
    for index in 0..handlers.len() {
        handle(
            flow,
            places,
            caught,
            seen,
            range,
            state,
            pc,
            &handlers[index],
        )?;
    }
    seen.note(pc, state.locals())?;
    Ok(())
}

/// Passes the state to the target of the branch with this index.
fn branch_to(
    flow: &MethodFlow,
    places: &mut [Place<State>],
    state: &State,
    targets: &Targets,
    index: usize,
) -> Result<(), Stop>
    requires work { IsAtWork flow.now places.old }
    requires way { (place : ℤ) → slice_get targets.now index ≡ Some place
        → IsBranchsWay flow.now state.now.types place }
    requires room { HasRoom flow.now.method.now state.now }
    requires index { index < length targets.now }
    ensures taken { IfOk result (λ u.
        HasTakenIn flow.now (Branches flow.now targets.now index state.now.types) places.old places.new) }
    ensures refused { IfErr result (Refuses flow.now (Branches flow.now targets.now index state.now.types)
        (IsUnled flow.now.linked.now flow.now.method.now (λ place. slice_get targets.now index ≡ Some place)
        state.now.types) places.old) }
{
    let target = targets.get(index).unwrap();
    if target < 0 {
        return Err(Stop::Refused(Reason::NoTarget));
    }
    flow_to(flow, places, target.unsigned_abs() as usize, state)?;
    Ok(())
}

/// Passes the state to the targets of an instruction's branches.
fn branch_all(
    flow: &MethodFlow,
    places: &mut [Place<State>],
    state: &State,
    pc: u16,
    instr: &Instr,
) -> Result<(), Stop>
    requires work { IsAtWork flow.now places.old }
    requires ways { AllByRecursion (IsBranchsWay flow.now state.now.types) (targets_of pc instr.now.operation) }
    requires room { HasRoom flow.now.method.now state.now }
    ensures taken { IfOk result (λ u. HasTakenIn flow.now
        (BranchesAll flow.now (targets_of pc instr.now.operation) state.now.types) places.old places.new) }
    ensures refused { IfErr result (Refuses flow.now
        (BranchesAll flow.now (targets_of pc instr.now.operation) state.now.types)
        (IsUnled flow.now.linked.now flow.now.method.now (Contains (targets_of pc instr.now.operation))
        state.now.types) places.old) }
{
    let targets = instr.targets(pc);
    for index in 0..targets.len() {
        branch_to(flow, places, state, &targets, index)?;
    }
    Ok(())
}

/// Replaces the types before an instruction by those after it.
fn take_effect(flow: &MethodFlow, state: &mut State, instr: &Instr) -> Result<(), Reason>
    requires room { HasRoom flow.now.method.now state.old }
    ensures became { Became result state.new.types ((package_rules flow.now.linked.now).effect
        flow.now.method.now.max_stack flow.now.method.now.returned instr.now.operation state.old.types) }
    ensures room { HasRoom flow.now.method.now state.new }
{
    let method = flow.method;
    let setting = Setting::new(flow.linked, method.returned);
    transfer_in(&instr.operation, state, method.max_stack, &setting)
}

/// Visits an instruction: the handlers that cover it, its effect, its branches, and the next pc. Returns whether
/// control flow has to be followed there.
fn visit(
    flow: &MethodFlow,
    places: &mut [Place<State>],
    caught: &mut State,
    seen: &mut TakenLocals,
    state: &mut State,
    pc: u16,
    instr: &Instr,
) -> Result<bool, Stop>
    requires work { IsAtWork flow.now places.old }
    requires stands { StandsAt flow.now pc state.old.types instr.now }
    requires room { HaveRoom flow.now caught.old state.old }
    requires seen { HaveSeen flow.now places.old seen.old }
    ensures visited { IfOk result (λ on.
        HasVisited flow.now on (placed pc instr.now) state.old.types state.new.types places.old places.new) }
    ensures room { IfOk result (λ on. HaveRoom flow.now caught.new state.new) }
    ensures seen { IfOk result (λ on. HaveSeen flow.now places.new seen.new) }
    ensures refused { IfErr result
        (Refuses flow.now (Bears flow.now pc state.old.types) (IsToldAt flow.now pc) places.old) }
{
    handle_all(flow, places, caught, seen, state, pc)?;
    take_effect(flow, state, instr)?;
    branch_all(flow, places, state, pc, instr)?;
    if instr.falls_through() {
        flow_to(flow, places, instr.next_pc, state)
    } else {
        Ok(false)
    }
}

/// The instruction that decodes at a pc, if one does.
fn instr_at<'m>(flow: &MethodFlow<'_, 'm>, pc: usize) -> Option<Instr<'m>>
    ensures some { IfSome result (λ instr. (package_rules flow.now.linked.now).decoder flow.now.method.now.code pc
        ≡ Ok instr) }
    ensures none { IfNone result (IsDecodedAt flow.now.linked.now flow.now.method.now pc → ⊥) }
{
    let method = flow.method;
    match decode(method.code(), pc) {
        Ok(instr) => Some(instr),
        Err(_) => None,
    }
}

/// Follows control flow from a pc until it ends or falls through to a place, and counts this once.
pub(crate) fn follow(
    flow: &MethodFlow,
    places: &mut [Place<State>],
    caught: &mut State,
    state: &mut State,
    followed: &mut u64,
    start: u16,
) -> Result<(), WordFault>
    requires work { IsAtWork flow.now places.old }
    requires flows { FlowsTo flow.now start state.old.types }
    requires room { HaveRoom flow.now caught.old state.old }
    ensures taken { IfOk result (λ u. HasTaken flow.now (ClosedFrom flow.now start state.old.types)
        (Bears flow.now start state.old.types) places.old places.new) }
    ensures room { IfOk result (λ u. HaveRoom flow.now caught.new state.new) }
    ensures counted { followed.new ≡ u64_saturate (followed.old + 1) }
    ensures refused { IfErr result (IsDenial flow.now (Bears flow.now start state.old.types) places.old) }
{
    listing_laws();
    *followed = followed.saturating_add(1);
    let mut seen = TakenLocals::nothing(flow.alloc);
    let mut pc = start;
    loop {
        let instr = match instr_at(flow, usize::from(pc)) {
            Some(instr) => instr,
            None => return Err(told_at(pc, Stop::Refused(Reason::NoTarget))),
        };
        match visit(flow, places, caught, &mut seen, state, pc, &instr) {
            Ok(true) => pc = instr.next_pc as u16,
            Ok(false) => return Ok(()),
            Err(stop) => return Err(told_at(pc, stop)),
        }
    }
}
