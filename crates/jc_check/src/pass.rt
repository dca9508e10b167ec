//! The pass over the instructions by ascending pc, with one state that is changed in place.

ghost use Rattle.std.specs.Prelude.{◌≡◌, ◌<◌, ◌≤◌, ◌^◌, ℤ, List, Option, Some, Ok, length, pos, slice_get};
ghost use Rattle.jc_code.specs.Targets.{targets_of};
ghost use Rattle.jc_names.specs.declared.name.ClassName.{ClassName};
ghost use Rattle.jc_types.specs.PrivateRanges.{AgreeOutside};
ghost use Rattle.jc_types.specs.State.{types_below};
ghost use Rattle.jc_types.specs.declared.ty.Ty.{Ty};
ghost use Rattle.jc_check.specs.Method.{caught_types};
ghost use Rattle.jc_check.specs.Carried.{types_of};
ghost use Rattle.jc_check.specs.FirstFault.{arrives, all_arrive, catches_at, handles, all_handle, falls_to, visit_live};
ghost use Rattle.jc_check.specs.FirstFault.{visit, walk};
ghost use Rattle.jc_check.specs.PrivateMarks.{Flowed, flowing, HasRoom, placed};
ghost use Rattle.jc_check.specs.PrivateInput.{ForListing, IsListed, IsSafeInput};
ghost use Rattle.jc_check.specs.PrivateSeen.{HasSeen, WasCaught, WereCaught, locals_alone};

use crate::claim::Claim;
use crate::fault::Fault;
use crate::handler::CheckedHandler;
use crate::input::PassInput;
use crate::mark::ByteMark;
use crate::rules::CheckRules;
use crate::seen::SeenLocals;
use crate::table::mark_at;
use jc_base::Reason;
use jc_code::{Instr, Targets};
use jc_names::ClassName;
use jc_types::{LocalRange, State, Ty, are_below_within};

fn is_met<R: CheckRules>(rules: &R, state: &State, claim: &Claim) -> bool
    ensures { result ≡ types_below (R.rules rules.now).below state.now.types (types_of claim.now) }
{
    state.is_below(&claim.locals, &claim.operands, rules.order())
}

fn is_caught<R: CheckRules>(rules: &R, state: &State, class: ClassName, claim: &Claim) -> bool
    ensures { result ≡ types_below (R.rules rules.now).below (caught_types class state.now.types) (types_of claim.now) }
{
    state.is_below_with(
        Ty::Class(class),
        &claim.locals,
        &claim.operands,
        rules.order(),
    )
}

/// Whether a caught class fits the claim at the pc where a handler goes on.
fn catch_at<R: CheckRules>(
    rules: &R,
    input: &PassInput,
    state: &State,
    pc: u16,
    class: ClassName,
) -> Result<(), Reason>
    requires { IsSafeInput input.now }
    ensures { ForListing (R.rules rules.now) input.now (λ listing.
        result ≡ catches_at (R.rules rules.now) input.now.claims.now state.now.types pc (Some class)) }
{
    match mark_at(input.marks, usize::from(pc)) {
        ByteMark::Start | ByteMark::Inside => Err(Reason::CertMismatch),
        ByteMark::Holds(number) => {
            if is_caught(rules, state, class, &input.claims[usize::from(number)]) {
                Ok(())
            } else {
                Err(Reason::CertMismatch)
            }
        }
    }
}

/// The same for a handler that caught before, with locals that differ only within a range.
fn catch_changed<R: CheckRules>(
    rules: &R,
    input: &PassInput,
    state: &State,
    changed: LocalRange,
    pc: u16,
) -> Result<(), Reason>
    requires table { IsSafeInput input.now }
    requires ordered { changed.first ≤ changed.behind }
    requires within { changed.behind ≤ length state.now.types.locals }
    ensures { ForListing (R.rules rules.now) input.now (λ listing. (seen : List Ty) (caught : Option ClassName)
        → AgreeOutside changed seen state.now.types.locals
        → catches_at (R.rules rules.now) input.now.claims.now (locals_alone seen) pc caught ≡ Ok tt
        → result ≡ catches_at (R.rules rules.now) input.now.claims.now state.now.types pc caught) }
{
    match mark_at(input.marks, usize::from(pc)) {
        ByteMark::Start | ByteMark::Inside => Err(Reason::CertMismatch),
        ByteMark::Holds(number) => {
            let claim = &input.claims[usize::from(number)];
            if are_below_within(state.locals(), &claim.locals, changed, rules.order()) {
                Ok(())
            } else {
                Err(Reason::CertMismatch)
            }
        }
    }
}

/// A handler at an instruction: if it covers the instruction, it catches in the state before it. A handler that caught
/// with the locals seen last tests only the locals that changed.
#[tactic(auto, unfolding(crate::specs::FirstFault::handles))]
fn handle<R: CheckRules>(
    rules: &R,
    input: &PassInput,
    state: &State,
    pc: u16,
    seen: &SeenLocals,
    changed: LocalRange,
    handler: &CheckedHandler,
) -> Result<(), Reason>
    requires table { IsSafeInput input.now }
    requires agree { AgreeOutside changed seen.now.locals state.now.types.locals }
    ensures { ForListing (R.rules rules.now) input.now (λ listing.
        WasCaught (R.rules rules.now) input.now.claims.now seen.now handler.now
        → result ≡ handles (R.rules rules.now) input.now.claims.now pc state.now.types handler.now) }
{
    if !handler.covers(pc) {
        return Ok(());
    }
    if seen.is_covered_by(handler) {
        return catch_changed(rules, input, state, changed, handler.goes_on);
    }
    match handler.caught {
        Some(class) => catch_at(rules, input, state, handler.goes_on, class),
        None => Err(Reason::CertMismatch),
    }
}

/// Each handler in order.
fn handle_each<R: CheckRules>(
    rules: &R,
    input: &PassInput,
    state: &State,
    pc: u16,
    seen: &SeenLocals,
    changed: LocalRange,
    handlers: &[CheckedHandler],
) -> Result<(), Reason>
    requires table { IsSafeInput input.now }
    requires agree { AgreeOutside changed seen.now.locals state.now.types.locals }
    ensures { ForListing (R.rules rules.now) input.now (λ listing.
        WereCaught (R.rules rules.now) input.now.claims.now handlers.now seen.now
        → result ≡ all_handle (R.rules rules.now) input.now.claims.now pc state.now.types handlers.now) }
{
    for index in 0..handlers.len() {
        handle(rules, input, state, pc, seen, changed, &handlers[index])?;
    }
    Ok(())
}

/// The handlers at an instruction, which then have seen its locals.
fn handle_all<R: CheckRules>(
    rules: &R,
    input: &PassInput,
    state: &State,
    pc: u16,
    seen: &mut SeenLocals,
) -> Result<(), Reason>
    requires table { IsSafeInput input.now }
    requires room { HasRoom input.now.method.now state.now }
    requires seen { HasSeen (R.rules rules.now) input.now seen.old }
    ensures result { ForListing (R.rules rules.now) input.now (λ listing.
        result ≡ all_handle (R.rules rules.now) input.now.claims.now pc state.now.types
        input.now.method.now.handlers) }
    ensures seen { HasSeen (R.rules rules.now) input.now seen.new }
{
    let handlers = input.method.handlers();
    if handlers.is_empty() {
        return Ok(());
    }
    let changed = seen.changed(state.locals());
    handle_each(rules, input, state, pc, seen, changed, handlers)?;
    seen.note(pc, state.locals());
    Ok(())
}

/// A branch from a state to a pc.
#[tactic(auto, unfolding(crate::specs::FirstFault::arrives))]
fn arrive_at<R: CheckRules>(
    rules: &R,
    input: &PassInput,
    state: &State,
    pc: usize,
) -> Result<(), Reason>
    requires { IsSafeInput input.now }
    ensures { ForListing (R.rules rules.now) input.now (λ listing.
        result ≡ arrives (R.rules rules.now) listing input.now.claims.now state.now.types (pos pc)) }
{
    match mark_at(input.marks, pc) {
        ByteMark::Inside => Err(Reason::NoTarget),
        ByteMark::Start => Err(Reason::CertMismatch),
        ByteMark::Holds(number) => {
            if is_met(rules, state, &input.claims[usize::from(number)]) {
                Ok(())
            } else {
                Err(Reason::CertMismatch)
            }
        }
    }
}

/// The branch with an index from a state to its target.
#[tactic(auto, unfolding(crate::specs::FirstFault::arrives))]
fn arrive<R: CheckRules>(
    rules: &R,
    input: &PassInput,
    state: &State,
    targets: &Targets,
    index: usize,
) -> Result<(), Reason>
    requires table { IsSafeInput input.now }
    requires index { index < length targets.now }
    ensures { ForListing (R.rules rules.now) input.now (λ listing.
        (place : ℤ) → slice_get targets.now index ≡ Some place
        → result ≡ arrives (R.rules rules.now) listing input.now.claims.now state.now.types place) }
{
    let target = targets.get(index).unwrap();
    if target < 0 {
        Err(Reason::NoTarget)
    } else {
        arrive_at(rules, input, state, target.unsigned_abs() as usize)
    }
}

/// Each branch of an instruction in order.
fn arrive_all<R: CheckRules>(
    rules: &R,
    input: &PassInput,
    state: &State,
    pc: u16,
    instr: &Instr,
) -> Result<(), Reason>
    requires { IsSafeInput input.now }
    ensures { ForListing (R.rules rules.now) input.now (λ listing.
        result ≡ all_arrive (R.rules rules.now) listing input.now.claims.now state.now.types
        (targets_of pc instr.now.operation)) }
{
    let targets = instr.targets(pc);
    for index in 0..targets.len() {
        arrive(rules, input, state, &targets, index)?;
    }
    Ok(())
}

/// The state that goes on to a pc: the current one (true), or none, if the certificate has a state above it.
#[tactic(auto, unfolding(crate::specs::FirstFault::falls_to))]
pub(crate) fn fall_to<R: CheckRules>(
    rules: &R,
    input: &PassInput,
    state: &State,
    pc: usize,
) -> Result<bool, Reason>
    requires { IsSafeInput input.now }
    ensures { ForListing (R.rules rules.now) input.now (λ listing.
        Flowed result state.now.types
        (falls_to (R.rules rules.now) input.now.method.now input.now.claims.now state.now.types pc)) }
{
    if pc >= input.marks.len() {
        return Err(Reason::FallsOff);
    }
    match mark_at(input.marks, pc) {
        ByteMark::Inside | ByteMark::Start => Ok(true),
        ByteMark::Holds(number) => {
            if is_met(rules, state, &input.claims[usize::from(number)]) {
                Ok(false)
            } else {
                Err(Reason::CertMismatch)
            }
        }
    }
}

/// Checks an instruction with the state before it, and returns whether the state goes on to the next instruction.
#[tactic(auto, unfolding(crate::specs::FirstFault::visit_live))]
fn visit_live_at<R: CheckRules>(
    rules: &R,
    input: &PassInput,
    state: &mut State,
    seen: &mut SeenLocals,
    pc: u16,
    instr: &Instr,
) -> Result<bool, Reason>
    requires table { IsSafeInput input.now }
    requires room { HasRoom input.now.method.now state.old }
    requires seen { HasSeen (R.rules rules.now) input.now seen.old }
    ensures flow { ForListing (R.rules rules.now) input.now (λ listing.
        Flowed result state.new.types (visit_live (R.rules rules.now) input.now.method.now listing
        input.now.claims.now (placed pc instr.now) state.old.types)) }
    ensures room { HasRoom input.now.method.now state.new }
    ensures seen { HasSeen (R.rules rules.now) input.now seen.new }
{
    let method = input.method;
    handle_all(rules, input, state, pc, seen)?;
    rules.transfer(
        &instr.operation,
        state,
        method.max_stack,
        method.returned.as_ref(),
    )?;
    arrive_all(rules, input, state, pc, instr)?;
    if instr.falls_through() {
        fall_to(rules, input, state, instr.next_pc)
    } else {
        Ok(false)
    }
}

/// Checks an instruction with what flows into it: the certificate's state, if it has one, otherwise the state that
/// flows in, if `live` holds. With neither the instruction is skipped.
#[tactic(auto, unfolding(crate::specs::FirstFault::visit))]
fn visit_at<R: CheckRules>(
    rules: &R,
    input: &PassInput,
    state: &mut State,
    seen: &mut SeenLocals,
    live: bool,
    pc: u16,
    instr: &Instr,
) -> Result<bool, Reason>
    requires table { IsSafeInput input.now }
    requires room { HasRoom input.now.method.now state.old }
    requires seen { HasSeen (R.rules rules.now) input.now seen.old }
    requires within { pc < length input.now.method.now.code }
    ensures flow { ForListing (R.rules rules.now) input.now (λ listing.
        Flowed result state.new.types (visit (R.rules rules.now) input.now.method.now listing
        input.now.claims.now (placed pc instr.now) (flowing live state.old.types))) }
    ensures room { HasRoom input.now.method.now state.new }
    ensures seen { HasSeen (R.rules rules.now) input.now seen.new }
{
    match mark_at(input.marks, usize::from(pc)) {
        ByteMark::Holds(number) => {
            let claim = &input.claims[usize::from(number)];
            state.load(&claim.locals, &claim.operands);
            visit_live_at(rules, input, state, seen, pc, instr)
        }
        ByteMark::Inside | ByteMark::Start => {
            if live {
                visit_live_at(rules, input, state, seen, pc, instr)
            } else {
                Ok(false)
            }
        }
    }
}

/// Checks the instructions by ascending pc; a state flows into the first if `live` holds. After it the state mustn't be
/// used.
pub(crate) fn walk_code<R: CheckRules>(
    rules: &R,
    input: &PassInput,
    state: &mut State,
    seen: &mut SeenLocals,
    live: bool,
) -> Result<(), Fault>
    requires listed { IsListed (R.rules rules.now) input.now }
    requires table { IsSafeInput input.now }
    requires room { HasRoom input.now.method.now state.old }
    requires seen { HasSeen (R.rules rules.now) input.now seen.old }
    requires short { length input.now.method.now.code < 2 ^ 16 }
    ensures { ForListing (R.rules rules.now) input.now (λ listing.
        result ≡ walk (R.rules rules.now) input.now.method.now listing input.now.claims.now
        (flowing live state.old.types) listing) }
{
    rules.listing_laws();
    let code = input.method.code();
    let mut live = live;
    let mut pc = 0;
    while pc < code.len() {
        let Ok(instr) = rules.decode(code, pc) else {
            unreachable!()
        };
        match visit_at(rules, input, state, seen, live, pc as u16, &instr) {
            Ok(falls) => live = falls,
            Err(reason) => {
                return Err(Fault {
                    pc: pc as u16,
                    reason,
                });
            }
        }
        pc = instr.next_pc;
    }
    Ok(())
}
