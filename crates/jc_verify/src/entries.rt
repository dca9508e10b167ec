//! Finds the pcs that control flow enters by a branch or an exception handler.

ghost use Rattle.std.specs.Prelude.{◌≡◌, ◌≢◌, ◌<◌, ◌≤◌, ◌^◌, [], ℕ, ℤ, pos, List, Ok, Err, Some, None, true, false};
ghost use Rattle.std.specs.Prelude.{Contains, length, slice_get, IfOk, IfErr};
ghost use Rattle.std.specs.List.{AllByRecursion};
ghost use Rattle.jc_base.specs.NumberSet.{has_number};
ghost use Rattle.jc_base.specs.declared.reason.Reason.{Reason};
ghost use Rattle.jc_base.specs.declared.reason.Reason.TheVariants.{FallsOff, NoTarget};
ghost use Rattle.jc_cert.specs.Cert.{Stated};
ghost use Rattle.jc_code.specs.Instructions.{instr_at};
ghost use Rattle.jc_code.specs.Listing.{PlacedInstr, begins, placed_at};
ghost use Rattle.jc_code.specs.Targets.{falls_of, targets_of};
ghost use Rattle.jc_check.specs.Rules.{Rules};
ghost use Rattle.jc_check.specs.Carried.{Carries, HandlerStands};
ghost use Rattle.jc_check.specs.FirstFault.{handler_stands, handlers_stand, told_at};
ghost use Rattle.jc_check.specs.Method.{covers};
ghost use Rattle.jc_check.specs.Method as methods;
ghost use Rattle.jc_check.specs.declared.fault.WordFault.TheVariants.{Memory, Refused};
ghost use Rattle.jc_verify.specs.PrivateFlow.{placed};
ghost use Rattle.jc_verify.specs.PrivateLive.{AreBranchesIn, AreCaughtIn, AreEnteredBy, AreFoundBy, HasEntries};
ghost use Rattle.jc_verify.specs.PrivateLive.{HasFound, HasLed, IfRefusal, IsAstray, IsCaughtIn, IsDecoded};
ghost use Rattle.jc_verify.specs.PrivateLive.{IsFollowed, IsFound, IsGround, IsHeld, IsReached, IsUndecoded};
ghost use Rattle.jc_verify.specs.PrivateLive.{ToldAt, left_of};
ghost use Rattle.jc_check.specs.Package.{package_rules};
ghost use Rattle.jc_link.specs.Linked.{Linked};
ghost use Rattle.jc_verify.specs.PrivateTold.{Tells};

use crate::pc_set::PcSet;
use jc_base::Reason;
use jc_check::{CheckedHandler, CheckedMethod, Fault, WordFault, reason_for};
use jc_code::{Instr, Targets, decode, listing_laws, next_pc};
use std::alloc::Global;

/// Decodes the code, and returns the pcs at which instructions begin.
#[tactic(auto, using(crate::proofs::Starting::none_yet, crate::proofs::Starting::start_more))]
fn starts_of(alloc: Global, code: &[u8]) -> Result<PcSet, WordFault>
    requires short { length code.now < 2 ^ 16 }
    ensures ok { IfOk result (λ starts. (listing : List PlacedInstr) × IsDecoded code.now listing starts) }
    ensures refused { IfErr result (λ fault. IfRefusal fault (IsUndecoded code.now)) }
{
    listing_laws();
    let mut starts = PcSet::empty(alloc);
    let mut pc = 0;
    while pc < code.len() {
        match next_pc(code, pc) {
            Ok(behind) => {
                starts.insert(pc as u16)?;
                pc = behind;
            }
            Err(fault) => return Err(refusal(pc as u16, reason_for(fault))),
        }
    }
    Ok(starts)
}

/// Tests that an instruction begins at a handler's entry point, and that the handler catches a class.
fn stand_handler(starts: &PcSet, handler: &CheckedHandler) -> Result<(), Fault>
    ensures ok { IfOk result (λ u. (code : List ℕ) (listing : List PlacedInstr) → IsDecoded code listing starts.now
        → HandlerStands listing handler.now) }
    ensures err { IfErr result (λ fault. (code : List ℕ) (listing : List PlacedInstr)
        → IsDecoded code listing starts.now → HandlerStands listing handler.now → ⊥) }
    ensures told { IfErr result (λ fault. (code : List ℕ) (listing : List PlacedInstr)
        → IsDecoded code listing starts.now
        → told_at handler.now.goes_on (handler_stands listing handler.now) ≡ Err fault) }
{
    if !starts.contains(handler.goes_on) {
        return Err(Fault {
            pc: handler.goes_on,
            reason: Reason::NoTarget,
        });
    }
    match handler.caught {
        Some(_) => Ok(()),
        None => Err(Fault {
            pc: handler.goes_on,
            reason: Reason::WrongType,
        }),
    }
}

/// Tests each handler in order.
fn stand_handlers(starts: &PcSet, handlers: &[CheckedHandler]) -> Result<(), Fault>
    ensures ok { IfOk result (λ u. (code : List ℕ) (listing : List PlacedInstr) → IsDecoded code listing starts.now
        → AllByRecursion (HandlerStands listing) handlers.now) }
    ensures err { IfErr result (λ fault. (code : List ℕ) (listing : List PlacedInstr)
        → IsDecoded code listing starts.now → AllByRecursion (HandlerStands listing) handlers.now → ⊥) }
    ensures told { IfErr result (λ fault. (code : List ℕ) (listing : List PlacedInstr)
        → IsDecoded code listing starts.now → handlers_stand listing handlers.now ≡ Err fault) }
{
    for index in 0..handlers.len() {
        stand_handler(starts, &handlers[index])?;
    }
    Ok(())
}

/// Pcs found so far: those reached, those entered by a branch or a handler, and the worklist of reached pcs that
/// control flow hasn't been followed from.
#[derive(Drop)]
pub(crate) struct Followed {
    pub(crate) live: PcSet,
    pub(crate) entered: PcSet,
    pub(crate) stack: Vec<u16>,
}

/// Marks a pc as reached, and puts it on the worklist unless it was reached before.
fn reach(followed: &mut Followed, pc: u16) -> Result<(), WordFault>
    ensures led { IfOk result (λ u. HasLed (λ f. has_number f.live pc ≡ true)
        (λ m listing. IsReached m listing pc) followed.old followed.new) }
    ensures memory { IfErr result (λ fault. fault ≡ Memory) }
{
    if followed.live.contains(pc) {
        return Ok(());
    }
    followed.live.insert(pc)?;
    followed.stack.push(pc)?;
    Ok(())
}

/// Marks a pc as entered and reached.
fn enter(followed: &mut Followed, pc: u16) -> Result<(), WordFault>
    ensures led { IfOk result (λ u. HasLed (λ f. IsHeld f pc) (λ m listing. IsFound m listing pc)
        followed.old followed.new) }
    ensures memory { IfErr result (λ fault. fault ≡ Memory) }
{
    followed.entered.insert(pc)?;
    reach(followed, pc)
}

/// Enters a handler's entry point, if the handler covers the pc.
fn handle(followed: &mut Followed, pc: u16, handler: &CheckedHandler) -> Result<(), WordFault>
    ensures led { IfOk result (λ u. HasLed (λ f. IsCaughtIn f pc handler.now)
        (λ m listing. covers handler.now pc ≡ true → IsFound m listing handler.now.goes_on)
        followed.old followed.new) }
    ensures memory { IfErr result (λ fault. fault ≡ Memory) }
{
    if !handler.covers(pc) {
        return Ok(());
    }
    enter(followed, handler.goes_on)
}

/// Enters the handlers that cover a pc.
fn handle_all(
    followed: &mut Followed,
    handlers: &[CheckedHandler],
    pc: u16,
) -> Result<(), WordFault>
    ensures led { IfOk result (λ u. HasLed (AreCaughtIn handlers.now pc) (AreFoundBy handlers.now pc)
        followed.old followed.new) }
    ensures memory { IfErr result (λ fault. fault ≡ Memory) }
{
    for index in 0..handlers.len() {
        handle(followed, pc, &handlers[index])?;
    }
    Ok(())
}

/// Whether an instruction begins at a pc.
#[tactic(auto, using(crate::proofs::Starting::none_past))]
fn begins_at(starts: &PcSet, pc: usize) -> bool
    ensures within { result ≡ true → pc < 2 ^ 16 }
    ensures begins { (m : methods.CheckedMethod) (listing : List PlacedInstr) → IsGround m listing starts.now
        → result ≡ begins listing pc }
{
    pc <= usize::from(u16::MAX) && starts.contains(pc as u16)
}

/// Enters the target of the branch with this index. Refuses a target at which no instruction begins.
fn branch_to(
    followed: &mut Followed,
    starts: &PcSet,
    targets: &Targets,
    pc: u16,
    index: usize,
) -> Result<(), WordFault>
    requires index { index < length targets.now }
    ensures led { IfOk result (λ u. HasLed (AreBranchesIn (λ place. slice_get targets.now index ≡ Some place))
        (AreEnteredBy (λ place. slice_get targets.now index ≡ Some place) starts.now) followed.old followed.new) }
    ensures refused { IfErr result (λ fault. IfRefusal fault (ToldAt pc NoTarget
        ((m : methods.CheckedMethod) (listing : List PlacedInstr) → IsGround m listing starts.now
        → (p : ℕ) → slice_get targets.now index ≡ Some (pos p) → begins listing p ≡ false))) }
{
    let target = targets.get(index).unwrap();
    if target < 0 {
        return Err(refusal(pc, Reason::NoTarget));
    }
    let place = target.unsigned_abs() as usize;
    if begins_at(starts, place) {
        enter(followed, place as u16)
    } else {
        Err(refusal(pc, Reason::NoTarget))
    }
}

fn refusal(pc: u16, reason: Reason) -> WordFault
    ensures { result ≡ Refused pc reason }
{
    WordFault::Refused { pc, reason }
}

/// Enters the targets of an instruction's branches.
fn branch_all(
    followed: &mut Followed,
    starts: &PcSet,
    pc: u16,
    instr: &Instr,
) -> Result<(), WordFault>
    ensures led { IfOk result (λ u. HasLed (AreBranchesIn (Contains (targets_of pc instr.now.operation)))
        (AreEnteredBy (Contains (targets_of pc instr.now.operation)) starts.now) followed.old followed.new) }
    ensures refused { IfErr result (λ fault. IfRefusal fault (ToldAt pc NoTarget
        ((m : methods.CheckedMethod) (listing : List PlacedInstr) → IsGround m listing starts.now
        → (place : ℤ) × Contains (targets_of pc instr.now.operation) place
        × ((p : ℕ) → place ≡ pos p → begins listing p ≡ false)))) }
{
    let targets = instr.targets(pc);
    for index in 0..targets.len() {
        branch_to(followed, starts, &targets, pc, index)?;
    }
    Ok(())
}

/// Reaches the next pc if the instruction falls through. Refuses a pc past the end of the code.
fn fall(
    followed: &mut Followed,
    method: &CheckedMethod,
    pc: u16,
    instr: &Instr,
) -> Result<(), WordFault>
    requires short { length method.now.code < 2 ^ 16 }
    ensures led { IfOk result (λ u. HasLed
        (λ f. falls_of instr.now.operation ≡ true → has_number f.live instr.now.next_pc ≡ true)
        (λ m listing. falls_of instr.now.operation ≡ true → instr.now.next_pc < length method.now.code
        → IsReached m listing instr.now.next_pc) followed.old followed.new) }
    ensures refused { IfErr result (λ fault. IfRefusal fault (ToldAt pc FallsOff
        ((falls_of instr.now.operation ≡ true) × (length method.now.code ≤ instr.now.next_pc)))) }
{
    if !instr.falls_through() {
        return Ok(());
    }
    if instr.next_pc >= method.code().len() {
        return Err(refusal(pc, Reason::FallsOff));
    }
    reach(followed, instr.next_pc as u16)
}

/// Follows an instruction to the handlers that cover it, its branch targets, and the next pc.
fn visit(
    followed: &mut Followed,
    method: &CheckedMethod,
    starts: &PcSet,
    pc: u16,
    instr: &Instr,
) -> Result<(), WordFault>
    requires short { length method.now.code < 2 ^ 16 }
    ensures left { IfOk result (λ u. left_of followed.new ≡ left_of followed.old) }
    ensures followed { IfOk result (λ u. (listing : List PlacedInstr) → IsGround method.now listing starts.now
        → placed_at listing pc ≡ Some (placed pc instr.now)
        → IsFollowed method.now listing (Some pc) followed.old → IsFollowed method.now listing None followed.new) }
    ensures refused { IfErr result (λ fault. IfRefusal fault (λ at reason. (listing : List PlacedInstr)
        → IsGround method.now listing starts.now → placed_at listing pc ≡ Some (placed pc instr.now)
        → IsFollowed method.now listing (Some pc) followed.old → IsAstray method.now listing at reason)) }
{
    handle_all(followed, method.handlers(), pc)?;
    branch_all(followed, starts, pc, instr)?;
    fall(followed, method, pc, instr)
}

/// Decodes the instruction at a pc, and follows it.
fn visit_at(
    followed: &mut Followed,
    method: &CheckedMethod,
    starts: &PcSet,
    pc: u16,
) -> Result<(), WordFault>
    requires short { length method.now.code < 2 ^ 16 }
    ensures left { IfOk result (λ u. left_of followed.new ≡ left_of followed.old) }
    ensures followed { IfOk result (λ u. (listing : List PlacedInstr) → IsGround method.now listing starts.now
        → IsFollowed method.now listing (Some pc) followed.old → IsFollowed method.now listing None followed.new) }
    ensures refused { IfErr result (λ fault. IfRefusal fault (λ at reason. (listing : List PlacedInstr)
        → IsGround method.now listing starts.now → IsFollowed method.now listing (Some pc) followed.old
        → IsAstray method.now listing at reason)) }
{
    match decode(method.code(), usize::from(pc)) {
        Ok(instr) => visit(followed, method, starts, pc, &instr),
        Err(_) => Err(refusal(pc, Reason::NoTarget)),
    }
}

/// Pc 0 is reached, and on the worklist.
fn at_first(alloc: Global) -> Result<Followed, WordFault>
    ensures followed { IfOk result (λ f. (m : methods.CheckedMethod) (listing : List PlacedInstr)
        → begins listing 0 ≡ true → IsFollowed m listing None f) }
    ensures memory { IfErr result (λ fault. fault ≡ Memory) }
{
    let mut followed = Followed {
        live: PcSet::empty(alloc),
        entered: PcSet::empty(alloc),
        stack: Vec::new(alloc),
    };
    followed.live.insert(0)?;
    followed.stack.push(0)?;
    Ok(followed)
}

/// Follows control flow from pc 0 until the worklist is empty. Returns the entered pcs.
fn follow_all(alloc: Global, method: &CheckedMethod, starts: &PcSet) -> Result<PcSet, WordFault>
    requires short { length method.now.code < 2 ^ 16 }
    requires some { method.now.code ≢ [] }
    ensures found { IfOk result (λ entries. (listing : List PlacedInstr) → IsGround method.now listing starts.now
        → HasFound method.now listing entries) }
    ensures refused { IfErr result (λ fault. IfRefusal fault (λ at reason. (listing : List PlacedInstr)
        → IsGround method.now listing starts.now → IsAstray method.now listing at reason)) }
{
    let mut followed = at_first(alloc)?;
    while let Some(pc) = followed.stack.pop() {
        visit_at(&mut followed, method, starts, pc)?;
    }
    Ok(followed.entered)
}

/// The pcs that control flow enters by a branch or an exception handler. Refuses code that doesn't decode, an invalid
/// handler, and reachable code that leads to no instruction.
pub(crate) fn entries_of(alloc: Global, method: &CheckedMethod) -> Result<PcSet, WordFault>
    requires short { length method.now.code < 2 ^ 16 }
    ensures found { IfOk result (λ entries. HasEntries method.now entries) }
    ensures refused { IfErr result (λ fault. (pc : ℕ) (reason : Reason) → fault ≡ Refused pc reason → (rules : Rules)
        → rules.decoder ≡ instr_at → (states : List Stated) → Carries rules method.now states → ⊥) }
    ensures told { IfErr result (λ fault. (l : Linked) → Tells (package_rules l) method.now fault) }
{
    listing_laws();
    let code = method.code();
    if code.is_empty() {
        return Err(refusal(0, Reason::FallsOff));
    }
    let starts = starts_of(alloc, code)?;
    stand_handlers(&starts, method.handlers())?;
    follow_all(alloc, method, &starts)
}
