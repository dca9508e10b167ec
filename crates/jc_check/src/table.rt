//! The table of marks: where instructions begin, and where the certificate claims a state.

ghost use Rattle.std.specs.Prelude.{◌≡◌, ◌<◌, ◌^◌, ◌++◌, [], ◌∷◌, List, Ok, Err, map, true, length, replicate};
ghost use Rattle.std.specs.Prelude.{slice_index_or, vec_capacity, IfOk, IfErr, OnOk};
ghost use Rattle.jc_code.specs.declared.fault.CodeFault.{CodeFault};
ghost use Rattle.jc_code.specs.Listing.{PlacedInstr, StopsAt, begins};
ghost use Rattle.jc_cert.specs.Cert.{stated};
ghost use Rattle.jc_check.specs.Fault.{IfRefused};
ghost use Rattle.jc_check.specs.Rules.{Rules};
ghost use Rattle.jc_check.specs.Method as methods;
ghost use Rattle.jc_check.specs.Claim as claimed;
ghost use Rattle.jc_check.specs.Claim.{claim_of};
ghost use Rattle.jc_check.specs.Carried.{has_shape};
ghost use Rattle.jc_check.specs.FirstFault.{reason_of, told_at, handler_stands, handlers_stand, state_stands};
ghost use Rattle.jc_check.specs.FirstFault.{states_stand};
ghost use Rattle.jc_check.specs.PrivateMarks.{ForMethod, ForStarts, ForTable, IsTable, claim_fits};
ghost use Rattle.jc_check.specs.declared.mark.ByteMark.TheVariants.{Inside};

use crate::claim::{Claim, types_found};
use crate::fault::{Fault, WordFault, reason_for};
use crate::handler::CheckedHandler;
use crate::mark::ByteMark;
use crate::method::CheckedMethod;
use crate::rules::CheckRules;
use jc_base::Reason;
use jc_cert::StateRow;
use std::alloc::{AllocError, Global};

/// A table without marks for `count` bytes.
pub(crate) fn no_marks(alloc: Global, count: usize) -> Result<Vec<ByteMark>, AllocError>
    ensures marks { IfOk result (λ marks. marks.items ≡ replicate count Inside) }
    ensures room { IfOk result (λ marks. vec_capacity marks ≡ count) }
{
    let mut marks = Vec::with_capacity(alloc, count)?;
    for _ in 0..count {
        marks.push_reserved(ByteMark::Inside);
    }
    Ok(marks)
}

/// Steps from instruction to instruction, and marks where they begin. After a fault the marks mustn't be used.
pub(crate) fn mark_starts<R: CheckRules>(
    rules: &R,
    method: &CheckedMethod,
    marks: &mut [ByteMark],
) -> Result<(), Fault>
    requires none { marks.old ≡ replicate (length method.now.code) Inside }
    requires short { length method.now.code < 2 ^ 16 }
    ensures ok { OnOk result
        ((listing : List PlacedInstr) × IsTable (R.rules rules.now) method.now listing [] marks.new) }
    ensures err { IfErr result (λ fault. (why : CodeFault)
        × StopsAt (R.rules rules.now).decoder method.now.code fault.pc why × (fault.reason ≡ reason_of why)) }
{
    rules.listing_laws();
    let code = method.code();
    let mut pc = 0;
    while pc < code.len() {
        match rules.next_pc(code, pc) {
            Ok(behind) => {
                marks[pc] = ByteMark::Start;
                pc = behind;
            }
            Err(fault) => {
                return Err(Fault {
                    pc: pc as u16,
                    reason: reason_for(fault),
                });
            }
        }
    }
    Ok(())
}

/// The mark at a pc; `Inside` past the code.
#[inline(always)]
pub(crate) fn mark_at(marks: &[ByteMark], pc: usize) -> ByteMark
    ensures { result ≡ slice_index_or marks.now pc Inside }
{
    if pc < marks.len() {
        marks[pc]
    } else {
        ByteMark::Inside
    }
}

/// Whether an instruction begins at a pc.
fn begins_at(marks: &[ByteMark], pc: usize) -> bool
    ensures within { result ≡ true → pc < length marks.now }
    ensures begins { ForTable marks.now (λ listing. result ≡ begins listing pc) }
{
    match mark_at(marks, pc) {
        ByteMark::Inside => false,
        ByteMark::Start | ByteMark::Holds(_) => true,
    }
}

fn stand_handler(marks: &[ByteMark], handler: &CheckedHandler) -> Result<(), Reason>
    ensures { ForTable marks.now (λ listing. result ≡ handler_stands listing handler.now) }
{
    if !begins_at(marks, usize::from(handler.goes_on)) {
        return Err(Reason::NoTarget);
    }
    match handler.caught {
        Some(_) => Ok(()),
        None => Err(Reason::WrongType),
    }
}

/// Tests the handlers in order: each goes on where an instruction begins, and catches a class.
pub(crate) fn stand_handlers(marks: &[ByteMark], handlers: &[CheckedHandler]) -> Result<(), Fault>
    ensures { ForTable marks.now (λ listing. result ≡ handlers_stand listing handlers.now) }
{
    for index in 0..handlers.len() {
        let handler = &handlers[index];
        if let Err(reason) = stand_handler(marks, handler) {
            return Err(Fault {
                pc: handler.goes_on,
                reason,
            });
        }
    }
    Ok(())
}

fn fits(method: &CheckedMethod, row: &StateRow) -> bool
    ensures { result ≡ has_shape method.now (stated row.now) }
{
    row.locals.len() == method.arguments.len() + usize::from(method.max_locals)
        && row.operands.len() <= usize::from(method.max_stack)
}

/// The state of a row with its classes, if they resolve.
#[tactic(auto, unfolding(crate::specs::Claim::claim_of))]
fn claim_found<R: CheckRules>(
    alloc: Global,
    rules: &R,
    row: &StateRow,
) -> Result<Option<Claim>, AllocError>
    ensures { IfOk result (λ found. found ≡ claim_of (R.rules rules.now) (stated row.now)) }
{
    let Some(locals) = types_found(alloc, rules, &row.locals)? else {
        return Ok(None);
    };
    let Some(operands) = types_found(alloc, rules, &row.operands)? else {
        return Ok(None);
    };
    Ok(Some(Claim {
        pc: row.pc,
        locals,
        operands,
    }))
}

/// Tests a row's state: an instruction begins at its pc, it has the method's shape, and its classes resolve.
fn stand_state<R: CheckRules>(
    alloc: Global,
    rules: &R,
    method: &CheckedMethod,
    marks: &[ByteMark],
    row: &StateRow,
) -> Result<Claim, WordFault>
    ensures within { IfOk result (λ claim. row.now.pc < length marks.now) }
    ensures ok { IfOk result (λ claim. ForMethod (R.rules rules.now) method.now marks.now (λ listing.
        state_stands (R.rules rules.now) method.now listing (stated row.now) ≡ Ok claim)) }
    ensures err { IfErr result (λ fault. IfRefused fault (λ f.
        ForMethod (R.rules rules.now) method.now marks.now (λ listing.
        told_at row.now.pc (state_stands (R.rules rules.now) method.now listing (stated row.now)) ≡ Err f))) }
{
    if !begins_at(marks, usize::from(row.pc)) {
        return Err(mismatch(row.pc));
    }
    if !fits(method, row) {
        return Err(mismatch(row.pc));
    }
    match claim_found(alloc, rules, row)? {
        Some(claim) => Ok(claim),
        None => Err(mismatch(row.pc)),
    }
}

fn mismatch(pc: u16) -> WordFault
    ensures { result ≡ WordFault.Refused pc Reason.CertMismatch }
{
    WordFault::Refused {
        pc,
        reason: Reason::CertMismatch,
    }
}

/// Marks the place of the claim with a number, unless one is there already.
fn hold(marks: &mut [ByteMark], pc: usize, number: u16)
    requires within { pc < length marks.old }
    ensures len { length marks.new ≡ length marks.old }
    ensures table { (rules : Rules) (m : methods.CheckedMethod) (listing : List PlacedInstr)
        (claims : List claimed.Claim) (claim : claimed.Claim) → IsTable rules m listing claims marks.old
        → length claims ≡ number → claim.pc ≡ pc → begins listing pc ≡ true → claim_fits m claim ≡ true
        → IsTable rules m listing (claims ++ claim ∷ []) marks.new }
{
    match marks[pc] {
        ByteMark::Start => marks[pc] = ByteMark::Holds(number),
        // States ascend by pc, so no other one stands here.
        ByteMark::Inside | ByteMark::Holds(_) => {}
    }
}

/// The certificate's states with their classes; it marks where they stand. After a fault the marks mustn't be used.
pub(crate) fn mark_states<R: CheckRules>(
    alloc: Global,
    rules: &R,
    method: &CheckedMethod,
    marks: &mut [ByteMark],
    states: &[StateRow],
) -> Result<Vec<Claim>, WordFault>
    requires { length states.now < 2 ^ 16 }
    ensures ok { IfOk result (λ claims. ForStarts (R.rules rules.now) method.now marks.old (λ listing.
        (states_stand (R.rules rules.now) method.now listing (map stated states.now) ≡ Ok claims.items)
        × IsTable (R.rules rules.now) method.now listing claims.items marks.new)) }
    ensures err { IfErr result (λ fault. IfRefused fault (λ f.
        ForStarts (R.rules rules.now) method.now marks.old (λ listing.
        states_stand (R.rules rules.now) method.now listing (map stated states.now) ≡ Err f))) }
    ensures room { IfOk result (λ claims. vec_capacity claims ≡ length states.now) }
{
    let mut claims = Vec::with_capacity(alloc, states.len())?;
    for index in 0..states.len() {
        let row = &states[index];
        let claim = stand_state(alloc, rules, method, marks, row)?;
        hold(marks, usize::from(row.pc), index as u16);
        claims.push_reserved(claim);
    }
    Ok(claims)
}
