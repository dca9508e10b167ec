//! The check of a method with the certificate's states for it.

ghost use Rattle.std.specs.Prelude.{◌≡◌, ◌≢◌, ◌<◌, ◌^◌, [], map, length, replicate, OnOk, IfErr};
ghost use Rattle.jc_cert.specs.Cert.{stated};
ghost use Rattle.jc_check.specs.Fault.{IfRefused};
ghost use Rattle.jc_check.specs.Method.{entry_of};
ghost use Rattle.jc_check.specs.Carried.{Carries};
ghost use Rattle.jc_check.specs.FirstFault.{IsFirstFault, flow_findings_of};
ghost use Rattle.jc_check.specs.PrivateMarks.{HasRoom};
ghost use Rattle.jc_check.specs.PrivateInput.{ForListing, IsListed, IsSafeInput};
ghost use Rattle.jc_check.specs.PrivateSeen.{HasSeen, HasSeenNothing};
ghost use Rattle.jc_check.specs.declared.mark.ByteMark.TheVariants.{Inside};

use crate::fault::{Fault, WordFault};
use crate::input::PassInput;
use crate::mark::ByteMark;
use crate::method::CheckedMethod;
use crate::pass::{fall_to, walk_code};
use crate::rules::CheckRules;
use crate::seen::SeenLocals;
use crate::table::{mark_starts, mark_states, no_marks, stand_handlers};
use jc_base::Reason;
use jc_cert::StateRow;
use jc_types::State;
use std::alloc::Global;

// Enters the code with the entry state, and runs the pass.
fn check_flow<R: CheckRules>(
    rules: &R,
    input: &PassInput,
    state: &mut State,
    seen: &mut SeenLocals,
) -> Result<(), Fault>
    requires listed { IsListed (R.rules rules.now) input.now }
    requires table { IsSafeInput input.now }
    requires short { length input.now.method.now.code < 2 ^ 16 }
    requires entry { state.old.types ≡ entry_of input.now.method.now }
    requires room { HasRoom input.now.method.now state.old }
    requires seen { HasSeen (R.rules rules.now) input.now seen.old }
    ensures { ForListing (R.rules rules.now) input.now (λ listing.
        result ≡ flow_findings_of (R.rules rules.now) input.now.method.now listing input.now.claims.now) }
{
    match fall_to(rules, input, state, 0) {
        Ok(live) => walk_code(rules, input, state, seen, live),
        Err(reason) => Err(Fault { pc: 0, reason }),
    }
}

// Checks a method with code, from blank marks and the state at its entry.
fn check_code<R: CheckRules>(
    alloc: Global,
    rules: &R,
    method: &CheckedMethod,
    marks: &mut [ByteMark],
    state: &mut State,
    seen: &mut SeenLocals,
    states: &[StateRow],
) -> Result<(), WordFault>
    requires some { method.now.code ≢ [] }
    requires short { length method.now.code < 2 ^ 16 }
    requires count { length states.now < 2 ^ 16 }
    requires none { marks.old ≡ replicate (length method.now.code) Inside }
    requires entry { state.old.types ≡ entry_of method.now }
    requires room { HasRoom method.now state.old }
    requires seen { HasSeenNothing method.now seen.old }
    ensures accepted { OnOk result (Carries (R.rules rules.now) method.now (map stated states.now)) }
    ensures refused { IfErr result (λ fault.
        IfRefused fault (IsFirstFault (R.rules rules.now) method.now (map stated states.now))) }
{
    rules.listing_laws();
    mark_starts(rules, method, marks)?;
    stand_handlers(marks, method.handlers())?;
    let claims = mark_states(alloc, rules, method, marks, states)?;
    let input = PassInput {
        method,
        marks,
        claims: &claims,
    };
    check_flow(rules, &input, state, seen)?;
    Ok(())
}

/// Checks a method with the certificate's states for it. All memory of the check is allocated here, and where the
/// certificate's states are resolved.
pub(crate) fn check_method<R: CheckRules>(
    alloc: Global,
    rules: &R,
    method: &CheckedMethod,
    states: &[StateRow],
) -> Result<(), WordFault>
    requires short { length method.now.code < 2 ^ 16 }
    requires count { length states.now < 2 ^ 16 }
    ensures accepted { OnOk result (Carries (R.rules rules.now) method.now (map stated states.now)) }
    ensures refused { IfErr result (λ fault.
        IfRefused fault (IsFirstFault (R.rules rules.now) method.now (map stated states.now))) }
{
    if method.code().is_empty() {
        return Err(WordFault::Refused {
            pc: 0,
            reason: Reason::FallsOff,
        });
    }
    let mut marks = no_marks(alloc, method.code().len())?;
    let mut state = State::entry(
        alloc,
        &method.arguments,
        method.max_locals,
        method.max_stack,
    )?;
    let mut seen = SeenLocals::none(alloc, state.locals(), method.handlers())?;
    check_code(
        alloc, rules, method, &mut marks, &mut state, &mut seen, states,
    )
}
