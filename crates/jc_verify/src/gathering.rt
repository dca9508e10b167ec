//! Gathers the rows of a package's certificate, method by method.

ghost use Rattle.std.specs.Prelude.{◌≡◌, ◌+◌, ℕ, Some, map, length, slice_get, nat_le, false, IfOk, IfErr};
ghost use Rattle.std.specs.Option.{option_map_or};
ghost use Rattle.jc_cert.specs.Cert.{rows, stated};
ghost use Rattle.jc_base.specs.declared.reason.Reason.{Reason};
ghost use Rattle.jc_check.specs.FirstFault.{fault_at};
ghost use Rattle.jc_check.specs.Package.{method_of, package_rules};
ghost use Rattle.jc_check.specs.declared.fault.WordFault.TheVariants.{Refused};
ghost use Rattle.jc_verify.specs.PrivateFlow.{HasLaws};
ghost use Rattle.jc_verify.specs.PrivateGathered.{IsDenied, IsInferred, IsPut, IsSoFar};
ghost use Rattle.jc_verify.specs.PrivateNames.{KeepsNames};
ghost use Rattle.jc_verify.specs.PrivateRefused.{HasFitMethods};
ghost use Rattle.jc_verify.specs.PrivateTold.{Tells};
ghost use Rattle.jc_verify.specs.PrivateTurns.{IsCountedIn};

use crate::fault::VerifyFault;
use crate::method::states_of;
use jc_base::Reason;
use jc_cert::{MethodStates, StateRow};
use jc_check::{Fault, WordFault, method_of};
use jc_link::{Linked, MethodCode};
use std::alloc::Global;

/// A method that no states carry, and the fault that is reported.
#[derive(Clone, Copy)]
pub(crate) struct MethodFault {
    pub(crate) method: u16,
    pub(crate) fault: Fault,
}

/// Results for the first methods of a package: the rows of methods with states, the method with a fault of least
/// offset, and how often control flow was followed.
#[derive(Drop)]
pub(crate) struct Gathered {
    pub(crate) rows: Vec<MethodStates>,
    pub(crate) told: Option<MethodFault>,
    pub(crate) followed: u64,
}

/// Infers the states of a method with code.
fn states_for(
    alloc: Global,
    linked: &Linked,
    body: &MethodCode,
    followed: &mut u64,
) -> Result<Vec<StateRow>, WordFault>
    requires { HasLaws linked.now }
    ensures inferred { IfOk result (λ states. IsInferred linked.now (method_of linked.now body.now)
        (map stated states.items)) }
    ensures counted { IfOk result (λ states.
        IsCountedIn linked.now (map stated states.items) followed.old followed.new) }
    ensures refused { IfErr result (λ fault. (pc : ℕ) (reason : Reason) → fault ≡ Refused pc reason
        → IsDenied linked.now (method_of linked.now body.now)) }
    ensures told { IfErr result (λ fault. KeepsNames linked.now (method_of linked.now body.now)
        → Tells (package_rules linked.now) (method_of linked.now body.now) fault) }
{
    let method = method_of(alloc, linked, body)?;
    states_of(alloc, linked, &method, followed)
}

/// Whether a method at this offset or a lower one has a fault.
fn is_passed_over(told: Option<MethodFault>, offset: u16) -> bool
    ensures { result ≡ option_map_or (λ t. nat_le t.method offset) told false }
{
    match told {
        Some(told) => told.method <= offset,
        None => false,
    }
}

/// Appends the row of a method, if it has states.
fn put_states(
    gathered: &mut Gathered,
    offset: u16,
    states: Vec<StateRow>,
) -> Result<(), VerifyFault>
    ensures put { IfOk result (λ u. IsPut offset (map stated states.items) (rows gathered.old.rows.items)
        (rows gathered.new.rows.items)) }
    ensures told { gathered.new.told ≡ gathered.old.told }
    ensures followed { gathered.new.followed ≡ gathered.old.followed }
    ensures memory { IfErr result (λ fault. fault ≡ VerifyFault.Memory) }
{
    if states.is_empty() {
        return Ok(());
    }
    gathered.rows.push(MethodStates { offset, states })?;
    Ok(())
}

/// Adds the result for one more method. Skips it if a method of lower offset has a fault.
pub(crate) fn gather(
    alloc: Global,
    linked: &Linked,
    body: &MethodCode,
    gathered: &mut Gathered,
) -> Result<(), VerifyFault>
    requires laws { HasLaws linked.now }
    requires fit { HasFitMethods linked.now }
    ensures gathered { IfOk result (λ u. (n : ℕ) → slice_get linked.now.body.kept.methods n ≡ Some body.now
        → IsSoFar linked.now n gathered.old → IsSoFar linked.now (n + 1) gathered.new) }
    ensures memory { IfErr result (λ fault. fault ≡ VerifyFault.Memory) }
{
    let offset = body.offset;
    if is_passed_over(gathered.told, offset) {
        return Ok(());
    }
    match states_for(alloc, linked, body, &mut gathered.followed) {
        Ok(states) => put_states(gathered, offset, states),
        Err(WordFault::Refused { pc, reason }) => {
            gathered.told = Some(told_at(offset, pc, reason));
            Ok(())
        }
        Err(WordFault::Memory) => Err(VerifyFault::Memory),
    }
}

fn told_at(method: u16, pc: u16, reason: Reason) -> MethodFault
    ensures method { result.method ≡ method }
    ensures fault { result.fault ≡ fault_at pc reason }
{
    MethodFault {
        method,
        fault: Fault { pc, reason },
    }
}
