//! Infers the states of a method.

ghost use Rattle.std.specs.Prelude.{◌≡◌, ◌⊎◌, ◌<◌, ◌^◌, ℕ, length, map, IfErr, IfOk};
ghost use Rattle.jc_base.specs.declared.reason.Reason.{Reason};
ghost use Rattle.jc_cert.specs.Cert.{stated};
ghost use Rattle.jc_check.specs.Typing.{Typing};
ghost use Rattle.jc_check.specs.declared.fault.WordFault.TheVariants.{Refused};
ghost use Rattle.jc_verify.specs.PrivateNames.{KeepsNames};
ghost use Rattle.jc_verify.specs.PrivateCarrier.{IsCarrier};
ghost use Rattle.jc_check.specs.Package.{class_of_name, package_rules};
ghost use Rattle.jc_verify.specs.PrivateTold.{Tells};
ghost use Rattle.jc_verify.specs.PrivateFlow.{HasLaws, Places};
ghost use Rattle.jc_verify.specs.PrivateGathered.{IsDenied, IsInferred};
ghost use Rattle.jc_verify.specs.PrivateSettled.{IsFilled};
ghost use Rattle.jc_verify.specs.PrivateStated.{AreStateRows};
ghost use Rattle.jc_verify.specs.PrivateTurns.{IsCountedIn};
ghost use Rattle.jc_verify.specs.PrivateWork.{IsBlank};

use crate::entries::entries_of;
use crate::flow::MethodFlow;
use crate::numbering::number_places;
use crate::place::Place;
use crate::settle::fill;
use crate::spelling::stated_rows;
use jc_cert::StateRow;
use jc_check::{CheckedMethod, WordFault, first_fault_laws};
use jc_link::Linked;
use jc_types::State;
use std::alloc::Global;

/// Fills the places, which hold nothing yet, and states what they hold as rows of a certificate.
fn rows_in(
    flow: &MethodFlow,
    places: &mut [Place<State>],
    followed: &mut u64,
) -> Result<Vec<StateRow>, WordFault>
    requires blank { IsBlank flow.now places.old }
    ensures rows { IfOk result (λ rows. (final : Places)
        × IsFilled flow.now.linked.now flow.now.method.now flow.now.numbers.now places.old final
        × AreStateRows (class_of_name flow.now.linked.now.world) final (map stated rows.items)) }
    ensures counted { IfOk result (λ rows.
        IsCountedIn flow.now.linked.now (map stated rows.items) followed.old followed.new) }
    ensures refused { IfErr result (λ fault. (pc : ℕ) (reason : Reason) → fault ≡ Refused pc reason
        → ((typing : Typing) → IsCarrier flow.now.linked.now flow.now.method.now flow.now.numbers.now typing → ⊥)
        ⊎ (KeepsNames flow.now.linked.now flow.now.method.now → ⊥)) }
    ensures told { IfErr result (λ fault. KeepsNames flow.now.linked.now flow.now.method.now
        → Tells (package_rules flow.now.linked.now) flow.now.method.now fault) }
{
    fill(flow, places, followed)?;
    let linked = flow.linked;
    stated_rows(flow.alloc, linked.table(), places)
}

/// Infers the states that carry a method, and counts how often control flow is followed.
pub(crate) fn states_of(
    alloc: Global,
    linked: &Linked,
    method: &CheckedMethod,
    followed: &mut u64,
) -> Result<Vec<StateRow>, WordFault>
    requires laws { HasLaws linked.now }
    requires short { length method.now.code < 2 ^ 16 }
    ensures inferred { IfOk result (λ rows. IsInferred linked.now method.now (map stated rows.items)) }
    ensures counted { IfOk result (λ rows.
        IsCountedIn linked.now (map stated rows.items) followed.old followed.new) }
    ensures refused { IfErr result (λ fault. (pc : ℕ) (reason : Reason) → fault ≡ Refused pc reason
        → IsDenied linked.now method.now) }
    ensures told { IfErr result (λ fault. KeepsNames linked.now method.now
        → Tells (package_rules linked.now) method.now fault) }
{
    first_fault_laws();
    // Reading it proves that it is a byte.
    let _most = method.max_stack;
    let entries = entries_of(alloc, method)?;
    let mut numbered = number_places(alloc, method.code().len(), &entries)?;
    let flow = MethodFlow {
        alloc,
        linked,
        method,
        numbers: &numbered.numbers,
    };
    rows_in(&flow, &mut numbered.places, followed)
}
