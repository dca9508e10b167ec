//! The decision on an access. All of it is inlined: most callers name the access, and only its row stays then.

ghost use Rattle.std.specs.Prelude.{◌≡◌, ◌&&◌, false};
ghost use Rattle.std.specs.Option.{option_map_or};
ghost use Rattle.jc_firewall.specs.Verdict.{is_allowed, is_deselect, is_entry_point, is_global_array, is_never_stored};
ghost use Rattle.jc_firewall.specs.Verdict.{is_out_of_selection, is_own, row_of, stores_reference, verdict_for_runtime};
ghost use Rattle.jc_firewall.specs.Verdict.{verdict_in, verdict_of};
ghost use Rattle.jc_firewall.specs.declared.access.Access.TheVariants.{CheckCast};
ghost use Rattle.jc_firewall.specs.Verdict.AccessRow.{components, fields, interface_calls, shared_calls, shared_casts};
ghost use Rattle.jc_firewall.specs.Verdict.AccessRow.{throws, virtual_calls};

use crate::access::{Access, Facts, Rule, Verdict};
use jc_names::Owner;
use jc_store::{ClearingEvent, Mark};

#[inline(always)]
fn is_own(active: u8, facts: &Facts) -> bool
    ensures { result ≡ is_own active facts.now }
{
    facts.owner.context == active
}

#[inline(always)]
fn is_entry_point(mark: Mark) -> bool
    ensures { result ≡ is_entry_point mark }
{
    match mark {
        Mark::PermanentEntryPoint | Mark::TemporaryEntryPoint => true,
        Mark::Plain | Mark::GlobalArray => false,
    }
}

#[inline(always)]
fn is_global_array(mark: Mark) -> bool
    ensures { result ≡ is_global_array mark }
{
    match mark {
        Mark::GlobalArray => true,
        Mark::Plain | Mark::PermanentEntryPoint | Mark::TemporaryEntryPoint => false,
    }
}

/// Whether a reference is stored that may not be stored.
#[inline(always)]
fn stores_unstorable(facts: &Facts) -> bool
    ensures { result ≡ option_map_or is_never_stored facts.now.stored false }
{
    match facts.stored {
        Some(Mark::TemporaryEntryPoint | Mark::GlobalArray) => true,
        Some(Mark::Plain | Mark::PermanentEntryPoint) | None => false,
    }
}

/// Whether an array is cleared on deselect, while no applet of the active context is selected.
#[inline(always)]
fn is_out_of_selection(active: u8, facts: &Facts) -> bool
    ensures { result ≡ is_out_of_selection active facts.now }
{
    match facts.clears {
        Some(ClearingEvent::Deselect) => match facts.selected {
            Some(selected) => selected != active,
            None => true,
        },
        Some(ClearingEvent::Reset) | None => false,
    }
}

#[inline(always)]
fn on_field(active: u8, facts: &Facts) -> Verdict
    ensures { result ≡ verdict_in fields active facts.now }
{
    if is_own(active, facts) {
        Verdict::Allowed
    } else {
        Verdict::Denied(Rule::Fields)
    }
}

#[inline(always)]
fn on_components(active: u8, facts: &Facts) -> Verdict
    ensures { result ≡ verdict_in components active facts.now }
{
    if is_out_of_selection(active, facts) {
        Verdict::Denied(Rule::Selection)
    } else if is_own(active, facts) || is_global_array(facts.mark) {
        Verdict::Allowed
    } else {
        Verdict::Denied(Rule::Components)
    }
}

#[inline(always)]
fn on_virtual_call(active: u8, facts: &Facts) -> Verdict
    ensures { result ≡ verdict_in virtual_calls active facts.now }
{
    if is_own(active, facts) {
        Verdict::Allowed
    } else if is_entry_point(facts.mark) || is_global_array(facts.mark) {
        Verdict::AllowedSwitch(Owner::RUNTIME)
    } else {
        Verdict::Denied(Rule::Calls)
    }
}

#[inline(always)]
fn on_interface_call(active: u8, facts: &Facts) -> Verdict
    ensures { result ≡ verdict_in interface_calls active facts.now }
{
    if is_own(active, facts) {
        Verdict::Allowed
    } else if is_entry_point(facts.mark) {
        Verdict::AllowedSwitch(Owner::RUNTIME)
    } else {
        Verdict::Denied(Rule::Calls)
    }
}

#[inline(always)]
fn on_shared_call(active: u8, facts: &Facts) -> Verdict
    ensures { result ≡ verdict_in shared_calls active facts.now }
{
    if is_own(active, facts) {
        Verdict::Allowed
    } else if is_entry_point(facts.mark) {
        Verdict::AllowedSwitch(Owner::RUNTIME)
    } else if facts.is_shareable {
        Verdict::AllowedSwitch(facts.owner)
    } else {
        Verdict::Denied(Rule::SharedCalls)
    }
}

#[inline(always)]
fn on_throw(active: u8, facts: &Facts) -> Verdict
    ensures { result ≡ verdict_in throws active facts.now }
{
    if is_own(active, facts) || is_entry_point(facts.mark) {
        Verdict::Allowed
    } else {
        Verdict::Denied(Rule::Throws)
    }
}

#[inline(always)]
fn on_cast(active: u8, facts: &Facts) -> Verdict
    ensures { result ≡ verdict_in (row_of CheckCast facts.now) active facts.now }
{
    if facts.is_array {
        return on_components(active, facts);
    }
    if is_own(active, facts) || is_entry_point(facts.mark) {
        Verdict::Allowed
    } else if !facts.is_shared_interface {
        Verdict::Denied(Rule::Casts)
    } else if facts.is_shareable {
        Verdict::Allowed
    } else {
        Verdict::Denied(Rule::SharedCasts)
    }
}

/// The verdict if the active context isn't the runtime's, and no reference is stored that may not be stored.
#[inline(always)]
fn between_applets(access: Access, active: u8, facts: &Facts) -> Verdict
    ensures { result ≡ verdict_in (row_of access facts.now) active facts.now }
{
    match access {
        Access::PutStaticReference => Verdict::Allowed,
        Access::PutReferenceField | Access::PutField | Access::GetField => on_field(active, facts),
        Access::LoadComponent
        | Access::StoreComponent
        | Access::StoreReference
        | Access::ArrayLength => on_components(active, facts),
        Access::InvokeVirtual => on_virtual_call(active, facts),
        Access::InvokeInterface => {
            if facts.is_shared_interface {
                on_shared_call(active, facts)
            } else {
                on_interface_call(active, facts)
            }
        }
        Access::Throw => on_throw(active, facts),
        Access::CheckCast | Access::InstanceOf => on_cast(active, facts),
    }
}

/// The verdict if the runtime is active.
#[inline(always)]
fn of_runtime(access: Access, facts: &Facts) -> Verdict
    ensures { result ≡ verdict_for_runtime (row_of access facts.now) facts.now }
{
    match access {
        Access::InvokeVirtual | Access::InvokeInterface => Verdict::AllowedSwitch(facts.owner),
        Access::PutStaticReference
        | Access::PutReferenceField
        | Access::PutField
        | Access::GetField
        | Access::LoadComponent
        | Access::StoreComponent
        | Access::StoreReference
        | Access::ArrayLength
        | Access::Throw
        | Access::CheckCast
        | Access::InstanceOf => Verdict::Allowed,
    }
}

/// Whether an access stores a reference.
#[inline(always)]
fn stores_reference(access: Access) -> bool
    ensures { result ≡ stores_reference access }
{
    match access {
        Access::PutStaticReference | Access::PutReferenceField | Access::StoreReference => true,
        Access::PutField
        | Access::GetField
        | Access::LoadComponent
        | Access::StoreComponent
        | Access::ArrayLength
        | Access::InvokeVirtual
        | Access::InvokeInterface
        | Access::Throw
        | Access::CheckCast
        | Access::InstanceOf => false,
    }
}

/// The verdict on an access of code in the active context (Java Card Runtime Environment Specification, Class and
/// Object Access Behavior).
#[inline(always)]
pub fn decide(access: Access, active: u8, facts: &Facts) -> Verdict
    ensures { result ≡ verdict_of access active facts.now }
{
    if active == Owner::RUNTIME.context {
        of_runtime(access, facts)
    } else if stores_reference(access) && stores_unstorable(facts) {
        Verdict::Denied(Rule::Storing)
    } else {
        between_applets(access, active, facts)
    }
}

/// Whether an access is allowed.
#[inline(always)]
pub fn allows(access: Access, active: u8, facts: &Facts) -> bool
    ensures { result ≡ is_allowed (verdict_of access active facts.now) }
{
    match decide(access, active, facts) {
        Verdict::Allowed | Verdict::AllowedSwitch(_) => true,
        Verdict::Denied(_) => false,
    }
}
