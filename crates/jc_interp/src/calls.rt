//! Which method a call leads to (Java Card Virtual Machine Specification, invokevirtual, invokespecial, invokestatic,
//! invokeinterface).

ghost use Rattle.std.specs.Prelude.{◌≡◌, ◌-◌, None, Some, false, is_some};
ghost use Rattle.jc_firewall.specs.declared.access.Access.TheVariants.{InvokeInterface, InvokeVirtual};
ghost use Rattle.jc_interp.specs.PrivateCasts.{is_shared_interface};
ghost use Rattle.jc_interp.specs.PrivateCalls.{receiver, virtual_called};
ghost use Rattle.jc_interp.specs.PrivateRunning.{IsCalledByName, IsListedByName};
ghost use Rattle.jc_interp.specs.PrivateSeen.{verdict_on};
ghost use Rattle.jc_link.specs.Linked.{World as LinkedWorld};
ghost use Rattle.jc_program.specs.Called.{interface_call_at};
ghost use Rattle.jc_program.specs.Classes.{class_number};
ghost use Rattle.jc_program.specs.Program.{IsProgramOf};

use crate::machine::WordMachine;
use crate::seen::{Seen, look_at, verdict};
use crate::step_context::WordStepContext;
use jc_entries::Called;
use jc_firewall::{Access, Verdict};
use jc_names::ClassName;
use jc_program::{ClassNumber, InterfaceCall};

/// The context of the runtime.
const RUNTIME: u8 = 0;

/// Tokens from here on are package-visible.
const PACKAGE_VISIBLE: u8 = 128;

/// What the class of an object has at a virtual token, for the package whose method runs.
#[inline(always)]
#[tactic(auto, using(crate::proofs::ByName::virtual_by_name, crate::proofs::ByName::visible_by_name))]
pub(crate) fn virtual_called(here: &WordStepContext<'_>, class: u16, token: u8) -> Called
    ensures is { result ≡ virtual_called here.now class token }
    ensures by_name { (w : LinkedWorld) → IsProgramOf w here.now.program.now
        → IsCalledByName here.now.program.now result }
{
    let number = ClassNumber::new(class);
    if token < PACKAGE_VISIBLE {
        here.program.virtual_methods.virtual_method(number, token)
    } else {
        let package = here.frame.method.package;
        here.program
            .visible_methods
            .visible_method(number, token, package)
    }
}

/// The firewall's verdict on a call of a virtual method. An applet may call each object of its own context.
#[inline(always)]
pub(crate) fn verdict_on_call(here: &WordStepContext<'_>, object: Seen) -> Verdict
    ensures { result ≡ verdict_on here.now InvokeVirtual object None false }
{
    let context = here.frame.active.context;
    if context != RUNTIME && object.owner.context == context {
        Verdict::Allowed
    } else {
        verdict(here, Access::InvokeVirtual, object, None, false)
    }
}

/// Whether the interface with a number is Shareable, or extends it.
#[inline]
fn is_shared_number(here: &WordStepContext<'_>, number: ClassNumber, _interface: ClassName) -> bool
    requires named { class_number here.now.program.now.classes _interface ≡ Some number }
    ensures { result ≡ is_shared_interface here.now.program.now _interface }
{
    let row = here.program.rows.row(number);
    row.is_interface && row.is_shareable
}

/// The firewall's verdict on a call of a method of the interface with this number. It asks only for objects of other
/// contexts whether the interface is shared.
#[inline(always)]
pub(crate) fn verdict_on_interface(
    here: &WordStepContext<'_>,
    object: Seen,
    interface: ClassName,
    number: ClassNumber,
) -> Verdict
    requires named { class_number here.now.program.now.classes interface ≡ Some number }
    ensures { result ≡ verdict_on here.now InvokeInterface object None
        (is_shared_interface here.now.program.now interface) }
{
    let context = here.frame.active.context;
    if context != RUNTIME && object.owner.context == context {
        Verdict::Allowed
    } else {
        let is_shared = is_shared_number(here, number, interface);
        verdict(here, Access::InvokeInterface, object, None, is_shared)
    }
}

/// What the class of an object has at a token of the interface with this number.
#[inline(always)]
#[tactic(auto, using(crate::proofs::ByName::interface_by_name))]
pub(crate) fn interface_called(
    here: &WordStepContext<'_>,
    class: ClassNumber,
    number: ClassNumber,
    _interface: ClassName,
    token: u8,
) -> InterfaceCall
    requires named { class_number here.now.program.now.classes _interface ≡ Some number }
    ensures is { result ≡ interface_call_at here.now.program.now.interface_methods
        here.now.program.now.virtual_methods class number token }
    ensures by_name { (w : LinkedWorld) → IsProgramOf w here.now.program.now
        → IsListedByName here.now.program.now result }
{
    let virtual_methods = &here.program.virtual_methods;
    here.program
        .interface_methods
        .interface_method(virtual_methods, class, number, token)
}

impl WordMachine {
    /// Whether the object of a call of so many words isn't null.
    #[inline(always)]
    pub(crate) fn has_receiver(&self, words: u8) -> bool
        ensures { result ≡ is_some (receiver self.now words) }
    {
        self.store.is_there(self.operand(words.saturating_sub(1)))
    }

    /// The object of a call of so many words; none for null.
    #[inline(always)]
    pub(crate) fn receiver(&self, words: u8) -> Option<Seen>
        ensures { result ≡ receiver self.now words }
    {
        look_at(&self.store, self.operand(words.saturating_sub(1)))
    }
}
