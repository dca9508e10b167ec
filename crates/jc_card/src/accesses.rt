//! The laws of the firewall for commands (Java Card Runtime Environment Specification, Applet Isolation and Object
//! Sharing).

ghost use Rattle.std.specs.Prelude.{ℕ, List, [], ◌++◌, Result, IfSome};
ghost use Rattle.jc_base.specs.declared.fault.LoadFault.{LoadFault};
ghost use Rattle.jc_api.specs.Bound.{Bound};
ghost use Rattle.jc_api.specs.NoClash.{HasNoClash};
ghost use Rattle.jc_card.specs.Accesses.{AllCleared, ChangesBy, IsApartCard, IsGuardedCommand, KeepsApart};
ghost use Rattle.jc_card.specs.Accesses.{LeavesObjects};
ghost use Rattle.jc_card.specs.Card.{CardState};
ghost use Rattle.jc_card.specs.Commands.{apdu_command, reset_command};
ghost use Rattle.jc_card.specs.Install.{install_command};
ghost use Rattle.jc_card.specs.Load.{IsLoad};
ghost use Rattle.jc_card.specs.New.{new_card};
ghost use Rattle.jc_card.specs.Order.{Resets, apdu_order, install_order};
ghost use Rattle.jc_card.specs.PrivateGuarded.{StepsGuarded};
ghost use Rattle.jc_card.specs.Unseen.{IsLoadedAlike, KeepsOut, SeesNothing};
ghost use Rattle.jc_machine.specs.declared.limits.Limits.{Limits};
ghost use Rattle.jc_machine.specs.Machine.{Touch};
ghost use Rattle.jc_machine.specs.Unseen.{AreAlike};
ghost use Rattle.jc_store.specs.Heap.{Heap};
ghost use Rattle.jc_words.specs.Values.{TaggedValue};

use jc_machine::{
    accesses_are_guarded, accesses_are_the_instructions, contents_are_unseen, held_values_stay,
    new_machines_are_typed, owners_go_by_calls, runtime_objects_stay, steps_stay_apart,
    throws_are_caught,
};
use jc_natives::{
    Runtime, calls_keep_numbers, members_are_guarded, members_see_no_contents, members_stay_apart,
    written_words_are_held,
};
use jc_safety::api_runs_its_own_code;

/// The laws of each step and of each native member, in one record. It does nothing.
fn steps_are_guarded()
    ensures { StepsGuarded }
{
    members_are_guarded();
    members_stay_apart();
    members_see_no_contents();
    held_values_stay();
    written_words_are_held();
    calls_keep_numbers();
    accesses_are_guarded(&Runtime::new());
    accesses_are_the_instructions(&Runtime::new());
    owners_go_by_calls(&Runtime::new());
    throws_are_caught(&Runtime::new());
    contents_are_unseen(&Runtime::new());
    steps_stay_apart(&Runtime::new());
    api_runs_its_own_code();
}

/// The law of accesses, for each command on each card. A command consists of parts: calls of the instance that is
/// selected or installed, whose context counts as the selected one; words that the runtime writes to the APDU buffer or
/// the array of an install; and the clearing of exactly the transient arrays that an event and a context name. A call
/// takes at most the given number of steps, each from the machine that the one before it left, beginning with the frame
/// at the start of its method. Each step keeps the law of accesses of a step, and makes the accesses of its
/// instruction. It changes frames and their owners only by calls, returns and catches. What is thrown is caught by the
/// nearest handler that catches it. The packages and the objects stay.
/// Only objects with a listed allowed access change. After a reset each transient array is zero or null. A load makes
/// no access, and leaves each object unchanged. It does nothing.
pub fn commands_are_guarded()
    ensures apdu { (c : CardState) (bytes : List ℕ) → IfSome (apdu_command c bytes)
        (IsGuardedCommand (apdu_order c bytes) c) }
    ensures install { (c : CardState) (applet instance incoming : List ℕ)
        → IfSome (install_command c applet instance incoming) (IsGuardedCommand (install_order c applet) c) }
    ensures reset { (c : CardState) → IfSome (reset_command c) (IsGuardedCommand Resets c) }
    ensures cleared { (c : CardState) → IfSome (reset_command c) (λ l. AllCleared c.heap l.card.heap) }
    ensures load { (c after : CardState) (image certificate : List ℕ) (result : Result ℕ LoadFault)
        → IsLoad c image certificate result after → LeavesObjects c.heap after.heap }
{
    steps_are_guarded();
}

/// Only the runtime runs as the runtime, on a new card and after each command: no code of packages does. So a plain
/// object changes only in its owner's context, or by clearing. No field, component or static field holds a reference to
/// a temporary entry point or a global array, except static fields to arrays of libraries. It does nothing.
pub fn commands_stay_apart()
    ensures new { (limits : Limits) (binding : Bound) → HasNoClash binding → IsApartCard (new_card limits binding) }
    ensures apdu { (c : CardState) → IsApartCard c → (bytes : List ℕ)
        → IfSome (apdu_command c bytes) (λ l. KeepsApart (apdu_order c bytes) c l.touches l.card) }
    ensures install { (c : CardState) → IsApartCard c → (applet instance incoming : List ℕ)
        → IfSome (install_command c applet instance incoming)
        (λ l. KeepsApart (install_order c applet) c l.touches l.card) }
    ensures reset { (c : CardState) → IsApartCard c
        → IfSome (reset_command c) (λ l. KeepsApart Resets c l.touches l.card) }
    ensures load { (c after : CardState) (image certificate : List ℕ) (result : Result ℕ LoadFault) → IsApartCard c
        → IsLoad c image certificate result after → IsApartCard after }
{
    steps_are_guarded();
    held_values_stay();
    runtime_objects_stay();
    new_machines_are_typed();
}

/// A command leaves the plain objects of a context unchanged, as long as none of its steps runs in that context.
/// Transient arrays, which an event clears, are excepted. It does nothing.
pub fn commands_keep_contents()
    ensures apdu { (c : CardState) → IsApartCard c → (bytes : List ℕ) → IfSome (apdu_command c bytes) (KeepsOut c) }
    ensures install { (c : CardState) → IsApartCard c → (applet instance incoming : List ℕ)
        → IfSome (install_command c applet instance incoming) (KeepsOut c) }
    ensures reset { (c : CardState) → IsApartCard c → IfSome (reset_command c) (KeepsOut c) }
{
    steps_are_guarded();
}

/// A command sees nothing of the plain objects of a context, as long as none of its steps runs in that context. On a
/// card that differs only in their components it makes the same accesses, runs in the same contexts and has the same
/// answer, and the card after it differs only there. The same holds for a load, which runs nothing. It does nothing.
pub fn commands_see_no_contents()
    ensures apdu { (c : CardState) → IsApartCard c → (bytes : List ℕ) → SeesNothing c (λ c. apdu_command c bytes) }
    ensures install { (c : CardState) → IsApartCard c → (applet instance incoming : List ℕ)
        → SeesNothing c (λ c. install_command c applet instance incoming) }
    ensures reset { (c : CardState) → SeesNothing c reset_command }
    ensures load { (c after : CardState) (image certificate : List ℕ) (result : Result ℕ LoadFault)
        → IsLoad c image certificate result after → (context : ℕ) (heap : Heap TaggedValue)
        → AreAlike context c.heap heap → IsLoadedAlike context c image certificate result after heap }
{
    steps_are_guarded();
}

/// The changes of accesses, and of more accesses after them, add up. If each object is left unchanged, these are the
/// changes of no access. It does nothing.
pub fn accesses_add_up()
    ensures none { (before after : Heap TaggedValue) → LeavesObjects before after → ChangesBy [] before after }
    ensures more { (first between last : Heap TaggedValue) (touches behind : List Touch)
        → ChangesBy touches first between → ChangesBy behind between last → ChangesBy (touches ++ behind) first last }
{}
