//! Laws of all native members.

ghost use Rattle.std.specs.Prelude.{◌≡◌, ◌<◌, ◌≤◌, ◌++◌, ℕ, Bool, List, Some, length, map, suc, true};
ghost use Rattle.jc_api.specs.Member.{ApiMember, member_of};
ghost use Rattle.jc_cap_desc.specs.Shape.{Shape};
ghost use Rattle.jc_link.specs.Built.{IsBuilt};
ghost use Rattle.jc_link.specs.Linked.{IsBoundTo, Linked, World, with_linked};
ghost use Rattle.jc_machine.specs.Apart.{AreNativesApart, is_applets};
ghost use Rattle.jc_machine.specs.Unseen.{AreNativesBlind};
ghost use Rattle.jc_machine.specs.Calls.{type_of_member};
ghost use Rattle.jc_machine.specs.Machine.{NativeCall, Surroundings};
ghost use Rattle.jc_machine.specs.Natives.{IsGuardedAnswer, KeepsObjects};
ghost use Rattle.jc_machine.specs.Runtime.{HasRuntimeObjects};
ghost use Rattle.jc_machine.specs.Step.{Start, runtime_call};
ghost use Rattle.jc_names.specs.declared.owner.Owner.{Owner};
ghost use Rattle.jc_natives.specs.Apart.{names_applets};
ghost use Rattle.jc_natives.specs.Counted.{LeavesNumbers};
ghost use Rattle.jc_natives.specs.MemberTypes.{declared_signature};
ghost use Rattle.jc_natives.specs.Kept.{Kept, after_install, are_bytes, is_aid, is_instance_number, nothing_kept};
ghost use Rattle.jc_natives.specs.Kept.{with_command, with_install, without_command};
ghost use Rattle.jc_natives.specs.Meaning.{meaning};
ghost use Rattle.jc_natives.specs.Registered.{LeavesInstances};
ghost use Rattle.jc_natives.specs.Remembered.{IsRemembered, KeepsAids};
ghost use Rattle.jc_store.specs.Heap.{Heap};
ghost use Rattle.jc_machine.specs.Storable.{HoldStorable};
ghost use Rattle.jc_natives.specs.Cells.{put_all};
ghost use Rattle.jc_words.specs.Values.{TaggedValue, Word};

use crate::kept::Runtime;
use jc_classes::growing_keeps_lookups;
use jc_link::built_worlds_stand_on_the_api;
use jc_machine::{calls_keep_what_members_keep, held_values_stay};

/// Each access of a native member is allowed, or is its last and changes nothing. Only objects that were accessed
/// change. It does nothing.
#[tactic(auto, using(crate::proofs::Answering::answers_guarded))]
pub fn members_are_guarded()
    ensures { (w : World) (call : NativeCall Kept) → IsGuardedAnswer meaning w call (meaning.answer w call) }
{}

/// A member that an applet calls sees no component of another context's plain objects. It does nothing.
#[tactic(auto, using(crate::proofs::UnseenAnswers::members_blind))]
pub fn members_see_no_contents()
    ensures { AreNativesBlind meaning }
{}

/// The runtime's state fits the objects as long as these stay. It does nothing.
#[tactic(auto, using(crate::proofs::Keeping::kept_fits_still))]
pub fn kept_stays_fit()
    ensures { (w : World) (before after : Heap TaggedValue) (kept : Kept) → KeepsObjects before after
        → meaning.fits w before kept ≡ true → meaning.fits w after kept ≡ true }
{}

/// The runtime's state fits the objects on a new card, and after each call of the runtime itself: an install that
/// begins with the next number and ends, and a command that is given and ends. It does nothing.
pub fn calls_keep_fitting()
    ensures new { (w : World) (heap : Heap TaggedValue) → meaning.fits w heap nothing_kept ≡ true }
    ensures begun { (w : World) (heap : Heap TaggedValue) (k : Kept) → meaning.fits w heap k ≡ true
        → (owner : Owner) (aid : List ℕ) → is_aid aid ≡ true → owner.instance ≡ suc k.numbers → k.numbers < 32
        → meaning.fits w heap (with_install k owner aid) ≡ true }
    ensures over { (w : World) (heap : Heap TaggedValue) (k : Kept) → meaning.fits w heap k ≡ true
        → (succeeds : Bool) → meaning.fits w heap (after_install k succeeds) ≡ true }
    ensures opened { (w : World) (heap : Heap TaggedValue) (k : Kept) → meaning.fits w heap k ≡ true
        → (incoming : List ℕ) (expected : ℕ) (selecting : Bool) → are_bytes incoming ≡ true
        → length incoming ≤ 255 → expected < 256
        → meaning.fits w heap (with_command k incoming expected selecting) ≡ true }
    ensures closed { (w : World) (heap : Heap TaggedValue) (k : Kept) → meaning.fits w heap k ≡ true
        → meaning.fits w heap (without_command k) ≡ true }
{}

/// No call of the runtime assigns instance numbers: after it as many are assigned as before. It does nothing.
pub fn calls_keep_numbers()
    ensures { (s : Surroundings Kept) → s.natives ≡ meaning → (steps : ℕ) (start : Start Kept)
        → LeavesNumbers start.runtime.numbers (runtime_call s steps start).ends }
{
    members_are_guarded();
    calls_keep_what_members_keep(&Runtime::new());
}

/// A call of the runtime registers at most the instance that is being installed, and only once; otherwise the instances
/// don't change. It does nothing.
pub fn calls_register_the_installed()
    ensures { (s : Surroundings Kept) → s.natives ≡ meaning → (steps : ℕ) (start : Start Kept)
        → LeavesInstances start.runtime (runtime_call s steps start).ends }
{
    members_are_guarded();
    members_keep_what_is_kept();
    calls_keep_what_members_keep(&Runtime::new());
}

/// Native members keep the runtime's name apart, too. A member that an applet calls accesses no plain object in the
/// runtime's name, and stores no reference where it may not be stored. The runtime's state names only applets: on a new
/// card, and after each call of the runtime itself. It does nothing.
pub fn members_stay_apart()
    ensures members { AreNativesApart names_applets meaning }
    ensures new { names_applets nothing_kept ≡ true }
    ensures begun { (k : Kept) → names_applets k ≡ true → (owner : Owner) (aid : List ℕ) → is_applets owner ≡ true
        → is_instance_number owner.instance ≡ true → names_applets (with_install k owner aid) ≡ true }
    ensures over { (k : Kept) → names_applets k ≡ true → (succeeds : Bool)
        → names_applets (after_install k succeeds) ≡ true }
    ensures opened { (k : Kept) → names_applets k ≡ true → (incoming : List ℕ) (expected : ℕ) (selecting : Bool)
        → names_applets (with_command k incoming expected selecting) ≡ true }
    ensures closed { (k : Kept) → names_applets k ≡ true → names_applets (without_command k) ≡ true }
{
    held_values_stay();
}

/// Objects that hold only storable values still do after words are written to one. It does nothing.
pub fn written_words_are_held()
    ensures { (heap : Heap TaggedValue) → HoldStorable heap → (number from : ℕ) (words : List ℕ)
        → HoldStorable (put_all heap number from (map Word words)) }
{
    held_values_stay();
}

/// The runtime's state still fits after a load: in the world with the package, and with more objects after those that
/// were there. It does nothing.
pub fn loads_keep_fitting()
    ensures { (w : World) (l : Linked) → IsBoundTo w l → (heap more : Heap TaggedValue) (k : Kept)
        → meaning.fits w heap k ≡ true → meaning.fits (with_linked w l) (heap ++ more) k ≡ true }
{
    growing_keeps_lookups();
}

/// The declared types of the API's members in each built world. It does nothing.
pub fn members_are_declared()
    ensures { (world : List Shape) → IsBuilt world → (number : ℕ) (member : ApiMember)
        → member_of number ≡ Some member → type_of_member world number ≡ Some (declared_signature member) }
{
    built_worlds_stand_on_the_api();
}

/// What a native member may change of the runtime's state, and which AIDs it returns. Only register registers an
/// instance, of the applet on which it is called, for the instance that is being installed. Only members of APDU change
/// the state of the exchange. getAID and a request for a shareable object pass on the AID of the active owner, and
/// getPreviousContextAID that of the owner before it. In a built world with the runtime's own objects, a call by an
/// applet leaves the AID objects unchanged, except if register is called for that of the instance that is being
/// installed and hasn't registered. It does nothing.
pub fn members_keep_what_is_kept()
    ensures remembered { (w : World) (call : NativeCall Kept) → IsRemembered call (meaning.answer w call) }
    ensures aids { (w : World) → IsBuilt w.shapes → (call : NativeCall Kept) → HasRuntimeObjects call.heap
        → is_applets call.active ≡ true → KeepsAids call (meaning.answer w call).heap }
{
    built_worlds_stand_on_the_api();
}
