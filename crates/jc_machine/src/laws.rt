//! Laws of accepted worlds, and of the machine's steps.

ghost use Rattle.std.specs.Prelude.{◌≡◌, ◌≢◌, ◌↔◌, Bool, List, Some, true, false, option_map, ℕ};
ghost use Rattle.jc_api.specs.Bound.{Bound};
ghost use Rattle.jc_api.specs.NoClash.{HasNoClash};
ghost use Rattle.jc_cap_desc.specs.Shape.{MethodBody, Shape};
ghost use Rattle.jc_classes.specs.Limits.{IsSmall};
ghost use Rattle.jc_check.specs.Checked.{IsMethodTyped, IsPackageCarried, IsPackageTyped};
ghost use Rattle.jc_code.specs.Instructions.{instr_at};
ghost use Rattle.jc_code.specs.Listing.{IsListing, PlacedInstr, placed_at};
ghost use Rattle.jc_code.specs.declared.instr.Instr.{Instr};
ghost use Rattle.jc_link.specs.Built.{IsBuilt};
ghost use Rattle.jc_machine.specs.Accepted.{HaveByteTokens, HaveCode, IsAccepted, api_alone, linked_as};
ghost use Rattle.jc_machine.specs.Accessing.{AccessesAreOwn};
ghost use Rattle.jc_machine.specs.Apart.{AreNativesApart, HaveApiMembers, IsApart, IsSetApart, StaysApart};
ghost use Rattle.jc_machine.specs.Apart.{is_applets};
ghost use Rattle.jc_machine.specs.Catching.{UnwindsTo};
ghost use Rattle.jc_machine.specs.Guarded.{AddsFor, IsGuarded, IsRefused, are_allowed, machine_of};
ghost use Rattle.jc_machine.specs.Keeping.{LeavesKept, MembersKeep};
ghost use Rattle.jc_machine.specs.Lookup.{body_at, class_of, code_at, instruction_at};
ghost use Rattle.jc_machine.specs.Machine.{Machine, MethodPlace, StaticValue, Surroundings, Throws};
ghost use Rattle.jc_machine.specs.Natives.{AreNativesGuarded, KeepsObjects};
ghost use Rattle.jc_machine.specs.Runtime.{HasRuntimeObjects};
ghost use Rattle.jc_machine.specs.Step.{Start, defensive_step, no_frame, runtime_call, settled, standing};
ghost use Rattle.jc_machine.specs.Going.{with_heap};
ghost use Rattle.jc_machine.specs.Owning.{StepsOwned};
ghost use Rattle.jc_machine.specs.Unseen.{AreAlike, AreNativesBlind, CallsAlike, StepsAlike, from_objects, stays_out};
ghost use Rattle.jc_machine.specs.Storable.{FieldsHoldStorable, HoldStorable, may_be_held};
ghost use Rattle.jc_machine.specs.TypedWords.{KeepWordsTyped};
ghost use Rattle.jc_machine.specs.Uncounted.{HaveCells, IsInstructionAt};
ghost use Rattle.jc_link.specs.Linked.{IsBoundTo, IsLast, IsWorld, Linked, LinkedBody, World, with_linked};
ghost use Rattle.jc_names.specs.declared.owner.Owner.{Owner};
ghost use Rattle.jc_store.specs.Heap.{Heap, Object, object_at};
ghost use Rattle.jc_words.specs.Values.{TaggedValue};

use crate::natives::Natives;
use jc_classes::growing_keeps_lookups;
use jc_code::listing_laws;
use jc_link::{built_worlds_are_sound, built_worlds_have_the_api, growing_keeps_linking};
use jc_words::word_laws;

/// In each world, each method of a loaded package's classes that isn't abstract has code. It does nothing.
#[tactic(auto, using(crate::proofs::HavingCode::have_code))]
pub fn methods_have_code()
    ensures { (w : World) → IsWorld w → HaveCode w }
{}

/// In an accepted world each method with code is well typed, by a typing whose states are of its shape. It does
/// nothing.
pub fn accepted_methods_are_typed()
    ensures { (w : World) → IsAccepted w → (place : MethodPlace) (body : LinkedBody) (code : MethodBody)
        → body_at w place.number ≡ Some body → code_at w place ≡ Some code
        → IsMethodTyped (linked_as w place.number body) code }
{}

/// The world with only the API's packages is accepted, if its binding has no clash. If a package is linked to an
/// accepted world, the grown world is accepted too, provided that the package was bound to this world, the new world is
/// within the limits of a world, the tokens of virtual methods in the package's pool are bytes, some certificate
/// carries the package, and its methods are well typed. It does nothing.
pub fn accepted_worlds_grow()
    ensures api { (bound : Bound) → HasNoClash bound → IsAccepted (api_alone bound) }
    ensures grown { (w : World) (l : Linked) → IsAccepted w → IsBoundTo w l → IsLast l → IsSmall l.world
        → HaveByteTokens l.body.kept.pool → IsPackageCarried l → IsPackageTyped l → IsAccepted (with_linked w l) }
{
    growing_keeps_lookups();
    growing_keeps_linking();
}

/// If each object stays, as after a native member, the runtime's own objects stay. It does nothing.
pub fn runtime_objects_stay()
    ensures { (before after : Heap TaggedValue) → KeepsObjects before after → HasRuntimeObjects before
        → HasRuntimeObjects after }
{}

/// The law of accesses. It holds for each step of each machine, well typed or not, if its native members keep their
/// law. Each access is made in the context of the running frame, or by the runtime to one of its named objects. If a
/// native member calls a member of another object, that call may also access that object, in its owner's context. The
/// firewall judges each access, by the value that it stores and the class that it wants. Each access is allowed; or
/// only the last is denied, and then the security exception is thrown with the machine unchanged. Components change
/// only in objects with a listed and allowed access that may change them; in a plain object only if the frame runs in
/// its owner's context, or the runtime makes the access. Each object stays, with its kind, owner and size. A new object
/// is plain and belongs to the active owner, and its components are zero or null. Static fields don't change, except
/// the one that a putstatic names by its package's constant pool: its own, or one that another package exports. What
/// the runtime keeps may be of any type. It does nothing.
pub fn accesses_are_guarded<N: Natives>(_natives: &N)
    ensures guarded { (s : Surroundings N.Kept) → AreNativesGuarded s.natives → (m : Machine N.Kept) → IsGuarded s m }
    ensures denied { (s : Surroundings N.Kept) → AreNativesGuarded s.natives → (m : Machine N.Kept)
        → are_allowed (defensive_step s m).touches ≡ false → IsRefused s m (defensive_step s m) }
    ensures kept { (s : Surroundings N.Kept) → AreNativesGuarded s.natives → (m after : Machine N.Kept)
        → machine_of (defensive_step s m).outcome ≡ Some after → KeepsObjects m.heap after.heap }
{}

/// Only the runtime acts in its own name. If no frame is active as the runtime, no object in its context has code of a
/// package, and each object that isn't plain belongs to it, then this also holds after each step, and the step accesses
/// no plain object in the runtime's name. So the components of a plain object change only if its owner's context is
/// that of the running frame. No field or component holds a reference to a temporary entry point or a global array,
/// except that a static field may hold one to an array of a library. Objects are still set apart if each stays, new
/// ones are plain and belong to an owner in the context of a package, and components hold no other references. What the
/// runtime keeps may be of any type, with any test that the native members preserve. It does nothing.
pub fn steps_stay_apart<N: Natives>(_natives: &N)
    ensures steps { (keeps : N.Kept → Bool) (s : Surroundings N.Kept) → AreNativesGuarded s.natives
        → AreNativesApart keeps s.natives → HaveApiMembers s.world.shapes → (m : Machine N.Kept) → IsApart keeps m
        → StaysApart keeps s m }
    ensures objects { (before after : Heap TaggedValue) (owner : Owner) → IsSetApart before → KeepsObjects before after
        → is_applets owner ≡ true → AddsFor owner before after → HoldStorable after → IsSetApart after }
{}

/// The owners of frames. After each step, the running frame continues with its owners and the waiting frames don't
/// change; or it waits, and a new frame runs; or a waiting frame continues, and the frames inside it are dropped. The
/// new frame has its caller's owners, or the active owner is the one to which the verdict on the call's access
/// switches, or the owner of an object that is asked for a shareable object. It does nothing.
pub fn owners_go_by_calls<N: Natives>(_natives: &N)
    ensures { (s : Surroundings N.Kept) → AreNativesGuarded s.natives → (m : Machine N.Kept) → StepsOwned s m }
{}

/// The accesses of each step are those of its instruction. A table gives an instruction an access, and the place of the
/// reference to the object that it accesses. The step's first access is this one, to that object, and it stores and
/// names what the table says. It is missing only if the instruction has no row, the reference is null, or the machine
/// gets stuck. Further accesses of an invoke instruction are those of a native member, and of the member that this one
/// calls back. A further access of an instruction that creates an object is the runtime's own. It does nothing.
pub fn accesses_are_the_instructions<N: Natives>(_natives: &N)
    ensures { (s : Surroundings N.Kept) → AreNativesGuarded s.natives → (m : Machine N.Kept) → AccessesAreOwn s m }
{}

/// A thrown object is caught in the innermost frame with an exception handler that covers the frame's pc and catches
/// objects of its class; the first such handler catches it. The frame continues there, with the object as its only
/// operand. The frames inside it are dropped, and nothing else changes. If no frame has such a handler, the object is
/// thrown out of the call. A machine that isn't well typed may get stuck instead. It does nothing.
pub fn throws_are_caught<N: Natives>(_natives: &N)
    ensures { (s : Surroundings N.Kept) → (m : Machine N.Kept) → (object : ℕ) → (o : Object TaggedValue)
        → object_at m.heap object ≡ Some o
        → UnwindsTo s m object (class_of o.kind.object_type) (settled s (Throws m object)) }
{}

/// No step of a frame in another package's context sees the components of a context's plain objects. Nor does a runtime
/// call, if none of its steps runs in that context. On objects that differ only in these components, it makes the same
/// accesses, and has the same result except for them. It does nothing.
pub fn contents_are_unseen<N: Natives>(_natives: &N)
    ensures steps { (context : ℕ) (s : Surroundings N.Kept) → AreNativesGuarded s.natives → AreNativesBlind s.natives
        → (m : Machine N.Kept) → HasRuntimeObjects m.heap → is_applets m.top.active ≡ true
        → m.top.active.context ≢ context → (heap : Heap TaggedValue) → AreAlike context m.heap heap
        → StepsAlike context (defensive_step s m) (defensive_step s (with_heap m heap)) }
    ensures calls { (context : ℕ) (s : Surroundings N.Kept) → AreNativesGuarded s.natives → AreNativesBlind s.natives
        → (keeps : N.Kept → Bool) → AreNativesApart keeps s.natives → HaveApiMembers s.world.shapes
        → (start : Start N.Kept) → IsApart keeps (standing start (no_frame start.owner)) → (heap : Heap TaggedValue)
        → AreAlike context start.heap heap → (steps : ℕ)
        → stays_out context (runtime_call s steps start).ran ≡ true
        → CallsAlike context (runtime_call s steps start) (runtime_call s steps (from_objects start heap)) }
{}

/// If the native members preserve a test of what the runtime keeps, each runtime call preserves it: nothing else
/// changes what the runtime keeps. It does nothing.
pub fn calls_keep_what_members_keep<N: Natives>(_natives: &N)
    ensures { (keeps : N.Kept → Bool) (s : Surroundings N.Kept) → AreNativesGuarded s.natives
        → MembersKeep keeps s.natives → (steps : ℕ) (start : Start N.Kept) → keeps start.runtime ≡ true
        → LeavesKept keeps (runtime_call s steps start).ends }
{}

/// As long as objects stay, a component or a static field may still hold each value that it could hold before. It does
/// nothing.
pub fn held_values_stay()
    ensures held { (before after : Heap TaggedValue) → KeepsObjects before after → (v : TaggedValue)
        → may_be_held before v ≡ true → may_be_held after v ≡ true }
    ensures fields { (before after : Heap TaggedValue) → KeepsObjects before after → (statics : List (List StaticValue))
        → FieldsHoldStorable before statics → FieldsHoldStorable after statics }
{}

/// An instruction is found at a pc of code if and only if it begins there, after consecutive instructions from the
/// first byte on. If the code is a list of instructions, the one found is the listed one at that pc. It does nothing.
pub fn instructions_begin_in_turn()
    ensures begin { (code : List ℕ) (pc : ℕ) (instr : Instr)
        → (instruction_at code pc ≡ Some instr) ↔ IsInstructionAt code pc instr }
    ensures listed { (code : List ℕ) (listing : List PlacedInstr) (pc : ℕ) → IsListing instr_at code listing
        → instruction_at code pc ≡ option_map (λ (x : PlacedInstr). x.instr) (placed_at listing pc) }
{
    listing_laws();
}

/// In a small built world, the cells of a class are those of its superclass, followed by its own, and there are as many
/// as its chain declares. Each instance field that a pool entry leads to is at its cell, with its type. It does
/// nothing.
pub fn cells_follow_superclasses()
    ensures { (world : List Shape) → IsSmall world → IsBuilt world → HaveCells world }
{
    built_worlds_are_sound();
    built_worlds_have_the_api();
}

/// If an operation on words has an effect on the types of a frame's values, the frame continues with values of the
/// types after it, at the next instruction or at one of the operation's branch targets; or the operation throws the
/// arithmetic exception; or it returns a word. This holds in any world, with any objects, and for any order of classes.
/// What the runtime keeps may be of any type. It does nothing.
pub fn operations_on_words_keep_types<N: Natives>(_natives: &N)
    ensures { KeepWordsTyped N.Kept }
{
    word_laws();
}
