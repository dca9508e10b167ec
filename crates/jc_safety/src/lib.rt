//! Type safety: in a world of accepted packages, a well-typed machine is never stuck.
#![tactic(auto)]

ghost use Rattle.std.specs.Prelude.{◌≡◌, ◌<◌, ℕ, Bool, List, Some, slice_get};
ghost use Rattle.jc_machine.specs.Apart.{HaveApiMembers};
ghost use Rattle.jc_machine.specs.Running.{MayRun};
ghost use Rattle.jc_machine.specs.Machine.{Machine, MethodPlace, Surroundings};
ghost use Rattle.jc_machine.specs.Step.{Start, defensive_step, no_frame, runtime_call, standing, steps_of};
ghost use Rattle.jc_machine.specs.Typed.{IsTyped, IsTypedBeside};
ghost use Rattle.jc_cap_desc.specs.Shape.{Shape};
ghost use Rattle.jc_link.specs.Built.{IsBuilt};
ghost use Rattle.jc_link.specs.Kept.{Kept};
ghost use Rattle.jc_link.specs.Linked.{IsLoadedAt, Linked};
ghost use Rattle.jc_link.specs.Statics.{static_fields};
ghost use Rattle.jc_safety.specs.PrivateLaws.{Laws};
ghost use Rattle.jc_safety.specs.Loading.{HaveOwnOffsets, MayLoad, around_behind, machine_behind};
ghost use Rattle.jc_safety.specs.Safety.{EndsTyped, StaysTyped};
ghost use Rattle.jc_safety.specs.Starting.{FindsMethod, IsMemberCall, IsTypedStart, MethodCanBegin, first_frame};
ghost use Rattle.jc_safety.specs.Zeroing.{with_heap, zeroed_where};
ghost use Rattle.jc_store.specs.Heap.{Object, object_at, with_cell, with_object};
ghost use Rattle.jc_store.specs.declared.kind.ObjectType.TheVariants.{ByteArray};
ghost use Rattle.jc_words.specs.Values.{TaggedValue, Word};

mod examples;

pub use examples::images_are_read;
use jc_classes::{found_subtypes_are_subtypes, growing_keeps_lookups, superclass_laws};
use jc_code::listing_laws;
use jc_effects::growing_keeps_effects;
use jc_link::{
    built_worlds_are_sound, built_worlds_name_classes, built_worlds_stand_on_the_api,
    growing_keeps_linking,
};
use jc_machine::{
    Natives, accepted_methods_are_typed, cells_follow_superclasses, instructions_begin_in_turn,
    methods_have_code, operations_on_words_keep_types, runtime_objects_stay,
};

// The laws of the crates below that type safety rests on. It does nothing.
#[inline(always)]
fn laws_below()
    ensures { Laws }
{
    growing_keeps_lookups();
    growing_keeps_linking();
    growing_keeps_effects();
    built_worlds_are_sound();
    built_worlds_name_classes();
    built_worlds_stand_on_the_api();
    cells_follow_superclasses();
    superclass_laws();
    found_subtypes_are_subtypes();
    methods_have_code();
    accepted_methods_are_typed();
    listing_laws();
    instructions_begin_in_turn();
    runtime_objects_stay();
}

/// Accepted packages are type-safe. If each package of a world was linked and checked, and the native members keep
/// their law, a well-typed machine is never stuck. In each step it goes on and is well typed, or its call ends: with a
/// value, with an object that nothing caught, or used up. After the end, what it keeps beside its frames is typed. The
/// same holds for any number of steps, and for a whole runtime call that can begin. A virtual member of the API that is
/// called on an object of its class can begin: that class has a method in its place. What the runtime keeps may be of
/// any type. It does nothing.
pub fn accepted_packages_are_type_safe<N: Natives>(natives: &N)
    ensures steps { (s : Surroundings N.Kept) → MayRun s → (m : Machine N.Kept) → IsTyped s m
        → StaysTyped s (defensive_step s m).outcome }
    ensures runs { (s : Surroundings N.Kept) → MayRun s → (steps : ℕ) (m : Machine N.Kept) → IsTyped s m
        → EndsTyped s (steps_of s steps m).ends }
    ensures calls { (s : Surroundings N.Kept) → MayRun s → (steps : ℕ) (start : Start N.Kept) → IsTypedStart s start
        → EndsTyped s (runtime_call s steps start).ends }
    ensures first { (s : Surroundings N.Kept) → MayRun s → (start : Start N.Kept) (place : MethodPlace)
        (can : MethodCanBegin s start place) → IsTypedBeside s (standing start (no_frame start.owner))
        → IsTyped s (standing start (first_frame start place can.header)) }
    ensures members { (s : Surroundings N.Kept) → MayRun s → (start : Start N.Kept)
        → IsTypedBeside s (standing start (no_frame start.owner)) → (member : ℕ) (object : Object TaggedValue)
        → IsMemberCall s start member object → FindsMethod s start member object }
{
    laws_below();
    operations_on_words_keep_types(natives);
}

/// What the runtime itself does to objects leaves them typed: it may zero any of them, and write a byte to an array of
/// bytes. It does nothing.
pub fn objects_stay_typed<N: Natives>(natives: &N)
    ensures zeroed { (s : Surroundings N.Kept) → MayRun s → (m : Machine N.Kept) → IsTypedBeside s m
        → (test : Object TaggedValue → Bool) → IsTypedBeside s (with_heap m (zeroed_where test m.heap)) }
    ensures byte { (s : Surroundings N.Kept) → MayRun s → (m : Machine N.Kept) → IsTypedBeside s m
        → (number index byte : ℕ) (object : Object TaggedValue) → object_at m.heap number ≡ Some object
        → object.kind.object_type ≡ ByteArray → byte < 256
        → IsTypedBeside s (with_heap m (with_object m.heap number (with_cell object index (Word byte)))) }
{
    laws_below();
    operations_on_words_keep_types(natives);
}

/// Loading a package leaves what is kept beside frames typed, in the world with that package: the objects that were
/// there, its initialised arrays, and all static fields, each of which has a value. It does nothing.
pub fn loads_stay_typed<N: Natives>(_natives: &N)
    ensures { (s : Surroundings N.Kept) (m : Machine N.Kept) (l : Linked) → MayLoad s m l
        → IsTypedBeside (around_behind s l) (machine_behind s m l) }
{
    laws_below();
}

/// In a built world, classes of the API have only methods of the API, and only Applet is below Applet among them. It
/// does nothing.
pub fn api_runs_its_own_code()
    ensures { (world : List Shape) → IsBuilt world → HaveApiMembers world }
{
    laws_below();
}

/// The static fields of a loaded package lie within its image, each at an offset of its own. It does nothing.
pub fn static_fields_have_own_offsets()
    ensures { (world : List Shape) (home : ℕ) (kept : Kept) (shape : Shape) → IsLoadedAt world home kept
        → slice_get world home ≡ Some shape → HaveOwnOffsets kept.statics (static_fields shape) }
{}
