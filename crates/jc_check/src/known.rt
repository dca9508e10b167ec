//! The classes in the types of a linked package's methods, and the numbers of locals and operands.

ghost use Rattle.std.specs.Prelude.{◌≡◌, ◌+◌, ◌-◌, ◌<◌, ◌^◌, ℕ, true, Some, Ok, Contains, length, slice_get};
ghost use Rattle.std.specs.Option.{option_map_or};
ghost use Rattle.jc_cap_desc.specs.Shape.{MethodBody};
ghost use Rattle.jc_classes.specs.Subtype.{common_class, is_class_at};
ghost use Rattle.jc_names.specs.declared.name.ClassName.{ClassName};
ghost use Rattle.jc_code.specs.declared.instr.Operation.{Operation};
ghost use Rattle.jc_link.specs.KnownTypes.{NameClasses};
ghost use Rattle.jc_link.specs.Linked.{AreHeaded, IsResolved};
ghost use Rattle.jc_link.specs.Sound.{HaveMethods};
ghost use Rattle.jc_types.specs.Known.{AreKnown};
ghost use Rattle.jc_types.specs.State.{Types, joined_types};
ghost use Rattle.jc_check.specs.Method.{CheckedHandler, entry_of};
ghost use Rattle.jc_check.specs.Package.{method_of, package_rules};
ghost use Rattle.jc_check.specs.PrivateKnown.{AreSmallFrames, IsSmallFrame, IsSmallHeader};

use crate::package::methods_of;
use crate::package_method::{max_locals_of, max_stack_of};
use jc_classes::DeclaredMethod;
use jc_effects::{effects_name_classes, own_method};
use jc_link::{Linked, MethodCode, built_worlds_are_sound, built_worlds_name_classes};
use jc_types::known_laws;

/// How many words of arguments a method takes, by its header.
fn nargs_of(declared: &DeclaredMethod) -> u8
    ensures { result ≡ option_map_or (λ h. h.nargs) declared.now.method.header 0 }
{
    match declared.method.header() {
        Some(header) => header.nargs,
        None => 0,
    }
}

/// The numbers of a method's header are bytes. It does nothing except look at the header.
fn header_is_small(declared: &DeclaredMethod)
    ensures { IsSmallHeader declared.now }
{
    // Only their contracts are needed: each number is a byte.
    let _arguments = nargs_of(declared);
    let _locals = max_locals_of(declared);
    let _operands = max_stack_of(declared);
}

/// Laws of the world of a linked package: its types name its classes, and its methods have the headers that they need.
/// It does nothing.
fn world_laws(linked: &Linked)
    ensures names { NameClasses linked.now.world }
    ensures methods { HaveMethods linked.now.world }
    ensures headed { AreHeaded linked.now.world (length linked.now.world - 1) }
    ensures resolved { IsResolved linked.now.world (length linked.now.world - 1) linked.now.body }
{
    // Only their contracts are needed: the invariants of a table and of a linked package.
    let _count = linked.table().len();
    let _body = linked.body();
    built_worlds_are_sound();
    built_worlds_name_classes();
}

/// The frame of a method with code is small, since the numbers of its header are bytes. It does nothing except look at
/// the header.
#[tactic(auto, using(crate::proofs::Knowing::few_locals, crate::proofs::Knowing::no_locals, crate::proofs::Knowing::few_operands, crate::proofs::Knowing::no_operands))]
fn frame_is_small(linked: &Linked, body: &MethodCode)
    ensures { IsSmallFrame linked.now body.now }
{
    world_laws(linked);
    match own_method(linked, body.offset) {
        Some(declared) => header_is_small(&declared),
        None => {}
    }
}

/// If the frames of the methods before one are small, they are with this one added. It does nothing except look at the
/// header.
#[tactic(auto, using(crate::proofs::Knowing::small_step))]
fn one_frame_more(linked: &Linked, body: &MethodCode)
    ensures { (n : ℕ) → slice_get linked.now.body.kept.methods n ≡ Some body.now → AreSmallFrames linked.now n
        → AreSmallFrames linked.now (n + 1) }
{
    frame_is_small(linked, body);
}

/// The frames of all methods with code are small. It does nothing except look at their headers. The type of a header
/// says that its numbers are bytes, but no list of methods says so for each.
#[tactic(auto, using(crate::proofs::Knowing::none_small))]
fn frames_are_small(linked: &Linked)
    ensures { AreSmallFrames linked.now (length linked.now.body.kept.methods) }
{
    let methods = methods_of(linked);
    for index in 0..methods.len() {
        one_frame_more(linked, &methods[index]);
    }
}

/// The types at the entries of a linked package's methods, the classes that they catch, and the types after their
/// instructions name classes of its world, and their numbers of locals and operands are small. It does nothing except
/// look at the methods' headers.
pub fn types_name_classes(linked: &Linked)
    ensures entry { (n : ℕ) (b : MethodBody) → slice_get linked.now.body.kept.methods n ≡ Some b
        → AreKnown (is_class_at linked.now.world) (entry_of (method_of linked.now b)) }
    ensures caught { (n : ℕ) (b : MethodBody) (h : CheckedHandler) (c : ClassName)
        → slice_get linked.now.body.kept.methods n ≡ Some b → Contains (method_of linked.now b).handlers h
        → h.caught ≡ Some c → is_class_at linked.now.world c ≡ true }
    ensures effects { (n : ℕ) (b : MethodBody) → slice_get linked.now.body.kept.methods n ≡ Some b
        → (operation : Operation) (s t : Types)
        → (package_rules linked.now).effect (method_of linked.now b).max_stack
        (method_of linked.now b).returned operation s ≡ Ok t
        → AreKnown (is_class_at linked.now.world) s → AreKnown (is_class_at linked.now.world) t }
    ensures joins { (s t u : Types) → joined_types (common_class linked.now.world) s t ≡ u
        → AreKnown (is_class_at linked.now.world) s → AreKnown (is_class_at linked.now.world) t
        → AreKnown (is_class_at linked.now.world) u }
    ensures locals { (n : ℕ) (b : MethodBody) → slice_get linked.now.body.kept.methods n ≡ Some b
        → length (method_of linked.now b).arguments + (method_of linked.now b).max_locals < 2 ^ 16 }
    ensures stack { (n : ℕ) (b : MethodBody) → slice_get linked.now.body.kept.methods n ≡ Some b
        → (method_of linked.now b).max_stack < 2 ^ 8 }
{
    world_laws(linked);
    effects_name_classes();
    known_laws();
    frames_are_small(linked);
}
