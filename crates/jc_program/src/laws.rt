//! Theorems about a world's classes and a program's tables.

ghost use Rattle.std.specs.Prelude.{◌≡◌, ◌||◌, ℕ, List, None, Some, false, slice_get};
ghost use Rattle.jc_api.specs.declared.class.ApiClass.TheVariants.{Object};
ghost use Rattle.jc_cap_desc.specs.Shape.{Shape};
ghost use Rattle.jc_cap.specs.declared.handler.Handler.{Handler};
ghost use Rattle.jc_classes.specs.Limits.{IsSmall};
ghost use Rattle.jc_classes.specs.Subtype.{is_class_below, is_interface_at, is_subtype};
ghost use Rattle.jc_classes.specs.World.{class_at};
ghost use Rattle.jc_link.specs.Built.{IsBuilt};
ghost use Rattle.jc_link.specs.Linked.{LinkedBody, World};
ghost use Rattle.jc_program.specs.Classes.{HaveNumbers, KeepsNumbers, class_names, class_number};
ghost use Rattle.jc_program.specs.MemberTokens.{HavePublicTokens};
ghost use Rattle.jc_program.specs.Methods.{CoversSame};
ghost use Rattle.jc_program.specs.Program.{AnswersFor, IsProgramOf};
ghost use Rattle.jc_program.specs.declared.program.Program.{Program};
ghost use Rattle.jc_names.specs.Names.{is_same_name};
ghost use Rattle.jc_names.specs.declared.name.ClassName.{ClassName};
ghost use Rattle.jc_names.specs.declared.name.ClassName.TheVariants.{Api};

use jc_classes::found_subtypes_are_subtypes;
use jc_link::{built_worlds_are_sound, built_worlds_stand_on_the_api};

/// An exception handler, whose pcs count from the start of the code, covers what its row in the package covers.
#[tactic(auto, using(crate::proofs::Covering::covers_same))]
pub fn loaded_handlers_cover_the_same()
    ensures { (world : List Shape) (number : ℕ) (body : LinkedBody) (code_offset : ℕ) (h : Handler)
        → CoversSame world number body code_offset h }
{}

/// Each class of a world whose offset has 16 bits has a number, and each number is that of a class of the world.
/// Appending a package keeps the numbers. In a built world, the number of Object is 0. In any list of names, a class's
/// number leads to its name.
pub fn classes_have_numbers()
    ensures numbers { (world : List Shape) → HaveNumbers world }
    ensures object { (world : List Shape) → IsBuilt world → class_number (class_names world) (Api Object) ≡ Some 0 }
    ensures kept { (world : List Shape) (more : Shape) → KeepsNumbers world more }
    ensures named { (names : List ClassName) (c : ClassName) (n : ℕ)
        → class_number names c ≡ Some n → slice_get names n ≡ Some c }
{}

/// In a built world, no member of the API has a package-visible token.
#[tactic(auto, using(crate::proofs::Tokening::public_tokens))]
pub fn api_tokens_are_public()
    ensures { (world : List Shape) → IsBuilt world → HavePublicTokens world }
{
    built_worlds_stand_on_the_api();
}

/// The tables of a world answer look-ups by number and name correctly.
#[tactic(auto, using(crate::proofs::Following::follows))]
pub fn program_laws()
    ensures { (w : World) (p : Program) → IsProgramOf w p → AnswersFor w p }
{}

/// In a built world, a class that isn't an interface is a supertype of another if and only if it is that class, one of
/// its superclasses, or Object.
pub fn class_subtypes_are_below()
    ensures { (world : List Shape) → IsSmall world → IsBuilt world → (c d : ClassName)
        → is_interface_at world d ≡ false → is_class_below world c d ≡ is_subtype world c d }
{
    built_worlds_are_sound();
    found_subtypes_are_subtypes();
}

/// A name without a class is below itself and Object, and below no other class.
pub fn unknown_classes_are_below_themselves()
    ensures { (world : List Shape) (c : ClassName) → class_at world c ≡ None → (d : ClassName)
        → is_subtype world c d ≡ (is_same_name (Api Object) d || is_same_name c d) }
{}
