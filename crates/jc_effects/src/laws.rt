//! Laws of all effects.

ghost use Rattle.std.specs.Prelude.{◌≡◌, ◌&&◌, ℕ, Bool, not, true, List, Option, Ok};
ghost use Rattle.jc_base.specs.declared.declared_type.DeclaredType.{DeclaredType};
ghost use Rattle.jc_cap_desc.specs.Shape.{Shape};
ghost use Rattle.jc_api.specs.Class.{is_abstract, is_interface};
ghost use Rattle.jc_api.specs.declared.class.ApiClass.{ApiClass};
ghost use Rattle.jc_classes.specs.Growth.{LiesWithin};
ghost use Rattle.jc_classes.specs.Subtype.{IsOrder, is_class_at, is_class_below};
ghost use Rattle.jc_names.specs.declared.name.ClassName.{ClassName};
ghost use Rattle.jc_names.specs.declared.name.ClassName.TheVariants.{Api};
ghost use Rattle.jc_code.specs.declared.instr.Operation.{Operation};
ghost use Rattle.jc_code.specs.declared.instr.WordOperation.{WordOperation};
ghost use Rattle.jc_link.specs.Built.{IsBuilt};
ghost use Rattle.jc_link.specs.Growth.{HasApi};
ghost use Rattle.jc_link.specs.KnownTypes.{is_known_type};
ghost use Rattle.jc_link.specs.Linked.{Linked};
ghost use Rattle.jc_types.specs.Known.{AreKnown, is_known};
ghost use Rattle.jc_types.specs.State.{Types};
ghost use Rattle.jc_types.specs.Ty.{type_of_declared};
ghost use Rattle.jc_types.specs.declared.ty.Ty.{Ty};
ghost use Rattle.jc_effects.specs.Effect.{effect_of};
ghost use Rattle.jc_effects.specs.Growth.{KeepsAllMembers, KeepsAllOrders, KeepsOwnMethods, in_world};
ghost use Rattle.jc_effects.specs.Laws.{IsMonotone, KeepsShape, NamesKnown};
ghost use Rattle.jc_effects.specs.Objects.{Setting, has_objects};
ghost use Rattle.jc_effects.specs.Row.{Row, applied};
ghost use Rattle.jc_effects.specs.Words.{word_effect};

use jc_classes::growing_keeps_lookups;
use jc_link::{built_worlds_have_the_api, growing_keeps_linking};
use jc_types::order_laws;

/// For an order of classes: what a state allows, each state below it allows, with a result below. This holds for rows,
/// for operations on words, and for all operations with a setting. It does nothing.
pub fn effects_are_monotone()
    ensures rows { (below : ClassName → ClassName → Bool) → IsOrder below → (most : ℕ) (row : Option Row)
        → IsMonotone below (applied below most row) }
    ensures words { (below : ClassName → ClassName → Bool) → IsOrder below → (most : ℕ) (returned : Option Ty)
        (operation : WordOperation) → IsMonotone below (word_effect below most returned operation) }
    ensures effects { (set : Setting) → IsOrder (is_class_below set.world) → (most : ℕ) (operation : Operation)
        → IsMonotone (is_class_below set.world) (effect_of set most operation) }
{
    order_laws();
}

/// Effects introduce no unknown classes, in a world whose types name classes of it, and with a pool whose targets do.
/// It does nothing.
pub fn effects_name_classes()
    ensures effects { (set : Setting) → NamesKnown set → (most : ℕ) (operation : Operation) (s t : Types)
        → effect_of set most operation s ≡ Ok t → AreKnown (is_class_at set.world) s
        → AreKnown (is_class_at set.world) t }
    ensures types { (known : ClassName → Bool) (t : DeclaredType ClassName) → is_known_type known t ≡ true
        → is_known known (type_of_declared t) ≡ true }
{}

/// Appending packages to a world changes no effect of instructions in the methods of those before them: which classes
/// have objects, the types of interfaces' methods, which types are below which, the methods of a package with their
/// results, and the effects on types that name classes of the earlier world. It does nothing.
pub fn growing_keeps_effects()
    ensures members { (before after : List Shape) → LiesWithin before after → KeepsAllMembers before after }
    ensures orders { (before after : List Shape) → LiesWithin before after → KeepsAllOrders before after }
    ensures methods { (l : Linked) (after : List Shape) → LiesWithin l.world after → HasApi l.world
        → KeepsOwnMethods l after }
    ensures effects { (set : Setting) (after : List Shape) → LiesWithin set.world after → NamesKnown set
        → (most : ℕ) (operation : Operation) (s : Types) → AreKnown (is_class_at set.world) s
        → effect_of (in_world after set) most operation s ≡ effect_of set most operation s }
{
    growing_keeps_lookups();
    growing_keeps_linking();
}

/// In a built world a class of the API has objects if and only if it is neither an interface nor abstract. It does
/// nothing.
pub fn api_classes_have_objects()
    ensures { (world : List Shape) → IsBuilt world → (c : ApiClass)
        → has_objects world (Api c) ≡ not (is_interface c) && not (is_abstract c) }
{
    built_worlds_have_the_api();
}

/// An effect keeps the number of locals. It leaves at most the method's maximum of operands if there were at most that
/// many before. This holds for operations on words, and for all operations with a setting. It does nothing.
pub fn effects_keep_shapes()
    ensures words { (below : ClassName → ClassName → Bool) (most : ℕ) (returned : Option Ty)
        (operation : WordOperation) → KeepsShape most (word_effect below most returned operation) }
    ensures effects { (set : Setting) (most : ℕ) (operation : Operation)
        → KeepsShape most (effect_of set most operation) }
{}
