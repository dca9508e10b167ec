//! Laws of worlds.

ghost use Rattle.std.specs.Prelude.{ℕ, ◌≤◌, List, take};
ghost use Rattle.jc_cap_desc.specs.Shape.{HaveBodies, HaveHeaders, InstallMethods, Package, Shape, StandApart};
ghost use Rattle.jc_api.specs.Bound.{default_binding};
ghost use Rattle.jc_api.specs.declared.class.ApiClass.{ApiClass};
ghost use Rattle.jc_classes.specs.Api.{api_world};
ghost use Rattle.jc_classes.specs.Growth.{LiesWithin};
ghost use Rattle.jc_classes.specs.Limits.{IsSmall};
ghost use Rattle.jc_link.specs.ApiClasses.{StandsOnApi, StandsThere};
ghost use Rattle.jc_link.specs.Applet.{applet};
ghost use Rattle.jc_link.specs.Built.{IsBuilt};
ghost use Rattle.jc_link.specs.Growth.{HasApi, KeepsAllLinking, KeepsLinking};
ghost use Rattle.jc_link.specs.KnownTypes.{NameClasses};
ghost use Rattle.jc_link.specs.Linked.{IsLast, IsLinked, Linked};
ghost use Rattle.jc_link.specs.Sound.{IsSound};
ghost use Rattle.jc_link.specs.WellFormed.{IsWellFormed};

use jc_classes::{adding_keeps_lookups, growing_keeps_lookups};

/// Appending a package to a world changes neither whether the packages before it are well-formed nor the targets of the
/// entries of their pools. It does nothing.
#[tactic(auto, using(crate::proofs::GrownHeirs::linking_stays))]
pub fn adding_keeps_linking()
    ensures { (world : List Shape) (more : Shape) → KeepsLinking world more }
{
    adding_keeps_lookups();
}

/// Nor does appending several packages. A built world has the packages of the API, and any prefix with these is a built
/// world. It does nothing.
pub fn growing_keeps_linking()
    ensures kept { (before after : List Shape) → LiesWithin before after → KeepsAllLinking before after }
    ensures api { (world : List Shape) → IsBuilt world → HasApi world }
    ensures first { (world : List Shape) (count : ℕ) → IsBuilt world → 2 ≤ count → IsBuilt (take count world) }
{
    adding_keeps_lookups();
}

/// Appending a linked package to a built world gives a built world, and what is known of linked packages is known of
/// this one. The package has the properties of every package that was read. It does nothing.
pub fn linked_packages_are_known()
    ensures { (before : List Shape) (p : Package) (l : Linked) → IsBuilt before → IsLinked before p l
        → StandApart p.body.methods → HaveHeaders p.shape → HaveBodies p → InstallMethods p → IsLast l }
{
    growing_keeps_linking();
}

/// A small built world has all properties that a machine relies on. It does nothing.
pub fn built_worlds_are_sound()
    ensures { (world : List Shape) → IsSmall world → IsBuilt world → IsSound world }
{
    adding_keeps_lookups();
}

/// In such a world the types of all look-ups name existing classes, and an interface counts as Object. It does nothing.
pub fn built_worlds_name_classes()
    ensures { (world : List Shape) → IsSmall world → IsBuilt world → NameClasses world }
{
    adding_keeps_lookups();
    built_worlds_are_sound();
}

/// In a built world each class of the API is as the API's tables state it: whether it is an interface or abstract, its
/// superclass, and the number of cells of its objects. It does nothing.
pub fn built_worlds_have_the_api()
    ensures { (world : List Shape) → IsBuilt world → (c : ApiClass) → StandsThere world c }
{
    growing_keeps_lookups();
}

/// A built world stands on the API: it has its classes and members, as one binding names them, each virtual member at
/// its token. It does nothing.
pub fn built_worlds_stand_on_the_api()
    ensures { (world : List Shape) → IsBuilt world → StandsOnApi world }
{
    growing_keeps_lookups();
    growing_keeps_linking();
}

/// A package with an applet is well-formed after the API's packages. It does nothing.
#[tactic(auto, using(crate::proofs::Applet::applet_is_well_formed))]
pub fn an_applet_is_well_formed()
    ensures { IsWellFormed (api_world default_binding) applet }
{}
