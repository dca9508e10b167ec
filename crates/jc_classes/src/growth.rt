//! Laws of worlds that grow.

ghost use Rattle.std.specs.Prelude.{ℕ, List, take};
ghost use Rattle.jc_cap_desc.specs.Shape.{Shape};
ghost use Rattle.jc_classes.specs.Growth.{KeepsAllLookups, KeepsLookups, LiesWithin, StandWithin};
ghost use Rattle.jc_classes.specs.Limits.{IsSmall};

/// Appending a package to a world changes no look-up, no subtype and no reference of the packages before it. It does
/// nothing.
pub fn adding_keeps_lookups()
    ensures { (world : List Shape) (more : Shape) → KeepsLookups world more }
{}

/// Nor does appending several packages. The first packages of a world lie within it. A world within a small one is
/// small. Whatever a world has belongs to one of its packages. It does nothing.
pub fn growing_keeps_lookups()
    ensures kept { (before after : List Shape) → LiesWithin before after → KeepsAllLookups before after }
    ensures first { (world : List Shape) (count : ℕ) → LiesWithin (take count world) world }
    ensures small { (before after : List Shape) → LiesWithin before after → IsSmall after → IsSmall before }
    ensures there { (world : List Shape) → StandWithin world }
{}
