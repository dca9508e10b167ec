//! Look-ups along superclasses.

ghost use Rattle.std.specs.Prelude.{◌≡◌, ◌⊎◌};

use jc_names::ClassName;

/// The greatest number of classes and interfaces.
pub(crate) const MOST_CLASSES: u16 = 17_085;

/// The anchor of a walk after this many steps: the current class at each power of two, and otherwise the anchor before.
/// A walk along a cycle meets its anchor again.
pub fn anchor_behind(steps: u16, at: ClassName, anchor: ClassName) -> ClassName
    ensures { (result ≡ at) ⊎ (result ≡ anchor) }
{
    if steps.is_power_of_two() { at } else { anchor }
}

/// The answer of a class to a look-up.
#[derive(Drop)]
pub(crate) enum Visit<A> {
    /// It has the result.
    Has(A),
    /// The look-up ends without a result.
    Nothing,
    /// The superclass is asked.
    Above,
}

/// How a look-up goes on after a class.
#[derive(Drop)]
pub(crate) enum WalkStep<A> {
    /// It ends with this result.
    Gives(A),
    /// It ends without a result.
    Ends,
    /// It goes on with this class.
    On(ClassName),
}
