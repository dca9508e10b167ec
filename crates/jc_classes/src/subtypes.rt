//! Subtypes of classes and interfaces.

ghost use Rattle.std.specs.Prelude.{◌≡◌, ◌↔◌, true, None, IfSome, List};
ghost use Rattle.jc_cap_desc.specs.Shape.{Shape};
ghost use Rattle.jc_classes.specs.Limits.{IsSmall};
ghost use Rattle.jc_classes.specs.Subtype.{IsSubtype, IsOrderly, IsOrder, IsClassLattice, is_at_or_above};
ghost use Rattle.jc_classes.specs.Subtype.{is_class_at, is_class_below, is_subtype, common_class, classes_above};
ghost use Rattle.jc_classes.specs.Walk.{most_classes};
ghost use Rattle.jc_classes.specs.World.{superclass_of};

use crate::table::ClassTable;
use crate::walk::{MOST_CLASSES, anchor_behind};
use jc_api::ApiClass;
use jc_names::ClassName;

/// The class above all classes and interfaces.
const OBJECT: ClassName = ClassName::Api(ApiClass::Object);

impl ClassTable {
    /// Whether a class is another one or a superclass of it, by jumps. Each goes as far up as it can without passing
    /// the other one's depth; there the two are equal, or the other one isn't above. `None` if a class has no table.
    fn jumps_to(&self, above: ClassName, class: ClassName) -> Option<bool>
        ensures { IfSome result (λ found. found ≡ is_at_or_above self.now most_classes above class) }
    {
        let depth = self.table_of(above)?.depth();
        let mut at = class;
        for _ in 0..MOST_CLASSES {
            let table = self.table_of(at)?;
            if table.depth() <= depth {
                return Some(at.is(above));
            }
            at = if table.jump().depth >= depth {
                table.jump().to
            } else {
                self.superclass_of(at)?
            };
        }
        None
    }

    /// The same by a walk along superclasses. The chain may have a cycle: if the walk meets its anchor again, the other
    /// one isn't above.
    fn walks_to(&self, above: ClassName, class: ClassName) -> bool
        ensures { result ≡ is_at_or_above self.now most_classes above class }
    {
        let mut at = class;
        let mut anchor = class;
        for steps in 0..MOST_CLASSES {
            if at.is(above) {
                return true;
            }
            match self.superclass_of(at) {
                Some(next) => at = next,
                None => return false,
            }
            if at.is(anchor) {
                return false;
            }
            anchor = anchor_behind(steps + 1, at, anchor);
        }
        false
    }

    /// Whether a class is another one or a superclass of it: by jumps, or by a walk if a class has no table.
    pub fn is_at_or_above(&self, above: ClassName, class: ClassName) -> bool
        ensures { result ≡ is_at_or_above self.now most_classes above class }
    {
        if class.is(above) {
            return true;
        }
        match self.jumps_to(above, class) {
            Some(found) => found,
            None => self.walks_to(above, class),
        }
    }

    /// Whether a class is another one or below it, along superclasses; Object is above all.
    pub fn is_class_below(&self, class: ClassName, above: ClassName) -> bool
        ensures { result ≡ is_class_below self.now class above }
    {
        OBJECT.is(above) || self.is_at_or_above(above, class)
    }

    /// The nearest class above both of two, by jumps: if a class isn't above the other one, no class that a jump to it
    /// passes is. `None` if a class has no table, or Object has a superclass.
    fn common_by_jumps(&self, one: ClassName, other: ClassName) -> Option<ClassName>
        ensures { IfSome result (λ found. found ≡ common_class self.now one other) }
    {
        if self.superclass_of(OBJECT).is_some() {
            return None;
        }
        self.table_of(other)?;
        let mut at = one;
        for _ in 0..MOST_CLASSES {
            if self.is_class_below(other, at) {
                return Some(at);
            }
            let Some(superclass) = self.superclass_of(at) else {
                return Some(OBJECT);
            };
            let jump = self.table_of(at)?.jump().to;
            at = if self.is_class_below(other, jump) {
                superclass
            } else {
                jump
            };
        }
        None
    }

    /// The same by a walk along superclasses.
    fn common_by_walk(&self, one: ClassName, other: ClassName) -> ClassName
        ensures { result ≡ common_class self.now one other }
    {
        let mut at = one;
        for _ in 0..MOST_CLASSES {
            if self.is_class_below(other, at) {
                return at;
            }
            match self.superclass_of(at) {
                Some(above) => at = above,
                None => return OBJECT,
            }
        }
        OBJECT
    }

    /// The nearest class above both of two, along superclasses: the first on the way up from the one that is also above
    /// the other, or Object. It is found by jumps, or by a walk if a class has no table.
    pub fn common_class(&self, one: ClassName, other: ClassName) -> ClassName
        ensures { result ≡ common_class self.now one other }
    {
        match self.common_by_jumps(one, other) {
            Some(found) => found,
            None => self.common_by_walk(one, other),
        }
    }

    /// How many classes are above a class, along its superclasses up to Object.
    pub fn classes_above(&self, class: ClassName) -> u16
        ensures { result ≡ classes_above self.now class }
    {
        let mut at = class;
        for counted in 0..MOST_CLASSES {
            if OBJECT.is(at) {
                return counted;
            }
            match self.superclass_of(at) {
                Some(above) => at = above,
                None => return counted + 1,
            }
        }
        MOST_CLASSES
    }
}

/// If classes are in order and Object has no superclass, `is_class_below` is an order. A class is then above another
/// one by it if and only if that one is its subtype. Any two classes have a least class above both, and the number of
/// classes above falls with each step upward. It does nothing.
pub fn superclass_laws()
    ensures subtypes { (world : List Shape) → IsOrderly world
        → superclass_of world (ClassName.Api ApiClass.Object) ≡ None → (c d : ClassName) → is_class_at world d ≡ true
        → (is_class_below world c d ≡ true ↔ IsSubtype world c d) }
    ensures order { (world : List Shape) → IsOrderly world → superclass_of world (ClassName.Api ApiClass.Object) ≡ None
        → IsOrder (is_class_below world) }
    ensures lattice { (world : List Shape) → IsOrderly world
        → superclass_of world (ClassName.Api ApiClass.Object) ≡ None
        → IsClassLattice (is_class_below world) (common_class world) (classes_above world) most_classes }
{}

/// What the steps of `is_subtype` find is a subtype, and in a small world they find all subtypes. They find what is
/// below another class along superclasses. If classes are in order and Object has no superclass, they find nothing else
/// below a class.
pub fn found_subtypes_are_subtypes()
    ensures found { (world : List Shape) (c d : ClassName) → is_subtype world c d ≡ true → IsSubtype world c d }
    ensures all { (world : List Shape) → IsSmall world → (c d : ClassName)
        → IsSubtype world c d → is_subtype world c d ≡ true }
    ensures below { (world : List Shape) (c d : ClassName) → is_class_below world c d ≡ true
        → is_subtype world c d ≡ true }
    ensures classes { (world : List Shape) → IsOrderly world → superclass_of world (ClassName.Api ApiClass.Object)
        ≡ None → (c d : ClassName) → is_class_at world d ≡ true → is_subtype world c d ≡ is_class_below world c d }
{
    superclass_laws();
}
