//! The order of verification types and of states, their joins and their heights.

ghost use Rattle.std.specs.Prelude.{◌≡◌, ◌+◌, ◌*◌, ◌<◌, ◌≤◌, ℕ, Bool, true, false, refl, None, List, length, IfOk};
ghost use Rattle.jc_cap_desc.specs.Shape.{Shape};
ghost use Rattle.jc_api.specs.declared.class.ApiClass.TheVariants.{Object};
ghost use Rattle.jc_classes.specs.Subtype.{IsOrder, IsOrderly, IsClassLattice, is_class_below, common_class};
ghost use Rattle.jc_classes.specs.Subtype.{classes_above};
ghost use Rattle.jc_classes.specs.Walk.{most_classes};
ghost use Rattle.jc_classes.specs.World.{superclass_of};
ghost use Rattle.jc_names.specs.declared.name.ClassName.{ClassName};
ghost use Rattle.jc_names.specs.declared.name.ClassName.TheVariants.{Api};
ghost use Rattle.jc_types.specs.Ty.{is_below, join_of, height_of};
ghost use Rattle.jc_types.specs.State.{Types, types_below, has_shape_of, joined_types, IsJoin, height_of_types};
ghost use Rattle.jc_types.specs.PrivateOrder.{below_self, below_both, below_through};
ghost use Rattle.jc_types.specs.PrivateJoin as Joins;
ghost use Rattle.jc_types.specs.PrivateLeast as Least;
ghost use Rattle.jc_types.specs.PrivateHeight as Heights;
ghost use Rattle.jc_types.specs.PrivateStates as States;

use crate::height::{height_of, height_of_all};
use crate::join::join_of;
use crate::order::is_below;
use crate::state::State;
use crate::ty::Ty;
use jc_classes::{ClassTable, superclass_laws};
use std::alloc::{AllocError, Global};

/// Values in an order that depends on a table, as the order of types depends on a table of classes. Any two values of
/// one shape have a least value above both, and heights fall with each step upward. The laws hold for a sound table.
/// `order_laws` says which tables are sound for types and states.
pub trait Lattice: Sized {
    type Table;

    ghost lies_below: { Self.Table → Self → Self → Bool };

    ghost is_sound: { Self.Table → Type 0 };

    // Whether two values have one shape.
    ghost fits: { Self → Self → Bool };

    ghost join_of: { Self.Table → Self → Self → Self };

    ghost height_of: { Self.Table → Self → ℕ };

    // Whether two values are equal as far as the order sees.
    ghost is_alike: { Self → Self → Type 0 };

    /// Whether this value is below the other.
    fn below(&self, other: &Self, table: &Self::Table) -> bool
        ensures { result ≡ lies_below table.now self.now other.now };

    /// Replaces this value with the least value above both. If the two have different shapes, it returns false and
    /// changes nothing.
    fn join(&mut self, other: &Self, table: &Self::Table) -> bool
        ensures fits { result ≡ fits self.old other.now }
        ensures joined { fits self.old other.now ≡ true → self.new ≡ join_of table.now self.old other.now }
        ensures kept { fits self.old other.now ≡ false → self.new ≡ self.old };

    /// Its height: a bound on the steps upward from it.
    fn height(&self, table: &Self::Table) -> u128
        ensures { result ≡ height_of table.now self.now };

    /// A copy.
    fn copy(&self, alloc: Global) -> Result<Self, AllocError>
        ensures { IfOk result (λ copied. copied ≡ self.now) };

    ghost reflexive: { (t : Self.Table) → is_sound t → (x : Self) → lies_below t x x ≡ true };

    ghost antisymmetric: { (t : Self.Table) → is_sound t → (x y : Self) → lies_below t x y ≡ true
        → lies_below t y x ≡ true → is_alike x y };

    ghost transitive: { (t : Self.Table) → is_sound t → (x y z : Self) → lies_below t x y ≡ true
        → lies_below t y z ≡ true → lies_below t x z ≡ true };

    ghost above_one: { (t : Self.Table) → is_sound t → (x y : Self) → fits x y ≡ true
        → lies_below t x (join_of t x y) ≡ true };

    ghost above_other: { (t : Self.Table) → is_sound t → (x y : Self) → fits x y ≡ true
        → lies_below t y (join_of t x y) ≡ true };

    ghost least: { (t : Self.Table) → is_sound t → (x y z : Self) → fits x y ≡ true → lies_below t x z ≡ true
        → lies_below t y z ≡ true → lies_below t (join_of t x y) z ≡ true };

    ghost fits_below: { (t : Self.Table) → is_sound t → (x y z : Self) → lies_below t x z ≡ true
        → lies_below t y z ≡ true → fits x y ≡ true };

    ghost height_falls: { (t : Self.Table) → is_sound t → (x y : Self) → lies_below t x y ≡ true
        → lies_below t y x ≡ false → height_of t y < height_of t x };
}

impl Lattice for Ty {
    type Table = ClassTable;

    ghost lies_below = { λ table a b. is_below (is_class_below table) a b };

    ghost is_sound = { λ table. IsClassLattice (is_class_below table) (common_class table)
        (classes_above table) most_classes };

    ghost fits = { λ a b. true };

    ghost join_of = { λ table a b. join_of (common_class table) a b };

    ghost height_of = { λ table a. height_of (classes_above table) most_classes a };

    ghost is_alike = { λ a b. a ≡ b };

    fn below(&self, other: &Ty, table: &ClassTable) -> bool {
        is_below(*self, *other, table)
    }

    fn join(&mut self, other: &Ty, table: &ClassTable) -> bool {
        *self = join_of(*self, *other, table);
        true
    }

    fn height(&self, table: &ClassTable) -> u128 {
        u128::from(height_of(*self, table))
    }

    fn copy(&self, _alloc: Global) -> Result<Ty, AllocError> {
        Ok(*self)
    }

    ghost reflexive = { λ table sound x. below_self (is_class_below table) sound.order x };

    ghost antisymmetric = { λ table sound x y. below_both (is_class_below table) sound.order x y };

    ghost transitive = { λ table sound x y z. below_through (is_class_below table) sound.order x y z };

    ghost above_one = { λ table sound x y f. Joins.above_one (is_class_below table) (common_class table)
        (classes_above table) most_classes sound x y };

    ghost above_other = { λ table sound x y f. Joins.above_other (is_class_below table) (common_class table)
        (classes_above table) most_classes sound x y };

    ghost least = { λ table sound x y z f. Least.least (is_class_below table) (common_class table)
        (classes_above table) most_classes sound x y z };

    ghost fits_below = { λ table sound x y z h k. refl };

    ghost height_falls = { λ table sound x y. Heights.height_falls (is_class_below table) (common_class table)
        (classes_above table) most_classes sound x y };
}

impl Lattice for State {
    type Table = ClassTable;

    ghost lies_below = { λ table s t. types_below (is_class_below table) s.types t.types };

    ghost is_sound = { λ table. IsClassLattice (is_class_below table) (common_class table)
        (classes_above table) most_classes };

    ghost fits = { λ s t. has_shape_of s.types t.types };

    ghost join_of = { λ table s t.
        record { types = joined_types (common_class table) s.types t.types; room = s.room } };

    ghost height_of = { λ table s. height_of_types (classes_above table) most_classes s.types };

    ghost is_alike = { λ s t. s.types ≡ t.types };

    fn below(&self, other: &State, table: &ClassTable) -> bool {
        self.is_below(&other.locals, &other.slots[..other.depth], table)
    }

    fn join(&mut self, other: &State, table: &ClassTable) -> bool {
        if !self.has_shape_of(other) {
            return false;
        }
        self.join_with(other, table);
        true
    }

    fn height(&self, table: &ClassTable) -> u128 {
        height_of_all(&self.locals, table) + height_of_all(&self.slots[..self.depth], table)
    }

    fn copy(&self, alloc: Global) -> Result<State, AllocError> {
        self.copied(alloc)
    }

    ghost reflexive = { λ table sound s. States.types_below_self (is_class_below table) sound.order s.types };

    ghost antisymmetric = { λ table sound s t.
        States.types_below_both (is_class_below table) sound.order s.types t.types };

    ghost transitive = { λ table sound s t u.
        States.types_below_through (is_class_below table) sound.order s.types t.types u.types };

    ghost above_one = { λ table sound s t. States.types_above_one (is_class_below table) (common_class table)
        (classes_above table) most_classes sound s.types t.types };

    ghost above_other = { λ table sound s t. States.types_above_other (is_class_below table) (common_class table)
        (classes_above table) most_classes sound s.types t.types };

    ghost least = { λ table sound s t u f. States.types_least (is_class_below table) (common_class table)
        (classes_above table) most_classes sound s.types t.types u.types };

    ghost fits_below = { λ table sound s t u. States.one_shape (is_class_below table) s.types t.types u.types };

    ghost height_falls = { λ table sound s t. States.types_fall (is_class_below table) (common_class table)
        (classes_above table) most_classes sound s.types t.types };
}

/// The order of states, element by element, is a partial order for an order of classes. For a lattice of classes, any
/// two states of one shape have a least state above both, and the heights of states fall upward and are bounded. The
/// classes of a table are such a lattice if no superclass chain has a cycle, every listed interface is an interface,
/// and Object has no superclass. It does nothing.
pub fn order_laws()
    ensures tables { (world : List Shape) → IsOrderly world → superclass_of world (Api Object) ≡ None
        → IsOrder (is_class_below world) }
    ensures reflexive { (below : ClassName → ClassName → Bool) → IsOrder below → (s : Types)
        → types_below below s s ≡ true }
    ensures antisymmetric { (below : ClassName → ClassName → Bool) → IsOrder below → (s t : Types)
        → types_below below s t ≡ true → types_below below t s ≡ true → s ≡ t }
    ensures transitive { (below : ClassName → ClassName → Bool) → IsOrder below → (s t u : Types)
        → types_below below s t ≡ true → types_below below t u ≡ true → types_below below s u ≡ true }
    ensures lattices { (world : List Shape) → IsOrderly world → superclass_of world (Api Object) ≡ None
        → IsClassLattice (is_class_below world) (common_class world) (classes_above world) most_classes }
    ensures joins { (below : ClassName → ClassName → Bool) (common : ClassName → ClassName → ClassName)
        (above : ClassName → ℕ) (most : ℕ) → IsClassLattice below common above most
        → (s t : Types) → has_shape_of s t ≡ true → IsJoin below s t (joined_types common s t) }
    ensures heights { (below : ClassName → ClassName → Bool) (common : ClassName → ClassName → ClassName)
        (above : ClassName → ℕ) (most : ℕ) → IsClassLattice below common above most
        → (s t : Types) → types_below below s t ≡ true → types_below below t s ≡ false
        → height_of_types above most t < height_of_types above most s }
    ensures bound { (below : ClassName → ClassName → Bool) (common : ClassName → ClassName → ClassName)
        (above : ClassName → ℕ) (most : ℕ) → IsClassLattice below common above most
        → (s : Types) → height_of_types above most s ≤ (length s.locals + length s.operands) * (3 + most) }
{
    superclass_laws();
}
