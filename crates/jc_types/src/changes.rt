//! Changes of a state.

ghost use Rattle.std.specs.Prelude.{◌≡◌, ◌<◌, ◌≤◌, ◌&&◌, ◌==◌, ◌+◌, [], ◌∷◌, length, take, drop, reverse, slice_get};
ghost use Rattle.std.specs.Prelude.{true, IfErr};
ghost use Rattle.jc_classes.specs.Subtype.{common_class};
ghost use Rattle.jc_types.specs.State.{Types, all_below, stated_types, types_below, has_shape_of, joined_types};
ghost use Rattle.jc_types.specs.Changes.{Became, with_operands, with_local, local_type, set_local_type, push_type};
ghost use Rattle.jc_types.specs.Changes.{take_types, drop_types, duplicate_types, swap_types};

use crate::classes::ClassOrder;
use crate::join::join_front;
use crate::order::is_below;
use crate::state::State;
use crate::ty::Ty;
use jc_base::Reason;
use jc_base::stack::{duplicate_top, swap_top};
use jc_classes::ClassTable;

/// Whether one list of types is below another, element by element, for an order of classes. Lists of different lengths
/// aren't.
pub fn are_below<C: ClassOrder>(lower: &[Ty], upper: &[Ty], classes: &C) -> bool
    ensures { result ≡ all_below (C.lies_below classes.now) lower.now upper.now }
{
    if lower.len() != upper.len() {
        return false;
    }
    for index in 0..lower.len() {
        if !is_below(lower[index], upper[index], classes) {
            return false;
        }
    }
    true
}

fn copy_front(to: &mut [Ty], from: &[Ty])
    requires { length from.now ≤ length to.old }
    ensures front { take (length from.now) to.new ≡ from.now }
    ensures same { length to.new ≡ length to.old }
{
    to[..from.len()].copy_from_slice(from);
}

impl State {
    /// The type of a local, or `BadLocal`.
    #[tactic(auto, unfolding(crate::specs::Changes::local_type))]
    pub fn local(&self, index: u8) -> Result<Ty, Reason>
        ensures { result ≡ local_type index self.now.types }
    {
        let index = usize::from(index);
        if index < self.locals.len() {
            Ok(self.locals[index])
        } else {
            Err(Reason::BadLocal)
        }
    }

    /// Sets the type of a local, or reports `BadLocal`; then the state is unchanged.
    #[tactic(auto, unfolding(crate::specs::Changes::set_local_type))]
    pub fn set_local(&mut self, index: u8, ty: Ty) -> Result<(), Reason>
        ensures became { Became result self.new.types (set_local_type index ty self.old.types) }
        ensures kept { IfErr result (λ _. self.new.types ≡ self.old.types) }
        ensures room { self.new.room ≡ self.old.room }
        ensures locals { length self.new.types.locals ≡ length self.old.types.locals }
    {
        let index = usize::from(index);
        if index < self.locals.len() {
            self.locals[index] = ty;
            Ok(())
        } else {
            Err(Reason::BadLocal)
        }
    }

    /// Pushes an operand, of at most `max_stack`, or reports `StackOver`; then the state is unchanged.
    #[tactic(auto, unfolding(crate::specs::Changes::push_type))]
    pub fn push(&mut self, max_stack: u8, ty: Ty) -> Result<(), Reason>
        requires { max_stack ≤ self.old.room }
        ensures became { Became result self.new.types (push_type max_stack ty self.old.types) }
        ensures kept { IfErr result (λ _. self.new.types ≡ self.old.types) }
        ensures room { self.new.room ≡ self.old.room }
        ensures locals { length self.new.types.locals ≡ length self.old.types.locals }
    {
        if self.depth >= usize::from(max_stack) {
            return Err(Reason::StackOver);
        }
        self.slots[self.depth] = ty;
        self.depth += 1;
        Ok(())
    }

    /// Takes operands that are below these types, the last of them from the top. It reports `StackUnder`, then
    /// `WrongType`; then the state is unchanged.
    #[tactic(auto, unfolding(crate::specs::Changes::take_types))]
    pub fn take<C: ClassOrder>(&mut self, wanted: &[Ty], classes: &C) -> Result<(), Reason>
        ensures became { Became result self.new.types
            (take_types (C.lies_below classes.now) wanted.now self.old.types) }
        ensures kept { IfErr result (λ _. self.new.types ≡ self.old.types) }
        ensures room { self.new.room ≡ self.old.room }
        ensures locals { length self.new.types.locals ≡ length self.old.types.locals }
    {
        if self.depth < wanted.len() {
            return Err(Reason::StackUnder);
        }
        let below = self.depth - wanted.len();
        if !are_below(&self.slots[below..self.depth], wanted, classes) {
            return Err(Reason::WrongType);
        }
        self.depth = below;
        Ok(())
    }

    /// Drops the top operands, or reports `StackUnder`; then the state is unchanged.
    #[tactic(auto, unfolding(crate::specs::Changes::drop_types))]
    pub fn drop_top(&mut self, count: u8) -> Result<(), Reason>
        ensures became { Became result self.new.types (drop_types count self.old.types) }
        ensures kept { IfErr result (λ _. self.new.types ≡ self.old.types) }
        ensures room { self.new.room ≡ self.old.room }
        ensures locals { length self.new.types.locals ≡ length self.old.types.locals }
    {
        let count = usize::from(count);
        if self.depth < count {
            return Err(Reason::StackUnder);
        }
        self.depth -= count;
        Ok(())
    }

    /// Copies the top `count` operands below the top `below`. It reports `StackUnder`, then `StackOver`; then the state
    /// is unchanged.
    #[tactic(auto, unfolding(crate::specs::Changes::duplicate_types))]
    pub fn duplicate(&mut self, max_stack: u8, count: u8, below: u8) -> Result<(), Reason>
        requires { max_stack ≤ self.old.room }
        ensures became { Became result self.new.types (duplicate_types max_stack count below self.old.types) }
        ensures kept { IfErr result (λ _. self.new.types ≡ self.old.types) }
        ensures room { self.new.room ≡ self.old.room }
        ensures locals { length self.new.types.locals ≡ length self.old.types.locals }
    {
        let count = usize::from(count);
        let below = usize::from(below);
        if self.depth < count.max(below) {
            return Err(Reason::StackUnder);
        }
        if usize::from(max_stack) < self.depth + count {
            return Err(Reason::StackOver);
        }
        duplicate_top(&mut self.slots, self.depth, count, below);
        self.depth += count;
        Ok(())
    }

    /// Swaps the top `upper` operands with the `lower` below them, or reports `StackUnder`; then the state is
    /// unchanged.
    #[tactic(auto, unfolding(crate::specs::Changes::swap_types))]
    pub fn swap(&mut self, upper: u8, lower: u8) -> Result<(), Reason>
        ensures became { Became result self.new.types (swap_types upper lower self.old.types) }
        ensures kept { IfErr result (λ _. self.new.types ≡ self.old.types) }
        ensures room { self.new.room ≡ self.old.room }
        ensures locals { length self.new.types.locals ≡ length self.old.types.locals }
    {
        let upper = usize::from(upper);
        let lower = usize::from(lower);
        if self.depth < upper + lower {
            return Err(Reason::StackUnder);
        }
        swap_top(&mut self.slots, self.depth, upper, lower);
        Ok(())
    }

    /// How many operands there are.
    #[inline]
    pub fn depth(&self) -> usize
        ensures depth { result ≡ length self.now.types.operands }
        ensures room { result ≤ self.now.room }
    {
        self.depth
    }

    /// The type of a local, if there is one with that index.
    #[inline]
    pub fn local_type(&self, index: u8) -> Option<Ty>
        ensures { result ≡ slice_get self.now.types.locals index }
    {
        self.locals.get(usize::from(index)).copied()
    }

    /// The types of the locals.
    #[inline]
    pub fn locals(&self) -> &[Ty]
        ensures { result.now ≡ self.now.types.locals }
    {
        &self.locals
    }

    /// The types of the operands, the bottom one first.
    #[inline]
    pub fn operands(&self) -> &[Ty]
        ensures { result.now ≡ reverse self.now.types.operands }
    {
        &self.slots[..self.depth]
    }

    /// Whether it has as many locals and as many operands as another one.
    pub(crate) fn has_shape_of(&self, other: &State) -> bool
        ensures { result ≡ has_shape_of self.now.types other.now.types }
    {
        self.locals.len() == other.locals.len() && self.depth == other.depth
    }

    /// Replaces it with its join with another one of the same shape.
    pub(crate) fn join_with(&mut self, other: &State, table: &ClassTable)
        requires { has_shape_of self.old.types other.now.types ≡ true }
        ensures types { self.new.types ≡ joined_types (common_class table.now) self.old.types other.now.types }
        ensures room { self.new.room ≡ self.old.room }
    {
        join_front(&mut self.locals, &other.locals, table);
        join_front(&mut self.slots, &other.slots[..other.depth], table);
    }

    /// The types of the top operands, the last of them on top.
    #[inline]
    pub fn top(&self, count: usize) -> &[Ty]
        requires { count ≤ length self.now.types.operands }
        ensures { result.now ≡ reverse (take count self.now.types.operands) }
    {
        &self.slots[self.depth - count..self.depth]
    }

    /// Drops the top `count` operands, of which there are enough.
    #[inline]
    pub fn drop_operands(&mut self, count: usize)
        requires { count ≤ length self.old.types.operands }
        ensures types { self.new.types ≡ with_operands self.old.types (drop count self.old.types.operands) }
        ensures room { self.new.room ≡ self.old.room }
        ensures locals { length self.new.types.locals ≡ length self.old.types.locals }
    {
        self.depth -= count;
    }

    /// Pushes an operand, for which there is room.
    #[inline]
    pub fn put(&mut self, ty: Ty)
        requires { length self.old.types.operands < self.old.room }
        ensures types { self.new.types ≡ with_operands self.old.types (ty ∷ self.old.types.operands) }
        ensures room { self.new.room ≡ self.old.room }
        ensures locals { length self.new.types.locals ≡ length self.old.types.locals }
    {
        self.slots[self.depth] = ty;
        self.depth += 1;
    }

    /// Sets the type of a local that exists.
    #[inline]
    pub fn put_local(&mut self, index: u8, ty: Ty)
        requires { index < length self.old.types.locals }
        ensures types { self.new.types ≡ with_local self.old.types index ty }
        ensures room { self.new.room ≡ self.old.room }
        ensures locals { length self.new.types.locals ≡ length self.old.types.locals }
    {
        self.locals[usize::from(index)] = ty;
    }

    /// Replaces the types with those that a certificate states, the bottom operand first.
    pub fn load(&mut self, locals: &[Ty], operands: &[Ty])
        requires locals { length locals.now ≡ length self.old.types.locals }
        requires operands { length operands.now ≤ self.old.room }
        ensures types { self.new.types ≡ stated_types locals.now operands.now }
        ensures room { self.new.room ≡ self.old.room }
    {
        copy_front(&mut self.locals, locals);
        copy_front(&mut self.slots, operands);
        self.depth = operands.len();
    }

    /// Whether it is below the types that a certificate states, the bottom operand first.
    #[tactic(auto, using(crate::proofs::Turned::reversed))]
    pub fn is_below<C: ClassOrder>(&self, locals: &[Ty], operands: &[Ty], classes: &C) -> bool
        ensures { result ≡ types_below (C.lies_below classes.now) self.now.types
            (stated_types locals.now operands.now) }
    {
        are_below(&self.locals, locals, classes)
            && are_below(&self.slots[..self.depth], operands, classes)
    }

    /// Whether its locals, with one operand of a type, are below the types that a certificate states.
    #[tactic(auto, using(crate::proofs::Turned::reversed))]
    pub fn is_below_with<C: ClassOrder>(
        &self,
        operand: Ty,
        locals: &[Ty],
        operands: &[Ty],
        classes: &C,
    ) -> bool
        ensures { result ≡ types_below (C.lies_below classes.now) (with_operands self.now.types (operand ∷ []))
            (stated_types locals.now operands.now) }
    {
        are_below(&self.locals[..], locals, classes) && are_below(&[operand], operands, classes)
    }
}
