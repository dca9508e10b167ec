//! The state of a method at a place: the types of its locals and operands.

ghost use Rattle.std.specs.Prelude.{◌≡◌, ◌++◌, replicate, IfOk, OnOk};
ghost use Rattle.jc_types.specs.State.{entry_types};

use crate::ty::Ty;
use std::alloc::{AllocError, Global};
use std::marker::Model;

/// The types of a method's locals and operands, with room for all the operands that it may have.
#[derive(Drop)]
pub struct State {
    pub(crate) locals: Vec<Ty>,
    pub(crate) slots: Vec<Ty>,
    pub(crate) depth: usize,
}

impl Model for State {
    ghost use Rattle.std.specs.Prelude.{reverse, take, length, ◌≤◌};
    ghost use Rattle.jc_types.specs.State.{StateWithRoom};

    ghost Value = { StateWithRoom };

    ghost view = { λ s.
        record {
          types = record { locals = s.locals.items; operands = reverse (take s.depth s.slots.items) };
          room = length s.slots.items;
        } };

    ghost invariant = { λ s. s.depth ≤ length s.slots.items };
}

fn push_tops(types: &mut Vec<Ty>, count: usize) -> Result<(), AllocError>
    ensures { OnOk result (types.new.items ≡ types.old.items ++ replicate count Ty.Top) }
{
    for _ in 0..count {
        types.push(Ty::Top)?;
    }
    Ok(())
}

impl State {
    /// The state at the entry of a method: its arguments, `max_locals` more locals of type Top, and no operands, with
    /// room for `max_stack` of them. It allocates all memory of the state.
    pub fn entry(
        alloc: Global,
        arguments: &[Ty],
        max_locals: u8,
        max_stack: u8,
    ) -> Result<State, AllocError>
        ensures types { IfOk result (λ state. state.types ≡ entry_types arguments.now max_locals) }
        ensures room { IfOk result (λ state. state.room ≡ max_stack) }
    {
        let mut locals = Vec::from_slice(alloc, arguments)?;
        push_tops(&mut locals, usize::from(max_locals))?;
        let mut slots = Vec::new(alloc);
        push_tops(&mut slots, usize::from(max_stack))?;
        Ok(State {
            locals,
            slots,
            depth: 0,
        })
    }

    /// A copy with as much room.
    pub(crate) fn copied(&self, alloc: Global) -> Result<State, AllocError>
        ensures { IfOk result (λ state. state ≡ self.now) }
    {
        Ok(State {
            locals: Vec::from_slice(alloc, &self.locals)?,
            slots: Vec::from_slice(alloc, &self.slots)?,
            depth: self.depth,
        })
    }
}
