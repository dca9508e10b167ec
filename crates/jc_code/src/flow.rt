//! Where control flow goes after an instruction.

ghost use Rattle.std.specs.Prelude.{◌≡◌, length, slice_get};
ghost use Rattle.jc_code.specs.Targets.{falls_in, falls_of, flow_of, is_end, is_end_of, offsets_in, target_of};
ghost use Rattle.jc_code.specs.Targets.{targets_of};

use crate::instr::{Instr, Operation};
use crate::tables::{Cases, Offsets};
use std::marker::Model;

/// Where control flow goes after an instruction. Offsets count from its opcode.
#[derive(Drop)]
pub enum Flow<'a> {
    /// To the next instruction.
    On,
    /// By an offset, or to the next instruction.
    Branch(i16),
    /// By an offset.
    Jump(i16),
    /// By the default offset, or by one of others.
    ByKey { default: i16, offsets: Offsets<'a> },
    /// By the default offset, or by that of a case.
    ByCase { default: i16, cases: Cases<'a> },
    /// Out of the method, or to a handler.
    End,
}

impl<'a> Flow<'a> {
    /// Whether it may go on to the next instruction.
    fn falls(&self) -> bool
        ensures { result ≡ falls_in self.now }
    {
        match self {
            Flow::On | Flow::Branch(_) => true,
            Flow::Jump(_) | Flow::ByKey { .. } | Flow::ByCase { .. } | Flow::End => false,
        }
    }

    /// Whether it goes nowhere in the method, except to an exception handler.
    fn ends(&self) -> bool
        ensures { result ≡ is_end self.now }
    {
        match self {
            Flow::End => true,
            Flow::On | Flow::Branch(_) | Flow::Jump(_) => false,
            Flow::ByKey { .. } | Flow::ByCase { .. } => false,
        }
    }

    /// How many offsets there are.
    fn len(&self) -> usize
        ensures { result ≡ length (offsets_in self.now) }
    {
        match self {
            Flow::On | Flow::End => 0,
            Flow::Branch(_) | Flow::Jump(_) => 1,
            Flow::ByKey { offsets, .. } => offsets.len() + 1,
            Flow::ByCase { cases, .. } => cases.len() + 1,
        }
    }

    /// The offset at an index.
    fn offset(&self, index: usize) -> Option<i16>
        ensures { result ≡ slice_get (offsets_in self.now) index }
    {
        match self {
            Flow::On | Flow::End => None,
            Flow::Branch(offset) | Flow::Jump(offset) => if index == 0 {
                Some(*offset)
            } else {
                None
            },
            Flow::ByKey { default, offsets } => {
                if index == 0 {
                    Some(*default)
                } else {
                    offsets.get(index - 1)
                }
            }
            Flow::ByCase { default, cases } => {
                if index == 0 {
                    Some(*default)
                } else {
                    Some(cases.get(index - 1)?.offset)
                }
            }
        }
    }
}

impl<'a> Operation<'a> {
    /// Where control flow goes after it.
    fn flow(&self) -> Flow<'a>
        ensures { result ≡ flow_of self.now }
    {
        match self {
            Operation::Word(operation) => operation.flow(),
            Operation::Object(operation) => operation.flow(),
        }
    }
}

/// The places that an instruction may branch to, in the order of the code. A place may lie before the code, after it,
/// or within an instruction.
#[derive(Drop)]
pub struct Targets<'a> {
    pc: u16,
    flow: Flow<'a>,
}

impl<'a> Model for Targets<'a> {
    ghost use Rattle.std.specs.Prelude.{ℤ, List, map};
    ghost use Rattle.jc_code.specs.Targets.{offsets_in, target_of};

    ghost Value = { List ℤ };

    ghost view = { λ t. map (target_of t.pc) (offsets_in t.flow) };
}

impl<'a> Instr<'a> {
    /// The places that the instruction may branch to if it stands at a pc.
    pub fn targets(&self, pc: u16) -> Targets<'a>
        ensures { result ≡ targets_of pc self.now.operation }
    {
        Targets {
            pc,
            flow: self.operation.flow(),
        }
    }

    /// Whether it may go on to the next instruction.
    pub fn falls_through(&self) -> bool
        ensures { result ≡ falls_of self.now.operation }
    {
        self.operation.flow().falls()
    }

    /// Whether it goes on nowhere in its method, except at an exception handler if it throws.
    pub fn ends(&self) -> bool
        ensures { result ≡ is_end_of self.now.operation }
    {
        self.operation.flow().ends()
    }
}

// Pcs are below 65,536, so the sum needs no more than 32 bits.
fn target(pc: u16, offset: i16) -> i32
    ensures { result ≡ target_of pc offset }
{
    i32::from(pc) + i32::from(offset)
}

impl<'a> Targets<'a> {
    /// How many places there are.
    pub fn len(&self) -> usize
        ensures { result ≡ length self.now }
    {
        self.flow.len()
    }

    /// The place at an index.
    pub fn get(&self, index: usize) -> Option<i32>
        ensures { result ≡ slice_get self.now index }
    {
        Some(target(self.pc, self.flow.offset(index)?))
    }
}
