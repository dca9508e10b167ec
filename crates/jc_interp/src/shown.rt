//! Shows the frame in which a call stopped.

ghost use Rattle.std.specs.Prelude.{◌≡◌, false};
ghost use Rattle.std.specs.Bool.{OnTrue};
ghost use Rattle.jc_interp.specs.PrivateShown.{IsShown, MayBeShown};

use crate::ends::{ARRAY_INDEX_EXCEPTION, RunEnd};
use crate::fetch::code_of;
use crate::machine::WordMachine;
use arrayvec::ArrayVec;
use jc_machine::Budget;
use jc_names::Owner;
use jc_program::Program;

/// The most locals of a frame: at most 255 arguments, and at most 255 others.
pub const MOST_LOCALS: usize = 510;

/// The most operands of a frame.
pub const MOST_OPERANDS: usize = 255;

/// An index outside of an array.
#[derive(Clone, Copy, Debug, PartialEq, Eq)]
pub struct IndexFault {
    /// The index, a short.
    pub index: u16,
    /// The length of the array.
    pub length: u16,
}

/// The frame in which a call stopped.
#[derive(Debug, Drop)]
pub struct ShownFrame {
    /// Whether a call stopped in a frame; if none did, the rest means nothing.
    pub is_there: bool,
    /// The owner that was active.
    pub active: Owner,
    /// The locals, as words.
    pub locals: ArrayVec<u16, MOST_LOCALS>,
    /// The operands, as words, the deepest first.
    pub operands: ArrayVec<u16, MOST_OPERANDS>,
    /// The index and the length, if the runtime's ArrayIndexOutOfBoundsException was thrown.
    pub index: Option<IndexFault>,
}

impl ShownFrame {
    /// No frame.
    pub fn none() -> ShownFrame
        ensures { result.is_there ≡ false }
    {
        ShownFrame {
            is_there: false,
            active: Owner::RUNTIME,
            locals: ArrayVec::new(),
            operands: ArrayVec::new(),
            index: None,
        }
    }
}

/// How many operands are on top of the index, if an instruction has one (Java Card Virtual Machine Specification,
/// baload and the other instructions on components).
fn operands_on_index(opcode: u8) -> Option<u8> {
    match opcode {
        36..=38 => Some(0),
        55..=57 => Some(1),
        _ => None,
    }
}

/// Replaces words by others, and reports whether there was room for them.
fn put_down<const MOST: usize>(room: &mut ArrayVec<u16, MOST>, words: &[u16]) -> bool
    ensures { OnTrue result (room.new.items ≡ words.now) }
{
    room.clear();
    room.try_extend_from_slice(words).is_ok()
}

/// Whether the frame in which a call ended may be shown: the call ended by a throw, or its steps were spent.
fn may_be_shown(end: RunEnd) -> bool
    ensures { OnTrue result (MayBeShown end) }
{
    match end {
        RunEnd::Threw { .. } => true,
        RunEnd::RanOut { spent, .. } => spent == Budget::Steps,
        RunEnd::Gave(_) => false,
    }
}

impl WordMachine {
    /// Shows the top frame, if there is one.
    fn show_top(&self, shown: &mut ShownFrame)
        ensures { OnTrue shown.new.is_there (IsShown self.now shown.new) }
    {
        let Some(frame) = self.frames.top() else {
            shown.is_there = false;
            return;
        };
        shown.active = frame.active;
        let depth = self.frames.depth();
        let has_locals = put_down(&mut shown.locals, self.frames.locals());
        let has_operands = put_down(&mut shown.operands, self.frames.arguments(depth));
        shown.is_there = has_locals && has_operands;
    }

    /// The index that the instruction at the top frame's pc uses, and the length of its array.
    fn index_fault(&self, program: &Program) -> Option<IndexFault> {
        let frame = self.frames.top()?;
        let opcode = *code_of(&program.methods, frame).get(usize::from(frame.pc))?;
        let above = operands_on_index(opcode)?;
        let array = self.frames.operand(above.saturating_add(1));
        if !self.store.is_there(array) {
            return None;
        }
        Some(IndexFault {
            index: self.frames.operand(above),
            length: self.store.len(array),
        })
    }

    /// Shows the frame in which a call ended, if it may be shown.
    pub(crate) fn show(&self, program: &Program, end: RunEnd, shown: &mut ShownFrame)
        ensures { OnTrue shown.new.is_there (IsShown self.now shown.new × MayBeShown end) }
    {
        if may_be_shown(end) {
            self.show_top(shown);
            shown.index = match end {
                RunEnd::Threw { object, .. } if object == ARRAY_INDEX_EXCEPTION => {
                    self.index_fault(program)
                }
                _ => None,
            };
        } else {
            shown.is_there = false;
        }
    }
}
