//! The context of a step: what surrounds the machine, and where the instruction is.

use jc_frames::FrameHeader;
use jc_link::World;
use jc_program::Program;

/// What surrounds the machine in a step, and where the top frame is.
#[derive(Clone, Copy)]
pub(crate) struct WordStepContext<'p> {
    pub(crate) world: &'p World,
    pub(crate) program: &'p Program,
    /// The context of the applet that is selected, if one is.
    pub(crate) selected: Option<u8>,
    /// The top frame, at the instruction.
    pub(crate) frame: FrameHeader,
    /// The pc of the next instruction.
    pub(crate) next_pc: u16,
}
