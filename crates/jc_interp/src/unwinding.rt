//! Passes a thrown object outward over the frames to the nearest exception handler (Java Card Virtual Machine
//! Specification, Exceptions, athrow).

ghost use Rattle.std.specs.Prelude.{◌≡◌};
ghost use Rattle.jc_interp.specs.PrivateDone.{done};
ghost use Rattle.jc_interp.specs.PrivateUnwinding.{catches, do_unwind, handled, handler_for, handler_in, handler_under};
ghost use Rattle.jc_interp.specs.PrivateUnwinding.{is_caught, unwinds};

use crate::ends::StepEnd;
use crate::fetch::method_of;
use crate::machine::WordMachine;
use crate::seen::{is_below, look_at};
use jc_frames::FrameHeader;
use jc_program::{Caught, LoadedHandler, LoadedMethod, Program};

/// Whether a handler of this kind catches objects of the class with a number.
fn is_caught(program: &Program, class: u16, caught: Caught) -> bool
    ensures { result ≡ is_caught program.now class caught }
{
    match caught {
        Caught::All => true,
        Caught::OfClass(other) => is_below(program, class, other),
        Caught::Nothing => false,
    }
}

/// Whether a handler covers a pc and catches objects of the class with a number.
fn catches(program: &Program, class: u16, pc: u16, handler: LoadedHandler) -> bool
    ensures { result ≡ catches program.now class pc handler }
{
    handler.covers(pc) && is_caught(program, class, handler.caught)
}

/// The first handler of a method that covers the pc and catches such objects.
fn handler_for(
    program: &Program,
    class: u16,
    pc: u16,
    method: &LoadedMethod<'_>,
) -> Option<LoadedHandler>
    ensures { result ≡ handler_for program.now class pc method.now }
{
    method
        .handlers
        .iter()
        .copied()
        .find(|handler| catches(program, class, pc, *handler))
}

/// The handler of a frame's method for objects of the class with a number, at the frame's pc.
fn handler_in(program: &Program, class: u16, frame: FrameHeader) -> Option<LoadedHandler>
    ensures { result ≡ handler_in program.now class frame }
{
    let method = method_of(&program.methods, frame)?;
    handler_for(program, class, frame.pc, &method)
}

impl WordMachine {
    /// Lets the top frame go on at a handler, with the object as its only operand.
    fn handle(&mut self, object: u16, handler: LoadedHandler)
        ensures { self.new ≡ handled object handler self.old }
    {
        self.frames.place_top(handler.goes_on, 0);
        self.frames.push_operand(object);
    }

    /// The handler of the frame that has so many others on top of it.
    fn handler_under(&self, program: &Program, class: u16, others: u8) -> Option<LoadedHandler>
        ensures { result ≡ handler_under program.now class others self.now }
    {
        let frame = self.frames.frame_under(others)?;
        handler_in(program, class, frame)
    }

    /// Throws an object of the class with a number.
    fn unwind_for(&mut self, program: &Program, object: u16, class: u16) -> StepEnd
        ensures { done self.new result ≡ unwinds program.now object class self.old }
    {
        for others in 0..self.frames.count() {
            if let Some(handler) = self.handler_under(program, class, others) {
                self.frames.drop_frames(others);
                self.handle(object, handler);
                return StepEnd::GoesOn;
            }
        }
        StepEnd::Throws(object)
    }

    /// Throws an object: the nearest frame with a handler for it goes on there, and the frames on top of that are
    /// dropped. If no frame has one, the object leaves the call, and all frames stay.
    pub(crate) fn unwind(&mut self, program: &Program, object: u16) -> StepEnd
        ensures { done self.new result ≡ do_unwind program.now object self.old }
    {
        match look_at(&self.store, object) {
            Some(seen) => self.unwind_for(program, object, seen.class),
            None => StepEnd::UsedUp,
        }
    }
}
