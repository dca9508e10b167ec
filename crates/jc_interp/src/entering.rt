//! Frames for called methods (Java Card Virtual Machine Specification, Frames).

ghost use Rattle.std.specs.Prelude.{◌≡◌};
ghost use Rattle.jc_interp.specs.PrivateDone.{done};
ghost use Rattle.jc_interp.specs.PrivateEntering.{Enters, EntersWith, header_of, owners_of, size_of};
ghost use Rattle.jc_interp.specs.PrivateRunning.{HasCode, IsByName, RunsTop};
ghost use Rattle.jc_interp.specs.declared.ends.StepEnd.TheVariants.{GoesOn};

use crate::ends::StepEnd;
use crate::machine::WordMachine;
use crate::step_context::WordStepContext;
use crate::top::{Activation, pool_from};
use jc_cap::MethodHeader;
use jc_entries::MethodNumber;
use jc_frames::{CodePlace, FrameHeader, FrameSize};
use jc_names::Owner;
use jc_program::LoadedMethod;

/// The owners of a called frame.
#[derive(Clone, Copy)]
pub(crate) struct Owners {
    pub(crate) active: Owner,
    /// The owner that was active before the last switch, if there was one.
    pub(crate) previous: Option<Owner>,
}

/// The caller's owners; or the owner to which the call switches, with the caller's as the previous one.
#[inline]
pub(crate) fn owners_of(here: &WordStepContext<'_>, switch: Option<Owner>) -> Owners
    ensures { result ≡ owners_of here.now switch }
{
    match switch {
        None => Owners {
            active: here.frame.active,
            previous: here.frame.previous,
        },
        Some(owner) => Owners {
            active: owner,
            previous: Some(here.frame.active),
        },
    }
}

/// A frame at the start of a method.
#[inline]
pub(crate) fn header_of(method: &LoadedMethod<'_>, owners: Owners) -> FrameHeader
    ensures { result ≡ header_of method.now owners }
{
    FrameHeader {
        method: CodePlace {
            package: method.package,
            offset: method.offset,
        },
        pc: 0,
        depth: 0,
        active: owners.active,
        previous: owners.previous,
    }
}

/// The size of a method's frame, with so many words of arguments.
#[inline]
pub(crate) fn size_of(header: MethodHeader, words: u8) -> FrameSize
    ensures { result ≡ size_of header words }
{
    FrameSize {
        locals: u16::from(words) + u16::from(header.max_locals),
        operands: header.max_stack,
    }
}

impl WordMachine {
    /// Calls a method on so many operands, and pops them from the caller.
    #[inline(always)]
    pub(crate) fn enter<'p>(
        &mut self,
        here: &WordStepContext<'p>,
        number: MethodNumber,
        owners: Owners,
        words: u8,
        running: &mut Activation<'p>,
    ) -> StepEnd
        requires by_name { IsByName here.now.program.now number }
        requires known { HasCode here.now.program.now running.old }
        ensures enters { Enters here.now number owners words self.old (done self.new result) }
        ensures runs { result ≡ GoesOn → RunsTop here.now.program.now self.new running.new }
        ensures stays { (result ≡ GoesOn → ⊥) → self.new.frames ≡ self.old.frames }
    {
        let Some(method) = here.program.methods.get(number) else {
            return StepEnd::UsedUp;
        };
        let header = header_of(&method, owners);
        let size = size_of(method.header, words);
        if !self.frames.enter_call(header, size, words) {
            return StepEnd::UsedUp;
        }
        *running = Activation {
            method: header.method,
            code: method.code,
            kinds: here.program.methods.code_kinds(number, &method),
            pool: pool_from(here.program, method.package, *running),
            context: header.active.context,
        };
        StepEnd::GoesOn
    }

    /// Calls a method on arguments for a native member. The native member's own arguments were so many operands, which
    /// are popped from the caller.
    pub(crate) fn enter_with(
        &mut self,
        here: &WordStepContext<'_>,
        number: MethodNumber,
        owners: Owners,
        arguments: &[u16],
        words: u8,
    ) -> StepEnd
        ensures enters { EntersWith here.now number owners arguments.now words self.old (done self.new result) }
        ensures stays { (result ≡ GoesOn → ⊥) → self.new.frames ≡ self.old.frames }
    {
        let Some(method) = here.program.methods.get(number) else {
            return StepEnd::UsedUp;
        };
        let Ok(count) = u8::try_from(arguments.len()) else {
            return StepEnd::UsedUp;
        };
        let header = header_of(&method, owners);
        let size = size_of(method.header, count);
        if self.frames.enter_with(header, size, words, arguments) {
            StepEnd::GoesOn
        } else {
            StepEnd::UsedUp
        }
    }
}
