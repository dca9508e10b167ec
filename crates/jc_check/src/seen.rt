//! The locals that the exception handlers of a method saw last.

ghost use Rattle.std.specs.Prelude.{◌≡◌, ◌≢◌, [], length, Some, None, IfOk};
ghost use Rattle.jc_types.specs.PrivateRanges.{AgreeOutside};
ghost use Rattle.jc_check.specs.PrivateSeen.{covers_seen};

use crate::handler::CheckedHandler;
use jc_types::{LocalRange, Ty, differing};
use std::alloc::{AllocError, Global};
use std::marker::Model;

/// The locals before the instruction at which the handlers were tested last, and its pc, if there was one.
#[derive(Drop)]
pub(crate) struct SeenLocals {
    locals: Vec<Ty>,
    pc: Option<u16>,
}

impl Model for SeenLocals {
    ghost use Rattle.jc_check.specs.PrivateSeen.{SeenLocals};

    ghost Value = { SeenLocals };

    ghost view = { λ s. record { locals = s.locals.items; pc = s.pc } };
}

impl SeenLocals {
    /// No locals, with room for as many as these. Without handlers it takes no memory.
    pub(crate) fn none(
        alloc: Global,
        locals: &[Ty],
        handlers: &[CheckedHandler],
    ) -> Result<SeenLocals, AllocError>
        ensures pc { IfOk result (λ seen. seen.pc ≡ None) }
        ensures len { IfOk result (λ seen. handlers.now ≢ [] → length seen.locals ≡ length locals.now) }
    {
        let locals = if handlers.is_empty() {
            Vec::new(alloc)
        } else {
            Vec::from_slice(alloc, locals)?
        };
        Ok(SeenLocals { locals, pc: None })
    }

    /// Whether a handler covers that instruction.
    pub(crate) fn is_covered_by(&self, handler: &CheckedHandler) -> bool
        ensures { result ≡ covers_seen handler.now self.now }
    {
        match self.pc {
            Some(pc) => handler.covers(pc),
            None => false,
        }
    }

    /// A range outside of which these locals equal those that were seen.
    pub(crate) fn changed(&self, locals: &[Ty]) -> LocalRange
        requires { length self.now.locals ≡ length locals.now }
        ensures { AgreeOutside result self.now.locals locals.now }
    {
        differing(&self.locals, locals)
    }

    /// Records the locals before the instruction at a pc.
    pub(crate) fn note(&mut self, pc: u16, locals: &[Ty])
        requires { length self.old.locals ≡ length locals.now }
        ensures { self.new ≡ record { locals = locals.now; pc = Some pc } }
    {
        self.pc = Some(pc);
        self.locals.copy_from_slice(locals);
    }
}
