//! The locals that exception handlers took in last.

ghost use Rattle.std.specs.Prelude.{◌≡◌, ◌≤◌, None, Some, true, length, IfOk};
ghost use Rattle.jc_types.specs.PrivateRanges.{AgreeOutside};
ghost use Rattle.jc_verify.specs.PrivateSeen.{WasCovered};

use jc_check::CheckedHandler;
use jc_types::{LocalRange, Ty, differing};
use std::alloc::{AllocError, Global};

/// The pc of the instruction whose handlers were visited last, and the locals before it. If there is no pc, the locals
/// don't count.
#[derive(Drop)]
pub(crate) struct TakenLocals {
    pub(crate) at: Option<u16>,
    pub(crate) locals: Vec<Ty>,
}

impl TakenLocals {
    /// Nothing was seen yet. It takes no memory.
    pub(crate) fn nothing(alloc: Global) -> TakenLocals
        ensures { result.at ≡ None }
    {
        TakenLocals {
            at: None,
            locals: Vec::new(alloc),
        }
    }

    /// Whether a handler covers the instruction seen last.
    pub(crate) fn was_covered(&self, handler: &CheckedHandler) -> bool
        ensures { result ≡ true → WasCovered self.now handler.now }
    {
        match self.at {
            Some(pc) => handler.covers(pc),
            None => false,
        }
    }

    /// A range outside of which these locals equal those seen last.
    pub(crate) fn changed(&self, locals: &[Ty]) -> LocalRange
        ensures ordered { result.first ≤ result.behind }
        ensures within { result.behind ≤ length locals.now }
        ensures agree { length self.now.locals.items ≡ length locals.now
            → AgreeOutside result self.now.locals.items locals.now }
    {
        if self.locals.len() != locals.len() {
            return LocalRange {
                first: 0,
                behind: locals.len(),
            };
        }
        differing(&self.locals, locals)
    }

    /// Notes these locals, before the instruction at a pc, as seen.
    pub(crate) fn note(&mut self, pc: u16, locals: &[Ty]) -> Result<(), AllocError>
        ensures at { IfOk result (λ u. self.new.at ≡ Some pc) }
        ensures locals { IfOk result (λ u. self.new.locals.items ≡ locals.now) }
    {
        self.locals.clear();
        self.locals.extend_from_slice(locals)?;
        self.at = Some(pc);
        Ok(())
    }
}
