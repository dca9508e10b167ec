//! Throws of references (Java Card Virtual Machine Specification, Instruction set: athrow).

ghost use Rattle.std.specs.Prelude.{◌≡◌};
ghost use Rattle.jc_interp.specs.PrivateDone.{done, operand};
ghost use Rattle.jc_interp.specs.PrivateObjects.{do_throw};

use crate::ends::{NULL_POINTER_EXCEPTION, StepEnd};
use crate::machine::WordMachine;
use crate::seen::{denied_on, look_at};
use crate::step_context::WordStepContext;
use jc_firewall::Access;

impl WordMachine {
    /// athrow
    pub(crate) fn throw(&self, here: &WordStepContext<'_>) -> StepEnd
        ensures { done self.now result ≡ do_throw here.now (operand self.now 0) self.now }
    {
        let number = self.operand(0);
        let Some(object) = look_at(&self.store, number) else {
            return StepEnd::Throws(NULL_POINTER_EXCEPTION);
        };
        match denied_on(here, Access::Throw, number, object, None) {
            Some(denied) => StepEnd::AccessDenied(denied),
            None => StepEnd::Throws(number),
        }
    }
}
