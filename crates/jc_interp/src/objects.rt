//! Instructions on references (Java Card Virtual Machine Specification, Instruction set).

ghost use Rattle.std.specs.Prelude.{◌≡◌, Some};
ghost use Rattle.jc_interp.specs.PrivateDone.{done};
ghost use Rattle.jc_interp.specs.PrivateNatives.{done_with};
ghost use Rattle.jc_interp.specs.PrivateObjects.{do_object};
ghost use Rattle.jc_interp.specs.PrivatePerform.{PerformsObject};
ghost use Rattle.jc_interp.specs.PrivateStep.{top_header};
ghost use Rattle.jc_program.specs.Program.{IsProgramOf};

use crate::ends::StepEnd;
use crate::machine::WordMachine;
use crate::step_context::WordStepContext;
use jc_code::ObjectOperation;
use jc_machine::Natives;

impl WordMachine {
    /// Does an instruction on references at which the loop stopped.
    pub(crate) fn perform_object<N: Natives>(
        &mut self,
        natives: &mut N,
        here: &WordStepContext<'_>,
        operation: ObjectOperation,
    ) -> StepEnd
        requires program { IsProgramOf here.now.world.now here.now.program.now }
        requires top { top_header self.old ≡ Some here.now.frame }
        ensures { PerformsObject N.meaning here.now self.old (N.kept natives.old)
            (done_with (done self.new result) (N.kept natives.new)) (do_object here.now operation self.old) }
    {
        match operation {
            // The loop has these, and never stops at them.
            ObjectOperation::PushNull | ObjectOperation::Load(_) => StepEnd::UsedUp,
            ObjectOperation::Store(_) | ObjectOperation::Branch { .. } => StepEnd::UsedUp,
            ObjectOperation::LoadComponent(form) => self.load_component(here, form),
            ObjectOperation::StoreComponent(form) => self.store_component(here, form),
            ObjectOperation::ArrayLength => self.array_length(here),
            ObjectOperation::Field { access, index } => self.perform_field(here, access, index),
            ObjectOperation::Invoke(invocation) => self.invoke(natives, here, invocation),
            ObjectOperation::Create(creation) => self.perform_creation(here, creation),
            ObjectOperation::CheckCast(type_) => self.check_cast(here, type_),
            ObjectOperation::InstanceOf(type_) => self.instance_of(here, type_),
            ObjectOperation::Throw => self.throw(here),
            ObjectOperation::ReturnReference => {
                let word = self.operand(0);
                self.returns(here, Some(word), &mut self.running(here.program))
            }
            ObjectOperation::ReturnVoid => {
                self.returns(here, None, &mut self.running(here.program))
            }
        }
    }
}
