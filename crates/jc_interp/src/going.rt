//! How an instruction goes on.

ghost use Rattle.std.specs.Prelude.{◌≡◌};
ghost use Rattle.jc_interp.specs.PrivateRunning.{StillRuns};
ghost use Rattle.jc_interp.specs.PrivateDone.{done, gives, goes_to, leaves, local, operand, puts};

use crate::ends::StepEnd;
use crate::machine::WordMachine;
use crate::step_context::WordStepContext;

impl WordMachine {
    /// The operand with an index, counted from the top.
    #[inline(always)]
    pub(crate) fn operand(&self, index: u8) -> u16
        ensures { result ≡ operand self.now index }
    {
        self.frames.operand(index)
    }

    #[inline]
    pub(crate) fn local(&self, index: u8) -> u16
        ensures { result ≡ local self.now index }
    {
        self.frames.local(index)
    }

    #[inline(always)]
    pub(crate) fn goes_to(&mut self, pc: u16) -> StepEnd
        ensures { done self.new result ≡ goes_to pc self.old }
    {
        self.frames.set_pc(pc);
        StepEnd::GoesOn
    }

    /// Pops so many operands, and goes on after the instruction.
    #[inline(always)]
    pub(crate) fn leaves(&mut self, here: &WordStepContext<'_>, count: u8) -> StepEnd
        ensures { done self.new result ≡ leaves here.now count self.old }
    {
        self.frames.drop_operands(count);
        self.goes_to(here.next_pc)
    }

    /// Pushes a word, and goes on after the instruction.
    #[inline(always)]
    #[tactic(auto, using(crate::proofs::Putting::put_is))]
    pub(crate) fn puts(&mut self, here: &WordStepContext<'_>, word: u16) -> StepEnd
        ensures { done self.new result ≡ puts here.now word self.old }
    {
        self.frames.put(word, here.next_pc);
        StepEnd::GoesOn
    }

    /// Puts a word in place of so many operands, and goes on after the instruction.
    #[inline(always)]
    #[tactic(auto, using(crate::proofs::Putting::replaced_is))]
    pub(crate) fn gives(&mut self, here: &WordStepContext<'_>, count: u8, word: u16) -> StepEnd
        ensures is { done self.new result ≡ gives here.now count word self.old }
        ensures runs { StillRuns self.old self.new }
    {
        self.frames.replace(count, word, here.next_pc);
        StepEnd::GoesOn
    }
}
