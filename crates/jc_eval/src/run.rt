//! Code alone on words.

ghost use Rattle.std.specs.Prelude.{◌≡◌, ◌≤◌, length, reverse, slice_index, take};
ghost use Rattle.jc_eval.specs.Alone.{EndsAs, alone_call};
ghost use Rattle.jc_eval.specs.PrivateRuns.{end_of};
ghost use Rattle.jc_code.specs.Instructions.{word_instr_at};
ghost use Rattle.jc_check.specs.Method.{word_method};
ghost use Rattle.jc_check.specs.Rules.{word_rules};
ghost use Rattle.jc_check.specs.Typing.{IsTyping, Typing};

use crate::carried_code_is_safe;
use jc_check::{CheckedWords, WORD_LOCALS, WORD_MAX_STACK};
use jc_code::decode_words;
use jc_follow::words_follow;
use jc_loop::{
    ByOpcode, FrameEnvironment, FramePosition, rows_are_decoded, run_frame, words_are_decoded,
};
use jc_machine::IdleNatives;
use jc_store::Store;

/// The end of a run of code alone.
#[derive(Clone, Copy, Debug, PartialEq, Eq)]
pub enum CodeEnd {
    /// The code returned a word.
    Gave(u16),
    /// The code threw the exception of a division by 0.
    Divided,
    /// The code didn't end within the given steps.
    UsedUp,
}

/// The top operand, or 0 if there is none.
fn top_of(slots: &[u16], depth: u8) -> u16
    requires held { depth ≤ length slots.now }
    ensures { result ≡ slice_index (reverse (take depth slots.now)) 0 }
{
    if depth == 0 {
        return 0;
    }
    slots[usize::from(depth) - 1]
}

/// The end of code if the loop has stopped with steps left: it returns, or divides by 0.
fn end_at(code: &[u8], slots: &[u16], place: FramePosition) -> CodeEnd
    requires held { place.depth ≤ length slots.now }
    ensures { result ≡ end_of (word_instr_at code.now place.pc) (slice_index (reverse (take place.depth slots.now)) 0) }
{
    match decode_words(code, usize::from(place.pc)) {
        Ok(instr) => {
            if instr.ends() {
                return CodeEnd::Gave(top_of(slots, place.depth));
            }
            CodeEnd::Divided
        },
        Err(_) => CodeEnd::Divided,
    }
}

/// The environment of the one frame of code alone, which reaches nothing beside its words.
fn empty_environment() -> FrameEnvironment<'static> {
    FrameEnvironment {
        entries: &[],
        package: 0,
        context: 0,
        selected: None,
    }
}

/// Runs code that a certificate carries for at most `steps` steps. It ends as the defensive machine's run of the code
/// does, which is never stuck. The loop takes a store, and the code reaches no object of it.
// By itself it has all registers of the processor.
#[inline(never)]
pub fn run_code(checked: &CheckedWords<'_>, store: &mut Store, steps: u32) -> CodeEnd
    ensures { (typing : Typing) → (t : IsTyping word_rules (word_method checked.now) typing)
        → EndsAs result (alone_call t.listing steps).ends }
{
    carried_code_is_safe();
    words_follow(&IdleNatives);
    words_are_decoded();
    rows_are_decoded();
    let code = checked.code();
    let mut locals = [0; WORD_LOCALS];
    let mut slots = [0; WORD_MAX_STACK];
    let start = FramePosition { pc: 0, depth: 0 };
    let environment = empty_environment();
    let stopped = run_frame(
        &environment,
        code,
        ByOpcode,
        &mut locals,
        &mut slots,
        &mut [],
        store,
        start,
        steps,
    );
    if stopped.left == 0 {
        return CodeEnd::UsedUp;
    }
    end_at(code, &slots, stopped.place)
}
