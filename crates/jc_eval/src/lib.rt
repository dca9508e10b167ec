//! Code alone: the code of one method without a package, its run on the defensive machine, and its type safety.
#![tactic(auto)]

ghost use Rattle.std.specs.Prelude.{⊤, ℕ, List};
ghost use Rattle.jc_eval.specs.Alone.{alone_call, alone_step, alone_steps, first_machine};
ghost use Rattle.jc_eval.specs.TypedCode.{EndsTypedAlone, IsTypedAlone, StandsAt, StepsTyped};
ghost use Rattle.jc_check.specs.Method.{word_method};
ghost use Rattle.jc_check.specs.Rules.{word_rules};
ghost use Rattle.jc_check.specs.Typing.{IsTyping, Typing};
ghost use Rattle.jc_machine.specs.Machine.{Machine};

mod examples;
mod run;

pub use examples::{code_runs, stuck_code_runs};
use jc_code::listing_laws;
use jc_machine::{IdleNatives, operations_on_words_keep_types};
pub use run::{CodeEnd, run_code};

/// Code alone that is well typed is type-safe. The machine is well typed at its start. If it is well typed, an
/// instruction of the code begins at its pc, and a step isn't stuck. The step goes on well typed, with only its frame
/// changed, or throws the exception of a division by zero, or ends with a word. The same holds for any number of steps,
/// and for a run of the code from its start. It does nothing.
pub fn carried_code_is_safe()
    ensures first { (code : List ℕ) (typing : Typing) → IsTyping word_rules (word_method code) typing
        → IsTypedAlone typing first_machine }
    ensures stands { (code : List ℕ) (typing : Typing) → (t : IsTyping word_rules (word_method code) typing)
        → (m : Machine ⊤) → IsTypedAlone typing m → StandsAt code t.listing m }
    ensures steps { (code : List ℕ) (typing : Typing) → (t : IsTyping word_rules (word_method code) typing)
        → (m : Machine ⊤) → IsTypedAlone typing m → StepsTyped typing m (alone_step t.listing m).outcome }
    ensures runs { (code : List ℕ) (typing : Typing) → (t : IsTyping word_rules (word_method code) typing)
        → (steps : ℕ) (m : Machine ⊤) → IsTypedAlone typing m
        → EndsTypedAlone typing (alone_steps t.listing steps m).ends }
    ensures calls { (code : List ℕ) (typing : Typing) → (t : IsTyping word_rules (word_method code) typing)
        → (steps : ℕ) → EndsTypedAlone typing (alone_call t.listing steps).ends }
{
    listing_laws();
    operations_on_words_keep_types(&IdleNatives);
}
