//! Laws of all commands of the defensive machine's card (Java Card Runtime Environment Specification, Applet Isolation
//! and Object Sharing).

ghost use Rattle.std.specs.Prelude.{◌≡◌, ◌<◌, ℕ, List, Err, IsSome};
ghost use Rattle.jc_base.specs.declared.fault.LoadFault.TheVariants.{Full};
ghost use Rattle.jc_api.specs.Bound.{Bound};
ghost use Rattle.jc_api.specs.NoClash.{HasNoClash};
ghost use Rattle.jc_card.specs.Accesses.{IsApartCard};
ghost use Rattle.jc_card.specs.Card.{CardState};
ghost use Rattle.jc_card.specs.Commands.{apdu_command, reset_command};
ghost use Rattle.jc_card.specs.Install.{install_command};
ghost use Rattle.jc_card.specs.Load.{IsLoad};
ghost use Rattle.jc_machine.specs.declared.limits.Limits.{Limits};
ghost use Rattle.jc_run.specs.EndCauses.{IsUnreadable, IsUnwritable};
ghost use Rattle.jc_run.specs.Loading.{PutsOrLeaves};
ghost use Rattle.jc_run.specs.NeverStuck.{GoesOn};
ghost use Rattle.jc_run.specs.Runs.{IsSafeCard};
ghost use Rattle.jc_script.specs.Script.{Apdu, Install, Reset};

use jc_card::{
    accesses_add_up, commands_are_answered, commands_are_guarded, commands_are_never_stuck,
    commands_keep_contents, commands_see_no_contents, commands_stay_apart,
};
use jc_natives::members_keep_what_is_kept;

/// Each new card within limits is safe, whatever is loaded as jc_card loads it. It does nothing.
pub(crate) fn commands_are_lawful()
    ensures { (limits : Limits) (binding : Bound) → limits.cells < 65536 → HasNoClash binding
        → IsSafeCard IsLoad IsApartCard limits binding }
{
    commands_are_guarded();
    commands_stay_apart();
    commands_see_no_contents();
    members_keep_what_is_kept();
    commands_keep_contents();
    commands_are_answered();
    commands_are_never_stuck();
    accesses_add_up();
}

/// A command that calls methods goes on only if the card of the defensive machine answers it. It does nothing.
pub fn commands_that_go_on_are_answered()
    ensures apdu { (c : CardState) (bytes : List ℕ) → GoesOn c (Apdu bytes) → IsSome (apdu_command c bytes) }
    ensures install { (c : CardState) (applet instance incoming : List ℕ) → GoesOn c (Install applet instance incoming)
        → IsSome (install_command c applet instance incoming) }
    ensures reset { (c : CardState) → GoesOn c Reset → IsSome (reset_command c) }
{}

/// Examples of what ends a script early, and of a refused load. Lines aren't read, or an answer isn't written, only if
/// a call of the reader or the writer failed, or it was called too often. It does nothing.
pub fn early_ends_have_causes()
    ensures readable { IsUnreadable 3 7 1 1 → ⊥ }
    ensures read_failed { IsUnreadable 3 7 1 2 }
    ensures read_too_often { IsUnreadable 3 16777219 1 1 }
    ensures read_less { IsUnreadable 3 16777218 1 1 → ⊥ }
    ensures writable { IsUnwritable 3 7 1 1 → ⊥ }
    ensures write_failed { IsUnwritable 3 7 1 2 }
    ensures written_too_often { IsUnwritable 3 16777219 1 1 }
    ensures written_less { IsUnwritable 3 16777218 1 1 → ⊥ }
    ensures refused { (c after : CardState) (image : List ℕ) → PutsOrLeaves c image (Err Full) after → after ≡ c }
{}
