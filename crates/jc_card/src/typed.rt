//! Laws of the defensive machine's card: no command is stuck (Java Card Virtual Machine Specification, Verification of
//! CAP files).

ghost use Rattle.std.specs.Prelude.{◌≡◌, ◌<◌, ℕ, List, Result, true};
ghost use Rattle.jc_api.specs.Bound.{Bound};
ghost use Rattle.jc_api.specs.NoClash.{HasNoClash};
ghost use Rattle.jc_base.specs.declared.fault.LoadFault.{LoadFault};
ghost use Rattle.jc_card.specs.Card.{CardState};
ghost use Rattle.jc_card.specs.Commands.{apdu_command, reset_command};
ghost use Rattle.jc_card.specs.Install.{install_command};
ghost use Rattle.jc_card.specs.Load.{IsLoad};
ghost use Rattle.jc_card.specs.New.{new_card};
ghost use Rattle.jc_card.specs.PrivateTyped.{CommandLaws};
ghost use Rattle.jc_card.specs.Typed.{GivesTyped, IsTypedCard};
ghost use Rattle.jc_machine.specs.declared.limits.Limits.{Limits};
ghost use Rattle.jc_natives.specs.Kept.{are_bytes, is_aid};

use crate::checking::fit_packages_are_accepted;
use jc_classes::superclass_laws;
use jc_link::built_worlds_are_sound;
use jc_machine::{Natives, accepted_worlds_grow, new_machines_are_typed};
use jc_natives::{
    Runtime, calls_keep_fitting, calls_keep_numbers, loads_keep_fitting, members_are_declared,
};
use jc_safety::{accepted_packages_are_type_safe, loads_stay_typed, objects_stay_typed};

/// The laws that the parts of commands leave cards typed, in one record. It does nothing.
fn parts_stay_typed()
    ensures { CommandLaws }
{
    built_worlds_are_sound();
    superclass_laws();
    members_are_declared();
    Runtime::new().law();
    accepted_packages_are_type_safe(&Runtime::new());
    objects_stay_typed(&Runtime::new());
    calls_keep_numbers();
    calls_keep_fitting();
}

/// No command on a card of the defensive machine is stuck, whatever happened to the card before. A new card is typed.
/// On a typed card each command returns an answer, and leaves a typed card: any bytes of a reader; an install of any
/// applet, with any AID and data; and a reset. A load of any bytes with any certificate leaves a typed card, too. It
/// does nothing.
pub fn commands_are_never_stuck()
    ensures new { (limits : Limits) (binding : Bound) → limits.cells < 65536 → HasNoClash binding
        → IsTypedCard (new_card limits binding) }
    ensures apdu { (c : CardState) → IsTypedCard c → (bytes : List ℕ) → are_bytes bytes ≡ true
        → GivesTyped (apdu_command c bytes) }
    ensures install { (c : CardState) → IsTypedCard c → (applet instance incoming : List ℕ) → is_aid applet ≡ true
        → is_aid instance ≡ true → are_bytes incoming ≡ true
        → GivesTyped (install_command c applet instance incoming) }
    ensures reset { (c : CardState) → IsTypedCard c → GivesTyped (reset_command c) }
    ensures load { (c after : CardState) (image certificate : List ℕ) (result : Result ℕ LoadFault) → IsTypedCard c
        → are_bytes image ≡ true → IsLoad c image certificate result after → IsTypedCard after }
{
    parts_stay_typed();
    fit_packages_are_accepted();
    loads_stay_typed(&Runtime::new());
    calls_keep_fitting();
    loads_keep_fitting();
    new_machines_are_typed();
    accepted_worlds_grow();
}
