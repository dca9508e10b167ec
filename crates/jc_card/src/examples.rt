//! Examples of the card, which the prover computes from its definitions.

ghost use Rattle.std.specs.Prelude.{◌≡◌, [], ◌∷◌, None, Some};
ghost use Rattle.std.specs.Option.{option_and_then};
ghost use Rattle.jc_card.specs.Causes.{uncaught_cause};
ghost use Rattle.jc_card.specs.Commands.{status_alone};
ghost use Rattle.jc_card.specs.Examples.{answer_on, applet_aid, header_alone, held_by, install_on, installed_card};
ghost use Rattle.jc_card.specs.Examples.{loaded_card};
ghost use Rattle.jc_card.specs.Examples.{objects_accessed, other_aid, reset_card, said_by, select_of, selected_card};
ghost use Rattle.jc_card.specs.Examples.{send_to};
ghost use Rattle.jc_card.specs.Install.{HasNumber, Refused};
ghost use Rattle.jc_card.specs.declared.cause.Cause.TheVariants.{Threw};
ghost use Rattle.jc_card.specs.declared.fault.InstallFault.TheVariants.{AidInUse, UnknownApplet};
ghost use Rattle.jc_firewall.specs.declared.access.Access.TheVariants.{GetField};
ghost use Rattle.jc_firewall.specs.declared.access.Rule.TheVariants.{Fields};
ghost use Rattle.jc_store.specs.declared.kind.ObjectType.TheVariants.{ShortArray};

/// Installs the applet of a small package: its install method makes an object, which registers. It does nothing.
pub fn applets_are_installed()
    ensures number { said_by (install_on loaded_card applet_aid applet_aid) ≡ Some (HasNumber 1) }
    ensures accesses { objects_accessed (install_on loaded_card applet_aid applet_aid)
        ≡ Some (13 ∷ 46 ∷ 46 ∷ 14 ∷ []) }
    ensures unknown { said_by (install_on loaded_card other_aid other_aid) ≡ Some (Refused UnknownApplet) }
    ensures used { option_and_then (λ c. said_by (install_on c applet_aid applet_aid)) installed_card
        ≡ Some (Refused AidInUse) }
{}

/// Selects it; then it gets each command, until a reset. It does nothing.
pub fn applets_are_selected()
    ensures selected { answer_on installed_card (select_of applet_aid) ≡ Some (status_alone 0x9000) }
    ensures processed { answer_on selected_card header_alone ≡ Some (status_alone 0x9000) }
    ensures before { answer_on installed_card header_alone ≡ Some (status_alone 0x6999) }
    ensures after_reset { answer_on reset_card header_alone ≡ Some (status_alone 0x6999) }
    ensures other { answer_on installed_card (select_of other_aid) ≡ Some (status_alone 0x6999) }
    ensures malformed { answer_on selected_card (0 ∷ 0 ∷ []) ≡ Some (status_alone 0x6700) }
{}

/// Tells why a call ended whose last access was denied: what it threw, and the owner of the object that was accessed.
/// It does nothing.
pub fn denials_name_the_owner()
    ensures { uncaught_cause (held_by 0 0 5 ∷ held_by 2 3 9 ∷ []) 1 None
        (Some (record { access = GetField; object = 2; rule = Fields }))
        ≡ Some (Threw ShortArray 5 None (Some (record {
          access = GetField;
          owner = record { context = 2; instance = 3 };
          rule = Fields;
        }))) }
{}
