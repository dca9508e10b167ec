//! Examples of native members, which the prover computes from their definitions.

ghost use Rattle.std.specs.Prelude.{◌≡◌, [], ◌∷◌, None, Some, false, true};
ghost use Rattle.jc_machine.specs.Machine.{Gives, IsStuck, ThrowsObject};
ghost use Rattle.jc_natives.specs.Cells.{extended, is_within, order_of};
ghost use Rattle.jc_natives.specs.Checks.{Passed, Refused, Unfit};
ghost use Rattle.jc_natives.specs.Examples.{cells_after, ends_by, tests_end, the_others, work_by};
ghost use Rattle.jc_natives.specs.Kept.{nothing_kept, with_command};
ghost use Rattle.jc_natives.specs.Members.{event_of};
ghost use Rattle.jc_natives.specs.Work.{throws, throws_apdu, throws_system};
ghost use Rattle.jc_store.specs.declared.kind.ClearingEvent.TheVariants.{Deselect, Reset};
ghost use Rattle.jc_words.specs.Values.{Null, Ref, Word};

/// Ranges, and bytes with their signs. It does nothing.
pub fn ranges_and_signs()
    ensures whole { is_within 10 5 5 ≡ true }
    ensures one_past { is_within 10 5 6 ≡ false }
    ensures empty_at_the_end { is_within 10 10 0 ≡ true }
    ensures past_16_bits { is_within 32767 32767 32767 ≡ false }
    ensures negative { is_within 10 65535 1 ≡ false }
    ensures low_byte { extended 0x0106 ≡ 6 }
    ensures with_sign { extended 0x00FF ≡ 0xFFFF }
    ensures event { event_of (extended 0x0101) ≡ Some Reset }
    ensures other_event { event_of 2 ≡ Some Deselect }
    ensures no_event { event_of 3 ≡ None }
    ensures unsigned { order_of (1 ∷ 255 ∷ []) (1 ∷ 2 ∷ []) ≡ 1 }
{}

/// Tests of arguments, in order: of arrayCopy, and of equals of AID. Object 1 is an array of the active context, and
/// object 2 one of another. It does nothing.
pub fn arguments_are_tested()
    ensures passes { tests_end 49 (Ref 1 ∷ Word 0 ∷ Ref 1 ∷ Word 1 ∷ Word 3 ∷ []) ≡ Some Passed }
    ensures past_the_end { tests_end 49 (Ref 1 ∷ Word 0 ∷ Ref 1 ∷ Word 1 ∷ Word 4 ∷ []) ≡ Some (Refused 4) }
    ensures null_source { tests_end 49 (Null ∷ Word 0 ∷ Ref 2 ∷ Word 9 ∷ Word 9 ∷ []) ≡ Some (Refused 6) }
    ensures denied_before_null { tests_end 49 (Ref 2 ∷ Word 0 ∷ Null ∷ Word 0 ∷ Word 1 ∷ []) ≡ Some (Refused 7) }
    ensures denied_before_range { tests_end 49 (Ref 1 ∷ Word 9 ∷ Ref 2 ∷ Word 0 ∷ Word 1 ∷ []) ≡ Some (Refused 7) }
    ensures null_may_be_compared { tests_end 24 (Ref 3 ∷ Null ∷ Word 9 ∷ Word 9 ∷ []) ≡ Some Passed }
    ensures no_reference { tests_end 49 (Word 1 ∷ Word 0 ∷ Ref 1 ∷ Word 1 ∷ Word 3 ∷ []) ≡ Some Unfit }
    ensures no_object { tests_end 49 (Ref 9 ∷ Word 0 ∷ Ref 1 ∷ Word 1 ∷ Word 3 ∷ []) ≡ Some Unfit }
    ensures no_word { tests_end 49 (Ref 1 ∷ Null ∷ Ref 1 ∷ Word 1 ∷ Word 3 ∷ []) ≡ Some Unfit }
{}

/// Copies whose source and target overlap, a fill, and a short. It does nothing.
pub fn bytes_are_written()
    ensures overlapping_up { cells_after 49 (Ref 1 ∷ Word 0 ∷ Ref 1 ∷ Word 1 ∷ Word 3 ∷ [])
        ≡ Some ((Word 1 ∷ Word 1 ∷ Word 2 ∷ Word 3 ∷ []) ∷ the_others) }
    ensures overlapping_down { cells_after 49 (Ref 1 ∷ Word 1 ∷ Ref 1 ∷ Word 0 ∷ Word 3 ∷ [])
        ≡ Some ((Word 2 ∷ Word 3 ∷ Word 4 ∷ Word 4 ∷ []) ∷ the_others) }
    ensures filled { cells_after 51 (Ref 1 ∷ Word 1 ∷ Word 2 ∷ Word 0x0107 ∷ [])
        ≡ Some ((Word 1 ∷ Word 7 ∷ Word 7 ∷ Word 4 ∷ []) ∷ the_others) }
    ensures short { cells_after 54 (Ref 1 ∷ Word 0 ∷ Word 0x0A0B ∷ [])
        ≡ Some ((Word 10 ∷ Word 11 ∷ Word 3 ∷ Word 4 ∷ []) ∷ the_others) }
{}

/// Members are stuck on an argument with another tag, and on a component that is no word: object 4 is an array of
/// references. Then nothing is written. It does nothing.
pub fn members_are_stuck()
    ensures gives { ends_by 49 (Ref 1 ∷ Word 0 ∷ Ref 1 ∷ Word 1 ∷ Word 3 ∷ []) ≡ Some (Gives (Some (Word 4))) }
    ensures throws { ends_by 49 (Ref 1 ∷ Word 0 ∷ Null ∷ Word 1 ∷ Word 3 ∷ []) ≡ Some (ThrowsObject 6) }
    ensures argument { ends_by 49 (Ref 1 ∷ Word 0 ∷ Ref 1 ∷ Ref 1 ∷ Word 3 ∷ []) ≡ Some IsStuck }
    ensures fewer_arguments { ends_by 55 (Word 1 ∷ []) ≡ Some IsStuck }
    ensures component { ends_by 49 (Ref 4 ∷ Word 0 ∷ Ref 1 ∷ Word 0 ∷ Word 2 ∷ []) ≡ Some IsStuck }
    ensures nothing_written { cells_after 49 (Ref 4 ∷ Word 0 ∷ Ref 1 ∷ Word 0 ∷ Word 2 ∷ [])
        ≡ Some ((Word 1 ∷ Word 2 ∷ Word 3 ∷ Word 4 ∷ []) ∷ the_others) }
{}

/// Refusals, in order. It does nothing.
pub fn members_refuse()
    ensures short_aid { work_by nothing_kept 23 (Ref 3 ∷ Ref 1 ∷ Word 0 ∷ Word 4 ∷ [])
        ≡ Some (throws_system nothing_kept 1) }
    ensures no_install { work_by nothing_kept 35 (Ref 3 ∷ Ref 1 ∷ Word 0 ∷ Word 4 ∷ [])
        ≡ Some (throws_system nothing_kept 4) }
    ensures closed { work_by nothing_kept 28 (Ref 3 ∷ []) ≡ Some (throws_apdu nothing_kept 1) }
    ensures length_before_range { work_by (with_command nothing_kept [] 0 false) 32 (Ref 3 ∷ Word 9 ∷ Word 257 ∷ [])
        ≡ Some (throws_apdu (with_command nothing_kept [] 0 false) 3) }
    ensures event_before_length { work_by nothing_kept 46 (Word 0xFFFF ∷ Word 3 ∷ [])
        ≡ Some (throws_system nothing_kept 1) }
    ensures selection_before_length { work_by nothing_kept 46 (Word 0xFFFF ∷ Word 2 ∷ [])
        ≡ Some (throws_system nothing_kept 3) }
    ensures negative_length { work_by nothing_kept 46 (Word 0xFFFF ∷ Word 1 ∷ []) ≡ Some (throws nothing_kept 5) }
{}
