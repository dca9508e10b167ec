//! Examples of members of JCSystem, which the prover computes from their definitions. Objects 14 and 15 are the AIDs of
//! instances 1 and 2, whose applets are objects 17 and 18. Instance 1 of context 1 is active, and was called by
//! instance 2 of context 2. There are 26 objects. Objects 23 and 26 are another context's AID and array.

ghost use Rattle.std.specs.Prelude.{◌≡◌, [], ◌∷◌, None, Some, map, replicate};
ghost use Rattle.jc_api.specs.declared.class.ApiClass.TheVariants.{Object as ObjectClass};
ghost use Rattle.jc_members.specs.Results.{Asks, Gives, Throws, all_end, ends, object_after};
ghost use Rattle.jc_members.specs.SmallCard.{array_makers, call, closed, new_array, owner};
ghost use Rattle.jc_names.specs.declared.name.ClassName.TheVariants.{Api};
ghost use Rattle.jc_store.specs.declared.kind.ClearingEvent.TheVariants.{Deselect, Reset};
ghost use Rattle.jc_store.specs.declared.kind.ObjectType.TheVariants.{BooleanArray, ByteArray, ReferenceArray};
ghost use Rattle.jc_store.specs.declared.kind.ObjectType.TheVariants.{ShortArray};
ghost use Rattle.jc_words.specs.Values.{Null, Ref, Word};

/// getAID of the active instance, and getPreviousContextAID of its caller. It does nothing.
pub fn instances_have_aids()
    ensures own { ends (call closed 41 []) ≡ Gives (Ref 14) }
    ensures of_another { ends (record (call closed 41 []) { active = owner 2 2 }) ≡ Gives (Ref 15) }
    ensures not_registered { ends (record (call closed 41 []) { active = owner 1 3 }) ≡ Gives Null }
    ensures in_another_context { ends (record (call closed 41 []) { active = owner 2 1 }) ≡ Gives Null }
    ensures previous { ends (call closed 43 []) ≡ Gives (Ref 15) }
    ensures previous_of_another { ends (record (call closed 43 []) { active = owner 2 2; previous = Some (owner 1 1) })
        ≡ Gives (Ref 14) }
    ensures no_previous { ends (record (call closed 43 []) { previous = None }) ≡ Gives Null }
    ensures previous_not_registered { ends (record (call closed 43 []) { previous = Some (owner 1 3) }) ≡ Gives Null }
{}

/// lookupAID gives the runtime's AID, or null. It does nothing.
pub fn aids_are_looked_up()
    ensures first { ends (call closed 42 (Ref 25 ∷ Word 0 ∷ Word 5 ∷ [])) ≡ Gives (Ref 14) }
    ensures second { ends (call closed 42 (Ref 25 ∷ Word 5 ∷ Word 0x0105 ∷ [])) ≡ Gives (Ref 15) }
    ensures unknown { ends (call closed 42 (Ref 25 ∷ Word 10 ∷ Word 5 ∷ [])) ≡ Gives Null }
    ensures fewer { ends (call closed 42 (Ref 25 ∷ Word 0 ∷ Word 4 ∷ [])) ≡ Gives Null }
    ensures more { ends (call closed 42 (Ref 25 ∷ Word 0 ∷ Word 6 ∷ [])) ≡ Gives Null }
    ensures past_the_end { ends (call closed 42 (Ref 25 ∷ Word 14 ∷ Word 5 ∷ [])) ≡ Throws 4 [] }
    ensures negative_length { ends (call closed 42 (Ref 25 ∷ Word 0 ∷ Word 0x00FF ∷ [])) ≡ Throws 4 [] }
    ensures negative_offset { ends (call closed 42 (Ref 25 ∷ Word 0xFFFF ∷ Word 5 ∷ [])) ≡ Throws 4 [] }
    ensures null_array { ends (call closed 42 (Null ∷ Word 0 ∷ Word 5 ∷ [])) ≡ Throws 6 [] }
    ensures array_of_another { ends (call closed 42 (Ref 26 ∷ Word 0 ∷ Word 5 ∷ [])) ≡ Throws 7 [] }
{}

/// getAppletShareableInterfaceObject: member 40 of the instance's applet answers, with the asker's AID and the byte. It
/// does nothing.
pub fn shareable_objects_are_asked_for()
    ensures asked { ends (call closed 44 (Ref 15 ∷ Word 5 ∷ [])) ≡ Asks 40 18 (Ref 14 ∷ Word 5 ∷ []) }
    ensures sign_of_byte { ends (call closed 44 (Ref 15 ∷ Word 0x0180 ∷ [])) ≡ Asks 40 18 (Ref 14 ∷ Word 65408 ∷ []) }
    ensures by_itself { ends (call closed 44 (Ref 21 ∷ Word 127 ∷ [])) ≡ Asks 40 17 (Ref 14 ∷ Word 127 ∷ []) }
    ensures by_another { ends (record (call closed 44 (Ref 14 ∷ Word 0 ∷ [])) { active = owner 2 2 })
        ≡ Asks 40 17 (Ref 15 ∷ Word 0 ∷ []) }
    ensures not_registered { ends (record (call closed 44 (Ref 15 ∷ Word 5 ∷ [])) { active = owner 1 3 })
        ≡ Asks 40 18 (Null ∷ Word 5 ∷ []) }
    ensures unknown { ends (call closed 44 (Ref 22 ∷ Word 5 ∷ [])) ≡ Gives Null }
    ensures null_aid { ends (call closed 44 (Null ∷ Word 5 ∷ [])) ≡ Throws 6 [] }
    ensures aid_of_another { ends (call closed 44 (Ref 23 ∷ Word 5 ∷ [])) ≡ Throws 7 [] }
{}

/// Transient arrays: their types, events, owner and components. The least length is 0, and there is room for 10
/// components. It does nothing.
pub fn transient_arrays_are_made()
    ensures number { all_end closed array_makers (Word 2 ∷ Word 1 ∷ []) ≡ replicate 4 (Gives (Ref 27)) }
    ensures booleans { object_after (call closed 45 (Word 2 ∷ Word 1 ∷ [])) 27
        ≡ Some (new_array BooleanArray Reset (Word 0 ∷ Word 0 ∷ [])) }
    ensures bytes { object_after (call closed 46 (Word 3 ∷ Word 2 ∷ [])) 27
        ≡ Some (new_array ByteArray Deselect (Word 0 ∷ Word 0 ∷ Word 0 ∷ [])) }
    ensures shorts { object_after (call closed 47 (Word 1 ∷ Word 0x0101 ∷ [])) 27
        ≡ Some (new_array ShortArray Reset (Word 0 ∷ [])) }
    ensures references { object_after (call closed 48 (Word 2 ∷ Word 0x0202 ∷ [])) 27
        ≡ Some (new_array (ReferenceArray (Api ObjectClass)) Deselect (Null ∷ Null ∷ [])) }
    ensures empty { object_after (call closed 46 (Word 0 ∷ Word 1 ∷ [])) 27 ≡ Some (new_array ByteArray Reset []) }
    ensures most { all_end closed array_makers (Word 10 ∷ Word 1 ∷ []) ≡ replicate 4 (Gives (Ref 27)) }
    ensures on_reset { ends (record (call closed 46 (Word 2 ∷ Word 1 ∷ [])) { selected = None }) ≡ Gives (Ref 27) }
{}

/// Each member that makes an array throws: for the event, then where no applet of the context is selected, then for a
/// negative length, then without room. It does nothing.
pub fn transient_arrays_are_refused()
    ensures event_0 { all_end closed array_makers (Word 2 ∷ Word 0 ∷ []) ≡ replicate 4 (Throws 9 (Word 1 ∷ [])) }
    ensures event_3 { all_end closed array_makers (Word 2 ∷ Word 3 ∷ []) ≡ replicate 4 (Throws 9 (Word 1 ∷ [])) }
    ensures event_with_sign { all_end closed array_makers (Word 2 ∷ Word 0x0181 ∷ [])
        ≡ replicate 4 (Throws 9 (Word 1 ∷ [])) }
    ensures another_is_selected { map (λ number. ends (record (call closed number (Word 2 ∷ Word 2 ∷ []))
        { selected = Some 2 })) array_makers ≡ replicate 4 (Throws 9 (Word 3 ∷ [])) }
    ensures none_is_selected { map (λ number. ends (record (call closed number (Word 2 ∷ Word 2 ∷ []))
        { selected = None })) array_makers ≡ replicate 4 (Throws 9 (Word 3 ∷ [])) }
    ensures negative { all_end closed array_makers (Word 0x8000 ∷ Word 1 ∷ []) ≡ replicate 4 (Throws 5 []) }
    ensures no_room { all_end closed array_makers (Word 11 ∷ Word 1 ∷ []) ≡ replicate 4 (Throws 9 (Word 2 ∷ [])) }
    ensures no_number { ends (record (call closed 46 (Word 0 ∷ Word 1 ∷ []))
        { limits = record { objects = 26; cells = 130; frames = 9; frame_words = 99 } }) ≡ Throws 9 (Word 2 ∷ []) }
    ensures longest { all_end closed array_makers (Word 32767 ∷ Word 2 ∷ []) ≡ replicate 4 (Throws 9 (Word 2 ∷ [])) }
{}
