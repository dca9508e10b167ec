//! Examples of members of Object and of exceptions, which the prover computes from their definitions. The objects and
//! their numbers stand in `specs/SmallCard.antt`. Object 18 is of another context.

ghost use Rattle.std.specs.Prelude.{◌≡◌, [], ◌∷◌, replicate};
ghost use Rattle.jc_members.specs.Results.{Gives, GivesNothing, Throws, all_end, all_leave, cells_after, ends};
ghost use Rattle.jc_members.specs.SmallCard.{bare_constructors, call, closed, reason_constructors, virtual_members};
ghost use Rattle.jc_words.specs.Values.{Null, Ref, Word};

/// Each constructor without a reason leaves an own object as it is. Null throws NullPointerException, an object of
/// another context or of the runtime SecurityException. It does nothing.
pub fn constructors_set_nothing()
    ensures own { all_end closed bare_constructors (Ref 20 ∷ []) ≡ replicate 13 GivesNothing }
    ensures left { all_leave closed bare_constructors (Ref 20 ∷ []) 20 ≡ replicate 13 (Word 4660 ∷ []) }
    ensures null { all_end closed bare_constructors (Null ∷ []) ≡ replicate 13 (Throws 6 []) }
    ensures of_another { all_end closed bare_constructors (Ref 18 ∷ []) ≡ replicate 13 (Throws 7 []) }
    ensures of_the_runtime { all_end closed bare_constructors (Ref 8 ∷ []) ≡ replicate 13 (Throws 7 []) }
{}

/// Each constructor with a reason sets it, under the same tests. It does nothing.
pub fn constructors_set_the_reason()
    ensures own { all_end closed reason_constructors (Ref 20 ∷ Word 0x6A80 ∷ []) ≡ replicate 4 GivesNothing }
    ensures set { all_leave closed reason_constructors (Ref 20 ∷ Word 0x6A80 ∷ []) 20
        ≡ replicate 4 (Word 27264 ∷ []) }
    ensures null { all_end closed reason_constructors (Null ∷ Word 1 ∷ []) ≡ replicate 4 (Throws 6 []) }
    ensures of_another { all_end closed reason_constructors (Ref 18 ∷ Word 1 ∷ []) ≡ replicate 4 (Throws 7 []) }
    ensures of_the_runtime { all_end closed reason_constructors (Ref 8 ∷ Word 1 ∷ []) ≡ replicate 4 (Throws 7 []) }
{}

/// The reason of an exception, which is an own one or the runtime's. It does nothing.
pub fn reasons_are_given_and_set()
    ensures given { ends (call closed 15 (Ref 20 ∷ [])) ≡ Gives (Word 4660) }
    ensures given_of_the_runtime { ends (call closed 15 (Ref 8 ∷ [])) ≡ Gives (Word 0) }
    ensures set { cells_after (call closed 16 (Ref 20 ∷ Word 0xFFFE ∷ [])) 20 ≡ Word 65534 ∷ [] }
    ensures gives_nothing { ends (call closed 16 (Ref 20 ∷ Word 0xFFFE ∷ [])) ≡ GivesNothing }
    ensures set_of_the_runtime { cells_after (call closed 16 (Ref 9 ∷ Word 5 ∷ [])) 9 ≡ Word 5 ∷ [] }
{}

/// throwIt sets the reason of the runtime's exception of the class, and of no other. It does nothing.
pub fn exceptions_are_thrown()
    ensures iso { ends (call closed 18 (Word 0x6F00 ∷ [])) ≡ Throws 8 (Word 28416 ∷ []) }
    ensures system { ends (call closed 20 (Word 6 ∷ [])) ≡ Throws 9 (Word 6 ∷ []) }
    ensures apdu { ends (call closed 22 (Word 0xFFFF ∷ [])) ≡ Throws 10 (Word 65535 ∷ []) }
    ensures no_other { cells_after (call closed 18 (Word 0x6F00 ∷ [])) 9 ≡ Word 0 ∷ [] }
{}

/// equals: an object and itself, and AIDs of the same bytes. The argument is tested beside an AID, if it is an AID too.
/// It does nothing.
#[tactic(auto, unfolding(jc_classes::specs::Walk::most_classes))]
pub fn objects_are_compared()
    ensures same { ends (call closed 2 (Ref 17 ∷ Ref 17 ∷ [])) ≡ Gives (Word 1) }
    ensures another { ends (call closed 2 (Ref 17 ∷ Ref 20 ∷ [])) ≡ Gives (Word 0) }
    ensures null { ends (call closed 2 (Ref 17 ∷ Null ∷ [])) ≡ Gives (Word 0) }
    ensures same_bytes { ends (call closed 2 (Ref 14 ∷ Ref 21 ∷ [])) ≡ Gives (Word 1) }
    ensures other_bytes { ends (call closed 2 (Ref 21 ∷ Ref 15 ∷ [])) ≡ Gives (Word 0) }
    ensures more_bytes { ends (call closed 2 (Ref 21 ∷ Ref 22 ∷ [])) ≡ Gives (Word 0) }
    ensures aid_and_null { ends (call closed 2 (Ref 21 ∷ Null ∷ [])) ≡ Gives (Word 0) }
    ensures aid_and_array { ends (call closed 2 (Ref 21 ∷ Ref 26 ∷ [])) ≡ Gives (Word 0) }
    ensures aid_of_another { ends (call closed 2 (Ref 21 ∷ Ref 23 ∷ [])) ≡ Throws 7 [] }
    ensures untested { ends (call closed 2 (Ref 17 ∷ Ref 23 ∷ [])) ≡ Gives (Word 0) }
{}

/// Each member that is called on an object throws on null, and on an object of another context. It does nothing.
pub fn objects_of_members_are_tested()
    ensures null { all_end closed virtual_members (Null ∷ []) ≡ replicate 18 (Throws 6 []) }
    ensures of_another { all_end closed virtual_members (Ref 18 ∷ []) ≡ replicate 18 (Throws 7 []) }
{}
