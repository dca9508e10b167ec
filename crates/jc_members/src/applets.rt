//! Examples of members of Applet, which the prover computes from their definitions. Objects 17, 18 and 19 are the
//! applets of instances 1, 2 and 3; instance 3 is being installed, and object 16 is its AID. Object 25 is an array of
//! 18 bytes, which begins with the AIDs of instances 1 and 2; object 26 is an array of another context.

ghost use Rattle.std.specs.Prelude.{◌≡◌, [], ◌∷◌, Some, map, true};
ghost use Rattle.jc_members.specs.Results.{Gives, GivesNothing, IsStuck, Throws, cells_after, ends, ends_as_declared};
ghost use Rattle.jc_members.specs.Results.{kept_after};
ghost use Rattle.jc_members.specs.SmallCard.{call, closed, first, owner, registered, second, waiting};
ghost use Rattle.jc_words.specs.Values.{Null, Ref, Word};

/// register takes the applet's AID. It throws outside an install, a second time, on another instance's object, and
/// under an AID that an instance has. It does nothing.
pub fn applets_register()
    ensures gives_nothing { ends (call (waiting (160 ∷ 1 ∷ 2 ∷ 3 ∷ 6 ∷ [])) 34 (Ref 19 ∷ [])) ≡ GivesNothing }
    ensures aid { cells_after (call (waiting (160 ∷ 1 ∷ 2 ∷ 3 ∷ 6 ∷ [])) 34 (Ref 19 ∷ [])) 16
        ≡ map Word (5 ∷ 160 ∷ 1 ∷ 2 ∷ 3 ∷ 6 ∷ 0 ∷ []) }
    ensures instances { (kept_after (call (waiting (160 ∷ 1 ∷ 2 ∷ 3 ∷ 6 ∷ [])) 34 (Ref 19 ∷ []))).instances
        ≡ first ∷ second ∷ record { aid = 160 ∷ 1 ∷ 2 ∷ 3 ∷ 6 ∷ []; object = 19; owner = owner 1 3 } ∷ [] }
    ensures installing { (kept_after (call (waiting (160 ∷ 1 ∷ 2 ∷ 3 ∷ 6 ∷ [])) 34 (Ref 19 ∷ []))).installing
        ≡ Some (record { owner = owner 1 3; aid = 160 ∷ 1 ∷ 2 ∷ 3 ∷ 6 ∷ []; registered = true }) }
    ensures outside { ends (call closed 34 (Ref 19 ∷ [])) ≡ Throws 9 (Word 4 ∷ []) }
    ensures again { ends (call registered 34 (Ref 19 ∷ [])) ≡ Throws 9 (Word 4 ∷ []) }
    ensures of_another_instance { ends (call (waiting (160 ∷ 1 ∷ 2 ∷ 3 ∷ 6 ∷ [])) 34 (Ref 17 ∷ []))
        ≡ Throws 9 (Word 4 ∷ []) }
    ensures taken { ends (call (waiting (160 ∷ 1 ∷ 2 ∷ 3 ∷ 5 ∷ [])) 34 (Ref 19 ∷ [])) ≡ Throws 9 (Word 4 ∷ []) }
    ensures left { (kept_after (call (waiting (160 ∷ 1 ∷ 2 ∷ 3 ∷ 5 ∷ [])) 34 (Ref 19 ∷ []))).instances
        ≡ first ∷ second ∷ [] }
{}

/// register takes 5 to 16 bytes of an array, and not the applet's AID. It does nothing.
pub fn applets_register_under_bytes()
    ensures gives_nothing { ends (call (waiting (160 ∷ 1 ∷ 2 ∷ 3 ∷ 5 ∷ [])) 35
        (Ref 19 ∷ Ref 25 ∷ Word 10 ∷ Word 5 ∷ [])) ≡ GivesNothing }
    ensures aid { cells_after (call (waiting (160 ∷ 1 ∷ 2 ∷ 3 ∷ 5 ∷ [])) 35
        (Ref 19 ∷ Ref 25 ∷ Word 10 ∷ Word 0x0106 ∷ [])) 16 ≡ map Word (6 ∷ 160 ∷ 1 ∷ 2 ∷ 3 ∷ 6 ∷ 7 ∷ []) }
    ensures instances { (kept_after (call (waiting (160 ∷ 1 ∷ 2 ∷ 3 ∷ 5 ∷ [])) 35
        (Ref 19 ∷ Ref 25 ∷ Word 10 ∷ Word 5 ∷ []))).instances
        ≡ first ∷ second ∷ record { aid = 160 ∷ 1 ∷ 2 ∷ 3 ∷ 6 ∷ []; object = 19; owner = owner 1 3 } ∷ [] }
    ensures sixteen { ends (call (waiting (160 ∷ 1 ∷ 2 ∷ 3 ∷ 5 ∷ [])) 35
        (Ref 19 ∷ Ref 25 ∷ Word 2 ∷ Word 16 ∷ [])) ≡ GivesNothing }
{}

/// register throws: for the array, then past its end, then outside an install and the like, then for the length, then
/// under an AID that an instance has. It does nothing.
pub fn registering_is_refused()
    ensures four { ends (call (waiting (160 ∷ 1 ∷ 2 ∷ 3 ∷ 6 ∷ [])) 35 (Ref 19 ∷ Ref 25 ∷ Word 0 ∷ Word 4 ∷ []))
        ≡ Throws 9 (Word 1 ∷ []) }
    ensures seventeen { ends (call (waiting (160 ∷ 1 ∷ 2 ∷ 3 ∷ 6 ∷ [])) 35 (Ref 19 ∷ Ref 25 ∷ Word 0 ∷ Word 17 ∷ []))
        ≡ Throws 9 (Word 1 ∷ []) }
    ensures taken { ends (call (waiting (160 ∷ 1 ∷ 2 ∷ 3 ∷ 6 ∷ [])) 35 (Ref 19 ∷ Ref 25 ∷ Word 0 ∷ Word 5 ∷ []))
        ≡ Throws 9 (Word 4 ∷ []) }
    ensures outside { ends (call closed 35 (Ref 19 ∷ Ref 25 ∷ Word 10 ∷ Word 5 ∷ [])) ≡ Throws 9 (Word 4 ∷ []) }
    ensures again { ends (call registered 35 (Ref 19 ∷ Ref 25 ∷ Word 10 ∷ Word 6 ∷ [])) ≡ Throws 9 (Word 4 ∷ []) }
    ensures of_another_instance { ends (call (waiting (160 ∷ 1 ∷ 2 ∷ 3 ∷ 6 ∷ [])) 35
        (Ref 17 ∷ Ref 25 ∷ Word 10 ∷ Word 5 ∷ [])) ≡ Throws 9 (Word 4 ∷ []) }
    ensures again_before_length { ends (call registered 35 (Ref 19 ∷ Ref 25 ∷ Word 0 ∷ Word 4 ∷ []))
        ≡ Throws 9 (Word 4 ∷ []) }
    ensures past_before_outside { ends (call closed 35 (Ref 19 ∷ Ref 25 ∷ Word 14 ∷ Word 5 ∷ [])) ≡ Throws 4 [] }
    ensures past_before_length { ends (call (waiting (160 ∷ 1 ∷ 2 ∷ 3 ∷ 6 ∷ [])) 35
        (Ref 19 ∷ Ref 25 ∷ Word 15 ∷ Word 4 ∷ [])) ≡ Throws 4 [] }
    ensures negative_length { ends (call (waiting (160 ∷ 1 ∷ 2 ∷ 3 ∷ 6 ∷ [])) 35
        (Ref 19 ∷ Ref 25 ∷ Word 0 ∷ Word 0x00FF ∷ [])) ≡ Throws 4 [] }
    ensures null_array { ends (call closed 35 (Ref 19 ∷ Null ∷ Word 0 ∷ Word 4 ∷ [])) ≡ Throws 6 [] }
    ensures array_of_another { ends (call closed 35 (Ref 19 ∷ Ref 26 ∷ Word 0 ∷ Word 4 ∷ [])) ≡ Throws 7 [] }
{}

/// Members that applets override, and selectingApplet. It does nothing.
pub fn applets_answer()
    ensures select { ends (call closed 36 (Ref 17 ∷ [])) ≡ Gives (Word 1) }
    ensures deselect { ends (call closed 37 (Ref 17 ∷ [])) ≡ GivesNothing }
    ensures selecting { ends (call (record closed { selecting = true }) 39 (Ref 17 ∷ [])) ≡ Gives (Word 1) }
    ensures not_selecting { ends (call closed 39 (Ref 17 ∷ [])) ≡ Gives (Word 0) }
    ensures shareable { ends (call closed 40 (Ref 17 ∷ Ref 15 ∷ Word 0 ∷ [])) ≡ Gives Null }
    ensures shareable_untested { ends (call closed 40 (Ref 17 ∷ Ref 23 ∷ Word 0 ∷ [])) ≡ Gives Null }
{}

/// process is abstract, so a call is stuck, as one on an object of another class. It does nothing.
pub fn process_is_abstract()
    ensures process { ends_as_declared (call closed 38 (Ref 17 ∷ Ref 11 ∷ [])) ≡ IsStuck }
    ensures deselect { ends_as_declared (call closed 37 (Ref 17 ∷ [])) ≡ GivesNothing }
    ensures of_no_applet { ends_as_declared (call closed 37 (Ref 24 ∷ [])) ≡ IsStuck }
{}
