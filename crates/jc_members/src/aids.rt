//! Examples of members of AID, which the prover computes from their definitions. Objects 21 and 22 are own AIDs, 14 and
//! 15 are the runtime's, and 23 is another context's. Object 25 is an array of 18 bytes, 24 one of four, 12 the APDU
//! buffer, and 26 an array of another context.

ghost use Rattle.std.specs.Prelude.{◌≡◌, [], ◌∷◌, map};
ghost use Rattle.jc_members.specs.Results.{Gives, GivesNothing, Throws, cells_after, ends};
ghost use Rattle.jc_members.specs.SmallCard.{call, closed};
ghost use Rattle.jc_words.specs.Values.{Null, Ref, Word};

/// The constructor keeps the number of bytes, and 5 to 16 bytes of an array. It does nothing.
pub fn aids_are_kept()
    ensures gives_nothing { ends (call closed 23 (Ref 21 ∷ Ref 25 ∷ Word 5 ∷ Word 5 ∷ [])) ≡ GivesNothing }
    ensures five { cells_after (call closed 23 (Ref 21 ∷ Ref 25 ∷ Word 5 ∷ Word 5 ∷ [])) 21
        ≡ map Word (5 ∷ 160 ∷ 1 ∷ 2 ∷ 3 ∷ 5 ∷ 0 ∷ []) }
    ensures sixteen { cells_after (call closed 23 (Ref 22 ∷ Ref 25 ∷ Word 0 ∷ Word 16 ∷ [])) 22
        ≡ map Word (16 ∷ 160 ∷ 1 ∷ 2 ∷ 3 ∷ 4 ∷ 160 ∷ 1 ∷ 2 ∷ 3 ∷ 5 ∷ 160 ∷ 1 ∷ 2 ∷ 3 ∷ 6 ∷ 7 ∷ []) }
    ensures low_byte_of_length { cells_after (call closed 23 (Ref 21 ∷ Ref 12 ∷ Word 0 ∷ Word 0x0105 ∷ [])) 21
        ≡ map Word (5 ∷ 128 ∷ 16 ∷ 1 ∷ 2 ∷ 3 ∷ 0 ∷ []) }
{}

/// The constructor throws, and keeps nothing. It does nothing.
pub fn aids_are_refused()
    ensures four { ends (call closed 23 (Ref 21 ∷ Ref 25 ∷ Word 0 ∷ Word 4 ∷ [])) ≡ Throws 9 (Word 1 ∷ []) }
    ensures seventeen { ends (call closed 23 (Ref 22 ∷ Ref 25 ∷ Word 0 ∷ Word 17 ∷ [])) ≡ Throws 9 (Word 1 ∷ []) }
    ensures none { ends (call closed 23 (Ref 21 ∷ Ref 25 ∷ Word 0 ∷ Word 0x0100 ∷ [])) ≡ Throws 9 (Word 1 ∷ []) }
    ensures left { cells_after (call closed 23 (Ref 22 ∷ Ref 25 ∷ Word 5 ∷ Word 4 ∷ [])) 22
        ≡ map Word (6 ∷ 160 ∷ 1 ∷ 2 ∷ 3 ∷ 4 ∷ 5 ∷ 0 ∷ 0 ∷ 0 ∷ 0 ∷ 0 ∷ 0 ∷ 0 ∷ 0 ∷ 0 ∷ 0 ∷ []) }
    ensures past_the_end { ends (call closed 23 (Ref 21 ∷ Ref 25 ∷ Word 14 ∷ Word 5 ∷ [])) ≡ Throws 4 [] }
    ensures range_before_length { ends (call closed 23 (Ref 21 ∷ Ref 25 ∷ Word 18 ∷ Word 4 ∷ [])) ≡ Throws 4 [] }
    ensures negative_length { ends (call closed 23 (Ref 21 ∷ Ref 25 ∷ Word 0 ∷ Word 0x00FF ∷ [])) ≡ Throws 4 [] }
    ensures negative_offset { ends (call closed 23 (Ref 21 ∷ Ref 25 ∷ Word 0xFFFF ∷ Word 6 ∷ [])) ≡ Throws 4 [] }
    ensures null_array { ends (call closed 23 (Ref 21 ∷ Null ∷ Word 0 ∷ Word 4 ∷ [])) ≡ Throws 6 [] }
    ensures array_of_another { ends (call closed 23 (Ref 21 ∷ Ref 26 ∷ Word 0 ∷ Word 5 ∷ [])) ≡ Throws 7 [] }
    ensures null { ends (call closed 23 (Null ∷ Ref 26 ∷ Word 0 ∷ Word 5 ∷ [])) ≡ Throws 6 [] }
    ensures aid_of_another { ends (call closed 23 (Ref 23 ∷ Null ∷ Word 0 ∷ Word 5 ∷ [])) ≡ Throws 7 [] }
    ensures aid_of_the_runtime { ends (call closed 23 (Ref 14 ∷ Ref 25 ∷ Word 0 ∷ Word 5 ∷ [])) ≡ Throws 7 [] }
{}

/// equals: an AID and a range of an array. It does nothing.
pub fn aids_are_compared()
    ensures same { ends (call closed 24 (Ref 21 ∷ Ref 25 ∷ Word 0 ∷ Word 5 ∷ [])) ≡ Gives (Word 1) }
    ensures of_the_runtime { ends (call closed 24 (Ref 15 ∷ Ref 25 ∷ Word 5 ∷ Word 5 ∷ [])) ≡ Gives (Word 1) }
    ensures low_byte_of_length { ends (call closed 24 (Ref 21 ∷ Ref 25 ∷ Word 0 ∷ Word 0x0105 ∷ [])) ≡ Gives (Word 1) }
    ensures others { ends (call closed 24 (Ref 21 ∷ Ref 25 ∷ Word 5 ∷ Word 5 ∷ [])) ≡ Gives (Word 0) }
    ensures fewer { ends (call closed 24 (Ref 21 ∷ Ref 25 ∷ Word 0 ∷ Word 4 ∷ [])) ≡ Gives (Word 0) }
    ensures more { ends (call closed 24 (Ref 21 ∷ Ref 25 ∷ Word 0 ∷ Word 6 ∷ [])) ≡ Gives (Word 0) }
    ensures null_array { ends (call closed 24 (Ref 21 ∷ Null ∷ Word 0 ∷ Word 5 ∷ [])) ≡ Gives (Word 0) }
    ensures past_the_end { ends (call closed 24 (Ref 21 ∷ Ref 25 ∷ Word 14 ∷ Word 5 ∷ [])) ≡ Throws 4 [] }
    ensures negative_length { ends (call closed 24 (Ref 21 ∷ Ref 25 ∷ Word 0 ∷ Word 0x0080 ∷ [])) ≡ Throws 4 [] }
    ensures negative_offset { ends (call closed 24 (Ref 21 ∷ Ref 25 ∷ Word 0x8000 ∷ Word 5 ∷ [])) ≡ Throws 4 [] }
    ensures array_of_another { ends (call closed 24 (Ref 21 ∷ Ref 26 ∷ Word 0 ∷ Word 5 ∷ [])) ≡ Throws 7 [] }
{}

/// getBytes writes the bytes from an offset on, and gives their number. It does nothing.
pub fn aid_bytes_are_given()
    ensures number { ends (call closed 25 (Ref 14 ∷ Ref 25 ∷ Word 13 ∷ [])) ≡ Gives (Word 5) }
    ensures written { cells_after (call closed 25 (Ref 14 ∷ Ref 25 ∷ Word 13 ∷ [])) 25
        ≡ map Word (160 ∷ 1 ∷ 2 ∷ 3 ∷ 4 ∷ 160 ∷ 1 ∷ 2 ∷ 3 ∷ 5 ∷ 160 ∷ 1 ∷ 2 ∷ 160 ∷ 1 ∷ 2 ∷ 3 ∷ 4 ∷ []) }
    ensures six { ends (call closed 25 (Ref 22 ∷ Ref 25 ∷ Word 0 ∷ [])) ≡ Gives (Word 6) }
    ensures to_the_buffer { cells_after (call closed 25 (Ref 15 ∷ Ref 12 ∷ Word 2 ∷ [])) 12
        ≡ map Word (128 ∷ 16 ∷ 160 ∷ 1 ∷ 2 ∷ 3 ∷ 5 ∷ 0 ∷ []) }
    ensures past_the_end { ends (call closed 25 (Ref 14 ∷ Ref 25 ∷ Word 14 ∷ [])) ≡ Throws 4 [] }
    ensures too_short { ends (call closed 25 (Ref 14 ∷ Ref 24 ∷ Word 0 ∷ [])) ≡ Throws 4 [] }
    ensures negative_offset { ends (call closed 25 (Ref 14 ∷ Ref 25 ∷ Word 0xFFFF ∷ [])) ≡ Throws 4 [] }
    ensures null_array { ends (call closed 25 (Ref 14 ∷ Null ∷ Word 0 ∷ [])) ≡ Throws 6 [] }
    ensures array_of_another { ends (call closed 25 (Ref 14 ∷ Ref 26 ∷ Word 0 ∷ [])) ≡ Throws 7 [] }
{}
