//! Examples of members of Util, which the prover computes from their definitions. Object 24 is the array 1, 255, 128,
//! 127, and object 12 the array 128, 16, 1, 2, 3, 0, 0, 0. Object 25 has 18 bytes, and object 26 is another context's
//! array.

ghost use Rattle.std.specs.Prelude.{◌≡◌, [], ◌∷◌, map, replicate};
ghost use Rattle.jc_members.specs.Results.{Gives, Throws, all_end, all_leave, cells_after, ends};
ghost use Rattle.jc_members.specs.SmallCard.{call, closed};
ghost use Rattle.jc_words.specs.Values.{Null, Ref, Word};

/// arrayCopy and arrayCopyNonAtomic. It does nothing.
pub fn bytes_are_copied()
    ensures end { all_end closed (49 ∷ 50 ∷ []) (Ref 24 ∷ Word 1 ∷ Ref 12 ∷ Word 5 ∷ Word 3 ∷ [])
        ≡ replicate 2 (Gives (Word 8)) }
    ensures copied { all_leave closed (49 ∷ 50 ∷ []) (Ref 24 ∷ Word 1 ∷ Ref 12 ∷ Word 5 ∷ Word 3 ∷ []) 12
        ≡ replicate 2 (map Word (128 ∷ 16 ∷ 1 ∷ 2 ∷ 3 ∷ 255 ∷ 128 ∷ 127 ∷ [])) }
    ensures source_left { all_leave closed (49 ∷ 50 ∷ []) (Ref 24 ∷ Word 1 ∷ Ref 12 ∷ Word 5 ∷ Word 3 ∷ []) 24
        ≡ replicate 2 (map Word (1 ∷ 255 ∷ 128 ∷ 127 ∷ [])) }
    ensures overlapping { cells_after (call closed 50 (Ref 24 ∷ Word 0 ∷ Ref 24 ∷ Word 1 ∷ Word 3 ∷ [])) 24
        ≡ map Word (1 ∷ 1 ∷ 255 ∷ 128 ∷ []) }
    ensures none { all_end closed (49 ∷ 50 ∷ []) (Ref 24 ∷ Word 4 ∷ Ref 12 ∷ Word 8 ∷ Word 0 ∷ [])
        ≡ replicate 2 (Gives (Word 8)) }
{}

/// They throw: for the arrays, and then past their ends. It does nothing.
pub fn copies_are_refused()
    ensures null_source { all_end closed (49 ∷ 50 ∷ []) (Null ∷ Word 0 ∷ Ref 26 ∷ Word 0 ∷ Word 1 ∷ [])
        ≡ replicate 2 (Throws 6 []) }
    ensures null_target { all_end closed (49 ∷ 50 ∷ []) (Ref 24 ∷ Word 9 ∷ Null ∷ Word 0 ∷ Word 1 ∷ [])
        ≡ replicate 2 (Throws 6 []) }
    ensures source_of_another { all_end closed (49 ∷ 50 ∷ []) (Ref 26 ∷ Word 0 ∷ Null ∷ Word 0 ∷ Word 1 ∷ [])
        ≡ replicate 2 (Throws 7 []) }
    ensures target_of_another { all_end closed (49 ∷ 50 ∷ []) (Ref 24 ∷ Word 9 ∷ Ref 26 ∷ Word 0 ∷ Word 1 ∷ [])
        ≡ replicate 2 (Throws 7 []) }
    ensures past_the_source { all_end closed (49 ∷ 50 ∷ []) (Ref 24 ∷ Word 2 ∷ Ref 25 ∷ Word 0 ∷ Word 3 ∷ [])
        ≡ replicate 2 (Throws 4 []) }
    ensures past_the_target { all_end closed (49 ∷ 50 ∷ []) (Ref 25 ∷ Word 0 ∷ Ref 24 ∷ Word 2 ∷ Word 3 ∷ [])
        ≡ replicate 2 (Throws 4 []) }
    ensures negative_offset { all_end closed (49 ∷ 50 ∷ []) (Ref 24 ∷ Word 0xFFFF ∷ Ref 25 ∷ Word 0 ∷ Word 1 ∷ [])
        ≡ replicate 2 (Throws 4 []) }
    ensures other_negative_offset { all_end closed (49 ∷ 50 ∷ []) (Ref 24 ∷ Word 0 ∷ Ref 25 ∷ Word 0xFFFF ∷ Word 1 ∷ [])
        ≡ replicate 2 (Throws 4 []) }
    ensures negative_length { all_end closed (49 ∷ 50 ∷ []) (Ref 24 ∷ Word 0 ∷ Ref 25 ∷ Word 0 ∷ Word 0xFFFF ∷ [])
        ≡ replicate 2 (Throws 4 []) }
    ensures nothing_copied { cells_after (call closed 49 (Ref 25 ∷ Word 0 ∷ Ref 24 ∷ Word 2 ∷ Word 3 ∷ [])) 24
        ≡ map Word (1 ∷ 255 ∷ 128 ∷ 127 ∷ []) }
{}

/// arrayFillNonAtomic writes the low byte. It does nothing.
pub fn bytes_are_filled()
    ensures end { ends (call closed 51 (Ref 24 ∷ Word 1 ∷ Word 3 ∷ Word 0xFF80 ∷ [])) ≡ Gives (Word 4) }
    ensures filled { cells_after (call closed 51 (Ref 24 ∷ Word 1 ∷ Word 3 ∷ Word 0xFF80 ∷ [])) 24
        ≡ map Word (1 ∷ 128 ∷ 128 ∷ 128 ∷ []) }
    ensures none { ends (call closed 51 (Ref 24 ∷ Word 4 ∷ Word 0 ∷ Word 5 ∷ [])) ≡ Gives (Word 4) }
    ensures none_filled { cells_after (call closed 51 (Ref 24 ∷ Word 4 ∷ Word 0 ∷ Word 5 ∷ [])) 24
        ≡ map Word (1 ∷ 255 ∷ 128 ∷ 127 ∷ []) }
{}

/// arrayCompare goes by the first bytes that differ, without sign. It does nothing.
pub fn bytes_are_compared()
    ensures same { ends (call closed 52 (Ref 24 ∷ Word 2 ∷ Ref 12 ∷ Word 0 ∷ Word 1 ∷ [])) ≡ Gives (Word 0) }
    ensures greater { ends (call closed 52 (Ref 24 ∷ Word 1 ∷ Ref 24 ∷ Word 3 ∷ Word 1 ∷ [])) ≡ Gives (Word 1) }
    ensures less { ends (call closed 52 (Ref 24 ∷ Word 3 ∷ Ref 24 ∷ Word 2 ∷ Word 1 ∷ [])) ≡ Gives (Word 65535) }
    ensures second_byte { ends (call closed 52 (Ref 24 ∷ Word 0 ∷ Ref 12 ∷ Word 2 ∷ Word 2 ∷ [])) ≡ Gives (Word 1) }
    ensures first_byte { ends (call closed 52 (Ref 24 ∷ Word 0 ∷ Ref 12 ∷ Word 1 ∷ Word 2 ∷ []))
        ≡ Gives (Word 65535) }
    ensures none { ends (call closed 52 (Ref 24 ∷ Word 4 ∷ Ref 12 ∷ Word 8 ∷ Word 0 ∷ [])) ≡ Gives (Word 0) }
{}

/// arrayFillNonAtomic and arrayCompare throw: for the arrays, and then past their ends. It does nothing.
pub fn fills_and_comparisons_are_refused()
    ensures null_fill { ends (call closed 51 (Null ∷ Word 0 ∷ Word 1 ∷ Word 5 ∷ [])) ≡ Throws 6 [] }
    ensures fill_of_another { ends (call closed 51 (Ref 26 ∷ Word 9 ∷ Word 1 ∷ Word 5 ∷ [])) ≡ Throws 7 [] }
    ensures fill_past_the_end { ends (call closed 51 (Ref 24 ∷ Word 2 ∷ Word 3 ∷ Word 5 ∷ [])) ≡ Throws 4 [] }
    ensures negative_fill { ends (call closed 51 (Ref 24 ∷ Word 2 ∷ Word 0xFFFF ∷ Word 5 ∷ [])) ≡ Throws 4 [] }
    ensures null { ends (call closed 52 (Null ∷ Word 0 ∷ Ref 26 ∷ Word 0 ∷ Word 1 ∷ [])) ≡ Throws 6 [] }
    ensures other_null { ends (call closed 52 (Ref 24 ∷ Word 9 ∷ Null ∷ Word 0 ∷ Word 1 ∷ [])) ≡ Throws 6 [] }
    ensures of_another { ends (call closed 52 (Ref 26 ∷ Word 0 ∷ Null ∷ Word 0 ∷ Word 1 ∷ [])) ≡ Throws 7 [] }
    ensures other_of_another { ends (call closed 52 (Ref 24 ∷ Word 9 ∷ Ref 26 ∷ Word 0 ∷ Word 1 ∷ [])) ≡ Throws 7 [] }
    ensures past_the_end { ends (call closed 52 (Ref 24 ∷ Word 2 ∷ Ref 25 ∷ Word 0 ∷ Word 3 ∷ [])) ≡ Throws 4 [] }
    ensures past_the_other { ends (call closed 52 (Ref 25 ∷ Word 0 ∷ Ref 24 ∷ Word 2 ∷ Word 3 ∷ [])) ≡ Throws 4 [] }
    ensures negative { ends (call closed 52 (Ref 24 ∷ Word 0 ∷ Ref 24 ∷ Word 0 ∷ Word 0xFFFF ∷ [])) ≡ Throws 4 [] }
{}

/// makeShort, getShort and setShort: the high byte comes first. It does nothing.
pub fn shorts_of_two_bytes()
    ensures made { ends (call closed 55 (Word 0x12 ∷ Word 0x34 ∷ [])) ≡ Gives (Word 4660) }
    ensures low_bytes_alone { ends (call closed 55 (Word 0x0180 ∷ Word 0xFFFE ∷ [])) ≡ Gives (Word 33022) }
    ensures read { ends (call closed 53 (Ref 24 ∷ Word 0 ∷ [])) ≡ Gives (Word 511) }
    ensures negative_read { ends (call closed 53 (Ref 24 ∷ Word 2 ∷ [])) ≡ Gives (Word 32895) }
    ensures end { ends (call closed 54 (Ref 24 ∷ Word 2 ∷ Word 0xABCD ∷ [])) ≡ Gives (Word 4) }
    ensures written { cells_after (call closed 54 (Ref 24 ∷ Word 2 ∷ Word 0xABCD ∷ [])) 24
        ≡ map Word (1 ∷ 255 ∷ 171 ∷ 205 ∷ []) }
    ensures read_past_the_end { ends (call closed 53 (Ref 24 ∷ Word 3 ∷ [])) ≡ Throws 4 [] }
    ensures written_past_the_end { ends (call closed 54 (Ref 24 ∷ Word 3 ∷ Word 5 ∷ [])) ≡ Throws 4 [] }
    ensures negative_offset { ends (call closed 53 (Ref 24 ∷ Word 0xFFFF ∷ [])) ≡ Throws 4 [] }
    ensures null_read { ends (call closed 53 (Null ∷ Word 0 ∷ [])) ≡ Throws 6 [] }
    ensures null_written { ends (call closed 54 (Null ∷ Word 9 ∷ Word 5 ∷ [])) ≡ Throws 6 [] }
    ensures read_of_another { ends (call closed 53 (Ref 26 ∷ Word 9 ∷ [])) ≡ Throws 7 [] }
    ensures written_of_another { ends (call closed 54 (Ref 26 ∷ Word 0 ∷ Word 5 ∷ [])) ≡ Throws 7 [] }
{}
