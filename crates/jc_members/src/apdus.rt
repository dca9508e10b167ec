//! Examples of members of APDU, which the prover computes from their definitions. Object 11 is the APDU, and 12 its
//! buffer of eight bytes: 128, 16, 1, 2, 3, 0, 0, 0. The data of a command are 7, 8, 255. Object 24 is the array 1,
//! 255, 128, 127; object 26 is an array of another context.

ghost use Rattle.std.specs.Prelude.{◌≡◌, [], ◌∷◌, map};
ghost use Rattle.jc_members.specs.Results.{Gives, GivesNothing, Throws, cells_after, ends, kept_after};
ghost use Rattle.jc_members.specs.SmallCard.{call, closed, in_state, sending};
ghost use Rattle.jc_natives.specs.declared.kept.ApduState.TheVariants.{Fresh, LengthSet, Outgoing, Received};
ghost use Rattle.jc_words.specs.Values.{Null, Ref, Word};

/// getBuffer, in any state. It does nothing.
pub fn the_buffer_is_given()
    ensures when_closed { ends (call closed 26 (Ref 11 ∷ [])) ≡ Gives (Ref 12) }
    ensures when_fresh { ends (call (in_state Fresh) 26 (Ref 11 ∷ [])) ≡ Gives (Ref 12) }
    ensures when_length_is_set { ends (call (in_state LengthSet) 26 (Ref 11 ∷ [])) ≡ Gives (Ref 12) }
    ensures of_an_own_object { ends (call closed 26 (Ref 17 ∷ [])) ≡ Gives (Ref 12) }
{}

/// setIncomingAndReceive puts the data behind the header. It does nothing.
pub fn data_are_received()
    ensures number { ends (call (in_state Fresh) 27 (Ref 11 ∷ [])) ≡ Gives (Word 3) }
    ensures data { cells_after (call (in_state Fresh) 27 (Ref 11 ∷ [])) 12
        ≡ map Word (128 ∷ 16 ∷ 1 ∷ 2 ∷ 3 ∷ 7 ∷ 8 ∷ 255 ∷ []) }
    ensures state { (kept_after (call (in_state Fresh) 27 (Ref 11 ∷ []))).state ≡ Received }
    ensures no_data { ends (call (record (in_state Fresh) { incoming = [] }) 27 (Ref 11 ∷ [])) ≡ Gives (Word 0) }
    ensures when_closed { ends (call closed 27 (Ref 11 ∷ [])) ≡ Throws 10 (Word 1 ∷ []) }
    ensures again { ends (call (in_state Received) 27 (Ref 11 ∷ [])) ≡ Throws 10 (Word 1 ∷ []) }
    ensures when_outgoing { ends (call (in_state Outgoing) 27 (Ref 11 ∷ [])) ≡ Throws 10 (Word 1 ∷ []) }
    ensures when_length_is_set { ends (call (in_state LengthSet) 27 (Ref 11 ∷ [])) ≡ Throws 10 (Word 1 ∷ []) }
    ensures state_left { (kept_after (call (in_state Outgoing) 27 (Ref 11 ∷ []))).state ≡ Outgoing }
    ensures buffer_left { cells_after (call (in_state Outgoing) 27 (Ref 11 ∷ [])) 12
        ≡ map Word (128 ∷ 16 ∷ 1 ∷ 2 ∷ 3 ∷ 0 ∷ 0 ∷ 0 ∷ []) }
{}

/// setOutgoing gives Le, or 256 for none. It does nothing.
pub fn the_direction_is_turned()
    ensures when_fresh { ends (call (in_state Fresh) 28 (Ref 11 ∷ [])) ≡ Gives (Word 256) }
    ensures when_received { ends (call (in_state Received) 28 (Ref 11 ∷ [])) ≡ Gives (Word 256) }
    ensures le { ends (call (record (in_state Fresh) { expected = 255 }) 28 (Ref 11 ∷ [])) ≡ Gives (Word 255) }
    ensures state { (kept_after (call (in_state Received) 28 (Ref 11 ∷ []))).state ≡ Outgoing }
    ensures when_closed { ends (call closed 28 (Ref 11 ∷ [])) ≡ Throws 10 (Word 1 ∷ []) }
    ensures again { ends (call (in_state Outgoing) 28 (Ref 11 ∷ [])) ≡ Throws 10 (Word 1 ∷ []) }
    ensures when_length_is_set { ends (call (in_state LengthSet) 28 (Ref 11 ∷ [])) ≡ Throws 10 (Word 1 ∷ []) }
{}

/// setOutgoingLength takes 0 to 256, whatever Le is. It does nothing.
pub fn the_length_is_announced()
    ensures gives_nothing { ends (call (in_state Outgoing) 29 (Ref 11 ∷ Word 256 ∷ [])) ≡ GivesNothing }
    ensures announced { (kept_after (call (in_state Outgoing) 29 (Ref 11 ∷ Word 256 ∷ []))).announced ≡ 256 }
    ensures state { (kept_after (call (in_state Outgoing) 29 (Ref 11 ∷ Word 256 ∷ []))).state ≡ LengthSet }
    ensures zero { ends (call (in_state Outgoing) 29 (Ref 11 ∷ Word 0 ∷ [])) ≡ GivesNothing }
    ensures more_than_le { ends (call (record (in_state Outgoing) { expected = 2 }) 29 (Ref 11 ∷ Word 3 ∷ []))
        ≡ GivesNothing }
    ensures too_long { ends (call (in_state Outgoing) 29 (Ref 11 ∷ Word 257 ∷ [])) ≡ Throws 10 (Word 3 ∷ []) }
    ensures negative { ends (call (in_state Outgoing) 29 (Ref 11 ∷ Word 0xFFFF ∷ [])) ≡ Throws 10 (Word 3 ∷ []) }
    ensures when_closed { ends (call closed 29 (Ref 11 ∷ Word 3 ∷ [])) ≡ Throws 10 (Word 1 ∷ []) }
    ensures when_fresh { ends (call (in_state Fresh) 29 (Ref 11 ∷ Word 3 ∷ [])) ≡ Throws 10 (Word 1 ∷ []) }
    ensures when_received { ends (call (in_state Received) 29 (Ref 11 ∷ Word 3 ∷ [])) ≡ Throws 10 (Word 1 ∷ []) }
    ensures again { ends (call (in_state LengthSet) 29 (Ref 11 ∷ Word 3 ∷ [])) ≡ Throws 10 (Word 1 ∷ []) }
    ensures state_before_length { ends (call (in_state Fresh) 29 (Ref 11 ∷ Word 257 ∷ [])) ≡ Throws 10 (Word 1 ∷ []) }
{}

/// sendBytes sends a range of the buffer behind what was sent. It does nothing.
pub fn bytes_of_the_buffer_are_sent()
    ensures gives_nothing { ends (call (sending []) 30 (Ref 11 ∷ Word 0 ∷ Word 3 ∷ [])) ≡ GivesNothing }
    ensures sent { (kept_after (call (sending []) 30 (Ref 11 ∷ Word 0 ∷ Word 3 ∷ []))).sent ≡ 128 ∷ 16 ∷ 1 ∷ [] }
    ensures behind { (kept_after (call (sending (9 ∷ [])) 30 (Ref 11 ∷ Word 3 ∷ Word 2 ∷ []))).sent
        ≡ 9 ∷ 2 ∷ 3 ∷ [] }
    ensures at_the_end { (kept_after (call (sending []) 30 (Ref 11 ∷ Word 7 ∷ Word 1 ∷ []))).sent ≡ 0 ∷ [] }
    ensures state { (kept_after (call (sending []) 30 (Ref 11 ∷ Word 0 ∷ Word 3 ∷ []))).state ≡ LengthSet }
{}

/// sendBytes throws: in another state, then past the buffer, then for more than was announced. It does nothing.
pub fn sending_is_refused()
    ensures too_many { ends (call (sending (9 ∷ [])) 30 (Ref 11 ∷ Word 0 ∷ Word 3 ∷ [])) ≡ Throws 10 (Word 1 ∷ []) }
    ensures past_the_end { ends (call (sending []) 30 (Ref 11 ∷ Word 6 ∷ Word 3 ∷ [])) ≡ Throws 10 (Word 2 ∷ []) }
    ensures negative_offset { ends (call (sending []) 30 (Ref 11 ∷ Word 0xFFFF ∷ Word 1 ∷ []))
        ≡ Throws 10 (Word 2 ∷ []) }
    ensures negative_length { ends (call (sending []) 30 (Ref 11 ∷ Word 1 ∷ Word 0xFFFF ∷ []))
        ≡ Throws 10 (Word 2 ∷ []) }
    ensures past_before_too_many { ends (call (sending []) 30 (Ref 11 ∷ Word 0 ∷ Word 9 ∷ []))
        ≡ Throws 10 (Word 2 ∷ []) }
    ensures state_before_past { ends (call (in_state Outgoing) 30 (Ref 11 ∷ Word 6 ∷ Word 3 ∷ []))
        ≡ Throws 10 (Word 1 ∷ []) }
    ensures when_closed { ends (call closed 30 (Ref 11 ∷ Word 0 ∷ Word 0 ∷ [])) ≡ Throws 10 (Word 1 ∷ []) }
    ensures when_fresh { ends (call (in_state Fresh) 30 (Ref 11 ∷ Word 0 ∷ Word 0 ∷ [])) ≡ Throws 10 (Word 1 ∷ []) }
    ensures nothing_sent { (kept_after (call (sending (9 ∷ [])) 30 (Ref 11 ∷ Word 0 ∷ Word 3 ∷ []))).sent ≡ 9 ∷ [] }
{}

/// sendBytesLong sends a range of an array. It throws for the array, then past its end, then in another state, then for
/// more than was announced. It does nothing.
pub fn bytes_of_an_array_are_sent()
    ensures gives_nothing { ends (call (sending []) 31 (Ref 11 ∷ Ref 24 ∷ Word 1 ∷ Word 3 ∷ [])) ≡ GivesNothing }
    ensures sent { (kept_after (call (sending []) 31 (Ref 11 ∷ Ref 24 ∷ Word 1 ∷ Word 3 ∷ []))).sent
        ≡ 255 ∷ 128 ∷ 127 ∷ [] }
    ensures behind { (kept_after (call (sending (9 ∷ [])) 31 (Ref 11 ∷ Ref 12 ∷ Word 1 ∷ Word 2 ∷ []))).sent
        ≡ 9 ∷ 16 ∷ 1 ∷ [] }
    ensures too_many { ends (call (sending []) 31 (Ref 11 ∷ Ref 24 ∷ Word 0 ∷ Word 4 ∷ []))
        ≡ Throws 10 (Word 1 ∷ []) }
    ensures when_closed { ends (call closed 31 (Ref 11 ∷ Ref 24 ∷ Word 0 ∷ Word 0 ∷ [])) ≡ Throws 10 (Word 1 ∷ []) }
    ensures when_outgoing { ends (call (in_state Outgoing) 31 (Ref 11 ∷ Ref 24 ∷ Word 0 ∷ Word 0 ∷ []))
        ≡ Throws 10 (Word 1 ∷ []) }
    ensures past_before_state { ends (call closed 31 (Ref 11 ∷ Ref 24 ∷ Word 3 ∷ Word 2 ∷ [])) ≡ Throws 4 [] }
    ensures past_before_too_many { ends (call (sending []) 31 (Ref 11 ∷ Ref 24 ∷ Word 0 ∷ Word 5 ∷ []))
        ≡ Throws 4 [] }
    ensures both_bytes_of_length { ends (call (sending []) 31 (Ref 11 ∷ Ref 24 ∷ Word 0 ∷ Word 0x0101 ∷ []))
        ≡ Throws 4 [] }
    ensures negative_offset { ends (call (sending []) 31 (Ref 11 ∷ Ref 24 ∷ Word 0xFFFF ∷ Word 1 ∷ []))
        ≡ Throws 4 [] }
    ensures null_array { ends (call (sending []) 31 (Ref 11 ∷ Null ∷ Word 0 ∷ Word 1 ∷ [])) ≡ Throws 6 [] }
    ensures array_of_another { ends (call (sending []) 31 (Ref 11 ∷ Ref 26 ∷ Word 0 ∷ Word 1 ∷ [])) ≡ Throws 7 [] }
{}

/// setOutgoingAndSend: the whole answer. It throws in another state, then for the length, then past the buffer. It does
/// nothing.
pub fn answers_are_sent_at_once()
    ensures gives_nothing { ends (call (in_state Fresh) 32 (Ref 11 ∷ Word 1 ∷ Word 2 ∷ [])) ≡ GivesNothing }
    ensures sent { (kept_after (call (in_state Received) 32 (Ref 11 ∷ Word 1 ∷ Word 2 ∷ []))).sent ≡ 16 ∷ 1 ∷ [] }
    ensures announced { (kept_after (call (in_state Fresh) 32 (Ref 11 ∷ Word 1 ∷ Word 2 ∷ []))).announced ≡ 2 }
    ensures state { (kept_after (call (in_state Fresh) 32 (Ref 11 ∷ Word 1 ∷ Word 2 ∷ []))).state ≡ LengthSet }
    ensures past_the_end { ends (call (in_state Fresh) 32 (Ref 11 ∷ Word 6 ∷ Word 3 ∷ [])) ≡ Throws 10 (Word 2 ∷ []) }
    ensures negative_offset { ends (call (in_state Fresh) 32 (Ref 11 ∷ Word 0xFFFF ∷ Word 1 ∷ []))
        ≡ Throws 10 (Word 2 ∷ []) }
    ensures most { ends (call (in_state Fresh) 32 (Ref 11 ∷ Word 0 ∷ Word 256 ∷ [])) ≡ Throws 10 (Word 2 ∷ []) }
    ensures negative_length { ends (call (in_state Fresh) 32 (Ref 11 ∷ Word 0 ∷ Word 0xFFFF ∷ []))
        ≡ Throws 10 (Word 3 ∷ []) }
    ensures state_before_length { ends (call (in_state Outgoing) 32 (Ref 11 ∷ Word 0 ∷ Word 257 ∷ []))
        ≡ Throws 10 (Word 1 ∷ []) }
    ensures when_closed { ends (call closed 32 (Ref 11 ∷ Word 0 ∷ Word 1 ∷ [])) ≡ Throws 10 (Word 1 ∷ []) }
    ensures when_length_is_set { ends (call (in_state LengthSet) 32 (Ref 11 ∷ Word 0 ∷ Word 1 ∷ []))
        ≡ Throws 10 (Word 1 ∷ []) }
    ensures state_left { (kept_after (call (in_state Fresh) 32 (Ref 11 ∷ Word 6 ∷ Word 3 ∷ []))).state ≡ Fresh }
{}
