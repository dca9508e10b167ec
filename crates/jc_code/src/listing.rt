//! The laws of code as a list of instructions.

ghost use Rattle.jc_code.specs.Instructions.{instr_at, word_instr_at};
ghost use Rattle.jc_code.specs.Listing.{ListingLaws};

/// Laws of every code. An instruction ends after its pc and within the code. Either the code is a list of instructions,
/// and of only one, or decoding stops in it, at one pc with one fault. A constant that is pushed is a short. This holds
/// for all instructions, and for those on words alone. It does nothing.
#[inline(always)]
pub fn listing_laws()
    ensures all { ListingLaws instr_at }
    ensures words { ListingLaws word_instr_at }
{}
