//! The laws of words of 16 bits.

ghost use Rattle.jc_words.specs.Laws.{WordLaws};

/// The result of an operator on words is a word, below 65536. The offset that a switch takes is one that it names. It
/// does nothing.
#[inline(always)]
pub fn word_laws()
    ensures { WordLaws }
{}
