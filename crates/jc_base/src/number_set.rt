//! Sets of numbers.

ghost use Rattle.std.specs.Prelude.{◌≡◌, ℕ, false, ◌==◌, ◌||◌};
ghost use Rattle.jc_base.specs.NumberSet.{has_number};

use std::marker::Model;

/// How many numbers a word covers.
const WORD_BITS: u16 = 64;

/// A set of numbers of two bytes. It takes 8 KiB and no other memory.
#[derive(Drop)]
pub struct NumberSet {
    words: [u64; 1024],
}

impl Model for NumberSet {
    ghost use Rattle.std.specs.Prelude.{ℕ, List};

    ghost Value = { List ℕ };

    ghost view = { λ s. s.words };
}

impl NumberSet {
    /// The empty set.
    pub fn empty() -> NumberSet
        ensures { (n : ℕ) → has_number result n ≡ false }
    {
        NumberSet { words: [0; 1024] }
    }

    /// Whether a number is in the set.
    pub fn contains(&self, number: u16) -> bool
        ensures { result ≡ has_number self.now number }
    {
        let word = self.words[usize::from(number / WORD_BITS)];
        word >> (number % WORD_BITS) & 1 == 1
    }

    /// Puts a number into the set, which may hold it already.
    pub fn insert(&mut self, number: u16)
        ensures { (n : ℕ) → has_number self.new n ≡ (n == number || has_number self.old n) }
    {
        let index = usize::from(number / WORD_BITS);
        self.words[index] |= 1 << (number % WORD_BITS);
    }
}
