//! Sets of numbers as rows of bits.

ghost use Rattle.std.specs.Prelude.{◌≡◌, ℕ, ◌+◌, ◌^◌, ◌<◌, ◌≤◌, ◌==◌, ◌||◌, [], bit_or, length, IfOk};
ghost use Rattle.jc_program.specs.BitRow.{has_bit};
ghost use Rattle.jc_program.specs.PrivateBitRow.{AreUnited, bits_of};

use std::alloc::{AllocError, Global};
use std::marker::Model;

/// How many numbers a word contains.
const WORD_BITS: u16 = 64;

/// Appends zeros until there are `count` words.
#[tactic(auto, using(crate::proofs::Rowing::same_pushed))]
fn widen(words: &mut Vec<u64>, count: usize) -> Result<(), AllocError>
    requires { count ≤ 1024 }
    ensures same { (n : ℕ) → has_bit words.new.items n ≡ has_bit words.old.items n }
    ensures wide { IfOk result (λ u. count ≤ length words.new.items) }
    ensures few { length words.old.items ≤ 1024 → length words.new.items ≤ 1024 }
{
    words.reserve(count.saturating_sub(words.len()))?;
    for _ in words.len()..count {
        words.push(0)?;
    }
    Ok(())
}

/// The bits of either word.
#[inline]
#[tactic(auto, using(crate::proofs::Rowing::or_small))]
fn both_of(word: u64, more: u64) -> u64
    ensures bits { result ≡ bit_or word more }
    ensures small { word < 2 ^ 64 }
    ensures fits { result < 2 ^ 64 }
{
    word | more
}

/// Sets bits of one word. Returns whether one of them wasn't set.
#[tactic(auto, using(crate::proofs::Rowing::united_word))]
fn unite_word(words: &mut [u64], at: usize, more: u64) -> bool
    requires there { at < length words.old }
    requires few { length words.old ≤ 1024 }
    ensures length { length words.new ≡ length words.old }
    ensures united { AreUnited (bits_of at more) words.old words.new result }
{
    let old = words[at];
    let new = both_of(old, more);
    words[at] = new;
    new != old
}

/// Sets the bits that are set in other words. Returns whether one of them wasn't set.
fn unite_words(words: &mut [u64], more: &[u64]) -> bool
    requires wide { length more.now ≤ length words.old }
    requires few { length words.old ≤ 1024 }
    ensures length { length words.new ≡ length words.old }
    ensures united { AreUnited (has_bit more.now) words.old words.new result }
{
    let mut changed = false;
    for at in 0..more.len() {
        changed |= unite_word(words, at, more[at]);
    }
    changed
}

/// A set of numbers of 16 bits: one bit for each, in as many words as they need.
#[derive(Drop)]
pub(crate) struct BitRow {
    words: Vec<u64>,
}

impl Model for BitRow {
    ghost use Rattle.std.specs.Prelude.{ℕ, List, ◌≤◌, length};

    ghost Value = { List ℕ };

    ghost view = { λ r. r.words.items };

    ghost invariant = { λ r. length r.words.items ≤ 1024 };
}

impl BitRow {
    /// The empty row.
    pub(crate) fn new(alloc: Global) -> BitRow
        ensures { result ≡ [] }
    {
        BitRow {
            words: Vec::new(alloc),
        }
    }

    /// Whether it has a number.
    #[inline]
    pub(crate) fn has(&self, number: u16) -> bool
        ensures { result ≡ has_bit self.now number }
    {
        let word = self
            .words
            .get(usize::from(number / WORD_BITS))
            .copied()
            .unwrap_or(0);
        word >> (number % WORD_BITS) & 1 == 1
    }

    /// Puts a number in, even if it is there already.
    pub(crate) fn put(&mut self, number: u16) -> Result<(), AllocError>
        ensures { IfOk result (λ u. (n : ℕ) → has_bit self.new n ≡ (has_bit self.old n || n == number)) }
    {
        let index = usize::from(number / WORD_BITS);
        widen(&mut self.words, index + 1)?;
        unite_word(&mut self.words, index, 1 << (number % WORD_BITS));
        Ok(())
    }

    /// Puts the numbers of another row in. Returns whether one of them is new.
    pub(crate) fn unite(&mut self, other: &BitRow) -> Result<bool, AllocError>
        ensures { IfOk result (λ changed. AreUnited (has_bit other.now) self.old self.new changed) }
    {
        widen(&mut self.words, other.words.len())?;
        Ok(unite_words(&mut self.words, &other.words))
    }
}
