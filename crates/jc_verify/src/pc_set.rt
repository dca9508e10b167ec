//! Sets of pcs, sized by the largest one.

ghost use Rattle.std.specs.Prelude.{◌≡◌, ◌<◌, ℕ, false, ◌==◌, ◌||◌, length, IfOk};
ghost use Rattle.jc_base.specs.NumberSet.{has_number};

use std::alloc::{AllocError, Global};
use std::marker::Model;

/// Pcs per word.
const WORD_BITS: u16 = 64;

/// A bit for each pc, up to the word of the largest one. An empty set has no words.
#[derive(Drop)]
pub(crate) struct PcSet {
    words: Vec<u64>,
}

impl Model for PcSet {
    ghost use Rattle.std.specs.Prelude.{ℕ, List};

    ghost Value = { List ℕ };

    ghost view = { λ s. s.words.items };
}

/// Appends empty words until one has this index.
#[tactic(auto, using(crate::proofs::PcSets::more_has))]
fn grow(words: &mut Vec<u64>, index: usize) -> Result<(), AllocError>
    ensures same { IfOk result (λ u. (n : ℕ) → has_number words.new.items n ≡ has_number words.old.items n) }
    ensures there { IfOk result (λ u. index < length words.new.items) }
{
    while words.len() <= index {
        words.push(0)?;
    }
    Ok(())
}

impl PcSet {
    /// The empty set.
    pub(crate) fn empty(alloc: Global) -> PcSet
        ensures { (n : ℕ) → has_number result n ≡ false }
    {
        PcSet {
            words: Vec::new(alloc),
        }
    }

    /// Whether a pc is in the set.
    pub(crate) fn contains(&self, pc: u16) -> bool
        ensures { result ≡ has_number self.now pc }
    {
        match self.words.get(usize::from(pc / WORD_BITS)) {
            Some(word) => *word >> (pc % WORD_BITS) & 1 == 1,
            None => false,
        }
    }

    /// Inserts a pc, which may be in the set already.
    #[tactic(auto, using(crate::proofs::PcSets::has_with))]
    pub(crate) fn insert(&mut self, pc: u16) -> Result<(), AllocError>
        ensures { IfOk result (λ u. (n : ℕ) → has_number self.new n ≡ (n == pc || has_number self.old n)) }
    {
        let index = usize::from(pc / WORD_BITS);
        grow(&mut self.words, index)?;
        self.words[index] |= 1 << (pc % WORD_BITS);
        Ok(())
    }
}
