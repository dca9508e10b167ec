//! Readers that count their calls, and those of them that failed.

ghost use Rattle.std.specs.Prelude.{◌≡◌, ◌+◌, ◌≤◌, ℕ, suc, List, Option, None, length};
ghost use Rattle.jc_streams.specs.Streams.{faults_in, IfMoved, Reads};

use crate::counts::Counts;
use crate::outcome::{Outcome, outcome_of};
use std::io::Read;

/// A reader that counts its calls, and those of them that failed.
pub trait Input {
    // The bytes that reads will give from here on, where they are known.
    ghost remaining: { Self → Option (List ℕ) } = { λ _. None };

    // How often it was called.
    ghost calls: { Self → ℕ };

    // How many of these calls failed. An interrupted call didn't fail.
    ghost faults: { Self → ℕ };

    /// Reads bytes to the front of a buffer.
    fn read(&mut self, buffer: &mut [u8]) -> Outcome
        ensures called { calls self.new ≡ suc (calls self.old) }
        ensures counted { faults self.new ≡ faults self.old + faults_in result }
        ensures few { IfMoved result (λ count. count ≤ length buffer.new) }
        ensures bytes { Reads (remaining self.old) (remaining self.new) result buffer.new };
}

/// A reader of the system, with its calls counted.
#[derive(Drop)]
pub struct CountedInput<R> {
    pub reader: R,
    pub counts: Counts,
}

impl<R: Read> CountedInput<R> {
    /// A reader that wasn't called yet.
    pub fn new(reader: R) -> CountedInput<R>
        ensures reader { result.reader ≡ reader }
        ensures calls { result.counts.calls ≡ 0 }
        ensures faults { result.counts.faults ≡ 0 }
    {
        CountedInput {
            reader,
            counts: Counts::new(),
        }
    }
}

impl<R: Read> Input for CountedInput<R> {
    ghost remaining = { λ input. R.remaining input.reader };

    ghost calls = { λ input. input.counts.calls };

    ghost faults = { λ input. input.counts.faults };

    fn read(&mut self, buffer: &mut [u8]) -> Outcome {
        let outcome = outcome_of(self.reader.read(buffer));
        self.counts = self.counts.then(&outcome);
        outcome
    }
}
