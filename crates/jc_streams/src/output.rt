//! Writers that count their calls, and those of them that failed.

ghost use Rattle.std.specs.Prelude.{◌≡◌, ◌+◌, ◌≤◌, ◌<◌, ℕ, suc, List, Option, None, length};
ghost use Rattle.std.specs.Io.KnownBytes.{Keeps};
ghost use Rattle.jc_streams.specs.Streams.{faults_in, IfMoved, Writes};

use crate::counts::Counts;
use crate::outcome::{Outcome, flushed_of, taken_of};
use std::io::Write;

/// A writer that counts its calls, and those of them that failed.
pub trait Output {
    // The bytes that were written so far, where they are known.
    ghost contents: { Self → Option (List ℕ) } = { λ _. None };

    // How often it was called.
    ghost calls: { Self → ℕ };

    // How many of these calls failed. An interrupted call didn't fail.
    ghost faults: { Self → ℕ };

    /// Writes the first of these bytes. A call that takes none of some bytes has failed.
    fn write(&mut self, bytes: &[u8]) -> Outcome
        ensures called { calls self.new ≡ suc (calls self.old) }
        ensures counted { faults self.new ≡ faults self.old + faults_in result }
        ensures few { IfMoved result (λ count. count ≤ length bytes.now) }
        ensures some { IfMoved result (λ count. 0 < length bytes.now → 0 < count) }
        ensures written { Writes (contents self.old) (contents self.new) result bytes.now };

    /// Passes on what was written.
    fn flush(&mut self) -> Outcome
        ensures called { calls self.new ≡ suc (calls self.old) }
        ensures counted { faults self.new ≡ faults self.old + faults_in result }
        ensures kept { Keeps (contents self.old) (contents self.new) };
}

/// A writer of the system, with its calls counted.
#[derive(Drop)]
pub struct CountedOutput<W> {
    pub writer: W,
    pub counts: Counts,
}

impl<W: Write> CountedOutput<W> {
    /// A writer that wasn't called yet.
    pub fn new(writer: W) -> CountedOutput<W>
        ensures writer { result.writer ≡ writer }
        ensures calls { result.counts.calls ≡ 0 }
        ensures faults { result.counts.faults ≡ 0 }
    {
        CountedOutput {
            writer,
            counts: Counts::new(),
        }
    }
}

impl<W: Write> Output for CountedOutput<W> {
    ghost contents = { λ output. W.contents output.writer };

    ghost calls = { λ output. output.counts.calls };

    ghost faults = { λ output. output.counts.faults };

    fn write(&mut self, bytes: &[u8]) -> Outcome {
        let outcome = taken_of(self.writer.write(bytes), bytes);
        self.counts = self.counts.then(&outcome);
        outcome
    }

    fn flush(&mut self) -> Outcome {
        let outcome = flushed_of(self.writer.flush());
        self.counts = self.counts.then(&outcome);
        outcome
    }
}
