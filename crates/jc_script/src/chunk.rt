//! A chunk of bytes from a reader, which is taken part by part.

ghost use Rattle.std.specs.Prelude.{◌≡◌, ◌≤◌, ◌==◌, ◌+◌, suc, [], length, drop};
ghost use Rattle.std.specs.Io.KnownBytes.{Consumes, IsAtEnd, Keeps};
ghost use Rattle.jc_streams.specs.Streams.{faults_in, IfMoved};
ghost use Rattle.jc_script.specs.PrivateReading.{IfNoneMoved};

use jc_streams::{Input, Outcome};
use std::marker::Model;

/// The most bytes that are read at once.
const MOST: usize = 4096;

/// Bytes that were read. Some of them may be taken already.
#[derive(Drop)]
pub(crate) struct Chunk {
    bytes: [u8; MOST],
    at: usize,
    end: usize,
}

impl Model for Chunk {
    ghost use Rattle.std.specs.Prelude.{ℕ, List, ◌≤◌, ◌-◌, drop, take};

    ghost Value = { List ℕ };

    ghost view = { λ c. take (c.end - c.at) (drop c.at c.bytes) };

    ghost invariant = { λ c. (c.at ≤ c.end) × (c.end ≤ 4096) };
}

impl Chunk {
    /// An empty chunk.
    pub(crate) fn new() -> Chunk
        ensures { result ≡ [] }
    {
        Chunk {
            bytes: [0; MOST],
            at: 0,
            end: 0,
        }
    }

    /// Whether no byte is left.
    pub(crate) fn is_empty(&self) -> bool
        ensures { result ≡ (length self.now == 0) }
    {
        self.at == self.end
    }

    /// The bytes that are left.
    pub(crate) fn left(&self) -> &[u8]
        ensures bytes { result.now ≡ self.now }
        ensures few { length result.now ≤ 4096 }
    {
        &self.bytes[self.at..self.end]
    }

    /// Takes the first `count` bytes.
    pub(crate) fn take(&mut self, count: usize)
        requires { count ≤ length self.old }
        ensures { self.new ≡ drop count self.old }
    {
        self.at += count;
    }

    /// Replaces the bytes by new ones from the reader, by one call of it. None come only at the reader's end, or if the
    /// call didn't succeed.
    pub(crate) fn fill<R: Input>(&mut self, reader: &mut R) -> Outcome
        ensures called { R.calls reader.new ≡ suc (R.calls reader.old) }
        ensures counted { R.faults reader.new ≡ R.faults reader.old + faults_in result }
        ensures filled { IfMoved result (λ count. count ≡ length self.new) }
        ensures came { IfMoved result (λ count. Consumes (R.remaining reader.old) (R.remaining reader.new) self.new) }
        ensures end { IfMoved result (λ count. count ≡ 0 → IsAtEnd (R.remaining reader.new)) }
        ensures kept { IfNoneMoved result (Keeps (R.remaining reader.old) (R.remaining reader.new)) }
    {
        self.at = 0;
        self.end = 0;
        let outcome = reader.read(self.bytes.as_mut_slice());
        if let Outcome::Moved(count) = &outcome {
            self.end = *count;
        }
        outcome
    }
}
