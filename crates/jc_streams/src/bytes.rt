//! Bytes in memory, read like a file.

ghost use Rattle.std.specs.Prelude.{◌≡◌, Some};

use crate::counts::Counts;
use crate::input::Input;
use crate::outcome::{Outcome, outcome_of};
use std::io::Read;
use std::marker::Model;

/// The bytes of a slice, read one part after the other. No call fails.
#[derive(Drop)]
pub struct BytesInput<'a> {
    bytes: &'a [u8],
    counts: Counts,
}

impl<'a> Model for BytesInput<'a> {
    ghost use Rattle.jc_streams.specs.Streams.{BytesLeft};

    ghost Value = { BytesLeft };

    ghost view = { λ input. record { unread = input.bytes.now; calls = input.counts.calls } };
}

impl<'a> BytesInput<'a> {
    /// An input of these bytes that wasn't called yet.
    pub fn new(bytes: &'a [u8]) -> BytesInput<'a>
        ensures unread { result.unread ≡ bytes.now }
        ensures calls { result.calls ≡ 0 }
    {
        BytesInput {
            bytes,
            counts: Counts::new(),
        }
    }
}

impl<'a> Input for BytesInput<'a> {
    ghost remaining = { λ input. Some input.unread };

    ghost calls = { λ input. input.calls };

    ghost faults = { λ input. 0 };

    fn read(&mut self, buffer: &mut [u8]) -> Outcome {
        let outcome = outcome_of(self.bytes.read(buffer));
        self.counts = self.counts.then(&outcome);
        outcome
    }
}
