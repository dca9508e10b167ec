//! Readers and writers that count their calls, and those of them that failed.
#![tactic(auto)]

mod bytes;
mod counts;
mod input;
mod outcome;
mod output;

pub use bytes::BytesInput;
pub use counts::Counts;
pub use input::{CountedInput, Input};
pub use outcome::Outcome;
pub use output::{CountedOutput, Output};
