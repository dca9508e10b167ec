//! Scripts on a card, with packages and certificates in memory.
#![tactic(auto)]

mod example;
mod play;
mod reads;
mod source;

pub use example::play_example;
pub use play::{Played, perform_in_memory, play_in_memory};
pub use source::{MemorySource, NamedBytes};
