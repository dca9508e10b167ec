//! Words of 16 bits as shorts, and as values with tags.
#![tactic(auto)]

mod laws;
mod shorts;

pub use laws::word_laws;
pub use shorts::{binary, compares, incremented, unary};
