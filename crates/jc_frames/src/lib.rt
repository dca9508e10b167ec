//! Frames of methods over one array of words.
#![tactic(auto)]

mod frame_words;
mod frames;
mod header;
mod place;

pub use frames::{Frames, lending_laws, operand_laws};
pub use header::{CodePlace, FrameHeader, FrameSize};
