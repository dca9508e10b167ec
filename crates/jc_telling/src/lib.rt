//! The words of a report on why a call of an applet didn't end normally.
#![tactic(auto)]

mod denial;
mod explanation;
mod frame;
mod place;
mod thrown;

pub use explanation::Explanation;
