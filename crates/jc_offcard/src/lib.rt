//! Verification of packages after others.
#![tactic(auto)]

mod unlinked;
mod verification;
mod verify_answer;

pub use verification::{put, verify};
pub use verify_answer::VerifyAnswer;
