//! Resolved entries of constant pools, as instructions need them at run time.
#![tactic(auto)]

mod called;
mod entry;
mod method_number;

pub use called::Called;
pub use entry::{Entry, EntryCall};
pub use method_number::MethodNumber;
