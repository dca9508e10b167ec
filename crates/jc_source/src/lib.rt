//! Sources of packages and certificates, by their names.
#![tactic(auto)]

mod counting;
mod source;

pub use counting::{failures_in, shortages_in};
pub use source::{PackageSource, SourceFault};
