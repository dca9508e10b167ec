//! The verifier: infers the certificate of a linked package.
#![tactic(auto)]

mod entries;
mod fault;
mod flow;
mod gathering;
mod method;
mod numbering;
mod package;
mod pc_set;
mod place;
mod seen;
mod settle;
mod spelling;
mod stop;

pub use fault::VerifyFault;
pub use package::{Inferred, infer};
