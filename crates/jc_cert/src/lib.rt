//! Certificates: the states that a method's code is claimed to have at its branch targets, and their unique encoding in
//! bytes.
#![tactic(auto)]

mod cert;
mod in_order;
mod law;
mod reading;
mod refusal;
mod stated_type;
mod writing;

pub use cert::{Cert, MethodStates, StateRow};
pub use law::one_spelling;
pub use reading::read;
pub use stated_type::{SpelledClass, StatedType};
pub use writing::write;
