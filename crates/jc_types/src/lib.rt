//! Verification types, and states of a method's locals and operands.
#![tactic(auto)]

mod changes;
mod classes;
mod height;
mod join;
mod known;
mod lattice;
mod order;
mod ranges;
mod state;
mod ty;

pub use changes::are_below;
pub use classes::{ClassOrder, NoClasses};
pub use known::known_laws;
pub use lattice::{Lattice, order_laws};
pub use order::is_below;
pub use ranges::{LocalRange, are_below_within, differing};
pub use state::State;
pub use ty::Ty;
