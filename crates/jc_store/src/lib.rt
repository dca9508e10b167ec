//! The objects on a card: their owners, their kinds, and their cells.
#![tactic(auto)]

mod block;
mod clearing;
mod header;
mod kind;
mod store;

pub use kind::{ClearingEvent, Mark, ObjectKind, ObjectType};
pub use store::Store;
