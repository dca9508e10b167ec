//! What the readers of a card's files share: a cursor over bytes, the faults of a refused file, and shared values.
#![tactic(auto)]

mod aid;
mod class_ref;
mod cursor;
mod cutting;
mod declared_type;
mod fault;
mod number_set;
mod numbers;
mod owned;
mod package_info;
mod parts;
mod placed_rows;
mod reason;
mod rows;
mod shared;
pub mod stack;
pub mod tag;

pub use aid::{Aid, next_aid};
pub use class_ref::{ClassRef, class_ref_of};
pub use cursor::Cursor;
pub use cutting::cut;
pub use declared_type::{DeclaredType, ReturnType};
pub use fault::LoadFault;
pub use number_set::NumberSet;
pub use numbers::{S1s, S2s, U2s, has_flag};
pub use owned::owned_rows;
pub use package_info::{PackageInfo, next_package_info};
pub use parts::Parts;
pub use placed_rows::{FrontRow, Placed, PlacedRow, PlacedRows, placed_rows_are_placed};
pub use reason::Reason;
pub use rows::{FixedRow, Row, Rows, Source};
pub use shared::Shared;
