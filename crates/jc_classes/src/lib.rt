//! The classes of a world of packages, and look-ups in them.
#![tactic(auto)]

mod adding;
mod api;
mod copies;
mod copying;
mod extent;
mod found;
mod growth;
mod interfaces;
mod lent;
mod making;
mod members;
mod methods;
mod places;
mod shape;
mod shapes;
mod subtypes;
mod table;
mod tables;
mod walk;

pub use extent::Places;
pub use found::FoundMethods;
pub use growth::{adding_keeps_lookups, growing_keeps_lookups};
pub use members::DeclaredMethod;
pub use methods::method_name;
pub use shape::{Class, DescribedMethod, Export, Field, ImplementedInterface, PackageShape};
pub use subtypes::{found_subtypes_are_subtypes, superclass_laws};
pub use table::ClassTable;
pub use walk::anchor_behind;
