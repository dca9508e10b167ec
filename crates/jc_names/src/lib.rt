//! Names in a world of packages: of classes, of methods, and of the owners of objects.
#![tactic(auto)]

mod name;
mod owner;
mod place;

pub use name::{ClassName, MethodName, name_in};
pub use owner::Owner;
pub use place::PackagePlace;
