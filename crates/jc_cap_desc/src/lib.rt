//! The Descriptor component of an image, and a whole package.
#![tactic(auto)]

mod across;
mod applets;
mod bodies;
mod class_row;
mod classes;
mod component;
mod faults;
mod fields;
mod interfaces;
mod laws;
mod methods;
mod offsets;
mod package;
mod standing;
mod type_descriptors;
mod type_index;
mod types;

pub use bodies::{MethodBodies, MethodBody};
pub use class_row::{
    ClassRow, ClassRows, FieldPlace, FieldRow, FieldRows, MethodRow, MethodRows, StatedType,
};
pub use classes::{Class, Classes};
pub use component::{DescriptorInfo, descriptor_layout};
pub use fields::{Field, Fields};
pub use laws::read_packages_are_whole;
pub use methods::{ClassMethod, ClassMethods};
pub use package::{Package, read_package};
pub use type_descriptors::TypeDescriptors;
