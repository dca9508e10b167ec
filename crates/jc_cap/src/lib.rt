//! The components of an image, each read alone: Header, Import, Applet, Class, Method, StaticField, Export, and
//! ConstantPool, with the descriptors of types.
//!
//! Java Card Virtual Machine Specification, CAP file format.
#![tactic(auto)]

mod applets;
mod arrays;
mod class_component;
mod declared_type;
mod descriptor;
mod entry;
mod exports;
mod handler;
mod header;
mod imports;
mod interfaces;
mod method_component;
mod method_header;
mod nibbles;
mod pool;
mod record;
mod statics;

pub use applets::{Applet, Applets, read_applets};
pub use arrays::{StaticArray, StaticArrays};
pub use class_component::{Records, class_layout, none_remote, read_class};
pub use descriptor::{
    Descriptor, Descriptors, Parameters, descriptor_at, next_descriptor, signatures_are_spelled,
};
pub use entry::{MemberRef, PoolEntry, StaticRef};
pub use exports::{ExportedClass, Exports, read_exports};
pub use handler::{Handler, Handlers};
pub use header::{Format, Header, read_header};
pub use imports::{Imports, read_imports};
pub use interfaces::{
    ImplementedInterface, ImplementedInterfaces, Superinterface, Superinterfaces,
};
pub use method_component::{Method, MethodInfo, read_method};
pub use method_header::MethodHeader;
pub use nibbles::Nibbles;
pub use pool::{ConstantPool, read_pool};
pub use record::{ClassRecord, InterfaceRecord, Record, RecordBody, VirtualTable};
pub use statics::{StaticFields, read_static_fields};
