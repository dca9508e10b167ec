//! The tables with which a machine runs loaded packages: methods, constant pools and classes, by number and by name.
#![tactic(auto)]

mod bit_row;
mod bit_rows;
mod called;
mod chained;
mod class_rows;
mod classes;
mod entries;
mod entry;
mod handler;
mod index_rows;
mod interfaces;
mod laid;
mod laws;
mod loading;
mod member_tokens;
mod methods;
mod nearest;
mod numbers;
mod program;
mod row;
mod supertypes;
mod tables;
mod virtuals;
mod visible;

pub use class_rows::{ClassRow, ClassRows};
pub use classes::{ClassNumber, Classes};
pub use entries::Entries;
pub use handler::{Caught, LoadedHandler};
pub use interfaces::{InterfaceCall, InterfaceMethods};
pub use laws::{
    api_tokens_are_public, class_subtypes_are_below, classes_have_numbers,
    loaded_handlers_cover_the_same, program_laws, unknown_classes_are_below_themselves,
};
pub use member_tokens::MemberTokens;
pub use methods::Methods;
pub use program::{Program, ProgramSize};
pub use row::LoadedMethod;
pub use supertypes::Supertypes;
pub use virtuals::VirtualMethods;
pub use visible::VisibleMethods;
