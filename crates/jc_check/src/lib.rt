//! The check that a certificate carries a package, or code alone.
#![tactic(auto)]

mod claim;
mod class_names;
mod fault;
mod handler;
mod input;
mod known;
mod law;
mod mark;
mod method;
mod method_check;
mod package;
mod package_method;
mod package_rules;
mod pass;
mod rules;
mod seen;
mod states;
mod table;
mod words;

pub use class_names::{class_of_name, name_of_class};
pub use fault::{Fault, WordFault, reason_for};
pub use handler::CheckedHandler;
pub use known::types_name_classes;
pub use law::first_fault_laws;
pub use method::{CheckedMethod, WORD_LOCALS, WORD_MAX_STACK};
pub use package::{Checked, carried_packages_are_typed, check};
pub use package_method::method_of;
pub use words::{CheckedWords, check_words};
