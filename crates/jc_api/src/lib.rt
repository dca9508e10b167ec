//! The API of the profile: its packages, classes and members, and the binding that gives them identifiers and tokens.
#![tactic(auto)]

mod binding;
mod class;
mod draft;
mod fault;
mod member;
mod numbered;
mod statement;
mod text;
mod token;

pub use binding::{Binding, read_texts_are_bindings};
pub use class::{ApiClass, ApiPackage, CLASS_COUNT};
pub use fault::BindingFault;
pub use member::{MEMBER_COUNT, Member, MemberKind};
pub use token::is_at_or_above;
