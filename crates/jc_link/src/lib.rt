//! Linking of packages to those before them.
#![tactic(auto)]

mod above;
mod body;
mod classes;
mod fields;
mod growth;
mod imports;
mod inherited;
mod linking;
mod methods;
mod named;
mod pool;
mod stated;
mod statics;
mod target;
mod types;
mod well_formed;
mod world;

pub use body::{ArrayKind, InitialArray, MethodCode, PackageBody, StaticImage};
pub use growth::{
    adding_keeps_linking, an_applet_is_well_formed, built_worlds_are_sound,
    built_worlds_have_the_api, built_worlds_name_classes, built_worlds_stand_on_the_api,
    growing_keeps_linking, linked_packages_are_known,
};
pub use linking::{link, link_package};
pub use named::{Named, StaticPlace};
pub use target::{MemberType, PoolTarget, member_type};
pub use types::{counted, is_known_method, return_found, type_found};
pub use world::{Linked, LinkedBody, World};
