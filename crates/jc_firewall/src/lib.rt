//! The firewall between the applets on a card: the verdict on each access to an object.
#![tactic(auto)]

mod access;
mod decision;
mod examples;
mod law;

pub use access::{Access, Denial, Facts, Rule, Verdict};
pub use decision::{allows, decide};
pub use examples::{
    all_is_allowed_to_the_runtime, casts_are_of_own_objects_or_of_services,
    cleared_arrays_are_of_the_selected_context, components_are_own_or_global, fields_are_own,
    methods_are_own_or_the_runtimes, references_are_stored, services_are_shared,
    thrown_objects_are_own_or_the_runtimes,
};
pub use law::own_is_allowed;
