//! Examples of each native member of the API.
#![tactic(auto)]

mod aids;
mod apdus;
mod applets;
mod objects;
mod systems;
mod utilities;

pub use aids::{aid_bytes_are_given, aids_are_compared, aids_are_kept, aids_are_refused};
pub use apdus::{
    answers_are_sent_at_once, bytes_of_an_array_are_sent, bytes_of_the_buffer_are_sent,
    data_are_received, sending_is_refused, the_buffer_is_given, the_direction_is_turned,
    the_length_is_announced,
};
pub use applets::{
    applets_answer, applets_register, applets_register_under_bytes, process_is_abstract,
    registering_is_refused,
};
pub use objects::{
    constructors_set_nothing, constructors_set_the_reason, exceptions_are_thrown,
    objects_are_compared, objects_of_members_are_tested, reasons_are_given_and_set,
};
pub use systems::{
    aids_are_looked_up, instances_have_aids, shareable_objects_are_asked_for,
    transient_arrays_are_made, transient_arrays_are_refused,
};
pub use utilities::{
    bytes_are_compared, bytes_are_copied, bytes_are_filled, copies_are_refused,
    fills_and_comparisons_are_refused, shorts_of_two_bytes,
};
