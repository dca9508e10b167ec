//! The native members of the card's API.
#![tactic(auto)]

mod aid;
mod apdu;
mod applet;
mod at_once;
mod bytes;
mod cells;
mod ended;
mod examples;
mod kept;
mod laws;
mod member;
mod members;
mod native;
mod object;
mod row;
mod rows;
mod system;
mod tests;
mod utility;
mod words;

pub use examples::{
    arguments_are_tested, bytes_are_written, members_are_stuck, members_refuse, ranges_and_signs,
};
pub use kept::{ApduState, Installing, Instance, Runtime};
pub use laws::{
    calls_keep_fitting, calls_keep_numbers, calls_register_the_installed, kept_stays_fit,
    loads_keep_fitting, members_are_declared, members_are_guarded, members_keep_what_is_kept,
    members_see_no_contents, members_stay_apart, written_words_are_held,
};
