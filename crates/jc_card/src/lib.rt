//! The card: installation, selection, dispatch and reset.
#![tactic(auto)]

mod accesses;
mod answer;
mod answers;
mod calls;
mod card;
mod cause;
mod checking;
mod command;
mod commands;
mod counts;
mod examples;
mod exchange;
mod fault;
mod growing;
mod install;
mod laws;
mod load;
mod new;
mod places;
mod runtime_objects;
mod selection;
mod status;
mod typed;
mod writing;

pub use accesses::{
    accesses_add_up, commands_are_guarded, commands_keep_contents, commands_see_no_contents,
    commands_stay_apart,
};
pub use answer::{Answer, MOST_SENT};
pub use answers::commands_are_answered;
pub use card::Card;
pub use cause::Cause;
pub use examples::{applets_are_installed, applets_are_selected, denials_name_the_owner};
pub use fault::{CardFault, Failure, InstallFault};
pub use laws::bytes_are_low;
pub use typed::commands_are_never_stuck;
