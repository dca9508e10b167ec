//! Playing scripts on a card.
#![tactic(auto)]

mod answer;
mod command;
mod fault;
mod lawful;
mod line;
mod refusal;
mod run;
mod session;
mod telling;
mod writing;

pub use answer::CommandAnswer;
pub use command::perform;
pub use fault::ScriptFault;
pub use lawful::{commands_that_go_on_are_answered, early_ends_have_causes};
pub use refusal::LineRefusal;
pub use run::{play, run_script};
pub use session::{converse, run_session};
pub use telling::Teller;
