//! The interpreter: it runs checked packages on words of 16 bits, without tags and without tests of types.
#![tactic(auto)]

mod arrays;
mod call;
mod calls;
mod casts;
mod creation;
mod ends;
mod entering;
mod fetch;
mod fields;
mod going;
mod image;
mod laws;
mod leaf;
mod loading;
mod machine;
mod making;
mod natives;
mod objects;
mod perform;
mod recognised;
mod references;
mod returns;
mod run;
mod seen;
mod shown;
mod statics;
mod step;
mod step_context;
mod top;
mod unwinding;

pub use call::FirstCall;
pub use ends::RunEnd;
pub use image::static_words;
pub use laws::loads_stay_in_agreement;
pub use machine::WordMachine;
pub use making::has_room_for;
pub use shown::{IndexFault, ShownFrame};
pub use statics::Statics;
