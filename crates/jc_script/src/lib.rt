//! Scripts: reading their lines, and the commands that these are.
#![tactic(auto)]

mod chunk;
mod command;
mod digits;
mod fault;
mod finding;
mod hexadecimal;
mod reader;
mod words;

pub use command::{MOST_BYTES, MOST_IN_LINE, ScriptCommand, ScriptLine, said_by, said_in_session};
pub use fault::{LineCause, LineFault};
pub use finding::{Dialect, fault_in};
pub use hexadecimal::{Hexadecimal, put_digits};
pub use reader::{MOST_LINES, NextLine, ReadFault, ScriptReader};
