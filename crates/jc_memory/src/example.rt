//! A script whose answers are known to the byte.

ghost use Rattle.std.specs.Prelude.{[]};
ghost use Rattle.jc_memory.specs.Example.{IsExampleEnd, example_script};
ghost use Rattle.jc_memory.specs.Memory.{Holds, missing_causes, unheard};
ghost use Rattle.jc_run.specs.End.{end_of};
ghost use Rattle.jc_run.specs.Runs.{IsSimulated};

use crate::play::{Played, play_in_memory};
use jc_api::Binding;
use jc_machine::Limits;
use std::alloc::Global;

/// A reset, a command for an applet that isn't there, bytes that are no command, and a line that is none.
const SCRIPT: &[u8] = b"reset\napdu 00A40400\napdu 00\nselect\n";

/// Plays the example on a new card. Unless memory, reading or writing fails, it ends at its fourth line, and what it
/// wrote is the lines `reset`, `sw 6999` and `sw 6700`.
pub fn play_example(alloc: Global, limits: Limits, binding: &Binding) -> Played
    ensures simulated { IsSimulated (Holds []) (Holds []) (missing_causes [] []) unheard limits binding.now
        example_script result.written.items (end_of result.outcome) }
    ensures exact { IsExampleEnd (end_of result.outcome) result.written.items }
{
    play_in_memory(alloc, SCRIPT, &[], &[], limits, binding)
}
