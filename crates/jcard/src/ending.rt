//! The end of the program after a script or a session: it writes why that ended early, and the exit status shows it.

ghost use Rattle.std.specs.Prelude.{OnOk};
ghost use Rattle.jcard.specs.Ending.{IsPlayEnd, IsToldTo};

use crate::play::PlayFault;
use jc_host::{Status, unwritten};
use std::io::{self, Write};

/// Writes on standard error why a play ended early, if it did, and returns the exit status. If that can't be written,
/// it reports so, if it can.
pub fn end_play<E: Write>(errors: &mut E, played: &Result<(), PlayFault>) -> u8
    ensures { IsPlayEnd E.contents errors.old errors.new played.now result }
{
    match played {
        Ok(()) => Status::Success.number(),
        Err(fault) => match write_fault(errors, fault) {
            Ok(()) => Status::Failure.number(),
            Err(error) => unwritten(errors, &error),
        },
    }
}

// Writes why a play ended early.
fn write_fault<E: Write>(errors: &mut E, fault: &PlayFault) -> io::Result<()>
    ensures { OnOk result (IsToldTo E.contents errors.old errors.new fault.now) }
{
    write!(errors, "{fault}")
}
