//! The jobs `run` and `session`.

ghost use Rattle.jc_host.specs.Scripts.{AreAsked};
ghost use Rattle.jc_run.specs.Reports.{AreTold};
ghost use Rattle.jc_run.specs.EndCauses.{IsUnreadable, IsUnwritable};
ghost use Rattle.jcard.specs.Ran.{ComesOfRun, ComesOfSession};
ghost use Rattle.jcard.specs.Telling.{Tells};

use crate::play::{PlayFault, hold_session, play_script};
use crate::telling::LineTeller;
use jc_host::{CardJob, Files, RunJob, Scripts, binding_for, open_script};
use jc_streams::{CountedInput, Input, Output};
use std::alloc::Global;
use std::io::Write;

/// Plays a script on a new card. It reads the binding first, and then opens the script.
pub fn run<F: Files, S: Scripts, W: Output, E: Write>(
    files: &F,
    scripts: &mut S,
    alloc: Global,
    writer: &mut W,
    teller: &mut LineTeller<E>,
    job: &RunJob,
) -> Result<(), PlayFault>
    ensures { ComesOfRun (F.holds files.now) (S.tells scripts.old)
        (AreAsked (S.has_asked scripts.old) (S.has_asked scripts.new))
        (AreTold (Tells E.contents) teller.old teller.new) W.contents
        (IsUnwritable (W.calls writer.old) (W.calls writer.new) (W.faults writer.old) (W.faults writer.new))
        writer.old writer.new job.now result }
{
    let binding = binding_for(files, alloc, job.card.binding)?;
    let script = open_script(scripts, alloc, job.script)?;
    let mut lines = CountedInput::new(script);
    play_script(
        files,
        alloc,
        &mut lines,
        writer,
        teller,
        job.card.limits,
        &binding,
    )
}

/// Answers the lines of a reader on a new card. It reads the binding first.
pub fn session<F: Files, R: Input, W: Output, E: Write>(
    files: &F,
    alloc: Global,
    reader: &mut R,
    writer: &mut W,
    teller: &mut LineTeller<E>,
    job: &CardJob,
) -> Result<(), PlayFault>
    ensures { ComesOfSession (F.holds files.now) R.remaining
        (IsUnreadable (R.calls reader.old) (R.calls reader.new) (R.faults reader.old) (R.faults reader.new))
        reader.old reader.new (AreTold (Tells E.contents) teller.old teller.new) W.contents
        (IsUnwritable (W.calls writer.old) (W.calls writer.new) (W.faults writer.old) (W.faults writer.new))
        writer.old writer.new job.now result }
{
    let binding = binding_for(files, alloc, job.binding)?;
    hold_session(files, alloc, reader, writer, teller, job.limits, &binding)
}
