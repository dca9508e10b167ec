//! Scripts on a new card, with packages in folders and certificates in files.

ghost use Rattle.std.specs.Prelude.{◌≡◌, ℕ, List, Some, IfErr};
ghost use Rattle.jc_run.specs.End.{end_of_fault};
ghost use Rattle.jc_run.specs.Performs.{HasRun};
ghost use Rattle.jc_run.specs.Play.{failures_at};
ghost use Rattle.jc_run.specs.Reports.{AreTold};
ghost use Rattle.jc_run.specs.EndCauses.{IsUnreadable, IsUnwritable};
ghost use Rattle.jc_host.specs.FileSource.{HoldsCertificate, IsFaultOf, IsKeptOf, IsSourceFault, IsToldOfSome};
ghost use Rattle.jc_host.specs.FileSource.{TellsAll};
ghost use Rattle.jc_host.specs.Folders.{IsImage};
ghost use Rattle.jcard.specs.Play.{HoldsLines, IsTold, IsToldOfSession, end_of_play, end_of_told, fault_of_end};
ghost use Rattle.jcard.specs.Play.{fault_of_told, told_causes};
ghost use Rattle.jcard.specs.PrivatePlay.{IsToldAt};
ghost use Rattle.jcard.specs.Telling.{Tells};

use crate::telling::LineTeller;
use jc_api::Binding;
use jc_host::{Faults, FileFault, FileSource, Files, ReadFault};
use jc_machine::Limits;
use jc_run::{ScriptFault, run_script, run_session};
use jc_streams::{Input, Output};
use std::alloc::Global;
use std::fmt;
use std::io::Write;
use std::marker::Brand;

/// Why a script isn't played to its end. Its `Display` prints a whole line.
#[derive(Debug, Drop)]
pub enum PlayFault {
    /// The file of the binding or of the script is at fault.
    File(FileFault),
    /// A folder or file that the line with this number, from 1 on, names is at fault.
    Load { number: u32, fault: FileFault },
    /// The script ends early for another reason.
    Script(ScriptFault),
    /// Memory ran out.
    Memory,
}

impl From<ReadFault> for PlayFault {
    ghost use Rattle.jcard.specs.Play.{told_of};

    ghost from_gives = { λ why fault. fault ≡ told_of why };

    fn from(fault: ReadFault) -> PlayFault {
        match fault {
            ReadFault::File(fault) => PlayFault::File(fault),
            ReadFault::Memory => PlayFault::Memory,
        }
    }
}

impl fmt::Display for PlayFault {
    ghost use Rattle.jcard.specs.Ending.{play_text};

    ghost output = { play_text };

    fn fmt<W: fmt::Write>(&self, f: &mut fmt::Formatter<W>) -> fmt::Result {
        match self {
            PlayFault::File(fault) => write!(f, "error: {fault}\n"),
            PlayFault::Load { number, fault } => write!(f, "error: line {number}: {fault}\n"),
            PlayFault::Script(fault) => write!(f, "error: {fault}\n"),
            PlayFault::Memory => write!(f, "error: out of memory\n"),
        }
    }
}

/// Plays a script on a new card with these limits.
pub fn play_script<F: Files, R: Input, W: Output, E: Write>(
    files: &F,
    alloc: Global,
    reader: &mut R,
    writer: &mut W,
    teller: &mut LineTeller<E>,
    limits: Limits,
    binding: &Binding,
) -> Result<(), PlayFault>
    ensures played { (bytes before : List ℕ) → R.remaining reader.old ≡ Some bytes
        → W.contents writer.old ≡ Some before
        → HasRun (IsImage (F.holds files.now)) (HoldsCertificate (F.holds files.now))
        (told_causes (fault_of_end (IsFaultOf (F.holds files.now)) result)
        (IsUnreadable (R.calls reader.old) (R.calls reader.new) (R.faults reader.old) (R.faults reader.new))
        (IsUnwritable (W.calls writer.old) (W.calls writer.new) (W.faults writer.old) (W.faults writer.new)))
        (AreTold (Tells E.contents) teller.old teller.new) limits binding.now bytes before (W.contents writer.new)
        (end_of_play result) }
    ensures told { IfErr result (IsTold (IsSourceFault (F.holds files.now))) }
{
    play_telling::<F, R, W, E, Brand>(files, alloc, reader, writer, teller, limits, binding)
}

// Plays a script, with faults of these kinds reported.
fn play_telling<F: Files, R: Input, W: Output, E: Write, T: Faults>(
    files: &F,
    alloc: Global,
    reader: &mut R,
    writer: &mut W,
    teller: &mut LineTeller<E>,
    limits: Limits,
    binding: &Binding,
) -> Result<(), PlayFault>
    requires { TellsAll (F.holds files.now) T.tells }
    ensures played { (bytes before : List ℕ) → R.remaining reader.old ≡ Some bytes
        → W.contents writer.old ≡ Some before
        → HasRun (IsImage (F.holds files.now)) (HoldsCertificate (F.holds files.now))
        (told_causes (fault_of_end T.tells result)
        (IsUnreadable (R.calls reader.old) (R.calls reader.new) (R.faults reader.old) (R.faults reader.new))
        (IsUnwritable (W.calls writer.old) (W.calls writer.new) (W.faults writer.old) (W.faults writer.new)))
        (AreTold (Tells E.contents) teller.old teller.new) limits binding.now bytes before (W.contents writer.new)
        (end_of_play result) }
    ensures told { IfErr result (IsTold (IsToldOfSome T.tells)) }
{
    let mut source: FileSource<'_, F, T> = FileSource::new(files);
    match run_script(alloc, reader, writer, &mut source, teller, limits, binding) {
        Ok(()) => Ok(()),
        Err(fault) => Err(told_of(source, fault)),
    }
}

/// Answers the lines of a session on a new card with these limits.
pub fn hold_session<F: Files, R: Input, W: Output, E: Write>(
    files: &F,
    alloc: Global,
    reader: &mut R,
    writer: &mut W,
    teller: &mut LineTeller<E>,
    limits: Limits,
    binding: &Binding,
) -> Result<(), PlayFault>
    ensures held { (bytes before : List ℕ) → R.remaining reader.old ≡ Some bytes → W.contents writer.old ≡ Some before
        → HoldsLines (IsImage (F.holds files.now)) (HoldsCertificate (F.holds files.now))
        (IsUnreadable (R.calls reader.old) (R.calls reader.new) (R.faults reader.old) (R.faults reader.new))
        (IsUnwritable (W.calls writer.old) (W.calls writer.new) (W.faults writer.old) (W.faults writer.new))
        (AreTold (Tells E.contents) teller.old teller.new) limits binding.now bytes before (W.contents writer.new)
        (end_of_play result) }
    ensures told { IfErr result IsToldOfSession }
{
    let mut source: FileSource<'_, F, Brand> = FileSource::new(files);
    match run_session(alloc, reader, writer, &mut source, teller, limits, binding) {
        Ok(()) => Ok(()),
        Err(fault) => Err(PlayFault::Script(fault)),
    }
}

// The reported fault of a script, whose source keeps the fault of the failed read.
fn told_of<'a, F: Files, T: Faults>(source: FileSource<'a, F, T>, fault: ScriptFault) -> PlayFault
    requires { source.failures ≡ failures_at (end_of_fault fault) }
    ensures end { end_of_told result ≡ end_of_fault fault }
    ensures told { IsTold (IsToldOfSome T.tells) result }
    ensures known { IsToldAt (end_of_fault fault) (IsKeptOf T.tells source.entry.fault)
        (fault_of_told T.tells result) }
{
    match fault {
        ScriptFault::Source(number) => match source.into_fault() {
            Some(fault) => PlayFault::Load { number, fault },
            // A source keeps the fault of a failed read.
            None => unreachable!(),
        },
        ScriptFault::Memory => PlayFault::Memory,
        fault => PlayFault::Script(fault),
    }
}
