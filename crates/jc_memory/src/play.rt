//! Scripts in memory on a new card.

ghost use Rattle.std.specs.Prelude.{◌≡◌, ◌<◌, ◌++◌, ◌^◌, OnErr, OnOk};
ghost use Rattle.jc_memory.specs.Memory.{Holds, IsMissing, missing_causes, unheard};
ghost use Rattle.jc_run.specs.End.{end_of};
ghost use Rattle.jc_run.specs.Performs.{IsFailingOf, asked_by};
ghost use Rattle.jc_run.specs.Runs.{IsSimulated};
ghost use Rattle.jc_script.specs.Shown.{shown_command};
ghost use Rattle.jc_source.specs.Source.{IfFailed};

use crate::source::{MemorySource, NamedBytes};
use jc_api::Binding;
use jc_card::Card;
use jc_interp::ShownFrame;
use jc_machine::Limits;
use jc_run::{CommandAnswer, LineRefusal, ScriptFault, Teller, perform, run_script};
use jc_script::ScriptCommand;
use jc_source::SourceFault;
use jc_streams::{BytesInput, CountedOutput};
use std::alloc::Global;

/// The result of a script: the bytes that it wrote, and how it ended.
#[derive(Drop)]
pub struct Played {
    pub written: Vec<u8>,
    pub outcome: Result<(), ScriptFault>,
}

/// Reports nothing.
#[derive(Drop)]
struct Silence;

impl<S> Teller<S> for Silence {
    ghost use Rattle.std.specs.Prelude.{⊤};

    ghost tells = { λ before report after. ⊤ };

    fn answered(&mut self, _number: u64, _answer: &CommandAnswer, _stopped: Option<&ShownFrame>) {}

    fn refused(&mut self, _number: u64, _refusal: &LineRefusal, _source: &S) {}
}

/// Plays a script in memory on a new card, with packages and certificates in memory: the simulation theorem holds for
/// the bytes that it wrote. If it ended at a load's file, nothing is under that file's name.
pub fn play_in_memory(
    alloc: Global,
    script: &[u8],
    images: &[NamedBytes],
    certificates: &[NamedBytes],
    limits: Limits,
    binding: &Binding,
) -> Played
    ensures { IsSimulated (Holds images.now) (Holds certificates.now) (missing_causes images.now certificates.now)
        unheard limits binding.now script.now result.written.items (end_of result.outcome) }
{
    let mut source = MemorySource::new(images, certificates);
    let mut reader = BytesInput::new(script);
    let mut writer = CountedOutput::new(Vec::new(alloc));
    let mut teller = Silence;
    let outcome = run_script(
        alloc,
        &mut reader,
        &mut writer,
        &mut source,
        &mut teller,
        limits,
        binding,
    );
    let written = writer.writer;
    Played { written, outcome }
}

/// Performs a command on a card, with packages and certificates in memory. It reads what the command names and nothing
/// else: a load's image, and then its certificate. It fails only if nothing is under one of these names, or memory runs
/// out; then the card stays as it is.
pub fn perform_in_memory(
    alloc: Global,
    card: &mut Card,
    source: &mut MemorySource<'_>,
    command: &ScriptCommand<'_>,
) -> Result<CommandAnswer, SourceFault>
    requires few { source.old.failures < 2 ^ 31 }
    requires few_short { source.old.shortages < 2 ^ 31 }
    ensures asks { OnOk result (source.new.asked ≡ source.old.asked ++ asked_by (shown_command command.now)) }
    ensures failing { IfFailed result (IsFailingOf (IsMissing source.new.images source.new.certificates)
        (shown_command command.now)) }
    ensures kept { OnErr result (card.new ≡ card.old) }
{
    perform(card, alloc, source, command)
}
