//! One command on a card.

ghost use Rattle.std.specs.Prelude.{◌≡◌, ◌+◌, ◌<◌, ◌^◌, ◌∷◌, [], IfOk, IfErr, OnErr, OnOk, length, true};
ghost use Rattle.jc_run.specs.Answer as answers;
ghost use Rattle.jc_store.specs.Heap.{cells_in};
ghost use Rattle.jc_card.specs.Card.{CardState, with_steps};
ghost use Rattle.jc_card.specs.Commands.{apdu_command};
ghost use Rattle.jc_card.specs.Install.{install_command};
ghost use Rattle.jc_card.specs.Reads.{Does, Holds};
ghost use Rattle.jc_natives.specs.Kept.{are_bytes};
ghost use Rattle.jc_source.specs.Source.{Asks, Certificate, HoldSame, IfFailed, Image, failures_in, shortages_in};
ghost use Rattle.jc_run.specs.Answer.{Responds, shown};
ghost use Rattle.jc_run.specs.Play.{IsFailing, install_answer};
ghost use Rattle.jc_run.specs.Performs.{Answers, AsksSource, IsFailingOf, asked_by};
ghost use Rattle.jc_run.specs.PrivatePlay.{LoadsAs};
ghost use Rattle.jc_script.specs.Shown.{shown_command};

use crate::answer::CommandAnswer;
use jc_base::Aid;
use jc_card::{Card, bytes_are_low};
use jc_script::ScriptCommand;
use jc_source::{PackageSource, SourceFault};
use std::alloc::Global;

/// The image of a package, and the bytes of its certificate.
#[derive(Drop)]
struct PackageFiles {
    image: Vec<u8>,
    certificate: Vec<u8>,
}

/// Reads the files of a package, the image first.
fn files_of<S: PackageSource>(
    alloc: Global,
    source: &mut S,
    folder: &str,
    certificate: &str,
) -> Result<PackageFiles, SourceFault>
    requires few { S.failed source.old < 2 ^ 31 }
    requires few_short { S.short source.old < 2 ^ 31 }
    ensures image { IfOk result (λ files. S.holds_image source.old folder.now files.image.items) }
    ensures bytes { IfOk result (λ files. are_bytes files.image.items ≡ true) }
    ensures certificate { IfOk result (λ files.
        S.holds_certificate source.old certificate.now files.certificate.items) }
    ensures asks { OnOk result (Asks (S.asked source.old) (S.asked source.new)
        (Image folder.now ∷ Certificate certificate.now ∷ [])) }
    ensures failing { IfFailed result (IsFailing (S.failed_at source.new) folder.now certificate.now) }
    ensures counted { S.failed source.new ≡ S.failed source.old + failures_in result }
    ensures counted_short { S.short source.new ≡ S.short source.old + shortages_in result }
    ensures same_images { HoldSame (S.holds_image source.old) (S.holds_image source.new) }
    ensures same_certificates { HoldSame (S.holds_certificate source.old) (S.holds_certificate source.new) }
{
    let image = source.image(alloc, folder)?;
    let certificate = source.certificate(alloc, certificate)?;
    bytes_are_low(&image);
    Ok(PackageFiles { image, certificate })
}

/// Loads a package.
fn load(card: &mut Card, alloc: Global, files: &PackageFiles) -> CommandAnswer
    ensures { (c : CardState) → Holds card.old c
        → LoadsAs c files.now.image.items files.now.certificate.items (shown result) card.new }
{
    match card.load(alloc, &files.image, &files.certificate) {
        Ok(number) => CommandAnswer::Loaded(number),
        Err(fault) => CommandAnswer::NotLoaded(fault),
    }
}

/// Installs an applet.
fn install(card: &mut Card, applet: &Aid, instance: &Aid, incoming: &[u8]) -> CommandAnswer
    ensures { Does card.old card.new (λ outcome. shown result ≡ install_answer outcome)
        (λ c. install_command c applet.now instance.now incoming.now) }
{
    match card.install(applet, instance, incoming) {
        Ok(number) => CommandAnswer::Installed(number),
        Err(fault) => CommandAnswer::NotInstalled(fault),
    }
}

/// Performs a command of a reader.
fn respond(card: &mut Card, bytes: &[u8]) -> CommandAnswer
    ensures { Does card.old card.new (λ response. shown result ≡ Responds response) (λ c. apdu_command c bytes.now) }
{
    CommandAnswer::Responds(card.apdu(bytes))
}

/// How many cells are used, and how many there may be.
fn cells(card: &Card) -> CommandAnswer
    ensures { (c : CardState) → Holds card.now c → shown result ≡ answers.Cells (cells_in c.heap) c.limits.cells }
{
    CommandAnswer::Cells {
        used: card.cells_used(),
        most: card.most_cells(),
    }
}

/// How many objects there are, and how many there may be.
fn objects(card: &Card) -> CommandAnswer
    ensures { (c : CardState) → Holds card.now c → shown result ≡ answers.Objects (length c.heap) c.limits.objects }
{
    CommandAnswer::Objects {
        used: card.objects_used(),
        most: card.most_objects(),
    }
}

/// Sets how many steps a call may make from now on.
fn set_steps(card: &mut Card, steps: u32) -> CommandAnswer
    ensures held { (c : CardState) → Holds card.old c → Holds card.new (with_steps c steps) }
    ensures answer { shown result ≡ answers.Steps steps }
{
    card.set_steps(steps);
    CommandAnswer::Steps(steps)
}

/// Performs a command on a card. Only a load can fail, and only with a fault of the source for one of its files. It
/// reads the image before the certificate, and both before anything is loaded.
pub fn perform<S: PackageSource>(
    card: &mut Card,
    alloc: Global,
    source: &mut S,
    command: &ScriptCommand<'_>,
) -> Result<CommandAnswer, SourceFault>
    requires few { S.failed source.old < 2 ^ 31 }
    requires few_short { S.short source.old < 2 ^ 31 }
    ensures done { IfOk result (λ answer. (c : CardState) → Holds card.old c
        → Answers (S.holds_image source.old) (S.holds_certificate source.old) c (shown_command command.now)
        (shown answer) card.new) }
    ensures failed { IfErr result (λ fault. AsksSource (shown_command command.now)) }
    ensures failing { IfFailed result (IsFailingOf (S.failed_at source.new) (shown_command command.now)) }
    ensures kept { OnErr result (card.new ≡ card.old) }
    ensures asks { OnOk result (Asks (S.asked source.old) (S.asked source.new) (asked_by (shown_command command.now))) }
    ensures counted { S.failed source.new ≡ S.failed source.old + failures_in result }
    ensures counted_short { S.short source.new ≡ S.short source.old + shortages_in result }
    ensures same_images { HoldSame (S.holds_image source.old) (S.holds_image source.new) }
    ensures same_certificates { HoldSame (S.holds_certificate source.old) (S.holds_certificate source.new) }
{
    match command {
        ScriptCommand::Load {
            folder,
            certificate,
        } => {
            let files = files_of(alloc, source, folder, certificate)?;
            Ok(load(card, alloc, &files))
        }
        ScriptCommand::Install {
            applet,
            instance,
            incoming,
        } => Ok(install(card, applet, instance, incoming)),
        ScriptCommand::Apdu(bytes) => Ok(respond(card, bytes)),
        ScriptCommand::Reset => {
            card.reset();
            Ok(CommandAnswer::Reset)
        }
        ScriptCommand::Cells => Ok(cells(card)),
        ScriptCommand::Objects => Ok(objects(card)),
        ScriptCommand::Steps(steps) => Ok(set_steps(card, *steps)),
    }
}
