//! Sessions: lines that are answered one by one, on a card that stays after a refused line.

ghost use Rattle.std.specs.Prelude.{false, true, ◌≡◌, ◌⊎◌, ◌+◌, ◌<◌, ◌≤◌, ◌^◌, ℕ, List, Some, IfOk, IfErr, IsErr, OnOk};
ghost use Rattle.std.specs.Prelude.{length};
ghost use Rattle.jc_machine.specs.Limits.{are_limits};
ghost use Rattle.jc_card.specs.Card.{CardState};
ghost use Rattle.jc_card.specs.Reads.{Holds};
ghost use Rattle.jc_source.specs.Source.{HoldSame};
ghost use Rattle.jc_run.specs.End.{end_of, end_of_fault};
ghost use Rattle.jc_run.specs.Play.{BadLimits};
ghost use Rattle.jc_run.specs.PrivatePlay.{IsUnreadSoFar};
ghost use Rattle.jc_run.specs.PrivateSession.{ConversesFrom, EndsLine, IsLineHeld, SessionTurns};
ghost use Rattle.jc_run.specs.EndCauses.{IsUnreadAt, IsUnreadable, IsUnwritable, session_causes};
ghost use Rattle.jc_run.specs.Reports.{AreTold};
ghost use Rattle.jc_run.specs.Session.{ConversesOn, HasHeld, fault_count};
ghost use Rattle.jc_script.specs.Faults.{fault_in};
ghost use Rattle.jc_script.specs.Reading.{pending};
ghost use Rattle.jc_script.specs.Script as script;
ghost use Rattle.jc_script.specs.Shown.{shown_command};
ghost use Rattle.jc_script.specs.declared.finding.Dialect.TheVariants as dialects;

use crate::command::perform;
use crate::fault::ScriptFault;
use crate::lawful::commands_are_lawful;
use crate::refusal::LineRefusal;
use crate::telling::Teller;
use crate::writing::write_answer;
use jc_api::Binding;
use jc_card::Card;
use jc_machine::Limits;
use jc_script::{
    Dialect, LineCause, LineFault, MOST_BYTES, MOST_IN_LINE, NextLine, ReadFault, ScriptCommand,
    ScriptLine, ScriptReader, fault_in, said_in_session,
};
use jc_source::PackageSource;
use jc_streams::{Input, Output};
use std::alloc::Global;

/// The most reads of a source that may fail, or run out of memory.
const MOST_FAULTS: u32 = 2_147_483_647;

/// A line that is too long.
const TOO_LONG: LineRefusal = LineRefusal::Bad(LineFault {
    cause: LineCause::TooLong,
    column: MOST_IN_LINE + 1,
});

/// Whether a source has counted as many faults as it may.
fn has_most_faults<S: PackageSource>(source: &S) -> bool
    ensures few { result ≡ false → S.failed source.now < 2 ^ 31 }
    ensures few_short { result ≡ false → S.short source.now < 2 ^ 31 }
    ensures most { result ≡ true → (2 ^ 31 ≤ S.failed source.now) ⊎ (2 ^ 31 ≤ S.short source.now) }
{
    source.failures() > MOST_FAULTS || source.shortages() > MOST_FAULTS
}

/// Performs a command and writes its answer, or reports that its files can't be read.
fn converse_command<W: Output, S: PackageSource, T: Teller<S>>(
    alloc: Global,
    writer: &mut W,
    source: &mut S,
    card: &mut Card,
    teller: &mut T,
    command: &ScriptCommand<'_>,
    number: u64,
) -> Result<(), ScriptFault>
    requires few { S.failed source.old < 2 ^ 31 }
    requires few_short { S.short source.old < 2 ^ 31 }
    ensures done { (fault : LineFault) → OnOk result ((c : CardState) (before : List ℕ) → Holds card.old c
        → W.contents writer.old ≡ Some before
        → IsLineHeld (S.holds_image source.old) (S.holds_certificate source.old)
        (fault_count (S.failed source.old) (S.short source.old) (S.failed source.new) (S.short source.new))
        (AreTold T.tells teller.old teller.new) c number fault (script.Asks (shown_command command.now)) card.new before
        (W.contents writer.new)) }
    ensures ended { IfErr result (λ fault. (c : CardState) (before : List ℕ) → Holds card.old c
        → W.contents writer.old ≡ Some before
        → EndsLine (S.holds_image source.old) (S.holds_certificate source.old)
        (IsUnwritable (W.calls writer.old) (W.calls writer.new) (W.faults writer.old) (W.faults writer.new)) c
        (script.Asks (shown_command command.now)) before (W.contents writer.new) (end_of_fault fault)) }
    ensures none_told { IsErr result → teller.new ≡ teller.old }
    ensures none_counted { IfErr result (λ fault. S.failed source.new ≡ S.failed source.old) }
    ensures none_short { IfErr result (λ fault. S.short source.new ≡ S.short source.old) }
    ensures writes { W.calls writer.old ≤ W.calls writer.new }
    ensures written { OnOk result (W.faults writer.new ≡ W.faults writer.old) }
    ensures same_images { HoldSame (S.holds_image source.old) (S.holds_image source.new) }
    ensures same_certificates { HoldSame (S.holds_certificate source.old) (S.holds_certificate source.new) }
{
    let answer = match perform(card, alloc, source, command) {
        Ok(answer) => answer,
        Err(fault) => {
            teller.refused(number, &LineRefusal::Unread(fault), source);
            return Ok(());
        }
    };
    match write_answer(writer, &answer) {
        Ok(()) => {
            teller.answered(number, &answer, card.stopped());
            Ok(())
        }
        Err(error) => Err(ScriptFault::Write(error)),
    }
}

/// Plays a line, or reports its fault.
fn converse_line<W: Output, S: PackageSource, T: Teller<S>>(
    alloc: Global,
    writer: &mut W,
    source: &mut S,
    card: &mut Card,
    teller: &mut T,
    line: &[u8],
    number: u64,
) -> Result<(), ScriptFault>
    requires few { S.failed source.old < 2 ^ 31 }
    requires few_short { S.short source.old < 2 ^ 31 }
    requires short { length line.now ≤ 1024 }
    ensures done { OnOk result ((c : CardState) (before : List ℕ) → Holds card.old c
        → W.contents writer.old ≡ Some before
        → IsLineHeld (S.holds_image source.old) (S.holds_certificate source.old)
        (fault_count (S.failed source.old) (S.short source.old) (S.failed source.new) (S.short source.new))
        (AreTold T.tells teller.old teller.new) c number (fault_in dialects.Session line.now)
        (script.said_in_session line.now) card.new before (W.contents writer.new)) }
    ensures ended { IfErr result (λ fault. (c : CardState) (before : List ℕ) → Holds card.old c
        → W.contents writer.old ≡ Some before
        → EndsLine (S.holds_image source.old) (S.holds_certificate source.old)
        (IsUnwritable (W.calls writer.old) (W.calls writer.new) (W.faults writer.old) (W.faults writer.new)) c
        (script.said_in_session line.now) before (W.contents writer.new) (end_of_fault fault)) }
    ensures none_told { IsErr result → teller.new ≡ teller.old }
    ensures none_counted { IfErr result (λ fault. S.failed source.new ≡ S.failed source.old) }
    ensures none_short { IfErr result (λ fault. S.short source.new ≡ S.short source.old) }
    ensures writes { W.calls writer.old ≤ W.calls writer.new }
    ensures written { OnOk result (W.faults writer.new ≡ W.faults writer.old) }
    ensures same_images { HoldSame (S.holds_image source.old) (S.holds_image source.new) }
    ensures same_certificates { HoldSame (S.holds_certificate source.old) (S.holds_certificate source.new) }
{
    let mut room = [0; MOST_BYTES];
    match said_in_session(line, &mut room) {
        ScriptLine::Skipped => Ok(()),
        ScriptLine::Asks(command) => {
            converse_command(alloc, writer, source, card, teller, &command, number)
        }
        ScriptLine::Bad => {
            let fault = fault_in(Dialect::Session, line);
            teller.refused(number, &LineRefusal::Bad(fault), source);
            Ok(())
        }
    }
}

/// Reads and plays a line, and returns whether there is one.
fn converse_next<R: Input, W: Output, S: PackageSource, T: Teller<S>>(
    alloc: Global,
    reader: &mut R,
    writer: &mut W,
    source: &mut S,
    card: &mut Card,
    teller: &mut T,
    lines: &mut ScriptReader,
    number: u64,
) -> Result<bool, ScriptFault>
    requires few { S.failed source.old < 2 ^ 31 }
    requires few_short { S.short source.old < 2 ^ 31 }
    ensures done { IfOk result (λ is_line. (c : CardState) (bytes before : List ℕ) → Holds card.old c
        → pending lines.old.unread (R.remaining reader.old) ≡ Some bytes → W.contents writer.old ≡ Some before
        → SessionTurns (S.holds_image source.old) (S.holds_certificate source.old)
        (session_causes (λ number. IsUnreadSoFar (R.faults reader.old) (R.faults reader.new) lines.new.calls)
        (IsUnwritable (W.calls writer.old) (W.calls writer.new) (W.faults writer.old) (W.faults writer.new)))
        (fault_count (S.failed source.old) (S.short source.old) (S.failed source.new) (S.short source.new))
        (AreTold T.tells teller.old teller.new) number bytes c card.new
        (pending lines.new.unread (R.remaining reader.new)) before (W.contents writer.new) is_line) }
    ensures ended { IfErr result (λ fault. (c : CardState) (bytes before : List ℕ) → Holds card.old c
        → pending lines.old.unread (R.remaining reader.old) ≡ Some bytes → W.contents writer.old ≡ Some before
        → ConversesFrom (S.holds_image source.old) (S.holds_certificate source.old)
        (session_causes (λ number. IsUnreadSoFar (R.faults reader.old) (R.faults reader.new) lines.new.calls)
        (IsUnwritable (W.calls writer.old) (W.calls writer.new) (W.faults writer.old) (W.faults writer.new)))
        (fault_count (S.failed source.old) (S.short source.old) (S.failed source.new) (S.short source.new))
        (AreTold T.tells teller.old teller.new) number bytes c before (W.contents writer.new)
        (end_of_fault fault)) }
    ensures called { R.calls reader.new + lines.old.calls ≡ R.calls reader.old + lines.new.calls }
    ensures working { OnOk result (R.faults reader.new ≡ R.faults reader.old) }
    ensures writes { W.calls writer.old ≤ W.calls writer.new }
    ensures written { OnOk result (W.faults writer.new ≡ W.faults writer.old) }
    ensures same_images { HoldSame (S.holds_image source.old) (S.holds_image source.new) }
    ensures same_certificates { HoldSame (S.holds_certificate source.old) (S.holds_certificate source.new) }
{
    match lines.next_in_session(reader)? {
        NextLine::End => Ok(false),
        NextLine::Bad => {
            teller.refused(number, &TOO_LONG, source);
            Ok(true)
        }
        NextLine::Line => {
            converse_line(alloc, writer, source, card, teller, lines.line(), number)?;
            Ok(true)
        }
    }
}

/// Answers lines on a card, one by one, to their end. It reads a line after the answer to the one before it is written
/// and flushed. It reports a line that is no command, or whose files can't be read, to the teller, and then reads the
/// next line.
pub fn converse<R: Input, W: Output, S: PackageSource, T: Teller<S>>(
    alloc: Global,
    reader: &mut R,
    writer: &mut W,
    source: &mut S,
    card: &mut Card,
    teller: &mut T,
) -> Result<(), ScriptFault>
    ensures held { (c : CardState) (bytes before : List ℕ) → Holds card.old c
        → R.remaining reader.old ≡ Some bytes → W.contents writer.old ≡ Some before
        → ConversesOn (S.holds_image source.old) (S.holds_certificate source.old)
        (session_causes (IsUnreadAt (IsUnreadable (R.calls reader.old) (R.calls reader.new) (R.faults reader.old)
        (R.faults reader.new)) (S.failed source.new) (S.short source.new))
        (IsUnwritable (W.calls writer.old) (W.calls writer.new) (W.faults writer.old) (W.faults writer.new)))
        (fault_count (S.failed source.old) (S.short source.old) (S.failed source.new) (S.short source.new))
        (AreTold T.tells teller.old teller.new) bytes c before (W.contents writer.new) (end_of result) }
    ensures same_images { HoldSame (S.holds_image source.old) (S.holds_image source.new) }
    ensures same_certificates { HoldSame (S.holds_certificate source.old) (S.holds_certificate source.new) }
{
    let mut lines = ScriptReader::new();
    let mut number = 1;
    while number < u64::MAX {
        if has_most_faults(source) {
            return Err(ScriptFault::Read(ReadFault::TooManyReads));
        }
        if !converse_next(
            alloc, reader, writer, source, card, teller, &mut lines, number,
        )? {
            return Ok(());
        }
        number += 1;
    }
    Err(ScriptFault::Read(ReadFault::TooManyReads))
}

/// Answers lines on a new card with only the API's packages, with the AIDs and tokens of a binding, and within limits.
/// It reads nothing if the limits are too small or too large.
pub fn run_session<R: Input, W: Output, S: PackageSource, T: Teller<S>>(
    alloc: Global,
    reader: &mut R,
    writer: &mut W,
    source: &mut S,
    teller: &mut T,
    limits: Limits,
    binding: &Binding,
) -> Result<(), ScriptFault>
    ensures held { (bytes before : List ℕ) → R.remaining reader.old ≡ Some bytes
        → W.contents writer.old ≡ Some before
        → HasHeld (S.holds_image source.old) (S.holds_certificate source.old)
        (session_causes (IsUnreadAt (IsUnreadable (R.calls reader.old) (R.calls reader.new) (R.faults reader.old)
        (R.faults reader.new)) (S.failed source.new) (S.short source.new))
        (IsUnwritable (W.calls writer.old) (W.calls writer.new) (W.faults writer.old) (W.faults writer.new)))
        (fault_count (S.failed source.old) (S.short source.old) (S.failed source.new) (S.short source.new))
        (AreTold T.tells teller.old teller.new) limits binding.now bytes before (W.contents writer.new)
        (end_of result) }
    ensures limits { are_limits limits ≡ false → (end_of result ≡ BadLimits)
        × (R.remaining reader.new ≡ R.remaining reader.old) × (W.contents writer.new ≡ W.contents writer.old)
        × (teller.new ≡ teller.old) }
    ensures same_images { HoldSame (S.holds_image source.old) (S.holds_image source.new) }
    ensures same_certificates { HoldSame (S.holds_certificate source.old) (S.holds_certificate source.new) }
{
    commands_are_lawful();
    binding.has_no_clash();
    let mut card = Card::new(alloc, limits, binding)?;
    converse(alloc, reader, writer, source, &mut card, teller)
}
