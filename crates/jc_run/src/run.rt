//! Playing scripts line by line.

ghost use Rattle.std.specs.Prelude.{false, ◌≡◌, ◌+◌, ◌-◌, ◌<◌, ◌≤◌, ◌^◌, ℕ, List, Some, IfOk, IfErr, IsErr, OnOk};
ghost use Rattle.std.specs.Prelude.{length};
ghost use Rattle.jc_machine.specs.Limits.{are_limits};
ghost use Rattle.jc_card.specs.Card.{CardState};
ghost use Rattle.jc_card.specs.Reads.{Holds};
ghost use Rattle.jc_source.specs.Source.{HoldSame};
ghost use Rattle.jc_run.specs.End.{end_of, end_of_fault};
ghost use Rattle.jc_run.specs.Performs.{HasRun, PlaysOn};
ghost use Rattle.jc_run.specs.Play.{BadLimits, failures_at};
ghost use Rattle.jc_run.specs.PrivatePlay.{IsLineDone, IsEnd, IsLineEnd, IsRead, IsUnread, IsUnreadSoFar, PlaysFrom};
ghost use Rattle.jc_run.specs.PrivatePlay.{Turns};
ghost use Rattle.jc_run.specs.EndCauses.{IsUnreadable, IsUnwritable, end_causes};
ghost use Rattle.jc_run.specs.Reports.{AreTold};
ghost use Rattle.jc_script.specs.Faults.{fault_in};
ghost use Rattle.jc_script.specs.Reading.{pending};
ghost use Rattle.jc_script.specs.Script as script;
ghost use Rattle.jc_script.specs.Shown.{shown_command};
ghost use Rattle.jc_script.specs.Whole.{unread_fault};
ghost use Rattle.jc_script.specs.declared.finding.Dialect.TheVariants as dialects;

use crate::command::perform;
use crate::fault::ScriptFault;
use crate::lawful::commands_are_lawful;
use crate::telling::Teller;
use crate::writing::write_answer;
use jc_api::Binding;
use jc_card::Card;
use jc_machine::Limits;
use jc_script::{
    Dialect, LineCause, LineFault, MOST_BYTES, MOST_IN_LINE, MOST_LINES, NextLine, ScriptCommand,
    ScriptLine, ScriptReader, fault_in, said_by,
};
use jc_source::{PackageSource, SourceFault};
use jc_streams::{Input, Output};
use std::alloc::Global;

/// Performs the command of the line with a number, and writes its answer.
fn play_command<W: Output, S: PackageSource, T: Teller<S>>(
    alloc: Global,
    writer: &mut W,
    source: &mut S,
    card: &mut Card,
    teller: &mut T,
    command: &ScriptCommand<'_>,
    number: u32,
) -> Result<(), ScriptFault>
    requires few { S.failed source.old < 2 ^ 31 }
    requires few_short { S.short source.old < 2 ^ 31 }
    ensures done { OnOk result ((c : CardState) (before : List ℕ) → Holds card.old c
        → W.contents writer.old ≡ Some before
        → IsLineDone (S.holds_image source.old) (S.holds_certificate source.old)
        (AreTold T.tells teller.old teller.new) c number (script.Asks (shown_command command.now)) card.new before
        (W.contents writer.new)) }
    ensures none_told { IsErr result → teller.new ≡ teller.old }
    ensures none_short { OnOk result (S.short source.new ≡ S.short source.old) }
    ensures writes { W.calls writer.old ≤ W.calls writer.new }
    ensures written { OnOk result (W.faults writer.new ≡ W.faults writer.old) }
    ensures ended { IfErr result (λ fault. (c : CardState) (before : List ℕ) (told : LineFault) → Holds card.old c
        → W.contents writer.old ≡ Some before
        → IsLineEnd (S.holds_image source.old) (S.holds_certificate source.old)
        (S.failed_at source.new) (S.short source.new - S.short source.old)
        (IsUnwritable (W.calls writer.old) (W.calls writer.new) (W.faults writer.old) (W.faults writer.new)) c number
        told
        (script.Asks (shown_command command.now)) before (W.contents writer.new) (end_of_fault fault)) }
    ensures counted { S.failed source.new ≡ S.failed source.old + failures_at (end_of result) }
    ensures same_images { HoldSame (S.holds_image source.old) (S.holds_image source.new) }
    ensures same_certificates { HoldSame (S.holds_certificate source.old) (S.holds_certificate source.new) }
{
    let answer = match perform(card, alloc, source, command) {
        Ok(answer) => answer,
        Err(SourceFault::Failed) => return Err(ScriptFault::Source(number)),
        Err(SourceFault::Memory) => return Err(ScriptFault::Memory),
    };
    match write_answer(writer, &answer) {
        Ok(()) => {
            teller.answered(u64::from(number), &answer, card.stopped());
            Ok(())
        }
        Err(error) => Err(ScriptFault::Write(error)),
    }
}

/// Plays the line with a number.
fn play_line<W: Output, S: PackageSource, T: Teller<S>>(
    alloc: Global,
    writer: &mut W,
    source: &mut S,
    card: &mut Card,
    teller: &mut T,
    line: &[u8],
    number: u32,
) -> Result<(), ScriptFault>
    requires few { S.failed source.old < 2 ^ 31 }
    requires few_short { S.short source.old < 2 ^ 31 }
    requires short { length line.now ≤ 1024 }
    ensures done { OnOk result ((c : CardState) (before : List ℕ) → Holds card.old c
        → W.contents writer.old ≡ Some before
        → IsLineDone (S.holds_image source.old) (S.holds_certificate source.old)
        (AreTold T.tells teller.old teller.new) c number (script.said_by line.now) card.new before
        (W.contents writer.new)) }
    ensures none_told { IsErr result → teller.new ≡ teller.old }
    ensures none_short { OnOk result (S.short source.new ≡ S.short source.old) }
    ensures writes { W.calls writer.old ≤ W.calls writer.new }
    ensures written { OnOk result (W.faults writer.new ≡ W.faults writer.old) }
    ensures ended { IfErr result (λ fault. (c : CardState) (before : List ℕ) → Holds card.old c
        → W.contents writer.old ≡ Some before
        → IsLineEnd (S.holds_image source.old) (S.holds_certificate source.old)
        (S.failed_at source.new) (S.short source.new - S.short source.old)
        (IsUnwritable (W.calls writer.old) (W.calls writer.new) (W.faults writer.old) (W.faults writer.new)) c number
        (fault_in dialects.Script line.now) (script.said_by line.now) before (W.contents writer.new)
        (end_of_fault fault)) }
    ensures counted { S.failed source.new ≡ S.failed source.old + failures_at (end_of result) }
    ensures same_images { HoldSame (S.holds_image source.old) (S.holds_image source.new) }
    ensures same_certificates { HoldSame (S.holds_certificate source.old) (S.holds_certificate source.new) }
{
    let mut room = [0; MOST_BYTES];
    match said_by(line, &mut room) {
        ScriptLine::Skipped => Ok(()),
        ScriptLine::Asks(command) => {
            play_command(alloc, writer, source, card, teller, &command, number)
        },
        ScriptLine::Bad => Err(ScriptFault::BadLine {
            number,
            fault: fault_in(Dialect::Script, line),
        }),
    }
}

/// The fault of a line that isn't read whole: its number is too great, or it is too long.
fn unread_fault(number: u32) -> LineFault
    ensures { result ≡ unread_fault number }
{
    if number > MOST_LINES {
        LineFault {
            cause: LineCause::TooMany,
            column: 1,
        }
    } else {
        LineFault {
            cause: LineCause::TooLong,
            column: MOST_IN_LINE + 1,
        }
    }
}

/// Reads the line with a number, and returns whether there is one.
fn read_line<R: Input>(
    reader: &mut R,
    lines: &mut ScriptReader,
    number: u32,
) -> Result<bool, ScriptFault>
    ensures read { IfOk result (λ is_line. (bytes : List ℕ)
        → pending lines.old.unread (R.remaining reader.old) ≡ Some bytes
        → IsRead number lines.new.line bytes (pending lines.new.unread (R.remaining reader.new)) is_line) }
    ensures unread { IfErr result (λ fault. (bytes : List ℕ)
        → pending lines.old.unread (R.remaining reader.old) ≡ Some bytes
        → IsUnread (IsUnreadSoFar (R.faults reader.old) (R.faults reader.new) lines.new.calls) number bytes
        (end_of_fault fault)) }
    ensures called { R.calls reader.new + lines.old.calls ≡ R.calls reader.old + lines.new.calls }
    ensures working { OnOk result (R.faults reader.new ≡ R.faults reader.old) }
    ensures counted { IfErr result (λ fault. failures_at (end_of_fault fault) ≡ 0) }
{
    match lines.next(reader, number)? {
        NextLine::Line => Ok(true),
        NextLine::End => Ok(false),
        NextLine::Bad => Err(ScriptFault::BadLine {
            number,
            fault: unread_fault(number),
        }),
    }
}

/// Reads and plays the line with a number, and returns whether there is one.
fn play_next<R: Input, W: Output, S: PackageSource, T: Teller<S>>(
    alloc: Global,
    reader: &mut R,
    writer: &mut W,
    source: &mut S,
    card: &mut Card,
    teller: &mut T,
    lines: &mut ScriptReader,
    number: u32,
) -> Result<bool, ScriptFault>
    requires few { S.failed source.old < 2 ^ 31 }
    requires few_short { S.short source.old < 2 ^ 31 }
    ensures done { IfOk result (λ is_line. (c : CardState) (bytes before : List ℕ) → Holds card.old c
        → pending lines.old.unread (R.remaining reader.old) ≡ Some bytes → W.contents writer.old ≡ Some before
        → Turns (S.holds_image source.old) (S.holds_certificate source.old)
        (end_causes (S.failed_at source.new) (S.short source.old) (S.short source.new)
        (IsUnreadSoFar (R.faults reader.old) (R.faults reader.new) lines.new.calls)
        (IsUnwritable (W.calls writer.old) (W.calls writer.new) (W.faults writer.old) (W.faults writer.new)))
        (AreTold T.tells teller.old teller.new) number bytes c card.new
        (pending lines.new.unread (R.remaining reader.new)) before (W.contents writer.new) is_line) }
    ensures ended { IfErr result (λ fault. (c : CardState) (bytes before : List ℕ) → Holds card.old c
        → pending lines.old.unread (R.remaining reader.old) ≡ Some bytes → W.contents writer.old ≡ Some before
        → PlaysFrom (S.holds_image source.old) (S.holds_certificate source.old)
        (end_causes (S.failed_at source.new) (S.short source.old) (S.short source.new)
        (IsUnreadSoFar (R.faults reader.old) (R.faults reader.new) lines.new.calls)
        (IsUnwritable (W.calls writer.old) (W.calls writer.new) (W.faults writer.old) (W.faults writer.new)))
        (AreTold T.tells teller.old teller.new) number bytes c before (W.contents writer.new)
        (end_of_fault fault)) }
    ensures called { R.calls reader.new + lines.old.calls ≡ R.calls reader.old + lines.new.calls }
    ensures working { OnOk result (R.faults reader.new ≡ R.faults reader.old) }
    ensures writes { W.calls writer.old ≤ W.calls writer.new }
    ensures written { OnOk result (W.faults writer.new ≡ W.faults writer.old) }
    ensures none_failed { IfOk result (λ is_line. S.failed source.new ≡ S.failed source.old) }
    ensures none_short { IfOk result (λ is_line. S.short source.new ≡ S.short source.old) }
    ensures counted { IfErr result (λ fault.
        S.failed source.new ≡ S.failed source.old + failures_at (end_of_fault fault)) }
    ensures same_images { HoldSame (S.holds_image source.old) (S.holds_image source.new) }
    ensures same_certificates { HoldSame (S.holds_certificate source.old) (S.holds_certificate source.new) }
{
    if !read_line(reader, lines, number)? {
        return Ok(false);
    }
    play_line(alloc, writer, source, card, teller, lines.line(), number)?;
    Ok(true)
}

/// Reads past the last line that a script may have: nothing follows, or a bad line.
fn play_end<R: Input>(
    reader: &mut R,
    lines: &mut ScriptReader,
    number: u32,
) -> Result<(), ScriptFault>
    requires { 100000 < number }
    ensures ended { (bytes : List ℕ) → pending lines.old.unread (R.remaining reader.old) ≡ Some bytes
        → IsEnd (IsUnreadSoFar (R.faults reader.old) (R.faults reader.new) lines.new.calls) number bytes
        (end_of result) }
    ensures called { R.calls reader.new + lines.old.calls ≡ R.calls reader.old + lines.new.calls }
    ensures counted { failures_at (end_of result) ≡ 0 }
{
    if read_line(reader, lines, number)? {
        Err(ScriptFault::BadLine {
            number,
            fault: unread_fault(number),
        })
    } else {
        Ok(())
    }
}

/// Plays a script on a card. It reads a line after the answer to the one before it is written and flushed. Each answer
/// has a line of its own. If it fails, the lines before are written, and if the writer fails, a part of the line that
/// couldn't be written. After each answer it informs the teller.
pub fn play<R: Input, W: Output, S: PackageSource, T: Teller<S>>(
    alloc: Global,
    reader: &mut R,
    writer: &mut W,
    source: &mut S,
    card: &mut Card,
    teller: &mut T,
) -> Result<(), ScriptFault>
    requires few { S.failed source.old < 2 ^ 31 }
    requires few_short { S.short source.old < 2 ^ 31 }
    ensures played { (c : CardState) (bytes before : List ℕ) → Holds card.old c
        → R.remaining reader.old ≡ Some bytes → W.contents writer.old ≡ Some before
        → PlaysOn (S.holds_image source.old) (S.holds_certificate source.old)
        (end_causes (S.failed_at source.new) (S.short source.old) (S.short source.new)
        (IsUnreadable (R.calls reader.old) (R.calls reader.new) (R.faults reader.old) (R.faults reader.new))
        (IsUnwritable (W.calls writer.old) (W.calls writer.new) (W.faults writer.old) (W.faults writer.new)))
        (AreTold T.tells teller.old teller.new) bytes c before (W.contents writer.new) (end_of result) }
    ensures counted { S.failed source.new ≡ S.failed source.old + failures_at (end_of result) }
    ensures same_images { HoldSame (S.holds_image source.old) (S.holds_image source.new) }
    ensures same_certificates { HoldSame (S.holds_certificate source.old) (S.holds_certificate source.new) }
{
    let mut lines = ScriptReader::new();
    let mut number = 1;
    while number <= MOST_LINES {
        if !play_next(
            alloc, reader, writer, source, card, teller, &mut lines, number,
        )? {
            return Ok(());
        }
        number += 1;
    }
    play_end(reader, &mut lines, number)
}

/// Plays a script on a new card with only the API's packages, with the AIDs and tokens of a binding, and within limits.
/// It reads nothing if the limits are too small or too large.
pub fn run_script<R: Input, W: Output, S: PackageSource, T: Teller<S>>(
    alloc: Global,
    reader: &mut R,
    writer: &mut W,
    source: &mut S,
    teller: &mut T,
    limits: Limits,
    binding: &Binding,
) -> Result<(), ScriptFault>
    requires few { S.failed source.old < 2 ^ 31 }
    requires few_short { S.short source.old < 2 ^ 31 }
    ensures run { (bytes before : List ℕ) → R.remaining reader.old ≡ Some bytes → W.contents writer.old ≡ Some before
        → HasRun (S.holds_image source.old) (S.holds_certificate source.old)
        (end_causes (S.failed_at source.new) (S.short source.old) (S.short source.new)
        (IsUnreadable (R.calls reader.old) (R.calls reader.new) (R.faults reader.old) (R.faults reader.new))
        (IsUnwritable (W.calls writer.old) (W.calls writer.new) (W.faults writer.old) (W.faults writer.new)))
        (AreTold T.tells teller.old teller.new) limits binding.now bytes before (W.contents writer.new)
        (end_of result) }
    ensures limits { are_limits limits ≡ false → (end_of result ≡ BadLimits)
        × (R.remaining reader.new ≡ R.remaining reader.old) × (W.contents writer.new ≡ W.contents writer.old)
        × (teller.new ≡ teller.old) }
    ensures counted { S.failed source.new ≡ S.failed source.old + failures_at (end_of result) }
    ensures same_images { HoldSame (S.holds_image source.old) (S.holds_image source.new) }
    ensures same_certificates { HoldSame (S.holds_certificate source.old) (S.holds_certificate source.new) }
{
    commands_are_lawful();
    binding.has_no_clash();
    let mut card = Card::new(alloc, limits, binding)?;
    play(alloc, reader, writer, source, &mut card, teller)
}
