//! Reports on standard error about the lines of a script or a session.

ghost use Rattle.std.specs.Prelude.{◌≡◌, ◌++◌, None, Some, IsErr, IsOk, codes, false, option_map, true};
ghost use Rattle.std.specs.Fmt.{decimal};
ghost use Rattle.jc_run.specs.Answer.{shown};
ghost use Rattle.jc_telling.specs.Explanation.{cause_text};
ghost use Rattle.jcard.specs.Telling.{IsLineSaid, IsSaid, answer_cause, bad_line, cause_line, install_cause};
ghost use Rattle.jc_run.specs.declared.refusal.LineRefusal.TheVariants.{Unread};
ghost use Rattle.jcard.specs.Telling.{refusal_line, short_line};

use jc_card::{Cause, InstallFault};
use jc_host::{Faults, FileSource, Files};
use jc_interp::ShownFrame;
use jc_machine::Limits;
use jc_run::{CommandAnswer, LineRefusal, Teller};
use jc_script::LineFault;
use jc_source::SourceFault;
use jc_telling::Explanation;
use std::fmt;
use std::io::{self, Write};
use std::marker::Model;

/// Reports which lines of a session were refused, and why; and, if `explains` holds, why a call of an applet didn't end
/// normally, and in which frame. It keeps whether it couldn't write a line.
#[derive(Drop)]
pub struct LineTeller<E: Write> {
    errors: E,
    limits: Limits,
    explains: bool,
    failed: bool,
}

impl<E: Write> Model for LineTeller<E> {
    ghost use Rattle.jcard.specs.Telling.{TellerState};

    ghost Value = { TellerState E };

    ghost view = { λ t. record {
      errors = t.errors;
      limits = t.limits;
      explains = t.explains;
      failed = t.failed;
    } };
}

impl<E: Write> LineTeller<E> {
    /// A teller for a card with these limits.
    pub fn new(errors: E, limits: Limits, explains: bool) -> LineTeller<E>
        ensures { result ≡ record { errors = errors; limits = limits; explains = explains; failed = false } }
    {
        LineTeller {
            errors,
            limits,
            explains,
            failed: false,
        }
    }

    // Keeps whether a line couldn't be written.
    fn keep(&mut self, written: &io::Result<()>)
        ensures errors { self.new.errors ≡ self.old.errors }
        ensures limits { self.new.limits ≡ self.old.limits }
        ensures explains { self.new.explains ≡ self.old.explains }
        ensures failed { IsErr written.now → self.new.failed ≡ true }
        ensures same { IsOk written.now → self.new.failed ≡ self.old.failed }
    {
        if written.is_err() {
            self.failed = true;
        }
    }

    // Reports why a line is refused.
    fn tell_fault(&mut self, number: u64, fault: LineFault)
        ensures limits { self.new.limits ≡ self.old.limits }
        ensures explains { self.new.explains ≡ self.old.explains }
        ensures said { IsSaid E.contents self.old self.new (Some (bad_line number fault)) }
    {
        let line = BadLine { number, fault };
        let written = writeln!(self.errors, "{line}");
        self.keep(&written);
    }

    // Reports which file of a line can't be read, and why.
    fn tell_source<F: Files, T: Faults>(&mut self, number: u64, source: &FileSource<'_, F, T>)
        ensures limits { self.new.limits ≡ self.old.limits }
        ensures explains { self.new.explains ≡ self.old.explains }
        ensures said { IsSaid E.contents self.old self.new None }
    {
        let written = match source.fault() {
            Some(fault) => writeln!(self.errors, "error: line {number}: {fault}"),
            None => writeln!(self.errors, "error: line {number}: a file can't be read"),
        };
        self.keep(&written);
    }

    // Reports that memory ran out for a line.
    fn tell_memory(&mut self, number: u64)
        ensures limits { self.new.limits ≡ self.old.limits }
        ensures explains { self.new.explains ≡ self.old.explains }
        ensures said { IsSaid E.contents self.old self.new (Some (short_line number)) }
    {
        let line = ShortLine { number };
        let written = writeln!(self.errors, "{line}");
        self.keep(&written);
    }

    // Reports why a load's files aren't read.
    fn tell_unread<F: Files, T: Faults>(
        &mut self,
        number: u64,
        fault: SourceFault,
        source: &FileSource<'_, F, T>,
    )
        ensures limits { self.new.limits ≡ self.old.limits }
        ensures explains { self.new.explains ≡ self.old.explains }
        ensures said { IsSaid E.contents self.old self.new (refusal_line number (Unread fault)) }
    {
        match fault {
            SourceFault::Failed => self.tell_source(number, source),
            SourceFault::Memory => self.tell_memory(number),
        }
    }

    // Reports why a call of a line didn't end normally, and the frame in which it stopped.
    fn explain(&mut self, number: u64, cause: Cause, stopped: Option<&ShownFrame>)
        ensures limits { self.new.limits ≡ self.old.limits }
        ensures explains { self.new.explains ≡ self.old.explains }
        ensures said { IsSaid E.contents self.old self.new (Some (((codes "line " ++ decimal number) ++ codes ": ")
            ++ cause_text cause (option_map (λ frame. frame.now) stopped.entry) self.old.limits)) }
    {
        let explanation = Explanation {
            cause,
            stopped,
            limits: self.limits,
        };
        let written = writeln!(self.errors, "line {number}: {explanation}");
        self.keep(&written);
    }

    // Reports why a call of a line didn't end normally, if it didn't.
    fn explain_any(&mut self, number: u64, cause: Option<Cause>, stopped: Option<&ShownFrame>)
        ensures limits { self.new.limits ≡ self.old.limits }
        ensures explains { self.new.explains ≡ self.old.explains }
        ensures said { IsLineSaid E.contents self.old self.new
            (cause_line self.old.limits number (option_map (λ frame. frame.now) stopped.entry) cause) }
    {
        if let Some(cause) = cause {
            self.explain(number, cause, stopped);
        }
    }
}

/// A line of a session that is no command.
#[derive(Clone, Copy)]
struct BadLine {
    number: u64,
    fault: LineFault,
}

impl fmt::Display for BadLine {
    ghost use Rattle.std.specs.Prelude.{Some};
    ghost use Rattle.jcard.specs.Telling.{bad_line};

    ghost output = { λ line. Some (bad_line line.number line.fault) };

    fn fmt<W: fmt::Write>(&self, f: &mut fmt::Formatter<W>) -> fmt::Result {
        write!(f, "error: line {}, {}", self.number, self.fault)
    }
}

/// A load of a session for which memory ran out.
#[derive(Clone, Copy)]
struct ShortLine {
    number: u64,
}

impl fmt::Display for ShortLine {
    ghost use Rattle.std.specs.Prelude.{Some};
    ghost use Rattle.jc_run.specs.declared.refusal.LineRefusal.TheVariants.{Unread};
    ghost use Rattle.jcard.specs.Telling.{refusal_line, short_line};

    ghost output = { λ line. Some (short_line line.number) };

    fn fmt<W: fmt::Write>(&self, f: &mut fmt::Formatter<W>) -> fmt::Result {
        write!(f, "error: line {}: out of memory", self.number)
    }
}

/// Why the call of an install method didn't end normally, if one didn't.
fn install_cause(fault: InstallFault) -> Option<Cause>
    ensures { result ≡ install_cause fault }
{
    match fault {
        InstallFault::UnknownApplet
        | InstallFault::TooLong
        | InstallFault::AidInUse
        | InstallFault::NoInstance => None,
        InstallFault::InstallFailed(failure) => failure.cause,
    }
}

/// Why a call of an applet didn't end normally, if one didn't.
fn answer_cause(answer: &CommandAnswer) -> Option<Cause>
    ensures { result ≡ answer_cause (shown answer.now) }
{
    match answer {
        CommandAnswer::Responds(answer) => answer.cause,
        CommandAnswer::NotInstalled(fault) => install_cause(*fault),
        CommandAnswer::Loaded(_)
        | CommandAnswer::NotLoaded(_)
        | CommandAnswer::Installed(_)
        | CommandAnswer::Reset
        | CommandAnswer::Cells { .. }
        | CommandAnswer::Objects { .. }
        | CommandAnswer::Steps(_) => None,
    }
}

impl<'a, F: Files, T: Faults, E: Write> Teller<FileSource<'a, F, T>> for LineTeller<E> {
    ghost use Rattle.jcard.specs.Telling.{Tells};

    ghost tells = { Tells E.contents };

    fn answered(&mut self, number: u64, answer: &CommandAnswer, stopped: Option<&ShownFrame>) {
        if self.explains {
            self.explain_any(number, answer_cause(answer), stopped);
        }
        if let CommandAnswer::Steps(steps) = answer {
            self.limits.steps = *steps;
        }
    }

    fn refused(&mut self, number: u64, refusal: &LineRefusal, source: &FileSource<'a, F, T>) {
        match refusal {
            LineRefusal::Bad(fault) => self.tell_fault(number, *fault),
            LineRefusal::Unread(fault) => self.tell_unread(number, *fault, source),
        }
    }
}
