//! Reports besides the answers of lines.

ghost use Rattle.std.specs.Prelude.{option_map};
ghost use Rattle.jc_run.specs.Answer.{shown};
ghost use Rattle.jc_run.specs.Reports.{AnsweredLine, RefusedLine, Report};

use crate::answer::CommandAnswer;
use crate::refusal::LineRefusal;
use jc_interp::ShownFrame;

/// The receiver of reports besides the answers that are written. No result of a line depends on it.
pub trait Teller<S> {
    // What a report does to it.
    ghost tells: { Self → Report → Self → Type 0 };

    /// The line with a number, from 1 on, was answered. `stopped` is the frame in which the last call of an applet
    /// stopped, if it did.
    fn answered(&mut self, number: u64, answer: &CommandAnswer, stopped: Option<&ShownFrame>)
        ensures { tells self.old (AnsweredLine number (shown answer.now)
            (option_map (λ frame. frame.now) stopped.entry)) self.new };

    /// A line of a session wasn't answered, and the session goes on.
    fn refused(&mut self, number: u64, refusal: &LineRefusal, source: &S)
        ensures { tells self.old (RefusedLine number refusal.now) self.new };
}
