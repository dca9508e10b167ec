//! The line of a report.

use crate::denial::Throw;
use crate::frame::{Index, Stopped, index_of};
use crate::place::{Place, Spent};
use crate::thrown::Thrown;
use jc_card::Cause;
use jc_interp::ShownFrame;
use jc_machine::Limits;
use std::fmt;

/// Why a call of an applet didn't end normally. Its `Display` prints one line without a line feed.
#[derive(Drop)]
pub struct Explanation<'a> {
    pub cause: Cause,
    /// The frame in which the call stopped, if it may be shown.
    pub stopped: Option<&'a ShownFrame>,
    /// The limits of the card.
    pub limits: Limits,
}

impl<'a> fmt::Display for Explanation<'a> {
    ghost use Rattle.std.specs.Prelude.{Some};
    ghost use Rattle.jc_telling.specs.Explanation.{explanation_text};

    ghost output = { λ e. Some (explanation_text e) };

    fn fmt<W: fmt::Write>(&self, f: &mut fmt::Formatter<W>) -> fmt::Result {
        let frame = Stopped {
            frame: self.stopped,
        };
        match self.cause {
            Cause::Threw {
                object,
                reason,
                at,
                denial,
            } => {
                let thrown = Thrown { object, reason };
                let index = Index {
                    fault: index_of(self.stopped),
                };
                let throw = Throw { denial, at };
                write!(f, "{thrown}{index}{throw}{frame}")
            }
            Cause::RanOut { spent, at } => {
                let spent = Spent {
                    budget: spent,
                    limits: self.limits,
                };
                write!(f, "{spent}{}{frame}", Place { before: ", ", at })
            }
            Cause::NotRegistered => write!(f, "install: no register"),
        }
    }
}
