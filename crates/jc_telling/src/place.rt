//! The words for a place in code, and for a budget that was spent.

use jc_machine::{Budget, CodePoint, Limits};
use std::fmt;

/// A place in a package's code, behind some words, if there is one.
#[derive(Drop)]
pub(crate) struct Place {
    pub(crate) before: &'static str,
    pub(crate) at: Option<CodePoint>,
}

impl fmt::Display for Place {
    ghost use Rattle.std.specs.Prelude.{Some};
    ghost use Rattle.jc_telling.specs.Explanation.{point_text};

    ghost output = { λ p. Some (point_text p.before.now p.at) };

    fn fmt<W: fmt::Write>(&self, f: &mut fmt::Formatter<W>) -> fmt::Result {
        let before = self.before;
        match self.at {
            Some(point) => {
                let CodePoint {
                    package,
                    method,
                    pc,
                } = point;
                write!(f, "{before}package {package}, method {method}, pc {pc}")
            }
            None => Ok(()),
        }
    }
}

/// A budget that was spent, and its limit.
#[derive(Clone, Copy)]
pub(crate) struct Spent {
    pub(crate) budget: Budget,
    pub(crate) limits: Limits,
}

impl fmt::Display for Spent {
    ghost use Rattle.std.specs.Prelude.{Some};
    ghost use Rattle.jc_telling.specs.Explanation.{budget_text};

    ghost output = { λ s. Some (budget_text s.limits s.budget) };

    fn fmt<W: fmt::Write>(&self, f: &mut fmt::Formatter<W>) -> fmt::Result {
        let limits = self.limits;
        match self.budget {
            Budget::Steps => write!(f, "steps used up ({})", limits.steps),
            Budget::Frames => write!(f, "frames used up ({})", limits.frames),
            Budget::FrameWords => write!(f, "words of frames used up ({})", limits.frame_words),
        }
    }
}
