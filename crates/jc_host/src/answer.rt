//! The answers of `eval`.

ghost use Rattle.std.specs.Prelude.{Some};

use jc_base::Reason;
use std::fmt;

/// The answer to code with a certificate. Its text is the line that is printed.
#[derive(Clone, Copy, Debug, PartialEq, Eq)]
pub enum EvalAnswer {
    /// The short that the code returns.
    Value(i16),
    /// The code throws an ArithmeticException.
    Throws,
    /// The certificate doesn't carry the code: the first fault, at a pc.
    Refused { pc: u16, reason: Reason },
    /// The bytes encode no certificate.
    BadCertificate,
    /// The code didn't end within the given steps.
    StepsUsedUp,
    /// No memory was left.
    Memory,
}

impl fmt::Display for EvalAnswer {
    ghost use Rattle.std.specs.Prelude.{Some};
    ghost use Rattle.jc_host.specs.Answer.{line_of};

    ghost output = { λ answer. Some (line_of answer) };

    fn fmt<W: fmt::Write>(&self, f: &mut fmt::Formatter<W>) -> fmt::Result {
        match self {
            EvalAnswer::Value(value) => write!(f, "value {value}"),
            EvalAnswer::Throws => write!(f, "throws ArithmeticException"),
            EvalAnswer::Refused { pc, reason } => write!(f, "refused pc {pc} {reason}"),
            EvalAnswer::BadCertificate => write!(f, "bad certificate"),
            EvalAnswer::StepsUsedUp => write!(f, "steps used up"),
            EvalAnswer::Memory => write!(f, "out of memory"),
        }
    }
}
