//! Why a method is refused.

ghost use Rattle.std.specs.Prelude.{◌≡◌, Some};
ghost use Rattle.jc_base.specs.Reason.{name_of};

use std::fmt;

/// Why a method isn't accepted at a pc.
#[derive(Clone, Copy, Debug, PartialEq, Eq)]
pub enum Reason {
    /// No instruction of the profile has this opcode.
    BadOpcode,
    /// An operand byte, or what it names, is invalid for the instruction.
    BadOperand,
    /// The code ends within the instruction.
    CutShort,
    /// The method has no such local.
    BadLocal,
    /// The operand stack has fewer operands than the instruction takes.
    StackUnder,
    /// A local or an operand has a type that the instruction doesn't take.
    WrongType,
    /// There would be more operands than the method's maximum.
    StackOver,
    /// A branch leads to a place at which no instruction begins.
    NoTarget,
    /// What holds at a place doesn't match the certificate.
    CertMismatch,
    /// Execution would go on past the last instruction.
    FallsOff,
}

impl Reason {
    /// The name that is printed.
    pub fn name(self) -> &'static str
        ensures { result.now ≡ name_of self }
    {
        match self {
            Reason::BadOpcode => "BadOpcode",
            Reason::BadOperand => "BadOperand",
            Reason::CutShort => "CutShort",
            Reason::BadLocal => "BadLocal",
            Reason::StackUnder => "StackUnder",
            Reason::WrongType => "WrongType",
            Reason::StackOver => "StackOver",
            Reason::NoTarget => "NoTarget",
            Reason::CertMismatch => "CertMismatch",
            Reason::FallsOff => "FallsOff",
        }
    }
}

impl fmt::Display for Reason {
    ghost output = { λ r. Some (name_of r) };

    fn fmt<W: fmt::Write>(&self, f: &mut fmt::Formatter<W>) -> fmt::Result {
        f.write_str(self.name())
    }
}
