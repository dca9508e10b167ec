//! The answers of `verify`.

use jc_base::LoadFault;
use jc_check::Fault;
use std::fmt;

/// The answer to a package. Its text is the line that is printed.
#[derive(Debug, Drop)]
pub enum VerifyAnswer {
    /// The bytes of a certificate that carries the package.
    Certificate(Vec<u8>),
    /// No certificate carries the package. The method with its header at an offset of the Method component is the first
    /// that no states carry, and the fault is where its inference ends.
    NoCertificate { method: u16, fault: Fault },
    /// The package, or the first of those before it, isn't linked.
    Refused(LoadFault),
    /// No memory was left.
    Memory,
}

impl fmt::Display for VerifyAnswer {
    ghost use Rattle.std.specs.Prelude.{Some};
    ghost use Rattle.jc_offcard.specs.Answer.{verify_line_of};

    ghost output = { λ answer. Some (verify_line_of answer) };

    fn fmt<W: fmt::Write>(&self, f: &mut fmt::Formatter<W>) -> fmt::Result {
        match self {
            VerifyAnswer::Certificate(bytes) => write!(f, "certificate {} bytes", bytes.len()),
            VerifyAnswer::NoCertificate { method, .. } => write!(f, "no certificate {method}"),
            VerifyAnswer::Refused(fault) => write!(f, "refused {fault}"),
            VerifyAnswer::Memory => write!(f, "out of memory"),
        }
    }
}
