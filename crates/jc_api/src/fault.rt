//! Why a text isn't a binding.

use std::error::Error;
use std::fmt;

/// Why a text isn't a binding: the first fault in the order of the lines, which are numbered from 1 on. Its `Display`
/// prints the words.
#[derive(Clone, Copy, Debug, PartialEq, Eq, Drop)]
pub enum BindingFault {
    /// The line with this number isn't a statement.
    BadLine(usize),
    /// The line with this number names a package, class or member that an earlier line named.
    Repeated(usize),
    /// The line with this number assigns an AID or token that an earlier line assigned to something else, and the two
    /// have to differ.
    Clash(usize),
    /// A package, class or member isn't named.
    Missing,
}

impl fmt::Display for BindingFault {
    ghost use Rattle.std.specs.Prelude.{Some};
    ghost use Rattle.jc_api.specs.Fault.{words_of};

    ghost output = { λ fault. Some (words_of fault) };

    fn fmt<W: fmt::Write>(&self, f: &mut fmt::Formatter<W>) -> fmt::Result {
        match self {
            BindingFault::BadLine(line) => write!(f, "BadLine {line}"),
            BindingFault::Repeated(line) => write!(f, "Repeated {line}"),
            BindingFault::Clash(line) => write!(f, "Clash {line}"),
            BindingFault::Missing => write!(f, "Missing"),
        }
    }
}

impl Error for BindingFault {}
