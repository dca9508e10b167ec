//! The reads of a source, as proofs see them.

ghost use Rattle.std.specs.Prelude.{◌≡◌, List, [], ◌∷◌, ◌++◌};
ghost use Rattle.std.specs.Borrow.{ftrue};
ghost use Rattle.jc_source.specs.Source.{Asked};

use std::marker::Model;

/// The reads that were asked for so far, in order. Only proofs see them: they take no memory.
#[derive(Drop)]
pub struct Reads {
    pub ghost asked: { List Asked },
}

impl Model for Reads {
    ghost also_owns = { λ _. ftrue };
}

/// A read, by name.
#[derive(Clone, Copy, Drop)]
pub(crate) enum NamedRead<'a> {
    /// The image of a package.
    Image(&'a str),
    /// The bytes of a certificate.
    Certificate(&'a str),
}

impl Reads {
    ghost use Rattle.jc_memory.specs.PrivateReads.{asked_by};

    /// No reads.
    pub(crate) fn new() -> Reads
        ensures { result.asked ≡ [] }
    {
        Reads {}
    }

    // These reads, and then another one.
    pub(crate) fn then(&self, _read: &NamedRead<'_>) -> Reads
        ensures { result.asked ≡ self.now.asked ++ asked_by _read.now ∷ [] }
    {
        Reads {}
    }
}
