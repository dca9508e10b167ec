//! How often a reader or a writer was called, as proofs see it.

ghost use Rattle.std.specs.Prelude.{◌≡◌, ◌+◌, ℕ, suc};
ghost use Rattle.std.specs.Borrow.{ftrue};

use crate::outcome::Outcome;
use std::marker::Model;

/// How often a reader or a writer was called, and how many of these calls failed. Only proofs see these numbers: they
/// take no memory, and have no upper bound.
#[derive(Drop)]
pub struct Counts {
    pub ghost calls: { ℕ },
    pub ghost faults: { ℕ },
}

impl Model for Counts {
    ghost also_owns = { λ _. ftrue };
}

impl Counts {
    ghost use Rattle.jc_streams.specs.Streams.{faults_in};

    /// No calls.
    pub(crate) fn new() -> Counts
        ensures calls { result.calls ≡ 0 }
        ensures faults { result.faults ≡ 0 }
    {
        Counts {}
    }

    // These calls, and then one that came to this.
    pub(crate) fn then(&self, _outcome: &Outcome) -> Counts
        ensures calls { result.calls ≡ suc self.now.calls }
        ensures faults { result.faults ≡ self.now.faults + faults_in _outcome.now }
    {
        Counts {}
    }
}
