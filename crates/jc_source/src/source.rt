//! Sources of packages and certificates.

ghost use Rattle.std.specs.Prelude.{◌≡◌, ◌+◌, ◌<◌, ◌^◌, ℕ, List, [], ◌∷◌, Option, None, IfOk};
ghost use Rattle.jc_source.specs.Source.{Asked, Asks, Certificate, HoldSame, IfFailed, Image, failures_in};
ghost use Rattle.jc_source.specs.Source.{shortages_in};

use std::alloc::Global;

/// Why nothing was read.
#[derive(Clone, Copy, Debug, PartialEq, Eq)]
pub enum SourceFault {
    /// It doesn't exist, or can't be read.
    Failed,
    /// No memory was left.
    Memory,
}

/// A source of packages and certificates, by their names. It counts the reads that failed, and those for which memory
/// ran out, fewer than 2^31 of each. Each read returns what the source holds, and no read changes that.
pub trait PackageSource {
    ghost failed: { Self → ℕ };

    // How many reads ran out of memory.
    ghost short: { Self → ℕ };

    // A package's image in the source is these bytes, under a name.
    ghost holds_image: { Self → List ℕ → List ℕ → Type 0 };

    // A certificate in the source is these bytes, under a name.
    ghost holds_certificate: { Self → List ℕ → List ℕ → Type 0 };

    // The names that were read so far, in order, if the source records them.
    ghost asked: { Self → Option (List Asked) } = { λ _. None };

    // The last read that failed was of this name.
    ghost failed_at: { Self → Asked → Type 0 };

    /// The image of a package.
    fn image(&mut self, alloc: Global, name: &str) -> Result<Vec<u8>, SourceFault>
        requires few { failed self.now < 2 ^ 31 }
        requires few_short { short self.now < 2 ^ 31 }
        ensures counted { failed self.new ≡ failed self.old + failures_in result }
        ensures counted_short { short self.new ≡ short self.old + shortages_in result }
        ensures asks { Asks (asked self.old) (asked self.new) (Image name.now ∷ []) }
        ensures failing { IfFailed result (failed_at self.new (Image name.now)) }
        ensures held { IfOk result (λ image. holds_image self.old name.now image.items) }
        ensures same_images { HoldSame (holds_image self.old) (holds_image self.new) }
        ensures same_certificates { HoldSame (holds_certificate self.old) (holds_certificate self.new) };

    /// The bytes of a certificate.
    fn certificate(&mut self, alloc: Global, name: &str) -> Result<Vec<u8>, SourceFault>
        requires few { failed self.now < 2 ^ 31 }
        requires few_short { short self.now < 2 ^ 31 }
        ensures counted { failed self.new ≡ failed self.old + failures_in result }
        ensures counted_short { short self.new ≡ short self.old + shortages_in result }
        ensures asks { Asks (asked self.old) (asked self.new) (Certificate name.now ∷ []) }
        ensures failing { IfFailed result (failed_at self.new (Certificate name.now)) }
        ensures held { IfOk result (λ certificate. holds_certificate self.old name.now certificate.items) }
        ensures same_images { HoldSame (holds_image self.old) (holds_image self.new) }
        ensures same_certificates { HoldSame (holds_certificate self.old) (holds_certificate self.new) };

    /// How many reads have failed.
    fn failures(&self) -> u32
        ensures { result ≡ failed self.now };

    /// For how many reads memory ran out.
    fn shortages(&self) -> u32
        ensures { result ≡ short self.now };
}
