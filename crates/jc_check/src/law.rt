//! The law of first faults.

ghost use Rattle.std.specs.Prelude.{◌≡◌, ◌⊎◌, List};
ghost use Rattle.jc_cert.specs.Cert.{Stated};
ghost use Rattle.jc_code.specs.Listing.{ListingLaws};
ghost use Rattle.jc_check.specs.Rules.{Rules};
ghost use Rattle.jc_check.specs.Method.{CheckedMethod};
ghost use Rattle.jc_check.specs.Carried.{Carries};
ghost use Rattle.jc_check.specs.FirstFault.{IsFirstFault};
ghost use Rattle.jc_check.specs.declared.fault.Fault.{Fault};

/// With the states of a certificate, either a method is carried or it has a first fault, never both, and the first
/// fault is unique. This holds for all rules whose decoder has the laws of listings. It does nothing.
pub fn first_fault_laws()
    ensures either { (rules : Rules) → ListingLaws rules.decoder → (m : CheckedMethod) (states : List Stated)
        → Carries rules m states ⊎ ((fault : Fault) × IsFirstFault rules m states fault) }
    ensures never_both { (rules : Rules) → ListingLaws rules.decoder → (m : CheckedMethod) (states : List Stated)
        (fault : Fault) → IsFirstFault rules m states fault → Carries rules m states → ⊥ }
    ensures one_fault { (rules : Rules) → ListingLaws rules.decoder → (m : CheckedMethod) (states : List Stated)
        (a b : Fault) → IsFirstFault rules m states a → IsFirstFault rules m states b → a ≡ b }
{}
