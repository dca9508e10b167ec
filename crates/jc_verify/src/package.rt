//! Infers the certificate of a package.

ghost use Rattle.std.specs.Prelude.{◌≡◌, ℕ, ◌-◌, ◌<◌, ◌^◌, length, IfErr, IfOk};
ghost use Rattle.jc_cert.specs.Cert.{IsCert, rows};
ghost use Rattle.jc_check.specs.Checked.{CarriesPackage};
ghost use Rattle.jc_verify.specs.Inferred.{HasAllStates, HasLeastStates, HasStatesWhereEntered};
ghost use Rattle.jc_verify.specs.PrivateFlow.{HasLaws};
ghost use Rattle.jc_verify.specs.PrivateGathered.{AreGathered, IsSoFar};
ghost use Rattle.jc_verify.specs.PrivateRefused.{HasFitMethods};
ghost use Rattle.jc_verify.specs.PrivateTurns.{AreCounted};
ghost use Rattle.jc_verify.specs.Refusal.{IsRefusal};
ghost use Rattle.jc_verify.specs.Visits.{HasBoundedCount};

use crate::fault::VerifyFault;
use crate::gathering::{Gathered, gather};
use jc_cert::{Cert, MethodStates};
use jc_check::types_name_classes;
use jc_code::listing_laws;
use jc_effects::effects_are_monotone;
use jc_link::{Linked, MethodCode, built_worlds_are_sound};
use jc_types::order_laws;
use std::alloc::Global;

/// An inferred certificate, and how often control flow was followed from the entry of a method or from a pc with a
/// state.
#[derive(Debug, Drop)]
pub struct Inferred {
    pub cert: Cert,
    pub followed: u64,
}

/// Proves the laws of types and of code in a linked package, and of its methods. At run time it only reads the methods'
/// headers.
fn flow_laws(linked: &Linked)
    ensures laws { HasLaws linked.now }
    ensures fit { HasFitMethods linked.now }
{
    // Called for their contracts: what always holds of a table and of a linked package.
    let _count = linked.table().len();
    let _body = linked.body();
    types_name_classes(linked);
    built_worlds_are_sound();
    order_laws();
    listing_laws();
    effects_are_monotone();
}

/// The methods with code of a linked package.
fn methods_of(linked: &Linked) -> &[MethodCode]
    ensures { result.now ≡ linked.now.body.kept.methods }
{
    &linked.body().kept().methods
}

/// Gathers the results for all methods of a package.
fn gather_all(alloc: Global, linked: &Linked) -> Result<Gathered, VerifyFault>
    requires laws { HasLaws linked.now }
    requires fit { HasFitMethods linked.now }
    ensures so_far { IfOk result (IsSoFar linked.now (length linked.now.body.kept.methods)) }
    ensures memory { IfErr result (λ fault. fault ≡ VerifyFault.Memory) }
{
    let methods = methods_of(linked);
    let mut gathered = Gathered {
        rows: Vec::with_capacity(alloc, methods.len())?,
        told: None,
        followed: 0,
    };
    for index in 0..methods.len() {
        gather(alloc, linked, &methods[index], &mut gathered)?;
    }
    Ok(gathered)
}

/// The certificate with these rows, in any order, which carry a package's methods.
fn certificate_of(linked: &Linked, methods: Vec<MethodStates>) -> Cert
    requires fit { HasFitMethods linked.now }
    requires gathered { AreGathered linked.now (length linked.now.body.kept.methods) (rows methods.items) }
    ensures carried { CarriesPackage linked.now result }
    ensures entered { HasStatesWhereEntered linked.now result }
    ensures least { HasLeastStates linked.now result }
    ensures counted { (count : ℕ)
        → AreCounted linked.now (length linked.now.body.kept.methods) (rows methods.items) count
        → AreCounted linked.now (length linked.now.body.kept.methods) result count }
    ensures cert { IsCert result }
{
    let mut methods = methods;
    methods.sort_unstable_by_key(|row| row.offset);
    Cert::new(methods).unwrap()
}

/// The certificate from the results for all methods, or the fault of one of them.
#[tactic(auto, using(crate::proofs::Bearing::all_states, crate::proofs::Telling::is_refusal))]
fn certificate_or_fault(linked: &Linked, gathered: Gathered) -> Result<Inferred, VerifyFault>
    requires laws { HasLaws linked.now }
    requires fit { HasFitMethods linked.now }
    requires so_far { IsSoFar linked.now (length linked.now.body.kept.methods) gathered }
    ensures carried { IfOk result (λ found. CarriesPackage linked.now found.cert) }
    ensures entered { IfOk result (λ found. HasStatesWhereEntered linked.now found.cert) }
    ensures all { IfOk result (λ found. HasAllStates linked.now found.cert) }
    ensures least { IfOk result (λ found. HasLeastStates linked.now found.cert) }
    ensures followed { IfOk result (HasBoundedCount linked.now) }
    ensures exact { IfOk result (λ found. found.followed < 2 ^ 64 - 1) }
    ensures refused { IfErr result (IsRefusal linked.now) }
{
    if let Some(told) = gathered.told {
        return Err(VerifyFault::NoCertificate {
            method: told.method,
            fault: told.fault,
        });
    }
    let followed = gathered.followed;
    let cert = certificate_of(linked, gathered.rows);
    Ok(Inferred { cert, followed })
}

/// Infers a certificate that carries a linked package. It has a state exactly at the pcs that control flow enters by a
/// branch or a handler of a reachable instruction, each the least possible. If no states that a certificate may have
/// carry some methods, reports the one with the least offset. The certificate bounds how often control flow is
/// followed. The count saturates at 2^64 - 1, which is never reached.
pub fn infer(alloc: Global, linked: &Linked) -> Result<Inferred, VerifyFault>
    ensures carried { IfOk result (λ found. CarriesPackage linked.now found.cert) }
    ensures entered { IfOk result (λ found. HasStatesWhereEntered linked.now found.cert) }
    ensures all { IfOk result (λ found. HasAllStates linked.now found.cert) }
    ensures least { IfOk result (λ found. HasLeastStates linked.now found.cert) }
    ensures followed { IfOk result (HasBoundedCount linked.now) }
    ensures exact { IfOk result (λ found. found.followed < 2 ^ 64 - 1) }
    ensures refused { IfErr result (IsRefusal linked.now) }
{
    flow_laws(linked);
    let gathered = gather_all(alloc, linked)?;
    certificate_or_fault(linked, gathered)
}
