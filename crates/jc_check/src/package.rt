//! The check of a package with its certificate.

ghost use Rattle.std.specs.Prelude.{⊤, ◌≡◌, ◌+◌, ℕ, Some, slice_get, true, nat_lt, length, List, IfOk, IfErr, IfSome};
ghost use Rattle.std.specs.Prelude.{IfNone, OnOk, MatchResult};
ghost use Rattle.std.specs.Option.{option_map_or};
ghost use Rattle.jc_cert.specs.Cert.{IsCert, Row, rows};
ghost use Rattle.jc_check.specs.Checked.{CarriesPackage, IsMethodCarried, IsPackageCarried, IsPackageTyped};
ghost use Rattle.jc_check.specs.Checked.{IsCheckRefusal};
ghost use Rattle.jc_check.specs.PrivateFirst.{IsUncarried, LeastOf};
ghost use Rattle.jc_classes.specs.Limits.{IsSmall};
ghost use Rattle.jc_link.specs.Built.{IsBuilt};
ghost use Rattle.jc_link.specs.Linked.{Linked as LinkedPackage};

use crate::fault::{Fault, MethodFault, WordFault};
use crate::law::first_fault_laws;
use crate::package_method::check_body;
use crate::states::{states_for, stray_offset};
use jc_base::{LoadFault, Reason};
use jc_cert::{Cert, MethodStates};
use jc_code::listing_laws;
use jc_effects::effects_keep_shapes;
use jc_link::{Linked, MethodCode, built_worlds_are_sound};
use jc_types::order_laws;
use std::alloc::Global;
use std::marker::Model;

/// A linked package that its certificate carries. Only `check` makes one.
#[derive(Drop)]
pub struct Checked {
    linked: Linked,
}

impl Model for Checked {
    ghost use Rattle.jc_link.specs.Linked.{Linked as LinkedPackage};
    ghost use Rattle.jc_check.specs.Checked.{IsPackageCarried, IsPackageTyped};

    ghost Value = { LinkedPackage };

    ghost view = { λ c. c.linked };

    ghost invariant = { λ c. IsPackageCarried c.linked × IsPackageTyped c.linked };
}

impl Checked {
    /// The package: some certificate carries it, and each of its methods with code is well typed.
    pub fn linked(&self) -> &Linked
        ensures linked { result.now ≡ self.now }
        ensures carried { IsPackageCarried self.now }
        ensures typed { IsPackageTyped self.now }
    {
        &self.linked
    }

    /// The package, to be added to a world.
    pub fn into_linked(self) -> Linked
        ensures linked { result ≡ self }
        ensures carried { IsPackageCarried self }
        ensures typed { IsPackageTyped self }
    {
        self.linked
    }
}

/// The methods with code of a linked package.
pub(crate) fn methods_of(linked: &Linked) -> &[MethodCode]
    ensures { result.now ≡ linked.now.body.kept.methods }
{
    &linked.body().kept().methods
}

/// The fault of a method, if a certificate's rows don't carry it.
fn uncarried(
    alloc: Global,
    linked: &Linked,
    of: &[MethodStates],
    body: &MethodCode,
) -> Result<Option<MethodFault>, LoadFault>
    requires { IsCert (rows of.now) }
    ensures carried { IfOk result (λ told. IfNone told (IsMethodCarried linked.now (rows of.now) body.now)) }
    ensures told { IfOk result (λ told. IfSome told (IsUncarried linked.now (rows of.now) body.now)) }
    ensures memory { IfErr result (λ fault. fault ≡ LoadFault.Memory) }
{
    match check_body(alloc, linked, body, states_for(of, body.offset)) {
        Ok(()) => Ok(None),
        Err(WordFault::Refused { pc, reason }) => Ok(Some(MethodFault {
            method: body.offset,
            fault: Fault { pc, reason },
        })),
        Err(WordFault::Memory) => Err(LoadFault::Memory),
    }
}

/// Whether a method's offset is below that of the reported method, if there is one.
fn stands_before(body: &MethodCode, told: Option<MethodFault>) -> bool
    ensures { result ≡ option_map_or (λ f. nat_lt body.now.offset f.method) told true }
{
    match told {
        Some(fault) => body.offset < fault.method,
        None => true,
    }
}

/// The fault of the method with the least offset that isn't carried, with one method more.
fn told_with(
    alloc: Global,
    linked: &Linked,
    of: &[MethodStates],
    body: &MethodCode,
    told: Option<MethodFault>,
) -> Result<Option<MethodFault>, LoadFault>
    requires { IsCert (rows of.now) }
    ensures least { IfOk result (λ now. (n : ℕ) → slice_get linked.now.body.kept.methods n ≡ Some body.now
        → LeastOf linked.now (rows of.now) n told → LeastOf linked.now (rows of.now) (n + 1) now) }
    ensures memory { IfErr result (λ fault. fault ≡ LoadFault.Memory) }
{
    if !stands_before(body, told) {
        return Ok(told);
    }
    match uncarried(alloc, linked, of, body)? {
        None => Ok(told),
        Some(fault) => Ok(Some(fault)),
    }
}

/// The fault of the method with the least offset that isn't carried, if there is one.
fn first_uncarried(
    alloc: Global,
    linked: &Linked,
    of: &[MethodStates],
) -> Result<Option<MethodFault>, LoadFault>
    requires { IsCert (rows of.now) }
    ensures least { IfOk result (LeastOf linked.now (rows of.now) (length linked.now.body.kept.methods)) }
    ensures memory { IfErr result (λ fault. fault ≡ LoadFault.Memory) }
{
    let methods = methods_of(linked);
    let mut told = None;
    for index in 0..methods.len() {
        told = told_with(alloc, linked, of, &methods[index], told)?;
    }
    Ok(told)
}

/// The first refusal of a package with a certificate, if there is one.
fn package_refusal(alloc: Global, linked: &Linked, cert: &Cert) -> Result<(), LoadFault>
    ensures cert { IsCert cert.now }
    ensures accepted { OnOk result (CarriesPackage linked.now cert.now) }
    ensures refused { IfErr result (IsCheckRefusal linked.now cert.now) }
{
    match stray_offset(cert.rows(), methods_of(linked)) {
        Some(method) => Err(LoadFault::MethodRefused {
            method,
            pc: 0,
            reason: Reason::CertMismatch,
        }),
        None => match first_uncarried(alloc, linked, cert.rows())? {
            Some(MethodFault { method, fault }) => Err(LoadFault::MethodRefused {
                method,
                pc: fault.pc,
                reason: fault.reason,
            }),
            None => Ok(()),
        },
    }
}

/// The same, and also that a certificate that carries the package is accepted.
#[tactic(auto, using(crate::proofs::Least::memory_alone))]
fn first_refusal(alloc: Global, linked: &Linked, cert: &Cert) -> Result<(), LoadFault>
    ensures cert { IsCert cert.now }
    ensures accepted { OnOk result (CarriesPackage linked.now cert.now) }
    ensures refused { IfErr result (IsCheckRefusal linked.now cert.now) }
    ensures carried { CarriesPackage linked.now cert.now
        → MatchResult result (λ u. ⊤) (λ fault. fault ≡ LoadFault.Memory) }
{
    first_fault_laws();
    listing_laws();
    package_refusal(alloc, linked, cert)
}

/// A package of a built world is well typed if a certificate carries it: each of its methods with code is. It does
/// nothing.
pub fn carried_packages_are_typed()
    ensures { (l : LinkedPackage) → IsBuilt l.world → IsSmall l.world → (of : List Row) → CarriesPackage l of
        → IsPackageTyped l }
{
    built_worlds_are_sound();
    order_laws();
    listing_laws();
    effects_keep_shapes();
}

/// The same for a linked package. It does nothing.
fn carried_is_typed(linked: &Linked)
    ensures { (of : List Row) → CarriesPackage linked.now of → IsPackageTyped linked.now }
{
    // Only its contract is needed: the invariant of a table.
    let _count = linked.table().len();
    carried_packages_are_typed();
}

/// Checks that a certificate carries a linked package. It reports the first refusal: if the certificate has rows for
/// offsets without a method with code, the first such row, at pc 0; otherwise the method with the least offset that
/// isn't carried, with its first fault, in the order of the tests. Out of memory may be reported instead of any result.
pub fn check(alloc: Global, linked: Linked, cert: &Cert) -> Result<Checked, LoadFault>
    ensures accepted { IfOk result (λ checked. (checked ≡ linked) × CarriesPackage linked cert.now) }
    ensures typed { IfOk result IsPackageTyped }
    ensures carried { CarriesPackage linked cert.now
        → MatchResult result (λ checked. ⊤) (λ fault. fault ≡ LoadFault.Memory) }
    ensures refused { IfErr result (IsCheckRefusal linked cert.now) }
{
    carried_is_typed(&linked);
    first_refusal(alloc, &linked, cert)?;
    Ok(Checked { linked })
}
