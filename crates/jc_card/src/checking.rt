//! Linking and checking of packages before they are loaded.

ghost use Rattle.std.specs.Prelude.{◌≡◌, ◌⊎◌, ◌≤◌, ℕ, IfErr, IfOk, List, length, true};
ghost use Rattle.jc_card.specs.Load.{IsFit, IsOutOfMemory, IsUnfit};
ghost use Rattle.jc_link.specs.Linked.{IsBoundTo, Linked as LinkedPackage, World as LinkedWorld};
ghost use Rattle.jc_link.specs.Linked.{most_in_world, with_linked};
ghost use Rattle.jc_machine.specs.Accepted.{IsAccepted};
ghost use Rattle.jc_natives.specs.Kept.{are_bytes};

use crate::laws::bytes_are_low;
use jc_base::{LoadFault, cut};
use jc_cap_desc::read_packages_are_whole;
use jc_check::{carried_packages_are_typed, check};
use jc_link::{Linked, World, link, linked_packages_are_known};
use jc_machine::accepted_worlds_grow;
use std::alloc::Global;

/// If the packages of a world are accepted, they still are with a package appended that fits, and whose image is bytes.
/// It does nothing.
pub(crate) fn fit_packages_are_accepted()
    ensures { (w : LinkedWorld) → IsAccepted w → length w.shapes ≤ most_in_world → (image certificate : List ℕ)
        → are_bytes image ≡ true → (l : LinkedPackage) → IsFit w.shapes image certificate l
        → IsAccepted (with_linked w l) }
{
    read_packages_are_whole();
    linked_packages_are_known();
    carried_packages_are_typed();
    accepted_worlds_grow();
}

/// The package in an image, linked to the packages of a world and checked with the bytes of its certificate. If the
/// world is accepted, it still is with this package.
pub(crate) fn checked(
    alloc: Global,
    image: &[u8],
    certificate: &[u8],
    world: &World,
) -> Result<Linked, LoadFault>
    ensures bound { IfOk result (IsBoundTo world.now) }
    ensures fit { IfOk result (IsFit world.now.shapes image.now certificate.now) }
    ensures accepted { IfOk result (λ l. IsAccepted world.now → IsAccepted (with_linked world.now l)) }
    ensures unfit { IfErr result
        (λ fault. IsOutOfMemory image.now fault ⊎ IsUnfit world.now.shapes image.now certificate.now fault) }
{
    fit_packages_are_accepted();
    bytes_are_low(image);
    // Only its contract is needed: how many packages there are at most.
    let _count = world.len();
    let linked = link(alloc, &cut(image)?, world)?;
    let rows = jc_cert::read(alloc, certificate)?;
    Ok(check(alloc, linked, &rows)?.into_linked())
}
