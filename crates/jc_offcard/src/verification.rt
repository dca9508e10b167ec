//! Verification of a package: its certificate is inferred.

ghost use Rattle.std.specs.Prelude.{◌≡◌, ◌⊎◌, ◌<◌, ◌≤◌, [], ◌∷◌, ◌++◌, List, Some, map, length, slice_get, IfOk, IfErr};
ghost use Rattle.jc_base.specs.declared.fault.LoadFault.TheVariants.{Full, Memory};
ghost use Rattle.jc_cap_desc.specs.Shape.{HaveBodies, HaveHeaders, InstallMethods, Shape, StandApart};
ghost use Rattle.jc_classes.specs.Api.{api_world};
ghost use Rattle.jc_check.specs.Checked.{CarriesPackage};
ghost use Rattle.jc_link.specs.Linked.{IsBoundTo, Linked as LinkedPackage, most_in_world, with_linked};
ghost use Rattle.jc_offcard.specs.Verify.{AreLoaded, IsLinkedAfter, IsLinkedBehind, IsReadAs, IsVerified};
ghost use Rattle.jc_offcard.specs.PrivateVerify.{AreUnloaded, IsInferred, IsPut, IsStopped, IsUnlinked, IsUnput};

use crate::unlinked::Unlinked;
use crate::verify_answer::VerifyAnswer;
use jc_api::Binding;
use jc_base::{LoadFault, cut};
use jc_cap_desc::{Package, read_package};
use jc_cert::Cert;
use jc_link::{Linked, World, link_package};
use jc_verify::{VerifyFault, infer};
use std::alloc::Global;

/// Appends a linked package to the world to which it was linked, if there is room. Otherwise the world is unchanged:
/// `Full`, or `Memory` if memory runs out.
pub fn put(world: &mut World, linked: Linked) -> Result<(), LoadFault>
    requires { IsBoundTo world.old linked }
    ensures put { IfOk result (λ u. world.new ≡ with_linked world.old linked) }
    ensures room { IfOk result (λ u. length world.old.shapes < most_in_world) }
    ensures refused { IfErr result
        (λ fault. (fault ≡ Memory) ⊎ (fault ≡ Full) × (most_in_world ≤ length world.old.shapes)) }
    ensures kept { IfErr result (λ fault. world.new ≡ world.old) }
{
    if world.is_full() {
        return Err(LoadFault::Full);
    }
    world.add(linked).map_err(|_| LoadFault::Memory)
}

// The package in an image.
fn read_image<'a>(image: &'a [u8]) -> Result<Package<'a>, LoadFault>
    ensures read { IsReadAs image.now result }
    ensures apart { IfOk result (λ p. StandApart p.body.methods) }
    ensures headers { IfOk result (λ p. HaveHeaders p.shape) }
    ensures bodies { IfOk result HaveBodies }
    ensures installs { IfOk result InstallMethods }
{
    let parts = cut(image)?;
    read_package(&parts)
}

// The package in an image, linked to those of a world.
fn link_image(alloc: Global, image: &[u8], world: &World) -> Result<Linked, Unlinked>
    ensures bound { IfOk result (IsBoundTo world.now) }
    ensures linked { IfOk result (IsLinkedBehind world.now.shapes image.now) }
    ensures unlinked { IfErr result (IsUnlinked world.now.shapes image.now) }
{
    match read_image(image) {
        Ok(read) => Ok(link_package(alloc, &read, world)?),
        Err(fault) => Err(Unlinked::Refused(fault)),
    }
}

// Why an image isn't linked if memory runs out: its own fault, or out of memory.
fn unlinked(image: &[u8]) -> Unlinked
    ensures { (before : List Shape) → IsUnlinked before image.now result }
{
    match read_image(image) {
        Ok(_) => Unlinked::Memory,
        Err(fault) => Unlinked::Refused(fault),
    }
}

// The first of the images.
fn first_of<'a>(earlier: &'a [Vec<u8>], image: &'a [u8]) -> &'a [u8]
    ensures { slice_get (map (λ image. image.items) earlier.now ++ image.now ∷ []) 0 ≡ Some result.now }
{
    match earlier.first() {
        Some(first) => first,
        None => image,
    }
}

// Appends the package in an image to a world.
fn load(alloc: Global, world: &mut World, image: &[u8]) -> Result<(), Unlinked>
    ensures loaded { IfOk result (λ u. IsPut world.old.shapes image.now world.new.shapes) }
    ensures unput { IfErr result (IsUnput world.old.shapes image.now) }
{
    let linked = link_image(alloc, image, world)?;
    Ok(put(world, linked)?)
}

// A world with the packages in images appended, one after the other.
fn load_all(alloc: Global, first: World, earlier: &[Vec<u8>]) -> Result<World, Unlinked>
    ensures loaded { IfOk result
        (λ w. AreLoaded first.shapes (map (λ image. image.items) earlier.now) w.shapes) }
    ensures unloaded { IfErr result (AreUnloaded first.shapes (map (λ image. image.items) earlier.now)) }
{
    let mut world = first;
    for image in earlier {
        load(alloc, &mut world, image)?;
    }
    Ok(world)
}

// The world of the API's packages. If memory runs out for it, the first of the images decides why it isn't linked.
fn first_world(
    alloc: Global,
    image: &[u8],
    earlier: &[Vec<u8>],
    binding: &Binding,
) -> Result<World, Unlinked>
    ensures made { IfOk result (λ w. w.shapes ≡ api_world binding.now) }
    ensures stopped { IfErr result
        (IsStopped (api_world binding.now) (map (λ image. image.items) earlier.now ++ image.now ∷ [])) }
{
    match World::new(alloc, binding) {
        Ok(world) => Ok(world),
        Err(_) => Err(unlinked(first_of(earlier, image))),
    }
}

// The package in an image, linked to those before it.
fn link_last(
    alloc: Global,
    image: &[u8],
    earlier: &[Vec<u8>],
    binding: &Binding,
) -> Result<Linked, Unlinked>
    ensures linked { IfOk result
        (IsLinkedAfter binding.now (map (λ image. image.items) earlier.now) image.now) }
    ensures stopped { IfErr result
        (IsStopped (api_world binding.now) (map (λ image. image.items) earlier.now ++ image.now ∷ [])) }
{
    let first = first_world(alloc, image, earlier, binding)?;
    let world = load_all(alloc, first, earlier)?;
    link_image(alloc, image, &world)
}

// The bytes of a certificate.
fn written(alloc: Global, cert: &Cert) -> VerifyAnswer
    ensures { (l : LinkedPackage) → CarriesPackage l cert.now → IsInferred l result }
{
    match jc_cert::write(alloc, cert) {
        Ok(bytes) => VerifyAnswer::Certificate(bytes),
        Err(_) => VerifyAnswer::Memory,
    }
}

// The answer to a linked package.
fn inferred(alloc: Global, linked: &Linked) -> VerifyAnswer
    ensures { IsInferred linked.now result }
{
    match infer(alloc, linked) {
        Ok(found) => written(alloc, &found.cert),
        Err(VerifyFault::NoCertificate { method, fault }) => {
            VerifyAnswer::NoCertificate { method, fault }
        }
        Err(VerifyFault::Memory) => VerifyAnswer::Memory,
    }
}

/// Links packages one after the other and the one in an image last, and infers its certificate, with a binding.
pub fn verify(alloc: Global, image: &[u8], earlier: &[Vec<u8>], binding: &Binding) -> VerifyAnswer
    ensures { IsVerified binding.now (map (λ image. image.items) earlier.now) image.now result }
{
    match link_last(alloc, image, earlier, binding) {
        Ok(linked) => inferred(alloc, &linked),
        Err(Unlinked::Refused(fault)) => VerifyAnswer::Refused(fault),
        Err(Unlinked::Memory) => VerifyAnswer::Memory,
    }
}
