//! Cutting an image into its components.

ghost use Rattle.std.specs.Prelude.{◌≡◌, ◌<◌, ◌^◌, ◌∷◌, [], ◌++◌, List, ℕ, Option, IfOk, IfErr, IfSome, Err, false};
ghost use Rattle.std.specs.Prelude.{length, slice_index_or};
ghost use Rattle.std.specs.List.{find};
ghost use Rattle.std.specs.Option.{option_copied};
ghost use Rattle.jc_base.specs.Cutting.{Piece, Splits, answer, infos_by, known};
ghost use Rattle.jc_base.specs.PrivateCutting.{AreShort, Holds, info_in, twice_in};
ghost use Rattle.jc_base.specs.PrivateCutting.{next_of, next_is};

use crate::cursor::Cursor;
use crate::fault::LoadFault;
use crate::parts::Parts;
use crate::tag::{
    APPLET, CLASS, CONSTANT_POOL, DESCRIPTOR, EXPORT, HEADER, IMPORT, METHOD, STATIC_FIELD,
};

/// A component of an image.
#[derive(Clone, Copy)]
struct Component<'a> {
    tag: u8,
    info: &'a [u8],
}

/// The next component, or `None` if no byte is left.
fn next_component<'a>(cursor: &mut Cursor<'a>) -> Result<Option<Component<'a>>, LoadFault>
    ensures next { next_of cursor.old ≡ next_is result cursor.new }
    ensures short { IfOk result (λ found. IfSome found (λ component. length component.info.now < 2 ^ 16)) }
{
    let Some(tag) = cursor.u1() else {
        return Ok(None);
    };
    let size = cursor.u2().ok_or(LoadFault::ExtraBytes)?;
    let info = cursor
        .take(usize::from(size))
        .ok_or(LoadFault::ShortComponent)?;
    Ok(Some(Component { tag, info }))
}

/// The components read so far, by their tags.
#[derive(Drop)]
struct Slots<'a> {
    infos: [Option<&'a [u8]>; 13],
    repeats: [bool; 13],
}

impl<'a> Slots<'a> {
    fn new() -> Self
        ensures holds { Holds result [] }
        ensures short { AreShort result }
    {
        Slots {
            infos: [None; 13],
            repeats: [false; 13],
        }
    }

    /// Adds a component. It ignores a tag above 12.
    fn put(&mut self, component: Component<'a>)
        ensures holds { (pieces : List Piece) (p : Piece) → component.entry.tag ≡ p.tag
            → component.entry.info.now ≡ p.info → Holds self.old pieces → Holds self.new (pieces ++ p ∷ []) }
        ensures short { length component.entry.info.now < 2 ^ 16 → AreShort self.old → AreShort self.new }
    {
        let place = usize::from(component.tag);
        if place < 13 {
            if self.infos[place].is_none() {
                self.infos[place] = Some(component.info);
            } else {
                self.repeats[place] = true;
            }
        }
    }

    /// The info that is kept for a tag.
    fn info(&self, tag: u8) -> Option<&'a [u8]>
        requires { tag < 13 }
        ensures info { option_copied result ≡ info_in self.now tag }
        ensures short { AreShort self.now → IfSome result (λ info. length info.now < 2 ^ 16) }
    {
        self.infos[usize::from(tag)]
    }

    /// The least known tag that came twice.
    #[tactic(auto, unfolding(crate::specs::Cutting::known))]
    fn repeated(&self) -> Option<u8>
        ensures { result ≡ twice_in self.now }
    {
        (1u8..13).find(|tag| self.repeats[usize::from(*tag)])
    }
}

/// The components of an image.
fn components<'a>(image: &'a [u8]) -> Result<Slots<'a>, LoadFault>
    ensures ok { IfOk result (λ slots. (pieces : List Piece) × Splits image.now pieces [] × Holds slots pieces) }
    ensures err { IfErr result (λ fault. (pieces : List Piece) × (rest : List ℕ) × Splits image.now pieces rest
        × (answer pieces rest ≡ Err fault)) }
    ensures short { IfOk result AreShort }
{
    let mut slots = Slots::new();
    let mut cursor = Cursor::new(image);
    while let Some(component) = next_component(&mut cursor)? {
        slots.put(component);
    }
    Ok(slots)
}

/// The parts, or the least missing tag, or the least repeated tag.
#[tactic(auto, unfolding(crate::specs::Cutting::infos_by))]
fn parts_in<'a>(slots: &Slots<'a>) -> Result<Parts<'a>, LoadFault>
    requires short { AreShort slots.now }
    ensures { result ≡ infos_by (λ tag. info_in slots.now tag) (twice_in slots.now) }
{
    let header = slots
        .info(HEADER)
        .ok_or(LoadFault::MissingComponent(HEADER))?;
    let constant_pool = slots
        .info(CONSTANT_POOL)
        .ok_or(LoadFault::MissingComponent(CONSTANT_POOL))?;
    let class = slots.info(CLASS).ok_or(LoadFault::MissingComponent(CLASS))?;
    let method = slots
        .info(METHOD)
        .ok_or(LoadFault::MissingComponent(METHOD))?;
    let static_field = slots
        .info(STATIC_FIELD)
        .ok_or(LoadFault::MissingComponent(STATIC_FIELD))?;
    let descriptor = slots
        .info(DESCRIPTOR)
        .ok_or(LoadFault::MissingComponent(DESCRIPTOR))?;
    if let Some(tag) = slots.repeated() {
        return Err(LoadFault::RepeatedComponent(tag));
    }
    Ok(Parts {
        header,
        applet: slots.info(APPLET),
        imports: slots.info(IMPORT),
        constant_pool,
        class,
        method,
        static_field,
        export: slots.info(EXPORT),
        descriptor,
    })
}

/// The parts of an image, computed from one way to split it into components.
fn parts_of<'a>(image: &'a [u8]) -> Result<Parts<'a>, LoadFault>
    ensures { (pieces : List Piece) × (rest : List ℕ) × Splits image.now pieces rest × (result ≡ answer pieces rest) }
{
    let slots = components(image)?;
    parts_in(&slots)
}

/// The components of an image, borrowed from it, or the first reason against it: a size that runs past the image, one
/// or two bytes after the last component, the least required tag that is missing, the least tag that came twice (Java
/// Card Virtual Machine Specification, CAP file format: Component model).
pub fn cut<'a>(image: &'a [u8]) -> Result<Parts<'a>, LoadFault>
    // The image splits into components and a rest, and they determine the result.
    ensures found { (pieces : List Piece) × (rest : List ℕ) × Splits image.now pieces rest
        × (result ≡ answer pieces rest) }
    // Every split of the image gives the same result.
    ensures only { (pieces : List Piece) (rest : List ℕ) → Splits image.now pieces rest → result ≡ answer pieces rest }
{
    parts_of(image)
}
