//! The words of a package's static fields when it is loaded (Java Card Virtual Machine Specification, StaticField
//! component).

ghost use Rattle.std.specs.Prelude.{◌≡◌, ◌+◌, ◌<◌, suc, length, option_map, slice_set, IfOk, Some};
ghost use Rattle.jc_interp.specs.Agree.{HoldsFields};
ghost use Rattle.jc_interp.specs.PrivateImage.{reference_word, with_classes, with_field, with_fields, word_at};
ghost use Rattle.jc_cap_desc.specs.Shape.{Shape};
ghost use Rattle.jc_link.specs.Statics.{static_fields};
ghost use Rattle.jc_safety.specs.Loading.{HaveOwnOffsets, byte_at, loaded_statics, own_shape, short_at};

use jc_base::{ClassRef, DeclaredType};
use jc_cap_desc::FieldPlace;
use jc_classes::{Class, Field, PackageShape};
use jc_link::{Linked, StaticImage};
use jc_safety::static_fields_have_own_offsets;
use std::alloc::{AllocError, Global};

/// The byte at an offset of the image after the references: 0, except for the last bytes, which have values.
fn byte_at(statics: &StaticImage, offset: usize) -> u16
    ensures byte { result ≡ byte_at statics.now offset }
    ensures small { result < 256 }
{
    let references = statics.references;
    let defaults = statics.defaults;
    let start = 2 * usize::from(references) + usize::from(defaults);
    if offset < start {
        return 0;
    }
    match statics.values.get(offset - start) {
        Some(byte) => u16::from(*byte),
        None => 0,
    }
}

/// Two bytes, the high one first.
fn short_at(statics: &StaticImage, offset: u16) -> u16
    ensures { result ≡ short_at statics.now offset }
{
    256 * byte_at(statics, usize::from(offset)) + byte_at(statics, usize::from(offset) + 1)
}

/// The reference at an offset: the first ones are to the initialised arrays, which follow so many objects.
fn reference_at(statics: &StaticImage, objects: u16, offset: u16) -> u16
    ensures { result ≡ reference_word objects statics.now offset }
{
    let place = offset / 2;
    if usize::from(place) < statics.arrays.len() {
        objects.wrapping_add(place + 1)
    } else {
        0
    }
}

/// The word of a field of a type at an offset of the image.
fn word_at(
    statics: &StaticImage,
    objects: u16,
    offset: u16,
    declared: DeclaredType<ClassRef>,
) -> u16
    ensures { result ≡ word_at objects statics.now offset declared }
{
    match declared {
        DeclaredType::Boolean | DeclaredType::Byte => byte_at(statics, usize::from(offset)),
        DeclaredType::Short => short_at(statics, offset),
        DeclaredType::Reference(_)
        | DeclaredType::BooleanArray
        | DeclaredType::ByteArray
        | DeclaredType::ShortArray
        | DeclaredType::ReferenceArray(_) => reference_at(statics, objects, offset),
    }
}

/// Writes a word at an offset, if there is one.
#[tactic(auto, using(crate::proofs::ImageWords::put_past))]
fn put_word(words: &mut [u16], offset: u16, word: u16)
    ensures { words.new ≡ slice_set words.old offset word }
{
    let place = usize::from(offset);
    if place < words.len() {
        words[place] = word;
    }
}

/// Puts the word of a field at its offset, if the field is static.
fn put_field(words: &mut [u16], statics: &StaticImage, objects: u16, field: &Field)
    ensures { words.new ≡ with_field objects statics.now words.old field.now }
{
    match field.place() {
        FieldPlace::Static { offset } => {
            let word = word_at(statics, objects, offset, field.declared_type());
            put_word(words, offset, word);
        }
        FieldPlace::Instance { .. } => {}
    }
}

/// Puts the words of those fields that are static.
fn put_fields(words: &mut [u16], statics: &StaticImage, objects: u16, fields: &[Field])
    ensures { words.new ≡ with_fields objects statics.now words.old fields.now }
{
    for field in fields {
        put_field(words, statics, objects, field);
    }
}

/// Puts the words of the static fields of some classes.
fn put_classes(words: &mut [u16], statics: &StaticImage, objects: u16, classes: &[Class])
    ensures { words.new ≡ with_classes objects statics.now words.old classes.now }
{
    for class in classes {
        put_fields(words, statics, objects, class.fields());
    }
}

/// The static fields of a linked package.
fn statics_of(linked: &Linked) -> &StaticImage
    ensures { result.now ≡ linked.now.body.kept.statics }
{
    &linked.body().kept().statics
}

/// The shape of a linked package: the last one of the world that it was bound to.
fn shape_of(linked: &Linked) -> Option<&PackageShape>
    ensures { option_map (λ s. s.now) result ≡ own_shape linked.now }
{
    let table = linked.table();
    table.shape(table.last())
}

/// The static fields of a linked package have their own offsets. It does nothing.
fn offsets_are_known(linked: &Linked)
    ensures { (shape : Shape) → own_shape linked.now ≡ Some shape
        → HaveOwnOffsets linked.now.body.kept.statics (static_fields shape) }
{
    linked.body();
    static_fields_have_own_offsets();
}

/// Puts the words of a linked package's static fields, if its initialised arrays follow so many objects.
fn put_statics(words: &mut [u16], linked: &Linked, objects: u16)
    ensures { length words.old ≡ linked.now.body.kept.statics.size
        → objects + length linked.now.body.kept.statics.arrays < 65536
        → HoldsFields words.new (loaded_statics (suc objects) linked.now) }
{
    offsets_are_known(linked);
    if let Some(shape) = shape_of(linked) {
        put_classes(words, statics_of(linked), objects, shape.classes());
    }
}

/// The words of a linked package's static fields, one for each byte offset of its image: their values when the package
/// is loaded, if its initialised arrays follow so many objects.
pub fn static_words(alloc: Global, linked: &Linked, objects: u16) -> Result<Vec<u16>, AllocError>
    ensures { objects + length linked.now.body.kept.statics.arrays < 65536
        → IfOk result (λ words. HoldsFields words.items (loaded_statics (suc objects) linked.now)) }
{
    let size = statics_of(linked).size;
    let mut words = vec![in alloc; 0; usize::from(size)]?;
    put_statics(&mut words, linked, objects);
    Ok(words)
}
