//! Fields, and the cells of objects.

ghost use Rattle.std.specs.Prelude.{◌≡◌, ◌≤◌};
ghost use Rattle.std.specs.List.{find};
ghost use Rattle.std.specs.Option.{option_map, option_map_or};
ghost use Rattle.jc_classes.specs.Record.{declared_size};
ghost use Rattle.jc_classes.specs.Walk.{most_classes};
ghost use Rattle.jc_classes.specs.World.{class_at};
ghost use Rattle.jc_link.specs.Named.{is_instance_field, is_static_field, instance_field_in, instance_field_at};
ghost use Rattle.jc_link.specs.Named.{static_field_in, static_field_at, cells_above};

use crate::classes::MOST_CLASSES;
use jc_cap_desc::FieldPlace;
use jc_classes::{Class, ClassTable, Field, PackageShape};
use jc_names::{ClassName, PackagePlace};

/// Whether this is the place of an instance field with a token.
fn is_instance_field(token: u8, place: FieldPlace) -> bool
    ensures { result ≡ is_instance_field token place }
{
    match place {
        FieldPlace::Static { .. } => false,
        FieldPlace::Instance { token: found, .. } => found == token,
    }
}

/// Whether this is the place of a static field at an offset of the static image.
fn is_static_field(offset: u16, place: FieldPlace) -> bool
    ensures { result ≡ is_static_field offset place }
{
    match place {
        FieldPlace::Static { offset: found } => found == offset,
        FieldPlace::Instance { .. } => false,
    }
}

/// The first field that a class itself declares with a token.
fn instance_field_in(class: &Class, token: u8) -> Option<&Field>
    ensures { option_map (λ f. f.now) result ≡ instance_field_in token class.now }
{
    class
        .fields()
        .iter()
        .find(|f| is_instance_field(token, f.place()))
}

/// The first field that the class with a name itself declares with a token.
pub(crate) fn instance_field_at(table: &ClassTable, class: ClassName, token: u8) -> Option<&Field>
    ensures { option_map (λ f. f.now) result ≡ instance_field_at table.now class token }
{
    let found = table.class_at(class)?;
    instance_field_in(found, token)
}

/// The first static field among these at an offset of the static image.
fn static_field_among(fields: &[Field], offset: u16) -> Option<&Field>
    ensures { option_map (λ f. f.now) result ≡ find (λ f. is_static_field offset f.place) fields.now }
{
    fields.iter().find(|f| is_static_field(offset, f.place()))
}

/// The first static field at an offset of a package's static image, in the order of the classes.
fn static_field_in(shape: &PackageShape, offset: u16) -> Option<&Field>
    ensures { option_map (λ f. f.now) result ≡ static_field_in offset shape.now }
{
    for class in shape.classes() {
        if let Some(found) = static_field_among(class.fields(), offset) {
            return Some(found);
        }
    }
    None
}

/// The static field at an offset of the static image of the package at a place.
pub(crate) fn static_field_at(table: &ClassTable, home: PackagePlace, offset: u16) -> Option<&Field>
    ensures { option_map (λ f. f.now) result ≡ static_field_at table.now (record { home = home; offset = offset }) }
{
    let shape = table.shape(home)?;
    static_field_in(shape, offset)
}

/// How many cells of an object a class itself declares; 0 if it is missing.
fn size_of(table: &ClassTable, class: ClassName) -> u8
    ensures { result ≡ option_map_or (λ k. declared_size k.body) (class_at table.now class) 0 }
{
    match table.class_at(class) {
        Some(found) => found.declared_size(),
        None => 0,
    }
}

/// How many cells of an object the superclasses of a class take.
pub(crate) fn cells_above(table: &ClassTable, class: ClassName) -> usize
    ensures cells { result ≡ cells_above table.now most_classes class }
    ensures most { result ≤ 4_356_675 }
{
    let mut cells = 0;
    let mut at = class;
    for _ in 0..MOST_CLASSES {
        let Some(above) = table.superclass_of(at) else {
            return cells;
        };
        cells += usize::from(size_of(table, above));
        at = above;
    }
    cells
}
