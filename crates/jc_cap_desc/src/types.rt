//! The types that rows and pool entries name.

ghost use Rattle.std.specs.Prelude.{◌≡◌, ◌==◌, ◌||◌};
ghost use Rattle.jc_base.specs.PlacedRows.{row_at};
ghost use Rattle.std.specs.Option.{is_some};
ghost use Rattle.jc_cap_desc.specs.Types.{type_of_field, is_same_class, is_own_field, fields_are_typed};
ghost use Rattle.jc_cap_desc.specs.Types.{methods_are_typed, classes_are_typed, no_type, pool_is_typed};
ghost use Rattle.jc_cap_desc.specs.Types.{types_are_there};
ghost use Rattle.jc_cap_desc.specs.PrivateTypes.{IndexesTypes, PlacedTypes};

use crate::class_row::{ClassRows, FieldPlace, FieldRows, MethodRows, StatedType};
use crate::component::DescriptorInfo;
use crate::type_index::TypeIndex;
use jc_base::{ClassRef, U2s};

/// The type offset of a pool entry that has no type.
pub(crate) const NO_TYPE: u16 = 0xFFFF;

/// Whether the type of a field's row exists.
fn is_typed(index: &TypeIndex, stated: StatedType) -> bool
    ensures { (types : PlacedTypes) → IndexesTypes index.now types → result ≡ is_some (type_of_field types stated) }
{
    match stated {
        StatedType::Boolean | StatedType::Byte | StatedType::Short => true,
        StatedType::Described { offset } => index.fields.contains(offset),
        StatedType::Unknown => false,
    }
}

/// Whether a field belongs to a class; every static field counts as its own.
fn is_own_field(this: ClassRef, place: FieldPlace) -> bool
    ensures { result ≡ is_own_field this place }
{
    match place {
        FieldPlace::Static { .. } => true,
        FieldPlace::Instance { class, .. } => class == this,
    }
}

/// Whether each field of a class is its own, and its type exists.
fn fields_are_typed(index: &TypeIndex, this: ClassRef, fields: &FieldRows) -> bool
    ensures { (types : PlacedTypes) → IndexesTypes index.now types → result ≡ fields_are_typed types this fields.now }
{
    let mut left = fields.again();
    while let Some(field) = left.next() {
        if !(is_own_field(this, field.place) && is_typed(index, field.stated)) {
            return false;
        }
    }
    true
}

/// Whether each method's type exists.
fn methods_are_typed(index: &TypeIndex, methods: &MethodRows) -> bool
    ensures { (types : PlacedTypes) → IndexesTypes index.now types → result ≡ methods_are_typed types methods.now }
{
    let mut left = methods.again();
    while let Some(method) = left.next() {
        if !index.starts.contains(method.type_offset) {
            return false;
        }
    }
    true
}

/// Whether the types of each class's fields and methods exist.
fn classes_are_typed(index: &TypeIndex, rows: &ClassRows) -> bool
    ensures { (types : PlacedTypes) → IndexesTypes index.now types → result ≡ classes_are_typed types rows.now }
{
    let mut left = rows.again();
    while let Some(row) = left.next() {
        if !(fields_are_typed(index, row.this, &row.fields)
            && methods_are_typed(index, &row.methods))
        {
            return false;
        }
    }
    true
}

/// Whether a pool entry's type exists, if it has one.
fn is_entry_typed(index: &TypeIndex, offset: u16) -> bool
    ensures { (types : PlacedTypes) → IndexesTypes index.now types
        → result ≡ (offset == no_type || is_some (row_at offset types)) }
{
    offset == NO_TYPE || index.starts.contains(offset)
}

/// Whether each pool entry's type exists, if it has one.
fn pool_is_typed(index: &TypeIndex, offsets: &U2s) -> bool
    ensures { (types : PlacedTypes) → IndexesTypes index.now types → result ≡ pool_is_typed types offsets.now }
{
    for at in 0..offsets.len() {
        let offset = offsets.get(at).unwrap_or(NO_TYPE);
        if !is_entry_typed(index, offset) {
            return false;
        }
    }
    true
}

/// Whether all types that are named exist.
pub(crate) fn types_are_there(info: &DescriptorInfo, index: &TypeIndex) -> bool
    ensures { IndexesTypes index.now info.now.types → result ≡ types_are_there info.now }
{
    pool_is_typed(index, &info.pool_types) && classes_are_typed(index, &info.classes)
}
