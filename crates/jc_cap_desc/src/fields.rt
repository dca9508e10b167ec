//! The fields of a class, with their types.

ghost use Rattle.std.specs.Prelude.{◌≡◌, ◌∷◌, [], IfSome, IfNone};
ghost use Rattle.jc_cap_desc.specs.Shape.{field_shape};
ghost use Rattle.jc_cap_desc.specs.Types.{type_of_field};

use crate::class_row::{FieldPlace, FieldRow, FieldRows, StatedType};
use crate::type_descriptors::TypeDescriptors;
use jc_base::{ClassRef, DeclaredType};
use std::marker::Model;

/// The type that a field's row states, if it exists.
fn type_of_field(types: &TypeDescriptors, stated: StatedType) -> Option<DeclaredType<ClassRef>>
    ensures { result ≡ type_of_field types.now stated }
{
    match stated {
        StatedType::Boolean => Some(DeclaredType::Boolean),
        StatedType::Byte => Some(DeclaredType::Byte),
        StatedType::Short => Some(DeclaredType::Short),
        StatedType::Described { offset } => types.at(offset)?.field_type(),
        StatedType::Unknown => None,
    }
}

/// A field of a class.
#[derive(Drop)]
pub struct Field {
    place: FieldPlace,
    declared: DeclaredType<ClassRef>,
}

impl Model for Field {
    ghost use Rattle.jc_cap_desc.specs.Shape.{FieldShape};

    ghost Value = { FieldShape };

    ghost view = { λ f. record { place = f.place; type = f.declared } };
}

impl Field {
    /// Its place.
    pub fn place(&self) -> FieldPlace
        ensures { result ≡ self.now.place }
    {
        self.place
    }

    /// Its type.
    pub fn declared_type(&self) -> DeclaredType<ClassRef>
        ensures { result ≡ self.now.type }
    {
        self.declared
    }
}

/// The field of a row, if its type exists.
fn field_of(types: &TypeDescriptors, row: &FieldRow) -> Option<Field>
    ensures { result ≡ field_shape types.now row.now }
{
    let declared = type_of_field(types, row.stated)?;
    Some(Field {
        place: row.place,
        declared,
    })
}

/// The fields of a class.
#[derive(Drop)]
pub struct Fields<'p, 'a> {
    pub(crate) types: &'p TypeDescriptors<'a>,
    pub(crate) left: FieldRows<'a>,
}

impl<'p, 'a> Model for Fields<'p, 'a> {
    ghost use Rattle.std.specs.Prelude.{List};
    ghost use Rattle.std.specs.List.{filter_map};
    ghost use Rattle.jc_cap_desc.specs.Shape.{FieldShape, field_shape};

    ghost Value = { List FieldShape };

    ghost view = { λ f. filter_map (field_shape f.types.now) f.left };
}

impl<'p, 'a> Fields<'p, 'a> {
    /// Takes the first field off, or returns `None` if there is none.
    pub fn next(&mut self) -> Option<Field>
        ensures some { IfSome result (λ field. self.old ≡ field ∷ self.new) }
        ensures none { IfNone result ((self.old ≡ []) × (self.new ≡ [])) }
    {
        while let Some(row) = self.left.next() {
            if let Some(field) = field_of(self.types, &row) {
                return Some(field);
            }
        }
        None
    }
}
