//! The classes of a package: their records joined with their rows.

ghost use Rattle.std.specs.Prelude.{◌≡◌, ◌==◌, ◌∷◌, [], true, IfSome, IfNone};
ghost use Rattle.std.specs.List.{find};
ghost use Rattle.jc_cap_desc.specs.Across.{count_rows, is_row_of};
ghost use Rattle.jc_cap_desc.specs.PrivateRecordRows.{IsAmong};
ghost use Rattle.jc_cap_desc.specs.Shape.{class_shape};
ghost use Rattle.jc_cap_desc.specs.Types.{classes_are_typed};

use crate::across::is_row_of;
use crate::class_row::{ClassRow, ClassRows};
use crate::component::DescriptorInfo;
use crate::fields::Fields;
use crate::interfaces::is_interface;
use crate::methods::ClassMethods;
use crate::type_descriptors::TypeDescriptors;
use jc_base::{ClassRef, Placed};
use jc_cap::{MethodInfo, Record, RecordBody, Records};
use std::marker::Model;

/// A class or an interface: its record with its row.
#[derive(Drop)]
pub struct Class<'p, 'a> {
    types: &'p TypeDescriptors<'a>,
    bodies: &'p MethodInfo<'a>,
    placed: Placed<Record<'a>>,
    row: ClassRow<'a>,
}

impl<'p, 'a> Model for Class<'p, 'a> {
    ghost use Rattle.std.specs.Prelude.{◌≡◌, true};
    ghost use Rattle.jc_cap_desc.specs.Across.{is_row_of};
    ghost use Rattle.jc_cap_desc.specs.Shape.{ClassShape, joined};
    ghost use Rattle.jc_cap_desc.specs.Types.{methods_are_typed};

    ghost Value = { ClassShape };

    ghost view = { λ c. joined c.types.now c.bodies.now c.placed c.row };

    ghost invariant = { λ c. (is_row_of c.placed.offset c.row ≡ true)
        × (methods_are_typed c.types.now c.row.methods ≡ true) };
}

impl<'p, 'a> Class<'p, 'a> {
    /// The offset of its record in the Class component, as its row states it.
    pub fn offset(&self) -> u16
        ensures { result ≡ self.now.offset }
    {
        match self.row.this {
            ClassRef::Internal { offset } => offset,
            ClassRef::External { .. } => 0,
        }
    }

    /// The body of its record.
    pub fn body(&self) -> &RecordBody<'a>
        ensures { result.now ≡ self.now.body }
    {
        &self.placed.row.body
    }

    /// Whether it is abstract.
    pub fn is_abstract(&self) -> bool
        ensures { result ≡ self.now.is_abstract }
    {
        self.row.is_abstract
    }

    /// Its fields, in the order of their rows.
    pub fn fields(&self) -> Fields<'p, 'a>
        ensures { result ≡ self.now.fields }
    {
        Fields {
            types: self.types,
            left: self.row.fields.again(),
        }
    }

    /// Its methods, in the order of their rows.
    pub fn methods(&self) -> ClassMethods<'p, 'a>
        ensures { result ≡ self.now.methods }
    {
        ClassMethods {
            types: self.types,
            bodies: self.bodies,
            is_class: !is_interface(&self.placed.row.body),
            left: self.row.methods.again(),
        }
    }
}

/// The row of the record at an offset, if there is one. It searches all rows.
fn row_among<'a>(offset: usize, rows: &ClassRows<'a>) -> Option<ClassRow<'a>>
    ensures found { result ≡ find (is_row_of offset) rows.now }
    ensures named { IfSome result (λ row. is_row_of offset row ≡ true) }
{
    let mut left = rows.again();
    while let Some(row) = left.next() {
        if is_row_of(offset, &row) {
            return Some(row);
        }
    }
    None
}

/// The row of the record at an offset. It tests the row `ahead` first: if rows stand in the order of their records,
/// that is the row.
#[tactic(auto, using(crate::proofs::Ahead::only_row))]
fn row_of<'a>(
    offset: usize,
    rows: &ClassRows<'a>,
    ahead: Option<ClassRow<'a>>,
) -> Option<ClassRow<'a>>
    requires one { count_rows offset rows.now == 1 ≡ true }
    requires among { IfSome ahead (λ row. IsAmong row rows.now) }
    ensures found { result ≡ find (is_row_of offset) rows.now }
    ensures named { IfSome result (λ row. is_row_of offset row ≡ true) }
{
    if let Some(row) = ahead {
        if is_row_of(offset, &row) {
            return Some(row);
        }
    }
    row_among(offset, rows)
}

/// The class or interface of a record, if it has a row.
#[tactic(auto, using(crate::proofs::Typing::row_typed))]
fn class_of<'p, 'a>(
    info: &'p DescriptorInfo<'a>,
    bodies: &'p MethodInfo<'a>,
    placed: Placed<Record<'a>>,
    ahead: Option<ClassRow<'a>>,
) -> Option<Class<'p, 'a>>
    requires typed { classes_are_typed info.now.types info.now.classes ≡ true }
    requires one { count_rows placed.offset info.now.classes == 1 ≡ true }
    requires among { IfSome ahead (λ row. IsAmong row info.now.classes) }
    ensures { result ≡ class_shape info.now bodies.now placed.entry }
{
    let row = row_of(placed.offset, &info.classes, ahead)?;
    Some(Class {
        types: &info.types,
        bodies,
        placed,
        row,
    })
}

/// The classes and interfaces of a package, in the order of their records.
#[derive(Drop)]
pub struct Classes<'p, 'a> {
    pub(crate) info: &'p DescriptorInfo<'a>,
    pub(crate) bodies: &'p MethodInfo<'a>,
    pub(crate) left: Records<'a>,
    /// The rows that weren't tested first yet.
    pub(crate) ahead: ClassRows<'a>,
}

impl<'p, 'a> Model for Classes<'p, 'a> {
    ghost use Rattle.std.specs.Prelude.{◌≡◌, true, List};
    ghost use Rattle.std.specs.List.{filter_map};
    ghost use Rattle.jc_cap_desc.specs.PrivateRecordRows.{AreAmong, each_has_row};
    ghost use Rattle.jc_cap_desc.specs.Shape.{ClassShape, class_shape};
    ghost use Rattle.jc_cap_desc.specs.Types.{classes_are_typed};

    ghost Value = { List ClassShape };

    ghost view = { λ c. filter_map (class_shape c.info.now c.bodies.now) c.left };

    ghost invariant = { λ c. (classes_are_typed c.info.now.types c.info.now.classes ≡ true)
        × (each_has_row c.left c.info.now.classes ≡ true) × AreAmong c.ahead c.info.now.classes };
}

impl<'p, 'a> Classes<'p, 'a> {
    /// Takes the first class off, or returns `None` if there is none.
    pub fn next(&mut self) -> Option<Class<'p, 'a>>
        ensures some { IfSome result (λ class. self.old ≡ class ∷ self.new) }
        ensures none { IfNone result ((self.old ≡ []) × (self.new ≡ [])) }
    {
        while let Some(placed) = self.left.next() {
            let ahead = self.ahead.next();
            if let Some(class) = class_of(self.info, self.bodies, placed, ahead) {
                return Some(class);
            }
        }
        None
    }
}
