//! Rows of classes, fields and methods.

ghost use Rattle.std.specs.Prelude.{◌≡◌};
ghost use Rattle.jc_base.specs.Cursor.{Gives};
ghost use Rattle.jc_cap_desc.specs.ClassRow.{stated_type_of, next_place, next_field_row, next_method_row};
ghost use Rattle.jc_cap_desc.specs.ClassRow.{next_class_row};
ghost use Rattle.jc_cap_desc.specs.PrivateClassRow.{field_row_has_size, method_row_has_size};

use jc_base::tag::DESCRIPTOR;
use jc_base::{ClassRef, Cursor, FixedRow, LoadFault, Row, Rows, class_ref_of, has_flag};

/// The field or method is static.
const ACC_STATIC: u8 = 8;
/// The class is abstract.
const ACC_ABSTRACT: u8 = 0x80;

const BOOLEAN: u16 = 0x8002;

const BYTE: u16 = 0x8003;

const SHORT: u16 = 0x8004;
/// Numbers below this are offsets of type descriptors.
const PRIMITIVE: u16 = 0x8000;

/// The place of a field.
#[derive(Clone, Copy, Debug, PartialEq, Eq)]
pub enum FieldPlace {
    /// At an offset of the static image.
    Static { offset: u16 },
    /// In each object of a class, under a token.
    Instance { class: ClassRef, token: u8 },
}

/// The type in a field's row.
#[derive(Clone, Copy, Debug, PartialEq, Eq)]
pub enum StatedType {
    Boolean,
    Byte,
    Short,
    /// The type whose descriptor begins at this offset, below 32,768.
    Described { offset: u16 },
    /// A number that encodes no type.
    Unknown,
}

/// A field's row (Java Card Virtual Machine Specification, Descriptor component: `field_descriptor_info`). The token in
/// its first byte is redundant and ignored.
#[derive(Clone, Copy, Debug, PartialEq, Eq)]
pub struct FieldRow {
    pub place: FieldPlace,
    pub stated: StatedType,
}

/// A method's row (Java Card Virtual Machine Specification, Descriptor component: `method_descriptor_info`).
#[derive(Clone, Copy, Debug, PartialEq, Eq)]
pub struct MethodRow {
    /// The method's token. It is used only for an interface's methods.
    pub token: u8,
    pub is_static: bool,
    /// The offset of the method's header in the Method component. It is used only for a class's methods.
    pub offset: u16,
    /// The offset of the descriptor of the method's type.
    pub type_offset: u16,
    /// How many bytes of code follow the header: none if the method is abstract.
    pub bytecode_count: u16,
    /// How many handlers of the table belong to the method.
    pub handler_count: u16,
    /// The index of the first of them.
    pub handler_index: u16,
}

/// The rows of a class's fields.
pub type FieldRows<'a> = Rows<Cursor<'a>, FieldRow>;

/// The rows of a class's methods.
pub type MethodRows<'a> = Rows<Cursor<'a>, MethodRow>;

/// The row of a class or an interface (Java Card Virtual Machine Specification, Descriptor component:
/// `class_descriptor_info`). Its token and its repeated interfaces are ignored.
#[derive(Drop)]
pub struct ClassRow<'a> {
    pub is_abstract: bool,
    /// The class that the row describes.
    pub this: ClassRef,
    pub fields: FieldRows<'a>,
    pub methods: MethodRows<'a>,
}

/// The rows of a package's classes and interfaces.
pub type ClassRows<'a> = Rows<Cursor<'a>, ClassRow<'a>>;

/// The type that the number in a field's row encodes.
fn stated_type_of(number: u16) -> StatedType
    ensures { result ≡ stated_type_of number }
{
    if number < PRIMITIVE {
        return StatedType::Described { offset: number };
    }
    match number {
        BOOLEAN => StatedType::Boolean,
        BYTE => StatedType::Byte,
        SHORT => StatedType::Short,
        _ => StatedType::Unknown,
    }
}

/// The reference in a field's row.
#[tactic(auto, unfolding(crate::specs::ClassRow::next_place))]
fn next_place(is_static: bool, cursor: &mut Cursor) -> Result<FieldPlace, LoadFault>
    ensures { Gives (λ p. p) result cursor.new (next_place is_static cursor.old) }
{
    if is_static {
        cursor.u1().ok_or(LoadFault::Malformed(DESCRIPTOR))?;
        let offset = cursor.u2().ok_or(LoadFault::Malformed(DESCRIPTOR))?;
        return Ok(FieldPlace::Static { offset });
    }
    let class = cursor.u2().ok_or(LoadFault::Malformed(DESCRIPTOR))?;
    let token = cursor.u1().ok_or(LoadFault::Malformed(DESCRIPTOR))?;
    Ok(FieldPlace::Instance {
        class: class_ref_of(class),
        token,
    })
}

impl<'a> Row<Cursor<'a>> for FieldRow {
    ghost next_row = { next_field_row };

    #[tactic(auto, unfolding(crate::specs::ClassRow::next_field_row))]
    fn next_row(cursor: &mut Cursor<'a>) -> Result<FieldRow, LoadFault> {
        cursor.u1().ok_or(LoadFault::Malformed(DESCRIPTOR))?;
        let flags = cursor.u1().ok_or(LoadFault::Malformed(DESCRIPTOR))?;
        let place = next_place(has_flag(flags, ACC_STATIC), cursor)?;
        let number = cursor.u2().ok_or(LoadFault::Malformed(DESCRIPTOR))?;
        Ok(FieldRow {
            place,
            stated: stated_type_of(number),
        })
    }
}

impl<'a> FixedRow<Cursor<'a>> for FieldRow {
    ghost size = { 7 };

    fn size() -> u8
        ensures { result ≡ 7 }
    {
        7
    }

    ghost has_size = { field_row_has_size };
}

impl<'a> Row<Cursor<'a>> for MethodRow {
    ghost next_row = { next_method_row };

    #[tactic(auto, unfolding(crate::specs::ClassRow::next_method_row))]
    fn next_row(cursor: &mut Cursor<'a>) -> Result<MethodRow, LoadFault> {
        let token = cursor.u1().ok_or(LoadFault::Malformed(DESCRIPTOR))?;
        let flags = cursor.u1().ok_or(LoadFault::Malformed(DESCRIPTOR))?;
        let offset = cursor.u2().ok_or(LoadFault::Malformed(DESCRIPTOR))?;
        let type_offset = cursor.u2().ok_or(LoadFault::Malformed(DESCRIPTOR))?;
        let bytecode_count = cursor.u2().ok_or(LoadFault::Malformed(DESCRIPTOR))?;
        let handler_count = cursor.u2().ok_or(LoadFault::Malformed(DESCRIPTOR))?;
        let handler_index = cursor.u2().ok_or(LoadFault::Malformed(DESCRIPTOR))?;
        Ok(MethodRow {
            token,
            is_static: has_flag(flags, ACC_STATIC),
            offset,
            type_offset,
            bytecode_count,
            handler_count,
            handler_index,
        })
    }
}

impl<'a> FixedRow<Cursor<'a>> for MethodRow {
    ghost size = { 12 };

    fn size() -> u8
        ensures { result ≡ 12 }
    {
        12
    }

    ghost has_size = { method_row_has_size };
}

impl<'a> Row<Cursor<'a>> for ClassRow<'a> {
    ghost next_row = { next_class_row };

    #[tactic(auto, unfolding(crate::specs::ClassRow::next_class_row))]
    fn next_row(cursor: &mut Cursor<'a>) -> Result<ClassRow<'a>, LoadFault> {
        cursor.u1().ok_or(LoadFault::Malformed(DESCRIPTOR))?;
        let flags = cursor.u1().ok_or(LoadFault::Malformed(DESCRIPTOR))?;
        let this = cursor.u2().ok_or(LoadFault::Malformed(DESCRIPTOR))?;
        let interface_count = cursor.u1().ok_or(LoadFault::Malformed(DESCRIPTOR))?;
        let field_count = cursor.u2().ok_or(LoadFault::Malformed(DESCRIPTOR))?;
        let method_count = cursor.u2().ok_or(LoadFault::Malformed(DESCRIPTOR))?;
        cursor
            .take(2 * usize::from(interface_count))
            .ok_or(LoadFault::Malformed(DESCRIPTOR))?;
        let fields = Rows::read(cursor, field_count)?;
        let methods = Rows::read(cursor, method_count)?;
        Ok(ClassRow {
            is_abstract: has_flag(flags, ACC_ABSTRACT),
            this: class_ref_of(this),
            fields,
            methods,
        })
    }
}
