//! The Descriptor component as a whole.

ghost use Rattle.std.specs.Prelude.{◌≡◌, ◌≤◌, length, true, IfOk};
ghost use Rattle.jc_base.specs.Cursor.{Gives};
ghost use Rattle.jc_base.specs.Rows.{repeat};
ghost use Rattle.jc_cap_desc.specs.ClassRow.{next_class_row};
ghost use Rattle.jc_cap_desc.specs.Component.{layout_of};

use crate::class_row::ClassRows;
use crate::type_descriptors::TypeDescriptors;
use jc_base::tag::DESCRIPTOR;
use jc_base::{Cursor, LoadFault, Parts, Rows, U2s};

/// The Descriptor component.
#[derive(Drop)]
pub struct DescriptorInfo<'a> {
    /// The rows of the package's classes and interfaces.
    pub classes: ClassRows<'a>,
    /// For each entry of the constant pool, the offset of the descriptor of its type, or `FFFF` if it has no type.
    pub pool_types: U2s<'a>,
    /// The type descriptors. Their offsets count from the first byte of the number of pool types.
    pub types: TypeDescriptors<'a>,
}

/// The next `count` rows of classes.
fn next_classes<'a>(cursor: &mut Cursor<'a>, count: u8) -> Result<ClassRows<'a>, LoadFault>
    ensures read { Gives (λ rows. rows) result cursor.new (repeat next_class_row count cursor.old) }
    ensures few { IfOk result (λ rows. length rows ≤ 255) }
{
    Rows::read(cursor, u16::from(count))
}

#[tactic(auto, unfolding(crate::specs::Component::layout_of))]
fn layout_of<'a>(info: &'a [u8]) -> Result<DescriptorInfo<'a>, LoadFault>
    ensures layout { result ≡ layout_of info.now }
    ensures few { IfOk result (λ found. length found.classes ≤ 255) }
{
    let mut cursor = Cursor::new(info);
    let class_count = cursor.u1().ok_or(LoadFault::Malformed(DESCRIPTOR))?;
    let classes = next_classes(&mut cursor, class_count)?;
    let behind_classes = Cursor::new(cursor.rest());
    let pool_count = cursor.u2().ok_or(LoadFault::Malformed(DESCRIPTOR))?;
    let size = 2 * usize::from(pool_count);
    let offsets = cursor.take(size).ok_or(LoadFault::Malformed(DESCRIPTOR))?;
    let types = TypeDescriptors::read(&behind_classes, 2 + size)?;
    Ok(DescriptorInfo {
        classes,
        pool_types: U2s::new(offsets),
        types,
    })
}

/// Reads the Descriptor component by its layout, whatever types its rows name. `Malformed(11)`.
pub fn descriptor_layout<'a>(parts: &Parts<'a>) -> Result<DescriptorInfo<'a>, LoadFault>
    ensures layout { result ≡ layout_of parts.now.descriptor }
    ensures few { IfOk result (λ found. length found.classes ≤ 255) }
{
    layout_of(parts.descriptor())
}
