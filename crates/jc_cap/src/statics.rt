//! The StaticField component.

ghost use Rattle.std.specs.Prelude.{◌≡◌, ◌+◌, ◌*◌, ◌≤◌, length, IfOk};
ghost use Rattle.jc_base.specs.Cursor.{whole};
ghost use Rattle.jc_base.specs.Tag.{static_field_tag};
ghost use Rattle.jc_cap.specs.Statics.{fits, next_static_image, static_fields_of};

use crate::arrays::StaticArrays;
use jc_base::tag::STATIC_FIELD;
use jc_base::{Cursor, LoadFault, Parts};
use std::marker::Model;

/// The static fields of a package. Their image begins with the references: first those to the initialised arrays, then
/// null ones. Bytes of value 0 follow, and then bytes with given values.
#[derive(Drop)]
pub struct StaticFields<'a> {
    size: u16,
    references: u16,
    arrays: StaticArrays<'a>,
    defaults: u16,
    values: &'a [u8],
}

impl<'a> Model for StaticFields<'a> {
    ghost use Rattle.jc_cap.specs.Statics.{StaticImage};

    ghost Value = { StaticImage };

    ghost view = { λ s. record {
      size = s.size;
      references = s.references;
      arrays = s.arrays;
      defaults = s.defaults;
      values = s.values.now;
    } };
}

impl<'a> StaticFields<'a> {
    /// How many bytes the image has.
    pub fn image_size(&self) -> u16
        ensures { result ≡ self.now.size }
    {
        self.size
    }

    /// How many references the image begins with, two bytes each.
    pub fn reference_count(&self) -> u16
        ensures { result ≡ self.now.references }
    {
        self.references
    }

    /// The initialised arrays, which the first references refer to.
    pub fn arrays(&self) -> StaticArrays<'a>
        ensures { result ≡ self.now.arrays }
    {
        self.arrays.again()
    }

    /// How many bytes of value 0 follow the references.
    pub fn default_count(&self) -> u16
        ensures { result ≡ self.now.defaults }
    {
        self.defaults
    }

    /// The bytes after those.
    pub fn values(&self) -> &'a [u8]
        ensures { result.now ≡ self.now.values }
    {
        self.values
    }

    /// Whether the sizes of the parts add up to the size, and each array has a reference.
    fn fits(&self) -> bool
        ensures { result ≡ fits self.now }
    {
        let zeros = 2 * usize::from(self.reference_count()) + usize::from(self.default_count());
        let size = usize::from(self.image_size());
        size == zeros + self.values().len()
            && self.arrays().len() <= usize::from(self.reference_count())
    }
}

/// The static image that an info encodes, with nothing after it.
#[tactic(auto, unfolding(crate::specs::Statics::next_static_image))]
fn image_in<'a>(info: &'a [u8]) -> Result<StaticFields<'a>, LoadFault>
    ensures { result ≡ whole (LoadFault.Malformed static_field_tag) (next_static_image info.now) }
{
    let mut cursor = Cursor::new(info);
    let size = cursor.u2().ok_or(LoadFault::Malformed(STATIC_FIELD))?;
    let references = cursor.u2().ok_or(LoadFault::Malformed(STATIC_FIELD))?;
    let count = cursor.u2().ok_or(LoadFault::Malformed(STATIC_FIELD))?;
    let arrays = StaticArrays::read(&mut cursor, count)?;
    let defaults = cursor.u2().ok_or(LoadFault::Malformed(STATIC_FIELD))?;
    let given = cursor.u2().ok_or(LoadFault::Malformed(STATIC_FIELD))?;
    let values = cursor
        .take(usize::from(given))
        .ok_or(LoadFault::Malformed(STATIC_FIELD))?;
    if !cursor.is_empty() {
        return Err(LoadFault::Malformed(STATIC_FIELD));
    }
    Ok(StaticFields {
        size,
        references,
        arrays,
        defaults,
        values,
    })
}

/// Reads the StaticField component (Java Card Virtual Machine Specification, CAP file format: StaticField
/// component). `Malformed(8)`.
pub fn read_static_fields<'a>(parts: &Parts<'a>) -> Result<StaticFields<'a>, LoadFault>
    ensures read { result ≡ static_fields_of parts.now.static_field }
    ensures sum { IfOk result (λ s. s.size ≡ 2 * s.references + s.defaults + length s.values) }
    ensures room { IfOk result (λ s. length s.arrays ≤ s.references) }
{
    let fields = image_in(parts.static_field())?;
    if !fields.fits() {
        return Err(LoadFault::Malformed(STATIC_FIELD));
    }
    Ok(fields)
}
