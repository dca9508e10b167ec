//! The initialised arrays of the StaticField component.

ghost use Rattle.std.specs.Prelude.{◌≡◌};
ghost use Rattle.jc_cap.specs.Arrays.{array_of, next_static_array};

use jc_base::tag::STATIC_FIELD;
use jc_base::{Cursor, LoadFault, Row, Rows, S1s, S2s};

/// The type of an array of booleans.
const BOOLEAN: u8 = 2;
/// The type of an array of bytes.
const BYTE: u8 = 3;
/// The type of an array of shorts.
const SHORT: u8 = 4;
/// The greatest number of components of an array.
const MOST_COMPONENTS: usize = 32_767;

/// An initialised array of a package's static fields. The byte of a boolean is kept unchanged.
#[derive(Drop)]
pub enum StaticArray<'a> {
    Boolean(S1s<'a>),
    Byte(S1s<'a>),
    Short(S2s<'a>),
}

/// The array of a type with these bytes.
fn array_of<'a>(kind: u8, bytes: &'a [u8]) -> Option<StaticArray<'a>>
    ensures { result ≡ array_of kind bytes.now }
{
    if kind == BOOLEAN && bytes.len() <= MOST_COMPONENTS {
        Some(StaticArray::Boolean(S1s::new(bytes)))
    } else if kind == BYTE && bytes.len() <= MOST_COMPONENTS {
        Some(StaticArray::Byte(S1s::new(bytes)))
    } else if kind == SHORT && bytes.len() % 2 == 0 {
        Some(StaticArray::Short(S2s::new(bytes)))
    } else {
        None
    }
}

impl<'a> Row<Cursor<'a>> for StaticArray<'a> {
    ghost next_row = { next_static_array };

    #[tactic(auto, unfolding(crate::specs::Arrays::next_static_array))]
    fn next_row(cursor: &mut Cursor<'a>) -> Result<StaticArray<'a>, LoadFault> {
        let kind = cursor.u1().ok_or(LoadFault::Malformed(STATIC_FIELD))?;
        let size = cursor.u2().ok_or(LoadFault::Malformed(STATIC_FIELD))?;
        let bytes = cursor
            .take(usize::from(size))
            .ok_or(LoadFault::Malformed(STATIC_FIELD))?;
        array_of(kind, bytes).ok_or(LoadFault::Malformed(STATIC_FIELD))
    }
}

/// Initialised arrays, in their order.
pub type StaticArrays<'a> = Rows<Cursor<'a>, StaticArray<'a>>;
