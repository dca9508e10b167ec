//! The types of fields, parameters and results.

ghost use Rattle.std.specs.Prelude.{◌≡◌, ◌<◌, IfOk};
ghost use Rattle.jc_base.specs.Cursor.{Gives, field};
ghost use Rattle.jc_base.specs.Tag.{descriptor_tag};
ghost use Rattle.jc_cap.specs.Nibbles.{next_nibble};
ghost use Rattle.jc_cap.specs.DeclaredType.{next_class, next_coded_type, next_type, next_coded_return};
ghost use Rattle.jc_cap.specs.DeclaredType.{next_return};

use crate::nibbles::Nibbles;
use jc_base::tag::DESCRIPTOR;
use jc_base::{ClassRef, DeclaredType, LoadFault, ReturnType, Row, class_ref_of};

const VOID: u8 = 1;

const BOOLEAN: u8 = 2;

const BYTE: u8 = 3;

const SHORT: u8 = 4;

const REFERENCE: u8 = 6;

const BOOLEAN_ARRAY: u8 = 0xA;

const BYTE_ARRAY: u8 = 0xB;

const SHORT_ARRAY: u8 = 0xC;

const REFERENCE_ARRAY: u8 = 0xE;

/// The next nibble.
fn nibble(nibbles: &mut Nibbles) -> Result<u8, LoadFault>
    ensures next { Gives (λ n. n) result nibbles.new (field descriptor_tag (next_nibble nibbles.old)) }
    ensures small { IfOk result (λ n. n < 16) }
{
    nibbles.next().ok_or(LoadFault::Malformed(DESCRIPTOR))
}

/// The class that the next four nibbles name.
#[tactic(auto, unfolding(crate::specs::DeclaredType::next_class))]
fn next_class(nibbles: &mut Nibbles) -> Result<ClassRef, LoadFault>
    ensures { Gives (λ c. c) result nibbles.new (next_class nibbles.old) }
{
    let first = u16::from(nibble(nibbles)?);
    let second = u16::from(nibble(nibbles)?);
    let third = u16::from(nibble(nibbles)?);
    let fourth = u16::from(nibble(nibbles)?);
    Ok(class_ref_of(16 * (16 * (16 * first + second) + third) + fourth))
}

/// The rest of a type, after its first nibble.
#[tactic(auto, unfolding(crate::specs::DeclaredType::next_coded_type))]
fn next_coded_type(code: u8, nibbles: &mut Nibbles) -> Result<DeclaredType<ClassRef>, LoadFault>
    ensures { Gives (λ t. t) result nibbles.new (next_coded_type code nibbles.old) }
{
    match code {
        BOOLEAN => Ok(DeclaredType::Boolean),
        BYTE => Ok(DeclaredType::Byte),
        SHORT => Ok(DeclaredType::Short),
        REFERENCE => Ok(DeclaredType::Reference(next_class(nibbles)?)),
        BOOLEAN_ARRAY => Ok(DeclaredType::BooleanArray),
        BYTE_ARRAY => Ok(DeclaredType::ByteArray),
        SHORT_ARRAY => Ok(DeclaredType::ShortArray),
        REFERENCE_ARRAY => Ok(DeclaredType::ReferenceArray(next_class(nibbles)?)),
        _ => Err(LoadFault::Malformed(DESCRIPTOR)),
    }
}

impl<'a> Row<Nibbles<'a>> for DeclaredType<ClassRef> {
    ghost next_row = { next_type };

    #[tactic(auto, unfolding(crate::specs::DeclaredType::next_type))]
    fn next_row(nibbles: &mut Nibbles<'a>) -> Result<DeclaredType<ClassRef>, LoadFault> {
        let code = nibble(nibbles)?;
        next_coded_type(code, nibbles)
    }
}

/// The result of a method: a type or void.
#[tactic(auto, unfolding(crate::specs::DeclaredType::next_return, crate::specs::DeclaredType::next_coded_return))]
pub(crate) fn next_return(nibbles: &mut Nibbles) -> Result<ReturnType<ClassRef>, LoadFault>
    ensures { Gives (λ r. r) result nibbles.new (next_return nibbles.old) }
{
    let code = nibble(nibbles)?;
    if code == VOID {
        return Ok(ReturnType::Void);
    }
    let found = next_coded_type(code, nibbles)?;
    Ok(ReturnType::Value(found))
}
