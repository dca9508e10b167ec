//! Method headers.

ghost use Rattle.std.specs.Prelude.{◌≡◌};
ghost use Rattle.jc_base.specs.Cursor.{Gives};
ghost use Rattle.jc_cap.specs.MethodHeader.{next_short_header, next_extended_header, next_header};

use jc_base::tag::METHOD;
use jc_base::{Cursor, LoadFault, has_flag};

/// The header has the extended form.
const ACC_EXTENDED: u8 = 8;

/// The method is abstract.
const ACC_ABSTRACT: u8 = 4;

/// A method's header (Java Card Virtual Machine Specification, Method component: `method_header_info` and
/// `extended_method_header_info`). Both forms have the same contents.
#[derive(Clone, Copy, Debug, PartialEq, Eq)]
pub struct MethodHeader {
    /// Whether the method is abstract.
    pub is_abstract: bool,
    /// The greatest number of words on its operand stack.
    pub max_stack: u8,
    /// How many words of arguments it takes, `this` included.
    pub nargs: u8,
    /// How many words of locals it has besides its arguments.
    pub max_locals: u8,
}

/// A header of the short form, after its first byte.
#[tactic(auto, unfolding(crate::specs::MethodHeader::next_short_header))]
fn next_short_header(front: u8, cursor: &mut Cursor) -> Result<MethodHeader, LoadFault>
    ensures { Gives (λ h. h) result cursor.new (next_short_header front cursor.old) }
{
    let counts = cursor.u1().ok_or(LoadFault::Malformed(METHOD))?;
    Ok(MethodHeader {
        is_abstract: has_flag(front / 16, ACC_ABSTRACT),
        max_stack: front % 16,
        nargs: counts / 16,
        max_locals: counts % 16,
    })
}

/// A header of the extended form, after its first byte.
#[tactic(auto, unfolding(crate::specs::MethodHeader::next_extended_header))]
fn next_extended_header(front: u8, cursor: &mut Cursor) -> Result<MethodHeader, LoadFault>
    ensures { Gives (λ h. h) result cursor.new (next_extended_header front cursor.old) }
{
    let max_stack = cursor.u1().ok_or(LoadFault::Malformed(METHOD))?;
    let nargs = cursor.u1().ok_or(LoadFault::Malformed(METHOD))?;
    let max_locals = cursor.u1().ok_or(LoadFault::Malformed(METHOD))?;
    Ok(MethodHeader {
        is_abstract: has_flag(front / 16, ACC_ABSTRACT),
        max_stack,
        nargs,
        max_locals,
    })
}

/// The next header.
#[tactic(auto, unfolding(crate::specs::MethodHeader::next_header))]
pub(crate) fn next_header(cursor: &mut Cursor) -> Result<MethodHeader, LoadFault>
    ensures { Gives (λ h. h) result cursor.new (next_header cursor.old) }
{
    let front = cursor.u1().ok_or(LoadFault::Malformed(METHOD))?;
    if has_flag(front / 16, ACC_EXTENDED) {
        next_extended_header(front, cursor)
    } else {
        next_short_header(front, cursor)
    }
}
