//! The Class component as a whole.

ghost use Rattle.std.specs.Prelude.{◌≡◌};
ghost use Rattle.jc_cap.specs.ClassComponent.{first_record, is_class, interfaces_first, none_remote, layout_of};
ghost use Rattle.jc_cap.specs.ClassComponent.{classes_of};

use crate::header::Format;
use crate::record::{Record, RecordBody};
use jc_base::tag::CLASS;
use jc_base::{Cursor, LoadFault, Parts, PlacedRows};

/// The records of a package's classes and interfaces, each found at the offset at which it begins.
pub type Records<'a> = PlacedRows<Cursor<'a>, Record<'a>>;

/// The offset of the first record.
#[tactic(auto, unfolding(crate::specs::ClassComponent::first_record))]
fn first_record(format: Format, info: &[u8]) -> Result<usize, LoadFault>
    ensures { result ≡ first_record format info.now }
{
    match format {
        Format::TwoOne => Ok(0),
        Format::TwoTwo => {
            let mut cursor = Cursor::new(info);
            let size = cursor.u2().ok_or(LoadFault::Malformed(CLASS))?;
            cursor
                .take(usize::from(size))
                .ok_or(LoadFault::Malformed(CLASS))?;
            Ok(2 + usize::from(size))
        }
    }
}

fn is_class(body: &RecordBody) -> bool
    ensures { result ≡ is_class body.now }
{
    match body {
        RecordBody::Interface(_) => false,
        RecordBody::Class(_) => true,
    }
}

/// Whether no interface's record stands after a class's.
fn interfaces_first(records: &Records) -> bool
    ensures { result ≡ interfaces_first records.now }
{
    let mut left = records.again();
    let mut seen = false;
    while let Some(placed) = left.next() {
        if is_class(&placed.row.body) {
            seen = true;
        } else if seen {
            return false;
        }
    }
    true
}

/// Whether no record is a remote one. `class_layout` accepts remote records, and `read_class` refuses them.
pub fn none_remote(records: &Records) -> bool
    ensures { result ≡ none_remote records.now }
{
    let mut left = records.again();
    while let Some(placed) = left.next() {
        if placed.row.is_remote {
            return false;
        }
    }
    true
}

/// Reads the Class component by its layout, with remote records. `Malformed(6)`.
#[tactic(auto, unfolding(crate::specs::ClassComponent::layout_of))]
pub fn class_layout<'a>(parts: &Parts<'a>, format: Format) -> Result<Records<'a>, LoadFault>
    ensures { result ≡ layout_of format parts.now.class }
{
    let info = parts.class();
    let first = first_record(format, info)?;
    let records = Records::read(&Cursor::new(info), first)?;
    if !interfaces_first(&records) {
        return Err(LoadFault::Malformed(CLASS));
    }
    Ok(records)
}

/// Reads the Class component of a file of this format (Java Card Virtual Machine Specification, CAP file format: Class
/// component). It refuses remote records. `Malformed(6)`.
pub fn read_class<'a>(parts: &Parts<'a>, format: Format) -> Result<Records<'a>, LoadFault>
    ensures { result ≡ classes_of format parts.now.class }
{
    let records = class_layout(parts, format)?;
    if !none_remote(&records) {
        return Err(LoadFault::Malformed(CLASS));
    }
    Ok(records)
}
