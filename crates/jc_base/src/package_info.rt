//! Packages as components name them.

ghost use Rattle.std.specs.Prelude.{◌≡◌};
ghost use Rattle.jc_base.specs.Cursor.{Gives};
ghost use Rattle.jc_base.specs.PackageInfo.{next_package_info};
ghost use Rattle.jc_base.specs.Tag.{import_tag};

use crate::aid::{Aid, next_aid};
use crate::cursor::Cursor;
use crate::fault::LoadFault;
use crate::rows::Row;
use crate::tag::IMPORT;

/// A package and its version (Java Card Virtual Machine Specification, CAP file format: `package_info`).
#[derive(Clone, Copy, Debug, PartialEq, Eq)]
pub struct PackageInfo {
    pub minor: u8,
    pub major: u8,
    pub aid: Aid,
}

/// The next package in the component with a tag. After an `Err` the cursor may stand anywhere.
#[tactic(auto, unfolding(crate::specs::PackageInfo::next_package_info))]
pub fn next_package_info(cursor: &mut Cursor, tag: u8) -> Result<PackageInfo, LoadFault>
    ensures { Gives (λ info. info) result cursor.new (next_package_info tag cursor.old) }
{
    let minor = cursor.u1().ok_or(LoadFault::Malformed(tag))?;
    let major = cursor.u1().ok_or(LoadFault::Malformed(tag))?;
    let aid = next_aid(cursor, tag)?;
    Ok(PackageInfo { minor, major, aid })
}

/// Packages as rows are those of the Import component.
impl<'a> Row<Cursor<'a>> for PackageInfo {
    ghost next_row = { next_package_info import_tag };

    fn next_row(cursor: &mut Cursor<'a>) -> Result<PackageInfo, LoadFault> {
        next_package_info(cursor, IMPORT)
    }
}
