//! The Import component.

ghost use Rattle.std.specs.Prelude.{◌≡◌, ◌≤◌, length, IfOk};
ghost use Rattle.jc_base.specs.Cursor.{whole};
ghost use Rattle.jc_base.specs.PackageInfo.{next_package_info};
ghost use Rattle.jc_base.specs.Rows.{repeat};
ghost use Rattle.jc_base.specs.Tag.{import_tag};
ghost use Rattle.jc_base.specs.declared.fault.LoadFault.TheVariants.{Malformed};
ghost use Rattle.jc_cap.specs.Imports.{imports_in, imports_of};

use jc_base::tag::IMPORT;
use jc_base::{Cursor, LoadFault, PackageInfo, Parts, Rows};

/// The packages that a package imports, by their package tokens.
pub type Imports<'a> = Rows<Cursor<'a>, PackageInfo>;

/// The next `count` packages, with nothing after them.
fn all_imports<'a>(cursor: Cursor<'a>, count: u8) -> Result<Imports<'a>, LoadFault>
    ensures read { result ≡ whole (Malformed import_tag) (repeat (next_package_info import_tag) count cursor.entry) }
    ensures few { IfOk result (λ imports. length imports ≤ 255) }
{
    Rows::whole(cursor, u16::from(count), LoadFault::Malformed(IMPORT))
}

#[tactic(auto, unfolding(crate::specs::Imports::imports_in))]
fn imports_in<'a>(info: &'a [u8]) -> Result<Imports<'a>, LoadFault>
    ensures read { result ≡ imports_in info.now }
    ensures few { IfOk result (λ imports. length imports ≤ 255) }
{
    let mut cursor = Cursor::new(info);
    let count = cursor.u1().ok_or(LoadFault::Malformed(IMPORT))?;
    all_imports(cursor, count)
}

/// Reads the Import component; a package without one imports nothing (Java Card Virtual Machine Specification, CAP file
/// format: Import component). `BadAid` or `Malformed(4)`.
pub fn read_imports<'a>(parts: &Parts<'a>) -> Result<Imports<'a>, LoadFault>
    ensures read { result ≡ imports_of parts.now.imports }
    ensures few { IfOk result (λ imports. length imports ≤ 255) }
{
    match parts.imports() {
        Some(info) => imports_in(info),
        None => Ok(Rows::none(Cursor::new(&[]))),
    }
}
