//! The Header component.

ghost use Rattle.std.specs.Prelude.{◌≡◌};
ghost use Rattle.jc_base.specs.Cursor.{Gives};
ghost use Rattle.jc_cap.specs.Header.{header_of, next_format, next_name};

use jc_base::tag::HEADER;
use jc_base::{Cursor, LoadFault, PackageInfo, Parts, has_flag, next_package_info};
use std::marker::Model;

/// The first four bytes of a Header.
const MAGIC: u32 = 0xDECA_FFED;
/// The flag of a package that uses the type int.
const ACC_INT: u8 = 1;

/// The supported formats of a package's file.
#[derive(Clone, Copy, Debug, PartialEq, Eq)]
pub enum Format {
    /// Format 2.1.
    TwoOne,
    /// Format 2.2: a name follows the package, and a pool of signatures precedes the classes.
    TwoTwo,
}

/// The contents of the Header component.
#[derive(Drop)]
pub struct Header<'a> {
    format: Format,
    package: PackageInfo,
    name: &'a [u8],
}

impl<'a> Model for Header<'a> {
    ghost use Rattle.jc_cap.specs.Header.{Heading};

    ghost Value = { Heading };

    ghost view = { λ h. record { format = h.format; «package» = h.«package»; name = h.name.now } };
}

impl<'a> Header<'a> {
    /// The format of the file.
    pub fn format(&self) -> Format
        ensures { result ≡ self.now.format }
    {
        self.format
    }

    /// The package's own AID and version.
    pub fn package(&self) -> PackageInfo
        ensures { result ≡ self.now.«package» }
    {
        self.package
    }

    /// The package's name in UTF-8, unchecked. It is empty if there is none, as in format 2.1.
    pub fn name(&self) -> &'a [u8]
        ensures { result.now ≡ self.now.name }
    {
        self.name
    }
}

/// The format's minor and major version. `FormatVersion` also if a version is missing.
#[tactic(auto, unfolding(crate::specs::Header::next_format))]
fn next_format(cursor: &mut Cursor) -> Result<Format, LoadFault>
    ensures { Gives (λ format. format) result cursor.new (next_format cursor.old) }
{
    let minor = cursor.u1().ok_or(LoadFault::FormatVersion)?;
    let major = cursor.u1().ok_or(LoadFault::FormatVersion)?;
    if major == 2 && minor == 1 {
        Ok(Format::TwoOne)
    } else if major == 2 && minor == 2 {
        Ok(Format::TwoTwo)
    } else {
        Err(LoadFault::FormatVersion)
    }
}

/// The name after the package.
#[tactic(auto, unfolding(crate::specs::Header::next_name))]
fn next_name<'a>(format: Format, cursor: &mut Cursor<'a>) -> Result<&'a [u8], LoadFault>
    ensures { Gives (λ name. name.now) result cursor.new (next_name format cursor.old) }
{
    match format {
        Format::TwoOne => Ok(&[]),
        Format::TwoTwo => {
            let size = cursor.u1().ok_or(LoadFault::Malformed(HEADER))?;
            cursor
                .take(usize::from(size))
                .ok_or(LoadFault::Malformed(HEADER))
        }
    }
}

/// Reads the Header component of formats 2.1 and 2.2 (Java Card Virtual Machine Specification, CAP file format: Header
/// component). Of the flags it reads only ACC_INT. A missing magic number is `BadMagic`, and a missing version is
/// `FormatVersion`.
#[tactic(auto, unfolding(crate::specs::Header::header_of))]
pub fn read_header<'a>(parts: &Parts<'a>) -> Result<Header<'a>, LoadFault>
    ensures { result ≡ header_of parts.now.header }
{
    let mut cursor = Cursor::new(parts.header());
    if cursor.u4() != Some(MAGIC) {
        return Err(LoadFault::BadMagic);
    }
    let format = next_format(&mut cursor)?;
    let flags = cursor.u1().ok_or(LoadFault::Malformed(HEADER))?;
    if has_flag(flags, ACC_INT) {
        return Err(LoadFault::IntPackage);
    }
    let package = next_package_info(&mut cursor, HEADER)?;
    let name = next_name(format, &mut cursor)?;
    if !cursor.is_empty() {
        return Err(LoadFault::Malformed(HEADER));
    }
    Ok(Header {
        format,
        package,
        name,
    })
}
