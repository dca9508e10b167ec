//! The Export component.

ghost use Rattle.std.specs.Prelude.{◌≡◌};
ghost use Rattle.jc_cap.specs.Exports.{next_exported_class, exports_in, exports_of};

use jc_base::tag::EXPORT;
use jc_base::{Cursor, LoadFault, Parts, Row, Rows, U2s};

/// What other packages may use of a class. The token of a field or method is the index of its offset.
#[derive(Drop)]
pub struct ExportedClass<'a> {
    /// The offset of the class in the Class component.
    pub class: u16,
    /// The offsets of its static fields in the static image.
    pub fields: U2s<'a>,
    /// The offsets of its static methods and constructors in the Method component.
    pub methods: U2s<'a>,
}

impl<'a> Row<Cursor<'a>> for ExportedClass<'a> {
    ghost next_row = { next_exported_class };

    #[tactic(auto, unfolding(crate::specs::Exports::next_exported_class))]
    fn next_row(cursor: &mut Cursor<'a>) -> Result<ExportedClass<'a>, LoadFault> {
        let class = cursor.u2().ok_or(LoadFault::Malformed(EXPORT))?;
        let fields_count = cursor.u1().ok_or(LoadFault::Malformed(EXPORT))?;
        let methods_count = cursor.u1().ok_or(LoadFault::Malformed(EXPORT))?;
        let fields = cursor
            .take(2 * usize::from(fields_count))
            .ok_or(LoadFault::Malformed(EXPORT))?;
        let methods = cursor
            .take(2 * usize::from(methods_count))
            .ok_or(LoadFault::Malformed(EXPORT))?;
        Ok(ExportedClass {
            class,
            fields: U2s::new(fields),
            methods: U2s::new(methods),
        })
    }
}

/// The classes that a package exports, by their class tokens.
pub type Exports<'a> = Rows<Cursor<'a>, ExportedClass<'a>>;

#[tactic(auto, unfolding(crate::specs::Exports::exports_in))]
fn exports_in<'a>(info: &'a [u8]) -> Result<Exports<'a>, LoadFault>
    ensures { result ≡ exports_in info.now }
{
    let mut cursor = Cursor::new(info);
    let count = cursor.u1().ok_or(LoadFault::Malformed(EXPORT))?;
    Rows::whole(cursor, u16::from(count), LoadFault::Malformed(EXPORT))
}

/// Reads the Export component; a package without one exports no class (Java Card Virtual Machine Specification, CAP
/// file format: Export component). It doesn't test what stands at an offset. `Malformed(10)`.
pub fn read_exports<'a>(parts: &Parts<'a>) -> Result<Exports<'a>, LoadFault>
    ensures { result ≡ exports_of parts.now.export }
{
    match parts.export() {
        Some(info) => exports_in(info),
        None => Ok(Rows::none(Cursor::new(&[]))),
    }
}
