//! The Method component as a whole.

ghost use Rattle.std.specs.Prelude.{◌≡◌, ◌<◌, ◌^◌, length};
ghost use Rattle.std.specs.Option.{option_copied};
ghost use Rattle.jc_base.specs.Rows.{part};
ghost use Rattle.jc_cap.specs.MethodComponent.{methods_of, method_at, header_at, code_at};

use crate::handler::Handlers;
use crate::method_header::{MethodHeader, next_header};
use jc_base::tag::METHOD;
use jc_base::{Cursor, LoadFault, Parts};
use std::marker::Model;

/// A method with its header and its code.
#[derive(Drop)]
pub struct Method<'a> {
    header: MethodHeader,
    code_offset: usize,
    code: &'a [u8],
}

impl<'a> Model for Method<'a> {
    ghost use Rattle.jc_cap.specs.MethodComponent.{Method as MethodParts};

    ghost Value = { MethodParts };

    ghost view = { λ m. record { header = m.header; code_offset = m.code_offset; code = m.code.now } };
}

impl<'a> Method<'a> {
    /// Its header.
    pub fn header(&self) -> MethodHeader
        ensures { result ≡ self.now.header }
    {
        self.header
    }

    /// The offset of its code: that of the byte after the header.
    pub fn code_offset(&self) -> usize
        ensures { result ≡ self.now.code_offset }
    {
        self.code_offset
    }

    /// The bytes after the header, to the end of the info. They begin with the method's code; its descriptor has the
    /// number of bytes.
    pub fn code(&self) -> &'a [u8]
        ensures { result.now ≡ self.now.code }
    {
        self.code
    }
}

/// The Method component of an image, whose contents are read on demand. Offsets count from the first byte of the
/// component's info.
#[derive(Drop)]
pub struct MethodInfo<'a> {
    handlers: Handlers<'a>,
    info: &'a [u8],
}

impl<'a> Model for MethodInfo<'a> {
    ghost use Rattle.jc_cap.specs.MethodComponent.{MethodComponent};

    ghost Value = { MethodComponent };

    ghost view = { λ m. record { handlers = m.handlers; info = m.info.now } };
}

impl<'a> MethodInfo<'a> {
    /// How many handlers the table has, below 256.
    pub fn handler_count(&self) -> usize
        ensures { result ≡ length self.now.handlers }
    {
        self.handlers.len()
    }

    /// The `count` handlers from index `first` on, in table order, or `None` if they run past the table.
    pub fn handlers(&self, first: u16, count: u16) -> Option<Handlers<'a>>
        ensures { result ≡ part first count self.now.handlers }
    {
        self.handlers.part(first, count)
    }

    /// The method whose header stands at an offset, or `None` if the header runs past the info.
    pub fn method_at(&self, offset: u16) -> Option<Method<'a>>
        ensures { result ≡ method_at offset self.now }
    {
        let mut cursor = Cursor::at(self.info, usize::from(offset));
        let Ok(header) = next_header(&mut cursor) else {
            return None;
        };
        let code_offset = self.info.len() - cursor.len();
        Some(Method {
            header,
            code_offset,
            code: cursor.rest(),
        })
    }

    /// The method header at an offset, or `None` if it runs past the info.
    pub fn header_at(&self, offset: u16) -> Option<MethodHeader>
        ensures { result ≡ header_at offset self.now }
    {
        Some(self.method_at(offset)?.header)
    }

    /// The bytes after the method header at an offset, to the end of the info, or `None` if there is no header.
    pub fn code_at(&self, offset: u16) -> Option<&'a [u8]>
        ensures { option_copied result ≡ code_at offset self.now }
    {
        Some(self.method_at(offset)?.code)
    }
}

/// The component with this info.
#[tactic(auto, unfolding(crate::specs::MethodComponent::methods_of))]
fn methods_in<'a>(info: &'a [u8]) -> Result<MethodInfo<'a>, LoadFault>
    ensures { result ≡ methods_of info.now }
{
    let mut cursor = Cursor::new(info);
    let count = cursor.u1().ok_or(LoadFault::Malformed(METHOD))?;
    let handlers = Handlers::read(&mut cursor, u16::from(count))?;
    Ok(MethodInfo { handlers, info })
}

/// Reads the Method component. `Malformed(7)` if the handler table runs past the info; the bytes after the table may be
/// anything. The info is at most 65,535 bytes.
pub fn read_method<'a>(parts: &Parts<'a>) -> Result<MethodInfo<'a>, LoadFault>
    ensures methods { result ≡ methods_of parts.now.method }
    ensures short { length parts.now.method < 2 ^ 16 }
{
    methods_in(parts.method())
}
