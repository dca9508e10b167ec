//! Exception handlers.

ghost use Rattle.std.specs.Prelude.{◌≡◌};
ghost use Rattle.jc_cap.specs.Handler.{next_handler};
ghost use Rattle.jc_cap.specs.PrivateHandler.{handler_has_size};

use jc_base::tag::METHOD;
use jc_base::{Cursor, FixedRow, LoadFault, Row, Rows};

/// The highest bit of a handler's second number, the stop bit. It isn't part of the length.
const STOP_BIT: u16 = 0x8000;

/// A row of the handler table (Java Card Virtual Machine Specification, Method component: `exception_handler_info`).
/// Offsets count from the first byte of the component's info.
#[derive(Clone, Copy, Debug, PartialEq, Eq)]
pub struct Handler {
    /// Where the covered bytes begin.
    pub start: u16,
    /// How many bytes it covers: 15 bits, without the stop bit.
    pub active_length: u16,
    /// Where execution goes on.
    pub handler: u16,
    /// The constant pool's index of the class that is caught, or 0 for all.
    pub catch_type: u16,
}

impl<'a> Row<Cursor<'a>> for Handler {
    ghost next_row = { next_handler };

    #[tactic(auto, unfolding(crate::specs::Handler::next_handler))]
    fn next_row(cursor: &mut Cursor<'a>) -> Result<Handler, LoadFault> {
        let start = cursor.u2().ok_or(LoadFault::Malformed(METHOD))?;
        let length = cursor.u2().ok_or(LoadFault::Malformed(METHOD))?;
        let handler = cursor.u2().ok_or(LoadFault::Malformed(METHOD))?;
        let catch_type = cursor.u2().ok_or(LoadFault::Malformed(METHOD))?;
        Ok(Handler {
            start,
            active_length: length % STOP_BIT,
            handler,
            catch_type,
        })
    }
}

impl<'a> FixedRow<Cursor<'a>> for Handler {
    ghost size = { 8 };

    fn size() -> u8
        ensures { result ≡ 8 }
    {
        8
    }

    ghost has_size = { handler_has_size };
}

/// Handlers in table order.
pub type Handlers<'a> = Rows<Cursor<'a>, Handler>;
