//! The card's answer to a command of a reader.

ghost use Rattle.std.specs.Prelude.{◌≡◌};
ghost use Rattle.jc_card.specs.Commands.{status_alone};
ghost use Rattle.jc_card.specs.Reads.{ReadsResponse};

use crate::cause::Cause;
use arrayvec::ArrayVec;

/// The most bytes of data in an answer.
pub const MOST_SENT: usize = 256;

/// The data and the status word of an answer (ISO/IEC 7816-4).
#[derive(Debug, Drop)]
pub struct Answer {
    /// At most 256 bytes.
    pub sent: ArrayVec<u8, MOST_SENT>,
    /// The status word.
    pub status: u16,
    /// Why the call of the applet didn't end normally, if there was one and it didn't.
    pub cause: Option<Cause>,
}

impl Answer {
    /// An answer without data.
    pub(crate) fn status_alone(status: u16) -> Answer
        ensures { ReadsResponse result (status_alone status) }
    {
        Answer {
            sent: ArrayVec::new(),
            status,
            cause: None,
        }
    }
}
