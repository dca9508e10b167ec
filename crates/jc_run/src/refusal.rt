//! Why a line of a session isn't answered.

ghost use Rattle.std.specs.Prelude.{◌≡◌};

use jc_script::LineFault;
use jc_source::SourceFault;

/// Why a line of a session isn't answered.
#[derive(Clone, Copy, Debug, PartialEq, Eq)]
pub enum LineRefusal {
    /// It is no command.
    Bad(LineFault),
    /// The package or the certificate that it names can't be read, as the source reports.
    Unread(SourceFault),
}
