//! The Applet component.

ghost use Rattle.std.specs.Prelude.{◌≡◌};
ghost use Rattle.jc_cap.specs.Applets.{next_applet, applets_in, applets_of};

use jc_base::tag::APPLET;
use jc_base::{Aid, Cursor, LoadFault, Parts, Row, Rows, next_aid};

/// An applet of a package.
#[derive(Clone, Copy, Debug, PartialEq, Eq)]
pub struct Applet {
    /// The applet's AID.
    pub aid: Aid,
    /// The offset of its install method in the Method component.
    pub install: u16,
}

impl<'a> Row<Cursor<'a>> for Applet {
    ghost next_row = { next_applet };

    #[tactic(auto, unfolding(crate::specs::Applets::next_applet))]
    fn next_row(cursor: &mut Cursor<'a>) -> Result<Applet, LoadFault> {
        let aid = next_aid(cursor, APPLET)?;
        let install = cursor.u2().ok_or(LoadFault::Malformed(APPLET))?;
        Ok(Applet { aid, install })
    }
}

/// The applets of a package, in their order.
pub type Applets<'a> = Rows<Cursor<'a>, Applet>;

#[tactic(auto, unfolding(crate::specs::Applets::applets_in))]
fn applets_in<'a>(info: &'a [u8]) -> Result<Applets<'a>, LoadFault>
    ensures { result ≡ applets_in info.now }
{
    let mut cursor = Cursor::new(info);
    let count = cursor.u1().ok_or(LoadFault::Malformed(APPLET))?;
    Rows::whole(cursor, u16::from(count), LoadFault::Malformed(APPLET))
}

/// Reads the Applet component, or returns `None` if there is none: the package is then a library, which differs from a
/// package with no applets (Java Card Virtual Machine Specification, CAP file format: Applet component). `BadAid` or
/// `Malformed(3)`.
pub fn read_applets<'a>(parts: &Parts<'a>) -> Result<Option<Applets<'a>>, LoadFault>
    ensures { result ≡ applets_of parts.now.applet }
{
    match parts.applet() {
        Some(info) => Ok(Some(applets_in(info)?)),
        None => Ok(None),
    }
}
