//! Applets of loaded packages (Java Card Virtual Machine Specification, CAP file format: Applet component).

ghost use Rattle.std.specs.Prelude.{◌≡◌, ◌≤◌, IfSome, bytes_eq, length, option_map};
ghost use Rattle.jc_card.specs.Install.{applet_from, applet_in, row_with};
ghost use Rattle.jc_card.specs.PrivateWords.{IsInstallPlace};

use jc_base::Aid;
use jc_cap::Applet;
use jc_link::{LinkedBody, World};

/// An applet of a loaded package.
#[derive(Clone, Copy)]
pub(crate) struct AppletPlace {
    /// The package's number, from 1 on.
    pub(crate) number: u8,
    /// The offset of its install method.
    pub(crate) install: u16,
}

/// Whether a row has this AID.
fn has_aid(applet: &Applet, aid: &Aid) -> bool
    ensures { result ≡ bytes_eq applet.now.aid aid.now }
{
    applet.aid == *aid
}

/// The row with an AID.
fn row_with<'a>(applets: &'a [Applet], aid: &Aid) -> Option<&'a Applet>
    ensures { option_map (λ a. a.now) result ≡ row_with aid.now applets.now }
{
    applets.iter().find(|applet| has_aid(applet, aid))
}

/// The applet of a package with an AID.
fn applet_in(aid: &Aid, body: &LinkedBody) -> Option<Applet>
    ensures { result ≡ applet_in aid.now body.now }
{
    match &body.kept().applets {
        Some(applets) => row_with(applets, aid).copied(),
        None => None,
    }
}

/// The applet of the first package that has one with an AID.
fn applet_among(bodies: &[LinkedBody], aid: &Aid) -> Option<AppletPlace>
    requires few { length bodies.now ≤ 64 }
    ensures { result ≡ applet_from 1 bodies.now aid.now }
{
    for at in 0..bodies.len() {
        if let Some(applet) = applet_in(aid, &bodies[at]) {
            return Some(AppletPlace {
                number: at as u8 + 1,
                install: applet.install,
            });
        }
    }
    None
}

/// The applet of the first loaded package that has one with an AID.
pub(crate) fn applet_of(world: &World, aid: &Aid) -> Option<AppletPlace>
    ensures place { result ≡ applet_from 1 world.now.bodies aid.now }
    ensures known { IfSome result (λ place. IsInstallPlace world.now place) }
{
    // it says that their numbers are bytes
    let _count = world.len();
    applet_among(world.bodies(), aid)
}
