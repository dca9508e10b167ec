//! The ends of members, and the runtime's exceptions with a reason.

ghost use Rattle.std.specs.Prelude.{◌≡◌};
ghost use Rattle.jc_machine.specs.Runtime.{apdu_exception, system_exception};
ghost use Rattle.jc_natives.specs.Cells.{put};
ghost use Rattle.jc_store.specs.Store.{with_objects};

use crate::cells::put;
use crate::native::{APDU_EXCEPTION, SYSTEM_EXCEPTION};
use jc_machine::DeniedAccess;
use jc_store::Store;

/// A question to an applet for a shareable object: the applet's object, the AID object of the asking applet or 0, and a
/// word.
#[derive(Clone, Copy, Debug)]
pub struct Question {
    pub(crate) object: u16,
    pub(crate) aid: u16,
    pub(crate) word: u16,
}

/// The end of a member.
#[derive(Clone, Copy, Debug)]
pub enum Ended {
    /// It returns a word, or nothing.
    Returned(Option<u16>),
    /// It throws the object with this number.
    Thrown(u16),
    /// The firewall denied it an access to an argument. It throws the runtime's SecurityException.
    AccessDenied(DeniedAccess),
    /// It asks an applet, and returns that one's answer.
    Asks(Question),
}

/// Throws one of the runtime's exceptions with a reason.
pub(crate) fn throw_with(store: &mut Store, object: u16, reason: u16) -> Ended
    ensures written { store.new ≡ with_objects store.old (put store.old.objects object 0 reason) }
    ensures thrown { result ≡ Ended.Thrown object }
{
    put(store, object, 0, reason);
    Ended::Thrown(object)
}

/// Throws SystemException.
pub(crate) fn throw_system(store: &mut Store, reason: u16) -> Ended
    ensures written { store.new ≡ with_objects store.old (put store.old.objects system_exception 0 reason) }
    ensures thrown { result ≡ Ended.Thrown system_exception }
{
    throw_with(store, SYSTEM_EXCEPTION, reason)
}

/// Throws APDUException.
pub(crate) fn throw_apdu(store: &mut Store, reason: u16) -> Ended
    ensures written { store.new ≡ with_objects store.old (put store.old.objects apdu_exception 0 reason) }
    ensures thrown { result ≡ Ended.Thrown apdu_exception }
{
    throw_with(store, APDU_EXCEPTION, reason)
}
