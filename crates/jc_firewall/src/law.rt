//! The law that joins the store and the firewall.

ghost use Rattle.jc_firewall.specs.Own.{OwnIsAllowed};

/// An applet may access its context's own objects in every way, if no reference is stored that may not be stored. It
/// does nothing.
pub fn own_is_allowed()
    ensures { OwnIsAllowed }
{}
