//! Exception handlers for the check.

ghost use Rattle.std.specs.Prelude.{◌≡◌};
ghost use Rattle.jc_check.specs.Method.{covers};

use jc_names::ClassName;
use std::marker::Model;

/// An exception handler: the first pc that it covers and the number of pcs, the pc at which it goes on, and the class
/// that it catches, if its entry of the constant pool names one that may be thrown.
#[derive(Drop)]
pub struct CheckedHandler {
    pub start: u16,
    pub length: u16,
    pub goes_on: u16,
    pub caught: Option<ClassName>,
}

impl Model for CheckedHandler {
    ghost use Rattle.jc_check.specs.Method.{CheckedHandler};

    ghost Value = { CheckedHandler };

    ghost view = { λ h. record { start = h.start; length = h.length; goes_on = h.goes_on; caught = h.caught } };
}

impl CheckedHandler {
    /// Whether it covers a pc.
    pub fn covers(&self, pc: u16) -> bool
        ensures { result ≡ covers self.now pc }
    {
        self.start <= pc && usize::from(pc) < usize::from(self.start) + usize::from(self.length)
    }
}
