//! The targets of calls.

use crate::method_number::MethodNumber;

/// The target of a call.
#[derive(Clone, Copy)]
pub enum Called {
    /// A method with code.
    Method(MethodNumber),
    /// A native member of the API.
    NativeMethod { member: u16 },
    /// No method, or one without code.
    Nothing,
}
