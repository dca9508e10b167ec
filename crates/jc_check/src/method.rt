//! A method for the check.

ghost use Rattle.std.specs.Prelude.{◌≡◌};
ghost use Rattle.jc_check.specs.Method.{word_method};

use crate::handler::CheckedHandler;
use jc_types::Ty;
use std::alloc::Global;
use std::marker::Model;

/// The number of locals of code alone.
pub const WORD_LOCALS: usize = 2;

/// The greatest number of operands of code alone.
pub const WORD_MAX_STACK: usize = 8;

/// A method: its code, the types of its arguments, the number of its other locals, the greatest number of its operands,
/// the type of its result, if it isn't void, and its exception handlers.
#[derive(Drop)]
pub struct CheckedMethod<'a> {
    pub code: &'a [u8],
    pub arguments: Vec<Ty>,
    pub max_locals: u8,
    pub max_stack: u8,
    pub returned: Option<Ty>,
    pub handlers: Vec<CheckedHandler>,
}

impl<'a> Model for CheckedMethod<'a> {
    ghost use Rattle.jc_check.specs.Method.{CheckedMethod};

    ghost Value = { CheckedMethod };

    ghost view = { λ m. record {
      code = m.code.now;
      arguments = m.arguments.items;
      max_locals = m.max_locals;
      max_stack = m.max_stack;
      returned = m.returned;
      handlers = m.handlers.items;
    } };
}

impl<'a> CheckedMethod<'a> {
    /// Code alone: a static method without arguments and handlers that returns a short. It takes no memory.
    pub(crate) fn of_words(alloc: Global, code: &'a [u8]) -> CheckedMethod<'a>
        ensures { result ≡ word_method code.now }
    {
        CheckedMethod {
            code,
            arguments: Vec::new(alloc),
            max_locals: WORD_LOCALS as u8,
            max_stack: WORD_MAX_STACK as u8,
            returned: Some(Ty::Word),
            handlers: Vec::new(alloc),
        }
    }

    /// Its code.
    pub fn code(&self) -> &'a [u8]
        ensures { result.now ≡ self.now.code }
    {
        self.code
    }

    /// Its handlers.
    pub fn handlers(&self) -> &[CheckedHandler]
        ensures { result.now ≡ self.now.handlers }
    {
        &self.handlers
    }
}
