//! The rules by which code is checked.

ghost use Rattle.std.specs.Option.{option_copied};
ghost use Rattle.std.specs.Prelude.{◌≡◌, ◌≤◌, length};
ghost use Rattle.jc_code.specs.Instructions.{next_pc_of};
ghost use Rattle.jc_code.specs.Listing.{ListingLaws};
ghost use Rattle.jc_types.specs.Changes.{Became};
ghost use Rattle.jc_check.specs.Rules.{Rules, word_rules};

use jc_base::Reason;
use jc_cert::SpelledClass;
use jc_code::{CodeFault, Instr, Operation, decode_words, listing_laws, next_words_pc};
use jc_effects::transfer_word;
use jc_names::ClassName;
use jc_types::{ClassOrder, NoClasses, State, Ty};

/// The rules by which code is checked: how it decodes, the effects of its instructions on types, the order of its
/// classes, and the classes that the names in a certificate stand for.
pub(crate) trait CheckRules {
    /// The order of the classes.
    type Order: ClassOrder;

    ghost rules: { Self → Rules };

    /// The instruction that begins at a pc.
    fn decode<'a>(&self, code: &'a [u8], pc: usize) -> Result<Instr<'a>, CodeFault>
        ensures { result ≡ (rules self.now).decoder code.now pc };

    /// The pc of the next instruction.
    fn next_pc(&self, code: &[u8], pc: usize) -> Result<usize, CodeFault>
        ensures { result ≡ next_pc_of ((rules self.now).decoder code.now pc) };

    /// Applies an operation to a state, in a method of at most `max_stack` operands that returns a value of the type
    /// `returned`, or none. After a reason the state mustn't be used.
    fn transfer(
        &self,
        operation: &Operation,
        state: &mut State,
        max_stack: u8,
        returned: Option<&Ty>,
    ) -> Result<(), Reason>
        requires { max_stack ≤ state.old.room }
        ensures became { Became result state.new.types
            ((rules self.now).effect max_stack (option_copied returned.entry) operation.now state.old.types) }
        ensures room { state.new.room ≡ state.old.room }
        ensures locals { length state.new.types.locals ≡ length state.old.types.locals };

    /// The order of its classes.
    fn order(&self) -> &Self::Order
        ensures { Self.Order.lies_below result.now ≡ (rules self.now).below };

    /// The class that a name in a certificate stands for.
    fn class_of(&self, name: SpelledClass) -> Option<ClassName>
        ensures { result ≡ (rules self.now).class_of name };

    /// The laws of code as a list of instructions. It does nothing.
    fn listing_laws(&self)
        ensures { ListingLaws (rules self.now).decoder };
}

/// The rules of code alone: it has only the instructions on words, and names no class.
#[derive(Clone, Copy)]
pub(crate) struct WordRules {
    classes: NoClasses,
}

impl WordRules {
    pub(crate) fn new() -> WordRules {
        WordRules { classes: NoClasses }
    }
}

impl CheckRules for WordRules {
    type Order = NoClasses;

    ghost rules = { λ r. word_rules };

    #[inline(always)]
    fn decode<'a>(&self, code: &'a [u8], pc: usize) -> Result<Instr<'a>, CodeFault> {
        decode_words(code, pc)
    }

    #[inline(always)]
    fn next_pc(&self, code: &[u8], pc: usize) -> Result<usize, CodeFault> {
        next_words_pc(code, pc)
    }

    #[inline(always)]
    fn transfer(
        &self,
        operation: &Operation,
        state: &mut State,
        max_stack: u8,
        returned: Option<&Ty>,
    ) -> Result<(), Reason> {
        match operation {
            Operation::Word(operation) => {
                transfer_word(operation, state, max_stack, returned, &self.classes)
            }
            Operation::Object(_) => Err(Reason::BadOpcode),
        }
    }

    fn order(&self) -> &NoClasses {
        &self.classes
    }

    fn class_of(&self, _name: SpelledClass) -> Option<ClassName> {
        None
    }

    #[inline(always)]
    fn listing_laws(&self) {
        listing_laws();
    }
}
