//! The rules of a linked package's code.

ghost use Rattle.jc_check.specs.Package.{package_rules};

use crate::class_names::class_of_name;
use crate::rules::CheckRules;
use jc_base::Reason;
use jc_cert::SpelledClass;
use jc_classes::ClassTable;
use jc_code::{CodeFault, Instr, Operation, decode, listing_laws, next_pc};
use jc_effects::{Setting, transfer_in};
use jc_link::Linked;
use jc_names::ClassName;
use jc_types::{State, Ty};

/// The rules of a linked package: all instructions, with its constant pool, and the classes of its world.
#[derive(Drop)]
pub(crate) struct PackageRules<'l> {
    pub(crate) linked: &'l Linked,
}

impl<'l> CheckRules for PackageRules<'l> {
    type Order = ClassTable;

    ghost rules = { λ r. package_rules r.linked.now };

    #[inline(always)]
    fn decode<'a>(&self, code: &'a [u8], pc: usize) -> Result<Instr<'a>, CodeFault> {
        decode(code, pc)
    }

    #[inline(always)]
    fn next_pc(&self, code: &[u8], pc: usize) -> Result<usize, CodeFault> {
        next_pc(code, pc)
    }

    #[inline(always)]
    fn transfer(
        &self,
        operation: &Operation,
        state: &mut State,
        max_stack: u8,
        returned: Option<&Ty>,
    ) -> Result<(), Reason> {
        let setting = Setting::new(self.linked, returned.copied());
        transfer_in(operation, state, max_stack, &setting)
    }

    fn order(&self) -> &ClassTable {
        self.linked.table()
    }

    fn class_of(&self, name: SpelledClass) -> Option<ClassName> {
        class_of_name(self.linked.table(), name)
    }

    #[inline(always)]
    fn listing_laws(&self) {
        listing_laws();
    }
}
