//! Instructions on fields (Java Card Virtual Machine Specification, getstatic, putstatic, getfield, putfield, and the
//! latter two on this).

ghost use Rattle.std.specs.Prelude.{◌≡◌};
ghost use Rattle.jc_interp.specs.PrivateDone.{done, operand};
ghost use Rattle.jc_interp.specs.PrivateFields.{denied_static, do_field, do_get, do_instance, do_put, do_put_static};
ghost use Rattle.jc_interp.specs.PrivateFields.{do_static, holder_word, putting, stored_mark};

use crate::arrays::{loaded, stored};
use crate::ends::{NULL_POINTER_EXCEPTION, StepEnd};
use crate::machine::WordMachine;
use crate::seen::{cell, denied_on, look_at, mark_of, put};
use crate::step_context::WordStepContext;
use jc_code::{FieldAccess, FieldAction, Form, Holder};
use jc_entries::Entry;
use jc_firewall::Access;
use jc_machine::DeniedAccess;
use jc_store::{Mark, Store};

/// The access that a write to a field makes.
#[inline]
pub(crate) fn putting(form: Form) -> Access
    ensures { result ≡ putting form }
{
    match form {
        Form::Reference => Access::PutReferenceField,
        Form::Byte | Form::Short => Access::PutField,
    }
}

/// The mark of the stored object, if a reference to one is stored.
#[inline]
pub(crate) fn stored_mark(store: &Store, form: Form, word: u16) -> Option<Mark>
    ensures { result ≡ stored_mark store.now form word }
{
    match form {
        Form::Reference => mark_of(store, word),
        Form::Byte | Form::Short => None,
    }
}

/// The access to the object whose reference is put into a static field, if the firewall denies it.
fn denied_static(
    here: &WordStepContext<'_>,
    store: &Store,
    form: Form,
    word: u16,
) -> Option<DeniedAccess>
    ensures { result ≡ denied_static here.now store.now form word }
{
    match form {
        Form::Byte | Form::Short => None,
        Form::Reference => {
            let object = look_at(store, word)?;
            let mark = Some(object.kind.mark);
            denied_on(here, Access::PutStaticReference, word, object, mark)
        }
    }
}

impl WordMachine {
    /// putstatic, of the field at an offset in the image of the package with a number
    fn put_static(
        &mut self,
        here: &WordStepContext<'_>,
        form: Form,
        package: u8,
        offset: u16,
    ) -> StepEnd
        ensures { done self.new result
            ≡ do_put_static here.now form «package» offset (operand self.old 0) self.old }
    {
        let word = self.operand(0);
        if let Some(denied) = denied_static(here, &self.store, form, word) {
            return StepEnd::AccessDenied(denied);
        }
        self.statics.set(package, offset, stored(form, word));
        self.leaves(here, 1)
    }

    /// getstatic, putstatic
    fn use_static(
        &mut self,
        here: &WordStepContext<'_>,
        access: FieldAccess,
        package: u8,
        offset: u16,
    ) -> StepEnd
        ensures { done self.new result ≡ do_static here.now access «package» offset access.action self.old }
    {
        match access.action {
            FieldAction::Get => {
                let word = loaded(access.form, self.statics.get(package, offset));
                self.puts(here, word)
            }
            FieldAction::Put => self.put_static(here, access.form, package, offset),
        }
    }

    /// The object whose field is used: the operand below so many others, or local 0.
    #[inline]
    pub(crate) fn holder(&self, holder: Holder, below: u8) -> u16
        ensures { result ≡ holder_word holder below self.now }
    {
        match holder {
            Holder::Operand => self.operand(below),
            Holder::This | Holder::Class => self.local(0),
        }
    }

    /// getfield, which pops so many operands
    fn get_field(
        &mut self,
        here: &WordStepContext<'_>,
        form: Form,
        cell_index: u32,
        number: u16,
        count: u8,
    ) -> StepEnd
        ensures { done self.new result ≡ do_get here.now form cell_index number count self.old }
    {
        let Some(object) = look_at(&self.store, number) else {
            return StepEnd::Throws(NULL_POINTER_EXCEPTION);
        };
        if let Some(denied) = denied_on(here, Access::GetField, number, object, None) {
            return StepEnd::AccessDenied(denied);
        }
        let word = cell(&self.store, number, cell_index as usize);
        self.gives(here, count, loaded(form, word))
    }

    /// putfield, which pops so many operands
    fn put_field(
        &mut self,
        here: &WordStepContext<'_>,
        form: Form,
        cell_index: u32,
        number: u16,
        count: u8,
    ) -> StepEnd
        ensures { done self.new result ≡ do_put here.now form cell_index number (operand self.old 0) count self.old }
    {
        let word = self.operand(0);
        let Some(object) = look_at(&self.store, number) else {
            return StepEnd::Throws(NULL_POINTER_EXCEPTION);
        };
        let mark = stored_mark(&self.store, form, word);
        if let Some(denied) = denied_on(here, putting(form), number, object, mark) {
            return StepEnd::AccessDenied(denied);
        }
        put(
            &mut self.store,
            number,
            cell_index as usize,
            stored(form, word),
        );
        self.leaves(here, count)
    }

    /// getfield, putfield
    fn use_field(
        &mut self,
        here: &WordStepContext<'_>,
        access: FieldAccess,
        cell_index: u32,
    ) -> StepEnd
        ensures { done self.new result
            ≡ do_instance here.now access.form cell_index access.action access.holder self.old }
    {
        match (access.action, access.holder) {
            (FieldAction::Get, Holder::Operand) => {
                let number = self.holder(access.holder, 0);
                self.get_field(here, access.form, cell_index, number, 1)
            }
            (FieldAction::Get, Holder::This | Holder::Class) => {
                let number = self.holder(access.holder, 0);
                self.get_field(here, access.form, cell_index, number, 0)
            }
            (FieldAction::Put, Holder::Operand) => {
                let number = self.holder(access.holder, 1);
                self.put_field(here, access.form, cell_index, number, 2)
            }
            (FieldAction::Put, Holder::This | Holder::Class) => {
                let number = self.holder(access.holder, 1);
                self.put_field(here, access.form, cell_index, number, 1)
            }
        }
    }

    /// getstatic, putstatic, getfield, putfield
    pub(crate) fn perform_field(
        &mut self,
        here: &WordStepContext<'_>,
        access: FieldAccess,
        index: u16,
    ) -> StepEnd
        ensures { done self.new result ≡ do_field here.now access index self.old }
    {
        match here.program.entries.at(here.frame.method.package, index) {
            Some(Entry::Field { cell }) => self.use_field(here, access, cell),
            Some(Entry::StaticField { package, offset }) => {
                self.use_static(here, access, package, offset)
            },
            Some(Entry::Class(_) | Entry::AbstractMethod) => StepEnd::UsedUp,
            Some(Entry::VirtualMethod { .. } | Entry::Method { .. } | Entry::NativeMethod { .. }) =>
                StepEnd::UsedUp,
            None => StepEnd::UsedUp,
        }
    }
}
