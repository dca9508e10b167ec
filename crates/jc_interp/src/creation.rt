//! New objects (Java Card Virtual Machine Specification, new, newarray, anewarray).

ghost use Rattle.std.specs.Prelude.{◌≡◌, Some};
ghost use Rattle.jc_code.specs.declared.object.Creation.TheVariants.{Object};
ghost use Rattle.jc_interp.specs.PrivateCreation.{do_create, do_create_array, do_creation, do_new, is_count, made};
ghost use Rattle.jc_interp.specs.PrivateCreation.{made_in};
ghost use Rattle.jc_interp.specs.PrivateCreation.{word_array};
ghost use Rattle.jc_interp.specs.PrivateDone.{done, operand};
ghost use Rattle.jc_interp.specs.PrivateRunning.{StandsBy, StillRuns};
ghost use Rattle.jc_interp.specs.PrivateStep.{top_header};
ghost use Rattle.jc_interp.specs.declared.ends.StepEnd.TheVariants.{GoesOn};

use crate::ends::{NEGATIVE_SIZE_EXCEPTION, NO_RESOURCE, SYSTEM_EXCEPTION, StepEnd};
use crate::machine::WordMachine;
use crate::seen::{class_named, put};
use crate::step_context::WordStepContext;
use crate::top::Activation;
use jc_code::{Creation, WordKind};
use jc_names::{ClassName, Owner};
use jc_store::{Mark, ObjectKind, ObjectType, Store};

/// The number of class Object, which is the class of arrays: Object is the first of a world's classes.
pub(crate) const OBJECT: u16 = 0;

#[inline]
fn word_array(kind: WordKind) -> ObjectType
    ensures { result ≡ word_array kind }
{
    match kind {
        WordKind::Boolean => ObjectType::BooleanArray,
        WordKind::Byte => ObjectType::ByteArray,
        WordKind::Short => ObjectType::ShortArray,
    }
}

/// Whether a word isn't a negative short.
#[inline]
fn is_count(word: u16) -> bool
    ensures { result ≡ is_count word }
{
    word.cast_signed() >= 0
}

/// Makes a plain object, if there is room for it, and returns its number.
#[inline(always)]
fn make(store: &mut Store, object: ObjectType, owner: Owner, len: usize, class: u16) -> Option<u16>
    ensures { made store.new result ≡ made_in store.old object owner len class }
{
    let kind = ObjectKind {
        object_type: object,
        mark: Mark::Plain,
        clears: None,
    };
    store.make(kind, owner, len, class)
}

impl WordMachine {
    /// Puts a new object of the active owner in place of so many operands. If there is no room, the runtime throws
    /// SystemException.
    #[inline(always)]
    fn create(
        &mut self,
        here: &WordStepContext<'_>,
        object: ObjectType,
        len: usize,
        class: u16,
        count: u8,
    ) -> StepEnd
        ensures is { done self.new result ≡ do_create here.now object len class count self.old }
        ensures runs { StillRuns self.old self.new }
        ensures stays { (result ≡ GoesOn → ⊥) → self.new.frames ≡ self.old.frames }
    {
        match make(&mut self.store, object, here.frame.active, len, class) {
            Some(number) => self.gives(here, count, number),
            None => {
                put(&mut self.store, SYSTEM_EXCEPTION, 0, NO_RESOURCE);
                StepEnd::Throws(SYSTEM_EXCEPTION)
            }
        }
    }

    /// Makes an array whose length is the top operand.
    fn create_array(&mut self, here: &WordStepContext<'_>, object: ObjectType) -> StepEnd
        ensures { done self.new result ≡ do_create_array here.now object (operand self.old 0) self.old }
    {
        let count = self.operand(0);
        if !is_count(count) {
            return StepEnd::Throws(NEGATIVE_SIZE_EXCEPTION);
        }
        self.create(here, object, usize::from(count), OBJECT, 1)
    }

    /// new, of a class
    #[inline(always)]
    fn create_object(&mut self, here: &WordStepContext<'_>, class: ClassName) -> StepEnd
        ensures is { done self.new result ≡ do_new here.now class self.old }
        ensures runs { StillRuns self.old self.new }
        ensures stays { (result ≡ GoesOn → ⊥) → self.new.frames ≡ self.old.frames }
    {
        let Some(number) = here.program.classes.number_of(class) else {
            return StepEnd::UsedUp;
        };
        let len = here.program.rows.row(number).cells as usize;
        self.create(here, ObjectType::Instance(class), len, number.index(), 0)
    }

    /// new, of the class that an entry of the constant pool names
    #[inline(always)]
    pub(crate) fn create_named(
        &mut self,
        here: &WordStepContext<'_>,
        running: &Activation<'_>,
        index: u16,
    ) -> StepEnd
        requires stands { StandsBy here.now.program.now self.old here.now.frame running.now }
        ensures is { done self.new result ≡ do_creation here.now (Object index) self.old }
        ensures runs { StillRuns self.old self.new }
        ensures stays { (result ≡ GoesOn → ⊥) → self.new.frames ≡ self.old.frames }
    {
        match running.class_named(here, index) {
            Some(class) => self.create_object(here, class),
            None => StepEnd::UsedUp,
        }
    }

    /// new, newarray, anewarray
    pub(crate) fn perform_creation(
        &mut self,
        here: &WordStepContext<'_>,
        creation: Creation,
    ) -> StepEnd
        requires top { top_header self.old ≡ Some here.now.frame }
        ensures { done self.new result ≡ do_creation here.now creation self.old }
    {
        match creation {
            Creation::Object { index } => {
                let running = self.running(here.program);
                self.create_named(here, &running, index)
            }
            Creation::WordArray(kind) => self.create_array(here, word_array(kind)),
            Creation::ReferenceArray { index } => match class_named(here, index) {
                Some(class) => self.create_array(here, ObjectType::ReferenceArray(class)),
                None => StepEnd::UsedUp,
            },
        }
    }
}
