//! Tests of references against types (Java Card Virtual Machine Specification, checkcast, instanceof).

ghost use Rattle.std.specs.Prelude.{◌≡◌};
ghost use Rattle.jc_interp.specs.PrivateCasts.{bit, cast_by, cast_of, do_check_cast, do_instance_of, is_name_below};
ghost use Rattle.jc_interp.specs.PrivateCasts.{is_reference_array, is_shared, is_shared_interface, is_word_array};
ghost use Rattle.jc_interp.specs.PrivateCasts.{passes};
ghost use Rattle.jc_interp.specs.PrivateCasts.{test_of};
ghost use Rattle.jc_interp.specs.PrivateDone.{done, operand};

use crate::ends::{CLASS_CAST_EXCEPTION, StepEnd};
use crate::machine::WordMachine;
use crate::seen::{Seen, class_named, denied_by, is_below, look_at, verdict};
use crate::step_context::WordStepContext;
use jc_api::ApiClass;
use jc_code::{TestedType, WordKind};
use jc_firewall::Access;
use jc_machine::DeniedAccess;
use jc_names::ClassName;
use jc_program::Program;
use jc_store::{ObjectType, Store};

/// What a reference is tested against.
#[derive(Clone, Copy)]
pub(crate) enum TypeTest {
    OfClass(ClassName),
    OfWordArray(WordKind),
    OfReferenceArray(ClassName),
}

/// The result of a test.
#[derive(Clone, Copy)]
pub(crate) enum Cast {
    /// The reference is null.
    OfNull,
    /// Whether the object is of the type.
    OfObject(bool),
    /// The firewall denies the access.
    Denied(DeniedAccess),
    /// The instruction names no type.
    OfNoType,
}

/// Whether a class is the interface Shareable, or an interface that extends it.
fn is_shared_interface(program: &Program, class: ClassName) -> bool
    ensures { result ≡ is_shared_interface program.now class }
{
    match program.classes.number_of(class) {
        Some(number) => {
            let row = program.rows.row(number);
            row.is_interface && row.is_shareable
        }
        None => false,
    }
}

fn test_of(here: &WordStepContext<'_>, type_: TestedType) -> Option<TypeTest>
    ensures { result ≡ test_of here.now type_ }
{
    match type_ {
        TestedType::Class { index } => class_named(here, index).map(TypeTest::OfClass),
        TestedType::WordArray(kind) => Some(TypeTest::OfWordArray(kind)),
        TestedType::ReferenceArray { index } => class_named(here, index).map(
            TypeTest::OfReferenceArray,
        ),
    }
}

/// Whether an object is an array of words of a kind.
fn is_word_array(kind: WordKind, object: ObjectType) -> bool
    ensures { result ≡ is_word_array kind object }
{
    match kind {
        WordKind::Boolean => object == ObjectType::BooleanArray,
        WordKind::Byte => object == ObjectType::ByteArray,
        WordKind::Short => object == ObjectType::ShortArray,
    }
}

/// Whether a class is another one, or below it. A class that isn't in the world is below itself and Object only.
fn is_name_below(program: &Program, class: ClassName, other: ClassName) -> bool
    ensures { result ≡ is_name_below program.now other class }
{
    match program.classes.number_of(class) {
        Some(number) => is_below(program, number.index(), other),
        None => ClassName::Api(ApiClass::Object).is(other) || class.is(other),
    }
}

/// Whether an object is an array of references to objects of a class, or of one below it.
fn is_reference_array(program: &Program, class: ClassName, object: ObjectType) -> bool
    ensures { result ≡ is_reference_array program.now class object }
{
    match object {
        ObjectType::ReferenceArray(component) => is_name_below(program, component, class),
        ObjectType::Instance(_) => false,
        ObjectType::BooleanArray | ObjectType::ByteArray | ObjectType::ShortArray => false,
    }
}

/// Whether an object is of a type.
fn passes(here: &WordStepContext<'_>, test: TypeTest, object: Seen) -> bool
    ensures { result ≡ passes here.now test object }
{
    match test {
        TypeTest::OfClass(class) => is_below(here.program, object.class, class),
        TypeTest::OfWordArray(kind) => is_word_array(kind, object.kind.object_type),
        TypeTest::OfReferenceArray(class) => is_reference_array(
            here.program,
            class,
            object.kind.object_type,
        ),
    }
}

fn is_shared(here: &WordStepContext<'_>, test: TypeTest) -> bool
    ensures { result ≡ is_shared here.now test }
{
    match test {
        TypeTest::OfClass(class) => is_shared_interface(here.program, class),
        TypeTest::OfWordArray(_) | TypeTest::OfReferenceArray(_) => false,
    }
}

fn cast_by(
    here: &WordStepContext<'_>,
    store: &Store,
    access: Access,
    test: TypeTest,
    word: u16,
) -> Cast
    ensures { result ≡ cast_by here.now store.now access test word }
{
    let Some(object) = look_at(store, word) else {
        return Cast::OfNull;
    };
    let verdict = verdict(here, access, object, None, is_shared(here, test));
    match denied_by(access, word, verdict) {
        None => Cast::OfObject(passes(here, test, object)),
        Some(denied) => Cast::Denied(denied),
    }
}

/// Tests a reference against a type.
fn cast_of(
    here: &WordStepContext<'_>,
    store: &Store,
    access: Access,
    type_: TestedType,
    word: u16,
) -> Cast
    ensures { result ≡ cast_of here.now store.now access type_ word }
{
    match test_of(here, type_) {
        Some(test) => cast_by(here, store, access, test, word),
        None => Cast::OfNoType,
    }
}

/// 1 for true.
fn bit(truth: bool) -> u16
    ensures { result ≡ bit truth }
{
    if truth { 1 } else { 0 }
}

impl WordMachine {
    /// checkcast
    pub(crate) fn check_cast(&mut self, here: &WordStepContext<'_>, type_: TestedType) -> StepEnd
        ensures { done self.new result ≡ do_check_cast here.now type_ (operand self.old 0) self.old }
    {
        let word = self.operand(0);
        match cast_of(here, &self.store, Access::CheckCast, type_, word) {
            Cast::OfNull | Cast::OfObject(true) => self.gives(here, 1, word),
            Cast::OfObject(false) => StepEnd::Throws(CLASS_CAST_EXCEPTION),
            Cast::Denied(denied) => StepEnd::AccessDenied(denied),
            Cast::OfNoType => StepEnd::UsedUp,
        }
    }

    /// instanceof
    pub(crate) fn instance_of(&mut self, here: &WordStepContext<'_>, type_: TestedType) -> StepEnd
        ensures { done self.new result ≡ do_instance_of here.now type_ (operand self.old 0) self.old }
    {
        let word = self.operand(0);
        match cast_of(here, &self.store, Access::InstanceOf, type_, word) {
            Cast::OfNull => self.gives(here, 1, 0),
            Cast::OfObject(truth) => self.gives(here, 1, bit(truth)),
            Cast::Denied(denied) => StepEnd::AccessDenied(denied),
            Cast::OfNoType => StepEnd::UsedUp,
        }
    }
}
