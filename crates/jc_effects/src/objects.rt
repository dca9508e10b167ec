//! The effect of the instructions on references. An instruction has no row if the target of its pool's entry isn't of
//! the kind that it needs.

ghost use Rattle.std.specs.Prelude.{◌≡◌, ◌≤◌, ◌∷◌, [], not, is_some, length, slice_get, if◌then◌else◌};
ghost use Rattle.std.specs.Option.{option_and_then, option_map};
ghost use Rattle.jc_classes.specs.Subtype.{is_class_below};
ghost use Rattle.jc_types.specs.Changes.{Became};
ghost use Rattle.jc_effects.specs.Coded.{demands_of, row_said};
ghost use Rattle.jc_effects.specs.Objects as objects;
ghost use Rattle.jc_effects.specs.Row.{applied};
ghost use Rattle.jc_effects.specs.Words as words;

use crate::applying::{Row, apply};
use crate::calls::invocation_row;
use crate::demands::{Wanted, is_object_or_null};
use crate::fields::field_row;
use crate::row::{Demand, Given};
use crate::setting::Setting;
use crate::words::{WORD, reads, takes, writes};
use jc_api::ApiClass;
use jc_base::Reason;
use jc_classes::ClassTable;
use jc_code::{
    Creation, FieldAccess, Form, ObjectOperation, ReferenceCondition, TestedType, WordKind,
};
use jc_link::{PoolTarget, counted};
use jc_names::ClassName;
use jc_types::{State, Ty};

/// The class above all classes and interfaces.
const OBJECT: ClassName = ClassName::Api(ApiClass::Object);

/// The demand on what is thrown.
const THROWN: Demand = Demand::Below(Ty::Class(ClassName::Api(ApiClass::Throwable)));

/// The demand on an array with components of a form.
#[inline(always)]
fn array_of(form: Form) -> Demand
    ensures { result ≡ objects.array_of form }
{
    match form {
        Form::Reference => Demand::Below(Ty::ReferenceArray(OBJECT)),
        Form::Byte => Demand::Bytes,
        Form::Short => Demand::Below(Ty::ShortArray),
    }
}

/// The type of a component that is loaded from it.
#[inline(always)]
fn component_loaded(form: Form) -> Given
    ensures { result ≡ objects.component_loaded form }
{
    match form {
        Form::Reference => Given::ComponentOf(0),
        Form::Byte | Form::Short => Given::Exactly(Ty::Word),
    }
}

/// The demand on a component that is stored in it.
#[inline(always)]
fn component_stored(form: Form) -> Demand
    ensures { result ≡ objects.component_stored form }
{
    match form {
        Form::Reference => Demand::Reference,
        Form::Byte | Form::Short => WORD,
    }
}

/// The demands on the references that a branch compares.
#[inline(always)]
fn references_compared<'a>(when: ReferenceCondition) -> Wanted<'a>
    ensures { demands_of result ≡ objects.references_compared when }
{
    match when {
        ReferenceCondition::Null | ReferenceCondition::NotNull => Wanted::One(Demand::Reference),
        ReferenceCondition::Same | ReferenceCondition::Different => {
            Wanted::Two(Demand::Reference, Demand::Reference)
        }
    }
}

/// The row of an instruction that pushes null.
#[inline(always)]
fn null_row<'a>() -> Row<'a>
    ensures { row_said result ≡ words.takes [] (Given.Exactly Ty.Null) }
{
    takes(Wanted::Nothing, Given::Exactly(Ty::Null))
}

/// The row of an instruction that loads a reference from a local.
#[inline(always)]
fn load_row<'a>(local: u8) -> Row<'a>
    ensures { row_said result ≡ words.reads local Demand.Reference [] Given.OfLocal }
{
    reads(local, Demand::Reference, Wanted::Nothing, Given::OfLocal)
}

/// The row of arraylength.
#[inline(always)]
fn array_length_row<'a>() -> Row<'a>
    ensures { row_said result ≡ words.takes (Demand.Array ∷ []) (Given.Exactly Ty.Word) }
{
    takes(Wanted::One(Demand::Array), Given::Exactly(Ty::Word))
}

/// The row of a branch on references.
#[inline(always)]
fn branch_row<'a>(when: ReferenceCondition) -> Row<'a>
    ensures { row_said result ≡ words.takes (objects.references_compared when) Given.Nothing }
{
    takes(references_compared(when), Given::Nothing)
}

/// The row of an instruction that loads a component.
#[inline(always)]
fn component_load_row<'a>(form: Form) -> Row<'a>
    ensures { row_said result ≡ words.takes (objects.array_of form ∷ words.word ∷ []) (objects.component_loaded form) }
{
    takes(Wanted::Two(array_of(form), WORD), component_loaded(form))
}

/// The row of an instruction that stores a component.
#[inline(always)]
fn component_store_row<'a>(form: Form) -> Row<'a>
    ensures { row_said result
        ≡ words.takes (objects.array_of form ∷ words.word ∷ objects.component_stored form ∷ []) Given.Nothing }
{
    takes(
        Wanted::Three(array_of(form), WORD, component_stored(form)),
        Given::Nothing,
    )
}

/// The class that is a target, if it is one.
fn class_target(target: &PoolTarget) -> Option<ClassName>
    ensures { result ≡ objects.class_target target.now }
{
    match target {
        PoolTarget::Class(class) => Some(*class),
        PoolTarget::InstanceField { .. } | PoolTarget::StaticField { .. } => None,
        PoolTarget::VirtualMethod { .. } | PoolTarget::SuperMethod { .. } => None,
        PoolTarget::StaticMethod { .. } => None,
    }
}

/// The class that is the target of the entry at an index.
fn class_of_entry(setting: &Setting, index: u16) -> Option<ClassName>
    ensures { result ≡ objects.class_of_entry setting.now index }
{
    class_target(setting.target(index)?)
}

/// Whether a class has objects.
fn has_objects(table: &ClassTable, class: ClassName) -> bool
    ensures { result ≡ objects.has_objects table.now class }
{
    match table.class_at(class) {
        Some(found) => found.is_class() && !found.is_abstract(),
        None => false,
    }
}

/// The type of arrays of a kind of words.
fn word_array(kind: WordKind) -> Ty
    ensures { result ≡ objects.word_array kind }
{
    match kind {
        WordKind::Boolean => Ty::BooleanArray,
        WordKind::Byte => Ty::ByteArray,
        WordKind::Short => Ty::ShortArray,
    }
}

/// The type of arrays of references to a class.
fn reference_array(table: &ClassTable, class: ClassName) -> Ty
    ensures { result ≡ objects.reference_array table.now class }
{
    Ty::ReferenceArray(counted(table, class))
}

/// The row of an instruction that creates an object or an array.
fn creation_row<'l>(setting: &Setting<'l>, creation: Creation) -> Option<Row<'l>>
    ensures { option_map row_said result ≡ objects.creation_row setting.now creation }
{
    match creation {
        Creation::Object { index } => {
            let class = class_of_entry(setting, index)?;
            Some(Row {
                fits: has_objects(setting.table(), class),
                ..takes(Wanted::Nothing, Given::Exactly(Ty::Class(class)))
            })
        }
        Creation::WordArray(kind) => {
            Some(takes(Wanted::One(WORD), Given::Exactly(word_array(kind))))
        }
        Creation::ReferenceArray { index } => {
            let class = class_of_entry(setting, index)?;
            let ty = reference_array(setting.table(), class);
            Some(takes(Wanted::One(WORD), Given::Exactly(ty)))
        }
    }
}

/// The type of an object that passes a test.
fn tested_type(setting: &Setting, tested: TestedType) -> Option<Ty>
    ensures { result ≡ objects.tested_type setting.now tested }
{
    match tested {
        TestedType::Class { index } => {
            let class = class_of_entry(setting, index)?;
            Some(Ty::Class(counted(setting.table(), class)))
        }
        TestedType::WordArray(kind) => Some(word_array(kind)),
        TestedType::ReferenceArray { index } => {
            let class = class_of_entry(setting, index)?;
            Some(reference_array(setting.table(), class))
        }
    }
}

/// The row of a test of a reference, with this pushed.
fn test_row<'a>(pushed: Given) -> Row<'a>
    ensures { row_said result ≡ words.takes (Demand.Reference ∷ []) pushed }
{
    takes(Wanted::One(Demand::Reference), pushed)
}

/// The row of areturn in a method with this result.
fn return_row<'a>(returned: Option<Ty>) -> Row<'a>
    ensures { row_said result ≡ objects.return_row returned }
{
    match returned {
        None => Row {
            fits: false,
            ..takes(Wanted::One(Demand::Below(Ty::Top)), Given::Nothing)
        },
        Some(ty) => Row {
            fits: is_object_or_null(ty),
            ..takes(Wanted::One(Demand::Below(ty)), Given::Nothing)
        },
    }
}

/// The row of return in a method with this result.
fn return_void_row<'a>(returned: Option<Ty>) -> Row<'a>
    ensures { row_said result ≡ objects.if_form (not (is_some returned)) (words.takes [] Given.Nothing) }
{
    Row {
        fits: returned.is_none(),
        ..takes(Wanted::Nothing, Given::Nothing)
    }
}

/// The row of a cast, or of instanceof.
fn tested_row<'l>(setting: &Setting<'l>, tested: TestedType, is_cast: bool) -> Option<Row<'l>>
    ensures { option_map row_said result ≡ option_map
        (λ t. words.takes (Demand.Reference ∷ []) (if is_cast then Given.Exactly t else Given.Exactly Ty.Word))
        (objects.tested_type setting.now tested) }
{
    let ty = tested_type(setting, tested)?;
    Some(test_row(Given::Exactly(if is_cast { ty } else { Ty::Word })))
}

/// The row of an operation on the field that is the target of the entry at an index.
fn field_row_at<'l>(setting: &Setting<'l>, access: FieldAccess, index: u16) -> Option<Row<'l>>
    ensures { option_map row_said result
        ≡ option_and_then (objects.field_row access) (slice_get setting.now.targets index) }
{
    field_row(access, setting.target(index)?)
}

/// Applies a row to a state, if there is one. It is compiled once, since an operation on the constant pool isn't quick
/// anyway.
#[inline(never)]
#[tactic(auto, unfolding(crate::specs::Row::applied))]
fn apply_found(
    row: Option<Row<'_>>,
    state: &mut State,
    max_stack: u8,
    table: &ClassTable,
) -> Result<(), Reason>
    requires { max_stack ≤ state.old.room }
    ensures became { Became result state.new.types
        (applied (is_class_below table.now) max_stack (option_map row_said row.entry) state.old.types) }
    ensures room { state.new.room ≡ state.old.room }
    ensures locals { length state.new.types.locals ≡ length state.old.types.locals }
{
    match row {
        Some(row) => apply(row, state, max_stack, table),
        None => Err(Reason::BadOperand),
    }
}

/// Applies an operation on references to a state, in a method of at most `max_stack` operands with this setting. Of
/// several reasons against it, it reports the first, in the order of `applied`. After a reason the state mustn't be
/// used.
#[tactic(auto, unfolding(crate::specs::Objects::object_row))]
pub(crate) fn transfer_object(
    operation: &ObjectOperation,
    state: &mut State,
    max_stack: u8,
    setting: &Setting,
) -> Result<(), Reason>
    requires { max_stack ≤ state.old.room }
    ensures became { Became result state.new.types (applied (is_class_below setting.now.world) max_stack
        (objects.object_row setting.now operation.now) state.old.types) }
    ensures room { state.new.room ≡ state.old.room }
    ensures locals { length state.new.types.locals ≡ length state.old.types.locals }
{
    let (most, table) = (max_stack, setting.table());
    match *operation {
        ObjectOperation::PushNull => apply(null_row(), state, most, table),
        ObjectOperation::Load(local) => apply(load_row(local), state, most, table),
        ObjectOperation::Store(local) => {
            apply(writes(local, Demand::Reference), state, most, table)
        }
        ObjectOperation::LoadComponent(form) => {
            apply(component_load_row(form), state, most, table)
        }
        ObjectOperation::StoreComponent(form) => {
            apply(component_store_row(form), state, most, table)
        }
        ObjectOperation::ArrayLength => apply(array_length_row(), state, most, table),
        ObjectOperation::Branch { when, .. } => apply(branch_row(when), state, most, table),
        ObjectOperation::Field { access, index } => {
            apply_found(field_row_at(setting, access, index), state, most, table)
        }
        ObjectOperation::Invoke(invocation) => {
            apply_found(invocation_row(setting, invocation), state, most, table)
        }
        ObjectOperation::Create(creation) => {
            apply_found(creation_row(setting, creation), state, most, table)
        }
        ObjectOperation::CheckCast(tested) => {
            apply_found(tested_row(setting, tested, true), state, most, table)
        }
        ObjectOperation::InstanceOf(tested) => {
            apply_found(tested_row(setting, tested, false), state, most, table)
        }
        ObjectOperation::Throw => {
            apply(
                takes(Wanted::One(THROWN), Given::Nothing),
                state,
                most,
                table,
            )
        }
        ObjectOperation::ReturnReference => {
            apply(return_row(setting.returned().copied()), state, most, table)
        }
        ObjectOperation::ReturnVoid => {
            apply(
                return_void_row(setting.returned().copied()),
                state,
                most,
                table,
            )
        }
    }
}
