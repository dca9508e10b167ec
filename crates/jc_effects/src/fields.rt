//! The rows of the instructions on fields.

ghost use Rattle.std.specs.Prelude.{◌≡◌};
ghost use Rattle.std.specs.Option.{option_map};
ghost use Rattle.jc_effects.specs.Coded.{row_said};
ghost use Rattle.jc_effects.specs.Objects as objects;

use crate::applying::Row;
use crate::demands::Wanted;
use crate::row::{Demand, Given};
use crate::words::{reads, takes};
use jc_base::DeclaredType;
use jc_code::{FieldAccess, FieldAction, Form, Holder};
use jc_link::PoolTarget;
use jc_names::ClassName;
use jc_types::Ty;

/// Whether the instructions of a form take fields of a type.
fn is_form_of(form: Form, declared: DeclaredType<ClassName>) -> bool
    ensures { result ≡ objects.is_form_of form declared }
{
    match declared {
        DeclaredType::Boolean | DeclaredType::Byte => matches!(form, Form::Byte),
        DeclaredType::Short => matches!(form, Form::Short),
        DeclaredType::Reference(_) | DeclaredType::ReferenceArray(_) => matches!(
            form,
            Form::Reference
        ),
        DeclaredType::BooleanArray | DeclaredType::ByteArray | DeclaredType::ShortArray => {
            matches!(form, Form::Reference)
        }
    }
}

/// The row of an instruction on a static field.
fn static_row<'a>(action: FieldAction, ty: Ty) -> Row<'a>
    ensures { row_said result ≡ objects.static_row action ty }
{
    match action {
        FieldAction::Get => takes(Wanted::Nothing, Given::Exactly(ty)),
        FieldAction::Put => takes(Wanted::One(Demand::Below(ty)), Given::Nothing),
    }
}

/// The row of an instruction on an instance field, with the object on the operand stack.
fn operand_row<'a>(action: FieldAction, class: ClassName, ty: Ty) -> Row<'a>
    ensures { row_said result ≡ objects.operand_row action class ty }
{
    let object = Demand::Below(Ty::Class(class));
    match action {
        FieldAction::Get => takes(Wanted::One(object), Given::Exactly(ty)),
        FieldAction::Put => takes(Wanted::Two(object, Demand::Below(ty)), Given::Nothing),
    }
}

/// The row of an instruction on an instance field of the object in local 0.
fn this_row<'a>(action: FieldAction, class: ClassName, ty: Ty) -> Row<'a>
    ensures { row_said result ≡ objects.this_row action class ty }
{
    let object = Demand::Below(Ty::Class(class));
    match action {
        FieldAction::Get => reads(0, object, Wanted::Nothing, Given::Exactly(ty)),
        FieldAction::Put => reads(0, object, Wanted::One(Demand::Below(ty)), Given::Nothing),
    }
}

/// The row of an instruction on a static field with a declared type.
fn row_of_static<'a>(access: FieldAccess, declared: DeclaredType<ClassName>) -> Option<Row<'a>>
    ensures { option_map row_said result ≡ objects.row_of_static access declared }
{
    let fits = is_form_of(access.form, declared);
    match access.holder {
        Holder::Class => Some(Row {
            fits,
            ..static_row(access.action, Ty::of(declared))
        }),
        Holder::Operand | Holder::This => None,
    }
}

/// The row of an instruction on an instance field with a declared type.
fn row_of_instance<'a>(
    access: FieldAccess,
    class: ClassName,
    declared: DeclaredType<ClassName>,
) -> Option<Row<'a>>
    ensures { option_map row_said result ≡ objects.row_of_instance access class declared }
{
    let fits = is_form_of(access.form, declared);
    let ty = Ty::of(declared);
    match access.holder {
        Holder::Class => None,
        Holder::Operand => Some(Row {
            fits,
            ..operand_row(access.action, class, ty)
        }),
        Holder::This => Some(Row {
            fits,
            ..this_row(access.action, class, ty)
        }),
    }
}

/// The row of an instruction on a field that is the target of the pool's entry.
pub(crate) fn field_row<'a>(access: FieldAccess, target: &PoolTarget) -> Option<Row<'a>>
    ensures { option_map row_said result ≡ objects.field_row access target.now }
{
    match target {
        PoolTarget::InstanceField {
            class,
            declared,
            ..
        } => row_of_instance(access, *class, *declared),
        PoolTarget::StaticField { declared, .. } => row_of_static(access, *declared),
        PoolTarget::Class(_) | PoolTarget::VirtualMethod { .. } => None,
        PoolTarget::SuperMethod { .. } | PoolTarget::StaticMethod { .. } => None,
    }
}
