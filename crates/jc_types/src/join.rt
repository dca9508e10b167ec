//! Joins of verification types.

ghost use Rattle.std.specs.Prelude.{◌≡◌, ◌≤◌, length, take};
ghost use Rattle.jc_classes.specs.Subtype.{common_class};
ghost use Rattle.jc_types.specs.Ty.{join_of_word, join_of_null, join_of_class, join_of_boolean_array};
ghost use Rattle.jc_types.specs.Ty.{join_of_byte_array, join_of_short_array, join_of_reference_array, join_of};
ghost use Rattle.jc_types.specs.State.{joined_all};

use crate::ty::Ty;
use jc_api::ApiClass;
use jc_classes::ClassTable;
use jc_names::ClassName;

/// The type of all objects.
const OBJECT: Ty = Ty::Class(ClassName::Api(ApiClass::Object));

fn join_of_word(other: Ty) -> Ty
    ensures { result ≡ join_of_word other }
{
    if other.is_word() { Ty::Word } else { Ty::Top }
}

fn join_of_null(other: Ty) -> Ty
    ensures { result ≡ join_of_null other }
{
    if other.is_reference() { other } else { Ty::Top }
}

fn join_of_class(class: ClassName, other: Ty, table: &ClassTable) -> Ty
    ensures { result ≡ join_of_class (common_class table.now) class other }
{
    match other {
        Ty::Top | Ty::Word => Ty::Top,
        Ty::Null => Ty::Class(class),
        Ty::Class(other) => Ty::Class(table.common_class(class, other)),
        Ty::BooleanArray | Ty::ByteArray | Ty::ShortArray | Ty::ReferenceArray(_) => OBJECT,
    }
}

fn join_of_boolean_array(other: Ty) -> Ty
    ensures { result ≡ join_of_boolean_array other }
{
    match other {
        Ty::Top | Ty::Word => Ty::Top,
        Ty::Null | Ty::BooleanArray => Ty::BooleanArray,
        Ty::Class(_) | Ty::ByteArray | Ty::ShortArray | Ty::ReferenceArray(_) => OBJECT,
    }
}

fn join_of_byte_array(other: Ty) -> Ty
    ensures { result ≡ join_of_byte_array other }
{
    match other {
        Ty::Top | Ty::Word => Ty::Top,
        Ty::Null | Ty::ByteArray => Ty::ByteArray,
        Ty::Class(_) | Ty::BooleanArray | Ty::ShortArray | Ty::ReferenceArray(_) => OBJECT,
    }
}

fn join_of_short_array(other: Ty) -> Ty
    ensures { result ≡ join_of_short_array other }
{
    match other {
        Ty::Top | Ty::Word => Ty::Top,
        Ty::Null | Ty::ShortArray => Ty::ShortArray,
        Ty::Class(_) | Ty::BooleanArray | Ty::ByteArray | Ty::ReferenceArray(_) => OBJECT,
    }
}

fn join_of_reference_array(class: ClassName, other: Ty, table: &ClassTable) -> Ty
    ensures { result ≡ join_of_reference_array (common_class table.now) class other }
{
    match other {
        Ty::Top | Ty::Word => Ty::Top,
        Ty::Null => Ty::ReferenceArray(class),
        Ty::Class(_) | Ty::BooleanArray | Ty::ByteArray | Ty::ShortArray => OBJECT,
        Ty::ReferenceArray(other) => Ty::ReferenceArray(table.common_class(class, other)),
    }
}

/// The least type above two.
pub(crate) fn join_of(one: Ty, other: Ty, table: &ClassTable) -> Ty
    ensures { result ≡ join_of (common_class table.now) one other }
{
    match one {
        Ty::Top => Ty::Top,
        Ty::Word => join_of_word(other),
        Ty::Null => join_of_null(other),
        Ty::Class(class) => join_of_class(class, other, table),
        Ty::BooleanArray => join_of_boolean_array(other),
        Ty::ByteArray => join_of_byte_array(other),
        Ty::ShortArray => join_of_short_array(other),
        Ty::ReferenceArray(class) => join_of_reference_array(class, other, table),
    }
}

/// Replaces the first types with their joins with others.
pub(crate) fn join_front(types: &mut [Ty], others: &[Ty], table: &ClassTable)
    requires { length others.now ≤ length types.old }
    ensures front { take (length others.now) types.new ≡ joined_all (common_class table.now) types.old others.now }
    ensures same { length types.new ≡ length types.old }
{
    for index in 0..others.len() {
        types[index] = join_of(types[index], others[index], table);
    }
}
