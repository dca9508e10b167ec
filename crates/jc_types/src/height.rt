//! Heights of types: bounds on the steps upward from them.

ghost use Rattle.std.specs.Prelude.{◌≡◌, ◌≤◌, ◌*◌, ◌^◌, length};
ghost use Rattle.std.specs.List.{sum_by};
ghost use Rattle.jc_classes.specs.Subtype.{classes_above};
ghost use Rattle.jc_classes.specs.Walk.{most_classes};
ghost use Rattle.jc_types.specs.Ty.{height_of};

use crate::ty::Ty;
use jc_api::ApiClass;
use jc_classes::ClassTable;
use jc_names::ClassName;

/// The greatest number of classes and interfaces.
const MOST_CLASSES: u32 = 17_085;
/// The class above all classes and interfaces.
const OBJECT: ClassName = ClassName::Api(ApiClass::Object);

/// The height of a type: a bound on the steps upward from it.
#[tactic(auto, using(crate::proofs::NoWorld::most_is))]
pub(crate) fn height_of(ty: Ty, table: &ClassTable) -> u32
    ensures { result ≡ height_of (classes_above table.now) most_classes ty }
{
    match ty {
        Ty::Top => 0,
        Ty::Word => 1,
        Ty::Null => 3 + MOST_CLASSES,
        Ty::Class(class) => 1 + u32::from(table.classes_above(class)),
        Ty::BooleanArray | Ty::ByteArray | Ty::ShortArray => {
            2 + u32::from(table.classes_above(OBJECT))
        }
        Ty::ReferenceArray(class) => 2 + u32::from(table.classes_above(class)),
    }
}

/// The sum of the heights of types.
pub(crate) fn height_of_all(types: &[Ty], table: &ClassTable) -> u128
    ensures sum { result ≡ sum_by (height_of (classes_above table.now) most_classes) types.now }
    ensures small { result ≤ length types.now * 2 ^ 32 }
{
    let mut total = 0;
    for index in 0..types.len() {
        total += u128::from(height_of(types[index], table));
    }
    total
}
