//! The order of verification types.

ghost use Rattle.std.specs.Prelude.{◌≡◌, false};
ghost use Rattle.std.specs.Option.{option_map_or};
ghost use Rattle.jc_types.specs.Ty.{is_below};

use crate::classes::ClassOrder;
use crate::ty::Ty;
use jc_names::ClassName;

/// Whether there is a class, and it is the other one or below it.
fn is_some_below<C: ClassOrder>(class: Option<ClassName>, above: ClassName, classes: &C) -> bool
    ensures { result ≡ option_map_or (λ c. C.lies_below classes.now c above) class false }
{
    match class {
        Some(class) => classes.is_class_below(class, above),
        None => false,
    }
}

/// Whether a type is below another, for an order of classes.
pub fn is_below<C: ClassOrder>(lower: Ty, upper: Ty, classes: &C) -> bool
    ensures { result ≡ is_below (C.lies_below classes.now) lower upper }
{
    match upper {
        Ty::Top => true,
        Ty::Word => lower.is_word(),
        Ty::Null => lower.is_null(),
        Ty::Class(class) => {
            lower.is_null() || is_some_below(lower.class_of_objects(), class, classes)
        }
        Ty::BooleanArray => lower.is_null() || lower.is_boolean_array(),
        Ty::ByteArray => lower.is_null() || lower.is_byte_array(),
        Ty::ShortArray => lower.is_null() || lower.is_short_array(),
        Ty::ReferenceArray(class) => {
            lower.is_null() || is_some_below(lower.class_of_components(), class, classes)
        }
    }
}
