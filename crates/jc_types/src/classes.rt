//! Orders of classes.

ghost use Rattle.std.specs.Prelude.{◌≡◌, Bool, []};
ghost use Rattle.jc_classes.specs.Subtype.{is_class_below};
ghost use Rattle.jc_names.specs.declared.name.ClassName.{ClassName};

use jc_api::ApiClass;
use jc_classes::ClassTable;
use jc_names::ClassName;

/// An order of classes: that of a table, or that without classes.
pub trait ClassOrder {
    ghost lies_below: { Self → ClassName → ClassName → Bool };

    /// Whether a class is the other one or below it.
    fn is_class_below(&self, class: ClassName, above: ClassName) -> bool
        ensures { result ≡ lies_below self.now class above };
}

impl ClassOrder for ClassTable {
    ghost lies_below = { is_class_below };

    fn is_class_below(&self, class: ClassName, above: ClassName) -> bool {
        ClassTable::is_class_below(self, class, above)
    }
}

/// The order without classes, as for code alone: each name is below itself and below Object.
#[derive(Clone, Copy, Debug, PartialEq, Eq)]
pub struct NoClasses;

impl ClassOrder for NoClasses {
    ghost lies_below = { λ none. is_class_below [] };

    fn is_class_below(&self, class: ClassName, above: ClassName) -> bool {
        is_name_below(class, above)
    }
}

/// Whether a name is the other one, or the other one is Object.
#[tactic(auto, using(crate::proofs::NoWorld::name_below))]
fn is_name_below(class: ClassName, above: ClassName) -> bool
    ensures { result ≡ is_class_below [] class above }
{
    ClassName::Api(ApiClass::Object).is(above) || class.is(above)
}
