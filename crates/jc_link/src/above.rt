//! Interface rows that a class fulfils because its superclass does and has the same methods.

ghost use Rattle.std.specs.Prelude.{◌≡◌, ◌&&◌, true, false, Some};
ghost use Rattle.std.specs.List.{list_any};
ghost use Rattle.std.specs.Option.{option_map_or};
ghost use Rattle.jc_classes.specs.Members.{name_of};
ghost use Rattle.jc_classes.specs.World.{superclass_of};
ghost use Rattle.jc_names.specs.Names.{is_same_name};
ghost use Rattle.jc_names.specs.declared.name.ClassName.{ClassName};
ghost use Rattle.jc_link.specs.Inherited.{breaks_interface, breaks_row, rows_of};
ghost use Rattle.jc_link.specs.PrivateRows.{is_finished_as, FindSame};
ghost use Rattle.jc_link.specs.WellFormed.{is_bad_class};

use crate::inherited::is_same_method;
use crate::methods::ClassMethods;
use jc_classes::Class;
use jc_names::{ClassName, MethodName, PackagePlace};

/// The number of tokens of public methods.
const PUBLIC_TOKENS: u8 = 128;

/// Whether a class has this name.
fn is_named(home: PackagePlace, class: ClassName, found: &Class) -> bool
    ensures { result ≡ option_map_or (is_same_name class) (name_of home found.now) false }
{
    match found.name(home) {
        Some(name) => class.is(name),
        None => false,
    }
}

/// Whether it is the class with this name, and isn't abstract.
fn is_finished_as(home: PackagePlace, class: ClassName, found: &Class) -> bool
    ensures { result ≡ is_finished_as home class found.now }
{
    is_named(home, class, found) && found.is_class() && !found.is_abstract()
}

/// Whether one of these classes is the class with this name, and isn't abstract.
fn is_one_of(home: PackagePlace, class: ClassName, before: &[Class]) -> bool
    ensures { result ≡ list_any (is_finished_as home class) before.now }
{
    before
        .iter()
        .any(|found| is_finished_as(home, class, found))
}

/// Whether two look-ups have the same result. If it returns true, they do.
#[tactic(auto, using(crate::proofs::RowsAbove::same_method))]
fn is_same_found(one: Option<MethodName>, other: Option<MethodName>) -> bool
    ensures { result ≡ true → one ≡ other }
{
    match (one, other) {
        (Some(one), Some(other)) => is_same_method(one, other),
        (None, None) => true,
        (Some(_), None) => false,
        (None, Some(_)) => false,
    }
}

/// Whether a class and its superclass have the same public methods. If it returns true, they do.
#[tactic(auto, using(crate::proofs::RowsAbove::same_so_far, crate::proofs::RowsAbove::same_all))]
fn find_same(class: &ClassMethods<'_>) -> bool
    ensures { result ≡ true → (above : ClassName) → superclass_of class.now.world class.now.class ≡ Some above
        → FindSame class.now.world class.now.class above }
{
    for token in 0..PUBLIC_TOKENS {
        if !is_same_found(class.public(token), class.public_above(token)) {
            return false;
        }
    }
    true
}

/// Whether a class fulfils the rows of its superclasses because its superclass does: that is one of the well-formed
/// classes `before` of its package, and both have the same public methods. If it returns true, only the class's own
/// rows are left to test.
pub(crate) fn keeps_rows_above(class: &ClassMethods<'_>, before: &[Class]) -> bool
    requires { list_any (is_bad_class class.now.world class.now.home) before.now ≡ false }
    ensures { result ≡ true
        → list_any (breaks_row class.now.world class.now.class) (rows_of class.now.world class.now.class)
        ≡ breaks_interface class.now.world class.now.class }
{
    match class.table().superclass_of(class.name()) {
        Some(above) => is_one_of(class.home(), above, before) && find_same(class),
        None => false,
    }
}
