//! Whether the classes of a package are well-formed in its world.

ghost use Rattle.std.specs.Prelude.{◌≡◌, ◌≤◌, false};
ghost use Rattle.std.specs.List.{find, list_any};
ghost use Rattle.std.specs.Option.{option_map};
ghost use Rattle.jc_link.specs.WellFormed.{is_bad_alone, is_bad_heir, is_bad_class, first_bad_class};

use crate::classes::{
    has_bad_entry, has_field_past_size, has_field_twice, has_other_nargs, has_unknown_type,
    lacks_superclass, leads_round, lists_no_interface,
};
use crate::inherited::{is_unfinished, loses_method, overrides_with_another_type};
use crate::methods::ClassMethods;
use jc_classes::{Class, ClassTable, PackageShape};
use jc_names::{ClassName, PackagePlace};

/// Whether a class has a fault that doesn't depend on what it inherits.
fn is_bad_alone(table: &ClassTable, home: PackagePlace, class: ClassName, found: &Class) -> bool
    ensures { result ≡ is_bad_alone table.now home class found.now }
{
    lacks_superclass(table, class, found)
        || leads_round(table, class)
        || lists_no_interface(table, home, found)
        || has_unknown_type(table, home, found)
        || has_field_twice(found)
        || has_field_past_size(found)
        || has_bad_entry(table, home, class, found)
        || has_other_nargs(found)
}

/// Whether a class has a fault that depends on what it inherits. The classes `before` of its package are well-formed.
fn is_bad_heir(
    table: &ClassTable,
    home: PackagePlace,
    before: &[Class],
    class: ClassName,
    found: &Class,
) -> bool
    requires { list_any (is_bad_class table.now home) before.now ≡ false }
    ensures { result ≡ is_bad_heir table.now home class found.now }
{
    let class = ClassMethods::new(table, home, class);
    loses_method(&class)
        || overrides_with_another_type(&class)
        || is_unfinished(&class, before, found)
}

/// Whether a class of the package at place `home` isn't well-formed, if those `before` it are. A class without a name
/// isn't.
fn is_bad_class(table: &ClassTable, home: PackagePlace, before: &[Class], found: &Class) -> bool
    requires { list_any (is_bad_class table.now home) before.now ≡ false }
    ensures { result ≡ is_bad_class table.now home found.now }
{
    match found.name(home) {
        Some(class) => {
            is_bad_alone(table, home, class, found)
                || is_bad_heir(table, home, before, class, found)
        }
        None => true,
    }
}

/// The first class of the package at place `home` that isn't well-formed.
#[tactic(auto, using(crate::proofs::RowsAbove::here, crate::proofs::RowsAbove::more, crate::proofs::RowsAbove::none))]
fn bad_class<'t>(
    table: &ClassTable,
    home: PackagePlace,
    shape: &'t PackageShape,
) -> Option<&'t Class>
    ensures { option_map (λ k. k.now) result ≡ find (is_bad_class table.now home) shape.now.classes }
{
    let classes = shape.classes();
    for index in 0..classes.len() {
        if is_bad_class(table, home, &classes[..index], &classes[index]) {
            return Some(&classes[index]);
        }
    }
    None
}

/// The offset of the first class of the package at place `home` that isn't well-formed.
pub(crate) fn first_bad_class(
    table: &ClassTable,
    home: PackagePlace,
    shape: &PackageShape,
) -> Option<u16>
    ensures { result ≡ first_bad_class table.now home shape.now }
{
    let found = bad_class(table, home, shape)?;
    Some(found.offset())
}
