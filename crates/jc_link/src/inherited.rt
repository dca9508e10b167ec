//! Faults of a class that depend on what it inherits.

ghost use Rattle.std.specs.Prelude.{◌≡◌, ◌≤◌, ◌&&◌, false};
ghost use Rattle.jc_classes.specs.Methods.{is_among};
ghost use Rattle.std.specs.List.{list_any, range_with_len};
ghost use Rattle.std.specs.Option.{option_map_or};
ghost use Rattle.jc_link.specs.Inherited.{loses_at, loses_method, is_same_method, is_other_type, retypes_at};
ghost use Rattle.jc_link.specs.Inherited.{overrides_with_another_type, is_abstract_at, leaves_at};
ghost use Rattle.jc_link.specs.Inherited.{leaves_package_abstract, leaves_abstract, public_tokens, rows_of, misses};
ghost use Rattle.jc_link.specs.Inherited.{method_for, is_unimplemented, lacks_methods_of, breaks_row, breaks_interface};
ghost use Rattle.jc_link.specs.Inherited.{is_unfinished};
ghost use Rattle.jc_link.specs.WellFormed.{is_bad_class};

use crate::above::keeps_rows_above;
use crate::classes::MOST_CLASSES;
use crate::methods::ClassMethods;
use crate::pool::{is_abstract_method, is_concrete};
use crate::types::{implements_type, is_known_method, same_method_type};
use jc_classes::{Class, ClassTable, DescribedMethod, ImplementedInterface, Places, anchor_behind};
use jc_names::{ClassName, MethodName, PackagePlace};

/// Tokens from this one on are package-visible.
const PACKAGE_VISIBLE: u8 = 128;

/// Whether the superclass has a method at a token, and the class has none.
fn loses_at(class: &ClassMethods<'_>, token: u8) -> bool
    ensures { result ≡ loses_at class.now.world class.now.home class.now.class token }
{
    class.above(token).is_some() && class.own(token).is_none()
}

/// Whether the superclass has a method at some token at which the class has none.
pub(crate) fn loses_method(class: &ClassMethods<'_>) -> bool
    ensures { result ≡ loses_method class.now.world class.now.home class.now.class }
{
    for token in 0..256u16 {
        if loses_at(class, token as u8) {
            return true;
        }
    }
    false
}

/// Whether two names are equal.
pub(crate) fn is_same_method(one: MethodName, other: MethodName) -> bool
    ensures { result ≡ is_same_method one other }
{
    match (one, other) {
        (MethodName::Api { member }, MethodName::Api { member: other }) => member == other,
        (
            MethodName::Loaded { package, offset },
            MethodName::Loaded {
                package: other_package,
                offset: other_offset,
            },
        ) => package == other_package && offset == other_offset,
        (MethodName::Api { .. }, MethodName::Loaded { .. }) => false,
        (MethodName::Loaded { .. }, MethodName::Api { .. }) => false,
    }
}

/// Whether two methods differ and have different types.
fn is_other_type(table: &ClassTable, method: MethodName, above: MethodName) -> bool
    ensures { result ≡ is_other_type table.now method above }
{
    !is_same_method(method, above) && !same_method_type(table, method, above)
}

/// Whether the class and its superclass have methods of different types at a token.
fn retypes_at(class: &ClassMethods<'_>, token: u8) -> bool
    ensures { result ≡ retypes_at class.now.world class.now.home class.now.class token }
{
    let Some(method) = class.own(token) else {
        return false;
    };
    match class.above(token) {
        Some(above) => is_other_type(class.table(), method, above),
        None => false,
    }
}

/// Whether the class and its superclass have methods of different types at some token.
pub(crate) fn overrides_with_another_type(class: &ClassMethods<'_>) -> bool
    ensures { result ≡ overrides_with_another_type class.now.world class.now.home class.now.class }
{
    for token in 0..256u16 {
        if retypes_at(class, token as u8) {
            return true;
        }
    }
    false
}

/// Whether a method exists and is abstract.
fn is_abstract_at(table: &ClassTable, method: MethodName) -> bool
    ensures { result ≡ is_abstract_at table.now method }
{
    match table.method_at(method) {
        Some(declared) => is_abstract_method(declared.method),
        None => false,
    }
}

/// Whether a method was found and is abstract.
fn is_left(table: &ClassTable, found: Option<MethodName>) -> bool
    ensures { result ≡ option_map_or (is_abstract_at table.now) found false }
{
    match found {
        Some(method) => is_abstract_at(table, method),
        None => false,
    }
}

/// Whether a class leaves a public method abstract.
fn leaves_public_abstract(class: &ClassMethods<'_>) -> bool
    ensures { result ≡ list_any (leaves_at class.now.world class.now.class 0) public_tokens }
{
    for token in 0..PACKAGE_VISIBLE {
        if is_left(class.table(), class.public(token)) {
            return true;
        }
    }
    false
}

/// Whether a class leaves a package-visible method abstract for the package at place `asker`. Most have no token there.
fn leaves_package_abstract(table: &ClassTable, class: ClassName, asker: usize) -> bool
    ensures { result ≡ leaves_package_abstract table.now class asker }
{
    let count = table.visible_tokens(class, asker);
    if count == 0 {
        return false;
    }
    let methods = table.visible_methods(class, asker);
    for place in 0..count {
        if is_left(table, methods.at(place)) {
            return true;
        }
    }
    false
}

/// Whether a class leaves a package-visible method abstract for the package at place `asker`, if that place is in a
/// range.
fn leaves_among(table: &ClassTable, class: ClassName, places: Places, asker: usize) -> bool
    ensures { result ≡ (is_among places asker && leaves_package_abstract table.now class asker) }
{
    places.has(asker) && leaves_package_abstract(table, class, asker)
}

/// Whether a class leaves a package-visible method abstract for one of the first `count` packages, of those in a range.
fn leaves_for_one(table: &ClassTable, class: ClassName, places: Places, count: usize) -> bool
    ensures { result ≡ list_any (λ asker. is_among places asker && leaves_package_abstract table.now class asker)
        (range_with_len 0 count) }
{
    (0..count).any(|asker| leaves_among(table, class, places, asker))
}

/// Whether a class leaves a package-visible method abstract for one of the first `count` packages.
fn leaves_any_package_abstract(table: &ClassTable, class: ClassName, count: usize) -> bool
    ensures { result ≡ list_any (leaves_package_abstract table.now class) (range_with_len 0 count) }
{
    leaves_for_one(table, class, table.visible_places(class), count)
}

/// Whether a class leaves a method abstract: a public one, or a package-visible one for any package.
fn leaves_abstract(class: &ClassMethods<'_>) -> bool
    ensures { result ≡ leaves_abstract class.now.world class.now.class }
{
    let table = class.table();
    leaves_public_abstract(class) || leaves_any_package_abstract(table, class.name(), table.len())
}

/// Whether an index of a row leads to no method, or to an abstract one.
fn misses(class: &ClassMethods<'_>, index: u8) -> bool
    ensures { result ≡ misses class.now.world class.now.class index }
{
    match class.public(index) {
        Some(method) => !is_concrete(class.table(), method),
        None => true,
    }
}

/// The method of the class for an interface's token, by a row's indexes.
fn method_for(class: &ClassMethods<'_>, indexes: &[u8], token: u8) -> Option<MethodName>
    ensures { result ≡ method_for class.now.world class.now.class indexes.now token }
{
    let index = indexes.get(usize::from(token)).copied()?;
    class.public(index)
}

/// Whether a method of an interface has a type, and the class has no method for it, or one of another type.
fn is_unimplemented(
    class: &ClassMethods<'_>,
    indexes: &[u8],
    home: PackagePlace,
    method: &DescribedMethod,
) -> bool
    ensures { result ≡ is_unimplemented class.now.world class.now.class indexes.now home method.now }
{
    let table = class.table();
    if !is_known_method(table, home, method) {
        return false;
    }
    let found = method_for(class, indexes, method.token());
    !implements_type(table, home, method, found)
}

/// Whether one of these methods of an interface is such a method.
fn lacks_one_of(
    class: &ClassMethods<'_>,
    indexes: &[u8],
    home: PackagePlace,
    methods: &[DescribedMethod],
) -> bool
    ensures { result ≡ list_any (is_unimplemented class.now.world class.now.class indexes.now home) methods.now }
{
    methods
        .iter()
        .any(|method| is_unimplemented(class, indexes, home, method))
}

/// Whether an interface has such a method.
fn lacks_methods_of(class: &ClassMethods<'_>, indexes: &[u8], interface: ClassName) -> bool
    ensures { result ≡ lacks_methods_of class.now.world class.now.class indexes.now interface }
{
    match class.table().class_at(interface) {
        Some(found) => lacks_one_of(class, indexes, interface.home(), found.methods()),
        None => false,
    }
}

/// Whether one of the indexes of a row leads to no method, or to an abstract one.
fn misses_one(class: &ClassMethods<'_>, indexes: &[u8]) -> bool
    ensures { result ≡ list_any (misses class.now.world class.now.class) indexes.now }
{
    indexes.iter().any(|index| misses(class, *index))
}

/// Whether a class doesn't fulfil a row, which the package at place `home` spells.
fn breaks_row(class: &ClassMethods<'_>, home: PackagePlace, row: &ImplementedInterface) -> bool
    ensures { result ≡ breaks_row class.now.world class.now.class (record { home = home; row = row.now }) }
{
    if misses_one(class, row.indexes()) {
        return true;
    }
    match class.table().class_named(home, row.interface()) {
        Some(interface) => lacks_methods_of(class, row.indexes(), interface),
        None => false,
    }
}

/// Whether a class doesn't fulfil one of these rows, which the package at place `home` spells.
fn breaks_one_of(
    class: &ClassMethods<'_>,
    home: PackagePlace,
    rows: &[ImplementedInterface],
) -> bool
    ensures { result
        ≡ list_any (λ row. breaks_row class.now.world class.now.class (record { home = home; row = row })) rows.now }
{
    rows.iter().any(|row| breaks_row(class, home, row))
}

/// Whether a class doesn't fulfil one of the rows of the class `at`.
#[tactic(auto, using(crate::proofs::Rows::rows_of_class))]
fn breaks_row_of(class: &ClassMethods<'_>, at: ClassName) -> bool
    ensures { result ≡ list_any (breaks_row class.now.world class.now.class) (rows_of class.now.world at) }
{
    match class.table().class_at(at) {
        Some(found) => breaks_one_of(class, at.home(), found.interface_rows()),
        None => false,
    }
}

/// Whether a class doesn't fulfil one of its own rows or of those of its superclasses, by a walk along these. Their
/// chain may have a cycle: if the walk meets its anchor again, all rows were tested.
fn breaks_row_along(class: &ClassMethods<'_>) -> bool
    ensures { result ≡ breaks_interface class.now.world class.now.class }
{
    let mut at = class.name();
    let mut anchor = at;
    for steps in 0..MOST_CLASSES {
        if breaks_row_of(class, at) {
            return true;
        }
        match class.table().superclass_of(at) {
            Some(above) => at = above,
            None => return false,
        }
        if at.is(anchor) {
            return false;
        }
        anchor = anchor_behind(steps + 1, at, anchor);
    }
    false
}

/// Whether a class doesn't fulfil one of its own rows or of those of its superclasses. Most have no rows to test, and
/// others only their own: the superclass was tested before, and has the same methods.
fn breaks_interface(class: &ClassMethods<'_>, before: &[Class]) -> bool
    requires { list_any (is_bad_class class.now.world class.now.home) before.now ≡ false }
    ensures { result ≡ breaks_interface class.now.world class.now.class }
{
    if !class.table().may_list(class.name()) {
        return false;
    }
    if keeps_rows_above(class, before) {
        return breaks_row_of(class, class.name());
    }
    breaks_row_along(class)
}

/// Whether it is a class that isn't abstract, and leaves a method abstract or doesn't fulfil an interface's row. The
/// classes `before` of its package are well-formed.
pub(crate) fn is_unfinished(class: &ClassMethods<'_>, before: &[Class], found: &Class) -> bool
    requires { list_any (is_bad_class class.now.world class.now.home) before.now ≡ false }
    ensures { result ≡ is_unfinished class.now.world class.now.class found.now }
{
    if !found.is_class() || found.is_abstract() {
        return false;
    }
    leaves_abstract(class) || breaks_interface(class, before)
}
