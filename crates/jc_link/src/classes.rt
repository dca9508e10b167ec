//! Faults of a class or an interface that don't depend on what it inherits.

ghost use Rattle.std.specs.Prelude.{◌≡◌, ◌≤◌, ◌==◌, not, false, is_some};
ghost use Rattle.std.specs.List.{list_any, filter_map};
ghost use Rattle.std.specs.Option.{option_map_or};
ghost use Rattle.jc_classes.specs.Record.{superinterfaces, interface_rows};
ghost use Rattle.jc_classes.specs.World.{class_named};
ghost use Rattle.jc_classes.specs.Subtype.{is_class_at, is_interface_at};
ghost use Rattle.jc_link.specs.MemberType.{field_type_of, member_type_of};
ghost use Rattle.jc_link.specs.Classes.{lacks_superclass, leads_round, lists_no_interface, has_unknown_type};
ghost use Rattle.jc_link.specs.Classes.{instance_token, has_field_twice, has_field_past_size, is_inherited};
ghost use Rattle.jc_link.specs.Classes.{is_bad_entry, has_bad_entry, argument_count, has_other_nargs};

use crate::types::{is_known_field, is_known_method};
use jc_base::ClassRef;
use jc_cap_desc::FieldPlace;
use jc_classes::{Class, ClassTable, DeclaredMethod, DescribedMethod, Field, method_name};
use jc_names::{ClassName, PackagePlace};

/// The greatest number of classes and interfaces.
pub(crate) const MOST_CLASSES: u16 = 17_085;
/// The entry of a table for a method that another package's class declares.
const DECLARED_ABOVE: u16 = 0xFFFF;

/// Whether the name is a class's, and not an interface's.
pub(crate) fn is_class_at(table: &ClassTable, class: ClassName) -> bool
    ensures { result ≡ is_class_at table.now class }
{
    match table.class_at(class) {
        Some(found) => found.is_class(),
        None => false,
    }
}

/// Whether the name is an interface's.
fn is_interface_at(table: &ClassTable, class: ClassName) -> bool
    ensures { result ≡ is_interface_at table.now class }
{
    match table.class_at(class) {
        Some(found) => !found.is_class(),
        None => false,
    }
}

/// Whether it is a class whose superclass is missing, isn't named, or is an interface.
pub(crate) fn lacks_superclass(table: &ClassTable, class: ClassName, found: &Class) -> bool
    ensures { result ≡ lacks_superclass table.now class found.now }
{
    if !found.is_class() {
        return false;
    }
    match table.superclass_of(class) {
        Some(above) => !is_class_at(table, above),
        None => true,
    }
}

/// Whether the superclass chain of a class has a cycle through it.
pub(crate) fn leads_round(table: &ClassTable, class: ClassName) -> bool
    ensures { result ≡ leads_round table.now class }
{
    match table.superclass_of(class) {
        Some(above) => table.is_at_or_above(class, above),
        None => false,
    }
}

/// Whether a reference of the package at place `home` doesn't resolve to an interface.
fn finds_no_interface(table: &ClassTable, home: PackagePlace, reference: ClassRef) -> bool
    ensures { result ≡ not (option_map_or (is_interface_at table.now) (class_named table.now home reference) false) }
{
    match table.class_named(home, reference) {
        Some(found) => !is_interface_at(table, found),
        None => true,
    }
}

/// Whether a reference to an interface that an interface extends doesn't resolve to one.
fn extends_no_interface(table: &ClassTable, home: PackagePlace, found: &Class) -> bool
    ensures { result
        ≡ list_any (λ i. not (option_map_or (is_interface_at table.now) (class_named table.now home i.interface) false))
        (superinterfaces found.now.body) }
{
    found
        .superinterfaces()
        .iter()
        .any(|i| finds_no_interface(table, home, i.interface))
}

/// Whether a reference to an interface that a class implements doesn't resolve to one.
fn implements_no_interface(table: &ClassTable, home: PackagePlace, found: &Class) -> bool
    ensures { result
        ≡ list_any (λ i. not (option_map_or (is_interface_at table.now) (class_named table.now home i.interface) false))
        (interface_rows found.now.body) }
{
    found
        .interface_rows()
        .iter()
        .any(|i| finds_no_interface(table, home, i.interface()))
}

/// Whether it lists something that is missing, or a class instead of an interface.
#[tactic(auto, using(crate::proofs::Listed::listed_either_way))]
pub(crate) fn lists_no_interface(table: &ClassTable, home: PackagePlace, found: &Class) -> bool
    ensures { result ≡ lists_no_interface table.now home found.now }
{
    extends_no_interface(table, home, found) || implements_no_interface(table, home, found)
}

/// Whether a method isn't static, and is declared by the class or a superclass of it.
fn is_inherited(table: &ClassTable, class: ClassName, declared: &DeclaredMethod) -> bool
    ensures { result ≡ is_inherited table.now class declared.now }
{
    !declared.method.is_static() && table.is_at_or_above(declared.class, class)
}

/// Whether an entry of a table is neither FFFF nor the offset of such a method.
fn is_bad_entry(table: &ClassTable, home: PackagePlace, class: ClassName, entry: u16) -> bool
    ensures { result ≡ is_bad_entry table.now home class entry }
{
    if entry == DECLARED_ABOVE {
        return false;
    }
    match table.method_at(method_name(home, entry)) {
        Some(declared) => !is_inherited(table, class, &declared),
        None => true,
    }
}

/// Whether one of these entries is such an entry.
fn is_bad_table(table: &ClassTable, home: PackagePlace, class: ClassName, entries: &[u16]) -> bool
    ensures { result ≡ list_any (is_bad_entry table.now home class) entries.now }
{
    entries
        .iter()
        .any(|entry| is_bad_entry(table, home, class, *entry))
}

/// Whether one of its two tables of virtual methods has such an entry.
pub(crate) fn has_bad_entry(
    table: &ClassTable,
    home: PackagePlace,
    class: ClassName,
    found: &Class,
) -> bool
    ensures { result ≡ has_bad_entry table.now home class found.now }
{
    is_bad_table(table, home, class, found.public_entries())
        || is_bad_table(table, home, class, found.package_entries())
}

/// Whether the type of a field doesn't resolve.
fn has_unknown_field(table: &ClassTable, home: PackagePlace, found: &Class) -> bool
    ensures { result ≡ list_any (λ f. not (is_some (field_type_of table.now home f))) found.now.fields }
{
    found
        .fields()
        .iter()
        .any(|f| !is_known_field(table, home, f))
}

/// Whether the type of a method doesn't resolve.
fn has_unknown_method(table: &ClassTable, home: PackagePlace, found: &Class) -> bool
    ensures { result ≡ list_any (λ m. not (is_some (member_type_of table.now home m.signature))) found.now.methods }
{
    found
        .methods()
        .iter()
        .any(|m| !is_known_method(table, home, m))
}

/// Whether a type of its fields or methods names something that is neither a class nor an interface.
pub(crate) fn has_unknown_type(table: &ClassTable, home: PackagePlace, found: &Class) -> bool
    ensures { result ≡ has_unknown_type table.now home found.now }
{
    has_unknown_field(table, home, found) || has_unknown_method(table, home, found)
}

/// The token of an instance field.
fn instance_token(field: &Field) -> Option<u8>
    ensures { result ≡ instance_token field.now }
{
    match field.place() {
        FieldPlace::Static { .. } => None,
        FieldPlace::Instance { token, .. } => Some(token),
    }
}

/// Whether an instance field among these has a token.
fn has_token(fields: &[Field], token: u8) -> bool
    ensures { result ≡ list_any (λ other. token == other) (filter_map instance_token fields.now) }
{
    fields
        .iter()
        .filter_map(|f| instance_token(f))
        .any(|other| token == other)
}

/// Whether an instance field among these has the same token as a field.
fn is_held_again(field: &Field, others: &[Field]) -> bool
    ensures { result
        ≡ option_map_or (λ token. list_any (λ other. token == other) (filter_map instance_token others.now))
        (instance_token field.now) false }
{
    match instance_token(field) {
        Some(token) => has_token(others, token),
        None => false,
    }
}

/// Whether two of its instance fields have the same token.
pub(crate) fn has_field_twice(found: &Class) -> bool
    ensures { result ≡ has_field_twice found.now }
{
    let mut rest = found.fields();
    while let Some((first, others)) = rest.split_first() {
        if is_held_again(first, others) {
            return true;
        }
        rest = others;
    }
    false
}

/// Whether one of its instance fields has a token at or above the number of cells that it declares.
pub(crate) fn has_field_past_size(found: &Class) -> bool
    ensures { result ≡ has_field_past_size found.now }
{
    let size = found.declared_size();
    found
        .fields()
        .iter()
        .filter_map(|f| instance_token(f))
        .any(|token| size <= token)
}

/// How many words of arguments a method takes by its type, `this` included.
fn argument_count(method: &DescribedMethod) -> usize
    ensures { result ≡ argument_count method.now }
{
    let parameters = method.parameters().len();
    if method.is_static() {
        parameters
    } else {
        parameters + 1
    }
}

/// Whether a method's header states another number.
fn has_other_words(method: &DescribedMethod) -> bool
    ensures { result
        ≡ option_map_or (λ header. not (header.nargs == argument_count method.now)) method.now.header false }
{
    match method.header() {
        Some(header) => usize::from(header.nargs) != argument_count(method),
        None => false,
    }
}

/// Whether the header of one of its methods states another number of arguments than the method's type has.
pub(crate) fn has_other_nargs(found: &Class) -> bool
    ensures { result ≡ has_other_nargs found.now }
{
    found.methods().iter().any(|m| has_other_words(m))
}
