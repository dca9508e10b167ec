//! The install methods of applets.

ghost use Rattle.std.specs.Prelude.{◌≡◌, ◌||◌, ℕ, List};
ghost use Rattle.std.specs.List.{list_all};
ghost use Rattle.jc_base.specs.NumberSet.{has_number};
ghost use Rattle.jc_base.specs.declared.placed_rows.Placed.{Placed};
ghost use Rattle.jc_cap.specs.declared.record.Record.{Record};
ghost use Rattle.jc_cap_desc.specs.Across.{class_methods, installs, applets_install};
ghost use Rattle.jc_cap_desc.specs.PrivateApplets.{HoldsInstalls, installs_at};
ghost use Rattle.jc_cap_desc.specs.PrivateInterfaceRows.{HoldsInterfaces};
ghost use Rattle.jc_cap_desc.specs.PrivateTypes.{IndexesTypes, PlacedTypes};

use crate::class_row::{ClassRows, MethodRow, MethodRows};
use crate::interfaces::is_interface_row;
use crate::type_index::TypeIndex;
use jc_base::NumberSet;
use jc_cap::Applets;

/// Whether a method of a class is static, has code, and has the signature of an install method.
fn installs(index: &TypeIndex, method: &MethodRow) -> bool
    ensures { (types : PlacedTypes) → IndexesTypes index.now types → result ≡ installs types method.now }
{
    method.is_static && 0 < method.bytecode_count && index.installs.contains(method.type_offset)
}

/// Puts the offsets of the install methods among these methods into a set.
fn put_installs(index: &TypeIndex, methods: &MethodRows, set: &mut NumberSet)
    ensures { (types : PlacedTypes) → IndexesTypes index.now types → (n : ℕ)
        → has_number set.new n ≡ (has_number set.old n || installs_at types methods.now n) }
{
    let mut left = methods.again();
    while let Some(method) = left.next() {
        if installs(index, &method) {
            set.insert(method.offset);
        }
    }
}

/// The offsets of the install methods of classes.
fn install_offsets(interfaces: &NumberSet, index: &TypeIndex, rows: &ClassRows) -> NumberSet
    ensures { (records : List (Placed Record)) (types : PlacedTypes) → HoldsInterfaces interfaces.now records
        → IndexesTypes index.now types → HoldsInstalls result types (class_methods records rows.now) }
{
    let mut set = NumberSet::empty();
    let mut left = rows.again();
    while let Some(row) = left.next() {
        if !is_interface_row(interfaces, &row) {
            put_installs(index, &row.methods, &mut set);
        }
    }
    set
}

/// Whether each applet's install method is in a set.
fn are_within(set: &NumberSet, applets: &Applets) -> bool
    ensures { result ≡ list_all (λ a. has_number set.now a.install) applets.now }
{
    let mut left = applets.again();
    while let Some(applet) = left.next() {
        if !set.contains(applet.install) {
            return false;
        }
    }
    true
}

/// Whether each applet's install method is an install method of a class.
pub(crate) fn applets_install(
    interfaces: &NumberSet,
    rows: &ClassRows,
    index: &TypeIndex,
    applets: &Applets,
) -> bool
    ensures { (records : List (Placed Record)) (types : PlacedTypes) → HoldsInterfaces interfaces.now records
        → IndexesTypes index.now types → result ≡ applets_install records rows.now types applets.now }
{
    let installers = install_offsets(interfaces, index, rows);
    are_within(&installers, applets)
}
