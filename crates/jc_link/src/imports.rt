//! Unmet imports, and duplicate packages.

ghost use Rattle.std.specs.Prelude.{◌≡◌, ◌≤◌, length, take, bytes_eq, false, slice_get};
ghost use Rattle.std.specs.List.{list_any, range_with_len};
ghost use Rattle.std.specs.Option.{option_map_or};
ghost use Rattle.jc_link.specs.Imports.{is_unmet, first_unmet, is_there_already};

use jc_classes::{ClassTable, PackageShape};
use jc_names::PackagePlace;

/// Whether no package before place `home` meets an import of the package there.
fn is_unmet(table: &ClassTable, home: PackagePlace, token: u8) -> bool
    ensures { result ≡ is_unmet table.now home token }
{
    table.import_of(home, token).is_none()
}

/// The first unmet import of the package at place `home`. A byte counts a package's imports.
pub(crate) fn first_unmet(
    table: &ClassTable,
    home: PackagePlace,
    shape: &PackageShape,
) -> Option<u8>
    requires { length shape.now.imports ≤ 255 }
    ensures { result ≡ first_unmet table.now home shape.now }
{
    let count = shape.imports().len() as u8;
    (0..count).find(|token| is_unmet(table, home, *token))
}

/// Whether the package with an index has the AID of another one.
fn has_aid_of(table: &ClassTable, index: usize, shape: &PackageShape) -> bool
    ensures { result ≡ option_map_or (λ other. bytes_eq other.«package».aid shape.now.«package».aid)
        (slice_get table.now index) false }
{
    if index >= table.len() {
        return false;
    }
    match table.shape(PackagePlace::new(index)) {
        Some(other) => other.package().aid == shape.package().aid,
        None => false,
    }
}

/// Whether one of the first `count` packages has the AID of another one.
fn any_has_aid_of(table: &ClassTable, count: usize, shape: &PackageShape) -> bool
    ensures { result ≡ list_any (λ home. option_map_or (λ other. bytes_eq other.«package».aid shape.now.«package».aid)
        (slice_get table.now home) false) (range_with_len 0 count) }
{
    (0..count).any(|index| has_aid_of(table, index, shape))
}

/// Whether one of the packages before a place has the AID of another one.
#[tactic(auto, using(crate::proofs::Places::any_place))]
pub(crate) fn is_there_already(table: &ClassTable, home: PackagePlace, shape: &PackageShape) -> bool
    ensures { result ≡ is_there_already (take home table.now) shape.now }
{
    any_has_aid_of(table, home.index(), shape)
}
