//! The classes that a certificate of a package names, and the names of classes.

ghost use Rattle.std.specs.Prelude.{◌≡◌, ◌≤◌, false, None, Some, IfSome};
ghost use Rattle.jc_classes.specs.Subtype.{is_class_at};
ghost use Rattle.jc_link.specs.Built.{IsBuilt};
ghost use Rattle.jc_check.specs.Package.{class_of_name, class_with_record, if_class, own_home};
ghost use Rattle.jc_check.specs.PrivateNames.{spelled_name};

use jc_base::ClassRef;
use jc_cert::SpelledClass;
use jc_classes::ClassTable;
use jc_names::{ClassName, PackagePlace};

/// The class with a name, if it isn't an interface.
fn if_class(table: &ClassTable, class: ClassName) -> Option<ClassName>
    ensures { result ≡ if_class table.now class }
{
    let found = table.class_at(class)?;
    if found.is_class() { Some(class) } else { None }
}

/// The class whose record stands at an offset of the package at place `home`.
fn class_with_record(table: &ClassTable, home: PackagePlace, offset: u16) -> Option<ClassName>
    ensures { result ≡ class_with_record table.now home offset }
{
    let class = table.class_named(home, ClassRef::Internal { offset })?;
    if_class(table, class)
}

/// The class that a name in a certificate of a world's last package stands for.
#[tactic(auto, unfolding(crate::specs::Package::class_of_name))]
pub fn class_of_name(table: &ClassTable, name: SpelledClass) -> Option<ClassName>
    ensures { result ≡ class_of_name table.now name }
{
    let home = table.last();
    match name {
        SpelledClass::Own { offset } => class_with_record(table, home, offset),
        SpelledClass::Api(class) => if_class(table, ClassName::Api(class)),
        SpelledClass::Other { package, offset } => {
            let there = table.loaded_with(home, &package)?;
            class_with_record(table, there, offset)
        }
    }
}

/// The name that a certificate of a world's last package has for a class, if the class's package is there.
fn spelled_name(table: &ClassTable, class: ClassName) -> Option<SpelledClass>
    ensures { result ≡ spelled_name table.now class }
{
    match class {
        ClassName::Api(class) => Some(SpelledClass::Api(class)),
        ClassName::Loaded { offset, .. } => {
            let home = class.home();
            if home.index() + 1 == table.len() {
                return Some(SpelledClass::Own { offset });
            }
            let package = table.shape(home)?.package();
            Some(SpelledClass::Other {
                package: package.aid,
                offset,
            })
        }
    }
}

/// The name that a certificate of a world's last package has for a class; an interface has none.
#[tactic(auto, using(crate::proofs::Names::unnamed, crate::proofs::Names::not_found, crate::proofs::Names::another))]
pub fn name_of_class(table: &ClassTable, class: ClassName) -> Option<SpelledClass>
    requires { IsBuilt table.now }
    ensures some { IfSome result (λ name. class_of_name table.now name ≡ Some class) }
    ensures none { result ≡ None → is_class_at table.now class ≡ false }
{
    let name = spelled_name(table, class)?;
    if class_of_name(table, name)? == class {
        Some(name)
    } else {
        None
    }
}
