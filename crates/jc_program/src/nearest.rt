//! The nearest superclass of a class among the known classes.

ghost use Rattle.std.specs.Prelude.{◌≡◌, ◌≢◌, ℕ, true, IfOk};
ghost use Rattle.jc_classes.specs.Methods.{FindsAbove};
ghost use Rattle.jc_names.specs.Names.{home_of};
ghost use Rattle.jc_program.specs.PrivateNearest.{IsNearest};

use crate::class_rows::MOST_CLASSES;
use crate::classes::Classes;
use crate::supertypes::number_of;
use jc_classes::ClassTable;
use jc_names::ClassName;
use std::alloc::AllocError;

/// The number of the nearest known superclass of a class, if it has one, and whether the class has the package-visible
/// methods of this superclass.
#[derive(Clone, Copy)]
pub(crate) struct Nearest {
    pub(crate) number: Option<u16>,
    pub(crate) shares: bool,
}

/// Whether `at` is in the package of `class`, and packages other than this one find its package-visible methods in its
/// superclass.
fn passes_others(table: &ClassTable, class: ClassName, at: ClassName) -> bool
    ensures { result ≡ true → (asker : ℕ) → home_of class ≢ asker → FindsAbove table.now at asker }
{
    at.home().index() == class.home().index() && table.others_find_above(at)
}

/// Whether `shares` is true, and every package finds the package-visible methods of `at` in its superclass.
fn still_shares(table: &ClassTable, at: ClassName, shares: bool) -> bool
    ensures before { result ≡ true → shares ≡ true }
    ensures all { result ≡ true → (asker : ℕ) → FindsAbove table.now at asker }
{
    shares && table.all_find_above(at)
}

/// The nearest superclass of a class among the first `count` classes: the superclass itself, unless its number is
/// greater. Then the search continues from the superclass, which is in the same package.
pub(crate) fn nearest_above(
    table: &ClassTable,
    classes: &Classes,
    count: usize,
    class: ClassName,
) -> Result<Nearest, AllocError>
    ensures { IfOk result (IsNearest table.now classes.now count class) }
{
    let mut at = class;
    let mut shares = true;
    for _ in 0..MOST_CLASSES {
        if !passes_others(table, class, at) {
            return Err(AllocError);
        }
        shares = still_shares(table, at, shares);
        let Some(above) = table.superclass_of(at) else {
            return Ok(Nearest {
                number: None,
                shares,
            });
        };
        let number = number_of(classes, above)?;
        if usize::from(number) < count {
            return Ok(Nearest {
                number: Some(number),
                shares,
            });
        }
        at = above;
    }
    Err(AllocError)
}
