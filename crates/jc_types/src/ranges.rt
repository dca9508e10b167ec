//! Which locals of two states differ, and the order of states that agree in the others.

ghost use Rattle.std.specs.Prelude.{◌≡◌, ◌≤◌, List, true, length, take, drop};
ghost use Rattle.jc_types.specs.PrivateRanges.{AgreeOutside};
ghost use Rattle.jc_types.specs.State.{all_below};
ghost use Rattle.jc_types.specs.declared.ty.Ty.{Ty as LocalType};

use crate::changes::are_below;
use crate::classes::ClassOrder;
use crate::ty::Ty;

/// A range of a method's locals: from the index `first` to before `after`.
#[derive(Clone, Copy)]
pub struct LocalRange {
    pub first: usize,
    pub behind: usize,
}

/// How many types at the front are equal in both lists.
fn same_in_front(old: &[Ty], new: &[Ty]) -> usize
    requires { length old.now ≡ length new.now }
    ensures within { result ≤ length new.now }
    ensures same { take result old.now ≡ take result new.now }
{
    let mut count = 0;
    while count < new.len() && old[count] == new[count] {
        count += 1;
    }
    count
}

/// The index from which all types are equal in both lists, at least `first`.
fn same_from(old: &[Ty], new: &[Ty], first: usize) -> usize
    requires count { length old.now ≡ length new.now }
    requires first { first ≤ length new.now }
    ensures ordered { first ≤ result }
    ensures within { result ≤ length new.now }
    ensures same { drop result old.now ≡ drop result new.now }
{
    let mut behind = new.len();
    while behind > first && old[behind - 1] == new[behind - 1] {
        behind -= 1;
    }
    behind
}

/// A range outside of which the locals of two states agree.
pub fn differing(old: &[Ty], new: &[Ty]) -> LocalRange
    requires { length old.now ≡ length new.now }
    ensures { AgreeOutside result old.now new.now }
{
    let first = same_in_front(old, new);
    let behind = same_from(old, new, first);
    LocalRange { first, behind }
}

/// Whether types are below others, element by element, if types that agree with them outside of a range are. It tests
/// only the range.
pub fn are_below_within<C: ClassOrder>(
    lower: &[Ty],
    upper: &[Ty],
    range: LocalRange,
    classes: &C,
) -> bool
    requires ordered { range.first ≤ range.behind }
    requires within { range.behind ≤ length lower.now }
    ensures { (old : List LocalType) → AgreeOutside range old lower.now
        → all_below (C.lies_below classes.now) old upper.now ≡ true
        → result ≡ all_below (C.lies_below classes.now) lower.now upper.now }
{
    if lower.len() != upper.len() {
        return false;
    }
    are_below(
        &lower[range.first..range.behind],
        &upper[range.first..range.behind],
        classes,
    )
}
