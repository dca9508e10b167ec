//! The forms of members' tests. All of them are inlined: if the member is known at compile time, its row is, too, and
//! isn't built.

ghost use Rattle.std.specs.Prelude.{◌≡◌};
ghost use Rattle.jc_natives.specs.PrivateRows.{called, called_on, constructed, on_array, on_arrays, range};

use crate::row::{Length, MemberRow, Range, Test, Use};

/// A range in an array, with the indexes of the array and the offset.
#[inline(always)]
pub(crate) fn range(array: usize, offset: usize, length: Length) -> Option<Range>
    ensures { result ≡ range array offset length }
{
    Some(Range {
        array,
        offset,
        length,
    })
}

/// No test.
pub(crate) const UNTESTED: MemberRow = MemberRow {
    first: Test::Nothing,
    second: Test::Nothing,
    first_range: None,
    second_range: None,
};

/// Tests the object that is constructed.
#[inline(always)]
pub(crate) fn constructed() -> MemberRow
    ensures { result ≡ constructed }
{
    MemberRow {
        first: Test::Object(0, Use::Fields),
        ..UNTESTED
    }
}

/// Tests the object whose member is called.
#[inline(always)]
pub(crate) fn called() -> MemberRow
    ensures { result ≡ called }
{
    MemberRow {
        first: Test::Object(0, Use::Calls),
        ..UNTESTED
    }
}

/// The same, and a range in the array that is the first argument.
#[inline(always)]
pub(crate) fn called_on(array: Test, length: Length) -> MemberRow
    ensures { result ≡ called_on array length }
{
    MemberRow {
        first: Test::Object(0, Use::Calls),
        second: array,
        first_range: range(1, 2, length),
        second_range: None,
    }
}

/// Tests a range in the one array of a static member.
#[inline(always)]
pub(crate) fn on_array(array: Test, length: Length) -> MemberRow
    ensures { result ≡ on_array array length }
{
    MemberRow {
        first: array,
        second: Test::Nothing,
        first_range: range(0, 1, length),
        second_range: None,
    }
}

/// Tests ranges in the two arrays of a static member.
#[inline(always)]
pub(crate) fn on_arrays(source: Test, target: Test) -> MemberRow
    ensures { result ≡ on_arrays source target }
{
    MemberRow {
        first: source,
        second: target,
        first_range: range(0, 1, Length::ShortAt(4)),
        second_range: range(2, 3, Length::ShortAt(4)),
    }
}
