//! The rows of a certificate, by their methods.

ghost use Rattle.std.specs.Prelude.{◌≡◌, ◌<◌, ◌^◌, ◌==◌, ℕ, not, length, map, slice_get, IfSome};
ghost use Rattle.std.specs.List.{find};
ghost use Rattle.std.specs.Option.{option_map};
ghost use Rattle.jc_base.specs.NumberSet.{has_number};
ghost use Rattle.jc_cert.specs.Cert.{IsCert, row, rows, stated};
ghost use Rattle.jc_check.specs.Checked.{has_code_at, stated_for, stray_offset};

use jc_base::NumberSet;
use jc_cert::{MethodStates, StateRow};
use jc_link::MethodCode;

/// The row at an index.
fn row_at(of: &[MethodStates], place: usize) -> Option<&MethodStates>
    ensures { option_map (λ m. m.now) result ≡ slice_get of.now place }
{
    of.get(place)
}

/// The row for the method at an offset, if there is one.
fn row_for(of: &[MethodStates], offset: u16) -> Option<&MethodStates>
    requires { IsCert (rows of.now) }
    ensures found { option_map (λ m. row m.now) result ≡ find (λ r. r.offset == offset) (rows of.now) }
    ensures count { IfSome result (λ m. length m.now.states.items < 2 ^ 16) }
{
    let place = of.partition_point(|row| row.offset < offset);
    let found = row_at(of, place)?;
    if found.offset == offset {
        Some(found)
    } else {
        None
    }
}

/// The states of the row for the method at an offset; none if there is no row.
pub(crate) fn states_for(of: &[MethodStates], offset: u16) -> &[StateRow]
    requires { IsCert (rows of.now) }
    ensures states { map stated result.now ≡ stated_for (rows of.now) offset }
    ensures count { length result.now < 2 ^ 16 }
{
    match row_for(of, offset) {
        Some(found) => &found.states,
        None => &[],
    }
}

/// The offsets of the methods with code.
fn code_offsets(methods: &[MethodCode]) -> NumberSet
    ensures { (offset : ℕ) → has_number result offset ≡ has_code_at methods.now offset }
{
    let mut offsets = NumberSet::empty();
    for method in methods {
        offsets.insert(method.offset);
    }
    offsets
}

/// The first row for an offset that isn't in a set.
fn row_outside<'c>(of: &'c [MethodStates], offsets: &NumberSet) -> Option<&'c MethodStates>
    ensures { option_map (λ m. m.now) result ≡ find (λ m. not (has_number offsets.now m.offset)) of.now }
{
    of.iter().find(|row| !offsets.contains(row.offset))
}

/// The offset of the first row for an offset without a method with code.
pub(crate) fn stray_offset(of: &[MethodStates], methods: &[MethodCode]) -> Option<u16>
    ensures { result ≡ stray_offset methods.now (rows of.now) }
{
    let offsets = code_offsets(methods);
    let stray = row_outside(of, &offsets)?;
    Some(stray.offset)
}
