//! Rows of bits that are merged until each has all numbers of the rows above it.

ghost use Rattle.std.specs.Prelude.{◌≡◌, ◌+◌, ◌<◌, ◌++◌, length, slice_get, IfOk};
ghost use Rattle.std.specs.Option.{option_map};
ghost use Rattle.jc_program.specs.PrivateBitRow.{AreUnited};
ghost use Rattle.jc_program.specs.PrivateBitRows.{ArePassed, AreSettled, IsOneAbove, IsRightAbove, is_any_listed};
ghost use Rattle.jc_program.specs.Supertypes.{is_listed};

use crate::bit_row::BitRow;
use std::alloc::{AllocError, Global};
use std::marker::Model;
use std::mem;

/// Numbers of rows.
#[derive(Drop)]
pub(crate) struct NumberList {
    numbers: Vec<u16>,
}

impl Model for NumberList {
    ghost use Rattle.std.specs.Prelude.{ℕ, List};

    ghost Value = { List ℕ };

    ghost view = { λ l. l.numbers.items };
}

impl NumberList {
    /// These numbers.
    pub(crate) fn new(numbers: Vec<u16>) -> NumberList
        ensures { result ≡ numbers.items }
    {
        NumberList { numbers }
    }
}

/// The row with a number. The rows in `rows`, still in construction, count after those in `made`.
fn row_of<'a>(made: &'a [BitRow], rows: &'a [BitRow], number: u16) -> Option<&'a BitRow>
    ensures { option_map (λ r. r.now) result ≡ slice_get (made.now ++ rows.now) number }
{
    let number = usize::from(number);
    if number < made.len() {
        Some(&made[number])
    } else {
        rows.get(number - made.len())
    }
}

/// Puts the numbers of the row with a number into another row. Returns whether one of them is new.
fn unite_from(
    made: &[BitRow],
    rows: &[BitRow],
    number: u16,
    row: &mut BitRow,
) -> Result<bool, AllocError>
    ensures { IfOk result (λ changed. AreUnited (is_listed (made.now ++ rows.now) number) row.old row.new changed) }
{
    match row_of(made, rows, number) {
        Some(other) => row.unite(other),
        None => Ok(false),
    }
}

/// Puts the numbers of all these rows into another row. Returns whether one of them is new.
#[tactic(auto, using(crate::proofs::Rising::all_more))]
fn unite_all(
    made: &[BitRow],
    rows: &[BitRow],
    numbers: &[u16],
    row: &mut BitRow,
) -> Result<bool, AllocError>
    ensures { IfOk result (λ changed. AreUnited
        (is_any_listed (made.now ++ rows.now) numbers.now) row.old row.new changed) }
{
    let mut changed = false;
    for at in 0..numbers.len() {
        changed |= unite_from(made, rows, numbers[at], row)?;
    }
    Ok(changed)
}

/// Puts the numbers of the rows right above a row into it. Returns whether one of them is new.
fn pass_row(
    alloc: Global,
    made: &[BitRow],
    rows: &mut [BitRow],
    at: usize,
    above: &[u16],
) -> Result<bool, AllocError>
    requires there { at < length rows.old }
    ensures count { IfOk result (λ changed. length rows.new ≡ length rows.old) }
    ensures passed { IfOk result (λ changed. ArePassed (IsOneAbove (length made.now + at) above.now)
        (made.now ++ rows.old) (made.now ++ rows.new) changed) }
{
    let mut row = mem::replace(&mut rows[at], BitRow::new(alloc));
    let changed = unite_all(made, rows, above, &mut row)?;
    rows[at] = row;
    Ok(changed)
}

/// Puts into each row the numbers of the rows right above it. Returns whether one of them is new.
#[tactic(auto, using(crate::proofs::Rising::passed_none))]
fn pass(
    alloc: Global,
    made: &[BitRow],
    rows: &mut [BitRow],
    above: &[NumberList],
) -> Result<bool, AllocError>
    requires count { length above.now ≡ length rows.old }
    ensures count { IfOk result (λ changed. length rows.new ≡ length rows.old) }
    ensures passed { IfOk result (λ changed. ArePassed (IsRightAbove (length made.now) (length above.now) above.now)
        (made.now ++ rows.old) (made.now ++ rows.new) changed) }
{
    let mut changed = false;
    for at in 0..above.len() {
        let list = &above[at];
        changed |= pass_row(alloc, made, rows, at, &list.numbers)?;
    }
    Ok(changed)
}

/// Puts into each row the numbers of the rows right above it, until nothing changes.
#[tactic(auto, using(crate::proofs::Rising::risen_none))]
pub(crate) fn settle(
    alloc: Global,
    made: &[BitRow],
    rows: &mut [BitRow],
    above: &[NumberList],
) -> Result<(), AllocError>
    requires count { length above.now ≡ length rows.old }
    ensures count { IfOk result (λ u. length rows.new ≡ length rows.old) }
    ensures settled { IfOk result (λ u. AreSettled (IsRightAbove (length made.now) (length above.now) above.now)
        (made.now ++ rows.old) (made.now ++ rows.new)) }
{
    loop {
        if !pass(alloc, made, rows, above)? {
            return Ok(());
        }
    }
}
