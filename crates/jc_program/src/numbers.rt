//! Tables of the numbers of methods and classes, by their names.

ghost use Rattle.std.specs.Prelude.{◌≡◌, ℕ, ◌==◌, ◌&&◌, ◌<◌, None, Some, is_some, if◌then◌else◌, length, IfErr, IfOk};
ghost use Rattle.std.specs.Option.{option_or};
ghost use Rattle.jc_program.specs.PrivateLaid.{below, number_in, place_at};

use std::alloc::{AllocError, Global};
use std::marker::Model;

/// A number, or none, in four bytes.
#[derive(Drop)]
struct NumberCell {
    // One more than the number; 0 for none.
    held: u32,
}

impl Model for NumberCell {
    ghost use Rattle.std.specs.Prelude.{ℕ, Option};
    ghost use Rattle.jc_program.specs.PrivateLaid.{place_of};

    ghost Value = { Option ℕ };

    ghost view = { λ p. place_of p.held };
}

impl NumberCell {
    #[inline]
    #[tactic(auto, unfolding(crate::specs::PrivateLaid::place_of))]
    fn none() -> NumberCell
        ensures { result ≡ None }
    {
        NumberCell { held: 0 }
    }

    #[inline]
    #[tactic(auto, unfolding(crate::specs::PrivateLaid::place_of))]
    fn of(number: u32) -> NumberCell
        requires few { number < 0xFFFF_FFFF }
        ensures { result ≡ Some number }
    {
        NumberCell { held: number + 1 }
    }

    /// Whether it is a number below `count`.
    fn is_below(&self, count: usize) -> bool
        ensures { result ≡ is_some (below count self.now) }
    {
        match self.number() {
            Some(number) => (number as usize) < count,
            None => false,
        }
    }

    /// Removes the number, unless it is below `count`.
    fn forget(&mut self, count: usize)
        ensures { self.new ≡ below count self.old }
    {
        if !self.is_below(count) {
            *self = NumberCell::none();
        }
    }

    #[inline]
    #[tactic(auto, unfolding(crate::specs::PrivateLaid::place_of))]
    fn number(&self) -> Option<u32>
        ensures { result ≡ self.now }
    {
        if self.held == 0 {
            None
        } else {
            Some(self.held - 1)
        }
    }
}

/// The numbers of the methods or classes of one package, by their offsets.
#[derive(Drop)]
pub(crate) struct OffsetTable {
    places: Vec<NumberCell>,
}

impl Model for OffsetTable {
    ghost use Rattle.std.specs.Prelude.{ℕ, List, Option};

    ghost Value = { List (Option ℕ) };

    ghost view = { λ t. t.places.items };
}

/// Extends a table so that it has the offset.
fn make_room(places: &mut Vec<NumberCell>, offset: usize) -> Result<(), AllocError>
    ensures long { IfOk result (λ u. offset < length places.new.items) }
    ensures same { (i : ℕ) → place_at places.new.items i ≡ place_at places.old.items i }
{
    while places.len() <= offset {
        places.push(NumberCell::none())?;
    }
    Ok(())
}

/// Stores a number at an offset, unless it has one already.
fn put_first(places: &mut Vec<NumberCell>, offset: usize, number: u32) -> Result<(), AllocError>
    requires few { number < 0xFFFF_FFFF }
    ensures done { IfOk result (λ u. (i : ℕ) → place_at places.new.items i
        ≡ (if offset == i then option_or (place_at places.old.items i) (Some number)
        else place_at places.old.items i)) }
    ensures kept { IfErr result (λ e. (i : ℕ) → place_at places.new.items i ≡ place_at places.old.items i) }
{
    make_room(places, offset)?;
    if places[offset].number().is_none() {
        places[offset] = NumberCell::of(number);
    }
    Ok(())
}

/// Removes the numbers from `count` on.
fn forget_places(places: &mut Vec<NumberCell>, count: usize)
    ensures { (i : ℕ) → place_at places.new.items i ≡ below count (place_at places.old.items i) }
{
    for at in 0..places.len() {
        places[at].forget(count);
    }
}

impl OffsetTable {
    /// Creates a table without numbers.
    fn new(alloc: Global) -> OffsetTable
        ensures { (i : ℕ) → place_at result i ≡ None }
    {
        OffsetTable {
            places: Vec::new(alloc),
        }
    }

    /// The number at an offset.
    #[inline]
    fn at(&self, offset: usize) -> Option<u32>
        ensures { result ≡ place_at self.now offset }
    {
        self.places.get(offset)?.number()
    }

    /// Stores a number at an offset, unless it has one already.
    fn put(&mut self, offset: usize, number: u32) -> Result<(), AllocError>
        requires few { number < 0xFFFF_FFFF }
        ensures done { IfOk result (λ u. (i : ℕ) → place_at self.new i
            ≡ (if offset == i then option_or (place_at self.old i) (Some number) else place_at self.old i)) }
        ensures kept { IfErr result (λ e. (i : ℕ) → place_at self.new i ≡ place_at self.old i) }
    {
        put_first(&mut self.places, offset, number)
    }

    /// Removes the numbers from `count` on.
    fn forget(&mut self, count: usize)
        ensures { (i : ℕ) → place_at self.new i ≡ below count (place_at self.old i) }
    {
        forget_places(&mut self.places, count);
    }
}

/// The number at an offset of a package.
#[inline]
pub(crate) fn number_in(tables: &[OffsetTable], package: usize, offset: usize) -> Option<u32>
    ensures { result ≡ number_in tables.now «package» offset }
{
    tables.get(package)?.at(offset)
}

/// Adds tables until the package has one.
fn make_package(
    alloc: Global,
    tables: &mut Vec<OffsetTable>,
    package: usize,
) -> Result<(), AllocError>
    ensures long { IfOk result (λ u. «package» < length tables.new.items) }
    ensures same { (p i : ℕ) → number_in tables.new.items p i ≡ number_in tables.old.items p i }
{
    while tables.len() <= package {
        tables.push(OffsetTable::new(alloc))?;
    }
    Ok(())
}

/// Stores a number at an offset of a package, unless it has one already.
pub(crate) fn put_number(
    alloc: Global,
    tables: &mut Vec<OffsetTable>,
    package: usize,
    offset: usize,
    number: u32,
) -> Result<(), AllocError>
    requires few { number < 0xFFFF_FFFF }
    ensures done { IfOk result (λ u. (p i : ℕ) → number_in tables.new.items p i
        ≡ (if «package» == p && offset == i then option_or (number_in tables.old.items p i) (Some number)
        else number_in tables.old.items p i)) }
    ensures kept { IfErr result (λ e. (p i : ℕ) → number_in tables.new.items p i ≡ number_in tables.old.items p i) }
{
    make_package(alloc, tables, package)?;
    tables[package].put(offset, number)?;
    Ok(())
}

/// Removes the numbers from `count` on.
pub(crate) fn forget_numbers(tables: &mut Vec<OffsetTable>, count: usize)
    ensures { (p i : ℕ) → number_in tables.new.items p i ≡ below count (number_in tables.old.items p i) }
{
    for at in 0..tables.len() {
        tables[at].forget(count);
    }
}
