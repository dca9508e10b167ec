//! Numbers the places of a method by ascending pc.

ghost use Rattle.std.specs.Prelude.{◌≡◌, ◌<◌, ◌≤◌, ◌+◌, ◌^◌, ℕ, List, true, false, None, Some, length, slice_get};
ghost use Rattle.std.specs.Prelude.{vec_len, vec_capacity, IfOk};
ghost use Rattle.jc_base.specs.NumberSet.{has_number};
ghost use Rattle.jc_types.specs.State.{StateWithRoom};
ghost use Rattle.jc_verify.specs.PrivateCarrier.{HasPlace};
ghost use Rattle.jc_verify.specs.PrivateFlow.{IsNumbered, Places};
ghost use Rattle.jc_verify.specs.PrivateSettled.{AreAscending, AreNumbered};
ghost use Rattle.jc_verify.specs.declared.place.Place.{Place as PlaceOf};

use crate::pc_set::PcSet;
use crate::place::Place;
use jc_types::State;
use std::alloc::{AllocError, Global};

/// The places, and their numbers by pc.
#[derive(Drop)]
pub(crate) struct Numbered {
    pub(crate) numbers: Vec<Option<u16>>,
    pub(crate) places: Vec<Place<State>>,
}

/// Appends the place at a pc, and its number to the table.
#[tactic(auto, using(crate::proofs::Counting::with_one))]
fn put_place(
    numbers: &mut Vec<Option<u16>>,
    places: &mut Vec<Place<State>>,
    pc: u16,
) -> Result<(), AllocError>
    requires few { length places.old.items < 2 ^ 16 }
    requires room { vec_len numbers.old < vec_capacity numbers.old }
    ensures put { IfOk result (λ u. (entries : List ℕ) → has_number entries pc ≡ true
        → AreNumbered entries pc numbers.old.items places.old.items
        → AreNumbered entries (pc + 1) numbers.new.items places.new.items) }
    ensures len { vec_len numbers.new ≡ vec_len numbers.old + 1 }
    ensures capacity { vec_capacity numbers.new ≡ vec_capacity numbers.old }
{
    numbers.push_reserved(Some(places.len() as u16));
    places.push(Place {
        pc,
        held: None,
        changed: false,
    })?;
    Ok(())
}

/// Appends an entry without a number to the table.
#[tactic(auto, using(crate::proofs::Counting::without))]
fn put_none(numbers: &mut Vec<Option<u16>>)
    requires room { vec_len numbers.old < vec_capacity numbers.old }
    ensures put { (entries : List ℕ) (pc : ℕ) (places : Places) → has_number entries pc ≡ false
        → AreNumbered entries pc numbers.old.items places → AreNumbered entries (pc + 1) numbers.new.items places }
    ensures len { vec_len numbers.new ≡ vec_len numbers.old + 1 }
    ensures capacity { vec_capacity numbers.new ≡ vec_capacity numbers.old }
{
    numbers.push_reserved(None);
}

/// Appends a table entry for a pc, and its place if it is one.
fn put_if(
    numbers: &mut Vec<Option<u16>>,
    places: &mut Vec<Place<State>>,
    pc: u16,
    is_place: bool,
) -> Result<(), AllocError>
    requires few { length places.old.items < 2 ^ 16 }
    requires room { vec_len numbers.old < vec_capacity numbers.old }
    ensures put { IfOk result (λ u. (entries : List ℕ) → has_number entries pc ≡ is_place
        → AreNumbered entries pc numbers.old.items places.old.items
        → AreNumbered entries (pc + 1) numbers.new.items places.new.items) }
    ensures len { vec_len numbers.new ≡ vec_len numbers.old + 1 }
    ensures capacity { vec_capacity numbers.new ≡ vec_capacity numbers.old }
{
    if is_place {
        put_place(numbers, places, pc)
    } else {
        put_none(numbers);
        Ok(())
    }
}

/// Numbers the pcs of a set below `count` as places. They hold nothing yet.
#[tactic(auto, using(crate::proofs::Counting::none_numbered))]
pub(crate) fn number_places(
    alloc: Global,
    count: usize,
    entries: &PcSet,
) -> Result<Numbered, AllocError>
    requires { count < 2 ^ 16 }
    ensures sized { IfOk result (λ n. length n.numbers.items ≡ count) }
    ensures numbered { IfOk result (λ n. IsNumbered n.numbers.items n.places.items) }
    ensures empty { IfOk result (λ n. (k : ℕ) (p : PlaceOf StateWithRoom) → slice_get n.places.items k ≡ Some p
        → p.held ≡ None) }
    ensures entered { IfOk result (λ n. (k : ℕ) (p : PlaceOf StateWithRoom) → slice_get n.places.items k ≡ Some p
        → has_number entries.now p.pc ≡ true) }
    ensures all { IfOk result (λ n. (pc : ℕ) → pc < count → has_number entries.now pc ≡ true
        → HasPlace n.numbers.items pc) }
    ensures few { IfOk result (λ n. length n.places.items ≤ count) }
    ensures ascend { IfOk result (λ n. AreAscending n.numbers.items) }
    ensures room { IfOk result (λ n. vec_capacity n.numbers ≡ count) }
{
    let mut numbers = Vec::with_capacity(alloc, count)?;
    let mut places = Vec::new(alloc);
    for pc in 0..count {
        let is_place = entries.contains(pc as u16);
        put_if(&mut numbers, &mut places, pc as u16, is_place)?;
    }
    Ok(Numbered { numbers, places })
}
