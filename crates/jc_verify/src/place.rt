//! Places: pcs that control flow enters by a branch or a handler, and what they hold.

ghost use Rattle.std.specs.Prelude.{◌≡◌, ◌<◌, ◌≤◌, ℕ, true, false, Some, IfOk, IfErr};
ghost use Rattle.jc_verify.specs.PrivatePlaces.{HoldsAbove, IsHeldBelow, IsStep, IsTakenIn, IsUnlike};
ghost use Rattle.jc_verify.specs.declared.place.NotTaken.TheVariants.{Memory, Unlike};

use jc_types::Lattice;
use std::alloc::{AllocError, Global};

/// A place, the join of what flowed in so far, and whether that has changed since control flow was followed from there.
#[derive(Drop)]
pub(crate) struct Place<L: Drop> {
    pub(crate) pc: u16,
    pub(crate) held: Option<L>,
    pub(crate) changed: bool,
}

/// Why a place doesn't take in a value.
#[derive(Clone, Copy, Drop)]
pub(crate) enum NotTaken {
    /// Its shape differs from what the place holds.
    Unlike,
    /// Out of memory.
    Memory,
}

impl From<AllocError> for NotTaken {
    ghost from_gives = { λ _ e. e ≡ Memory };

    fn from(_e: AllocError) -> NotTaken {
        NotTaken::Memory
    }
}

/// Raises what is held to its join with a value. Returns false if it lies above the value already.
fn raise<L: Lattice>(held: &mut L, value: &L, table: &L::Table) -> Result<bool, NotTaken>
    requires sound { L.is_sound table.now }
    ensures above { IfOk result (λ raised. L.lies_below table.now value.now held.new ≡ true) }
    ensures kept { IfOk result (λ raised. raised ≡ false → held.new ≡ held.old) }
    ensures rises { IfOk result (λ raised. L.lies_below table.now held.old held.new ≡ true) }
    ensures falls { IfOk result (λ raised. raised ≡ true
        → L.height_of table.now held.new < L.height_of table.now held.old) }
    ensures least { IfOk result (λ raised. (z : L) → L.lies_below table.now held.old z ≡ true
        → L.lies_below table.now value.now z ≡ true → L.lies_below table.now held.new z ≡ true) }
    ensures unlike { IfErr result (λ why. (why ≡ Unlike) × (L.fits held.old value.now ≡ false)) }
{
    if value.below(held, table) {
        return Ok(false);
    }
    if held.join(value, table) {
        Ok(true)
    } else {
        Err(NotTaken::Unlike)
    }
}

/// Joins a value into a place, and marks the place if it has changed.
pub(crate) fn take_in<L: Lattice + Drop>(
    alloc: Global,
    place: &mut Place<L>,
    value: &L,
    table: &L::Table,
) -> Result<(), NotTaken>
    requires sound { L.is_sound table.now }
    ensures step { IfOk result (λ u. (most : ℕ) → L.height_of table.now value.now ≤ most
        → IsStep (L.lies_below table.now) (L.height_of table.now) most place.old place.new) }
    ensures holds { IfOk result (λ u. HoldsAbove (L.lies_below table.now) place.new value.now) }
    ensures least { IfOk result (λ u. (z : L) → IsHeldBelow (L.lies_below table.now) place.old z
        → L.lies_below table.now value.now z ≡ true → IsHeldBelow (L.lies_below table.now) place.new z) }
    ensures taken { IfOk result (λ u. IsTakenIn (L.lies_below table.now) place.old place.new value.now) }
    ensures same { IfOk result (λ u. place.new.pc ≡ place.old.pc) }
    ensures unlike { IfErr result (λ why. why ≡ Unlike → IsUnlike L.fits place.old value.now) }
{
    match &mut place.held {
        None => {
            place.held = Some(value.copy(alloc)?);
            place.changed = true;
        }
        Some(held) => {
            if raise(held, value, table)? {
                place.changed = true;
            }
        }
    }
    Ok(())
}
