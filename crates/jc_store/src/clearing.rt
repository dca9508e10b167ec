//! Clearing of transient arrays.

ghost use Rattle.std.specs.Prelude.{◌≡◌, ◌+◌, ◌≤◌, ℕ, List, Some, length, drop, slice_get};
ghost use Rattle.jc_store.specs.Heap.{cleared, is_cleared_by, is_same_event};
ghost use Rattle.jc_store.specs.PrivateLaid.{AreCleared, AreLaid, AreRows, AreWithin, Header, header_in, headers_of};
ghost use Rattle.jc_store.specs.PrivateLaid.{object_in, objects_in, zeroed};
ghost use Rattle.jc_store.specs.declared.header.Head.{Head as HeadOf};

use crate::header::{Head, Rest};
use crate::kind::ClearingEvent;

fn is_same_event(event: ClearingEvent, other: ClearingEvent) -> bool
    ensures { result ≡ is_same_event event other }
{
    match (event, other) {
        (ClearingEvent::Reset, ClearingEvent::Reset) => true,
        (ClearingEvent::Reset, ClearingEvent::Deselect) => false,
        (ClearingEvent::Deselect, ClearingEvent::Reset) => false,
        (ClearingEvent::Deselect, ClearingEvent::Deselect) => true,
    }
}

/// Whether an event clears an object: of one context, or of all.
fn is_cleared(rest: Rest, event: ClearingEvent, context: Option<u8>) -> bool
    ensures { (cells : List ℕ) (head : HeadOf)
        → result ≡ is_cleared_by event context (object_in cells (header_in head rest)) }
{
    let is_its = match rest.kind.clears {
        Some(its) => is_same_event(event, its),
        None => false,
    };
    let is_there = match context {
        Some(context) => context == rest.owner.context,
        None => true,
    };
    is_its && is_there
}

/// Sets the components of an object to 0.
fn clear_object(head: Head, cells: &mut [u16])
    requires within { head.start + head.len ≤ length cells.old }
    ensures { cells.new ≡ zeroed cells.old head.start head.len }
{
    let start = usize::from(head.start);
    let end = start + usize::from(head.len);
    cells[start..end].fill(0);
}

/// Sets the components of an object to 0, if an event clears it.
fn clear_if(head: Head, rest: Rest, cells: &mut [u16], event: ClearingEvent, context: Option<u8>)
    requires within { head.start + head.len ≤ length cells.old }
    ensures { (headers : List Header) (n : ℕ) (before : List ℕ) → AreWithin headers (length cells.old)
        → slice_get headers n ≡ Some (header_in head rest) → AreCleared headers event context n before cells.old
        → AreCleared headers event context (n + 1) before cells.new }
{
    if is_cleared(rest, event, context) {
        clear_object(head, cells);
    }
}

/// Clears the objects that an event clears.
pub(crate) fn clear_objects(
    heads: &[Head],
    rests: &[Rest],
    cells: &mut [u16],
    event: ClearingEvent,
    context: Option<u8>,
)
    requires rows { AreRows heads.now rests.now }
    requires within { AreWithin (headers_of heads.now rests.now) (length cells.old) }
    ensures cleared { objects_in cells.new (headers_of heads.now rests.now)
        ≡ cleared (λ kind. 0) event context (objects_in cells.old (headers_of heads.now rests.now)) }
    ensures len { length cells.new ≡ length cells.old }
    ensures behind { (end : ℕ) → AreLaid 0 (headers_of heads.now rests.now) end
        → drop end cells.new ≡ drop end cells.old }
{
    for place in 0..rests.len() {
        clear_if(heads[place + 1], rests[place], cells, event, context);
    }
}
