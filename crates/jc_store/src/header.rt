//! The data of each object besides its components.

ghost use Rattle.std.specs.Prelude.{◌≡◌, ◌+◌, ◌-◌, ◌<◌, ◌≤◌, Some, length, slice_get, unwrap_or};
ghost use Rattle.jc_store.specs.PrivateLaid.{fast_in, null_head};

use crate::kind::{ClearingEvent, ObjectKind};
use jc_names::Owner;

/// What no context's number is: they have eight bits.
const NONE: u16 = 256;

/// The data that each access to an object needs, in eight bytes: where its components begin among the cells, and how
/// many it has; the number of its class; and the context that may access it in every way.
#[derive(Clone, Copy)]
pub(crate) struct Head {
    pub(crate) start: u16,
    pub(crate) len: u16,
    pub(crate) class: u16,
    pub(crate) fast: u16,
}

impl Head {
    /// The head with number 0, for null.
    pub(crate) const NULL: Head = Head {
        start: 0,
        len: 0,
        class: 0,
        fast: NONE,
    };
}

/// The rest: the kind and the owner of an object.
#[derive(Clone, Copy)]
pub(crate) struct Rest {
    pub(crate) kind: ObjectKind,
    pub(crate) owner: Owner,
}

/// The context that may access an object in every way: its owner's, or `NONE` if the object is cleared on deselect.
#[inline]
pub(crate) fn fast_of(clears: Option<ClearingEvent>, owner: Owner) -> u16
    ensures { result ≡ fast_in clears owner }
{
    match clears {
        Some(ClearingEvent::Deselect) => NONE,
        Some(ClearingEvent::Reset) | None => u16::from(owner.context),
    }
}

/// The head with a number.
#[inline]
pub(crate) fn head_at(heads: &[Head], number: u16) -> Head
    requires there { number < length heads.now }
    ensures { slice_get heads.now number ≡ Some result }
{
    heads[usize::from(number)]
}

/// The head with a number, or that of null if there is none.
#[inline]
pub(crate) fn head_or_null(heads: &[Head], number: u16) -> Head
    ensures { result ≡ unwrap_or (slice_get heads.now number) null_head }
{
    match heads.get(usize::from(number)) {
        Some(head) => *head,
        None => Head::NULL,
    }
}

/// The rest of the object with a number.
#[inline]
pub(crate) fn rest_at(rests: &[Rest], number: u16) -> Rest
    requires some { 0 < number }
    requires there { number ≤ length rests.now }
    ensures { slice_get rests.now (number - 1) ≡ Some result }
{
    rests[usize::from(number) - 1]
}

/// The component of an object at an index.
#[inline]
pub(crate) fn cell_at(cells: &[u16], head: Head, index: u16) -> u16
    requires within { head.start + index < length cells.now }
    ensures { slice_get cells.now (head.start + index) ≡ Some result }
{
    cells[usize::from(head.start) + usize::from(index)]
}
