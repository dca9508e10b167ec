//! What an instruction sees of an object, and the firewall's verdict on an access to it.

ghost use Rattle.std.specs.Prelude.{◌≡◌, true, false, None};
ghost use Rattle.jc_interp.specs.PrivateSeen.{cell_in, class_in, class_named, denied_on, facts_seen, is_array};
ghost use Rattle.jc_interp.specs.PrivateSeen.{is_below, mark_of, seen_of, verdict_on, with_put};
ghost use Rattle.jc_machine.specs.Machine.{denied_by};

use crate::step_context::WordStepContext;
use jc_entries::Entry;
use jc_firewall::{Access, Facts, Verdict, decide};
use jc_machine::DeniedAccess;
use jc_names::{ClassName, Owner};
use jc_program::{ClassNumber, Program};
use jc_store::{Mark, ObjectKind, ObjectType, Store};

/// What is seen of an object.
#[derive(Clone, Copy)]
pub(crate) struct Seen {
    pub(crate) kind: ObjectKind,
    pub(crate) owner: Owner,
    /// The number of its components.
    pub(crate) len: u16,
    /// The number of its class; an array is of class Object.
    pub(crate) class: u16,
}

/// The object that a word refers to; none for null.
#[inline(always)]
pub(crate) fn look_at(store: &Store, number: u16) -> Option<Seen>
    ensures { result ≡ seen_of store.now number }
{
    if !store.is_there(number) {
        return None;
    }
    Some(Seen {
        kind: store.kind_of(number),
        owner: store.owner_of(number),
        len: store.len(number),
        class: store.class_number(number),
    })
}

/// The component of an object at an index; 0 if there is none.
#[inline]
pub(crate) fn cell(store: &Store, number: u16, index: usize) -> u16
    ensures { result ≡ cell_in store.now number index }
{
    if store.is_there(number) && index < usize::from(store.len(number)) {
        store.get(number, index as u16)
    } else {
        0
    }
}

/// Puts a word into the component of an object at an index, if there is one.
#[inline]
pub(crate) fn put(store: &mut Store, number: u16, index: usize, word: u16)
    ensures { store.new ≡ with_put store.old number index word }
{
    if store.is_there(number) && index < usize::from(store.len(number)) {
        store.set(number, index as u16, word);
    }
}

/// Whether the class with a number is another one, or below it.
#[inline]
pub(crate) fn is_below(program: &Program, class: u16, other: ClassName) -> bool
    ensures { result ≡ is_below program.now class other }
{
    match program.classes.number_of(other) {
        Some(number) => program
            .supertypes
            .is_subtype(ClassNumber::new(class), number),
        None => false,
    }
}

/// The class or interface that an entry of the constant pool names.
#[inline(always)]
pub(crate) fn class_in(entry: Entry) -> Option<ClassName>
    ensures { result ≡ class_in entry }
{
    match entry {
        Entry::Class(class) => Some(class),
        Entry::Field { .. } | Entry::StaticField { .. } => None,
        Entry::VirtualMethod { .. } | Entry::Method { .. } => None,
        Entry::NativeMethod { .. } | Entry::AbstractMethod => None,
    }
}

/// The class or interface that the entry with an index names.
#[inline]
pub(crate) fn class_named(here: &WordStepContext<'_>, index: u16) -> Option<ClassName>
    ensures { result ≡ class_named here.now index }
{
    class_in(here.program.entries.at(here.frame.method.package, index)?)
}

/// The mark of the object that a word refers to, if it refers to one.
#[inline]
pub(crate) fn mark_of(store: &Store, number: u16) -> Option<Mark>
    ensures { result ≡ mark_of store.now number }
{
    match look_at(store, number) {
        Some(object) => Some(object.kind.mark),
        None => None,
    }
}

#[inline(always)]
fn is_array(object: ObjectType) -> bool
    ensures { result ≡ is_array object }
{
    match object {
        ObjectType::Instance(_) => false,
        ObjectType::BooleanArray | ObjectType::ByteArray => true,
        ObjectType::ShortArray | ObjectType::ReferenceArray(_) => true,
    }
}

/// The facts on which the verdict on an access depends.
#[inline(always)]
pub(crate) fn facts(
    here: &WordStepContext<'_>,
    object: Seen,
    stored: Option<Mark>,
    is_shared_interface: bool,
) -> Facts
    ensures { result ≡ facts_seen here.now object stored is_shared_interface }
{
    Facts {
        owner: object.owner,
        mark: object.kind.mark,
        is_array: is_array(object.kind.object_type),
        clears: object.kind.clears,
        stored,
        is_shareable: here
            .program
            .rows
            .row(ClassNumber::new(object.class))
            .is_shareable,
        is_shared_interface,
        selected: here.selected,
    }
}

/// The firewall's verdict on an access in the active context. In line with a named access it is a few tests.
#[inline(always)]
pub(crate) fn verdict(
    here: &WordStepContext<'_>,
    access: Access,
    object: Seen,
    stored: Option<Mark>,
    is_shared_interface: bool,
) -> Verdict
    ensures { result ≡ verdict_on here.now access object stored is_shared_interface }
{
    decide(
        access,
        here.frame.active.context,
        &facts(here, object, stored, is_shared_interface),
    )
}

/// An access to the object with a number, if the verdict on it denies it.
#[inline]
pub(crate) fn denied_by(access: Access, number: u16, verdict: Verdict) -> Option<DeniedAccess>
    ensures { result ≡ denied_by access number verdict }
{
    match verdict {
        Verdict::Allowed | Verdict::AllowedSwitch(_) => None,
        Verdict::Denied(rule) => Some(DeniedAccess {
            access,
            object: number,
            rule,
        }),
    }
}

/// An access to the object with a number, if the firewall denies it. It is no call and no cast.
#[inline]
pub(crate) fn denied_on(
    here: &WordStepContext<'_>,
    access: Access,
    number: u16,
    object: Seen,
    stored: Option<Mark>,
) -> Option<DeniedAccess>
    ensures { result ≡ denied_on here.now access number object stored }
{
    denied_by(access, number, verdict(here, access, object, stored, false))
}
