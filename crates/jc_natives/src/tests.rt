//! The tests of all members, by one rule. It is inlined, so only the tests of a known row are left.

ghost use Rattle.std.specs.Prelude.{◌≡◌, ℕ, true, Some};
ghost use Rattle.jc_natives.specs.PrivateWords.{seen_in};
ghost use Rattle.jc_natives.specs.Checks.{access_of};
ghost use Rattle.jc_natives.specs.PrivateSeen.{is_aid_object};
ghost use Rattle.jc_natives.specs.PrivateTests.{by_verdict, facts_of, is_in_range, length_of, ranged, refusal_of};
ghost use Rattle.jc_natives.specs.PrivateTests.{test, tested, used};
ghost use Rattle.jc_natives.specs.declared.row.Test.TheVariants.{BesideAid};
ghost use Rattle.jc_machine.specs.Lookup.{class_of, is_array};
ghost use Rattle.jc_machine.specs.declared.natives.WordCall as words;
ghost use Rattle.jc_store.specs.Heap as heaps;
ghost use Rattle.jc_store.specs.Heap.{object_at};
ghost use Rattle.jc_store.specs.Store as stores;
ghost use Rattle.jc_store.specs.Store.{IsOwn, IsThere};

use crate::cells::{aid_count, argument, extended, is_within, size};
use crate::ended::Ended;
use crate::row::{Length, MemberRow, Range, Test, Use};
use jc_api::ApiClass;
use jc_firewall::{Access, Facts, Verdict, decide, own_is_allowed};
use jc_machine::{DeniedAccess, WordCall};
use jc_names::ClassName;
use jc_store::{ObjectType, Store};

const NULL_POINTER_EXCEPTION: u16 = 6;

const ARRAY_INDEX_EXCEPTION: u16 = 4;

const AID: ClassName = ClassName::Api(ApiClass::Aid);

const OBJECT: ClassName = ClassName::Api(ApiClass::Object);

#[inline(always)]
fn access_of(way: Use) -> Access
    ensures { result ≡ access_of way }
{
    match way {
        Use::Fields => Access::PutField,
        Use::Loads => Access::LoadComponent,
        Use::Stores => Access::StoreComponent,
        Use::Calls => Access::InvokeVirtual,
    }
}

#[inline(always)]
fn is_array(object: ObjectType) -> bool
    ensures { result ≡ is_array object }
{
    match object {
        ObjectType::Instance(_) => false,
        ObjectType::BooleanArray
        | ObjectType::ByteArray
        | ObjectType::ShortArray
        | ObjectType::ReferenceArray(_) => true,
    }
}

// The firewall's facts of an object.
#[inline(always)]
fn facts_of(store: &Store, call: &WordCall<'_>, number: u16) -> Facts
    requires { IsThere store.now number }
    ensures { (object : heaps.Object ℕ) → object_at store.now.objects number ≡ Some object
        → result ≡ facts_of (seen_in store.now call.now) object }
{
    let kind = store.kind_of(number);
    Facts {
        owner: store.owner_of(number),
        mark: kind.mark,
        is_array: is_array(kind.object_type),
        clears: kind.clears,
        stored: None,
        is_shareable: false,
        is_shared_interface: false,
        selected: call.selected,
    }
}

// The end by a verdict on a use of an object, if that denies.
#[inline(always)]
fn ended_by(verdict: Verdict, way: Use, number: u16) -> Option<Ended>
    ensures { (store : stores.Store) (call : words.WordCall)
        → result ≡ refusal_of (by_verdict (seen_in store call) way number verdict) }
{
    match verdict {
        Verdict::Allowed | Verdict::AllowedSwitch(_) => None,
        Verdict::Denied(rule) => Some(Ended::AccessDenied(DeniedAccess {
            access: access_of(way),
            object: number,
            rule,
        })),
    }
}

// Whether an object is the active context's own, and isn't cleared on deselect. Then every use of it is allowed.
#[inline(always)]
fn is_own(store: &Store, call: &WordCall<'_>, number: u16) -> bool
    requires { IsThere store.now number }
    ensures { result ≡ true → IsOwn store.now number call.now.active.context }
{
    store.is_own(number, call.active.context)
}

// Tests a use of any object with the firewall.
#[inline(never)]
fn judged(store: &Store, call: &WordCall<'_>, way: Use, number: u16) -> Option<Ended>
    requires { IsThere store.now number }
    ensures { result ≡ refusal_of (used (seen_in store.now call.now) way number) }
{
    let facts = facts_of(store, call, number);
    ended_by(
        decide(access_of(way), call.active.context, &facts),
        way,
        number,
    )
}

// Tests a use of an object.
#[inline(always)]
fn used(store: &Store, call: &WordCall<'_>, way: Use, number: u16) -> Option<Ended>
    ensures { result ≡ refusal_of (used (seen_in store.now call.now) way number) }
{
    if !store.is_there(number) {
        return Some(Ended::Thrown(NULL_POINTER_EXCEPTION));
    }
    if is_own(store, call, number) {
        own_is_allowed();
        return None;
    }
    judged(store, call, way, number)
}

// The class whose methods an object has.
#[inline(always)]
fn class_of(object: ObjectType) -> ClassName
    ensures { result ≡ class_of object }
{
    match object {
        ObjectType::Instance(class) => class,
        ObjectType::BooleanArray
        | ObjectType::ByteArray
        | ObjectType::ShortArray
        | ObjectType::ReferenceArray(_) => OBJECT,
    }
}

/// Whether a number is that of an AID.
pub(crate) fn is_aid_object(store: &Store, call: &WordCall<'_>, number: u16) -> bool
    ensures { result ≡ is_aid_object (seen_in store.now call.now) number }
{
    store.is_there(number)
        && call
            .world
            .table()
            .is_class_below(class_of(store.kind_of(number).object_type), AID)
}

// Performs one test.
#[inline(always)]
fn test(store: &Store, call: &WordCall<'_>, wanted: Test) -> Option<Ended>
    ensures { result ≡ refusal_of (test (seen_in store.now call.now) call.now.arguments.now wanted) }
{
    match wanted {
        Test::Nothing => None,
        Test::Object(place, way) => used(store, call, way, argument(call.arguments, place)),
        Test::ObjectOrNull(place, way) => {
            let number = argument(call.arguments, place);
            if number == 0 {
                None
            } else {
                used(store, call, way, number)
            }
        }
        Test::BesideAid => beside_aid(store, call),
    }
}

// Whether the second argument may be called, if the first two are AIDs.
#[inline(never)]
fn beside_aid(store: &Store, call: &WordCall<'_>) -> Option<Ended>
    ensures { result ≡ refusal_of (test (seen_in store.now call.now) call.now.arguments.now BesideAid) }
{
    let one = argument(call.arguments, 0);
    let other = argument(call.arguments, 1);
    if is_aid_object(store, call, one) && is_aid_object(store, call, other) {
        used(store, call, Use::Calls, other)
    } else {
        None
    }
}

// The number of components of a range.
#[inline(always)]
fn length_of(store: &Store, call: &WordCall<'_>, length: Length) -> u16
    ensures { result ≡ length_of (seen_in store.now call.now) call.now.arguments.now length }
{
    match length {
        Length::ShortAt(place) => argument(call.arguments, place),
        Length::ByteAt(place) => extended(argument(call.arguments, place)),
        Length::Fixed(count) => count,
        Length::OfAid(place) => aid_count(store, argument(call.arguments, place)),
    }
}

#[inline(always)]
fn is_in_range(store: &Store, call: &WordCall<'_>, range: Range) -> bool
    ensures { result ≡ is_in_range (seen_in store.now call.now) call.now.arguments.now range }
{
    let array = argument(call.arguments, range.array);
    let offset = argument(call.arguments, range.offset);
    let count = length_of(store, call, range.length);
    array == 0 || is_within(size(store, array), offset, count)
}

#[inline(always)]
fn ranged(store: &Store, call: &WordCall<'_>, range: Option<Range>) -> Option<Ended>
    ensures { result ≡ refusal_of (ranged (seen_in store.now call.now) call.now.arguments.now range) }
{
    let range = range?;
    if is_in_range(store, call, range) {
        None
    } else {
        Some(Ended::Thrown(ARRAY_INDEX_EXCEPTION))
    }
}

/// Performs the tests of a member, and returns its end if one fails.
#[inline(always)]
#[tactic(auto, using(crate::proofs::Refusing::refusal_in_order))]
pub(crate) fn refusal(store: &Store, call: &WordCall<'_>, row: &MemberRow) -> Option<Ended>
    ensures { result ≡ refusal_of (tested (seen_in store.now call.now) call.now.arguments.now row.now) }
{
    if let Some(end) = test(store, call, row.first) {
        return Some(end);
    }
    if let Some(end) = test(store, call, row.second) {
        return Some(end);
    }
    if let Some(end) = ranged(store, call, row.first_range) {
        return Some(end);
    }
    ranged(store, call, row.second_range)
}
