//! Members of Object and of the exceptions (Java Card API Specification, Object, CardRuntimeException and its
//! subclasses).

ghost use Rattle.std.specs.Prelude.{◌≡◌};
ghost use Rattle.jc_natives.specs.PrivateObjects.{are_same_aids, equals, have_same_aid, object_work};
ghost use Rattle.jc_natives.specs.PrivateWords.{done_of, native_done, seen_in};
ghost use Rattle.jc_natives.specs.declared.native.Native.TheVariants.{OfObject};

use crate::bytes::same_bytes;
use crate::cells::{aid_count, argument, bit, cell, put};
use crate::ended::{Ended, throw_with};
use crate::kept::Runtime;
use crate::member::{Member, tested};
use crate::native::ObjectNative;
use crate::row::{MemberRow, Test, Use};
use crate::rows::{UNTESTED, called, constructed};
use crate::tests::is_aid_object;
use jc_machine::WordCall;
use jc_store::Store;

// Whether two objects have the same bytes as AIDs.
fn have_same_aid(store: &Store, one: u16, other: u16) -> bool
    ensures { result ≡ have_same_aid store.now.objects one other }
{
    let count = aid_count(store, one);
    count == aid_count(store, other) && same_bytes(store, one, 1, other, 1, count)
}

// Whether two objects are AIDs with the same bytes.
fn are_same_aids(store: &Store, call: &WordCall<'_>, one: u16, other: u16) -> bool
    ensures { result ≡ are_same_aids (seen_in store.now call.now) one other }
{
    (is_aid_object(store, call, one) && is_aid_object(store, call, other))
        && have_same_aid(store, one, other)
}

fn equals(store: &Store, call: &WordCall<'_>, one: u16, other: u16) -> bool
    ensures { result ≡ equals (seen_in store.now call.now) one other }
{
    one == other || are_same_aids(store, call, one, other)
}

// Does the work of a member of Object or of an exception.
#[inline(always)]
fn object_work(
    store: &mut Store,
    call: &WordCall<'_>,
    runtime: &Runtime,
    native: ObjectNative,
) -> Ended
    ensures { record { store = store.new; kept = runtime.now; ended = result }
        ≡ done_of call.now.active store.old runtime.now
        (object_work (seen_in store.old call.now) runtime.now call.now.arguments.now native) }
{
    let first = argument(call.arguments, 0);
    let second = argument(call.arguments, 1);
    match native {
        ObjectNative::Construct => Ended::Returned(None),
        ObjectNative::Equals => { Ended::Returned(Some(bit(equals(store, call, first, second)))) }
        ObjectNative::ConstructWithReason | ObjectNative::SetReason => {
            put(store, first, 0, second);
            Ended::Returned(None)
        }
        ObjectNative::GetReason => Ended::Returned(Some(cell(store, first, 0))),
        ObjectNative::ThrowIt(object) => throw_with(store, object, first),
    }
}

impl Member for ObjectNative {
    ghost use Rattle.jc_natives.specs.declared.native.Native.TheVariants.{OfObject};

    ghost native = { λ member. OfObject member };

    #[inline(always)]
    fn row(self) -> MemberRow {
        match self {
            ObjectNative::Construct | ObjectNative::ConstructWithReason => constructed(),
            ObjectNative::Equals => MemberRow {
                first: Test::Object(0, Use::Calls),
                second: Test::BesideAid,
                ..UNTESTED
            },
            ObjectNative::GetReason | ObjectNative::SetReason => called(),
            ObjectNative::ThrowIt(_) => UNTESTED,
        }
    }

    #[inline(always)]
    fn work(self, store: &mut Store, call: &WordCall<'_>, runtime: &mut Runtime) -> Ended {
        object_work(store, call, runtime, self)
    }
}

/// Calls a member of Object or of an exception. Each arm names its member, so its row is known at compile time.
#[inline(never)]
pub(crate) fn object_native(
    store: &mut Store,
    call: &WordCall<'_>,
    runtime: &mut Runtime,
    native: ObjectNative,
) -> Ended
    ensures { record { store = store.new; kept = runtime.new; ended = result }
        ≡ native_done call.now.active store.old runtime.old (seen_in store.old call.now)
        call.now.arguments.now (OfObject native) }
{
    match native {
        ObjectNative::Construct => tested(ObjectNative::Construct, store, call, runtime),
        ObjectNative::Equals => tested(ObjectNative::Equals, store, call, runtime),
        ObjectNative::ConstructWithReason => {
            tested(ObjectNative::ConstructWithReason, store, call, runtime)
        }
        ObjectNative::GetReason => tested(ObjectNative::GetReason, store, call, runtime),
        ObjectNative::SetReason => tested(ObjectNative::SetReason, store, call, runtime),
        ObjectNative::ThrowIt(object) => {
            tested(ObjectNative::ThrowIt(object), store, call, runtime)
        }
    }
}
