//! Members of AID (Java Card API Specification, AID).

ghost use Rattle.std.specs.Prelude.{◌≡◌, ◌∷◌};
ghost use Rattle.jc_natives.specs.Cells.{extended, put_all};
ghost use Rattle.jc_natives.specs.Kept.{has_aid_length};
ghost use Rattle.jc_natives.specs.PrivateAids.{aid_work, is_range};
ghost use Rattle.jc_natives.specs.PrivateCells.{argument, bytes_of};
ghost use Rattle.jc_natives.specs.PrivateWords.{done_of, native_done, seen_in};
ghost use Rattle.jc_natives.specs.declared.native.AidNative.TheVariants as natives;
ghost use Rattle.jc_natives.specs.declared.native.Native.TheVariants.{OfAid};
ghost use Rattle.jc_store.specs.Store.{with_objects};

use crate::bytes::{copy_bytes, same_bytes};
use crate::cells::{aid_count, argument, bit, extended, put};
use crate::ended::{Ended, throw_system};
use crate::kept::Runtime;
use crate::member::{Member, tested};
use crate::native::AidNative;
use crate::row::{Length, MemberRow, Test, Use};
use crate::rows::{called_on, range};
use jc_machine::WordCall;
use jc_store::Store;

/// The reason of a SystemException for a value that isn't allowed.
pub(crate) const ILLEGAL_VALUE: u16 = 1;

/// Whether an AID may have this many bytes.
pub(crate) fn has_aid_length(count: u16) -> bool
    ensures { result ≡ has_aid_length count }
{
    5 <= count && count <= 16
}

// Stores `count` bytes of an array in an AID, after their count.
fn keep(store: &mut Store, aid: u16, array: u16, offset: u16, count: u16)
    ensures { store.new ≡ with_objects store.old (put_all store.old.objects aid 0
        (count ∷ bytes_of store.old.objects array offset count)) }
{
    copy_bytes(store, array, usize::from(offset), aid, 1, count);
    put(store, aid, 0, count);
}

fn construct(store: &mut Store, call: &WordCall<'_>, runtime: &Runtime) -> Ended
    ensures { record { store = store.new; kept = runtime.now; ended = result }
        ≡ done_of call.now.active store.old runtime.now
        (aid_work (seen_in store.old call.now) runtime.now call.now.arguments.now natives.Construct) }
{
    let aid = argument(call.arguments, 0);
    let array = argument(call.arguments, 1);
    let offset = argument(call.arguments, 2);
    let count = extended(argument(call.arguments, 3));
    if !has_aid_length(count) {
        return throw_system(store, ILLEGAL_VALUE);
    }
    keep(store, aid, array, offset, count);
    Ended::Returned(None)
}

// Whether the bytes of an AID equal those of a range.
fn is_range(
    store: &Store,
    call: &WordCall<'_>,
    aid: u16,
    array: u16,
    offset: u16,
    count: u16,
) -> bool
    ensures { result ≡ is_range (seen_in store.now call.now) aid array offset count }
{
    if array == 0 {
        return false;
    }
    aid_count(store, aid) == count && same_bytes(store, aid, 1, array, usize::from(offset), count)
}

fn equals(store: &Store, call: &WordCall<'_>) -> bool
    ensures { result ≡ is_range (seen_in store.now call.now) (argument call.now.arguments.now 0)
        (argument call.now.arguments.now 1) (argument call.now.arguments.now 2)
        (extended (argument call.now.arguments.now 3)) }
{
    let aid = argument(call.arguments, 0);
    let array = argument(call.arguments, 1);
    let offset = argument(call.arguments, 2);
    let count = extended(argument(call.arguments, 3));
    is_range(store, call, aid, array, offset, count)
}

fn get_bytes(store: &mut Store, call: &WordCall<'_>, runtime: &Runtime) -> Ended
    ensures { record { store = store.new; kept = runtime.now; ended = result }
        ≡ done_of call.now.active store.old runtime.now
        (aid_work (seen_in store.old call.now) runtime.now call.now.arguments.now natives.GetBytes) }
{
    let aid = argument(call.arguments, 0);
    let array = argument(call.arguments, 1);
    let offset = argument(call.arguments, 2);
    let count = aid_count(store, aid);
    copy_bytes(store, aid, 1, array, usize::from(offset), count);
    Ended::Returned(Some(count))
}

// Does the work of a member of AID.
#[inline(always)]
fn aid_work(store: &mut Store, call: &WordCall<'_>, runtime: &Runtime, native: AidNative) -> Ended
    ensures { record { store = store.new; kept = runtime.now; ended = result }
        ≡ done_of call.now.active store.old runtime.now
        (aid_work (seen_in store.old call.now) runtime.now call.now.arguments.now native) }
{
    match native {
        AidNative::Construct => construct(store, call, runtime),
        AidNative::Equals => Ended::Returned(Some(bit(equals(store, call)))),
        AidNative::GetBytes => get_bytes(store, call, runtime),
    }
}

impl Member for AidNative {
    ghost use Rattle.jc_natives.specs.declared.native.Native.TheVariants.{OfAid};

    ghost native = { λ member. OfAid member };

    #[inline(always)]
    fn row(self) -> MemberRow {
        match self {
            AidNative::Construct => MemberRow {
                first: Test::Object(0, Use::Fields),
                second: Test::Object(1, Use::Loads),
                first_range: range(1, 2, Length::ByteAt(3)),
                second_range: None,
            },
            AidNative::Equals => called_on(Test::ObjectOrNull(1, Use::Loads), Length::ByteAt(3)),
            AidNative::GetBytes => called_on(Test::Object(1, Use::Stores), Length::OfAid(0)),
        }
    }

    #[inline(always)]
    fn work(self, store: &mut Store, call: &WordCall<'_>, runtime: &mut Runtime) -> Ended {
        aid_work(store, call, runtime, self)
    }
}

/// Calls a member of AID. Each arm names its member, so its row is known at compile time.
#[inline(never)]
pub(crate) fn aid_native(
    store: &mut Store,
    call: &WordCall<'_>,
    runtime: &mut Runtime,
    native: AidNative,
) -> Ended
    ensures { record { store = store.new; kept = runtime.new; ended = result }
        ≡ native_done call.now.active store.old runtime.old (seen_in store.old call.now)
        call.now.arguments.now (OfAid native) }
{
    match native {
        AidNative::Construct => tested(AidNative::Construct, store, call, runtime),
        AidNative::Equals => tested(AidNative::Equals, store, call, runtime),
        AidNative::GetBytes => tested(AidNative::GetBytes, store, call, runtime),
    }
}
