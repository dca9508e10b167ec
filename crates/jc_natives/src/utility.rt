//! Members of Util (Java Card API Specification, Util).

ghost use Rattle.std.specs.Prelude.{◌≡◌};
ghost use Rattle.jc_natives.specs.PrivateWords.{Passes, done_of, native_done, seen_in};
ghost use Rattle.jc_natives.specs.PrivateUtilities.{utility_work};
ghost use Rattle.jc_natives.specs.declared.native.UtilityNative.TheVariants as natives;
ghost use Rattle.jc_natives.specs.declared.native.Native.TheVariants.{OfUtility};

use crate::bytes::{compare_bytes, copy_words, fill_bytes, put_short, short_at};
use crate::cells::{argument, sum, word_of};
use crate::ended::Ended;
use crate::kept::Runtime;
use crate::member::{Member, tested};
use crate::native::UtilityNative;
use crate::row::{Length, MemberRow, Test, Use};
use crate::rows::{UNTESTED, on_array, on_arrays};
use crate::words::low;
use jc_machine::WordCall;
use jc_store::Store;

fn array_copy(store: &mut Store, call: &WordCall<'_>, runtime: &Runtime) -> Ended
    requires passed { Passes (seen_in store.old call.now) call.now.arguments.now
        (OfUtility natives.ArrayCopy) }
    ensures { record { store = store.new; kept = runtime.now; ended = result }
        ≡ done_of call.now.active store.old runtime.now
        (utility_work (seen_in store.old call.now) runtime.now call.now.arguments.now natives.ArrayCopy) }
{
    let source = argument(call.arguments, 0);
    let from = argument(call.arguments, 1);
    let target = argument(call.arguments, 2);
    let to = argument(call.arguments, 3);
    let count = argument(call.arguments, 4);
    copy_words(store, source, from, target, to, count);
    Ended::Returned(Some(sum(to, count)))
}

#[tactic(auto, using(crate::proofs::Passing::named, crate::proofs::Passing::one_part))]
fn array_fill(store: &mut Store, call: &WordCall<'_>, runtime: &Runtime) -> Ended
    requires passed { Passes (seen_in store.old call.now) call.now.arguments.now
        (OfUtility natives.ArrayFill) }
    ensures { record { store = store.new; kept = runtime.now; ended = result }
        ≡ done_of call.now.active store.old runtime.now
        (utility_work (seen_in store.old call.now) runtime.now call.now.arguments.now natives.ArrayFill) }
{
    let array = argument(call.arguments, 0);
    let from = argument(call.arguments, 1);
    let count = argument(call.arguments, 2);
    let word = argument(call.arguments, 3);
    fill_bytes(store, array, from, count, word % 256);
    Ended::Returned(Some(sum(from, count)))
}

fn array_compare(store: &mut Store, call: &WordCall<'_>, runtime: &Runtime) -> Ended
    requires passed { Passes (seen_in store.old call.now) call.now.arguments.now
        (OfUtility natives.ArrayCompare) }
    ensures { record { store = store.new; kept = runtime.now; ended = result }
        ≡ done_of call.now.active store.old runtime.now
        (utility_work (seen_in store.old call.now) runtime.now call.now.arguments.now natives.ArrayCompare) }
{
    let one = argument(call.arguments, 0);
    let one_from = argument(call.arguments, 1);
    let other = argument(call.arguments, 2);
    let other_from = argument(call.arguments, 3);
    let count = argument(call.arguments, 4);
    Ended::Returned(Some(compare_bytes(store, one, one_from, other, other_from, count)))
}

#[inline(always)]
#[tactic(auto, using(crate::proofs::Passing::named, crate::proofs::Passing::one_part))]
fn get_short(store: &mut Store, call: &WordCall<'_>, runtime: &Runtime) -> Ended
    requires passed { Passes (seen_in store.old call.now) call.now.arguments.now
        (OfUtility natives.GetShort) }
    ensures { record { store = store.new; kept = runtime.now; ended = result }
        ≡ done_of call.now.active store.old runtime.now
        (utility_work (seen_in store.old call.now) runtime.now call.now.arguments.now natives.GetShort) }
{
    let array = argument(call.arguments, 0);
    let from = argument(call.arguments, 1);
    Ended::Returned(Some(short_at(store, array, from)))
}

#[inline(always)]
#[tactic(auto, using(crate::proofs::Passing::named, crate::proofs::Passing::one_part))]
fn set_short(store: &mut Store, call: &WordCall<'_>, runtime: &Runtime) -> Ended
    requires passed { Passes (seen_in store.old call.now) call.now.arguments.now
        (OfUtility natives.SetShort) }
    ensures { record { store = store.new; kept = runtime.now; ended = result }
        ≡ done_of call.now.active store.old runtime.now
        (utility_work (seen_in store.old call.now) runtime.now call.now.arguments.now natives.SetShort) }
{
    let array = argument(call.arguments, 0);
    let from = argument(call.arguments, 1);
    let word = argument(call.arguments, 2);
    put_short(store, array, from, word);
    Ended::Returned(Some(sum(from, 2)))
}

fn make_short(store: &mut Store, call: &WordCall<'_>, runtime: &Runtime) -> Ended
    ensures { record { store = store.new; kept = runtime.now; ended = result }
        ≡ done_of call.now.active store.old runtime.now
        (utility_work (seen_in store.old call.now) runtime.now call.now.arguments.now natives.MakeShort) }
{
    let first = argument(call.arguments, 0);
    let second = argument(call.arguments, 1);
    Ended::Returned(Some(word_of(low(first), low(second))))
}

// Does the work of a member of Util.
#[inline(always)]
fn utility_work(
    store: &mut Store,
    call: &WordCall<'_>,
    runtime: &Runtime,
    native: UtilityNative,
) -> Ended
    requires passed { Passes (seen_in store.old call.now) call.now.arguments.now (OfUtility native) }
    ensures { record { store = store.new; kept = runtime.now; ended = result }
        ≡ done_of call.now.active store.old runtime.now
        (utility_work (seen_in store.old call.now) runtime.now call.now.arguments.now native) }
{
    match native {
        UtilityNative::ArrayCopy => array_copy(store, call, runtime),
        UtilityNative::ArrayFill => array_fill(store, call, runtime),
        UtilityNative::ArrayCompare => array_compare(store, call, runtime),
        UtilityNative::GetShort => get_short(store, call, runtime),
        UtilityNative::SetShort => set_short(store, call, runtime),
        UtilityNative::MakeShort => make_short(store, call, runtime),
    }
}

impl Member for UtilityNative {
    ghost use Rattle.jc_natives.specs.declared.native.Native.TheVariants.{OfUtility};

    ghost native = { λ member. OfUtility member };

    #[inline(always)]
    fn row(self) -> MemberRow {
        match self {
            UtilityNative::ArrayCopy => on_arrays(
                Test::Object(0, Use::Loads),
                Test::Object(2, Use::Stores),
            ),
            UtilityNative::ArrayFill => on_array(Test::Object(0, Use::Stores), Length::ShortAt(2)),
            UtilityNative::ArrayCompare => on_arrays(
                Test::Object(0, Use::Loads),
                Test::Object(2, Use::Loads),
            ),
            UtilityNative::GetShort => on_array(Test::Object(0, Use::Loads), Length::Fixed(2)),
            UtilityNative::SetShort => on_array(Test::Object(0, Use::Stores), Length::Fixed(2)),
            UtilityNative::MakeShort => UNTESTED,
        }
    }

    #[inline(always)]
    fn work(self, store: &mut Store, call: &WordCall<'_>, runtime: &mut Runtime) -> Ended {
        utility_work(store, call, runtime, self)
    }
}

// `arrayCopy` with its tests.
#[inline(never)]
fn array_copy_tested(store: &mut Store, call: &WordCall<'_>, runtime: &mut Runtime) -> Ended
    ensures { record { store = store.new; kept = runtime.new; ended = result }
        ≡ native_done call.now.active store.old runtime.old (seen_in store.old call.now)
        call.now.arguments.now (OfUtility natives.ArrayCopy) }
{
    tested(UtilityNative::ArrayCopy, store, call, runtime)
}

// `arrayFill` with its tests.
#[inline(never)]
fn array_fill_tested(store: &mut Store, call: &WordCall<'_>, runtime: &mut Runtime) -> Ended
    ensures { record { store = store.new; kept = runtime.new; ended = result }
        ≡ native_done call.now.active store.old runtime.old (seen_in store.old call.now)
        call.now.arguments.now (OfUtility natives.ArrayFill) }
{
    tested(UtilityNative::ArrayFill, store, call, runtime)
}

// `arrayCompare` with its tests.
#[inline(never)]
fn array_compare_tested(store: &mut Store, call: &WordCall<'_>, runtime: &mut Runtime) -> Ended
    ensures { record { store = store.new; kept = runtime.new; ended = result }
        ≡ native_done call.now.active store.old runtime.old (seen_in store.old call.now)
        call.now.arguments.now (OfUtility natives.ArrayCompare) }
{
    tested(UtilityNative::ArrayCompare, store, call, runtime)
}

/// Calls a member of Util. Each arm names its member, so its row is known at compile time. If the call names its
/// member, only that arm is left.
#[inline(always)]
pub(crate) fn utility_called(
    store: &mut Store,
    call: &WordCall<'_>,
    runtime: &mut Runtime,
    native: UtilityNative,
) -> Ended
    ensures { record { store = store.new; kept = runtime.new; ended = result }
        ≡ native_done call.now.active store.old runtime.old (seen_in store.old call.now)
        call.now.arguments.now (OfUtility native) }
{
    match native {
        UtilityNative::ArrayCopy => array_copy_tested(store, call, runtime),
        UtilityNative::ArrayFill => array_fill_tested(store, call, runtime),
        UtilityNative::ArrayCompare => array_compare_tested(store, call, runtime),
        UtilityNative::GetShort => tested(UtilityNative::GetShort, store, call, runtime),
        UtilityNative::SetShort => tested(UtilityNative::SetShort, store, call, runtime),
        UtilityNative::MakeShort => tested(UtilityNative::MakeShort, store, call, runtime),
    }
}

/// Calls any member of Util.
#[inline(never)]
pub(crate) fn utility_native(
    store: &mut Store,
    call: &WordCall<'_>,
    runtime: &mut Runtime,
    native: UtilityNative,
) -> Ended
    ensures { record { store = store.new; kept = runtime.new; ended = result }
        ≡ native_done call.now.active store.old runtime.old (seen_in store.old call.now)
        call.now.arguments.now (OfUtility native) }
{
    utility_called(store, call, runtime, native)
}
