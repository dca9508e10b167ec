//! Native members: the tests of their arguments, and their work after these.

ghost use Rattle.std.specs.Prelude.{◌≡◌};
ghost use Rattle.jc_natives.specs.PrivateMeaning.{row_of, work_of};
ghost use Rattle.jc_natives.specs.PrivateWords.{Passes, done_of, native_done, seen_in};
ghost use Rattle.jc_natives.specs.declared.native.Native.{Native as Named};

use crate::ended::Ended;
use crate::kept::Runtime;
use crate::row::MemberRow;
use crate::tests::refusal;
use jc_machine::WordCall;
use jc_store::Store;

/// A member of one of the classes that have native members.
pub(crate) trait Member: Copy {
    // Which native member it is.
    ghost native: { Self → Named };

    /// The tests of its arguments.
    fn row(self) -> MemberRow
        ensures { result ≡ row_of (native self) };

    /// Does its work, after its arguments have passed its tests.
    fn work(self, store: &mut Store, call: &WordCall<'_>, runtime: &mut Runtime) -> Ended
        requires passed { Passes (seen_in store.old call.now) call.now.arguments.now (native self) }
        ensures { record { store = store.new; kept = runtime.new; ended = result }
            ≡ done_of call.now.active store.old runtime.old
            (work_of (seen_in store.old call.now) runtime.old call.now.arguments.now (native self)) };
}

/// Tests the arguments of a member, and does its work. If the member is known at compile time, its row is, too.
#[inline(always)]
#[tactic(auto, using(crate::proofs::Refusing::none_refused))]
pub(crate) fn tested<M: Member>(
    member: M,
    store: &mut Store,
    call: &WordCall<'_>,
    runtime: &mut Runtime,
) -> Ended
    ensures { record { store = store.new; kept = runtime.new; ended = result }
        ≡ native_done call.now.active store.old runtime.old (seen_in store.old call.now)
        call.now.arguments.now (M.native member) }
{
    match refusal(store, call, &member.row()) {
        Some(end) => end,
        None => member.work(store, call, runtime),
    }
}
