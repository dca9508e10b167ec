//! The native members of a card, with its runtime's state.

ghost use Rattle.std.specs.Prelude.{◌≡◌};
ghost use Rattle.jc_api.specs.Numbered.{numbered};
ghost use Rattle.jc_link.specs.Linked as worlds;
ghost use Rattle.jc_machine.specs.Accepted.{IsAccepted};
ghost use Rattle.jc_machine.specs.Machine.{NativeCall};
ghost use Rattle.jc_machine.specs.Natives.{IsFitCall};
ghost use Rattle.jc_natives.specs.Kept.{Kept};
ghost use Rattle.jc_natives.specs.Meaning.{meaning};
ghost use Rattle.jc_natives.specs.Members.{natives};
ghost use Rattle.jc_natives.specs.PrivateMeaning.{answer_on_words};
ghost use Rattle.jc_natives.specs.PrivateWords.{AsksSo, TellsEnd, native_done, seen_in, word_done};

use crate::aid::aid_native;
use crate::apdu::apdu_native;
use crate::applet::applet_native;
use crate::at_once::done_at_once;
use crate::ended::{Ended, Question};
use crate::kept::Runtime;
use crate::member::tested;
use crate::native::{Native, UtilityNative, native_of};
use crate::object::object_native;
use crate::system::system_native;
use crate::utility::{utility_called, utility_native};
use arrayvec::ArrayVec;
use jc_link::{built_worlds_are_sound, built_worlds_stand_on_the_api};
use jc_machine::{AtOnce, Natives, WordCall, WordCallback, WordOutcome};
use jc_store::Store;

// The member with which applets answer requests for shareable objects.
const ANSWERING_MEMBER: u16 = 40;

// Tests the arguments of a member, and does its work.
#[inline(always)]
fn call_native(
    store: &mut Store,
    call: &WordCall<'_>,
    runtime: &mut Runtime,
    native: Native,
) -> Ended
    ensures { record { store = store.new; kept = runtime.new; ended = result }
        ≡ native_done call.now.active store.old runtime.old (seen_in store.old call.now)
        call.now.arguments.now native }
{
    match native {
        Native::OfObject(native) => object_native(store, call, runtime, native),
        Native::OfAid(native) => aid_native(store, call, runtime, native),
        Native::OfApdu(native) => apdu_native(store, call, runtime, native),
        Native::OfApplet(native) => applet_native(store, call, runtime, native),
        Native::OfSystem(native) => system_native(store, call, runtime, native),
        Native::OfUtility(native) => utility_native(store, call, runtime, native),
    }
}

// Calls the member with a number, if there is one. Those of Util are named by their numbers. The smallest are compiled
// in place, for calls with as many words as they take, so all their arguments are there.
#[inline(always)]
fn call_member(store: &mut Store, call: &WordCall<'_>, runtime: &mut Runtime) -> Ended
    ensures { record { store = store.new; kept = runtime.new; ended = result }
        ≡ word_done call.now.active store.old runtime.old (seen_in store.old call.now) call.now.arguments.now
        (numbered natives call.now.member) }
{
    match call.member {
        49 => utility_called(store, call, runtime, UtilityNative::ArrayCopy),
        50 => utility_called(store, call, runtime, UtilityNative::ArrayCopy),
        51 => utility_called(store, call, runtime, UtilityNative::ArrayFill),
        52 => utility_called(store, call, runtime, UtilityNative::ArrayCompare),
        53 if call.arguments.len() == 2 => { tested(UtilityNative::GetShort, store, call, runtime) }
        54 if call.arguments.len() == 3 => { tested(UtilityNative::SetShort, store, call, runtime) }
        55 if call.arguments.len() == 2 => {
            tested(UtilityNative::MakeShort, store, call, runtime)
        }
        member => match native_of(member) {
            Some(native) => call_native(store, call, runtime, native),
            None => Ended::Returned(None),
        },
    }
}

// A question as a call of the member that answers it.
#[inline(never)]
fn callback_of(question: Question) -> WordCallback
    ensures { AsksSo result question }
{
    let mut arguments = ArrayVec::new();
    arguments.push(question.aid);
    arguments.push(question.word);
    WordCallback {
        member: ANSWERING_MEMBER,
        object: question.object,
        arguments,
    }
}

// The end of a member as the outcome for an interpreter.
#[inline(always)]
fn outcome_of(ended: Ended) -> WordOutcome
    ensures { TellsEnd result ended }
{
    match ended {
        Ended::Returned(word) => WordOutcome::Returned(word),
        Ended::Thrown(object) => WordOutcome::Thrown(object),
        Ended::AccessDenied(access) => WordOutcome::AccessDenied(access),
        Ended::Asks(question) => WordOutcome::CallsBack(callback_of(question)),
    }
}

// For a call that fits, the meaning of members on tagged values equals that on words. It does nothing.
#[inline(always)]
fn members_mean_the_same()
    ensures { (w : worlds.World) (call : NativeCall Kept) → IsAccepted w → IsFitCall meaning w call
        → meaning.answer w call ≡ answer_on_words w call }
{
    built_worlds_stand_on_the_api();
    built_worlds_are_sound();
}

impl Natives for Runtime {
    ghost use Rattle.jc_natives.specs.Kept.{Kept};
    ghost use Rattle.jc_natives.specs.Meaning.{meaning};

    ghost Kept = { Kept };

    ghost kept = { λ runtime. runtime };

    ghost meaning = { meaning };

    #[inline(always)]
    fn call(&mut self, store: &mut Store, call: &WordCall<'_>) -> WordOutcome {
        members_mean_the_same();
        // each object has a number for its class
        let _used = store.objects_used();
        outcome_of(call_member(store, call, self))
    }

    #[inline]
    fn call_at_once(
        &mut self,
        store: &mut Store,
        member: u16,
        arguments: &[u16],
        context: u8,
    ) -> AtOnce {
        members_mean_the_same();
        // each object has a number for its class
        let _used = store.objects_used();
        done_at_once(store, member, arguments, context)
    }

    fn law(&self) {
        built_worlds_stand_on_the_api();
        built_worlds_are_sound();
    }
}
