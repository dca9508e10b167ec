//! Members of JCSystem (Java Card API Specification, JCSystem).

ghost use Rattle.std.specs.Prelude.{◌≡◌};
ghost use Rattle.jc_natives.specs.Cells.{extended};
ghost use Rattle.jc_natives.specs.Kept.{instance_with};
ghost use Rattle.jc_natives.specs.Members.{aid_of, aid_of_owner, event_of};
ghost use Rattle.jc_natives.specs.PrivateCells.{argument, bytes_of};
ghost use Rattle.jc_natives.specs.PrivateSystem.{asks, makes, makes_array, may_make, system_work};
ghost use Rattle.jc_natives.specs.PrivateWords.{done_of, native_done, seen_in};
ghost use Rattle.jc_natives.specs.Work.{Makes, array_type};
ghost use Rattle.jc_natives.specs.declared.native.SystemNative.TheVariants as natives;
ghost use Rattle.jc_natives.specs.declared.native.Native.TheVariants.{OfSystem};

use crate::aid::ILLEGAL_VALUE;
use crate::applet::aid_object;
use crate::cells::{aid_count, argument, extended, is_count};
use crate::ended::{Ended, Question, throw_system};
use crate::kept::{Instance, Runtime};
use crate::member::{Member, tested};
use crate::native::{Elements, SystemNative};
use crate::row::{Length, MemberRow, Test, Use};
use crate::rows::{UNTESTED, called, on_array};
use jc_api::ApiClass;
use jc_machine::WordCall;
use jc_names::{ClassName, Owner};
use jc_store::{ClearingEvent, Mark, ObjectKind, ObjectType, Store};

// The reasons of a SystemException.
const NO_TRANSIENT_SPACE: u16 = 2;

const ILLEGAL_TRANSIENT: u16 = 3;

const NEGATIVE_SIZE_EXCEPTION: u16 = 5;

/// The class number of an array.
const NUMBER_OF_OBJECT: u16 = 0;

const OBJECT: ClassName = ClassName::Api(ApiClass::Object);

// The AID object of a registered instance, or 0 if there is none.
fn aid_of(instance: Option<Instance>) -> u16
    ensures { result ≡ aid_of instance }
{
    match instance {
        Some(instance) => aid_object(instance.owner.instance),
        None => 0,
    }
}

fn aid_of_owner(runtime: &Runtime, owner: Option<Owner>) -> u16
    ensures { result ≡ aid_of_owner runtime.now owner }
{
    match owner {
        Some(owner) => aid_of(runtime.instance_of(owner)),
        None => 0,
    }
}

fn lookup_aid(store: &Store, call: &WordCall<'_>, runtime: &Runtime) -> u16
    ensures { result ≡ aid_of (instance_with runtime.now.instances (bytes_of store.now.objects
        (argument call.now.arguments.now 0) (argument call.now.arguments.now 1)
        (extended (argument call.now.arguments.now 2)))) }
{
    let array = argument(call.arguments, 0);
    let offset = argument(call.arguments, 1);
    let count = extended(argument(call.arguments, 2));
    aid_of(runtime.instance_in(store, array, offset, count))
}

// Asks an applet for a shareable object, if there is that applet.
fn ask(
    store: &mut Store,
    call: &WordCall<'_>,
    runtime: &Runtime,
    word: u16,
    instance: Option<Instance>,
) -> Ended
    ensures { record { store = store.new; kept = runtime.now; ended = result }
        ≡ done_of call.now.active store.old runtime.now
        (asks (seen_in store.old call.now) runtime.now word instance) }
{
    match instance {
        None => Ended::Returned(Some(0)),
        Some(instance) => Ended::Asks(Question {
            object: instance.object,
            aid: aid_of_owner(runtime, Some(call.active)),
            word: extended(word),
        }),
    }
}

fn ask_for_shareable(store: &mut Store, call: &WordCall<'_>, runtime: &Runtime) -> Ended
    ensures { record { store = store.new; kept = runtime.now; ended = result }
        ≡ done_of call.now.active store.old runtime.now
        (system_work (seen_in store.old call.now)
        runtime.now call.now.arguments.now natives.AskForShareable) }
{
    let aid = argument(call.arguments, 0);
    let word = argument(call.arguments, 1);
    let count = aid_count(store, aid);
    let instance = runtime.instance_in(store, aid, 1, count);
    ask(store, call, runtime, word, instance)
}

// The event with a number.
fn event_of(number: u16) -> Option<ClearingEvent>
    ensures { result ≡ event_of number }
{
    if number == 1 {
        Some(ClearingEvent::Reset)
    } else if number == 2 {
        Some(ClearingEvent::Deselect)
    } else {
        None
    }
}

// Whether an array that an event clears may be made.
fn may_make(store: &Store, call: &WordCall<'_>, event: ClearingEvent) -> bool
    ensures { result ≡ may_make (seen_in store.now call.now) event }
{
    match event {
        ClearingEvent::Reset => true,
        ClearingEvent::Deselect => match call.selected {
            Some(selected) => selected == call.active.context,
            None => false,
        },
    }
}

// The type of an array with such components.
fn array_type(elements: Elements) -> ObjectType
    ensures { result ≡ array_type elements }
{
    match elements {
        Elements::Booleans => ObjectType::BooleanArray,
        Elements::Bytes => ObjectType::ByteArray,
        Elements::Shorts => ObjectType::ShortArray,
        Elements::References => ObjectType::ReferenceArray(OBJECT),
    }
}

// Makes an array, if there is room for it.
#[tactic(auto, using(crate::proofs::Room::full_has_none, crate::proofs::Room::not_full_has_some))]
fn make_where_room(
    store: &mut Store,
    call: &WordCall<'_>,
    runtime: &Runtime,
    elements: Elements,
    size: u16,
    event: ClearingEvent,
) -> Ended
    ensures { record { store = store.new; kept = runtime.now; ended = result }
        ≡ done_of call.now.active store.old runtime.now
        (Makes (record { elements = elements; event = event; size = size })) }
{
    let kind = ObjectKind {
        object_type: array_type(elements),
        mark: Mark::Plain,
        clears: Some(event),
    };
    match store.make(kind, call.active, usize::from(size), NUMBER_OF_OBJECT) {
        Some(number) => Ended::Returned(Some(number)),
        None => throw_system(store, NO_TRANSIENT_SPACE),
    }
}

// Makes an array that an event clears.
fn make(
    store: &mut Store,
    call: &WordCall<'_>,
    runtime: &Runtime,
    elements: Elements,
    size: u16,
    event: Option<ClearingEvent>,
) -> Ended
    ensures { record { store = store.new; kept = runtime.now; ended = result }
        ≡ done_of call.now.active store.old runtime.now
        (makes (seen_in store.old call.now) runtime.now elements size event) }
{
    let Some(event) = event else {
        return throw_system(store, ILLEGAL_VALUE);
    };
    if !may_make(store, call, event) {
        return throw_system(store, ILLEGAL_TRANSIENT);
    }
    if !is_count(size) {
        return Ended::Thrown(NEGATIVE_SIZE_EXCEPTION);
    }
    make_where_room(store, call, runtime, elements, size, event)
}

fn make_array(
    store: &mut Store,
    call: &WordCall<'_>,
    runtime: &Runtime,
    elements: Elements,
) -> Ended
    ensures { record { store = store.new; kept = runtime.now; ended = result }
        ≡ done_of call.now.active store.old runtime.now
        (makes_array (seen_in store.old call.now) runtime.now call.now.arguments.now elements) }
{
    let size = argument(call.arguments, 0);
    let event = event_of(extended(argument(call.arguments, 1)));
    make(store, call, runtime, elements, size, event)
}

// Does the work of a member of JCSystem.
#[inline(always)]
fn system_work(
    store: &mut Store,
    call: &WordCall<'_>,
    runtime: &Runtime,
    native: SystemNative,
) -> Ended
    ensures { record { store = store.new; kept = runtime.now; ended = result }
        ≡ done_of call.now.active store.old runtime.now
        (system_work (seen_in store.old call.now) runtime.now call.now.arguments.now native) }
{
    match native {
        SystemNative::GetAid => Ended::Returned(Some(aid_of_owner(runtime, Some(call.active)))),
        SystemNative::LookupAid => Ended::Returned(Some(lookup_aid(store, call, runtime))),
        SystemNative::GetPreviousAid => Ended::Returned(Some(aid_of_owner(runtime, call.previous))),
        SystemNative::AskForShareable => ask_for_shareable(store, call, runtime),
        SystemNative::MakeBooleans => make_array(store, call, runtime, Elements::Booleans),
        SystemNative::MakeBytes => make_array(store, call, runtime, Elements::Bytes),
        SystemNative::MakeShorts => make_array(store, call, runtime, Elements::Shorts),
        SystemNative::MakeReferences => { make_array(store, call, runtime, Elements::References) }
    }
}

impl Member for SystemNative {
    ghost use Rattle.jc_natives.specs.declared.native.Native.TheVariants.{OfSystem};

    ghost native = { λ member. OfSystem member };

    #[inline(always)]
    fn row(self) -> MemberRow {
        match self {
            SystemNative::LookupAid => on_array(Test::Object(0, Use::Loads), Length::ByteAt(2)),
            SystemNative::AskForShareable => called(),
            SystemNative::GetAid
            | SystemNative::GetPreviousAid
            | SystemNative::MakeBooleans
            | SystemNative::MakeBytes
            | SystemNative::MakeShorts
            | SystemNative::MakeReferences => UNTESTED,
        }
    }

    #[inline(always)]
    fn work(self, store: &mut Store, call: &WordCall<'_>, runtime: &mut Runtime) -> Ended {
        system_work(store, call, runtime, self)
    }
}

/// Calls a member of JCSystem. Each arm names its member, so its row is known at compile time.
#[inline(never)]
pub(crate) fn system_native(
    store: &mut Store,
    call: &WordCall<'_>,
    runtime: &mut Runtime,
    native: SystemNative,
) -> Ended
    ensures { record { store = store.new; kept = runtime.new; ended = result }
        ≡ native_done call.now.active store.old runtime.old (seen_in store.old call.now)
        call.now.arguments.now (OfSystem native) }
{
    match native {
        SystemNative::GetAid => tested(SystemNative::GetAid, store, call, runtime),
        SystemNative::LookupAid => tested(SystemNative::LookupAid, store, call, runtime),
        SystemNative::GetPreviousAid => {
            tested(SystemNative::GetPreviousAid, store, call, runtime)
        }
        SystemNative::AskForShareable => {
            tested(SystemNative::AskForShareable, store, call, runtime)
        }
        SystemNative::MakeBooleans => { tested(SystemNative::MakeBooleans, store, call, runtime) }
        SystemNative::MakeBytes => tested(SystemNative::MakeBytes, store, call, runtime),
        SystemNative::MakeShorts => tested(SystemNative::MakeShorts, store, call, runtime),
        SystemNative::MakeReferences => {
            tested(SystemNative::MakeReferences, store, call, runtime)
        }
    }
}
