//! Members of Applet (Java Card API Specification, Applet).

ghost use Rattle.std.specs.Prelude.{◌≡◌, IfSome, None, Some, if◌then◌else◌, is_some, not, true};
ghost use Rattle.jc_natives.specs.Kept.{aid_object, has_aid_length, instance_with, waits};
ghost use Rattle.jc_natives.specs.PrivateApplets.{allowed, applet_work, may_register, owner_of, registers};
ghost use Rattle.jc_natives.specs.PrivateApplets.{registers_range};
ghost use Rattle.jc_natives.specs.PrivateCells.{bytes_of};
ghost use Rattle.jc_natives.specs.PrivateWords.{done_of, native_done, seen_in};
ghost use Rattle.jc_natives.specs.declared.native.AppletNative.TheVariants as natives;
ghost use Rattle.jc_natives.specs.declared.native.Native.TheVariants.{OfApplet};

use crate::aid::{ILLEGAL_VALUE, has_aid_length};
use crate::bytes::{append_bytes, put_bytes};
use crate::cells::{argument, bit, extended, put};
use crate::ended::{Ended, throw_system};
use crate::kept::{Installing, Instance, Runtime, is_same_owner};
use crate::member::{Member, tested};
use crate::native::AppletNative;
use crate::row::{Length, MemberRow, Test, Use};
use crate::rows::{called, called_on};
use arrayvec::ArrayVec;
use jc_base::Aid;
use jc_machine::WordCall;
use jc_names::Owner;
use jc_store::Store;

/// The reason of a SystemException for an applet that may not register.
const ILLEGAL_AID: u16 = 4;

/// The AID object of the instance with a number, from 1 on.
pub(crate) fn aid_object(number: u8) -> u16
    ensures { result ≡ aid_object number }
{
    13 + u16::from(number)
}

// The owner of an object; without an object the runtime.
fn owner_of(store: &Store, number: u16) -> Owner
    ensures { result ≡ owner_of store.now.objects number }
{
    if store.is_there(number) {
        store.owner_of(number)
    } else {
        Owner::RUNTIME
    }
}

// Whether an object's owner is the instance that is being installed, and this hasn't registered.
fn may_register(store: &Store, call: &WordCall<'_>, object: u16, installing: &Installing) -> bool
    ensures { result ≡ may_register (seen_in store.now call.now) object installing.now }
{
    !installing.registered && is_same_owner(owner_of(store, object), installing.owner)
}

// The instance that is being installed, if an object may register for it.
fn allowed(store: &Store, call: &WordCall<'_>, runtime: &Runtime, object: u16) -> Option<Installing>
    ensures allowed { result ≡ allowed (seen_in store.now call.now) object runtime.now.installing }
    ensures waits { IfSome result (λ i. waits runtime.now ≡ true) }
{
    let installing = runtime.installing()?;
    if may_register(store, call, object, &installing) {
        Some(installing)
    } else {
        None
    }
}

// Whether no registered instance has this AID.
fn is_free(runtime: &Runtime, aid: &[u8]) -> bool
    ensures { result ≡ not (is_some (instance_with runtime.now.instances aid.now)) }
{
    !runtime.instance_with(aid).is_some()
}

// Registers the instance with a number with an AID, if no registered instance has that.
fn register_as(
    store: &mut Store,
    call: &WordCall<'_>,
    runtime: &mut Runtime,
    instance: u8,
    object: u16,
    aid: Aid,
) -> Ended
    requires { waits runtime.old ≡ true }
    ensures { record { store = store.new; kept = runtime.new; ended = result }
        ≡ done_of call.now.active store.old runtime.old
        (registers (seen_in store.old call.now) runtime.old instance object aid) }
{
    if !is_free(runtime, aid.as_slice()) {
        return throw_system(store, ILLEGAL_AID);
    }
    let owner = owner_of(store, object);
    let number = aid_object(instance);
    put(store, number, 0, aid.len() as u16);
    put_bytes(store, number, 1, aid.as_slice());
    runtime.register(Instance { aid, object, owner });
    Ended::Returned(None)
}

fn register(store: &mut Store, call: &WordCall<'_>, runtime: &mut Runtime) -> Ended
    ensures { record { store = store.new; kept = runtime.new; ended = result }
        ≡ done_of call.now.active store.old runtime.old
        (applet_work (seen_in store.old call.now) runtime.old call.now.arguments.now natives.Register) }
{
    let object = argument(call.arguments, 0);
    match allowed(store, call, runtime, object) {
        None => throw_system(store, ILLEGAL_AID),
        Some(installing) => {
            let number = installing.owner.instance;
            register_as(store, call, runtime, number, object, installing.aid)
        }
    }
}

// The AID with the bytes of an array from an offset on, if they are one.
fn aid_in(store: &Store, array: u16, offset: u16, count: u16) -> Option<Aid>
    ensures { result ≡ (if has_aid_length count then Some (bytes_of store.now.objects array offset count) else None) }
{
    if !has_aid_length(count) {
        return None;
    }
    let mut bytes = ArrayVec::new();
    append_bytes(&mut bytes, store, array, offset, count);
    Aid::from_slice(bytes.as_slice())
}

// Registers the instance with a number with the bytes of a range.
fn register_range(
    store: &mut Store,
    call: &WordCall<'_>,
    runtime: &mut Runtime,
    instance: u8,
) -> Ended
    requires { waits runtime.old ≡ true }
    ensures { record { store = store.new; kept = runtime.new; ended = result }
        ≡ done_of call.now.active store.old runtime.old
        (registers_range (seen_in store.old call.now) runtime.old call.now.arguments.now instance) }
{
    let object = argument(call.arguments, 0);
    let array = argument(call.arguments, 1);
    let offset = argument(call.arguments, 2);
    let count = extended(argument(call.arguments, 3));
    match aid_in(store, array, offset, count) {
        None => throw_system(store, ILLEGAL_VALUE),
        Some(aid) => register_as(store, call, runtime, instance, object, aid),
    }
}

fn register_bytes(store: &mut Store, call: &WordCall<'_>, runtime: &mut Runtime) -> Ended
    ensures { record { store = store.new; kept = runtime.new; ended = result }
        ≡ done_of call.now.active store.old runtime.old
        (applet_work (seen_in store.old call.now) runtime.old call.now.arguments.now natives.RegisterBytes) }
{
    let object = argument(call.arguments, 0);
    match allowed(store, call, runtime, object) {
        None => throw_system(store, ILLEGAL_AID),
        Some(installing) => { register_range(store, call, runtime, installing.owner.instance) }
    }
}

// Does the work of a member of Applet.
#[inline(always)]
fn applet_work(
    store: &mut Store,
    call: &WordCall<'_>,
    runtime: &mut Runtime,
    native: AppletNative,
) -> Ended
    ensures { record { store = store.new; kept = runtime.new; ended = result }
        ≡ done_of call.now.active store.old runtime.old
        (applet_work (seen_in store.old call.now) runtime.old call.now.arguments.now native) }
{
    match native {
        AppletNative::Register => register(store, call, runtime),
        AppletNative::RegisterBytes => register_bytes(store, call, runtime),
        AppletNative::Select => Ended::Returned(Some(1)),
        AppletNative::Deselect | AppletNative::Process => Ended::Returned(None),
        AppletNative::SelectingApplet => Ended::Returned(Some(bit(runtime.is_selecting()))),
        AppletNative::GetShareable => Ended::Returned(Some(0)),
    }
}

impl Member for AppletNative {
    ghost use Rattle.jc_natives.specs.declared.native.Native.TheVariants.{OfApplet};

    ghost native = { λ member. OfApplet member };

    #[inline(always)]
    fn row(self) -> MemberRow {
        match self {
            AppletNative::RegisterBytes => called_on(
                Test::Object(1, Use::Loads),
                Length::ByteAt(3),
            ),
            AppletNative::Register
            | AppletNative::Select
            | AppletNative::Deselect
            | AppletNative::Process
            | AppletNative::SelectingApplet
            | AppletNative::GetShareable => called(),
        }
    }

    #[inline(always)]
    fn work(self, store: &mut Store, call: &WordCall<'_>, runtime: &mut Runtime) -> Ended {
        applet_work(store, call, runtime, self)
    }
}

/// Calls a member of Applet. Each arm names its member, so its row is known at compile time.
#[inline(never)]
pub(crate) fn applet_native(
    store: &mut Store,
    call: &WordCall<'_>,
    runtime: &mut Runtime,
    native: AppletNative,
) -> Ended
    ensures { record { store = store.new; kept = runtime.new; ended = result }
        ≡ native_done call.now.active store.old runtime.old (seen_in store.old call.now)
        call.now.arguments.now (OfApplet native) }
{
    match native {
        AppletNative::Register => tested(AppletNative::Register, store, call, runtime),
        AppletNative::RegisterBytes => { tested(AppletNative::RegisterBytes, store, call, runtime) }
        AppletNative::Select => tested(AppletNative::Select, store, call, runtime),
        AppletNative::Deselect => tested(AppletNative::Deselect, store, call, runtime),
        AppletNative::Process => tested(AppletNative::Process, store, call, runtime),
        AppletNative::SelectingApplet => {
            tested(AppletNative::SelectingApplet, store, call, runtime)
        }
        AppletNative::GetShareable => { tested(AppletNative::GetShareable, store, call, runtime) }
    }
}
