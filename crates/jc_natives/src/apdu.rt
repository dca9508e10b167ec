//! Members of APDU (Java Card API Specification, APDU).

ghost use Rattle.std.specs.Prelude.{◌≡◌};
ghost use Rattle.jc_natives.specs.Kept.{is_fresh, is_incoming, is_length_set, is_outgoing};
ghost use Rattle.jc_natives.specs.PrivateApdus.{apdu_work, is_in_buffer, sends, sends_at_once};
ghost use Rattle.jc_natives.specs.PrivateWords.{done_of, native_done, seen_in};
ghost use Rattle.jc_natives.specs.declared.native.ApduNative.TheVariants as natives;
ghost use Rattle.jc_natives.specs.declared.native.Native.TheVariants.{OfApdu};

use crate::bytes::put_bytes;
use crate::cells::{argument, is_within, size};
use crate::ended::{Ended, throw_apdu};
use crate::kept::{ApduState, Runtime};
use crate::member::{Member, tested};
use crate::native::ApduNative;
use crate::row::{Length, MemberRow, Test, Use};
use crate::rows::{called, called_on};
use jc_machine::WordCall;
use jc_store::Store;

/// The number of the APDU buffer.
const BUFFER: u16 = 12;

/// The offset of a command's data in the buffer.
const DATA_OFFSET: usize = 5;

/// The most bytes that are sent.
const MOST_SENT: u16 = 256;

// The reasons of an APDUException.
const ILLEGAL_USE: u16 = 1;

const BUFFER_BOUNDS: u16 = 2;

const BAD_LENGTH: u16 = 3;

fn is_fresh(state: ApduState) -> bool
    ensures { result ≡ is_fresh state }
{
    match state {
        ApduState::Fresh => true,
        ApduState::Closed | ApduState::Received | ApduState::Outgoing | ApduState::LengthSet =>
            false,
    }
}

fn is_incoming(state: ApduState) -> bool
    ensures { result ≡ is_incoming state }
{
    match state {
        ApduState::Fresh | ApduState::Received => true,
        ApduState::Closed | ApduState::Outgoing | ApduState::LengthSet => false,
    }
}

fn is_outgoing(state: ApduState) -> bool
    ensures { result ≡ is_outgoing state }
{
    match state {
        ApduState::Outgoing => true,
        ApduState::Closed | ApduState::Fresh | ApduState::Received | ApduState::LengthSet => false,
    }
}

fn is_length_set(state: ApduState) -> bool
    ensures { result ≡ is_length_set state }
{
    match state {
        ApduState::LengthSet => true,
        ApduState::Closed | ApduState::Fresh | ApduState::Received | ApduState::Outgoing => false,
    }
}

fn receive(store: &mut Store, call: &WordCall<'_>, runtime: &mut Runtime) -> Ended
    ensures { record { store = store.new; kept = runtime.new; ended = result }
        ≡ done_of call.now.active store.old runtime.old
        (apdu_work (seen_in store.old call.now)
        runtime.old call.now.arguments.now natives.SetIncomingAndReceive) }
{
    if !is_fresh(runtime.state()) {
        return throw_apdu(store, ILLEGAL_USE);
    }
    let count = runtime.incoming().len() as u16;
    put_bytes(store, BUFFER, DATA_OFFSET, runtime.incoming());
    runtime.set_state(ApduState::Received);
    Ended::Returned(Some(count))
}

fn turn(store: &mut Store, call: &WordCall<'_>, runtime: &mut Runtime) -> Ended
    ensures { record { store = store.new; kept = runtime.new; ended = result }
        ≡ done_of call.now.active store.old runtime.old
        (apdu_work (seen_in store.old call.now) runtime.old call.now.arguments.now natives.SetOutgoing) }
{
    if !is_incoming(runtime.state()) {
        return throw_apdu(store, ILLEGAL_USE);
    }
    let expected = runtime.expected();
    runtime.set_state(ApduState::Outgoing);
    Ended::Returned(Some(expected))
}

fn set_length(store: &mut Store, call: &WordCall<'_>, runtime: &mut Runtime) -> Ended
    ensures { record { store = store.new; kept = runtime.new; ended = result }
        ≡ done_of call.now.active store.old runtime.old
        (apdu_work (seen_in store.old call.now)
        runtime.old call.now.arguments.now natives.SetOutgoingLength) }
{
    if !is_outgoing(runtime.state()) {
        return throw_apdu(store, ILLEGAL_USE);
    }
    let count = argument(call.arguments, 1);
    if MOST_SENT < count {
        return throw_apdu(store, BAD_LENGTH);
    }
    runtime.announce(count);
    Ended::Returned(None)
}

// Sends `count` more bytes of an array, if that doesn't exceed the announced length.
fn send(
    store: &mut Store,
    call: &WordCall<'_>,
    runtime: &mut Runtime,
    array: u16,
    offset: u16,
    count: u16,
) -> Ended
    ensures { record { store = store.new; kept = runtime.new; ended = result }
        ≡ done_of call.now.active store.old runtime.old
        (sends (seen_in store.old call.now) runtime.old array offset count) }
{
    if !runtime.may_send(count) {
        return throw_apdu(store, ILLEGAL_USE);
    }
    runtime.send(store, array, offset, count);
    Ended::Returned(None)
}

// Whether a range lies within the buffer.
fn is_in_buffer(store: &Store, call: &WordCall<'_>, offset: u16, count: u16) -> bool
    ensures { result ≡ is_in_buffer (seen_in store.now call.now) offset count }
{
    is_within(size(store, BUFFER), offset, count)
}

fn send_bytes(store: &mut Store, call: &WordCall<'_>, runtime: &mut Runtime) -> Ended
    ensures { record { store = store.new; kept = runtime.new; ended = result }
        ≡ done_of call.now.active store.old runtime.old
        (apdu_work (seen_in store.old call.now) runtime.old call.now.arguments.now natives.SendBytes) }
{
    if !is_length_set(runtime.state()) {
        return throw_apdu(store, ILLEGAL_USE);
    }
    let offset = argument(call.arguments, 1);
    let count = argument(call.arguments, 2);
    if !is_in_buffer(store, call, offset, count) {
        return throw_apdu(store, BUFFER_BOUNDS);
    }
    send(store, call, runtime, BUFFER, offset, count)
}

fn send_bytes_long(store: &mut Store, call: &WordCall<'_>, runtime: &mut Runtime) -> Ended
    ensures { record { store = store.new; kept = runtime.new; ended = result }
        ≡ done_of call.now.active store.old runtime.old
        (apdu_work (seen_in store.old call.now) runtime.old call.now.arguments.now natives.SendBytesLong) }
{
    if !is_length_set(runtime.state()) {
        return throw_apdu(store, ILLEGAL_USE);
    }
    let array = argument(call.arguments, 1);
    let offset = argument(call.arguments, 2);
    let count = argument(call.arguments, 3);
    send(store, call, runtime, array, offset, count)
}

// Sends a range of the buffer as the whole answer.
fn send_at_once(
    store: &mut Store,
    call: &WordCall<'_>,
    runtime: &mut Runtime,
    offset: u16,
    count: u16,
) -> Ended
    ensures { record { store = store.new; kept = runtime.new; ended = result }
        ≡ done_of call.now.active store.old runtime.old
        (sends_at_once (seen_in store.old call.now) runtime.old offset count) }
{
    if !is_incoming(runtime.state()) {
        return throw_apdu(store, ILLEGAL_USE);
    }
    if count > MOST_SENT {
        return throw_apdu(store, BAD_LENGTH);
    }
    if !is_in_buffer(store, call, offset, count) {
        return throw_apdu(store, BUFFER_BOUNDS);
    }
    runtime.announce(count);
    runtime.clear_sent();
    runtime.send(store, BUFFER, offset, count);
    Ended::Returned(None)
}

// Does the work of a member of APDU.
#[inline(always)]
fn apdu_work(
    store: &mut Store,
    call: &WordCall<'_>,
    runtime: &mut Runtime,
    native: ApduNative,
) -> Ended
    ensures { record { store = store.new; kept = runtime.new; ended = result }
        ≡ done_of call.now.active store.old runtime.old
        (apdu_work (seen_in store.old call.now) runtime.old call.now.arguments.now native) }
{
    match native {
        ApduNative::GetBuffer => Ended::Returned(Some(BUFFER)),
        ApduNative::SetIncomingAndReceive => receive(store, call, runtime),
        ApduNative::SetOutgoing => turn(store, call, runtime),
        ApduNative::SetOutgoingLength => set_length(store, call, runtime),
        ApduNative::SendBytes => send_bytes(store, call, runtime),
        ApduNative::SendBytesLong => send_bytes_long(store, call, runtime),
        ApduNative::SetOutgoingAndSend => {
            let offset = argument(call.arguments, 1);
            let count = argument(call.arguments, 2);
            send_at_once(store, call, runtime, offset, count)
        }
    }
}

impl Member for ApduNative {
    ghost use Rattle.jc_natives.specs.declared.native.Native.TheVariants.{OfApdu};

    ghost native = { λ member. OfApdu member };

    #[inline(always)]
    fn row(self) -> MemberRow {
        match self {
            ApduNative::SendBytesLong => called_on(Test::Object(1, Use::Loads), Length::ShortAt(3)),
            ApduNative::GetBuffer
            | ApduNative::SetIncomingAndReceive
            | ApduNative::SetOutgoing
            | ApduNative::SetOutgoingLength
            | ApduNative::SendBytes
            | ApduNative::SetOutgoingAndSend => called(),
        }
    }

    #[inline(always)]
    fn work(self, store: &mut Store, call: &WordCall<'_>, runtime: &mut Runtime) -> Ended {
        apdu_work(store, call, runtime, self)
    }
}

/// Calls a member of APDU. Each arm names its member, so its row is known at compile time.
#[inline(never)]
pub(crate) fn apdu_native(
    store: &mut Store,
    call: &WordCall<'_>,
    runtime: &mut Runtime,
    native: ApduNative,
) -> Ended
    ensures { record { store = store.new; kept = runtime.new; ended = result }
        ≡ native_done call.now.active store.old runtime.old (seen_in store.old call.now)
        call.now.arguments.now (OfApdu native) }
{
    match native {
        ApduNative::GetBuffer => tested(ApduNative::GetBuffer, store, call, runtime),
        ApduNative::SetIncomingAndReceive => {
            tested(ApduNative::SetIncomingAndReceive, store, call, runtime)
        }
        ApduNative::SetOutgoing => tested(ApduNative::SetOutgoing, store, call, runtime),
        ApduNative::SetOutgoingLength => {
            tested(ApduNative::SetOutgoingLength, store, call, runtime)
        }
        ApduNative::SendBytes => tested(ApduNative::SendBytes, store, call, runtime),
        ApduNative::SendBytesLong => tested(ApduNative::SendBytesLong, store, call, runtime),
        ApduNative::SetOutgoingAndSend => {
            tested(ApduNative::SetOutgoingAndSend, store, call, runtime)
        }
    }
}
