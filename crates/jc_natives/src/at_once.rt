//! Members that are done at once, on scalars: short ones, and those that move bytes. Their arrays have to be the active
//! context's own or global, as the APDU buffer is, and ranges have to lie within them. Everything else is left to the
//! tests of a call.

ghost use Rattle.std.specs.Prelude.{◌≡◌, ℕ, true, Some};
ghost use Rattle.jc_api.specs.Numbered.{numbered};
ghost use Rattle.jc_machine.specs.declared.natives.AtOnce.TheVariants.{NotAtOnce};
ghost use Rattle.jc_natives.specs.Members.{natives};
ghost use Rattle.jc_natives.specs.PrivateAtOnce.{HasPart, HasParts, IsGlobal, MayBeUsed, MayUseComponents};
ghost use Rattle.jc_natives.specs.PrivateAtOnce.{WorksAtOnce};
ghost use Rattle.jc_store.specs.Heap.{Object, object_at};
ghost use Rattle.jc_store.specs.Store.{IsThere};
ghost use Rattle.jc_natives.specs.declared.native.ObjectNative.TheVariants as objects;
ghost use Rattle.jc_natives.specs.declared.native.UtilityNative.TheVariants as utilities;
ghost use Rattle.jc_natives.specs.declared.native.Native.TheVariants.{OfObject, OfUtility};

use crate::bytes::{compare_bytes, copy_words, fill_bytes, put_short, short_at};
use crate::cells::{argument, is_within, sum, word_of};
use crate::words::low;
use jc_firewall::own_is_allowed;
use jc_machine::AtOnce;
use jc_store::{Mark, Store};

// Whether an object is a context's own, so the context may use it in every way. Null is no context's own.
#[inline(always)]
#[tactic(auto, using(crate::proofs::Owning::own_passes, crate::proofs::Owning::reference_within))]
fn is_own(store: &Store, number: u16, context: u8) -> bool
    ensures { result ≡ true → MayBeUsed store.now number context }
{
    own_is_allowed();
    number <= store.objects_used() && store.is_own(number, context)
}

// Whether an object is a global array that is never cleared: each context may load and store its components.
#[inline(always)]
fn is_global(store: &Store, number: u16) -> bool
    requires there { IsThere store.now number }
    ensures { result ≡ true → (object : Object ℕ) → object_at store.now.objects number ≡ Some object
        → IsGlobal object.kind }
{
    let kind = store.kind_of(number);
    match kind.mark {
        Mark::GlobalArray => kind.clears.is_none(),
        Mark::Plain | Mark::PermanentEntryPoint | Mark::TemporaryEntryPoint => false,
    }
}

// Whether a context may load and store an object's components.
#[inline(always)]
#[tactic(auto, using(crate::proofs::Owning::global_loads, crate::proofs::Owning::global_stores))]
fn may_use_components(store: &Store, number: u16, context: u8) -> bool
    ensures { result ≡ true → MayUseComponents store.now number context }
{
    is_own(store, number, context) || (store.is_there(number) && is_global(store, number))
}

// Whether a context may do that, and an array has `count` components from an index on.
#[inline(always)]
fn has_part(store: &Store, number: u16, from: u16, count: u16, context: u8) -> bool
    ensures { result ≡ true → HasPart store.now number from count context }
{
    may_use_components(store, number, context) && is_within(store.len(number), from, count)
}

// The same for both arrays of a member.
#[inline(never)]
fn has_parts(store: &Store, arguments: &[u16], context: u8) -> bool
    ensures { result ≡ true → HasParts store.now arguments.now context }
{
    let count = argument(arguments, 4);
    has_part(
        store,
        argument(arguments, 0),
        argument(arguments, 1),
        count,
        context,
    ) && has_part(
        store,
        argument(arguments, 2),
        argument(arguments, 3),
        count,
        context,
    )
}

// A constructor that sets nothing.
#[inline(always)]
fn construct(store: &Store, arguments: &[u16], context: u8) -> AtOnce
    ensures { WorksAtOnce (Some (OfObject objects.Construct)) arguments.now context store.now store.now result }
{
    if is_own(store, argument(arguments, 0), context) {
        AtOnce::GivesNothing
    } else {
        AtOnce::NotAtOnce
    }
}

#[inline(always)]
fn get_short(store: &Store, arguments: &[u16], context: u8) -> AtOnce
    ensures { WorksAtOnce (Some (OfUtility utilities.GetShort)) arguments.now context store.now store.now result }
{
    let array = argument(arguments, 0);
    let from = argument(arguments, 1);
    if has_part(store, array, from, 2, context) {
        AtOnce::Gives(short_at(store, array, from))
    } else {
        AtOnce::NotAtOnce
    }
}

#[inline(always)]
fn set_short(store: &mut Store, arguments: &[u16], context: u8) -> AtOnce
    ensures works { WorksAtOnce (Some (OfUtility utilities.SetShort)) arguments.now context store.old store.new result }
    ensures asks { result ≡ NotAtOnce → store.new ≡ store.old }
{
    let array = argument(arguments, 0);
    let from = argument(arguments, 1);
    if !has_part(store, array, from, 2, context) {
        return AtOnce::NotAtOnce;
    }
    put_short(store, array, from, argument(arguments, 2));
    AtOnce::Gives(sum(from, 2))
}

#[inline(always)]
fn make_short(store: &Store, arguments: &[u16], context: u8) -> AtOnce
    ensures { WorksAtOnce (Some (OfUtility utilities.MakeShort)) arguments.now context store.now store.now result }
{
    let first = argument(arguments, 0);
    let second = argument(arguments, 1);
    AtOnce::Gives(word_of(low(first), low(second)))
}

#[inline(always)]
fn array_copy(store: &mut Store, arguments: &[u16], context: u8) -> AtOnce
    ensures works { WorksAtOnce (Some (OfUtility utilities.ArrayCopy)) arguments.now context store.old store.new
        result }
    ensures asks { result ≡ NotAtOnce → store.new ≡ store.old }
{
    if !has_parts(store, arguments, context) {
        return AtOnce::NotAtOnce;
    }
    let source = argument(arguments, 0);
    let from = argument(arguments, 1);
    let target = argument(arguments, 2);
    let to = argument(arguments, 3);
    let count = argument(arguments, 4);
    copy_words(store, source, from, target, to, count);
    AtOnce::Gives(sum(to, count))
}

#[inline(always)]
fn array_fill(store: &mut Store, arguments: &[u16], context: u8) -> AtOnce
    ensures works { WorksAtOnce (Some (OfUtility utilities.ArrayFill)) arguments.now context store.old store.new
        result }
    ensures asks { result ≡ NotAtOnce → store.new ≡ store.old }
{
    let array = argument(arguments, 0);
    let from = argument(arguments, 1);
    let count = argument(arguments, 2);
    if !has_part(store, array, from, count, context) {
        return AtOnce::NotAtOnce;
    }
    fill_bytes(store, array, from, count, argument(arguments, 3) % 256);
    AtOnce::Gives(sum(from, count))
}

#[inline(always)]
fn array_compare(store: &Store, arguments: &[u16], context: u8) -> AtOnce
    ensures { WorksAtOnce (Some (OfUtility utilities.ArrayCompare)) arguments.now context store.now store.now result }
{
    if !has_parts(store, arguments, context) {
        return AtOnce::NotAtOnce;
    }
    let one = argument(arguments, 0);
    let one_from = argument(arguments, 1);
    let other = argument(arguments, 2);
    let other_from = argument(arguments, 3);
    let count = argument(arguments, 4);
    AtOnce::Gives(compare_bytes(store, one, one_from, other, other_from, count))
}

/// Executes the member with a number at once, in a context, if it is one that can be done so. It is selected by its
/// number and its number of arguments, so all its arguments are there.
#[inline(always)]
pub(crate) fn done_at_once(store: &mut Store, member: u16, arguments: &[u16], context: u8) -> AtOnce
    ensures works { WorksAtOnce (numbered natives member) arguments.now context store.old store.new result }
    ensures asks { result ≡ NotAtOnce → store.new ≡ store.old }
{
    match member {
        1 | 3 | 4 | 5 | 6 | 7 | 8 | 9 | 10 | 11 | 12 | 13 | 33 if arguments.len() == 1 => {
            construct(store, arguments, context)
        }
        49 if arguments.len() == 5 => array_copy(store, arguments, context),
        50 if arguments.len() == 5 => array_copy(store, arguments, context),
        51 if arguments.len() == 4 => array_fill(store, arguments, context),
        52 if arguments.len() == 5 => array_compare(store, arguments, context),
        53 if arguments.len() == 2 => get_short(store, arguments, context),
        54 if arguments.len() == 3 => set_short(store, arguments, context),
        55 if arguments.len() == 2 => make_short(store, arguments, context),
        _ => AtOnce::NotAtOnce,
    }
}
