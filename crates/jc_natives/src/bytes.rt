//! Blocks of bytes of objects.

ghost use Rattle.std.specs.Prelude.{◌≡◌, ◌+◌, ◌++◌, ◌≤◌, [], ◌∷◌, bytes_eq, length, replicate};
ghost use Rattle.arrayvec.specs.ArrayVec.{array_vec_len};
ghost use Rattle.jc_natives.specs.Cells.{high, low, order_of, put_all, word_of_bytes};
ghost use Rattle.jc_natives.specs.PrivateCells.{byte_of, bytes_of, cells_from};
ghost use Rattle.jc_store.specs.Blocks.{HasCells};
ghost use Rattle.jc_store.specs.Store.{with_objects};

use crate::cells::{byte, has_part, high, known_part, part, put, word_of};
use crate::kept::MOST_SENT;
use crate::words::{
    append_words, are_same_words, are_words, low, order_of_words, words_to_alignment,
};
use arrayvec::ArrayVec;
use jc_store::Store;

/// Whether the `count` bytes of an object from an index on equal these.
pub(crate) fn are_bytes(store: &Store, number: u16, from: usize, count: u16, bytes: &[u8]) -> bool
    requires { from ≤ 65536 }
    ensures { result ≡ bytes_eq bytes.now (bytes_of store.now.objects number from count) }
{
    match part(store, number, from, count) {
        Some(words) => are_words(words, bytes),
        None => bytes.len() == usize::from(count) && begins_with(store, number, from, bytes),
    }
}

// Whether the bytes of an object from an index on begin with these.
fn begins_with(store: &Store, number: u16, from: usize, bytes: &[u8]) -> bool
    requires { from ≤ 65536 }
    ensures { result ≡ bytes_eq bytes.now (bytes_of store.now.objects number from (length bytes.now)) }
{
    for at in 0..bytes.len() {
        if bytes[at] != byte(store, number, from + at) {
            return false;
        }
    }
    true
}

// Whether two objects have the same `count` bytes from indexes on, one by one.
fn same_bytes_one_by_one(
    store: &Store,
    one: u16,
    one_from: usize,
    other: u16,
    other_from: usize,
    count: u16,
) -> bool
    requires one_low { one_from ≤ 65536 }
    requires other_low { other_from ≤ 65536 }
    ensures { result ≡ bytes_eq (bytes_of store.now.objects one one_from count)
        (bytes_of store.now.objects other other_from count) }
{
    for at in 0..usize::from(count) {
        if byte(store, one, one_from + at) != byte(store, other, other_from + at) {
            return false;
        }
    }
    true
}

/// Whether two objects have the same `count` bytes from indexes on.
pub(crate) fn same_bytes(
    store: &Store,
    one: u16,
    one_from: usize,
    other: u16,
    other_from: usize,
    count: u16,
) -> bool
    requires one_low { one_from ≤ 65536 }
    requires other_low { other_from ≤ 65536 }
    ensures { result ≡ bytes_eq (bytes_of store.now.objects one one_from count)
        (bytes_of store.now.objects other other_from count) }
{
    let one_part = part(store, one, one_from, count);
    let other_part = part(store, other, other_from, count);
    match (one_part, other_part) {
        (Some(one_words), Some(other_words)) => are_same_words(one_words, other_words),
        _ => same_bytes_one_by_one(store, one, one_from, other, other_from, count),
    }
}

/// How `count` bytes of two objects, from indexes on, compare: -1, 0 or 1.
pub(crate) fn compare_bytes(
    store: &Store,
    one: u16,
    one_from: u16,
    other: u16,
    other_from: u16,
    count: u16,
) -> u16
    requires one_there { HasCells store.now one one_from count }
    requires other_there { HasCells store.now other other_from count }
    ensures { result ≡ order_of (bytes_of store.now.objects one one_from count)
        (bytes_of store.now.objects other other_from count) }
{
    let one_words = known_part(store, one, one_from, count);
    let other_words = known_part(store, other, other_from, count);
    let unaligned = words_to_alignment(store.components_before(one), one_from);
    order_of_words(one_words, other_words, unaligned)
}

// Appends `count` bytes of an object, one by one.
fn append_bytes_one_by_one(
    bytes: &mut ArrayVec<u8, MOST_SENT>,
    store: &Store,
    number: u16,
    from: u16,
    count: u16,
)
    requires { array_vec_len bytes.old + count ≤ 256 }
    ensures { bytes.new.items ≡ bytes.old.items ++ bytes_of store.now.objects number from count }
{
    for at in 0..usize::from(count) {
        bytes.push(byte(store, number, usize::from(from) + at));
    }
}

/// Appends `count` bytes of an object.
pub(crate) fn append_bytes(
    bytes: &mut ArrayVec<u8, MOST_SENT>,
    store: &Store,
    number: u16,
    from: u16,
    count: u16,
)
    requires { array_vec_len bytes.old + count ≤ 256 }
    ensures { bytes.new.items ≡ bytes.old.items ++ bytes_of store.now.objects number from count }
{
    match part(store, number, usize::from(from), count) {
        Some(words) => append_words(bytes, words),
        None => append_bytes_one_by_one(bytes, store, number, from, count),
    }
}

// Writes bytes to an object, from an index on, one by one.
fn put_bytes_one_by_one(store: &mut Store, number: u16, from: usize, bytes: &[u8])
    requires { from ≤ 65536 }
    ensures { store.new ≡ with_objects store.old (put_all store.old.objects number from bytes.now) }
{
    for at in 0..bytes.len() {
        put(store, number, from + at, u16::from(bytes[at]));
    }
}

/// Writes bytes to an object, from an index on.
pub(crate) fn put_bytes(store: &mut Store, number: u16, from: usize, bytes: &[u8])
    requires { from ≤ 65536 }
    ensures { store.new ≡ with_objects store.old (put_all store.old.objects number from bytes.now) }
{
    if has_part(store, number, from, bytes.len()) {
        store.put_bytes(number, from, bytes);
    } else {
        put_bytes_one_by_one(store, number, from, bytes);
    }
}

/// Writes a byte to `count` components of an object, from an index on.
pub(crate) fn fill_bytes(store: &mut Store, number: u16, from: u16, count: u16, byte: u16)
    requires there { HasCells store.old number from count }
    ensures { store.new ≡ with_objects store.old (put_all store.old.objects number from (replicate count byte)) }
{
    store.fill(number, usize::from(from), usize::from(count), byte);
}

// Copies from the front on.
fn copy_forward(
    store: &mut Store,
    source: u16,
    source_from: usize,
    target: u16,
    target_from: usize,
    count: u16,
)
    requires source_low { source_from ≤ 65536 }
    requires target_low { target_from ≤ 65536 }
    requires before { target_from ≤ source_from }
    ensures { store.new ≡ with_objects store.old (put_all store.old.objects target target_from
        (bytes_of store.old.objects source source_from count)) }
{
    for at in 0..usize::from(count) {
        let copied = byte(store, source, source_from + at);
        put(store, target, target_from + at, u16::from(copied));
    }
}

// Copies from the back on.
fn copy_backward(
    store: &mut Store,
    source: u16,
    source_from: usize,
    target: u16,
    target_from: usize,
    count: u16,
)
    requires source_low { source_from ≤ 65536 }
    requires target_low { target_from ≤ 65536 }
    requires behind { source_from ≤ target_from }
    ensures { store.new ≡ with_objects store.old (put_all store.old.objects target target_from
        (bytes_of store.old.objects source source_from count)) }
{
    for done in 0..usize::from(count) {
        let at = usize::from(count) - done - 1;
        let copied = byte(store, source, source_from + at);
        put(store, target, target_from + at, u16::from(copied));
    }
}

/// Copies `count` bytes of an object to another, from indexes on; source and target may overlap.
pub(crate) fn copy_bytes(
    store: &mut Store,
    source: u16,
    source_from: usize,
    target: u16,
    target_from: usize,
    count: u16,
)
    requires source_low { source_from ≤ 65536 }
    requires target_low { target_from ≤ 65536 }
    ensures { store.new ≡ with_objects store.old (put_all store.old.objects target target_from
        (bytes_of store.old.objects source source_from count)) }
{
    if target_from <= source_from {
        copy_forward(store, source, source_from, target, target_from, count);
    } else {
        copy_backward(store, source, source_from, target, target_from, count);
    }
}

/// Copies `count` components of an object unchanged to another, from indexes on; source and target may overlap.
pub(crate) fn copy_words(
    store: &mut Store,
    source: u16,
    source_from: u16,
    target: u16,
    target_from: u16,
    count: u16,
)
    requires source_there { HasCells store.old source source_from count }
    requires target_there { HasCells store.old target target_from count }
    ensures { store.new ≡ with_objects store.old (put_all store.old.objects target target_from
        (cells_from store.old.objects source source_from count)) }
{
    store.copy(
        source,
        usize::from(source_from),
        target,
        usize::from(target_from),
        usize::from(count),
    );
}

/// Two bytes of an object, from an index on, as a word: the high one first.
#[inline(always)]
pub(crate) fn short_at(store: &Store, number: u16, from: u16) -> u16
    requires there { HasCells store.now number from 2 }
    ensures { result ≡ word_of_bytes (byte_of store.now.objects number from)
        (byte_of store.now.objects number (from + 1)) }
{
    let words = known_part(store, number, from, 2);
    word_of(low(words[0]), low(words[1]))
}

/// Writes a word to an object as two bytes, from an index on: the high one first.
#[inline(always)]
pub(crate) fn put_short(store: &mut Store, number: u16, from: u16, word: u16)
    requires there { HasCells store.old number from 2 }
    ensures { store.new ≡ with_objects store.old
        (put_all store.old.objects number from (high word ∷ low word ∷ [])) }
{
    store.put_bytes(number, usize::from(from), &[high(word) as u8, low(word)]);
}
