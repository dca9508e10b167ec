//! Reading and writing the components of objects by members, for any number and index.

ghost use Rattle.std.specs.Prelude.{◌≡◌, ◌+◌, ◌≤◌, ◌<◌, true, false, None, IfNone, IfSome, length, map};
ghost use Rattle.jc_natives.specs.Cells.{bit, extended, high, is_count, is_within, low, put, word, word_of_bytes};
ghost use Rattle.jc_natives.specs.PrivateCells.{aid_count, argument, byte_of, bytes_of, cell_of, size_of};
ghost use Rattle.jc_store.specs.Blocks.{HasCells};
ghost use Rattle.jc_store.specs.Heap.{object_at};
ghost use Rattle.jc_store.specs.Store.{IsThere, with_objects};

use jc_store::Store;

/// How many components an object has, or 0 if there is none.
#[inline(always)]
pub(crate) fn size(store: &Store, number: u16) -> u16
    ensures { result ≡ size_of store.now.objects number }
{
    if store.is_there(number) {
        store.len(number)
    } else {
        0
    }
}

/// The component of an object at an index, or 0 if there is none.
#[inline(always)]
pub(crate) fn cell(store: &Store, number: u16, index: usize) -> u16
    ensures { result ≡ cell_of store.now.objects number index }
{
    if index < usize::from(size(store, number)) {
        store.get(number, index as u16)
    } else {
        0
    }
}

/// How many bytes an AID has, at most 16.
#[inline(always)]
pub(crate) fn aid_count(store: &Store, number: u16) -> u16
    ensures count { result ≡ aid_count store.now.objects number }
    ensures word { result ≡ word (aid_count store.now.objects number) }
{
    let count = cell(store, number, 0);
    if count < 16 { count } else { 16 }
}

/// The low byte of a component.
#[inline(always)]
pub(crate) fn byte(store: &Store, number: u16, index: usize) -> u8
    ensures { result ≡ byte_of store.now.objects number index }
{
    (cell(store, number, index) % 256) as u8
}

/// The `count` components of an object from an index on, if it has them.
#[inline]
pub(crate) fn part(store: &Store, number: u16, from: usize, count: u16) -> Option<&[u16]>
    requires { from ≤ 65536 }
    ensures bytes { IfSome result (λ words. bytes_of store.now.objects number from count ≡ map low words.now) }
    ensures len { IfSome result (λ words. length words.now ≡ count) }
    ensures none { IfNone result (size_of store.now.objects number < from + count) }
{
    store
        .components(number)
        .get(from..from + usize::from(count))
}

/// The `count` components of an object from an index on, which it is known to have.
#[inline(always)]
pub(crate) fn known_part(store: &Store, number: u16, from: u16, count: u16) -> &[u16]
    requires there { HasCells store.now number from count }
    ensures bytes { bytes_of store.now.objects number from count ≡ map low result.now }
    ensures len { length result.now ≡ count }
{
    store.part(number, usize::from(from), usize::from(count))
}

/// Whether there is an object with a number and it has `count` components from an index on.
#[inline]
pub(crate) fn has_part(store: &Store, number: u16, from: usize, count: usize) -> bool
    ensures yes { result ≡ true → HasCells store.now number from count }
    ensures no { result ≡ false → HasCells store.now number from count → ⊥ }
{
    if !store.is_there(number) {
        return false;
    }
    let size = usize::from(store.len(number));
    count <= size && from <= size - count
}

/// Sets the component of an object at an index, if there is one.
pub(crate) fn put(store: &mut Store, number: u16, index: usize, word: u16)
    ensures { store.new ≡ with_objects store.old (put store.old.objects number index word) }
{
    if index < usize::from(size(store, number)) {
        store.set(number, index as u16, word);
    }
}

/// The argument at an index, or 0 if there is none.
#[inline(always)]
pub(crate) fn argument(arguments: &[u16], place: usize) -> u16
    ensures argument { result ≡ argument arguments.now place }
    ensures word { result ≡ word (argument arguments.now place) }
{
    match arguments.get(place) {
        Some(word) => *word,
        None => 0,
    }
}

/// The low byte of a word, sign-extended.
#[inline(always)]
pub(crate) fn extended(word: u16) -> u16
    ensures { result ≡ extended word }
{
    let low = word % 256;
    if low < 128 { low } else { low + 65280 }
}

/// Two bytes as a word, the high one first.
#[inline(always)]
pub(crate) fn word_of(high: u8, low: u8) -> u16
    ensures { result ≡ word_of_bytes high low }
{
    256 * u16::from(high) + u16::from(low)
}

/// The high byte of a word.
#[inline(always)]
pub(crate) fn high(word: u16) -> u16
    ensures { result ≡ high word }
{
    word / 256 % 256
}

/// The sum of two words, as a word.
#[inline(always)]
pub(crate) fn sum(one: u16, other: u16) -> u16
    ensures { result ≡ word (one + other) }
{
    one.wrapping_add(other)
}

/// 1 for true, 0 for false.
#[inline(always)]
pub(crate) fn bit(truth: bool) -> u16
    ensures { result ≡ bit truth }
{
    if truth { 1 } else { 0 }
}

/// Whether a word isn't a negative short.
#[inline(always)]
pub(crate) fn is_count(word: u16) -> bool
    ensures { result ≡ is_count word }
{
    word < 32768
}

/// Whether `count` components from an index on lie within `size`; a negative short is no number of components.
#[inline(always)]
pub(crate) fn is_within(size: u16, from: u16, count: u16) -> bool
    ensures { result ≡ is_within size from count }
{
    is_count(from) && is_count(count) && from + count <= size
}
