//! The low bytes of words that are borrowed from objects.

ghost use Rattle.std.specs.Prelude.{◌≡◌, ◌+◌, ◌++◌, ◌≤◌, ◌<◌, true, false, bytes_eq, length, map, take};
ghost use Rattle.arrayvec.specs.ArrayVec.{array_vec_len};
ghost use Rattle.jc_natives.specs.Cells.{byte_order, low, order_of};

use crate::kept::MOST_SENT;
use arrayvec::ArrayVec;

// How many words are compared at once, as long as there are as many.
const HUGE: usize = 128;

const LARGE: usize = 32;

const SMALL: usize = 8;

/// The low byte of a word.
#[inline]
pub(crate) fn low(word: u16) -> u8
    ensures { result ≡ low word }
{
    (word % 256) as u8
}

// How two bytes compare, if they differ: -1 or 1.
#[inline]
pub(crate) fn order_of_bytes(one: u8, other: u8) -> Option<u16>
    ensures { result ≡ byte_order one other }
{
    if one < other {
        Some(65535)
    } else if other < one {
        Some(1)
    } else {
        None
    }
}

/// Whether the low bytes of words equal these.
pub(crate) fn are_words(words: &[u16], bytes: &[u8]) -> bool
    ensures { result ≡ bytes_eq bytes.now (map low words.now) }
{
    if words.len() != bytes.len() {
        return false;
    }
    for at in 0..words.len() {
        if bytes[at] != low(words[at]) {
            return false;
        }
    }
    true
}

// Whether words are equal. If they aren't, their low bytes may still be.
#[inline]
fn are_same(one: &[u16], other: &[u16]) -> bool
    requires sized { length one.now ≡ length other.now }
    ensures yes { result ≡ true → one.now ≡ other.now }
    ensures no { result ≡ false → one.now ≡ other.now → ⊥ }
{
    let mut same = true;
    for at in 0..one.len() {
        same = same & (one[at] == other[at]);
    }
    same
}

// How many words at the front are equal, of which `known` are known to be. It goes on from there in blocks of a size.
// The last block may overlap the known ones.
#[inline(always)]
fn same_from(one: &[u16], other: &[u16], known: usize, size: usize) -> usize
    requires sized { length one.now ≡ length other.now }
    requires within { known ≤ length one.now }
    requires same { take known one.now ≡ take known other.now }
    requires some { 0 < size }
    ensures within { result ≤ length one.now }
    ensures same { take result one.now ≡ take result other.now }
{
    if one.len() < size {
        return known;
    }
    let mut start = known;
    while size <= one.len() - start {
        if !are_same(&one[start..start + size], &other[start..start + size]) {
            return start;
        }
        start += size;
    }
    let end = one.len();
    if start < end && are_same(&one[end - size..], &other[end - size..]) {
        end
    } else {
        start
    }
}

// How many of many words at the front are equal, in large blocks that begin after `unaligned` words. It is 0 if there
// are few words, or if some of the first differ.
#[inline]
fn same_among_many(one: &[u16], other: &[u16], unaligned: usize) -> usize
    requires sized { length one.now ≡ length other.now }
    requires few { unaligned < 8 }
    ensures within { result ≤ length one.now }
    ensures same { take result one.now ≡ take result other.now }
{
    if one.len() < HUGE || !are_same(&one[..SMALL], &other[..SMALL]) {
        return 0;
    }
    same_from(one, other, unaligned, HUGE)
}

// How many words at the front are equal, without some after the last block. It is inlined, since mostly few words are
// compared.
#[inline(always)]
fn same_start(one: &[u16], other: &[u16], unaligned: usize) -> usize
    requires sized { length one.now ≡ length other.now }
    requires few { unaligned < 8 }
    ensures within { result ≤ length one.now }
    ensures same { take result one.now ≡ take result other.now }
{
    if one.len() < LARGE {
        return same_from(one, other, 0, SMALL);
    }
    let many = same_among_many(one, other, unaligned);
    let large = same_from(one, other, many, LARGE);
    if large == one.len() {
        return large;
    }
    same_from(one, other, large, SMALL)
}

/// How many components come before the first that is aligned to a block, from index `from` of an object on. The objects
/// before it have `before` components.
#[inline]
pub(crate) fn words_to_alignment(before: u16, from: u16) -> usize
    ensures { result < 8 }
{
    let start = usize::from(before) + usize::from(from);
    (SMALL - start % SMALL) % SMALL
}

/// How the low bytes of words compare: -1, 0 or 1. Many are compared in blocks that begin after `unaligned` words.
#[inline]
pub(crate) fn order_of_words(one: &[u16], other: &[u16], unaligned: usize) -> u16
    requires sized { length one.now ≡ length other.now }
    requires few { unaligned < 8 }
    ensures { result ≡ order_of (map low one.now) (map low other.now) }
{
    for at in same_start(one, other, unaligned)..one.len() {
        if let Some(order) = order_of_bytes(low(one[at]), low(other[at])) {
            return order;
        }
    }
    0
}

/// Whether the low bytes of words are equal.
#[inline]
pub(crate) fn are_same_words(one: &[u16], other: &[u16]) -> bool
    requires sized { length one.now ≡ length other.now }
    ensures { result ≡ bytes_eq (map low one.now) (map low other.now) }
{
    for at in same_start(one, other, 0)..one.len() {
        if low(one[at]) != low(other[at]) {
            return false;
        }
    }
    true
}

/// Appends the low bytes of words.
pub(crate) fn append_words(bytes: &mut ArrayVec<u8, MOST_SENT>, words: &[u16])
    requires { array_vec_len bytes.old + length words.now ≤ 256 }
    ensures { bytes.new.items ≡ bytes.old.items ++ map low words.now }
{
    for at in 0..words.len() {
        bytes.push(low(words[at]));
    }
}
