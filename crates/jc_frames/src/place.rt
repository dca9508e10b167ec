//! The places of frames among the words.

ghost use Rattle.std.specs.Prelude.{◌≡◌, ◌+◌, ◌-◌, ◌<◌, ◌≤◌, Some, length, reverse, slice_get, vec_len};
ghost use Rattle.jc_frames.specs.PrivateLaid.{first_word, part, put_at};

use crate::header::FrameHeader;

/// A frame: where its words begin, and how many locals, and operands after them, it has room for.
#[derive(Clone, Copy)]
pub(crate) struct FramePlace {
    pub(crate) header: FrameHeader,
    pub(crate) start: u16,
    pub(crate) locals: u16,
    pub(crate) operands: u8,
}

/// The place of the top frame.
#[inline]
pub(crate) fn top_of(places: &[FramePlace]) -> FramePlace
    requires some { 0 < length places.now }
    ensures { slice_get places.now (length places.now - 1) ≡ Some result }
{
    places[places.len() - 1]
}

/// The place of the frame under this many others, if there is one.
#[inline]
pub(crate) fn place_under(places: &[FramePlace], others: u8) -> Option<FramePlace>
    ensures { result ≡ slice_get (reverse places.now) others }
{
    let others = usize::from(others);
    if others < places.len() {
        Some(places[places.len() - 1 - others])
    } else {
        None
    }
}

/// The index of the first word of the top frame, or 0 if there is no frame.
#[inline]
pub(crate) fn top_start(places: &[FramePlace]) -> u16
    ensures { result ≡ first_word (reverse places.now) }
{
    match places.last() {
        Some(place) => place.start,
        None => 0,
    }
}

/// Writes the arguments to the words from an index on.
pub(crate) fn put_arguments(words: &mut Vec<u16>, start: usize, arguments: &[u16])
    requires within { start + length arguments.now ≤ vec_len words.old }
    ensures items { words.new.items ≡ put_at words.old.items start arguments.now }
    ensures len { vec_len words.new ≡ vec_len words.old }
{
    put_words(words, start, arguments);
}

fn put_words(words: &mut [u16], start: usize, arguments: &[u16])
    requires within { start + length arguments.now ≤ length words.old }
    ensures { words.new ≡ put_at words.old start arguments.now }
{
    words[start..start + arguments.len()].copy_from_slice(arguments);
}

/// Copies words that lie before an index to the words from there on.
#[inline(always)]
pub(crate) fn copy_arguments(words: &mut Vec<u16>, from: usize, count: usize, start: usize)
    requires before { from + count ≤ start }
    requires within { start + count ≤ vec_len words.old }
    ensures items { words.new.items ≡ put_at words.old.items start (part words.old.items from count) }
    ensures len { vec_len words.new ≡ vec_len words.old }
{
    copy_words(words, from, count, start);
}

/// Up to this many words are copied one by one: a copy of all at once would wait for those that were just written.
const FEW_WORDS: usize = 4;

/// The same in a slice.
#[inline(always)]
fn copy_words(words: &mut [u16], from: usize, count: usize, start: usize)
    requires before { from + count ≤ start }
    requires within { start + count ≤ length words.old }
    ensures { words.new ≡ put_at words.old start (part words.old from count) }
{
    if count <= FEW_WORDS {
        copy_each(words, from, count, start);
    } else {
        copy_at_once(words, from, count, start);
    }
}

/// The same at once, in a function of its own: a call of the C library in line would cost the few words too.
#[cold]
#[inline(never)]
fn copy_at_once(words: &mut [u16], from: usize, count: usize, start: usize)
    requires before { from + count ≤ start }
    requires within { start + count ≤ length words.old }
    ensures { words.new ≡ put_at words.old start (part words.old from count) }
{
    words.copy_within(from..from + count, start);
}

/// The same word by word.
#[inline(always)]
fn copy_each(words: &mut [u16], from: usize, count: usize, start: usize)
    requires before { from + count ≤ start }
    requires within { start + count ≤ length words.old }
    ensures { words.new ≡ put_at words.old start (part words.old from count) }
{
    for index in 0..count {
        words[start + index] = words[from + index];
    }
}
