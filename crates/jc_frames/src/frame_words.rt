//! The words of the frame at a place.

ghost use Rattle.std.specs.Prelude.{◌≡◌, ◌+◌, length, min};
ghost use Rattle.jc_frames.specs.Operands.{arguments_in, in_use, local_in, operand_in, pushed, put, replaced};
ghost use Rattle.jc_frames.specs.PrivateLaid.{IsChanged, IsWithin, frame_in};

use crate::header::FrameSize;
use crate::place::FramePlace;

/// How many operands are in use, at most as many as there is room for.
#[inline]
pub(crate) fn depth_at(place: &FramePlace) -> u8
    ensures { result ≡ min place.now.header.depth place.now.operands }
{
    place.header.depth.min(place.operands)
}

/// How many locals the frame at a place has, and the most operands that it may have.
#[inline]
#[tactic(auto, using(crate::proofs::Words::part_length))]
pub(crate) fn size_at(place: &FramePlace, _words: &[u16]) -> FrameSize
    requires { IsWithin place.now _words.now }
    ensures locals { result.locals ≡ length (frame_in _words.now place.now).locals }
    ensures operands { result.operands ≡ length (frame_in _words.now place.now).operands }
{
    FrameSize {
        locals: place.locals,
        operands: place.operands,
    }
}

/// How many operands of the frame at a place are in use.
#[inline]
#[tactic(auto, using(crate::proofs::Words::part_length))]
pub(crate) fn in_use_at(place: &FramePlace, _words: &[u16]) -> u8
    requires { IsWithin place.now _words.now }
    ensures { result ≡ length (in_use (frame_in _words.now place.now)) }
{
    depth_at(place)
}

// The index of the first operand among the words.
#[inline]
fn operands_at(place: &FramePlace) -> usize
    ensures { result ≡ place.now.start + place.now.locals }
{
    usize::from(place.start) + usize::from(place.locals)
}

/// The operand with an index, counted from the top, or 0 if there is none.
#[inline(always)]
pub(crate) fn operand_at(place: &FramePlace, words: &[u16], index: u8) -> u16
    requires { IsWithin place.now words.now }
    ensures { result ≡ operand_in index (frame_in words.now place.now) }
{
    let depth = depth_at(place);
    if index < depth {
        words[operands_at(place) + usize::from(depth - 1 - index)]
    } else {
        0
    }
}

/// The top `count` operands, the deepest first; all that are in use if there are fewer.
#[inline]
pub(crate) fn arguments_at<'w>(place: &FramePlace, words: &'w [u16], count: u8) -> &'w [u16]
    requires { IsWithin place.now words.now }
    ensures { result.now ≡ arguments_in count (frame_in words.now place.now) }
{
    let depth = depth_at(place);
    let end = operands_at(place) + usize::from(depth);
    &words[end - usize::from(depth.min(count))..end]
}

/// The locals.
#[inline]
pub(crate) fn locals_at<'w>(place: &FramePlace, words: &'w [u16]) -> &'w [u16]
    requires { IsWithin place.now words.now }
    ensures { result.now ≡ (frame_in words.now place.now).locals }
{
    let start = usize::from(place.start);
    &words[start..start + usize::from(place.locals)]
}

/// The local with an index, or 0 if there is none.
#[inline]
pub(crate) fn local_at(place: &FramePlace, words: &[u16], index: u8) -> u16
    requires { IsWithin place.now words.now }
    ensures { result ≡ local_in index (frame_in words.now place.now) }
{
    if u16::from(index) < place.locals {
        words[usize::from(place.start) + usize::from(index)]
    } else {
        0
    }
}

/// Pushes an operand, if there is room for it.
#[inline]
pub(crate) fn push_at(place: &mut FramePlace, words: &mut [u16], word: u16)
    requires { IsWithin place.old words.old }
    ensures { IsChanged (pushed word) place.old words.old place.new words.new }
{
    let depth = depth_at(place);
    if depth < place.operands {
        place.header.depth = depth + 1;
        words[operands_at(place) + usize::from(depth)] = word;
    }
}

/// Pushes an operand, if there is room for it, and sets the pc.
#[inline(always)]
pub(crate) fn put_at(place: &mut FramePlace, words: &mut [u16], word: u16, pc: u16)
    requires { IsWithin place.old words.old }
    ensures { IsChanged (put word pc) place.old words.old place.new words.new }
{
    push_at(place, words, word);
    place.header.pc = pc;
}

/// The same in place of the top `count` operands, or of all if there are fewer.
#[inline(always)]
pub(crate) fn replace_at(place: &mut FramePlace, words: &mut [u16], count: u8, word: u16, pc: u16)
    requires { IsWithin place.old words.old }
    ensures { IsChanged (replaced count word pc) place.old words.old place.new words.new }
{
    place.header.depth = depth_at(place).saturating_sub(count);
    put_at(place, words, word, pc);
}
