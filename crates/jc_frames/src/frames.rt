//! The frames of the running methods.

ghost use Rattle.std.specs.Prelude.{◌≡◌, ◌+◌, ◌≤◌, ℕ, List, true, false, [], ◌∷◌, Some, None};
ghost use Rattle.std.specs.Prelude.{length, nat_le, take, drop, reverse, slice_range, IfOk};
ghost use Rattle.std.specs.Borrow.{sem};
ghost use Rattle.jc_frames.specs.Frames.{Frame, HasOperands, HasTop, IsFull, IsPushed, with_frames, with_words_left};
ghost use Rattle.jc_frames.specs.Lending.{LendsWords};
ghost use Rattle.jc_frames.specs.Operands.{HasInUse, arguments_in, at_pc, dropped, header_under, in_use, local_in};
ghost use Rattle.jc_frames.specs.Operands.{of_top, on_top};
ghost use Rattle.jc_frames.specs.Operands.{operand_in, placed, pushed, put, replaced};
ghost use Rattle.jc_frames.specs.Operands.{with_in_use, with_words, words_of};
ghost use Rattle.jc_frames.specs.PrivateLaid.{HasRoom};

use crate::frame_words::{
    arguments_at, depth_at, in_use_at, local_at, locals_at, operand_at, push_at, put_at,
    replace_at, size_at,
};
use crate::header::{FrameHeader, FrameSize};
use crate::place::{FramePlace, copy_arguments, place_under, put_arguments, top_of, top_start};
use std::alloc::{AllocError, Global};
use std::marker::Model;

/// The frames of the running methods. All their memory is reserved when they are made; no other call allocates.
#[derive(Drop)]
pub struct Frames {
    places: Vec<FramePlace>,
    words: Vec<u16>,
    used: u16,
    most_frames: u8,
    most_words: u16,
}

impl Model for Frames {
    ghost use Rattle.std.specs.Prelude.{vec_capacity, vec_len};
    ghost use Rattle.jc_frames.specs.Frames.{Frames as Held};

    ghost Value = { Held };

    ghost use Rattle.jc_frames.specs.PrivateLaid.{IsLaid, frames_in};

    ghost view = { λ s. record {
      frames = frames_in s.words.items s.places.items;
      most_frames = s.most_frames;
      most_words = s.most_words;
    } };

    ghost invariant = { λ s. IsLaid s.places.items s.words.items (record {
      places = vec_len s.places;
      room = vec_capacity s.places;
      words = vec_len s.words;
      used = s.used;
      most_frames = s.most_frames;
      most_words = s.most_words;
    }) };
}

impl Frames {
    /// No frame, with room for this many frames, and for this many words of their locals and operands.
    pub fn new(alloc: Global, frames: u8, words: u16) -> Result<Frames, AllocError>
        ensures { IfOk result (λ s. s ≡ record { frames = []; most_frames = frames; most_words = words }) }
    {
        let places = Vec::with_capacity(alloc, usize::from(frames))?;
        let all_words = vec![in alloc; 0; usize::from(words)]?;
        Ok(Frames {
            places,
            words: all_words,
            used: 0,
            most_frames: frames,
            most_words: words,
        })
    }

    /// How many frames there are.
    #[inline]
    pub fn count(&self) -> u8
        ensures { result ≡ length self.now.frames }
    {
        self.places.len() as u8
    }

    /// Whether there are as many frames as there may be.
    #[inline]
    pub fn are_most(&self) -> bool
        ensures { result ≡ nat_le self.now.most_frames (length self.now.frames) }
    {
        usize::from(self.most_frames) <= self.places.len()
    }

    // Whether there is room for one more frame of a size.
    #[inline(always)]
    fn has_room(&self, size: FrameSize) -> bool
        ensures room { result ≡ true → HasRoom self.now size }
        ensures full { result ≡ false → IsFull self.now size }
    {
        let left = usize::from(self.most_words) - usize::from(self.used);
        let wanted = usize::from(size.locals) + usize::from(size.operands);
        self.places.len() < usize::from(self.most_frames) && wanted <= left
    }

    /// Pushes a frame, if there is room for it: the arguments are its first locals, and its other words may be
    /// anything.
    #[inline]
    pub fn push_frame(&mut self, header: FrameHeader, size: FrameSize, arguments: &[u16]) -> bool
        requires fit { length arguments.now ≤ size.locals }
        ensures pushed { result ≡ true → IsPushed self.old header size arguments.now self.new }
        ensures room { result ≡ true → IsFull self.old size → ⊥ }
        ensures full { result ≡ false → IsFull self.old size }
        ensures kept { result ≡ false → self.new ≡ self.old }
    {
        if !self.has_room(size) {
            return false;
        }
        let start = self.used;
        self.places.push_reserved(FramePlace {
            header,
            start,
            locals: size.locals,
            operands: size.operands,
        });
        self.used = start + size.locals + u16::from(size.operands);
        put_arguments(&mut self.words, usize::from(start), arguments);
        true
    }

    // Pushes a frame for which there is room. The `count` operands of the top frame from an index on are its first
    // locals, and its other words may be anything.
    #[inline(always)]
    fn put_call(&mut self, header: FrameHeader, size: FrameSize, first: u8, count: u8)
        requires there { HasOperands self.old first count }
        requires fit { count ≤ size.locals }
        requires room { HasRoom self.old size }
        ensures { (top : Frame) (below : List Frame) → self.old.frames ≡ top ∷ below
            → IsPushed self.old header size (slice_range top.operands first (first + count)) self.new }
    {
        let place = top_of(&self.places);
        let from = usize::from(place.start) + usize::from(place.locals) + usize::from(first);
        let start = self.used;
        self.places.push_reserved(FramePlace {
            header,
            start,
            locals: size.locals,
            operands: size.operands,
        });
        self.used = start + size.locals + u16::from(size.operands);
        copy_arguments(
            &mut self.words,
            from,
            usize::from(count),
            usize::from(start),
        );
    }

    /// Pops the top frame.
    #[inline]
    pub fn pop_frame(&mut self)
        requires there { HasTop self.old }
        ensures { (top : Frame) (below : List Frame) → self.old.frames ≡ top ∷ below
            → self.new ≡ with_frames self.old below }
    {
        self.used = top_of(&self.places).start;
        let _ = self.places.pop();
    }

    /// The header of the top frame, if there is one.
    #[inline]
    pub fn top(&self) -> Option<FrameHeader>
        ensures { result ≡ of_top None (λ f. Some f.header) self.now }
    {
        let place = self.places.last()?;
        Some(place.header)
    }

    /// The header of the frame under this many others, if there is one.
    #[inline]
    #[tactic(auto, using(crate::proofs::Under::header_is))]
    pub fn frame_under(&self, others: u8) -> Option<FrameHeader>
        ensures { result ≡ header_under others self.now }
    {
        let place = place_under(&self.places, others)?;
        Some(place.header)
    }

    /// How many locals the top frame has, and the most operands that it may have; 0 and 0 if there is no frame.
    #[inline]
    pub fn top_size(&self) -> FrameSize
        ensures locals { result.locals ≡ of_top 0 (λ f. length f.locals) self.now }
        ensures operands { result.operands ≡ of_top 0 (λ f. length f.operands) self.now }
    {
        let Some(place) = self.places.last() else {
            return FrameSize {
                locals: 0,
                operands: 0,
            };
        };
        size_at(place, &self.words)
    }

    /// How many operands of the top frame are in use; 0 if there is no frame.
    #[inline]
    pub fn depth(&self) -> u8
        ensures { result ≡ of_top 0 (λ f. length (in_use f)) self.now }
    {
        let Some(place) = self.places.last() else {
            return 0;
        };
        in_use_at(place, &self.words)
    }

    /// The operand of the top frame with an index, counted from the top, or 0 if there is none.
    #[inline(always)]
    pub fn operand(&self, index: u8) -> u16
        ensures { result ≡ of_top 0 (operand_in index) self.now }
    {
        let Some(place) = self.places.last() else {
            return 0;
        };
        operand_at(place, &self.words, index)
    }

    /// The local of the top frame with an index, or 0 if there is none.
    #[inline]
    pub fn local(&self, index: u8) -> u16
        ensures { result ≡ of_top 0 (local_in index) self.now }
    {
        let Some(place) = self.places.last() else {
            return 0;
        };
        local_at(place, &self.words, index)
    }

    /// The top `count` operands of the top frame, the deepest first; all that are in use if there are fewer.
    #[inline]
    pub fn arguments(&self, count: u8) -> &[u16]
        ensures { result.now ≡ of_top [] (arguments_in count) self.now }
    {
        let Some(place) = self.places.last() else {
            return &[];
        };
        arguments_at(place, &self.words, count)
    }

    /// The locals of the top frame.
    #[inline]
    pub fn locals(&self) -> &[u16]
        ensures { result.now ≡ of_top [] (λ f. f.locals) self.now }
    {
        let Some(place) = self.places.last() else {
            return &[];
        };
        locals_at(place, &self.words)
    }

    /// Pushes an operand, if there is room for it.
    #[inline]
    pub fn push_operand(&mut self, word: u16)
        ensures { self.new ≡ on_top (pushed word) self.old }
    {
        let Some(place) = self.places.last_mut() else {
            return;
        };
        push_at(place, &mut self.words, word);
    }

    /// Pushes an operand, if there is room for it, and sets the pc.
    #[inline(always)]
    pub fn put(&mut self, word: u16, pc: u16)
        ensures { self.new ≡ on_top (put word pc) self.old }
    {
        let Some(place) = self.places.last_mut() else {
            return;
        };
        put_at(place, &mut self.words, word, pc);
    }

    /// The same in place of the top `count` operands, or of all if there are fewer.
    #[inline(always)]
    pub fn replace(&mut self, count: u8, word: u16, pc: u16)
        ensures { self.new ≡ on_top (replaced count word pc) self.old }
    {
        let Some(place) = self.places.last_mut() else {
            return;
        };
        replace_at(place, &mut self.words, count, word, pc);
    }

    /// Drops the top `count` operands, or all if there are fewer.
    #[inline(always)]
    pub fn drop_operands(&mut self, count: u8)
        ensures { self.new ≡ on_top (dropped count) self.old }
    {
        let Some(place) = self.places.last_mut() else {
            return;
        };
        place.header.depth = depth_at(place).saturating_sub(count);
    }

    /// Sets the pc of the top frame.
    #[inline]
    pub fn set_pc(&mut self, pc: u16)
        ensures { self.new ≡ on_top (at_pc pc) self.old }
    {
        let Some(place) = self.places.last_mut() else {
            return;
        };
        place.header.pc = pc;
    }

    /// Sets the pc of the top frame and the number of its operands in use.
    #[inline]
    pub fn place_top(&mut self, pc: u16, depth: u8)
        ensures { self.new ≡ on_top (placed pc depth) self.old }
    {
        let Some(place) = self.places.last_mut() else {
            return;
        };
        place.header.pc = pc;
        place.header.depth = depth;
    }

    /// The locals of the top frame and then its operands, for writing; no words if there is no frame.
    #[inline]
    pub fn words(&mut self) -> &mut [u16]
        ensures* given_back { sem 𝓛 (LendsWords self.entry result) }
        ensures words { result.now ≡ of_top [] words_of self.old }
    {
        let start = usize::from(top_start(&self.places));
        let end = usize::from(self.used);
        self.words.slice_mut(start..end)
    }

    /// Pushes a frame, if there is room for it. The top `words` operands of the frame that was on top are its first
    /// locals, and that frame loses them; its other words may be anything. It returns false if there are fewer
    /// operands, or fewer locals.
    #[inline(always)]
    pub fn enter_call(&mut self, header: FrameHeader, size: FrameSize, words: u8) -> bool
        ensures pushed { (top : Frame) (below : List Frame) → self.old.frames ≡ top ∷ below
            → words ≤ length (in_use top) → words ≤ size.locals → result ≡ true
            → IsPushed (with_frames self.old (dropped words top ∷ below)) header size
            (reverse (take words (in_use top))) self.new }
        ensures full { (top : Frame) (below : List Frame) → self.old.frames ≡ top ∷ below
            → words ≤ length (in_use top) → words ≤ size.locals → result ≡ false → IsFull self.old size }
        ensures there { result ≡ true → HasInUse self.old words }
        ensures fit { result ≡ true → words ≤ size.locals }
        ensures room { result ≡ true → IsFull self.old size → ⊥ }
        ensures kept { result ≡ false → self.new ≡ self.old }
    {
        let Some(caller) = self.places.last() else {
            return false;
        };
        let depth = depth_at(caller);
        if depth < words || size.locals < u16::from(words) || !self.has_room(size) {
            return false;
        }
        self.drop_operands(words);
        self.put_call(header, size, depth - words, words);
        true
    }

    /// Pushes a frame, if there is room for it: the arguments are its first locals, and its other words may be
    /// anything. The frame that was on top loses the top `words` operands, or all if there are fewer. It returns false
    /// if there are fewer locals than arguments.
    #[inline]
    pub fn enter_with(
        &mut self,
        header: FrameHeader,
        size: FrameSize,
        words: u8,
        arguments: &[u16],
    ) -> bool
        ensures pushed { result ≡ true
            → IsPushed (on_top (dropped words) self.old) header size arguments.now self.new }
        ensures fit { result ≡ true → length arguments.now ≤ size.locals }
        ensures room { result ≡ true → IsFull self.old size → ⊥ }
        ensures full { length arguments.now ≤ size.locals → result ≡ false → IsFull self.old size }
        ensures kept { result ≡ false → self.new ≡ self.old }
    {
        if arguments.len() > usize::from(size.locals) || !self.has_room(size) {
            return false;
        }
        self.drop_operands(words);
        self.push_frame(header, size, arguments)
    }

    /// Pops the top frame, if there is one.
    #[inline]
    pub fn drop_frame(&mut self)
        ensures { self.new ≡ with_frames self.old (drop 1 self.old.frames) }
    {
        if !self.places.is_empty() {
            self.pop_frame();
        }
    }

    /// Pops the top `count` frames, or all if there are fewer.
    pub fn drop_frames(&mut self, count: u8)
        ensures { self.new ≡ with_frames self.old (drop count self.old.frames) }
    {
        for _ in 0..count {
            self.drop_frame();
        }
    }

    /// Pops all frames.
    #[inline]
    pub fn clear(&mut self)
        ensures { self.new ≡ with_frames self.old [] }
    {
        self.places.clear();
        self.used = 0;
    }
}

/// If as many words are left in a slice as were borrowed, they become the locals and the operands of the top frame. It
/// does nothing.
pub fn lending_laws()
    ensures words { (top : Frame) (below : List Frame) (left : List ℕ)
        → length left ≡ length top.locals + length top.operands
        → with_words_left (top ∷ below) left ≡ with_words top left ∷ below }
{}

/// Laws of the operands in use. It does nothing.
pub fn operand_laws()
    ensures in_use { (f : Frame) (words : List ℕ) → in_use (with_in_use f words) ≡ words }
    ensures within { (f : Frame) → length (in_use f) ≤ length f.operands }
    ensures room { (f : Frame) (words : List ℕ) → length words ≤ length f.operands
        → length (with_in_use f words).operands ≡ length f.operands }
    ensures at_pc { (f : Frame) (pc : ℕ) → in_use (at_pc pc f) ≡ in_use f }
{}
