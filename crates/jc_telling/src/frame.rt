//! The words for the frame in which a call stopped.

ghost use Rattle.std.specs.Prelude.{◌≡◌, option_map};
ghost use Rattle.jc_telling.specs.Explanation.{index_of};

use jc_interp::{IndexFault, ShownFrame};
use std::fmt;

/// The index that is outside of an array, if a frame stopped because of it.
pub(crate) fn index_of(stopped: Option<&ShownFrame>) -> Option<IndexFault>
    ensures { result ≡ index_of (option_map (λ frame. frame.now) stopped.entry) }
{
    stopped?.index
}

/// A word as a short.
#[derive(Clone, Copy)]
struct Short {
    word: u16,
}

impl fmt::Display for Short {
    ghost use Rattle.std.specs.Prelude.{Some};
    ghost use Rattle.std.specs.Fmt.{signed_decimal};
    ghost use Rattle.jc_words.specs.Shorts.{short};

    ghost output = { λ s. Some (signed_decimal (short s.word)) };

    fn fmt<W: fmt::Write>(&self, f: &mut fmt::Formatter<W>) -> fmt::Result {
        write!(f, "{}", self.word.cast_signed())
    }
}

/// An index outside of an array, and the array's length, if there is one.
#[derive(Clone, Copy)]
pub(crate) struct Index {
    pub(crate) fault: Option<IndexFault>,
}

impl fmt::Display for Index {
    ghost use Rattle.std.specs.Prelude.{Some};
    ghost use Rattle.jc_telling.specs.Explanation.{index_text};

    ghost output = { λ i. Some (index_text i.fault) };

    fn fmt<W: fmt::Write>(&self, f: &mut fmt::Formatter<W>) -> fmt::Result {
        match self.fault {
            Some(fault) => {
                let index = Short { word: fault.index };
                write!(f, ", index {index} of an array of {}", fault.length)
            }
            None => Ok(()),
        }
    }
}

/// Words as shorts, each behind a space.
#[derive(Drop)]
struct Shorts<'a> {
    words: &'a [u16],
}

impl<'a> fmt::Display for Shorts<'a> {
    ghost use Rattle.std.specs.Prelude.{Some, flat_map};
    ghost use Rattle.jc_telling.specs.Explanation.{short_text};

    ghost output = { λ s. Some (flat_map short_text s.words.now) };

    fn fmt<W: fmt::Write>(&self, f: &mut fmt::Formatter<W>) -> fmt::Result {
        for word in self.words {
            write!(f, " {}", Short { word: *word })?;
        }
        Ok(())
    }
}

/// Words with a name.
#[derive(Drop)]
struct Words<'a> {
    name: &'static str,
    words: &'a [u16],
}

impl<'a> fmt::Display for Words<'a> {
    ghost use Rattle.std.specs.Prelude.{Some};
    ghost use Rattle.jc_telling.specs.Explanation.{words_text};

    ghost output = { λ w. Some (words_text w.name.now w.words.now) };

    fn fmt<W: fmt::Write>(&self, f: &mut fmt::Formatter<W>) -> fmt::Result {
        let Words { name, words } = *self;
        if words.is_empty() {
            write!(f, ", no {name}")
        } else {
            write!(f, ", {name}{}", Shorts { words })
        }
    }
}

/// The context of a frame, its locals and its operands, if there is one.
#[derive(Drop)]
pub(crate) struct Stopped<'a> {
    pub(crate) frame: Option<&'a ShownFrame>,
}

impl<'a> fmt::Display for Stopped<'a> {
    ghost use Rattle.std.specs.Prelude.{Some, option_map};
    ghost use Rattle.jc_telling.specs.Explanation.{frame_text};

    ghost output = { λ s. Some (frame_text (option_map (λ frame. frame.now) s.frame)) };

    fn fmt<W: fmt::Write>(&self, f: &mut fmt::Formatter<W>) -> fmt::Result {
        let Some(frame) = self.frame else {
            return Ok(());
        };
        let context = frame.active.context;
        let locals = Words {
            name: "locals",
            words: frame.locals.as_slice(),
        };
        let operands = Words {
            name: "operands",
            words: frame.operands.as_slice(),
        };
        write!(f, ", context {context}{locals}{operands}")
    }
}
