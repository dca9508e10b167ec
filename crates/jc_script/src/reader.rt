//! The lines of a script, as they are read.

ghost use Rattle.std.specs.Prelude.{◌≡◌, ◌≤◌, ◌<◌, ◌==◌, ◌+◌, ◌++◌, [], length, position, drop, take, IfOk, IfErr};
ghost use Rattle.std.specs.Prelude.{IfSome, None, OnOk, Some};
ghost use Rattle.std.specs.Bool.{OnFalse, OnTrue};
ghost use Rattle.std.specs.Io.KnownBytes.{prepend_known};
ghost use Rattle.jc_script.specs.PrivateReading.{AreSkipped, Fills, ReadsOn, SkipsPart, TakesPart, TellsMore};
ghost use Rattle.jc_script.specs.PrivateReading.{told_last};
ghost use Rattle.jc_script.specs.Reading.{IsReadFault, Tells, TellsInSession, most_calls, pending};

use crate::chunk::Chunk;
use crate::command::MOST_IN_LINE;
use arrayvec::ArrayVec;
use jc_streams::{Input, Outcome};
use std::io;
use std::marker::Model;
use thiserror::Error;

/// The most lines of a script.
pub const MOST_LINES: u32 = 100_000;

/// The most calls of a reader.
const MOST_CALLS: u32 = 16_777_216;

/// Why reading a line failed.
#[derive(Debug, Drop, Error)]
pub enum ReadFault {
    /// The system reports an error.
    #[error("{0}")]
    System(io::Error),
    /// The reader was called 16,777,216 times, and didn't end.
    #[error("it was read 16777216 times and didn't end")]
    TooManyReads,
}

/// What comes next in a script.
#[derive(Clone, Copy, Debug, PartialEq, Eq)]
pub enum NextLine {
    /// A line.
    Line,
    /// The script ends.
    End,
    /// A line that is too long, or one line too many.
    Bad,
}

/// How a line goes on in a chunk.
#[derive(Clone, Copy)]
enum Part {
    /// The line ends.
    Ended,
    /// The chunk ends.
    GoesOn,
    /// The line has too many bytes.
    TooLong,
}

/// Reads the lines of a script one by one, and never more than is available: a script can be a pipe. It takes no
/// memory.
#[derive(Drop)]
pub struct ScriptReader {
    chunk: Chunk,
    calls: u32,
    line: ArrayVec<u8, MOST_IN_LINE>,
}

impl Model for ScriptReader {
    ghost use Rattle.std.specs.Prelude.{◌≤◌, length};
    ghost use Rattle.jc_script.specs.Reading.{SoFar};

    ghost Value = { SoFar };

    ghost view = { λ r. record { unread = r.chunk; line = r.line.items; calls = r.calls } };

    ghost invariant = { λ r. (length r.line.items ≤ 1024) × (r.calls ≤ 16777216) };
}

impl ScriptReader {
    /// A reader at the beginning of a script.
    pub fn new() -> ScriptReader
        ensures unread { result.unread ≡ [] }
        ensures line { result.line ≡ [] }
        ensures calls { result.calls ≡ 0 }
    {
        ScriptReader {
            chunk: Chunk::new(),
            calls: 0,
            line: ArrayVec::new(),
        }
    }

    /// The line that was read last, without its line feed: at most [`MOST_IN_LINE`] bytes.
    pub fn line(&self) -> &[u8]
        ensures line { result.now ≡ self.now.line }
        ensures short { length result.now ≤ 1024 }
    {
        self.line.as_slice()
    }

    // Reads a chunk, and returns whether bytes came.
    fn fill<R: Input>(&mut self, reader: &mut R) -> Result<bool, ReadFault>
        ensures line { self.new.line ≡ self.old.line }
        ensures filled { IfOk result
            (Fills self.new.unread (R.remaining reader.old) (R.remaining reader.new)) }
        ensures called { R.calls reader.new + self.old.calls ≡ R.calls reader.old + self.new.calls }
        ensures unread { IfErr result (IsReadFault (R.faults reader.old) (R.faults reader.new) self.new.calls) }
        ensures working { OnOk result (R.faults reader.new ≡ R.faults reader.old) }
        ensures more { OnOk result (self.old.calls < self.new.calls) }
        ensures few { self.new.calls ≤ most_calls }
    {
        while self.calls < MOST_CALLS {
            self.calls += 1;
            match self.chunk.fill(reader) {
                Outcome::Moved(count) => return Ok(count > 0),
                Outcome::Interrupted => {}
                Outcome::Failed(error) => return Err(ReadFault::System(error)),
            }
        }
        Err(ReadFault::TooManyReads)
    }

    // The index of the first unread line feed.
    fn feed(&self) -> Option<usize>
        ensures place { result ≡ position (λ b. b == 10) self.now.unread }
        ensures within { IfSome result (λ at. at < length self.now.unread) }
        ensures few { IfSome result (λ at. at < 4096) }
    {
        self.chunk.left().iter().position(|byte| *byte == b'\n')
    }

    fn unread_len(&self) -> usize
        ensures { result ≡ length self.now.unread }
    {
        self.chunk.left().len()
    }

    // Drops `count` bytes that don't belong to the line.
    fn skip(&mut self, count: usize)
        requires { count ≤ length self.old.unread }
        ensures unread { self.new.unread ≡ drop count self.old.unread }
        ensures line { self.new.line ≡ self.old.line }
        ensures short { length self.new.line ≤ 1024 }
        ensures calls { self.new.calls ≡ self.old.calls }
    {
        self.chunk.take(count);
    }

    // Moves `count` bytes to the end of the line, if there is room.
    fn take_front(&mut self, count: usize) -> bool
        requires { count ≤ length self.old.unread }
        ensures taken { self.new.unread ≡ drop count self.old.unread }
        ensures fits { OnTrue result (self.new.line ≡ self.old.line ++ take count self.old.unread) }
        ensures long { OnFalse result (1024 < length (self.old.line ++ take count self.old.unread)) }
        ensures calls { self.new.calls ≡ self.old.calls }
    {
        let fits = self
            .line
            .try_extend_from_slice(&self.chunk.left()[..count])
            .is_ok();
        self.chunk.take(count);
        fits
    }

    // Moves the bytes before a line feed to the line, and drops the line feed.
    fn take_line(&mut self, at: usize) -> Part
        requires { position (λ b. b == 10) self.old.unread ≡ Some at }
        ensures part { TakesPart self.old self.new result }
        ensures calls { self.new.calls ≡ self.old.calls }
    {
        if !self.take_front(at) {
            return Part::TooLong;
        }
        self.skip(1);
        Part::Ended
    }

    // Moves all unread bytes, which have no line feed, to the line.
    fn take_all(&mut self) -> Part
        requires { position (λ b. b == 10) self.old.unread ≡ None }
        ensures part { TakesPart self.old self.new result }
        ensures calls { self.new.calls ≡ self.old.calls }
    {
        if self.take_front(self.unread_len()) {
            Part::GoesOn
        } else {
            Part::TooLong
        }
    }

    // Moves the unread bytes up to a line feed to the line.
    fn take_part(&mut self) -> Part
        ensures part { TakesPart self.old self.new result }
        ensures calls { self.new.calls ≡ self.old.calls }
    {
        match self.feed() {
            Some(at) => self.take_line(at),
            None => self.take_all(),
        }
    }

    // The next line, if its number is allowed.
    fn next_short<R: Input>(&mut self, reader: &mut R) -> Result<NextLine, ReadFault>
        requires { self.old.line ≡ [] }
        ensures read { IfOk result (ReadsOn self.new.line (pending self.old.unread (R.remaining reader.old))
            (pending self.new.unread (R.remaining reader.new))) }
        ensures called { R.calls reader.new + self.old.calls ≡ R.calls reader.old + self.new.calls }
        ensures unread { IfErr result (IsReadFault (R.faults reader.old) (R.faults reader.new) self.new.calls) }
        ensures working { OnOk result (R.faults reader.new ≡ R.faults reader.old) }
    {
        loop {
            match self.take_part() {
                Part::Ended => return Ok(NextLine::Line),
                Part::TooLong => return Ok(NextLine::Bad),
                Part::GoesOn => {}
            }
            if !self.fill(reader)? {
                return Ok(self.last());
            }
        }
    }

    // What comes if nothing is left to read.
    fn last(&self) -> NextLine
        ensures told { result ≡ told_last self.now.line }
        ensures short { length self.now.line ≤ 1024 }
    {
        if self.line.is_empty() {
            NextLine::End
        } else {
            NextLine::Line
        }
    }

    // What comes if a line's number would be too great.
    fn next_past<R: Input>(&mut self, reader: &mut R) -> Result<NextLine, ReadFault>
        ensures told { IfOk result (TellsMore (pending self.old.unread (R.remaining reader.old))
            (pending self.new.unread (R.remaining reader.new))) }
        ensures called { R.calls reader.new + self.old.calls ≡ R.calls reader.old + self.new.calls }
        ensures unread { IfErr result (IsReadFault (R.faults reader.old) (R.faults reader.new) self.new.calls) }
        ensures working { OnOk result (R.faults reader.new ≡ R.faults reader.old) }
    {
        if self.chunk.is_empty() && !self.fill(reader)? {
            Ok(NextLine::End)
        } else {
            Ok(NextLine::Bad)
        }
    }

    // Drops the unread bytes of a line and its line feed, and returns whether there was a line feed.
    fn skip_part(&mut self) -> bool
        ensures line { self.new.line ≡ self.old.line }
        ensures skipped { SkipsPart self.old.unread self.new.unread result }
        ensures calls { self.new.calls ≡ self.old.calls }
    {
        match self.feed() {
            Some(at) => {
                self.skip(at + 1);
                true
            }
            None => {
                self.skip(self.unread_len());
                false
            }
        }
    }

    // Drops the rest of a line, with its line feed, if it has one.
    fn skip_rest<R: Input>(&mut self, reader: &mut R) -> Result<(), ReadFault>
        ensures skipped { IfOk result (λ u. AreSkipped (pending self.old.unread (R.remaining reader.old))
            (pending self.new.unread (R.remaining reader.new))) }
        ensures called { R.calls reader.new + self.old.calls ≡ R.calls reader.old + self.new.calls }
        ensures unread { IfErr result (IsReadFault (R.faults reader.old) (R.faults reader.new) self.new.calls) }
        ensures working { OnOk result (R.faults reader.new ≡ R.faults reader.old) }
    {
        loop {
            if self.skip_part() {
                return Ok(());
            }
            if !self.fill(reader)? {
                return Ok(());
            }
        }
    }

    /// Reads the next line of a session, which may have any number of lines. If the reader's bytes are known: a line
    /// was taken off; or none is left; or a line that is too long was taken off, whole, and isn't returned.
    pub fn next_in_session<R: Input>(&mut self, reader: &mut R) -> Result<NextLine, ReadFault>
        ensures told { IfOk result (TellsInSession self.new.line (pending self.old.unread (R.remaining reader.old))
            (pending self.new.unread (R.remaining reader.new))) }
        ensures called { R.calls reader.new + self.old.calls ≡ R.calls reader.old + self.new.calls }
        ensures unread { IfErr result (IsReadFault (R.faults reader.old) (R.faults reader.new) self.new.calls) }
        ensures working { OnOk result (R.faults reader.new ≡ R.faults reader.old) }
    {
        self.line.clear();
        match self.next_short(reader)? {
            NextLine::Line => Ok(NextLine::Line),
            NextLine::End => Ok(NextLine::End),
            NextLine::Bad => {
                self.skip_rest(reader)?;
                Ok(NextLine::Bad)
            }
        }
    }

    /// Reads the line with a number, from 1 on. If the reader's bytes are known: a line was taken off; or none is left;
    /// or the first one left is too long, or its number is too great. It reads no byte after a line that isn't
    /// complete.
    pub fn next<R: Input>(&mut self, reader: &mut R, number: u32) -> Result<NextLine, ReadFault>
        ensures told { IfOk result (Tells number self.new.line (pending self.old.unread (R.remaining reader.old))
            (pending self.new.unread (R.remaining reader.new))) }
        ensures called { R.calls reader.new + self.old.calls ≡ R.calls reader.old + self.new.calls }
        ensures unread { IfErr result (IsReadFault (R.faults reader.old) (R.faults reader.new) self.new.calls) }
        ensures working { OnOk result (R.faults reader.new ≡ R.faults reader.old) }
    {
        self.line.clear();
        if number <= MOST_LINES {
            self.next_short(reader)
        } else {
            self.next_past(reader)
        }
    }
}
