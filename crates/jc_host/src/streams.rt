//! The streams of the program's output: a writer that waits, and one that writes whole lines.

ghost use Rattle.std.specs.Prelude.{◌≡◌};

use arrayvec::ArrayVec;
use std::io::{self, Write};
use std::thread;
use std::time::{Clock, Duration};

/// How many milliseconds a writer waits before it calls the system again.
const PAUSE: u64 = 1;

/// A writer that waits if the system has no room for the bytes: then its call reports an interruption, so it is
/// repeated.
#[derive(Drop)]
pub struct Patient<'a, W: Write, C: Clock> {
    writer: W,
    clock: &'a C,
}

impl<'a, W: Write, C: Clock> Patient<'a, W, C> {
    pub fn new(writer: W, clock: &'a C) -> Patient<'a, W, C> {
        Patient { writer, clock }
    }
}

impl<'a, W: Write, C: Clock> Write for Patient<'a, W, C> {
    fn write(&mut self, bytes: &[u8]) -> io::Result<usize> {
        let written = self.writer.write(bytes);
        match written {
            Err(error) if error.kind() == io::ErrorKind::WouldBlock => {
                thread::sleep(self.clock, Duration::from_millis(PAUSE));
                Err(io::Error::from(io::ErrorKind::Interrupted))
            }
            other => other,
        }
    }

    fn flush(&mut self) -> io::Result<()> {
        self.writer.flush()
    }
}

/// The most bytes of a line that is written at once.
const MOST_IN_LINE: usize = 8192;

/// A writer that passes on each line in one write, so no other program's output comes between. It passes on a longer
/// line in parts.
#[derive(Drop)]
pub struct WholeLines<W: Write> {
    writer: W,
    line: ArrayVec<u8, MOST_IN_LINE>,
}

impl<W: Write> WholeLines<W> {
    pub fn new(writer: W) -> WholeLines<W> {
        WholeLines {
            writer,
            line: ArrayVec::new(),
        }
    }
}

impl<W: Write> Write for WholeLines<W> {
    fn write(&mut self, bytes: &[u8]) -> io::Result<usize> {
        let count = self.line.remaining_capacity().min(bytes.len());
        let _fits = self.line.try_extend_from_slice(&bytes[..count]);
        if self.line.is_full() || bytes[..count].ends_with(b"\n") {
            self.flush()?;
        }
        Ok(count)
    }

    fn flush(&mut self) -> io::Result<()> {
        let written = self.writer.write_all(self.line.as_slice());
        self.line.clear();
        written?;
        self.writer.flush()
    }
}
