//! Writing the lines of answers.

ghost use Rattle.std.specs.Prelude.{◌≡◌, ◌≤◌, ◌<◌, suc, length, take, IfOk, OnOk, OnErr};
ghost use Rattle.std.specs.Io.KnownBytes.{Appends, Keeps};
ghost use Rattle.jc_run.specs.Answer.{shown};
ghost use Rattle.jc_run.specs.EndCauses.{IsUnwritable};
ghost use Rattle.jc_run.specs.Play.{answer_line};
ghost use Rattle.jc_run.specs.PrivatePlay.{AppendsPart};

use crate::answer::CommandAnswer;
use crate::line::put_line;
use arrayvec::ArrayVec;
use jc_streams::{Outcome, Output};
use std::io;

/// The most calls of a writer for one line, and the most to flush it.
const MOST_CALLS: u32 = 16_777_216;

/// Writes the first of these bytes, and returns how many. A call that was interrupted wrote none.
fn write_some<W: Output>(writer: &mut W, bytes: &[u8]) -> io::Result<usize>
    ensures few { IfOk result (λ count. count ≤ length bytes.now) }
    ensures written { IfOk result (λ count. Appends (W.contents writer.old) (W.contents writer.new)
        (take count bytes.now)) }
    ensures kept { OnErr result (Keeps (W.contents writer.old) (W.contents writer.new)) }
    ensures called { W.calls writer.new ≡ suc (W.calls writer.old) }
    ensures working { OnOk result (W.faults writer.new ≡ W.faults writer.old) }
    ensures failed { OnErr result (W.faults writer.new ≡ suc (W.faults writer.old)) }
{
    match writer.write(bytes) {
        Outcome::Moved(count) => Ok(count),
        Outcome::Interrupted => Ok(0),
        Outcome::Failed(error) => Err(error),
    }
}

/// Writes these bytes, or after a fault the first of them.
fn write_whole<W: Output>(writer: &mut W, bytes: &[u8]) -> io::Result<()>
    ensures written { OnOk result (Appends (W.contents writer.old) (W.contents writer.new) bytes.now) }
    ensures part { OnErr result (AppendsPart (W.contents writer.old) (W.contents writer.new) bytes.now) }
    ensures called { W.calls writer.old ≤ W.calls writer.new }
    ensures working { OnOk result (W.faults writer.new ≡ W.faults writer.old) }
    ensures unwritable { OnErr result
        (IsUnwritable (W.calls writer.old) (W.calls writer.new) (W.faults writer.old) (W.faults writer.new)) }
{
    let mut done = 0;
    let mut calls = 0;
    while calls < MOST_CALLS {
        if done == bytes.len() {
            return Ok(());
        }
        done += write_some(writer, &bytes[done..])?;
        calls += 1;
    }
    Err(io::Error::from(io::ErrorKind::Interrupted))
}

/// Flushes a writer.
fn flush<W: Output>(writer: &mut W) -> io::Result<()>
    ensures kept { Keeps (W.contents writer.old) (W.contents writer.new) }
    ensures called { W.calls writer.old < W.calls writer.new }
    ensures working { OnOk result (W.faults writer.new ≡ W.faults writer.old) }
    ensures unwritable { OnErr result
        (IsUnwritable (W.calls writer.old) (W.calls writer.new) (W.faults writer.old) (W.faults writer.new)) }
{
    let mut calls = 0;
    while calls < MOST_CALLS {
        match writer.flush() {
            Outcome::Moved(_) => return Ok(()),
            Outcome::Interrupted => {}
            Outcome::Failed(error) => return Err(error),
        }
        calls += 1;
    }
    Err(io::Error::from(io::ErrorKind::Interrupted))
}

/// Writes the whole line of an answer, with its line feed, and flushes the writer. If that fails, the first bytes of
/// the line may be written.
pub(crate) fn write_answer<W: Output>(writer: &mut W, answer: &CommandAnswer) -> io::Result<()>
    ensures written { OnOk result (Appends (W.contents writer.old) (W.contents writer.new)
        (answer_line (shown answer.now))) }
    ensures part { OnErr result (AppendsPart (W.contents writer.old) (W.contents writer.new)
        (answer_line (shown answer.now))) }
    ensures called { W.calls writer.old ≤ W.calls writer.new }
    ensures working { OnOk result (W.faults writer.new ≡ W.faults writer.old) }
    ensures unwritable { OnErr result
        (IsUnwritable (W.calls writer.old) (W.calls writer.new) (W.faults writer.old) (W.faults writer.new)) }
{
    let mut line = ArrayVec::new();
    put_line(&mut line, answer);
    write_whole(writer, line.as_slice())?;
    flush(writer)
}
