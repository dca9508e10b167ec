//! What one call of a reader or a writer came to.

ghost use Rattle.std.specs.Prelude.{◌≡◌, length};
ghost use Rattle.jc_streams.specs.PrivateStreams.{IsFlushed, IsOutcome, IsTaken};

use std::io;

/// What one call of a reader or a writer came to.
#[derive(Debug, Drop)]
pub enum Outcome {
    /// So many bytes were read or written. A reader gives none only at its end or if there is no room.
    Moved(usize),
    /// The call was interrupted, and no byte was read or written.
    Interrupted,
    /// The call failed, and no byte was read or written.
    Failed(io::Error),
}

/// What a result of the system says of one call.
pub(crate) fn outcome_of(called: io::Result<usize>) -> Outcome
    ensures { IsOutcome called result }
{
    match called {
        Ok(count) => Outcome::Moved(count),
        Err(error) if error.kind() == io::ErrorKind::Interrupted => Outcome::Interrupted,
        Err(error) => Outcome::Failed(error),
    }
}

/// What a result of the system says of one call of a writer with some bytes. A call that takes none of them has failed.
pub(crate) fn taken_of(called: io::Result<usize>, bytes: &[u8]) -> Outcome
    ensures { IsTaken called (length bytes.now) result }
{
    match outcome_of(called) {
        Outcome::Moved(0) if !bytes.is_empty() => {
            Outcome::Failed(io::Error::from(io::ErrorKind::WriteZero))
        }
        outcome => outcome,
    }
}

/// What a result of the system says of one call that flushes a writer.
pub(crate) fn flushed_of(called: io::Result<()>) -> Outcome
    ensures { IsFlushed called result }
{
    match called {
        Ok(()) => Outcome::Moved(0),
        Err(error) if error.kind() == io::ErrorKind::Interrupted => Outcome::Interrupted,
        Err(error) => Outcome::Failed(error),
    }
}
