//! The end of the program: it writes its message, and its exit status shows the result.

ghost use Rattle.std.specs.Prelude.{◌≡◌, None, OnOk};
ghost use Rattle.jc_host.specs.Ending.{IsEnd, IsMessageTo};
ghost use Rattle.jc_host.specs.Saying.{remark_of, status_number};
ghost use Rattle.jc_host.specs.declared.saying.Status.TheVariants.{Failure};

use crate::saying::{Said, Status, Stream, remark_of};
use std::io::{self, Write};

/// Writes the final message, and returns the exit status. If the message can't be written, it reports that on standard
/// error, if it can.
pub fn end_with<W: Write, E: Write>(output: &mut W, errors: &mut E, said: &Said) -> u8
    ensures { IsEnd W.contents E.contents output.old output.new errors.old errors.new said.now result }
{
    match write_said(output, errors, said) {
        Ok(()) => said.status.number(),
        Err(error) => unwritten(errors, &error),
    }
}

// Writes a message to its stream.
fn write_said<W: Write, E: Write>(output: &mut W, errors: &mut E, said: &Said) -> io::Result<()>
    ensures { OnOk result (IsMessageTo said.now.stream W.contents E.contents output.old output.new errors.old errors.new
        said.now.message) }
{
    match said.stream {
        Stream::Output => {
            write!(output, "{}", said.message)?;
            remark(errors, said);
            Ok(())
        }
        Stream::Errors => write!(errors, "{}", said.message),
    }
}

// Writes the remark of a message, if it can.
fn remark<E: Write>(errors: &mut E, said: &Said)
    ensures { remark_of said.now.message ≡ None → errors.new ≡ errors.old }
{
    if let Some(remark) = remark_of(&said.message) {
        let _told = write!(errors, "{remark}");
    }
}

/// The exit status if the message can't be written. It reports that, if it can.
pub fn unwritten<E: Write>(errors: &mut E, error: &io::Error) -> u8
    ensures { result ≡ status_number Failure }
{
    let _told = writeln!(errors, "error: the answer can't be written: {error}");
    Status::Failure.number()
}
