//! The program's messages for a command line.

ghost use Rattle.std.specs.Prelude.{◌≡◌, map};
ghost use Rattle.std.specs.IoError.{error_kind};
ghost use Rattle.jc_host.specs.PrivateSaying.{IsSaidOfCode};
ghost use Rattle.jc_host.specs.Saying.{IsFailure, IsMisuse, IsReply, IsSaidOfFiles, IsSaidOfLine};
ghost use Rattle.jc_host.specs.Saying.{IsSaidOfVerified, IsSaidWithoutWords, IsSuccess, is_certified, may_be_written};
ghost use Rattle.jc_host.specs.Saying.{remark_of, status_number, uncertified_status};

use crate::answer::EvalAnswer;
use crate::files::{FileFault, ReadFault};
use crate::job::{CardJob, Job, RunJob, VerifyJob};
use crate::line::{LineFault, job};
use crate::texts::{TextFault, answer_of};
use clap::Error;
use jc_check::Fault;
use jc_offcard::VerifyAnswer;
use std::alloc::Global;
use std::convert::AsStr;
use std::{fmt, io};

/// The stream of a message.
#[derive(Clone, Copy, Debug, PartialEq, Eq)]
pub enum Stream {
    /// Standard output.
    Output,
    /// Standard error.
    Errors,
}

/// The status with which the program ends.
#[derive(Clone, Copy, Debug, PartialEq, Eq)]
pub enum Status {
    /// The message is what was asked for.
    Success,
    /// There is no answer.
    Failure,
    /// The command line is wrong.
    Misuse,
    /// No certificate was written, and the status was to show that.
    Uncertified,
}

impl Status {
    /// The exit status: 0 to 3.
    pub fn number(self) -> u8
        ensures { result ≡ status_number self }
    {
        match self {
            Status::Success => 0,
            Status::Failure => 1,
            Status::Misuse => 2,
            Status::Uncertified => 3,
        }
    }
}

/// A message. Its `Display` prints whole lines.
#[derive(Debug, Drop)]
pub enum Message {
    /// The line of an answer.
    Answer(EvalAnswer),
    /// Why there is no answer.
    Fault(TextFault),
    /// The line of an answer to a package.
    Verified(VerifyAnswer),
    /// A file can't be read or written.
    File(FileFault),
    /// Clap's message for a line that is no job, or that asks for help.
    Line(Error),
    /// One of the words isn't UTF-8.
    NotText,
}

impl fmt::Display for Message {
    ghost use Rattle.jc_host.specs.Saying.{text_of};

    ghost output = { text_of };

    fn fmt<W: fmt::Write>(&self, f: &mut fmt::Formatter<W>) -> fmt::Result {
        match self {
            Message::Answer(answer) => write!(f, "{answer}\n"),
            Message::Fault(fault) => write!(f, "error: {fault}\n"),
            Message::Verified(answer) => write!(f, "{answer}\n"),
            Message::File(fault) => write!(f, "error: {fault}\n"),
            Message::Line(error) => write!(f, "{error}"),
            Message::NotText => write!(f, "error: an argument isn't UTF-8\n"),
        }
    }
}

/// A message, its stream, and the status with which the program ends.
#[derive(Debug, Drop)]
pub struct Said {
    pub stream: Stream,
    pub message: Message,
    pub status: Status,
}

/// The reply to a command line.
#[derive(Debug, Drop)]
pub enum Reply<'a> {
    /// Writes a message.
    Said(Said),
    /// Verifies a package, and then writes a message.
    Verify(VerifyJob<'a>),
    /// Plays a script, and writes a message if it ends early.
    Run(RunJob<'a>),
    /// Holds a session, and writes a message if it ends early.
    Session(CardJob<'a>),
}

/// A remark besides a message, on standard error: the method without a certificate, and where its inference ends. Its
/// `Display` prints a whole line.
#[derive(Clone, Copy, Debug, PartialEq, Eq)]
pub struct Remark {
    pub method: u16,
    pub fault: Fault,
}

impl fmt::Display for Remark {
    ghost use Rattle.std.specs.Prelude.{◌++◌, Some};
    ghost use Rattle.jc_host.specs.Saying.{line_feed, remark_line};

    ghost output = { λ remark. Some (remark_line remark ++ line_feed) };

    fn fmt<W: fmt::Write>(&self, f: &mut fmt::Formatter<W>) -> fmt::Result {
        let Remark { method, fault } = *self;
        let Fault { pc, reason } = fault;
        write!(f, "no certificate: method {method}, pc {pc}: {reason}\n")
    }
}

/// The remark of a message, if it has one.
pub fn remark_of(message: &Message) -> Option<Remark>
    ensures { result ≡ remark_of message.now }
{
    match message {
        Message::Verified(VerifyAnswer::NoCertificate { method, fault }) => Some(Remark {
            method: *method,
            fault: *fault,
        }),
        _ => None,
    }
}

/// The reply to the words of a command line, of which the first is the program's name.
pub fn said_to<'a, S: AsStr>(alloc: Global, words: &'a [S]) -> Reply<'a>
    ensures { IsReply (map S.text words.entry.now) result }
{
    match job(alloc, words) {
        Ok(Job::Eval { code, cert, steps }) => Reply::Said(said_of_code(alloc, code, cert, steps)),
        Ok(Job::Verify(job)) => Reply::Verify(job),
        Ok(Job::Run(job)) => Reply::Run(job),
        Ok(Job::Session(job)) => Reply::Session(job),
        Err(LineFault::Line(error)) => Reply::Said(said_of_line(error)),
        Err(LineFault::Memory) => Reply::Said(failed(TextFault::Memory)),
    }
}

/// The message if the words can't be read.
pub fn said_without_words(error: &io::Error) -> Said
    ensures { IsSaidWithoutWords (error_kind error.now) result }
{
    if error.kind() == io::ErrorKind::OutOfMemory {
        failed(TextFault::Memory)
    } else {
        misused(Message::NotText)
    }
}

/// The status of the answer to a package without a certificate.
fn uncertified(strict: bool) -> Status
    ensures { result ≡ uncertified_status strict }
{
    if strict {
        Status::Uncertified
    } else {
        Status::Success
    }
}

/// The message for the answer to a package. The status shows that no certificate was written only if `strict` holds.
pub fn said_of_verified(strict: bool, answer: VerifyAnswer) -> Said
    ensures { IsSaidOfVerified strict answer result }
{
    match answer {
        VerifyAnswer::Memory => failed(TextFault::Memory),
        VerifyAnswer::Certificate(bytes) => Said {
            stream: Stream::Output,
            message: Message::Verified(VerifyAnswer::Certificate(bytes)),
            status: Status::Success,
        },
        VerifyAnswer::NoCertificate { method, fault } => Said {
            stream: Stream::Output,
            message: Message::Verified(VerifyAnswer::NoCertificate { method, fault }),
            status: uncertified(strict),
        },
        VerifyAnswer::Refused(fault) => Said {
            stream: Stream::Output,
            message: Message::Verified(VerifyAnswer::Refused(fault)),
            status: uncertified(strict),
        },
    }
}

// Whether the certificate's file may have been written to.
pub(crate) fn may_be_written(path: &str, message: &Message) -> bool
    ensures { result ≡ may_be_written path.now message.now }
{
    match message {
        Message::Fault(_) => true,
        Message::Verified(answer) => is_certified(answer),
        Message::File(fault) => fault.name.as_str() == path,
        Message::Answer(_) | Message::Line(_) | Message::NotText => false,
    }
}

fn is_certified(answer: &VerifyAnswer) -> bool
    ensures { result ≡ is_certified answer.now }
{
    match answer {
        VerifyAnswer::Certificate(_) => true,
        _ => false,
    }
}

/// The message if files can't be read or written.
pub fn said_of_files(fault: ReadFault) -> Said
    ensures { IsSaidOfFiles fault result }
{
    match fault {
        ReadFault::File(fault) => unanswered(Message::File(fault)),
        ReadFault::Memory => failed(TextFault::Memory),
    }
}

// The message for code and a certificate.
fn said_of_code(alloc: Global, code: &str, cert: &str, steps: u32) -> Said
    ensures { IsSaidOfCode code.now cert.now steps result }
{
    match answer_of(alloc, code, cert, steps) {
        Ok(answer) => answered(answer),
        Err(fault) => failed(fault),
    }
}

fn answered(answer: EvalAnswer) -> Said
    ensures message { result.message ≡ Message.Answer answer }
    ensures success { IsSuccess result }
{
    Said {
        stream: Stream::Output,
        message: Message::Answer(answer),
        status: Status::Success,
    }
}

fn failed(fault: TextFault) -> Said
    ensures message { result.message ≡ Message.Fault fault }
    ensures failure { IsFailure result }
{
    unanswered(Message::Fault(fault))
}

fn unanswered(message: Message) -> Said
    ensures message { result.message ≡ message }
    ensures failure { IsFailure result }
{
    Said {
        stream: Stream::Errors,
        message,
        status: Status::Failure,
    }
}

fn misused(message: Message) -> Said
    ensures message { result.message ≡ message }
    ensures misuse { IsMisuse result }
{
    Said {
        stream: Stream::Errors,
        message,
        status: Status::Misuse,
    }
}

// Clap's message; help is what was asked for.
fn said_of_line(error: Error) -> Said
    ensures message { result.message ≡ Message.Line error }
    ensures said { IsSaidOfLine error result }
{
    if error.use_stderr() {
        return misused(Message::Line(error));
    }
    Said {
        stream: Stream::Output,
        message: Message::Line(error),
        status: Status::Success,
    }
}
