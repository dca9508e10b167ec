//! The program of the card.
#![tactic(auto)]

mod ending;
mod play;
mod ran;
mod telling;

use ending::end_play;
use jc_host::{
    CardJob, HostFiles, HostScripts, Patient, Reply, RunJob, Said, ShownName, VerifyJob,
    WholeLines, end_with, older_stays, refused_folder, said_of_job, said_to, said_without_words,
};
use jc_streams::{CountedInput, CountedOutput};
use play::PlayFault;
use ran::{run, session};
use std::io::{Stderr, Write};
use std::process::ExitCode;
use std::{env, io};
use telling::LineTeller;

fn main(rt: HostRuntime) -> ExitCode {
    match words_given(&rt) {
        Ok(words) => reply_to(&rt, &words),
        Err(error) => end(&rt, &said_without_words(&error)),
    }
}

// The words of the command line.
fn words_given(rt: &HostRuntime) -> io::Result<Vec<String>> {
    Ok(env::args(rt)?.collect(rt.alloc())?)
}

// Performs the job of a command line, and writes its message.
fn reply_to(rt: &HostRuntime, words: &[String]) -> ExitCode {
    match said_to(rt.alloc(), words) {
        Reply::Said(said) => end(rt, &said),
        Reply::Verify(job) => verify_job(rt, &job),
        Reply::Run(job) => end_of_play(rt, &run_job(rt, &job)),
        Reply::Session(job) => end_of_play(rt, &session_job(rt, &job)),
    }
}

// Verifies a package, and writes its message. If no certificate is written, and an older file stays in its place, it
// reports that.
fn verify_job(rt: &HostRuntime, job: &VerifyJob) -> ExitCode {
    let mut files = HostFiles::new(rt);
    let said = said_of_job(&mut files, rt.alloc(), job);
    let stays = older_stays(&files, job, &said);
    let refused = refused_folder(&files, rt.alloc(), job, &said);
    let code = end(rt, &said);
    let mut errors = WholeLines::new(rt.stderr());
    if let Some(refused) = refused {
        let _told = writeln!(errors, "{refused}");
    }
    if stays {
        let cert = ShownName { name: job.cert };
        let _told = writeln!(errors, "{cert}: not written, an older file stays");
    }
    code
}

// Plays a script with the system's files, standard output for its answers, and standard error.
fn run_job(rt: &HostRuntime, job: &RunJob) -> Result<(), PlayFault> {
    run(
        &HostFiles::new(rt),
        &mut HostScripts::new(rt),
        rt.alloc(),
        &mut CountedOutput::new(Patient::new(io::writer(rt), rt)),
        &mut teller_for(rt, &job.card),
        job,
    )
}

// The teller of a job, which writes to standard error.
fn teller_for(rt: &HostRuntime, job: &CardJob) -> LineTeller<WholeLines<Stderr>> {
    LineTeller::new(WholeLines::new(rt.stderr()), job.limits, job.explains)
}

// The same for a session, whose lines are those of standard input.
fn session_job(rt: &HostRuntime, job: &CardJob) -> Result<(), PlayFault> {
    session(
        &HostFiles::new(rt),
        rt.alloc(),
        &mut CountedInput::new(rt.stdin()),
        &mut CountedOutput::new(Patient::new(io::writer(rt), rt)),
        &mut teller_for(rt, job),
        job,
    )
}

// Writes a message to the program's streams.
fn end(rt: &HostRuntime, said: &Said) -> ExitCode {
    ExitCode::from(end_with(
        &mut Patient::new(io::writer(rt), rt),
        &mut WholeLines::new(rt.stderr()),
        said,
    ))
}

// Writes on standard error why a play ended early.
fn end_of_play(rt: &HostRuntime, played: &Result<(), PlayFault>) -> ExitCode {
    ExitCode::from(end_play(&mut WholeLines::new(rt.stderr()), played))
}
