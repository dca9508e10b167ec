//! The command line: `jcard eval CODE [CERT] [--steps N]`, `jcard verify FOLDER CERT [EARLIER..] [--binding FILE]
//! [--strict]`, and with the options of a card `jcard run SCRIPT` and `jcard session`: `[--steps N] [--objects N]
//! [--cells N] [--frames N] [--words N] [--binding FILE] [--explain]`. `jcard --version` prints the version of the
//! program.

ghost use Rattle.std.specs.Prelude.{◌≡◌, map, IfErr, IfOk};
ghost use Rattle.clap.specs.Words.{app_of, found_of, rows_of, subcommand_rows_of};
ghost use Rattle.jc_host.specs.declared.line.LineFault.TheVariants.{Memory};
ghost use Rattle.jc_host.specs.Line.{AreEarlier, AreLimits, AreSteps, Finds, IsCardOf, IsEvalAmong, IsEvalOf};
ghost use Rattle.jc_host.specs.Line.{IsFaultFrom, IsFlag, IsJobAmong, IsJobFor, IsLineFault, IsNumberUnder};
ghost use Rattle.jc_host.specs.Line.{IsRunAmong, IsRunOf, IsSessionAmong, IsSessionOf, IsVerifyAmong, IsVerifyOf};
ghost use Rattle.jc_host.specs.Line.{binding_rule, card_app, cells_rule, eval_app, flag_rule, frames_rule};
ghost use Rattle.jc_host.specs.Line.{number_rule, objects_rule, required_rule, run_app, session_app, steps_rule};
ghost use Rattle.jc_host.specs.Line.{verify_app, words_rule};
ghost use Rattle.jc_host.specs.PrivateLine.{AddsCard, IsArgument, IsCardAmong, IsCommand};

use crate::job::{CardJob, Job, RunJob, VerifyJob};
use clap::builder::ValueParser;
use clap::error::ErrorKind;
use clap::{Arg, ArgAction, ArgMatches, Command, Error, value_parser};
use jc_machine::Limits;
use std::alloc::{AllocError, Global};
use std::convert::AsStr;

// The output of `--version` after the program's name.
const VERSION: &str = "1.0.0";

// The help of `verify` about folders.
const FOLDER_HELP: &str =
    "A folder holds the component files of a package: Header.cap, Applet.cap, Import.cap, ConstantPool.cap,
Class.cap, Method.cap, StaticField.cap, Export.cap, Descriptor.cap. One that isn't there is left out; other
files are ignored.";

// The help of `run` about scripts.
const SCRIPT_HELP: &str =
    "A line of the script is one of these, and each is answered before the next one is read:

  load FOLDER CERT                 loads the package in a folder, with the certificate that verify wrote
  install APPLET INSTANCE [DATA]   installs the applet with an AID, as an instance with this or another AID
  apdu BYTES                       sends a command
  reset                            resets the card

AIDs, DATA and BYTES are in hexadecimal. An empty line, or one that begins with #, says nothing. For example:

  printf 'apdu 00A4040006F00102031001\\nreset\\n' | jcard run /dev/stdin

answers `sw 6999`, since no applet has that AID yet, and `reset`.";

// The help of `session` about lines.
const SESSION_HELP: &str =
    "A line of standard input is one of these, and each is answered before the next one is read:

  load FOLDER CERT                 loads the package in a folder, with the certificate that verify wrote
  install APPLET INSTANCE [DATA]   installs the applet with an AID, as an instance with this or another AID
  apdu BYTES                       sends a command
  reset                            resets the card
  cells                            tells how many cells are used, and how many there may be
  objects                          tells how many objects are used, and how many there may be
  steps N                          lets a call of an applet run at most N instructions from now on

AIDs, DATA and BYTES are in hexadecimal, BYTES in one word or several. FOLDER and CERT may stand in quotes. An empty
line, or one that begins with #, says nothing. A line that can't be read, or of which a folder or a file can't be
read, is answered on standard error, and the session goes on. It ends with the input. For example:

  printf 'objects\\napdu 00A4040006F00102031001\\n' | jcard session

answers `objects 45 of 32767`, since a new card has no objects but the runtime's, and `sw 6999`.";

/// Why there is no job.
#[derive(Debug, Drop)]
pub enum LineFault {
    /// The words are no job, or ask for help: the text of the answer, and where to print it.
    Line(Error),
    /// No memory was left.
    Memory,
}

impl From<Error> for LineFault {
    ghost from_gives = { IsFaultFrom };

    fn from(error: Error) -> LineFault {
        if error.kind() == ErrorKind::OutOfMemory {
            LineFault::Memory
        } else {
            LineFault::Line(error)
        }
    }
}

impl From<AllocError> for LineFault {
    ghost from_gives = { λ _ fault. fault ≡ Memory };

    fn from(_error: AllocError) -> LineFault {
        LineFault::Memory
    }
}

/// Parses the words of a command line, of which the first is the program's name.
pub fn job<'a, S: AsStr>(alloc: Global, words: &'a [S]) -> Result<Job<'a>, LineFault>
    ensures said { IfOk result (IsJobFor (map S.text words.entry.now)) }
    ensures refused { IfErr result (IsLineFault (map S.text words.entry.now)) }
{
    let mut program = card_command(alloc)?;
    let matches = program.try_get_matches_from_mut(words)?;
    let named = named_job(alloc, &matches)?;
    match named {
        Some(job) => Ok(job),
        None => Err(LineFault::from(program.error(
            ErrorKind::MissingSubcommand,
            "no job is named",
        )?)),
    }
}

// The program, which needs a subcommand.
fn card_command<'a>(alloc: Global) -> Result<Command<'a>, AllocError>
    ensures { IfOk result (λ c. app_of c ≡ card_app) }
{
    Command::new(alloc, "jcard")
        .version(VERSION)
        .about(
            "Verifies packages of a Java Card, plays scripts on a card, and checks and runs code",
        )
        .subcommand_required(true)
        .subcommand(eval_command(alloc)?)?
        .subcommand(verify_command(alloc)?)?
        .subcommand(run_command(alloc)?)?
        .subcommand(session_command(alloc)?)
}

// `eval CODE [CERT] [--steps N]`.
fn eval_command<'a>(alloc: Global) -> Result<Command<'a>, AllocError>
    ensures { IfOk result (IsCommand eval_app) }
{
    let code = required_argument(
        alloc,
        "CODE",
        "The code of a method, in hexadecimal: at most 65,535 bytes",
    );
    let cert = Arg::new(alloc, "CERT")
        .default_value("0000")
        .help("The code's certificate, in hexadecimal");
    let steps = steps_argument(
        alloc,
        "How many instructions are run at most, from 1 to 4294967295",
    );
    Command::new(alloc, "eval")
        .about("Checks code with a certificate and runs it")
        .arg(code)?
        .arg(cert)?
        .arg(steps)
}

// `verify FOLDER CERT [EARLIER..] [--binding FILE] [--strict]`.
fn verify_command<'a>(alloc: Global) -> Result<Command<'a>, AllocError>
    ensures { IfOk result (IsCommand verify_app) }
{
    let folder = required_argument(alloc, "FOLDER", "The folder of the package");
    let cert = required_argument(alloc, "CERT", "The file that the certificate is written to");
    let earlier = Arg::new(alloc, "EARLIER").action(ArgAction::Append).help(
        "The folders of the packages that a card has before it, in the order in which it loaded them",
    );
    let strict = flag_argument(
        alloc,
        "strict",
        "Ends with status 3 where no certificate is written",
    );
    Command::new(alloc, "verify")
        .about("Works out the certificate of a package")
        .after_help(FOLDER_HELP)
        .arg(folder)?
        .arg(cert)?
        .arg(earlier)?
        .arg(binding_argument(alloc))?
        .arg(strict)
}

// `run SCRIPT`, with the options of a card.
fn run_command<'a>(alloc: Global) -> Result<Command<'a>, AllocError>
    ensures { IfOk result (IsCommand run_app) }
{
    let script = required_argument(
        alloc,
        "SCRIPT",
        "The file of the script: lines with load, install, apdu or reset",
    );
    let command = Command::new(alloc, "run")
        .about("Plays a script on a new card")
        .after_help(SCRIPT_HELP)
        .arg(script)?;
    with_card(alloc, command)
}

// `session`, with the options of a card.
fn session_command<'a>(alloc: Global) -> Result<Command<'a>, AllocError>
    ensures { IfOk result (IsCommand session_app) }
{
    let command = Command::new(alloc, "session")
        .about("Answers lines of standard input on a new card, one by one")
        .after_help(SESSION_HELP);
    with_card(alloc, command)
}

// Adds the options of a card to a command: `[--steps N] [--objects N] [--cells N] [--frames N] [--words N] [--binding
// FILE] [--explain]`.
fn with_card<'a>(alloc: Global, command: Command<'a>) -> Result<Command<'a>, AllocError>
    ensures { IfOk result (AddsCard command.entry) }
{
    let steps = steps_argument(
        alloc,
        "How many instructions a call of an applet may run at most, from 1 to 4294967295",
    );
    let explain = flag_argument(
        alloc,
        "explain",
        "Tells on standard error why a call of an applet didn't end by itself",
    );
    command
        .arg(steps)?
        .arg(objects_argument(alloc))?
        .arg(cells_argument(alloc))?
        .arg(frames_argument(alloc))?
        .arg(words_argument(alloc))?
        .arg(binding_argument(alloc))?
        .arg(explain)
}

// `--steps N`, with its help.
fn steps_argument<'a>(alloc: Global, help: &'a str) -> Arg<'a>
    ensures { IsArgument steps_rule result }
{
    number_argument(
        alloc,
        "steps",
        value_parser!(u32).range(1..),
        "100000",
        help,
    )
}

// `--objects N`.
fn objects_argument<'a>(alloc: Global) -> Arg<'a>
    ensures { IsArgument objects_rule result }
{
    number_argument(
        alloc,
        "objects",
        value_parser!(u16).range(45..=32_767),
        "32767",
        "How many objects there may be on the card at most, from 45 to 32767",
    )
}

// `--cells N`.
fn cells_argument<'a>(alloc: Global) -> Arg<'a>
    ensures { IsArgument cells_rule result }
{
    number_argument(
        alloc,
        "cells",
        value_parser!(u16).range(980..),
        "65535",
        "How many cells the objects on the card may take at most, from 980 to 65535",
    )
}

// `--frames N`.
fn frames_argument<'a>(alloc: Global) -> Arg<'a>
    ensures { IsArgument frames_rule result }
{
    number_argument(
        alloc,
        "frames",
        value_parser!(u8).range(1..),
        "64",
        "How many frames a call of an applet may have at most, from 1 to 255",
    )
}

// `--words N`.
fn words_argument<'a>(alloc: Global) -> Arg<'a>
    ensures { IsArgument words_rule result }
{
    number_argument(
        alloc,
        "words",
        value_parser!(u16).range(1..),
        "1024",
        "How many words the frames of a call may take at most, from 1 to 65535",
    )
}

// An option with a number as its value, with the parser of the number, its default, and its help.
fn number_argument<'a>(
    alloc: Global,
    name: &'a str,
    parser: ValueParser<'a>,
    default: &'a str,
    help: &'a str,
) -> Arg<'a>
    ensures { IsArgument (number_rule name.now parser.entry default.now) result }
{
    Arg::new(alloc, name)
        .long(name)
        .value_name("N")
        .value_parser(parser)
        .default_value(default)
        .help(help)
}

// `--binding FILE`.
fn binding_argument<'a>(alloc: Global) -> Arg<'a>
    ensures { IsArgument binding_rule result }
{
    Arg::new(alloc, "binding")
        .long("binding")
        .value_name("FILE")
        .help(
            "A file with the AIDs of the API's packages and the tokens of its classes and members",
        )
}

// An option without a value, with its help.
fn flag_argument<'a>(alloc: Global, name: &'a str, help: &'a str) -> Arg<'a>
    ensures { IsArgument (flag_rule name.now) result }
{
    Arg::new(alloc, name)
        .long(name)
        .action(ArgAction::SetTrue)
        .help(help)
}

// A required word, with its help.
fn required_argument<'a>(alloc: Global, name: &'a str, help: &'a str) -> Arg<'a>
    ensures { IsArgument (required_rule name.now) result }
{
    Arg::new(alloc, name).required(true).help(help)
}

// The job in the program's matches.
fn named_job<'a>(alloc: Global, matches: &ArgMatches<'a>) -> Result<Option<Job<'a>>, AllocError>
    ensures { IfOk result (λ found. Finds found (IsJobAmong (subcommand_rows_of matches.now))) }
{
    match named_eval(matches) {
        Some(job) => Ok(Some(job)),
        None => match named_card(matches) {
            Some(job) => Ok(Some(job)),
            None => named_verify(alloc, matches),
        },
    }
}

// The job in the matches, if `run` or `session` was named.
fn named_card<'a>(matches: &ArgMatches<'a>) -> Option<Job<'a>>
    ensures { Finds result (IsCardAmong (subcommand_rows_of matches.now)) }
{
    match named_run(matches) {
        Some(job) => Some(job),
        None => named_session(matches),
    }
}

// The job in the matches, if `eval` was named.
fn named_eval<'a>(matches: &ArgMatches<'a>) -> Option<Job<'a>>
    ensures { Finds result (IsEvalAmong (subcommand_rows_of matches.now)) }
{
    eval_job(matches.subcommand_matches("eval")?)
}

// The job in the matches, if `verify` was named.
fn named_verify<'a>(alloc: Global, matches: &ArgMatches<'a>) -> Result<Option<Job<'a>>, AllocError>
    ensures { IfOk result (λ found. Finds found (IsVerifyAmong (subcommand_rows_of matches.now))) }
{
    match matches.subcommand_matches("verify") {
        Some(found) => verify_job(alloc, found),
        None => Ok(None),
    }
}

// The job in the matches, if `run` was named.
fn named_run<'a>(matches: &ArgMatches<'a>) -> Option<Job<'a>>
    ensures { Finds result (IsRunAmong (subcommand_rows_of matches.now)) }
{
    run_job(matches.subcommand_matches("run")?)
}

// The job in the matches, if `session` was named.
fn named_session<'a>(matches: &ArgMatches<'a>) -> Option<Job<'a>>
    ensures { Finds result (IsSessionAmong (subcommand_rows_of matches.now)) }
{
    session_job(matches.subcommand_matches("session")?)
}

// The job in the matches of `eval`.
fn eval_job<'a>(found: &ArgMatches<'a>) -> Option<Job<'a>>
    ensures { Finds result (IsEvalOf (rows_of (found_of found.now))) }
{
    let code = found.get_str("CODE")?;
    let cert = found.get_str("CERT")?;
    let steps = steps_in(found)?;
    Some(Job::Eval { code, cert, steps })
}

// The job in the matches of `verify`.
fn verify_job<'a>(alloc: Global, found: &ArgMatches<'a>) -> Result<Option<Job<'a>>, AllocError>
    ensures { IfOk result (λ job. Finds job (IsVerifyOf (rows_of (found_of found.now)))) }
{
    let Some(folder) = found.get_str("FOLDER") else {
        return Ok(None);
    };
    let Some(cert) = found.get_str("CERT") else {
        return Ok(None);
    };
    let earlier = earlier_in(alloc, found)?;
    let binding = found.get_str("binding");
    let strict = flag_in(found, "strict");
    Ok(Some(Job::Verify(VerifyJob {
        folder,
        cert,
        earlier,
        binding,
        strict,
    })))
}

// The job in the matches of `run`.
fn run_job<'a>(found: &ArgMatches<'a>) -> Option<Job<'a>>
    ensures { Finds result (IsRunOf (rows_of (found_of found.now))) }
{
    let script = found.get_str("SCRIPT")?;
    let card = card_in(found)?;
    Some(Job::Run(RunJob { script, card }))
}

// The job in the matches of `session`.
fn session_job<'a>(found: &ArgMatches<'a>) -> Option<Job<'a>>
    ensures { Finds result (IsSessionOf (rows_of (found_of found.now))) }
{
    let card = card_in(found)?;
    Some(Job::Session(card))
}

// The card in the matches of `run` or `session`.
fn card_in<'a>(found: &ArgMatches<'a>) -> Option<CardJob<'a>>
    ensures { Finds result (IsCardOf (rows_of (found_of found.now))) }
{
    let limits = limits_in(found)?;
    let binding = found.get_str("binding");
    let explains = flag_in(found, "explain");
    Some(CardJob {
        limits,
        binding,
        explains,
    })
}

// The limits of a card in the matches.
fn limits_in(found: &ArgMatches) -> Option<Limits>
    ensures { Finds result (AreLimits (rows_of (found_of found.now))) }
{
    let objects = number_in(found, "objects", 45, 32_767)?;
    let cells = number_in(found, "cells", 980, 65_535)?;
    let frames = number_in(found, "frames", 1, 255)?;
    let words = number_in(found, "words", 1, 65_535)?;
    let steps = steps_in(found)?;
    Some(Limits {
        objects: objects as u16,
        cells: cells as u16,
        frames: frames as u8,
        frame_words: words as u16,
        steps,
    })
}

// The number of steps in the matches of `eval`, `run` or `session`.
fn steps_in(found: &ArgMatches) -> Option<u32>
    ensures { Finds result (AreSteps (rows_of (found_of found.now))) }
{
    number_in(found, "steps", 1, 4_294_967_295)
}

// The number in matches under a name, between two bounds.
fn number_in(found: &ArgMatches, name: &str, least: u32, most: u32) -> Option<u32>
    ensures { Finds result (IsNumberUnder name.now least most (rows_of (found_of found.now))) }
{
    let number = found.get_one::<u32>(name)?;
    if number < least || most < number {
        return None;
    }
    Some(number)
}

// Whether an option without a value was used.
fn flag_in(found: &ArgMatches, name: &str) -> bool
    ensures { IsFlag name.now (rows_of (found_of found.now)) result }
{
    match found.get_str(name) {
        Some(said) => said == "true",
        None => false,
    }
}

// The folders of the packages before it.
fn earlier_in<'a>(alloc: Global, found: &ArgMatches<'a>) -> Result<Vec<&'a str>, AllocError>
    ensures { IfOk result (λ names. AreEarlier (rows_of (found_of found.now)) names.items) }
{
    match found.get_strs("EARLIER") {
        Some(names) => names.to_vec(alloc),
        None => Ok(Vec::new(alloc)),
    }
}
