//! The commands of a script's lines.

ghost use Rattle.std.specs.Prelude.{◌≡◌, ◌≤◌, [], length, option_map};
ghost use Rattle.jc_script.specs.Script as script;
ghost use Rattle.jc_script.specs.Script.{apdu_asked, asked, asked_in_session, install_asked, load_asked, reset_asked};
ghost use Rattle.jc_script.specs.Script.{asked_by_line, loading, quoted_load};
ghost use Rattle.jc_script.specs.Script.{joined_behind, pieces_asked, steps_asked};
ghost use Rattle.jc_script.specs.Shown.{shown, shown_command};

use crate::words::{
    Words, aid_of, budget_of, bytes_of, cut_name, is_skipped, name_of, put_bytes, quoted_names,
    trimmed,
};
use jc_base::Aid;

/// The most bytes of a line, without its line feed.
pub const MOST_IN_LINE: usize = 1024;

/// The most bytes that a line can encode in hexadecimal.
pub const MOST_BYTES: usize = MOST_IN_LINE / 2;

/// A command for a card.
#[derive(Debug, Drop)]
pub enum ScriptCommand<'a> {
    /// Loads a package: the folder of its component files, and the file of its certificate.
    Load {
        folder: &'a str,
        certificate: &'a str,
    },
    /// Installs an applet: its AID, that of the new instance, and data for its install method.
    Install {
        applet: Aid,
        instance: Aid,
        incoming: &'a [u8],
    },
    /// A command APDU from a reader.
    Apdu(&'a [u8]),
    /// Resets the card.
    Reset,
    /// Asks how many cells are used; only in a session.
    Cells,
    /// Asks how many objects there are; only in a session.
    Objects,
    /// Sets how many steps a call may make from now on, at least 1; only in a session.
    Steps(u32),
}

/// The meaning of a line.
#[derive(Debug, Drop)]
pub enum ScriptLine<'a> {
    /// The line is empty, or a comment.
    Skipped,
    /// The line is a command.
    Asks(ScriptCommand<'a>),
    /// The line is neither.
    Bad,
}

/// A folder and a certificate, if both are names.
fn loading<'a>(folder: &'a [u8], certificate: &'a [u8]) -> Option<ScriptCommand<'a>>
    ensures { option_map shown_command result ≡ loading folder.now certificate.now }
{
    Some(ScriptCommand::Load {
        folder: name_of(folder)?,
        certificate: name_of(certificate)?,
    })
}

#[tactic(auto, unfolding(crate::specs::Script::load_asked))]
fn load_asked(mut words: Words) -> Option<ScriptCommand>
    ensures { option_map shown_command result ≡ load_asked words.entry }
{
    let folder = words.next()?;
    let certificate = words.next()?;
    if words.next().is_some() {
        return None;
    }
    loading(folder, certificate)
}

/// Two names, separated by one space; some of them are in quotes.
#[tactic(auto, unfolding(crate::specs::Script::quoted_load))]
fn quoted_load(text: &[u8]) -> Option<ScriptCommand<'_>>
    ensures { option_map shown_command result ≡ quoted_load text.now }
{
    let folder = cut_name(text)?;
    let certificate = cut_name(folder.behind?)?;
    if certificate.behind.is_some() {
        return None;
    }
    loading(folder.name, certificate.name)
}

#[tactic(auto, unfolding(crate::specs::Script::install_asked))]
fn install_asked<'a>(
    mut words: Words<'a>,
    room: &'a mut [u8; MOST_BYTES],
) -> Option<ScriptCommand<'a>>
    ensures { option_map shown_command result ≡ install_asked words.entry }
{
    let applet = words.next()?;
    let instance = words.next()?;
    let incoming = words.next();
    if words.next().is_some() {
        return None;
    }
    let applet = aid_of(applet)?;
    let instance = aid_of(instance)?;
    let incoming = match incoming {
        Some(word) => bytes_of(word, room)?,
        None => &[],
    };
    Some(ScriptCommand::Install {
        applet,
        instance,
        incoming,
    })
}

#[tactic(auto, unfolding(crate::specs::Script::apdu_asked))]
fn apdu_asked<'a>(mut words: Words<'a>, room: &'a mut [u8; MOST_BYTES]) -> Option<ScriptCommand<'a>>
    ensures { option_map shown_command result ≡ apdu_asked words.entry }
{
    let bytes = words.next()?;
    if words.next().is_some() {
        return None;
    }
    Some(ScriptCommand::Apdu(bytes_of(bytes, room)?))
}

#[tactic(auto, unfolding(crate::specs::Script::reset_asked))]
fn reset_asked(mut words: Words) -> Option<ScriptCommand>
    ensures { option_map shown_command result ≡ reset_asked words.entry }
{
    match words.next() {
        Some(_) => None,
        None => Some(ScriptCommand::Reset),
    }
}

/// The command of these words, if they are one.
#[tactic(auto, unfolding(crate::specs::Script::asked))]
fn asked<'a>(mut words: Words<'a>, room: &'a mut [u8; MOST_BYTES]) -> Option<ScriptCommand<'a>>
    ensures { option_map shown_command result ≡ asked words.entry }
{
    let keyword = words.next()?;
    if keyword == b"load".as_slice() {
        load_asked(words)
    } else if keyword == b"install".as_slice() {
        install_asked(words, room)
    } else if keyword == b"apdu".as_slice() {
        apdu_asked(words, room)
    } else if keyword == b"reset".as_slice() {
        reset_asked(words)
    } else {
        None
    }
}

#[tactic(auto, unfolding(crate::specs::Script::steps_asked))]
fn steps_asked(mut words: Words) -> Option<ScriptCommand>
    ensures { option_map shown_command result ≡ steps_asked words.entry }
{
    let number = words.next()?;
    if words.next().is_some() {
        return None;
    }
    Some(ScriptCommand::Steps(budget_of(number)?))
}

/// The bytes that the words encode, one after the other, written to this room, if there is room.
fn joined<'a>(words: &mut Words<'_>, room: &'a mut [u8; MOST_BYTES]) -> Option<&'a [u8]>
    ensures { option_map (λ bytes. bytes.now) result ≡ joined_behind [] words.old }
{
    let mut count = 0;
    while let Some(word) = words.next() {
        let more = put_bytes(word, &mut room[count..])?;
        count += more;
    }
    Some(&room[..count])
}

#[tactic(auto, unfolding(crate::specs::Script::pieces_asked))]
fn pieces_asked<'a>(
    mut words: Words<'a>,
    room: &'a mut [u8; MOST_BYTES],
) -> Option<ScriptCommand<'a>>
    ensures { option_map shown_command result ≡ pieces_asked words.entry }
{
    let mut first = words.again();
    first.next()?;
    Some(ScriptCommand::Apdu(joined(&mut words, room)?))
}

/// The command of a session's words, if they are one.
#[tactic(auto, unfolding(crate::specs::Script::asked_in_session))]
fn asked_in_session<'a>(
    words: Words<'a>,
    room: &'a mut [u8; MOST_BYTES],
) -> Option<ScriptCommand<'a>>
    ensures { option_map shown_command result ≡ asked_in_session words.entry }
{
    let mut behind = words.again();
    let keyword = behind.next()?;
    if keyword == b"steps".as_slice() {
        steps_asked(behind)
    } else if keyword == b"apdu".as_slice() {
        pieces_asked(behind, room)
    } else {
        asked(words, room)
    }
}

/// The command of a session's line, if it is one.
#[tactic(auto, unfolding(crate::specs::Script::asked_by_line))]
fn asked_by_line<'a>(line: &'a [u8], room: &'a mut [u8; MOST_BYTES]) -> Option<ScriptCommand<'a>>
    ensures { option_map shown_command result ≡ asked_by_line line.now }
{
    match quoted_names(line) {
        Some(names) => quoted_load(names),
        None => asked_in_session(Words::new(line), room),
    }
}

/// The meaning of a line of at most [`MOST_IN_LINE`] bytes. The bytes that it encodes are written to this room.
#[tactic(auto, unfolding(crate::specs::Script::said_by))]
pub fn said_by<'a>(line: &'a [u8], room: &'a mut [u8; MOST_BYTES]) -> ScriptLine<'a>
    ensures { shown result ≡ script.said_by line.now }
{
    if is_skipped(line) {
        return ScriptLine::Skipped;
    }
    match asked(Words::new(line), room) {
        Some(command) => ScriptLine::Asks(command),
        None => ScriptLine::Bad,
    }
}

/// The meaning of a session's line of at most [`MOST_IN_LINE`] bytes. It may also ask how much is used, and set a
/// budget of steps. The names of `load` may be in quotes.
pub fn said_in_session<'a>(line: &'a [u8], room: &'a mut [u8; MOST_BYTES]) -> ScriptLine<'a>
    ensures { shown result ≡ script.said_in_session line.now }
{
    said_trimmed(trimmed(line), room)
}

/// The same for a line without white space at its end.
#[tactic(auto, unfolding(crate::specs::Script::said_trimmed))]
fn said_trimmed<'a>(line: &'a [u8], room: &'a mut [u8; MOST_BYTES]) -> ScriptLine<'a>
    ensures { shown result ≡ script.said_trimmed line.now }
{
    if line == b"cells".as_slice() {
        ScriptLine::Asks(ScriptCommand::Cells)
    } else if line == b"objects".as_slice() {
        ScriptLine::Asks(ScriptCommand::Objects)
    } else if is_skipped(line) {
        ScriptLine::Skipped
    } else {
        match asked_by_line(line, room) {
            Some(command) => ScriptLine::Asks(command),
            None => ScriptLine::Bad,
        }
    }
}
