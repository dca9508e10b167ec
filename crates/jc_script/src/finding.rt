//! The first fault of a line that is no command.

ghost use Rattle.std.specs.Prelude.{◌≡◌, ◌+◌, ◌<◌, ◌≤◌, length, not, position, IfSome};
ghost use Rattle.std.specs.Char.{is_ascii_hexdigit};
ghost use Rattle.jc_script.specs.Faults.{aid_fault, budget_fault, byte_cause, byte_forms, command_fault};
ghost use Rattle.jc_api.specs.Text.{words_of};
ghost use Rattle.jc_script.specs.Faults.{digits_fault, fault_among, fault_of, is_open, looked_at, open_fault};
ghost use Rattle.jc_script.specs.Faults.{quote_fault, quote_fault_in, second_fault};
ghost use Rattle.jc_script.specs.Faults.{extra_fault, fault_at, fault_behind, fault_in, is_printable, keyword_fault};
ghost use Rattle.jc_script.specs.Faults.{missing_fault, name_fault, odd_fault, spread, word_fault, words_fault};

use crate::fault::{LineCause, LineFault};
use crate::words::{Words, budget_of, cut_name, name_of, quote_in, quoted_names, trimmed};

/// The kind of the line: a script's, or a session's, which has three more commands.
#[derive(Clone, Copy, Debug, PartialEq, Eq)]
pub enum Dialect {
    Script,
    Session,
}

/// The form that a word has to have.
#[derive(Clone, Copy, Debug, PartialEq, Eq)]
enum Form {
    /// The name of a file or a folder.
    Name,
    /// An AID, in hexadecimal.
    Aid,
    /// Bytes, in hexadecimal.
    Bytes,
    /// A budget of steps, in decimal digits.
    Budget,
}

/// A fault in a column.
fn fault_at(cause: LineCause, column: usize) -> LineFault
    ensures { result ≡ fault_at cause column }
{
    LineFault { cause, column }
}

/// Whether a byte is printable: in ASCII, from the space on.
fn is_printable(byte: u8) -> bool
    ensures { result ≡ is_printable byte }
{
    32 <= byte && byte < 127
}

/// The fault of a byte in place of a digit.
fn byte_cause(byte: u8) -> LineCause
    ensures { result ≡ byte_cause byte }
{
    if is_printable(byte) {
        LineCause::NoDigit(byte)
    } else {
        LineCause::Unprintable(byte)
    }
}

/// The fault of an odd number of digits.
fn odd_fault(column: usize, word: &[u8]) -> Option<LineFault>
    requires { column + length word.now ≤ 1027 }
    ensures { result ≡ odd_fault column word.now }
{
    if word.len() % 2 == 0 {
        None
    } else {
        Some(fault_at(LineCause::OddDigit, column + word.len() - 1))
    }
}

/// The index of the first byte that is no digit.
fn no_digit_in(word: &[u8]) -> Option<usize>
    ensures place { result ≡ position (λ b. not (is_ascii_hexdigit b)) word.now }
    ensures within { IfSome result (λ at. at < length word.now) }
{
    word.iter().position(|byte| !byte.is_ascii_hexdigit())
}

/// The index of the first byte that isn't printable.
fn unprintable_in(word: &[u8]) -> Option<usize>
    ensures place { result ≡ position (λ b. not (is_printable b)) word.now }
    ensures within { IfSome result (λ at. at < length word.now) }
{
    word.iter().position(|byte| !is_printable(*byte))
}

/// The fault of digits that begin in a column.
fn digits_fault(column: usize, word: &[u8]) -> Option<LineFault>
    requires { column + length word.now ≤ 1027 }
    ensures { result ≡ digits_fault column word.now }
{
    match no_digit_in(word) {
        Some(at) => Some(fault_at(byte_cause(word[at]), column + at)),
        None => odd_fault(column, word),
    }
}

/// The fault of an AID's digits.
fn aid_fault(column: usize, word: &[u8]) -> Option<LineFault>
    requires { column + length word.now ≤ 1027 }
    ensures { result ≡ aid_fault column word.now }
{
    if let Some(fault) = digits_fault(column, word) {
        return Some(fault);
    }
    let length = word.len() / 2;
    if length < 5 || 16 < length {
        Some(fault_at(LineCause::AidLength, column))
    } else {
        None
    }
}

/// The fault of a name.
fn name_fault(column: usize, word: &[u8]) -> Option<LineFault>
    ensures { result ≡ name_fault column word.now }
{
    match str::from_utf8(word) {
        Ok(_) => None,
        Err(_) => Some(fault_at(LineCause::NotText, column)),
    }
}

/// The fault of a budget of steps.
fn budget_fault(column: usize, word: &[u8]) -> Option<LineFault>
    ensures { result ≡ budget_fault column word.now }
{
    match budget_of(word) {
        Some(_) => None,
        None => Some(fault_at(LineCause::NoBudget, column)),
    }
}

/// The fault of a word.
fn word_fault(form: Form, column: usize, word: &[u8]) -> Option<LineFault>
    requires { column + length word.now ≤ 1027 }
    ensures { result ≡ word_fault form column word.now }
{
    if word.is_empty() {
        return Some(fault_at(LineCause::BlankTooMany, column));
    }
    match form {
        Form::Name => name_fault(column, word),
        Form::Aid => aid_fault(column, word),
        Form::Bytes => digits_fault(column, word),
        Form::Budget => budget_fault(column, word),
    }
}

/// The fault of a surplus word.
fn extra_fault(column: usize, word: &[u8]) -> LineFault
    ensures { result ≡ extra_fault column word.now }
{
    if word.is_empty() {
        fault_at(LineCause::BlankTooMany, column)
    } else {
        fault_at(LineCause::WordTooMany, column)
    }
}

/// The fault of a missing word, if it is needed.
fn missing_fault(needed: usize, column: usize) -> Option<LineFault>
    ensures { result ≡ missing_fault needed column }
{
    if needed == 0 {
        None
    } else {
        Some(fault_at(LineCause::WordMissing, column))
    }
}

/// The first fault of words that should have these forms, at least `needed` of them.
fn words_fault(
    forms: &[Form],
    needed: usize,
    column: usize,
    words: &mut Words<'_>,
) -> Option<LineFault>
    requires { column + spread words.old ≤ 1027 }
    ensures { result ≡ words_fault forms.now needed column words.old }
{
    let mut left = needed;
    let mut at = column;
    for form in forms {
        let Some(word) = words.next() else {
            return missing_fault(left, at);
        };
        let fault = word_fault(*form, at, word);
        if fault.is_some() {
            return fault;
        }
        left = left.saturating_sub(1);
        at += word.len() + 1;
    }
    match words.next() {
        Some(word) => Some(extra_fault(at, word)),
        None => None,
    }
}

/// The fault of a first word that is no command.
fn keyword_fault(keyword: &[u8]) -> LineFault
    requires { length keyword.now ≤ 1024 }
    ensures { result ≡ keyword_fault keyword.now }
{
    if keyword.is_empty() {
        return fault_at(LineCause::BlankTooMany, 1);
    }
    match unprintable_in(keyword) {
        Some(at) => fault_at(LineCause::Unprintable(keyword[at]), 1 + at),
        None => fault_at(LineCause::UnknownCommand, 1),
    }
}

/// The fault of the words after a command's first word.
fn command_fault(forms: &[Form], needed: usize, keyword: &[u8], words: &mut Words<'_>) -> LineFault
    requires { length keyword.now + spread words.old ≤ 1024 }
    ensures { result ≡ command_fault forms.now needed keyword.now words.old }
{
    match words_fault(forms, needed, keyword.len() + 2, words) {
        Some(fault) => fault,
        None => fault_at(LineCause::UnknownCommand, 1),
    }
}

/// The forms of a command's bytes: one word, and in a session as many as a line can have.
fn byte_forms(dialect: Dialect) -> &'static [Form]
    ensures { result.now ≡ byte_forms dialect }
{
    match dialect {
        Dialect::Script => &[Form::Bytes],
        Dialect::Session => &[Form::Bytes; 512],
    }
}

/// The fault of a line with these words.
fn fault_behind(dialect: Dialect, keyword: &[u8], words: &mut Words<'_>) -> LineFault
    requires { length keyword.now + spread words.old ≤ 1024 }
    ensures { result ≡ fault_behind dialect keyword.now words.old }
{
    if keyword == b"load".as_slice() {
        command_fault(&[Form::Name, Form::Name], 2, keyword, words)
    } else if keyword == b"install".as_slice() {
        command_fault(&[Form::Aid, Form::Aid, Form::Bytes], 2, keyword, words)
    } else if keyword == b"apdu".as_slice() {
        command_fault(byte_forms(dialect), 1, keyword, words)
    } else if keyword == b"reset".as_slice() {
        command_fault(&[], 0, keyword, words)
    } else if dialect == Dialect::Session && keyword == b"cells".as_slice() {
        command_fault(&[], 0, keyword, words)
    } else if dialect == Dialect::Session && keyword == b"objects".as_slice() {
        command_fault(&[], 0, keyword, words)
    } else if dialect == Dialect::Session && keyword == b"steps".as_slice() {
        command_fault(&[Form::Budget], 1, keyword, words)
    } else {
        keyword_fault(keyword)
    }
}

/// The part of a line that counts: in a session without white space at its end.
fn looked_at(dialect: Dialect, line: &[u8]) -> &[u8]
    ensures looked_at { result.now ≡ looked_at dialect line.now }
    ensures shorter { length result.now ≤ length line.now }
{
    match dialect {
        Dialect::Script => line,
        Dialect::Session => trimmed(line),
    }
}

/// Whether a name begins with a quote that isn't closed.
fn is_open(text: &[u8]) -> bool
    ensures { result ≡ is_open text.now }
{
    match text.split_first() {
        None => false,
        Some((first, rest)) => *first == b'"' && quote_in(rest).is_none(),
    }
}

/// The fault of such a quote at the beginning of a line's last bytes.
fn open_fault(line: &[u8], last: &[u8]) -> Option<LineFault>
    requires { length line.now ≤ 1024 }
    ensures { result ≡ open_fault line.now last.now }
{
    if is_open(last) {
        let column = (line.len() + 1).saturating_sub(last.len());
        Some(fault_at(LineCause::OpenQuote, column))
    } else {
        None
    }
}

/// The fault of such a quote at the beginning of the second name, if the first is a name.
fn second_fault(line: &[u8], last: &[u8]) -> Option<LineFault>
    requires { length line.now ≤ 1024 }
    ensures { result ≡ second_fault line.now last.now }
{
    let folder = cut_name(last)?;
    name_of(folder.name)?;
    open_fault(line, folder.behind?)
}

/// The fault of an open quote, in a line with names in quotes.
fn quote_fault(line: &[u8]) -> Option<LineFault>
    requires { length line.now ≤ 1024 }
    ensures { result ≡ quote_fault line.now }
{
    let names = quoted_names(line)?;
    match open_fault(line, names) {
        Some(fault) => Some(fault),
        None => second_fault(line, names),
    }
}

/// The same in a session. A script has no names in quotes.
fn quote_fault_in(dialect: Dialect, line: &[u8]) -> Option<LineFault>
    requires { length line.now ≤ 1024 }
    ensures { result ≡ quote_fault_in dialect line.now }
{
    match dialect {
        Dialect::Script => None,
        Dialect::Session => quote_fault(line),
    }
}

/// The first fault among the words of a line.
fn fault_among(dialect: Dialect, line: &[u8]) -> LineFault
    requires { length line.now ≤ 1024 }
    ensures { result ≡ fault_among dialect (words_of line.now) }
{
    let mut words = Words::new(line);
    match words.next() {
        Some(keyword) => fault_behind(dialect, keyword, &mut words),
        None => fault_at(LineCause::UnknownCommand, 1),
    }
}

/// The fault of an open quote, or else the first fault among the words.
fn fault_of(dialect: Dialect, line: &[u8]) -> LineFault
    requires { length line.now ≤ 1024 }
    ensures { result ≡ fault_of dialect line.now }
{
    match quote_fault_in(dialect, line) {
        Some(fault) => fault,
        None => fault_among(dialect, line),
    }
}

/// The first fault, from the left, of a line of at most [`MOST_IN_LINE`](crate::MOST_IN_LINE) bytes that is no command.
/// It is a message for people: the meaning of a line depends on [`said_by`](crate::said_by) alone.
pub fn fault_in(dialect: Dialect, line: &[u8]) -> LineFault
    requires { length line.now ≤ 1024 }
    ensures { result ≡ fault_in dialect line.now }
{
    fault_of(dialect, looked_at(dialect, line))
}
