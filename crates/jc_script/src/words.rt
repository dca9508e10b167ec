//! Lines as words, and words as names and bytes.

ghost use Rattle.std.specs.Prelude.{◌≡◌, ◌≤◌, ◌<◌, ◌∷◌, ◌==◌, [], length, position, option_copied};
ghost use Rattle.std.specs.Prelude.{option_map, take, true, Some, IfNone, IfSome};
ghost use Rattle.std.specs.Char.{is_ascii_digit};
ghost use Rattle.std.specs.List.{list_all};
ghost use Rattle.jc_api.specs.Text.{is_skipped, spelled_aid, words_of};
ghost use Rattle.jc_script.specs.PrivateWords.{shown_cut, words_left};
ghost use Rattle.jc_script.specs.Script.{behind_quote, cut_at_quote, cut_at_space, cut_name, is_quote, quoted_names};
ghost use Rattle.jc_script.specs.Script.{budget_in, budget_of, bytes_of, name_of, text_of, trimmed};

use crate::command::{MOST_BYTES, MOST_IN_LINE};
use crate::digits::decode;
use jc_base::Aid;
use std::marker::Model;

/// The words of a line, taken one by one. They are separated by one space.
#[derive(Drop)]
pub(crate) struct Words<'a> {
    left: Option<&'a [u8]>,
}

impl<'a> Model for Words<'a> {
    ghost use Rattle.std.specs.Prelude.{ℕ, List, option_copied};
    ghost use Rattle.jc_script.specs.PrivateWords.{words_left};

    ghost Value = { List (List ℕ) };

    ghost view = { λ w. words_left (option_copied w.left) };
}

impl<'a> Words<'a> {
    /// The words of a line.
    pub(crate) fn new(line: &'a [u8]) -> Words<'a>
        ensures { result ≡ words_of line.now }
    {
        Words { left: Some(line) }
    }

    /// The same words, to be taken again.
    pub(crate) fn again(&self) -> Words<'a>
        ensures { result ≡ self.now }
    {
        Words { left: self.left }
    }

    /// Takes the first word off, or returns `None` if there is none.
    pub(crate) fn next(&mut self) -> Option<&'a [u8]>
        ensures some { IfSome result (λ word. self.old ≡ word.now ∷ self.new) }
        ensures none { IfNone result ((self.old ≡ []) × (self.new ≡ [])) }
    {
        let line = self.left?;
        match space_in(line) {
            Some(at) => {
                self.left = Some(&line[at + 1..]);
                Some(&line[..at])
            }
            None => {
                self.left = None;
                Some(line)
            }
        }
    }
}

/// The index of the first space.
fn space_in(line: &[u8]) -> Option<usize>
    ensures { result ≡ position (λ b. b == 32) line.now }
{
    line.iter().position(|b| *b == b' ')
}

/// The index of the first quote.
pub(crate) fn quote_in(text: &[u8]) -> Option<usize>
    ensures place { result ≡ position is_quote text.now }
    ensures within { IfSome result (λ at. at < length text.now) }
{
    text.iter().position(|b| *b == b'"')
}

/// The first name of a text, and what follows after a space, if there is a space.
#[derive(Drop)]
pub(crate) struct Cut<'a> {
    pub(crate) name: &'a [u8],
    pub(crate) behind: Option<&'a [u8]>,
}

/// Cuts at the first space.
fn cut_at_space(text: &[u8]) -> Cut<'_>
    ensures { shown_cut result ≡ cut_at_space text.now }
{
    match space_in(text) {
        Some(at) => Cut {
            name: &text[..at],
            behind: Some(&text[at + 1..]),
        },
        None => Cut {
            name: text,
            behind: None,
        },
    }
}

/// A name and the text after its closing quote: nothing, or a space and what follows.
fn behind_quote<'a>(name: &'a [u8], text: &'a [u8]) -> Option<Cut<'a>>
    ensures { option_map shown_cut result ≡ behind_quote name.now text.now }
{
    match text.split_first() {
        None => Some(Cut { name, behind: None }),
        Some((first, rest)) => {
            if *first == b' ' {
                Some(Cut {
                    name,
                    behind: Some(rest),
                })
            } else {
                None
            }
        }
    }
}

/// Cuts at the next quote, after an opening one.
fn cut_at_quote(text: &[u8]) -> Option<Cut<'_>>
    ensures { option_map shown_cut result ≡ cut_at_quote text.now }
{
    let at = quote_in(text)?;
    behind_quote(&text[..at], &text[at + 1..])
}

/// The first name of a text, which may be in quotes.
#[tactic(auto, unfolding(crate::specs::Script::cut_name))]
pub(crate) fn cut_name(text: &[u8]) -> Option<Cut<'_>>
    ensures { option_map shown_cut result ≡ cut_name text.now }
{
    match text.split_first() {
        Some((first, rest)) => {
            if *first == b'"' {
                cut_at_quote(rest)
            } else {
                Some(cut_at_space(text))
            }
        }
        None => Some(cut_at_space(text)),
    }
}

/// The text after `load` and a space, in a line with a quote.
pub(crate) fn quoted_names(line: &[u8]) -> Option<&[u8]>
    ensures { option_copied result ≡ quoted_names line.now }
{
    let cut = cut_at_space(line);
    if cut.name == b"load".as_slice() && quote_in(line).is_some() {
        cut.behind
    } else {
        None
    }
}

/// Whether a line is skipped: it is empty, or its first byte is `#`.
pub(crate) fn is_skipped(line: &[u8]) -> bool
    ensures { result ≡ is_skipped line.now }
{
    match line.first() {
        None => true,
        Some(first) => *first == b'#',
    }
}

// A word as text.
fn text_of(word: &[u8]) -> Option<&str>
    ensures { option_map (λ text. text.now) result ≡ text_of word.now }
{
    match str::from_utf8(word) {
        Ok(text) => Some(text),
        Err(_) => None,
    }
}

/// A word as the name of a file or folder: UTF-8, which may have control bytes.
pub(crate) fn name_of(word: &[u8]) -> Option<&str>
    ensures { option_map (λ name. name.now) result ≡ name_of word.now }
{
    if word.is_empty() {
        return None;
    }
    text_of(word)
}

/// The bytes that hexadecimal digits of either case encode, at least one, written to this room.
pub(crate) fn bytes_of<'a>(word: &[u8], room: &'a mut [u8; MOST_BYTES]) -> Option<&'a [u8]>
    ensures { option_map (λ bytes. bytes.now) result ≡ bytes_of word.now }
{
    if word.is_empty() || word.len() > MOST_IN_LINE {
        return None;
    }
    let bytes = &mut room[..word.len() / 2];
    if decode(word, bytes) {
        Some(bytes)
    } else {
        None
    }
}

/// Whether all bytes are decimal digits.
fn are_digits(bytes: &[u8]) -> bool
    ensures { result ≡ list_all is_ascii_digit bytes.now }
{
    bytes.iter().all(|byte| byte.is_ascii_digit())
}

/// The number that decimal digits encode, from 1 to 4,294,967,295.
#[tactic(auto, using(crate::proofs::Budgets::budget_is))]
fn budget_in(text: &str) -> Option<u32>
    requires { list_all is_ascii_digit text.now ≡ true }
    ensures { result ≡ budget_in text.now }
{
    match text.parse::<u32>() {
        Ok(0) | Err(_) => None,
        Ok(number) => Some(number),
    }
}

/// The budget of steps that a word encodes in decimal digits. Leading zeros are allowed.
pub(crate) fn budget_of(word: &[u8]) -> Option<u32>
    ensures { result ≡ budget_of word.now }
{
    let text = text_of(word)?;
    if are_digits(text.as_bytes()) {
        budget_in(text)
    } else {
        None
    }
}

/// Writes the bytes that hexadecimal digits encode to the front of a room, and returns how many, if there is at least
/// one and they fit.
pub(crate) fn put_bytes(word: &[u8], room: &mut [u8]) -> Option<usize>
    ensures put { IfSome result (λ count. bytes_of word.now ≡ Some (take count room.new)) }
    ensures within { IfSome result (λ count. count ≤ length room.old) }
    ensures none { IfNone result (IfSome (bytes_of word.now) (λ bytes. length room.old < length bytes)) }
{
    if word.is_empty() || word.len() > MOST_IN_LINE {
        return None;
    }
    let count = word.len() / 2;
    if room.len() < count {
        return None;
    }
    if decode(word, &mut room[..count]) {
        Some(count)
    } else {
        None
    }
}

/// A line without the white space of ASCII at its end.
pub(crate) fn trimmed(line: &[u8]) -> &[u8]
    ensures trimmed { result.now ≡ trimmed line.now }
    ensures shorter { length result.now ≤ length line.now }
{
    line.trim_ascii_end()
}

/// The AID that hexadecimal digits of either case encode.
pub(crate) fn aid_of(word: &[u8]) -> Option<Aid>
    ensures { result ≡ spelled_aid word.now }
{
    let mut room = [0; MOST_BYTES];
    Aid::from_slice(bytes_of(word, &mut room)?)
}
