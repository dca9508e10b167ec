//! Text as pieces, and words as numbers and AIDs.

ghost use Rattle.std.specs.Prelude.{◌≡◌, ◌≤◌, ◌/◌, ◌∷◌, ◌^◌, ◌==◌, [], length, position, option_copied, IfSome, IfNone};
ghost use Rattle.std.specs.Bool.{OnTrue, OnFalse};
ghost use Rattle.jc_api.specs.Text.{decimal_up_to, hexadecimal, is_skipped, pieces, spelled_aid};
ghost use Rattle.jc_api.specs.PrivateText.{pieces_left};

use jc_base::Aid;
use std::marker::Model;

/// The pieces between separators, taken one by one.
#[derive(Drop)]
pub(crate) struct Pieces<'a> {
    left: Option<&'a [u8]>,
    separator: u8,
}

impl<'a> Model for Pieces<'a> {
    ghost use Rattle.std.specs.Prelude.{ℕ, List, option_copied};
    ghost use Rattle.jc_api.specs.PrivateText.{pieces_left};

    ghost Value = { List (List ℕ) };

    ghost view = { λ p. pieces_left p.separator (option_copied p.left) };
}

impl<'a> Pieces<'a> {
    /// The pieces of these bytes.
    pub(crate) fn new(bytes: &'a [u8], separator: u8) -> Pieces<'a>
        ensures { result ≡ pieces separator bytes.now }
    {
        Pieces {
            left: Some(bytes),
            separator,
        }
    }

    /// Takes the first piece off, or returns `None` if there is none.
    pub(crate) fn next(&mut self) -> Option<&'a [u8]>
        ensures some { IfSome result (λ piece. self.old ≡ piece.now ∷ self.new) }
        ensures none { IfNone result ((self.old ≡ []) × (self.new ≡ [])) }
    {
        let bytes = self.left?;
        let cut = cut_at(self.separator, bytes);
        self.left = cut.behind;
        Some(cut.before)
    }
}

/// The bytes before the first separator, and those after it if there is one.
#[derive(Drop)]
struct Cut<'a> {
    before: &'a [u8],
    behind: Option<&'a [u8]>,
}

fn cut_at(separator: u8, bytes: &[u8]) -> Cut<'_>
    ensures { pieces separator bytes.now ≡ result.before.now ∷ pieces_left separator (option_copied result.behind) }
{
    match place_of(separator, bytes) {
        Some(at) => Cut {
            before: &bytes[..at],
            behind: Some(&bytes[at + 1..]),
        },
        None => Cut {
            before: bytes,
            behind: None,
        },
    }
}

/// The index of the first separator.
fn place_of(separator: u8, bytes: &[u8]) -> Option<usize>
    ensures { result ≡ position (λ b. b == separator) bytes.now }
{
    bytes.iter().position(|b| *b == separator)
}

/// Whether a line is skipped: it is empty, or its first byte is `#`.
pub(crate) fn is_skipped(line: &[u8]) -> bool
    ensures { result ≡ is_skipped line.now }
{
    match line.first() {
        None => true,
        Some(first) => *first == b'#',
    }
}

/// The number that decimal digits encode, up to a limit. Leading zeros are allowed.
pub(crate) fn decimal_up_to(limit: u8, word: &[u8]) -> Option<u8>
    ensures { result ≡ decimal_up_to limit word.now }
{
    if word.is_empty() {
        return None;
    }
    let mut value = 0;
    for digit in word {
        if !digit.is_ascii_digit() {
            return None;
        }
        let next = 10 * u16::from(value) + u16::from(*digit - b'0');
        if u16::from(limit) < next {
            return None;
        }
        value = next as u8;
    }
    Some(value)
}

/// Writes the bytes that hexadecimal digits encode, and returns whether they encode any.
#[tactic(auto, unfolding(crate::specs::Text::hexadecimal))]
fn decode(word: &[u8], out: &mut [u8]) -> bool
    requires { length out.old ≡ length word.now / 2 }
    ensures spelled { OnTrue result (hexadecimal word.now ≡ Some out.new) }
    ensures refused { OnFalse result (hexadecimal word.now ≡ None) }
{
    hex::decode_to_slice(word, out).is_ok()
}

/// The AID that hexadecimal digits of either case encode.
pub(crate) fn spelled_aid(word: &[u8]) -> Option<Aid>
    ensures { result ≡ spelled_aid word.now }
{
    let len = word.len() / 2;
    if LONGEST_AID < len {
        return None;
    }
    let mut bytes = [0; LONGEST_AID];
    if !decode(word, &mut bytes[..len]) {
        return None;
    }
    Aid::from_slice(&bytes[..len])
}

/// The greatest number of bytes of an AID.
const LONGEST_AID: usize = 16;
