//! Names of files for output.

ghost use Rattle.std.specs.Prelude.{◌≡◌};
ghost use Rattle.jc_host.specs.Files.{is_plain_byte, may_hide, odd_byte};

use std::fmt;

/// Whether a byte may begin a character that is invisible, or changes the direction of a text.
fn may_hide(byte: u8) -> bool
    ensures { result ≡ may_hide byte }
{
    byte == 194 || byte == 216 || byte == 226 || byte == 239
}

/// Whether a byte of a name is written unchanged.
fn is_plain(byte: u8) -> bool
    ensures { result ≡ is_plain_byte byte }
{
    !byte.is_ascii_control() && !may_hide(byte)
}

/// Whether a character is a control character, is invisible, or changes the direction of a text: those of Unicode's
/// category Cc, and of its categories Cf, Zl and Zp those that a terminal obeys.
fn is_hidden(character: char) -> bool {
    match u32::from(character) {
        0x0..=0x1F | 0x7F..=0x9F | 0xAD => true,
        0x61C | 0x200B..=0x200F | 0x2028..=0x202E | 0x2060..=0x206F | 0xFEFF => true,
        _ => false,
    }
}

/// The index of the first byte of a name that isn't written unchanged.
fn odd_byte(name: &str) -> Option<usize>
    ensures { result ≡ odd_byte name.now }
{
    name.as_bytes().iter().position(|byte| !is_plain(*byte))
}

/// A name for output. Characters that a terminal obeys instead of showing are written in hexadecimal.
#[derive(Drop)]
pub struct ShownName<'a> {
    pub name: &'a str,
}

impl<'a> fmt::Display for ShownName<'a> {
    ghost use Rattle.jc_host.specs.Files.{name_text};

    ghost output = { λ shown. name_text shown.name.now };

    fn fmt<W: fmt::Write>(&self, f: &mut fmt::Formatter<W>) -> fmt::Result {
        match odd_byte(self.name) {
            None => write!(f, "{}", self.name),
            Some(_) => write_escaped(f, self.name),
        }
    }
}

// Writes a name, character by character.
fn write_escaped<W: fmt::Write>(f: &mut fmt::Formatter<W>, name: &str) -> fmt::Result {
    for character in name.chars() {
        let number = u32::from(character);
        if is_hidden(character) && number < 256 {
            write!(f, "\\x{number:02X}")?;
        } else if is_hidden(character) {
            write!(f, "\\u{number:04X}")?;
        } else {
            write!(f, "{character}")?;
        }
    }
    Ok(())
}
