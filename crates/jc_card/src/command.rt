//! Command APDUs of a reader (ISO/IEC 7816-4, short APDUs).

ghost use Rattle.std.specs.Prelude.{◌≡◌, ◌≤◌, length, IfSome, IfNone, None, option_map};
ghost use Rattle.jc_card.specs.Command.{command_of, has_data, is_select, p3_of};

use std::marker::Model;

/// CLA, INS, P1 and P2 of SELECT by name.
const SELECT: [u8; 4] = [0x00, 0xA4, 0x04, 0x00];

/// A command.
#[derive(Drop)]
pub(crate) struct Command<'a> {
    /// CLA, INS, P1 and P2.
    pub(crate) header: &'a [u8],
    /// Lc or Le, or 0 if it is missing.
    pub(crate) p3: u8,
    /// The data, at most 255 bytes.
    pub(crate) incoming: &'a [u8],
    /// Le, or 0 if it is missing.
    pub(crate) expected: u8,
}

impl<'a> Model for Command<'a> {
    ghost use Rattle.jc_card.specs.Command.{Command as Sent};

    ghost Value = { Sent };

    ghost view = { λ k. record { header = k.header.now; p3 = k.p3; incoming = k.incoming.now; expected = k.expected } };
}

fn p3_of(bytes: &[u8]) -> u8
    ensures { result ≡ p3_of bytes.now }
{
    match bytes.get(4) {
        Some(byte) => *byte,
        None => 0,
    }
}

// Whether Lc isn't 0, and that many bytes of data follow, with Le or without.
fn has_data(bytes: &[u8]) -> bool
    ensures { result ≡ has_data bytes.now }
{
    let lc = usize::from(p3_of(bytes));
    lc != 0 && (bytes.len() == 5 + lc || bytes.len() == 6 + lc)
}

impl<'a> Command<'a> {
    /// The command that these bytes encode: a header alone, with Le, or with data. `None` if they are none.
    pub(crate) fn parse(bytes: &'a [u8]) -> Option<Command<'a>>
        ensures command { result ≡ command_of bytes.now }
        ensures header { IfSome result (λ k. length k.header ≡ 4) }
        ensures few { IfSome result (λ k. length k.incoming ≤ 255) }
    {
        let p3 = p3_of(bytes);
        if bytes.len() == 4 || bytes.len() == 5 {
            return Some(Command {
                header: &bytes[..4],
                p3,
                incoming: &[],
                expected: p3,
            });
        }
        if !has_data(bytes) {
            return None;
        }
        let end = 5 + usize::from(p3);
        let expected = match bytes.get(end) {
            Some(byte) => *byte,
            None => 0,
        };
        Some(Command {
            header: &bytes[..4],
            p3,
            incoming: &bytes[5..end],
            expected,
        })
    }

    /// Whether it is SELECT by name.
    pub(crate) fn is_select(&self) -> bool
        ensures { result ≡ is_select self.now }
    {
        self.header == SELECT.as_slice()
    }
}
