//! Bytes in hexadecimal.

ghost use Rattle.std.specs.Prelude.{◌≡◌, ◌+◌, ◌*◌, ◌<◌, ◌≤◌, ◌∷◌, ◌++◌, [], length, slice_index};
ghost use Rattle.arrayvec.specs.ArrayVec.{array_vec_len};
ghost use Rattle.std.specs.Char.{encode_utf8};
ghost use Rattle.hex.specs.Hex.{encode_upper, upper_digits};

use arrayvec::ArrayVec;
use std::fmt;

/// The digit of a value, as an ASCII byte.
fn digit_byte(value: u8) -> u8
    requires { value < 16 }
    ensures digit { result ≡ slice_index upper_digits value }
    ensures ascii { result < 128 }
{
    if value < 10 {
        b'0' + value
    } else {
        b'A' + (value - 10)
    }
}

/// The digit of a value.
fn digit_of(value: u8) -> char
    requires { value < 16 }
    ensures digit { result ≡ slice_index upper_digits value }
    ensures text { encode_utf8 result ≡ result ∷ [] }
{
    char::from(digit_byte(value))
}

/// Appends bytes to a line, two digits each, in upper case.
pub fn put_digits<const MOST: usize>(line: &mut ArrayVec<u8, MOST>, bytes: &[u8])
    requires room { array_vec_len line.old + 2 * length bytes.now ≤ MOST }
    ensures items { line.new.items ≡ line.old.items ++ encode_upper bytes.now }
    ensures long { array_vec_len line.new ≡ array_vec_len line.old + 2 * length bytes.now }
{
    for byte in bytes {
        line.push(digit_byte(*byte / 16));
        line.push(digit_byte(*byte % 16));
    }
}

/// Bytes, two digits each, in upper case.
#[derive(Drop)]
pub struct Hexadecimal<'a> {
    pub bytes: &'a [u8],
}

impl<'a> fmt::Display for Hexadecimal<'a> {
    ghost use Rattle.std.specs.Prelude.{Some};
    ghost use Rattle.hex.specs.Hex.{encode_upper};

    ghost output = { λ h. Some (encode_upper h.bytes.now) };

    fn fmt<W: fmt::Write>(&self, f: &mut fmt::Formatter<W>) -> fmt::Result {
        for byte in self.bytes {
            let high = digit_of(*byte / 16);
            let low = digit_of(*byte % 16);
            write!(f, "{high}{low}")?;
        }
        Ok(())
    }
}
