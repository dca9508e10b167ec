//! Hexadecimal digits of either case, two at a time by a table.

ghost use Rattle.std.specs.Prelude.{◌≡◌, ◌/◌, length, None, Some};
ghost use Rattle.std.specs.Bool.{OnFalse, OnTrue};
ghost use Rattle.hex.specs.Hex.{decode_of};
ghost use Rattle.jc_api.specs.Text.{given};
ghost use Rattle.jc_script.specs.PrivateDigits.{AreValues, value_or_sixteen};

/// The value of each byte as a digit; 16 for one that is no digit.
static VALUES: [u8; 256] = [
    16, 16, 16, 16, 16, 16, 16, 16, 16, 16, 16, 16, 16, 16, 16, 16, 16, 16, 16, 16, 16, 16, 16, 16,
    16, 16, 16, 16, 16, 16, 16, 16, 16, 16, 16, 16, 16, 16, 16, 16, 16, 16, 16, 16, 16, 16, 16, 16,
    0, 1, 2, 3, 4, 5, 6, 7, 8, 9, 16, 16, 16, 16, 16, 16, 16, 10, 11, 12, 13, 14, 15, 16, 16, 16,
    16, 16, 16, 16, 16, 16, 16, 16, 16, 16, 16, 16, 16, 16, 16, 16, 16, 16, 16, 16, 16, 16, 16, 10,
    11, 12, 13, 14, 15, 16, 16, 16, 16, 16, 16, 16, 16, 16, 16, 16, 16, 16, 16, 16, 16, 16, 16, 16,
    16, 16, 16, 16, 16, 16, 16, 16, 16, 16, 16, 16, 16, 16, 16, 16, 16, 16, 16, 16, 16, 16, 16, 16,
    16, 16, 16, 16, 16, 16, 16, 16, 16, 16, 16, 16, 16, 16, 16, 16, 16, 16, 16, 16, 16, 16, 16, 16,
    16, 16, 16, 16, 16, 16, 16, 16, 16, 16, 16, 16, 16, 16, 16, 16, 16, 16, 16, 16, 16, 16, 16, 16,
    16, 16, 16, 16, 16, 16, 16, 16, 16, 16, 16, 16, 16, 16, 16, 16, 16, 16, 16, 16, 16, 16, 16, 16,
    16, 16, 16, 16, 16, 16, 16, 16, 16, 16, 16, 16, 16, 16, 16, 16, 16, 16, 16, 16, 16, 16, 16, 16,
    16, 16, 16, 16, 16, 16, 16, 16, 16, 16, 16, 16, 16, 16,
];

/// The values of all bytes.
#[inline(always)]
fn values() -> &'static [u8; 256]
    ensures { AreValues result.now }
{
    &VALUES
}

/// The value of a digit; 16 for a byte that is none.
#[inline(always)]
fn value_of(byte: u8) -> u8
    ensures { result ≡ value_or_sixteen byte }
{
    values()[usize::from(byte)]
}

/// Writes the bytes that hexadecimal digits encode, and returns whether they encode any.
pub(crate) fn decode(word: &[u8], out: &mut [u8]) -> bool
    requires { length out.old ≡ length word.now / 2 }
    ensures spelled { OnTrue result (given (decode_of word.now) ≡ Some out.new) }
    ensures refused { OnFalse result (given (decode_of word.now) ≡ None) }
{
    if word.len() % 2 == 1 {
        return false;
    }
    for at in 0..out.len() {
        let high = value_of(word[2 * at]);
        let low = value_of(word[2 * at + 1]);
        if high > 15 || low > 15 {
            return false;
        }
        out[at] = 16 * high + low;
    }
    true
}
