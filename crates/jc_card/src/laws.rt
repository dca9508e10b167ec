//! Laws of words, bytes and AIDs that their types imply.

ghost use Rattle.std.specs.Prelude.{◌≡◌, ◌<◌, true};
ghost use Rattle.jc_natives.specs.Kept.{are_bytes, is_aid};

use jc_base::Aid;

/// A word is below 65,536. It does nothing.
pub(crate) fn is_word(word: u16)
    ensures { word < 65536 }
{
    let _ = word;
}

/// Bytes have 8 bits. It does nothing.
pub fn bytes_are_low(bytes: &[u8])
    ensures { are_bytes bytes.now ≡ true }
{}

/// An AID has 5 to 16 bytes. It does nothing.
pub(crate) fn aids_are_fit(aid: &Aid)
    ensures { is_aid aid.now ≡ true }
{
    bytes_are_low(aid.as_slice());
    let _len = aid.len();
}
