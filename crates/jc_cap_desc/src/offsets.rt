//! Sets of the offsets at which rows begin.

ghost use Rattle.jc_cap_desc.specs.PrivateOffsets.{HasPut, HasMarked};

use jc_base::NumberSet;

/// Puts an offset into a set; an offset above 65,535 is ignored.
pub(crate) fn put(set: &mut NumberSet, offset: usize)
    ensures { HasPut offset set.old set.new }
{
    if let Ok(number) = u16::try_from(offset) {
        set.insert(number);
    }
}

/// Puts the offset of a row that passes a test into a set, unless an earlier row has the same offset.
pub(crate) fn mark(seen: &NumberSet, set: &mut NumberSet, offset: usize, passes: bool)
    ensures { HasMarked seen.now offset passes set.old set.new }
{
    if let Ok(number) = u16::try_from(offset) {
        if passes && !seen.contains(number) {
            set.insert(number);
        }
    }
}
