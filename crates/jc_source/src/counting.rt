//! How often reads failed, or memory ran out for them.

ghost use Rattle.std.specs.Prelude.{◌≡◌, ◌≤◌};
ghost use Rattle.jc_source.specs.Source.{failures_in, shortages_in};

use crate::source::SourceFault;

/// How many failures a read is. A read for which memory ran out is none.
pub fn failures_in(read: &Result<Vec<u8>, SourceFault>) -> u32
    ensures counted { result ≡ failures_in read.now }
    ensures most { result ≤ 1 }
{
    match read {
        Ok(_) | Err(SourceFault::Memory) => 0,
        Err(SourceFault::Failed) => 1,
    }
}

/// For how many reads memory ran out, of one.
pub fn shortages_in(read: &Result<Vec<u8>, SourceFault>) -> u32
    ensures counted { result ≡ shortages_in read.now }
    ensures most { result ≤ 1 }
{
    match read {
        Ok(_) | Err(SourceFault::Failed) => 0,
        Err(SourceFault::Memory) => 1,
    }
}
