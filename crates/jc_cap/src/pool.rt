//! The constant pool as a whole.

ghost use Rattle.std.specs.Prelude.{◌≡◌};
ghost use Rattle.jc_cap.specs.Pool.{pool_of};

use crate::entry::PoolEntry;
use jc_base::tag::CONSTANT_POOL;
use jc_base::{Cursor, LoadFault, Parts, Rows};

/// The constant pool of an image: an entry is found by its index in one step.
pub type ConstantPool<'a> = Rows<Cursor<'a>, PoolEntry>;

#[tactic(auto, unfolding(crate::specs::Pool::pool_of))]
fn pool_in<'a>(info: &'a [u8]) -> Result<ConstantPool<'a>, LoadFault>
    ensures { result ≡ pool_of info.now }
{
    let mut cursor = Cursor::new(info);
    let count = cursor.u2().ok_or(LoadFault::Malformed(CONSTANT_POOL))?;
    Rows::whole(cursor, count, LoadFault::Malformed(CONSTANT_POOL))
}

/// Reads the ConstantPool component. `Malformed(5)` if its info isn't a count and that many entries.
pub fn read_pool<'a>(parts: &Parts<'a>) -> Result<ConstantPool<'a>, LoadFault>
    ensures { result ≡ pool_of parts.now.constant_pool }
{
    pool_in(parts.constant_pool())
}
