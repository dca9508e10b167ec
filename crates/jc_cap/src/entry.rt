//! Entries of the constant pool.

ghost use Rattle.std.specs.Prelude.{◌≡◌};
ghost use Rattle.jc_base.specs.Cursor.{Gives};
ghost use Rattle.jc_cap.specs.Entry.{next_member_ref, next_static_ref, next_tagged_entry, next_entry};
ghost use Rattle.jc_cap.specs.PrivateEntry.{entry_has_size};

use jc_base::tag::CONSTANT_POOL;
use jc_base::{ClassRef, Cursor, FixedRow, LoadFault, Row, class_ref_of};

const CLASSREF: u8 = 1;

const INSTANCE_FIELDREF: u8 = 2;

const VIRTUAL_METHODREF: u8 = 3;

const SUPER_METHODREF: u8 = 4;

const STATIC_FIELDREF: u8 = 5;

const STATIC_METHODREF: u8 = 6;

/// If the first byte of a reference to a static member is at or above this, the member is of another package.
const EXTERNAL: u8 = 0x80;

/// An instance field or a virtual method: a class, and the member's token in it.
#[derive(Clone, Copy, Debug, PartialEq, Eq)]
pub struct MemberRef {
    /// The class that is named; it may inherit the member.
    pub class: ClassRef,
    /// The member's token. The high bit marks a package-visible virtual method.
    pub token: u8,
}

/// A static field, or a static method or constructor.
#[derive(Clone, Copy, Debug, PartialEq, Eq)]
pub enum StaticRef {
    /// The member of the same package at this offset of its static image, or of its Method component.
    Internal { offset: u16 },
    /// The member with this token of the class with this token in the imported package with this token,
    /// below 128.
    External { package: u8, class: u8, token: u8 },
}

/// An entry of the constant pool (Java Card Virtual Machine Specification, Constant Pool component: `cp_info`).
#[derive(Clone, Copy, Debug, PartialEq, Eq)]
pub enum PoolEntry {
    /// A class or an interface.
    Classref(ClassRef),
    /// A field of an object.
    InstanceFieldref(MemberRef),
    /// A method that is looked up from the object's class.
    VirtualMethodref(MemberRef),
    /// A method that is looked up from the superclass of the class that is named.
    SuperMethodref(MemberRef),
    /// A static field.
    StaticFieldref(StaticRef),
    /// A static method or a constructor.
    StaticMethodref(StaticRef),
}

/// A reference to a class, and the byte after it.
#[tactic(auto, unfolding(crate::specs::Entry::next_member_ref))]
fn next_member_ref(cursor: &mut Cursor) -> Result<MemberRef, LoadFault>
    ensures { Gives (λ m. m) result cursor.new (next_member_ref cursor.old) }
{
    let class = cursor.u2().ok_or(LoadFault::Malformed(CONSTANT_POOL))?;
    let token = cursor.u1().ok_or(LoadFault::Malformed(CONSTANT_POOL))?;
    Ok(MemberRef {
        class: class_ref_of(class),
        token,
    })
}

/// The reference to a static member.
#[tactic(auto, unfolding(crate::specs::Entry::next_static_ref))]
fn next_static_ref(cursor: &mut Cursor) -> Result<StaticRef, LoadFault>
    ensures { Gives (λ s. s) result cursor.new (next_static_ref cursor.old) }
{
    let front = cursor.u1().ok_or(LoadFault::Malformed(CONSTANT_POOL))?;
    if front < EXTERNAL {
        let offset = cursor.u2().ok_or(LoadFault::Malformed(CONSTANT_POOL))?;
        return Ok(StaticRef::Internal { offset });
    }
    let class = cursor.u1().ok_or(LoadFault::Malformed(CONSTANT_POOL))?;
    let token = cursor.u1().ok_or(LoadFault::Malformed(CONSTANT_POOL))?;
    Ok(StaticRef::External {
        package: front - EXTERNAL,
        class,
        token,
    })
}

/// The rest of an entry, after its tag.
#[tactic(auto, unfolding(crate::specs::Entry::next_tagged_entry))]
fn next_tagged_entry(tag: u8, cursor: &mut Cursor) -> Result<PoolEntry, LoadFault>
    ensures { Gives (λ e. e) result cursor.new (next_tagged_entry tag cursor.old) }
{
    match tag {
        CLASSREF => Ok(PoolEntry::Classref(next_member_ref(cursor)?.class)),
        INSTANCE_FIELDREF => Ok(PoolEntry::InstanceFieldref(next_member_ref(cursor)?)),
        VIRTUAL_METHODREF => Ok(PoolEntry::VirtualMethodref(next_member_ref(cursor)?)),
        SUPER_METHODREF => Ok(PoolEntry::SuperMethodref(next_member_ref(cursor)?)),
        STATIC_FIELDREF => Ok(PoolEntry::StaticFieldref(next_static_ref(cursor)?)),
        STATIC_METHODREF => Ok(PoolEntry::StaticMethodref(next_static_ref(cursor)?)),
        _ => Err(LoadFault::Malformed(CONSTANT_POOL)),
    }
}

impl<'a> Row<Cursor<'a>> for PoolEntry {
    ghost next_row = { next_entry };

    #[tactic(auto, unfolding(crate::specs::Entry::next_entry))]
    fn next_row(cursor: &mut Cursor<'a>) -> Result<PoolEntry, LoadFault> {
        let tag = cursor.u1().ok_or(LoadFault::Malformed(CONSTANT_POOL))?;
        next_tagged_entry(tag, cursor)
    }
}

impl<'a> FixedRow<Cursor<'a>> for PoolEntry {
    ghost size = { 4 };

    fn size() -> u8
        ensures { result ≡ 4 }
    {
        4
    }

    ghost has_size = { entry_has_size };
}
