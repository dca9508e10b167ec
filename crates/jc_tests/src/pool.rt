use jc_base::{ClassRef, Cursor, DeclaredType, ReturnType, cut};
use jc_cap::*;
use std::test::*;

const OBJECT: ClassRef = ClassRef::External {
    package: 0,
    class: 0,
};

const OWN: ClassRef = ClassRef::Internal { offset: 0x1234 };

const MEMBER: MemberRef = MemberRef {
    class: OWN,
    token: 0x56,
};

/// An image whose ConstantPool has an entry of each tag, and one more; the other components have no bytes.
const IMAGE: [u8; 48] = [
    1, 0, 0, 6, 0, 0, 7, 0, 0, 8, 0, 0, 11, 0, 0, 5, 0, 30, 0, 7, // no bytes, and seven entries
    1, 0x80, 0, 0, 2, 0x12, 0x34, 0x56, 3, 0x12, 0x34, 0x56, 4, 0x12, 0x34, 0x56, // of objects
    5, 0x7F, 0x34, 0x56, 6, 0x81, 0x34, 0x56, 1, 0x12, 0x34, 0, // static, and a class
];

/// Its entries.
const ENTRIES: [PoolEntry; 7] = [
    PoolEntry::Classref(OBJECT),
    PoolEntry::InstanceFieldref(MEMBER),
    PoolEntry::VirtualMethodref(MEMBER),
    PoolEntry::SuperMethodref(MEMBER),
    PoolEntry::StaticFieldref(StaticRef::Internal { offset: 0x3456 }),
    PoolEntry::StaticMethodref(StaticRef::External {
        package: 1,
        class: 0x34,
        token: 0x56,
    }),
    PoolEntry::Classref(OWN),
];

#[test]
fn entries_of_each_tag(rt: HostRuntime) -> Result<(), Fail> {
    let parts = cut(&IMAGE).ok().ok_or("it has its components")?;
    let pool = read_pool(&parts).ok().ok_or("a pool")?;
    for (index, entry) in ENTRIES.iter().enumerate() {
        assert_eq!(rt; pool.at(index as u16), Some(*entry), "{index}");
    }
    assert!(rt; pool.at(0) != pool.at(6));
    Ok(())
}

/// Descriptors: of an install method, of a method that takes an object, of one that takes nothing, and of a field.
const DESCRIPTORS: [u8; 11] = [4, 0xB4, 0x31, 6, 0x68, 0x00, 0x61, 1, 0x10, 1, 0x40];

#[test]
fn descriptors_of_methods(rt: HostRuntime) -> Result<(), Fail> {
    let install = next_descriptor(&mut Cursor::new(&DESCRIPTORS));
    let mut parameters = install.ok().ok_or("a method")?.parameters();
    assert_eq!(rt; parameters.next(), Some(DeclaredType::ByteArray));
    assert_eq!(rt; parameters.next(), Some(DeclaredType::Short));
    assert_eq!(rt; parameters.next(), Some(DeclaredType::Byte));
    assert_eq!(rt; parameters.next(), None);
    let empty = descriptor_at(&DESCRIPTORS, 0, 7).ok_or("a method")?;
    assert_eq!(rt; empty.result(), ReturnType::Void);
    assert_eq!(rt; empty.field_type(), None);
    let field = descriptor_at(&DESCRIPTORS, 3, 9).ok_or("a field")?;
    assert_eq!(rt; field.field_type(), Some(DeclaredType::Short));
    assert!(rt; field.result() != empty.result());
    // Within a descriptor, before the first, past the last, and where bytes are left.
    assert!(rt; descriptor_at(&DESCRIPTORS, 0, 8).is_none());
    assert!(rt; descriptor_at(&DESCRIPTORS, 3, 0).is_none());
    assert!(rt; descriptor_at(&DESCRIPTORS, 0, 11).is_none());
    assert!(rt; descriptor_at(&DESCRIPTORS[..10], 0, 0).is_none());
    Ok(())
}

#[test]
fn descriptors_in_turn(rt: HostRuntime) -> Result<(), Fail> {
    let found = Descriptors::read(&Cursor::new(&DESCRIPTORS), 3);
    let mut descriptors = found.ok().ok_or("descriptors to the end")?;
    for offset in [3, 7, 9] {
        let next = descriptors.next().ok_or("a descriptor")?;
        assert_eq!(rt; next.offset, offset);
    }
    assert!(rt; descriptors.next().is_none());
    Ok(())
}

/// Descriptors of fields, and their types.
const TYPES: [([u8; 4], DeclaredType<ClassRef>); 8] = [
    ([1, 0x20, 0, 0], DeclaredType::Boolean),
    ([1, 0x3F, 0, 0], DeclaredType::Byte),
    ([1, 0x40, 0, 0], DeclaredType::Short),
    ([5, 0x68, 0, 0], DeclaredType::Reference(OBJECT)),
    ([1, 0xA0, 0, 0], DeclaredType::BooleanArray),
    ([1, 0xB0, 0, 0], DeclaredType::ByteArray),
    ([1, 0xC0, 0, 0], DeclaredType::ShortArray),
    ([5, 0xE1, 0x23, 0x4F], DeclaredType::ReferenceArray(OWN)),
];

#[test]
fn descriptors_of_fields(rt: HostRuntime) -> Result<(), Fail> {
    for (bytes, expected) in TYPES {
        let field = next_descriptor(&mut Cursor::new(&bytes));
        let found = field.ok().ok_or("a field")?.field_type();
        assert_eq!(rt; found, Some(expected));
    }
    Ok(())
}

#[test]
fn values_that_differ(rt: HostRuntime) {
    let offset = StaticRef::Internal { offset: 1 };
    assert!(rt; MEMBER != MemberRef { token: 1, ..MEMBER });
    assert!(rt; offset != StaticRef::Internal { offset: 2 });
    assert!(rt; DeclaredType::<ClassRef>::Byte != DeclaredType::Short);
    assert!(rt; DeclaredType::Reference(OWN) != DeclaredType::Reference(OBJECT));
}
