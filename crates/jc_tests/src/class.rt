use jc_base::{ClassRef, LoadFault, cut};
use jc_cap::{Format, *};
use std::test::*;

/// The Class component has interfaces at 0 and 1, and a class at 4; the other components have no bytes.
const IMAGE: [u8; 41] = [
    1, 0, 0, 5, 0, 0, 7, 0, 0, 8, 0, 0, 11, 0, 0, 6, 0, 23, // no bytes, and the size of the info
    0xC0, // a shareable interface
    0x81, 0, 0, // an interface, which extends the first
    1, 0x80, 6, 3, 0, 1, 7, 1, 128, 1, // a class below class 6 of package 0, of size 3, methods from 7 and 128 on
    1, 2, 0xFF, 0xFF, // a method at 258, and one that another package declares
    0, 1, 2, 7, 0x80, // interface 1, whose methods are 7 and 128
];

/// The Class component of format 2.2 has a pool of one byte, and an interface after it.
const POOLED: [u8; 22] = [
    1, 0, 0, 5, 0, 0, 7, 0, 0, 8, 0, 0, 11, 0, 0, 6, 0, 4, 0, 1, 9, 0x80,
];

#[test]
fn records(rt: HostRuntime) -> Result<(), Fail> {
    let parts = cut(&IMAGE).ok().ok_or("it has its components")?;
    let records = read_class(&parts, Format::TwoOne)
        .ok()
        .ok_or("well-formed")?;
    let first = records.at(0).ok_or("an interface")?;
    assert!(rt; !first.is_remote);
    let RecordBody::Interface(first) = first.body else {
        return Err("an interface".into());
    };
    assert_eq!(rt; first.superinterfaces.len(), 0);
    let second = records.at(1).ok_or("an interface")?;
    let RecordBody::Interface(second) = second.body else {
        return Err("an interface".into());
    };
    let interface = ClassRef::Internal { offset: 0 };
    assert_eq!(rt;
        second.superinterfaces.at(0),
        Some(Superinterface { interface })
    );
    assert!(rt; records.at(2).is_none());
    let class = records.at(4).ok_or("a class")?;
    let RecordBody::Class(class) = class.body else {
        return Err("a class".into());
    };
    let superclass = ClassRef::External {
        package: 0,
        class: 6,
    };
    assert_eq!(rt; class.superclass, Some(superclass));
    assert_eq!(rt; class.declared_size, 3);
    assert_eq!(rt; class.public_methods.base, 7);
    assert_eq!(rt; class.public_methods.methods.get(0), Some(258));
    assert_eq!(rt; class.package_methods.base, 128);
    assert_eq!(rt; class.package_methods.methods.get(0), Some(0xFFFF));
    let implemented = class.interfaces.get(0).ok_or("an interface")?;
    assert_eq!(rt; implemented.interface(), ClassRef::Internal { offset: 1 });
    assert_eq!(rt; implemented.indexes(), [7, 0x80].as_slice());
    Ok(())
}

#[test]
fn a_pool_of_signatures(rt: HostRuntime) -> Result<(), Fail> {
    let parts = cut(&POOLED).ok().ok_or("it has its components")?;
    let records = read_class(&parts, Format::TwoTwo)
        .ok()
        .ok_or("well-formed")?;
    assert!(rt; records.at(0).is_none());
    assert!(rt; records.at(3).is_some());
    let told = read_class(&parts, Format::TwoOne).err();
    assert_eq!(rt; told, Some(LoadFault::Malformed(6)));
    Ok(())
}
