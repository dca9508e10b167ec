use crate::package::PACKAGE;
use jc_base::{DeclaredType, LoadFault, ReturnType, cut};
use jc_cap_desc::*;
use std::alloc::Global;
use std::test::*;

/// A library with an interface at 0 and an abstract class at 1. The interface has two methods, at no offset. The class
/// has a static field, an instance field, a static method at 9 with a handler, and an abstract one at 14.
const LIBRARY: [u8; 161] = [
    1, 0, 15, 0xDE, 0xCA, 0xFF, 0xED, 1, 2, 0, 0, 1, 5, 1, 2, 3, 4, 5, // its Header
    5, 0, 2, 0, 0, // no pool entries
    6, 0, 11, 0x80, 0x00, 0xFF, 0xFF, 1, 0, 0, 0, 0, 0, 0, // two records
    7, 0, 16, 1, 0, 11, 0, 3, 0, 13, 0, 0, // a handler for all three bytes of code, which goes on at the last
    0x01, 0x10, 0x7A, 0x7A, 0x7A, // a header and its code
    0x40, 0x10, // a header of an abstract method
    8, 0, 10, 0, 2, 0, 0, 0, 0, 0, 2, 0, 0, // a static image of two bytes
    11, 0, 89, 2, // two rows
    0xFF, 0x40, 0, 0, 0, 0, 0, 0, 2, // the interface, with two methods
    0, 0, 0xFF, 0xFF, 0, 2, 0, 0, 0, 0, 0, 0, // token 0
    1, 0, 0xFF, 0xFF, 0, 2, 0, 0, 0, 0, 0, 0, // token 1
    0xFF, 0x80, 0, 1, 0, 0, 2, 0, 2, // the class, with two fields and two methods
    0xFF, 8, 0, 0, 0, 0x80, 4, // a static short at 0
    0xFF, 0, 0, 1, 0, 0, 4, // a reference of token 0
    0xFF, 8, 0, 9, 0, 2, 0, 3, 0, 1, 0, 0, // three bytes of code and a handler
    1, 0, 0, 14, 0, 2, 0, 0, 0, 0, 0, 0, // no code
    0, 0, 1, 0x10, 5, 0x60, 0, 0x10, // no pool types, and two descriptors: void, and class 1
];

/// The bytes before and after the Class component of a package of format 2.2, whose one row names the record at 32,767.
const BEFORE_CLASSES: [u8; 25] = [
    1, 0, 16, 0xDE, 0xCA, 0xFF, 0xED, 2, 2, 0, 0, 1, 5, 1, 2, 3, 4, 5, 0, // Header
    5, 0, 2, 0, 0, // no pool entries
    6, // and then the Class component
];

const BEHIND_CLASSES: [u8; 32] = [
    7, 0, 1, 0, // no handlers
    8, 0, 10, 0, 0, 0, 0, 0, 0, 0, 0, 0, 0, // no static fields
    11, 0, 12, 1, 0xFF, 0, 0x7F, 0xFF, 0, 0, 0, 0, 0, 0, 0, // Descriptor
];

/// That package, whose one record follows this many bytes of signatures.
fn record_behind(signatures: u16, alloc: Global) -> Result<Vec<u8>, Fail> {
    let mut image = Vec::from_slice(alloc, &BEFORE_CLASSES)?;
    image.extend_from_slice(&signatures.wrapping_add(12).to_be_bytes())?;
    image.extend_from_slice(&signatures.to_be_bytes())?;
    for _ in 0..signatures {
        image.push(0)?;
    }
    image.extend_from_slice(&[0, 0xFF, 0xFF, 1, 0, 0, 0, 0, 0, 0])?;
    image.extend_from_slice(&BEHIND_CLASSES)?;
    Ok(image)
}

fn read(image: &[u8]) -> Result<(), LoadFault> {
    read_package(&cut(image)?)?;
    Ok(())
}

#[test]
fn the_last_record_that_can_be_named(rt: HostRuntime) -> Result<(), Fail> {
    assert_eq!(rt; read(&record_behind(32_765, rt.alloc())?), Ok(()));
    assert_eq!(rt;
        read(&record_behind(32_766, rt.alloc())?),
        Err(LoadFault::Malformed(11))
    );
    Ok(())
}

#[test]
fn an_applet(rt: HostRuntime) -> Result<(), Fail> {
    let parts = cut(&PACKAGE).ok().ok_or("it has its components")?;
    let package = read_package(&parts).ok().ok_or("it is well-formed")?;
    assert_eq!(rt; package.package().minor, 0);
    assert_eq!(rt; package.name().len(), 0);
    let applets = package.applets().ok_or("it isn't a library")?;
    assert_eq!(rt; applets.len(), 1);
    assert_eq!(rt; package.imports().len(), 1);
    assert_eq!(rt; package.exports().len(), 0);
    assert_eq!(rt; package.pool().len(), 2);
    assert_eq!(rt; package.statics().image_size(), 0);
    let class = package.classes().next().ok_or("a class")?;
    assert!(rt; class.fields().next().is_none());
    let install = class.methods().next().ok_or("a method")?;
    let mut parameters = install.signature().parameters();
    assert_eq!(rt; parameters.next(), Some(DeclaredType::ByteArray));
    assert_eq!(rt; parameters.len(), 2);
    Ok(())
}

#[test]
fn the_shape_of_a_library(rt: HostRuntime) -> Result<(), Fail> {
    let parts = cut(&LIBRARY).ok().ok_or("it has its components")?;
    let package = read_package(&parts).ok().ok_or("it is well-formed")?;
    assert!(rt; package.applets().is_none());
    let mut classes = package.classes();
    let interface = classes.next().ok_or("an interface")?;
    let mut methods = interface.methods();
    let method = methods.next().ok_or("a method")?;
    assert!(rt; method.header().is_none());
    let class = classes.next().ok_or("a class")?;
    assert!(rt; classes.next().is_none());
    assert_eq!(rt; class.offset(), 1);
    assert!(rt; class.is_abstract());
    let mut fields = class.fields();
    let field = fields.next().ok_or("a static field")?;
    assert_eq!(rt; field.place(), FieldPlace::Static { offset: 0 });
    assert_eq!(rt; field.declared_type(), DeclaredType::Short);
    assert!(rt; fields.next().is_some());
    assert!(rt; fields.next().is_none());
    let mut methods = class.methods();
    let method = methods.next().ok_or("a static method")?;
    assert!(rt; method.is_static());
    assert_eq!(rt; method.signature().result(), ReturnType::Void);
    let method = methods.next().ok_or("an abstract method")?;
    assert_eq!(rt; (method.token(), method.offset()), (1, 14));
    assert!(rt; method.header().is_some_and(|header| header.is_abstract));
    Ok(())
}
