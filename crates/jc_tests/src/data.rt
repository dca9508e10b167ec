use jc_base::{Aid, PackageInfo, cut};
use jc_cap::*;
use std::test::*;

/// Two applets, an imported package, static fields and an exported class; the other components have no bytes.
const IMAGE: [u8; 93] = [
    1, 0, 0, 5, 0, 0, 6, 0, 0, 7, 0, 0, 11, 0, 0, // no bytes
    3, 0, 17, 2, 5, 1, 2, 3, 4, 5, 0, 9, 5, 1, 2, 3, 4, 5, 1, 2, // applets at 9 and 258
    4, 0, 9, 1, 0, 1, 5, 1, 2, 3, 4, 5, // version 1.0
    8, 0, 29, 0, 11, 0, 3, 0, 3, // 11 bytes, three references to three arrays:
    2, 0, 1, 1, 3, 0, 2, 0xFF, 0x7F, 4, 0, 4, 0x80, 0, 0, 1, // a boolean, two bytes, two shorts
    0, 2, 0, 3, 0xAA, 0xBB, 0xCC, // two bytes of value 0 and three others
    10, 0, 11, 1, 0, 5, 1, 2, 0, 10, 0, 16, 1, 2, // a class at 5, a field at 10, methods at 16 and 258
];

#[test]
fn imports_and_applets(rt: HostRuntime) -> Result<(), Fail> {
    let parts = cut(&IMAGE).ok().ok_or("it has its components")?;
    let aid = Aid::from_slice(&[1, 2, 3, 4, 5]).ok_or("an AID")?;
    let imports = read_imports(&parts).ok().ok_or("imports")?;
    let import = PackageInfo {
        minor: 0,
        major: 1,
        aid,
    };
    assert_eq!(rt; imports.get(0), Some(import));
    let applets = read_applets(&parts).ok().ok_or("well-formed")?;
    let applets = applets.ok_or("no library")?;
    assert_eq!(rt; applets.get(0), Some(Applet { aid, install: 9 }));
    assert_eq!(rt; applets.get(1), Some(Applet { aid, install: 258 }));
    assert!(rt; applets.get(0) != applets.get(1));
    Ok(())
}

#[test]
fn static_fields(rt: HostRuntime) -> Result<(), Fail> {
    let parts = cut(&IMAGE).ok().ok_or("it has its components")?;
    let fields = read_static_fields(&parts).ok().ok_or("well-formed")?;
    assert_eq!(rt; fields.image_size(), 11);
    assert_eq!(rt; fields.reference_count(), 3);
    assert_eq!(rt; fields.default_count(), 2);
    assert_eq!(rt; fields.values(), [0xAA, 0xBB, 0xCC].as_slice());
    let mut arrays = fields.arrays();
    let Some(StaticArray::Boolean(booleans)) = arrays.next() else {
        return Err("an array of booleans".into());
    };
    assert_eq!(rt; booleans.get(0), Some(1));
    let Some(StaticArray::Byte(bytes)) = arrays.next() else {
        return Err("an array of bytes".into());
    };
    assert_eq!(rt; bytes.get(0), Some(-1));
    let Some(StaticArray::Short(shorts)) = arrays.next() else {
        return Err("an array of shorts".into());
    };
    assert_eq!(rt; shorts.get(0), Some(-32768));
    assert!(rt; arrays.next().is_none());
    Ok(())
}

#[test]
fn exports(rt: HostRuntime) -> Result<(), Fail> {
    let parts = cut(&IMAGE).ok().ok_or("it has its components")?;
    let exports = read_exports(&parts).ok().ok_or("well-formed")?;
    let class = exports.get(0).ok_or("a class")?;
    assert_eq!(rt; class.class, 5);
    assert_eq!(rt; class.fields.get(0), Some(10));
    assert_eq!(rt; class.methods.get(1), Some(258));
    Ok(())
}
