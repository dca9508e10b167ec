use jc_base::{Aid, PackageInfo, cut};
use jc_cap::*;
use std::test::*;

/// An image of format 2.1 whose Header names the package 1.0 with the AID 0102030405; the other components have no
/// bytes.
const IMAGE: [u8; 33] = [
    5, 0, 0, 6, 0, 0, 7, 0, 0, 8, 0, 0, 11, 0, 0, 1, 0, 15, // no bytes, and the size of the info
    0xDE, 0xCA, 0xFF, 0xED, 1, 2, 4, 0, 1, 5, 1, 2, 3, 4, 5,
];

/// The same in format 2.2, with the name `ab`.
const NAMED: [u8; 36] = [
    5, 0, 0, 6, 0, 0, 7, 0, 0, 8, 0, 0, 11, 0, 0, 1, 0, 18, // no bytes, and the size of the info
    0xDE, 0xCA, 0xFF, 0xED, 2, 2, 4, 0, 1, 5, 1, 2, 3, 4, 5, 2, 97, 98,
];

#[test]
fn headers(rt: HostRuntime) -> Result<(), Fail> {
    let aid = Aid::from_slice(&[1, 2, 3, 4, 5]).ok_or("an AID")?;
    let package = PackageInfo {
        minor: 0,
        major: 1,
        aid,
    };
    let parts = cut(&IMAGE).ok().ok_or("it has its components")?;
    let header = read_header(&parts).ok().ok_or("format 2.1")?;
    assert_eq!(rt; header.format(), Format::TwoOne);
    assert_eq!(rt; header.package(), package);
    assert_eq!(rt; header.name().len(), 0);
    let parts = cut(&NAMED).ok().ok_or("it has its components")?;
    let header = read_header(&parts).ok().ok_or("format 2.2")?;
    assert!(rt; header.format() != Format::TwoOne);
    assert_eq!(rt; header.package(), package);
    assert_eq!(rt; header.name(), [97, 98].as_slice());
    Ok(())
}
