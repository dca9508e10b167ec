use crate::package::PACKAGE;
use jc_base::*;
use std::test::*;

/// The lengths at which the package, cut off, ends after a component, and the least tag that is missing there.
const ENDS: [(usize, u8); 8] = [
    (0, 1),
    (18, 5),
    (31, 5),
    (43, 5),
    (56, 6),
    (75, 7),
    (91, 8),
    (104, 11),
];

#[test]
fn a_package_that_is_cut_off(rt: HostRuntime) {
    for (len, tag) in ENDS {
        let fault = |more: usize| cut(&PACKAGE[..len + more]).err();
        assert_eq!(rt; fault(0), Some(LoadFault::MissingComponent(tag)));
        assert_eq!(rt; fault(1), Some(LoadFault::ExtraBytes));
        assert_eq!(rt; fault(2), Some(LoadFault::ExtraBytes));
        assert_eq!(rt; fault(3), Some(LoadFault::ShortComponent));
    }
}

#[test]
fn parts_of_a_package(rt: HostRuntime) -> Result<(), Fail> {
    let parts = cut(&PACKAGE).ok().ok_or("the package has its components")?;
    assert_eq!(rt; parts.header(), &PACKAGE[3..18]);
    assert_eq!(rt; parts.applet(), Some(&PACKAGE[21..31]));
    assert_eq!(rt; parts.imports(), Some(&PACKAGE[34..43]));
    assert_eq!(rt; parts.constant_pool(), &PACKAGE[46..56]);
    assert_eq!(rt; parts.class(), &PACKAGE[59..75]);
    assert_eq!(rt; parts.method(), &PACKAGE[78..91]);
    assert_eq!(rt; parts.static_field(), &PACKAGE[94..104]);
    assert_eq!(rt; parts.export(), None);
    assert_eq!(rt; parts.descriptor(), &PACKAGE[107..156]);
    Ok(())
}

/// The tags of eight components without bytes, and the fault of each image.
const TAGS: [([u8; 8], Option<LoadFault>); 5] = [
    ([11, 8, 7, 6, 5, 1, 13, 13], None),
    ([1, 5, 6, 7, 8, 11, 0, 0], None),
    (
        [1, 5, 6, 7, 8, 11, 12, 12],
        Some(LoadFault::RepeatedComponent(12)),
    ),
    (
        [1, 11, 11, 8, 8, 7, 6, 5],
        Some(LoadFault::RepeatedComponent(8)),
    ),
    (
        [1, 1, 5, 6, 7, 8, 2, 3],
        Some(LoadFault::MissingComponent(11)),
    ),
];

#[test]
fn components_in_any_order(rt: HostRuntime) {
    for (tags, fault) in TAGS {
        let mut image = [0; 24];
        for (place, tag) in tags.iter().enumerate() {
            image[3 * place] = *tag;
        }
        assert_eq!(rt; cut(&image).err(), fault);
    }
}

/// Values of each type that is compared, and whether they are equal.
#[test]
fn values_that_differ(rt: HostRuntime) -> Result<(), Fail> {
    let aid = Aid::from_slice(&[1, 2, 3, 4, 5]).ok_or("5 bytes are an AID")?;
    let other = Aid::from_slice(&[1, 2, 3, 4, 6]).ok_or("5 bytes are an AID")?;
    let package = PackageInfo {
        minor: 0,
        major: 1,
        aid,
    };
    assert_eq!(rt; aid.as_slice(), [1, 2, 3, 4, 5].as_slice());
    assert!(rt; aid == aid && aid != other);
    assert!(rt;
        package == package
            && package
                != PackageInfo {
                    minor: 1,
                    ..package
                }
    );
    assert!(rt;
        class_ref_of(0x8102)
            == ClassRef::External {
                package: 1,
                class: 2
            }
    );
    assert!(rt; class_ref_of(0x8102) != class_ref_of(0x0102));
    assert!(rt; LoadFault::BadAid != LoadFault::BadMagic);
    assert!(rt; Reason::FallsOff != Reason::NoTarget);
    Ok(())
}
