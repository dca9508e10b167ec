use crate::package::PACKAGE;
use jc_api::Binding;
use jc_base::cut;
use jc_cap_desc::read_package;
use jc_classes::*;
use jc_names::{ClassName, MethodName};
use std::test::*;

const APPLET: ClassName = ClassName::Loaded {
    package: 1,
    offset: 0,
};

/// Its virtual methods by their tokens.
const METHODS: [(u8, Option<MethodName>); 6] = [
    (0, Some(MethodName::Api { member: 2 })), // equals
    (1, Some(MethodName::Api { member: 34 })), // register
    (
        5,
        Some(MethodName::Loaded {
            package: 1,
            offset: 10,
        }),
    ),
    (6, Some(MethodName::Api { member: 39 })), // selectingApplet
    (7, Some(MethodName::Api { member: 40 })), // getShareableInterfaceObject
    (8, None),
];

#[test]
fn virtual_methods_of_an_applet(rt: HostRuntime) -> Result<(), Fail> {
    let parts = cut(&PACKAGE)?;
    let package = read_package(&parts)?;
    let mut table = ClassTable::new(rt.alloc(), &Binding::default_table())?;
    table.add(&package)?;
    let copy = table.copy(rt.alloc())?;
    for (token, method) in METHODS {
        assert_eq!(rt; table.virtual_method(APPLET, token, 1), method, "{token}");
        assert_eq!(rt; copy.virtual_method(APPLET, token, 1), method, "{token}");
    }
    Ok(())
}
