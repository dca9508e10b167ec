use jc_api::*;
use std::test::*;

/// The default table's own text.
const DEFAULT_TEXT: &str = "\
package 1 F04A430101 1 0\npackage 2 F04A430102 1 0\nclass 1 0\nclass 2 1\nclass 3 2\nclass 4 3\n\
class 5 4\nclass 6 5\nclass 7 6\nclass 8 7\nclass 9 8\nclass 10 9\nclass 11 10\nclass 12 11\nclass 13 0\n\
class 14 1\nclass 15 2\nclass 16 3\nclass 17 4\nclass 18 5\nclass 19 6\nclass 20 7\nclass 21 8\n\
class 22 9\nmember 1 0\nmember 2 0\nmember 3 0\nmember 4 0\nmember 5 0\nmember 6 0\nmember 7 0\n\
member 8 0\nmember 9 0\nmember 10 0\nmember 11 0\nmember 12 0\nmember 13 0\nmember 14 0\nmember 15 1\n\
member 16 2\nmember 17 0\nmember 18 1\nmember 19 0\nmember 20 1\nmember 21 0\nmember 22 1\nmember 23 0\n\
member 24 1\nmember 25 2\nmember 26 1\nmember 27 2\nmember 28 3\nmember 29 4\nmember 30 5\nmember 31 6\n\
member 32 7\nmember 33 0\nmember 34 1\nmember 35 2\nmember 36 3\nmember 37 4\nmember 38 5\nmember 39 6\n\
member 40 7\nmember 41 0\nmember 42 1\nmember 43 2\nmember 44 3\nmember 45 4\nmember 46 5\nmember 47 6\n\
member 48 7\nmember 49 0\nmember 50 1\nmember 51 2\nmember 52 3\nmember 53 4\nmember 54 5\nmember 55 6\n";

/// Texts that are no binding, and their faults.
const TEXTS: [(&str, BindingFault); 30] = [
    ("", BindingFault::Missing),
    ("class 23 0", BindingFault::BadLine(1)),
    ("class 0 0", BindingFault::BadLine(1)),
    ("class 20 6\nclass 20 7\n", BindingFault::Repeated(2)),
    ("class 20 6\nclass 020 6\n", BindingFault::Repeated(2)),
    ("class 19 6\nclass 20 6", BindingFault::Clash(2)),
    ("class 7 6\nclass 20 6", BindingFault::Missing), // another package
    (
        "#\n\nclass 19 6\n# class\nclass 20 6\n",
        BindingFault::Clash(5),
    ),
    ("class 1 000254", BindingFault::Missing),
    ("class 1 255", BindingFault::BadLine(1)),
    (
        "class 1 99999999999999999999999999",
        BindingFault::BadLine(1),
    ),
    ("member 2 128", BindingFault::BadLine(1)),
    ("member 1 254", BindingFault::Missing),
    ("member 56 0", BindingFault::BadLine(1)),
    ("member 2 3\nmember 36 3", BindingFault::Clash(2)), // of Object and of Applet
    ("member 36 3\nmember 2 3", BindingFault::Clash(2)),
    ("member 36 3\nmember 15 3", BindingFault::Missing), // of Applet and of CardRuntimeException
    ("member 33 3\nmember 36 3", BindingFault::Missing), // a constructor and a virtual method
    ("member 17 3\nmember 18 3", BindingFault::Clash(2)), // a constructor and a static method
    (
        "package 1 F04A430101 1 0\npackage 2 f04a430101 1 0",
        BindingFault::Clash(2),
    ),
    ("package 1 F04A4301 1 0", BindingFault::BadLine(1)),
    ("package 1 F04A430101 1 256", BindingFault::BadLine(1)),
    ("package 3 F04A430101 1 0", BindingFault::BadLine(1)),
    ("class 1 0\r\n", BindingFault::BadLine(1)),
    ("class\t1 0", BindingFault::BadLine(1)),
    ("class  1 0", BindingFault::BadLine(1)),
    (" class 1 0", BindingFault::BadLine(1)),
    ("class 1 0 ", BindingFault::BadLine(1)),
    ("class 1 0 # Object", BindingFault::BadLine(1)),
    ("\n ", BindingFault::BadLine(2)),
];

#[test]
fn the_default_text(rt: HostRuntime) -> Result<(), Fail> {
    assert_eq!(rt; DEFAULT_TEXT.lines().count(), 79);
    let read = Binding::from_text(DEFAULT_TEXT).ok().ok_or("a binding")?;
    let table = Binding::default_table();
    for package in [ApiPackage::Lang, ApiPackage::Framework] {
        assert_eq!(rt; read.package(package), table.package(package));
    }
    for number in 0..=23 {
        if let Some(class) = ApiClass::from_number(number) {
            assert_eq!(rt; class.number(), number);
            assert_eq!(rt; read.class_token(number), table.class_token(number));
        }
    }
    for number in 0..=56 {
        assert_eq!(rt; read.member_token(number), table.member_token(number));
    }
    assert_eq!(rt; table.member_token(55), Some(6));
    assert_eq!(rt; table.member_token(56), None);
    Ok(())
}

#[test]
fn faults(rt: HostRuntime) {
    for (text, fault) in TEXTS {
        assert_eq!(rt; Binding::from_text(text).err(), Some(fault), "at {text}");
    }
}

#[test]
fn printed_faults(rt: HostRuntime) -> Result<(), Fail> {
    let printed = format!(in rt.alloc(); "{} {}", BindingFault::BadLine(3), BindingFault::Missing)?;
    assert_eq!(rt; printed.as_str(), "BadLine 3 Missing");
    Ok(())
}
