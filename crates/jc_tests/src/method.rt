use jc_base::cut;
use jc_cap::*;
use std::test::*;

/// An image whose Method component has two handlers, the first for three bytes from 10 on with its stop bit set, a
/// short header at 17 and an extended one of an abstract method at 20; the other components have no bytes.
const IMAGE: [u8; 43] = [
    1, 0, 0, 5, 0, 0, 6, 0, 0, 8, 0, 0, 11, 0, 0, 7, 0, 25, // no bytes, and the size of the info
    2, 0, 10, 0x80, 3, 0, 13, 0, 2, 0, 0, 0, 1, 0, 13, 0, 0, // two handlers
    0x02, 0x31, 0x7A, // a header and its code
    0xCF, 0xFF, 0x80, 0x7F, 0x7A, // another
];

#[test]
fn handlers(rt: HostRuntime) -> Result<(), Fail> {
    let parts = cut(&IMAGE).ok().ok_or("it has its components")?;
    let method = read_method(&parts).ok().ok_or("the table fits")?;
    let handler = Handler {
        start: 10,
        active_length: 3,
        handler: 13,
        catch_type: 2,
    };
    assert_eq!(rt; method.handler_count(), 2);
    let handlers = method.handlers(0, 2).ok_or("two rows")?;
    assert_eq!(rt; handlers.at(0), Some(handler));
    assert!(rt; handlers.at(1) != Some(handler));
    Ok(())
}

#[test]
fn methods(rt: HostRuntime) -> Result<(), Fail> {
    let parts = cut(&IMAGE).ok().ok_or("it has its components")?;
    let method = read_method(&parts).ok().ok_or("the table fits")?;
    let short = MethodHeader {
        is_abstract: false,
        max_stack: 2,
        nargs: 3,
        max_locals: 1,
    };
    let extended = MethodHeader {
        is_abstract: true,
        max_stack: 255,
        nargs: 128,
        max_locals: 127,
    };
    let found = method.method_at(17).ok_or("a method")?;
    assert_eq!(rt; found.header(), short);
    assert_eq!(rt; found.code_offset(), 19);
    assert_eq!(rt; found.code(), &IMAGE[37..]);
    assert_eq!(rt; method.header_at(20), Some(extended));
    assert!(rt; method.header_at(17) != method.header_at(20));
    assert_eq!(rt; method.code_at(20), Some(&IMAGE[42..]));
    assert_eq!(rt; method.code_at(25), None);
    Ok(())
}
