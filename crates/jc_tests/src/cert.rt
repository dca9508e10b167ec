use jc_base::LoadFault;
use jc_cert::*;
use std::alloc::Global;
use std::test::Fail;

// No command shows what `write` returns: each of these is read, and written as it was.
const SPELLINGS: [&[u8]; 6] = [
    &[0, 0],
    // One state, with words, null and what isn't known among its locals and its operands.
    &[0, 1, 0, 0, 0, 1, 0, 4, 0, 3, 0, 1, 2, 3, 2, 1, 0],
    // The greatest pc after the least.
    &[0, 1, 0, 0, 0, 2, 0, 0, 0, 0, 0, 255, 255, 0, 0, 0],
    // Three methods, the last at the greatest offset.
    &[
        0, 3, 0, 6, 0, 1, 0, 9, 0, 0, 0, 0, 7, 0, 1, 0, 9, 0, 0, 0, 255, 255, 0, 1, 0, 9, 0, 1, 1,
        0,
    ],
    // Operands, the bottom one first.
    &[0, 1, 1, 5, 0, 1, 2, 7, 0, 0, 3, 0, 1, 2],
    // Every type and every kind of name: an offset, the API's first, last and only interface, the shortest and the
    // longest AID.
    &[
        0, 1, 0, 0, 0, 1, 0, 4, 0, 9, // nine locals
        0, 1, 2, 3, 0, 255, 254, 4, 5, 6, 7, 1, 0, 0, 13, // Shareable
        3, 1, 0, 0, 1, // Object
        4, // four operands
        3, 5, 240, 74, 67, 1, 1, 0, 16, // the shortest AID
        7, 16, 1, 2, 3, 4, 5, 6, 7, 8, 9, 10, 11, 12, 13, 14, 15, 16, 255, 255, // the longest
        7, 0, 0, 0, // an offset
        3, 1, 0, 0, 22, // Util
    ],
];

// These encode no type: a name of 2, 4 and 17 bytes; the API's class 0, 23 and 257, and another byte in front of its
// number; a name that is cut; a byte from 08 on.
const REFUSED_TYPES: [&[u8]; 9] = [
    &[3, 2, 1, 2, 0, 1],
    &[3, 4, 1, 2, 3, 4, 0, 1],
    &[
        7, 17, 1, 2, 3, 4, 5, 6, 7, 8, 9, 10, 11, 12, 13, 14, 15, 16, 17, 0, 1,
    ],
    &[3, 1, 0, 0, 0],
    &[3, 1, 0, 0, 23],
    &[3, 1, 0, 1, 1],
    &[3, 1, 1, 0, 1],
    &[7, 5, 1, 2, 3, 4, 5],
    &[8],
];

#[test]
fn writes_what_it_read(rt: HostRuntime) -> Result<(), Fail> {
    for bytes in SPELLINGS {
        let cert = read(rt.alloc(), bytes)?;
        assert_eq!(rt; write(rt.alloc(), &cert)?.as_slice(), bytes);
    }
    Ok(())
}

// The bytes of a certificate of one state, whose one local has this type.
fn with_local(alloc: Global, ty: &[u8]) -> Result<Vec<u8>, Fail> {
    let mut bytes = Vec::from_slice(alloc, &[0, 1, 0, 0, 0, 1, 0, 4, 0, 1])?;
    bytes.extend_from_slice(ty)?;
    bytes.push(0)?;
    Ok(bytes)
}

#[test]
fn refuses_what_is_no_type(rt: HostRuntime) -> Result<(), Fail> {
    for ty in REFUSED_TYPES {
        let bytes = with_local(rt.alloc(), ty)?;
        assert_eq!(rt;
            read(rt.alloc(), &bytes).err(),
            Some(LoadFault::BadCertificate)
        );
    }
    Ok(())
}

// Bytes that spell the largest state: 65,535 locals and 255 operands.
fn largest_state(alloc: Global) -> Result<Vec<u8>, Fail> {
    let mut bytes = Vec::from_slice(alloc, &[0, 1, 0, 0, 0, 1, 0, 0, 255, 255])?;
    for _ in 0..65_535 {
        bytes.push(1)?;
    }
    for _ in 0..256 {
        bytes.push(255)?;
    }
    Ok(bytes)
}

#[test]
fn the_largest_state(rt: HostRuntime) -> Result<(), Fail> {
    let mut bytes = largest_state(rt.alloc())?;
    assert_eq!(rt;
        read(rt.alloc(), &bytes).err(),
        Some(LoadFault::BadCertificate)
    );
    for index in 65_546..bytes.len() {
        bytes[index] = 2;
    }
    let cert = read(rt.alloc(), &bytes)?;
    assert_eq!(rt; write(rt.alloc(), &cert)?.as_slice(), bytes.as_slice());
    Ok(())
}
