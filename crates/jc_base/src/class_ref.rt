//! References to classes.

ghost use Rattle.std.specs.Prelude.{◌≡◌};
ghost use Rattle.jc_base.specs.ClassRef.{class_ref_of};

/// From this number on, a number names a class of another package.
const EXTERNAL: u16 = 0x8000;

/// A class as a file names it (Java Card Virtual Machine Specification, CAP file format: `class_ref`).
#[derive(Clone, Copy, Debug, PartialEq, Eq)]
pub enum ClassRef {
    /// The class or interface whose record is at this offset of the package's own Class component, below
    /// 32,768.
    Internal { offset: u16 },
    /// The class with this token in the imported package with this token, below 128.
    External { package: u8, class: u8 },
}

/// The reference that a number of two bytes encodes.
pub fn class_ref_of(number: u16) -> ClassRef
    ensures { result ≡ class_ref_of number }
{
    if number < EXTERNAL {
        ClassRef::Internal { offset: number }
    } else {
        ClassRef::External {
            package: (number / 256 % 128) as u8,
            class: (number % 256) as u8,
        }
    }
}
