//! The names of entries of the constant pool.

use jc_names::{ClassName, MethodName, PackagePlace};

/// The place of a static member.
#[derive(Clone, Copy)]
pub struct StaticPlace {
    /// The place of its package in the world, in which those of the API are first.
    pub home: PackagePlace,
    /// Its offset in the package's static image, or in its Method component.
    pub offset: u16,
}

/// What an entry of the constant pool names (Java Card Virtual Machine Specification, Constant Pool component:
/// `cp_info`).
#[derive(Clone, Copy)]
pub enum Named {
    /// A class or an interface.
    Class(ClassName),
    /// An instance field: the class that is named, and the field's token in it.
    InstanceField {
        class: ClassName,
        token: u8,
    },
    /// A static field.
    StaticField(StaticPlace),
    /// A virtual method: the class that is named, the token, and the method that the class has there.
    VirtualMethod {
        class: ClassName,
        token: u8,
        method: MethodName,
    },
    /// A method of the superclass of the class that is named.
    SuperMethod {
        class: ClassName,
        method: MethodName,
    },
    /// A static method or a constructor.
    StaticMethod {
        method: MethodName,
    },
}
