//! Owners of objects.

/// The owner of an object (Java Card Runtime Environment Specification, Applet Isolation and Object Sharing: contexts
/// and object ownership): a context, which is 0 for the runtime or the number of a package, and the number of an applet
/// instance, from 1 on. A card numbers its instances consecutively, across all packages. The instance number is 0 for
/// the runtime, and for a package whose objects are made when it is loaded.
#[derive(Clone, Copy, Debug, PartialEq, Eq)]
pub struct Owner {
    pub context: u8,
    pub instance: u8,
}

impl Owner {
    /// The runtime.
    pub const RUNTIME: Owner = Owner {
        context: 0,
        instance: 0,
    };
}
