//! The tests of members' arguments, as data.

/// The use that a member makes of an object, by which the firewall decides.
#[derive(Clone, Copy, Debug)]
pub enum Use {
    /// It constructs the object.
    Fields,
    /// It reads the components of the array.
    Loads,
    /// It writes the components of the array.
    Stores,
    /// It is called on the object.
    Calls,
}

/// A test of a reference among the arguments.
#[derive(Clone, Copy, Debug)]
pub enum Test {
    /// No test.
    Nothing,
    /// The argument at an index is an object that may be used in this way.
    Object(usize, Use),
    /// The argument at an index is null, or an object that may be used in this way.
    ObjectOrNull(usize, Use),
    /// If the first two arguments are AIDs, the second may be called.
    BesideAid,
}

/// The number of components of a range.
#[derive(Clone, Copy, Debug)]
pub enum Length {
    /// The argument at an index, as a short.
    ShortAt(usize),
    /// The low byte of the argument at an index, sign-extended.
    ByteAt(usize),
    /// A fixed number.
    Fixed(u16),
    /// The number of bytes of the AID that is the argument at an index.
    OfAid(usize),
}

/// A range in an array: the indexes of the array and of the offset among the arguments, and the length.
#[derive(Clone, Copy, Debug)]
pub struct Range {
    pub(crate) array: usize,
    pub(crate) offset: usize,
    pub(crate) length: Length,
}

/// The tests of a member: two references from left to right, and then two ranges from left to right.
#[derive(Clone, Copy, Debug)]
pub struct MemberRow {
    pub(crate) first: Test,
    pub(crate) second: Test,
    pub(crate) first_range: Option<Range>,
    pub(crate) second_range: Option<Range>,
}
