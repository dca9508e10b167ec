//! An index of type descriptors.

ghost use Rattle.std.specs.Prelude.{◌≡◌, ◌∷◌, []};
ghost use Rattle.jc_cap_desc.specs.Across.{is_install_signature};
ghost use Rattle.jc_cap_desc.specs.PrivateTypes.{IndexedSoFar, IndexesTypes, PlacedTypes};

use crate::offsets::{mark, put};
use crate::type_descriptors::TypeDescriptors;
use jc_base::{DeclaredType, NumberSet, Placed, ReturnType};
use jc_cap::Descriptor;

/// The offsets at which type descriptors begin.
#[derive(Drop)]
pub(crate) struct TypeIndex {
    /// The offsets of all descriptors.
    pub(crate) starts: NumberSet,
    /// The offsets of the types of fields.
    pub(crate) fields: NumberSet,
    /// The offsets of the signatures of install methods.
    pub(crate) installs: NumberSet,
}

/// Whether a descriptor is an install method's.
fn is_install_signature(descriptor: &Descriptor) -> bool
    ensures { result ≡ is_install_signature descriptor.now }
{
    let mut parameters = descriptor.parameters();
    let Some(DeclaredType::ByteArray) = parameters.next() else {
        return false;
    };
    let Some(DeclaredType::Short) = parameters.next() else {
        return false;
    };
    let Some(DeclaredType::Byte) = parameters.next() else {
        return false;
    };
    if !parameters.is_empty() {
        return false;
    }
    match descriptor.result() {
        ReturnType::Void => true,
        ReturnType::Value(_) => false,
    }
}

impl TypeIndex {
    /// The index of no descriptors.
    pub(crate) fn empty() -> TypeIndex
        ensures { IndexesTypes result [] }
    {
        TypeIndex {
            starts: NumberSet::empty(),
            fields: NumberSet::empty(),
            installs: NumberSet::empty(),
        }
    }

    /// The index of descriptors, from one pass over them.
    pub(crate) fn of(types: &TypeDescriptors) -> TypeIndex
        ensures { IndexesTypes result types.now }
    {
        let mut index = TypeIndex::empty();
        let mut left = types.rows();
        while let Some(placed) = left.next() {
            index.add(&placed);
        }
        index
    }

    /// Adds the offset of a descriptor.
    fn add(&mut self, placed: &Placed<Descriptor>)
        ensures { (types left : PlacedTypes) → IndexedSoFar types self.old (placed.now ∷ left)
            → IndexedSoFar types self.new left }
    {
        let is_field = placed.row.field_type().is_some();
        mark(&self.starts, &mut self.fields, placed.offset, is_field);
        let is_install = is_install_signature(&placed.row);
        mark(&self.starts, &mut self.installs, placed.offset, is_install);
        put(&mut self.starts, placed.offset);
    }
}
