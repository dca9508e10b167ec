//! Type descriptors.

ghost use Rattle.std.specs.Prelude.{◌≡◌, ◌↔◌, ◌<◌, ℕ, List, Ok, length};
ghost use Rattle.jc_base.specs.Cursor.{Gives};
ghost use Rattle.jc_base.specs.Signature.{Signature};
ghost use Rattle.jc_base.specs.declared.class_ref.ClassRef.{ClassRef};
ghost use Rattle.jc_cap.specs.Descriptor.{IsSpelled, signature_of, next_descriptor, descriptor_at, field_type_of};
ghost use Rattle.jc_cap.specs.PrivateDescriptor.{descriptor_in_front, descriptor_shrinks};

use crate::declared_type::next_return;
use crate::nibbles::{Nibbles, next_nibbles};
use jc_base::tag::DESCRIPTOR;
use jc_base::{
    ClassRef, Cursor, DeclaredType, FrontRow, LoadFault, PlacedRow, PlacedRows, ReturnType, Row,
    Rows, Source,
};
use std::marker::Model;

/// The types of parameters, in their order.
pub type Parameters<'a> = Rows<Nibbles<'a>, DeclaredType<ClassRef>>;

/// A descriptor (Java Card Virtual Machine Specification, Descriptor component: `type_descriptor_info`): the signature
/// of a method. A descriptor without parameters, whose result isn't void, is also the type of a field.
#[derive(Drop)]
pub struct Descriptor<'a> {
    parameters: Parameters<'a>,
    result: ReturnType<ClassRef>,
}

impl<'a> Model for Descriptor<'a> {
    ghost use Rattle.jc_base.specs.Signature.{Signature};
    ghost use Rattle.jc_base.specs.declared.class_ref.ClassRef.{ClassRef};

    ghost Value = { Signature ClassRef };

    ghost view = { λ d. record { parameters = d.parameters; result = d.result } };
}

impl<'a> Descriptor<'a> {
    /// The types of the parameters, without `this`.
    pub fn parameters(&self) -> Parameters<'a>
        ensures { result ≡ self.now.parameters }
    {
        self.parameters.again()
    }

    /// The result.
    pub fn result(&self) -> ReturnType<ClassRef>
        ensures { result ≡ self.now.result }
    {
        self.result
    }

    /// The type of a field that has this descriptor, or `None` if it describes no field.
    pub fn field_type(&self) -> Option<DeclaredType<ClassRef>>
        ensures { result ≡ field_type_of self.now }
    {
        if self.parameters.len() != 0 {
            return None;
        }
        match self.result {
            ReturnType::Void => None,
            ReturnType::Value(found) => Some(found),
        }
    }
}

/// The descriptor that these nibbles encode, or `Malformed(11)` if they encode no signature.
fn signature<'a>(nibbles: &Nibbles<'a>) -> Result<Descriptor<'a>, LoadFault>
    requires { length nibbles.now < 256 }
    ensures { result ≡ signature_of nibbles.now }
{
    let mut left = nibbles.again();
    let mut count = 0;
    loop {
        let result = next_return(&mut left)?;
        if left.is_empty() {
            let parameters = Rows::read(&mut nibbles.again(), count)?;
            return Ok(Descriptor { parameters, result });
        }
        let ReturnType::Value(_) = result else {
            return Err(LoadFault::Malformed(DESCRIPTOR));
        };
        count += 1;
    }
}

/// The next descriptor.
#[tactic(auto, unfolding(crate::specs::Descriptor::next_descriptor))]
pub fn next_descriptor<'a>(cursor: &mut Cursor<'a>) -> Result<Descriptor<'a>, LoadFault>
    ensures { Gives (λ d. d) result cursor.new (next_descriptor cursor.old) }
{
    let count = cursor.u1().ok_or(LoadFault::Malformed(DESCRIPTOR))?;
    let nibbles = next_nibbles(cursor, count)?;
    signature(&nibbles)
}

impl<'a> Row<Cursor<'a>> for Descriptor<'a> {
    ghost next_row = { next_descriptor };

    fn next_row(cursor: &mut Cursor<'a>) -> Result<Descriptor<'a>, LoadFault> {
        next_descriptor(cursor)
    }
}

impl<'a> PlacedRow<Cursor<'a>> for Descriptor<'a> {
    ghost shrinks = { descriptor_shrinks };
}

impl<'a> FrontRow<Cursor<'a>> for Descriptor<'a> {
    ghost in_front = { descriptor_in_front };
}

/// Consecutive descriptors up to the end of the bytes, each found by the offset at which it begins.
pub type Descriptors<'a> = PlacedRows<Cursor<'a>, Descriptor<'a>>;

/// The descriptor that begins at an offset of bytes that are descriptors from offset `first` to their end. It returns
/// `None` if none begins there, or if the bytes aren't such descriptors.
pub fn descriptor_at<'a>(bytes: &'a [u8], first: usize, offset: usize) -> Option<Descriptor<'a>>
    ensures { result ≡ descriptor_at first offset bytes.now }
{
    let descriptors = Descriptors::read(&Cursor::new(bytes), first).ok()?;
    descriptors.at(offset)
}

/// Nibbles are read as a signature if and only if they encode it.
pub fn signatures_are_spelled()
    ensures { (nibbles : List ℕ) (s : Signature ClassRef)
        → (signature_of nibbles ≡ Ok s) ↔ IsSpelled s.parameters s.result nibbles }
{}
