//! The methods of a class, with their headers and types.

ghost use Rattle.std.specs.Prelude.{◌≡◌, ◌∷◌, [], length, IfSome, IfNone};
ghost use Rattle.jc_cap_desc.specs.PrivateShape.{header_if};
ghost use Rattle.jc_cap_desc.specs.Shape.{method_shape};

use crate::class_row::{MethodRow, MethodRows};
use crate::type_descriptors::TypeDescriptors;
use jc_cap::{Descriptor, MethodHeader, MethodInfo};
use std::marker::Model;

/// A method of a class or an interface.
#[derive(Drop)]
pub struct ClassMethod<'a> {
    row: MethodRow,
    header: Option<MethodHeader>,
    signature: Descriptor<'a>,
}

impl<'a> Model for ClassMethod<'a> {
    ghost use Rattle.jc_cap_desc.specs.Shape.{MethodShape};

    ghost Value = { MethodShape };

    ghost view = { λ m. record {
      token = m.row.token;
      is_static = m.row.is_static;
      offset = m.row.offset;
      header = m.header;
      signature = m.signature;
    } };
}

impl<'a> ClassMethod<'a> {
    /// Its token, which is used only in an interface.
    pub fn token(&self) -> u8
        ensures { result ≡ self.now.token }
    {
        self.row.token
    }

    /// Whether it is static.
    pub fn is_static(&self) -> bool
        ensures { result ≡ self.now.is_static }
    {
        self.row.is_static
    }

    /// The offset of its header in the Method component, which is used only in a class.
    pub fn offset(&self) -> u16
        ensures { result ≡ self.now.offset }
    {
        self.row.offset
    }

    /// Its header. An interface's methods have none.
    pub fn header(&self) -> Option<MethodHeader>
        ensures { result ≡ self.now.header }
    {
        self.header
    }

    /// Its signature.
    pub fn signature(&self) -> &Descriptor<'a>
        ensures { result.now ≡ self.now.signature }
    {
        &self.signature
    }
}

/// The header at an offset, if `counts` holds.
fn header_if(counts: bool, methods: &MethodInfo, offset: u16) -> Option<MethodHeader>
    ensures { result ≡ header_if counts methods.now offset }
{
    if counts {
        methods.header_at(offset)
    } else {
        None
    }
}

/// The method of a row, if its type exists.
fn method_of<'a>(
    types: &TypeDescriptors<'a>,
    header: Option<MethodHeader>,
    row: MethodRow,
) -> Option<ClassMethod<'a>>
    ensures { result ≡ method_shape types.now (λ _. header) row }
{
    let signature = types.at(row.type_offset)?;
    Some(ClassMethod {
        row,
        header,
        signature,
    })
}

/// The methods of a class or an interface.
#[derive(Drop)]
pub struct ClassMethods<'p, 'a> {
    pub(crate) types: &'p TypeDescriptors<'a>,
    pub(crate) bodies: &'p MethodInfo<'a>,
    pub(crate) is_class: bool,
    pub(crate) left: MethodRows<'a>,
}

impl<'p, 'a> Model for ClassMethods<'p, 'a> {
    ghost use Rattle.std.specs.Prelude.{◌≡◌, true, List};
    ghost use Rattle.std.specs.List.{filter_map};
    ghost use Rattle.jc_cap_desc.specs.Shape.{MethodShape, method_shape};
    ghost use Rattle.jc_cap_desc.specs.PrivateShape.{header_if};
    ghost use Rattle.jc_cap_desc.specs.Types.{methods_are_typed};

    ghost Value = { List MethodShape };

    ghost view = { λ m. filter_map (method_shape m.types.now (header_if m.is_class m.bodies.now)) m.left };

    ghost invariant = { λ m. methods_are_typed m.types.now m.left ≡ true };
}

impl<'p, 'a> ClassMethods<'p, 'a> {
    /// How many are left.
    #[tactic(auto, using(crate::proofs::Typing::all_typed))]
    pub fn len(&self) -> u16
        ensures { result ≡ length self.now }
    {
        self.left.count()
    }

    /// Takes the first method off, or returns `None` if there is none.
    #[tactic(auto, using(crate::proofs::Typing::first_made, crate::proofs::Typing::rest_typed))]
    pub fn next(&mut self) -> Option<ClassMethod<'a>>
        ensures some { IfSome result (λ method. self.old ≡ method ∷ self.new) }
        ensures none { IfNone result ((self.old ≡ []) × (self.new ≡ [])) }
    {
        let row = self.left.next()?;
        let header = header_if(self.is_class, self.bodies, row.offset);
        method_of(self.types, header, row)
    }
}
