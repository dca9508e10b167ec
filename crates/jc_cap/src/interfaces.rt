//! The interfaces that records list.

ghost use Rattle.std.specs.Prelude.{◌≡◌};
ghost use Rattle.jc_cap.specs.Interfaces.{next_superinterface, next_implemented};
ghost use Rattle.jc_cap.specs.PrivateInterfaces.{superinterface_has_size};

use jc_base::tag::CLASS;
use jc_base::{ClassRef, Cursor, FixedRow, LoadFault, Row, Rows, class_ref_of};
use std::marker::Model;

/// An interface that an interface's record lists.
#[derive(Clone, Copy, Debug, PartialEq, Eq)]
pub struct Superinterface {
    pub interface: ClassRef,
}

impl<'a> Row<Cursor<'a>> for Superinterface {
    ghost next_row = { next_superinterface };

    #[tactic(auto, unfolding(crate::specs::Interfaces::next_superinterface))]
    fn next_row(cursor: &mut Cursor<'a>) -> Result<Superinterface, LoadFault> {
        let number = cursor.u2().ok_or(LoadFault::Malformed(CLASS))?;
        Ok(Superinterface {
            interface: class_ref_of(number),
        })
    }
}

impl<'a> FixedRow<Cursor<'a>> for Superinterface {
    ghost size = { 2 };

    fn size() -> u8
        ensures { result ≡ 2 }
    {
        2
    }

    ghost has_size = { superinterface_has_size };
}

/// The interfaces that an interface's record lists, in their order.
pub type Superinterfaces<'a> = Rows<Cursor<'a>, Superinterface>;

/// An interface that a class's record lists, with the class's virtual tokens for the interface's methods.
#[derive(Drop)]
pub struct ImplementedInterface<'a> {
    interface: ClassRef,
    indexes: &'a [u8],
}

impl<'a> Model for ImplementedInterface<'a> {
    ghost use Rattle.jc_cap.specs.Interfaces.{Implemented};

    ghost Value = { Implemented };

    ghost view = { λ i. record { interface = i.interface; indexes = i.indexes.now } };
}

impl<'a> ImplementedInterface<'a> {
    /// The interface.
    pub fn interface(&self) -> ClassRef
        ensures { result ≡ self.now.interface }
    {
        self.interface
    }

    /// The class's virtual tokens, by the interface's tokens.
    pub fn indexes(&self) -> &'a [u8]
        ensures { result.now ≡ self.now.indexes }
    {
        self.indexes
    }
}

impl<'a> Row<Cursor<'a>> for ImplementedInterface<'a> {
    ghost next_row = { next_implemented };

    #[tactic(auto, unfolding(crate::specs::Interfaces::next_implemented))]
    fn next_row(cursor: &mut Cursor<'a>) -> Result<ImplementedInterface<'a>, LoadFault> {
        let number = cursor.u2().ok_or(LoadFault::Malformed(CLASS))?;
        let count = cursor.u1().ok_or(LoadFault::Malformed(CLASS))?;
        let indexes = cursor
            .take(usize::from(count))
            .ok_or(LoadFault::Malformed(CLASS))?;
        Ok(ImplementedInterface {
            interface: class_ref_of(number),
            indexes,
        })
    }
}

/// The interfaces that a class's record lists, in their order.
pub type ImplementedInterfaces<'a> = Rows<Cursor<'a>, ImplementedInterface<'a>>;
