//! The setting of a method's code.

ghost use Rattle.std.specs.Prelude.{◌≡◌, slice_get};
ghost use Rattle.std.specs.Option.{option_copied, option_map};
ghost use Rattle.jc_effects.specs.Objects as objects;

use jc_classes::ClassTable;
use jc_link::{Linked, PoolTarget};
use jc_types::Ty;
use std::marker::Model;

/// The setting of a method's code: its package, and the type of its result.
#[derive(Drop)]
pub struct Setting<'l> {
    pub(crate) linked: &'l Linked,
    pub(crate) returned: Option<Ty>,
}

impl<'l> Model for Setting<'l> {
    ghost use Rattle.jc_effects.specs.Objects.{Setting as Read};

    ghost Value = { Read };

    ghost view = { λ s. record {
      world = s.linked.now.world;
      targets = s.linked.now.body.targets;
      returned = s.returned;
    } };
}

impl<'l> Setting<'l> {
    /// The setting of a method of a linked package with a result of this type, or none.
    pub fn new(linked: &'l Linked, returned: Option<Ty>) -> Setting<'l>
        ensures { result ≡ record { world = linked.now.world; targets = linked.now.body.targets; returned = returned } }
    {
        Setting { linked, returned }
    }

    /// The classes of the world.
    pub(crate) fn table(&self) -> &'l ClassTable
        ensures { result.now ≡ self.now.world }
    {
        self.linked.table()
    }

    /// The target of an entry of the constant pool.
    pub(crate) fn target(&self, index: u16) -> Option<&'l PoolTarget>
        ensures { option_map (λ t. t.now) result ≡ slice_get self.now.targets index }
    {
        self.linked.body().targets().get(usize::from(index))
    }

    /// The type of the method's result, unless it is void.
    pub(crate) fn returned(&self) -> Option<&Ty>
        ensures { option_copied result ≡ self.now.returned }
    {
        self.returned.as_ref()
    }
}
