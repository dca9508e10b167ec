//! Methods with their declaring classes.

ghost use Rattle.std.specs.Prelude.{◌≡◌, ◌≤◌, IfSome};
ghost use Rattle.jc_names.specs.Names.{method_home, method_offset};
ghost use Rattle.jc_classes.specs.Members.{declared_in, name_of, method_at};

use crate::shape::{Class, DescribedMethod, PackageShape};
use crate::table::ClassTable;
use jc_names::{ClassName, MethodName, PackagePlace, name_in};
use std::marker::Model;

/// A method with its class.
#[derive(Drop)]
pub struct DeclaredMethod<'t> {
    pub class: ClassName,
    pub method: &'t DescribedMethod,
}

impl<'t> Model for DeclaredMethod<'t> {
    ghost use Rattle.jc_classes.specs.Members.{DeclaredMethod as Declared};

    ghost Value = { Declared };

    ghost view = { λ d. record { class = d.class; method = d.method.now } };
}

impl Class {
    /// Its name, if its package stands at this place.
    pub fn name(&self, home: PackagePlace) -> Option<ClassName>
        ensures { result ≡ name_of home self.now }
    {
        name_in(home, self.offset)
    }
}

impl PackageShape {
    /// The method at an offset, if the package stands at this place.
    #[tactic(auto, using(crate::proofs::Placing::declared_is))]
    fn declared_in(&self, home: PackagePlace, offset: u16) -> Option<DeclaredMethod<'_>>
        ensures { result ≡ declared_in home offset self.now }
    {
        let found = self.first_method(offset)?;
        let class = found.class.name(home)?;
        Some(DeclaredMethod {
            class,
            method: found.method,
        })
    }
}

impl ClassTable {
    /// The method with a name, in the class that declares it.
    pub fn method_at(&self, name: MethodName) -> Option<DeclaredMethod<'_>>
        ensures { result ≡ method_at self.now name }
    {
        let home = name.home()?;
        let shape = self.shape(home)?;
        shape.declared_in(home, name.offset())
    }
}
