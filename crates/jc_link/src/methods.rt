//! The methods of a class and those of its superclass, looked up once for each class.

ghost use Rattle.std.specs.Prelude.{◌≡◌, Some};
ghost use Rattle.jc_classes.specs.Methods.{public_method_of, virtual_method_of};
ghost use Rattle.jc_classes.specs.World.{superclass_of};
ghost use Rattle.jc_link.specs.Named.{method_above};
ghost use Rattle.jc_link.specs.PrivateMethods.{AreAllMethodsOf, AreMethodsAbove, method_in};
ghost use Rattle.jc_names.specs.declared.name.ClassName.{ClassName};

use jc_classes::{ClassTable, FoundMethods};
use jc_names::{ClassName, MethodName, PackagePlace};
use std::marker::Model;

/// Tokens from this one on are package-visible.
const PACKAGE_VISIBLE: u8 = 128;

/// The methods of a class at all virtual tokens; the package-visible ones for one package.
#[derive(Drop)]
struct MethodsByToken {
    public: FoundMethods,
    visible: FoundMethods,
}

impl MethodsByToken {
    /// Looks them up, for the package at place `asker`.
    #[tactic(auto, using(crate::proofs::Looking::all_methods))]
    fn new(table: &ClassTable, class: ClassName, asker: usize) -> MethodsByToken
        ensures { AreAllMethodsOf table.now class asker result }
    {
        MethodsByToken {
            public: table.public_methods(class),
            visible: table.visible_methods(class, asker),
        }
    }

    /// The method at a token.
    fn at(&self, token: u8) -> Option<MethodName>
        ensures { result ≡ method_in self.now token }
    {
        if token < PACKAGE_VISIBLE {
            self.public.at(token)
        } else {
            self.visible.at(token - PACKAGE_VISIBLE)
        }
    }
}

/// A class of the package at a place, with its methods for that package, and those of its superclass.
#[derive(Drop)]
pub(crate) struct ClassMethods<'t> {
    table: &'t ClassTable,
    home: PackagePlace,
    class: ClassName,
    own: MethodsByToken,
    above: Option<MethodsByToken>,
}

impl<'t> Model for ClassMethods<'t> {
    ghost use Rattle.jc_link.specs.PrivateMethods.{AreAllMethodsOf, AreMethodsAbove, Asked};

    ghost Value = { Asked };

    ghost view = { λ m. record { world = m.table.now; home = m.home; class = m.class } };

    ghost invariant = { λ m. AreAllMethodsOf m.table.now m.class m.home m.own
        × AreMethodsAbove m.table.now m.home m.class m.above };
}

/// The methods of the superclass, if there is one.
fn methods_above(table: &ClassTable, home: PackagePlace, class: ClassName) -> Option<MethodsByToken>
    ensures { AreMethodsAbove table.now home class result }
{
    let above = table.superclass_of(class)?;
    Some(MethodsByToken::new(table, above, home.index()))
}

impl<'t> ClassMethods<'t> {
    /// Looks them up.
    pub(crate) fn new(table: &'t ClassTable, home: PackagePlace, class: ClassName) -> Self
        ensures { result ≡ record { world = table.now; home = home; class = class } }
    {
        ClassMethods {
            table,
            home,
            class,
            own: MethodsByToken::new(table, class, home.index()),
            above: methods_above(table, home, class),
        }
    }

    /// The world.
    pub(crate) fn table(&self) -> &'t ClassTable
        ensures { result.now ≡ self.now.world }
    {
        self.table
    }

    /// The place of the class's package.
    pub(crate) fn home(&self) -> PackagePlace
        ensures { result ≡ self.now.home }
    {
        self.home
    }

    /// The name of the class.
    pub(crate) fn name(&self) -> ClassName
        ensures { result ≡ self.now.class }
    {
        self.class
    }

    /// The virtual method of the class at a token.
    pub(crate) fn own(&self, token: u8) -> Option<MethodName>
        ensures { result ≡ virtual_method_of self.now.world self.now.class token self.now.home }
    {
        self.own.at(token)
    }

    /// The virtual method of the superclass at a token.
    pub(crate) fn above(&self, token: u8) -> Option<MethodName>
        ensures { result ≡ method_above self.now.world self.now.home token self.now.class }
    {
        match &self.above {
            Some(methods) => methods.at(token),
            None => None,
        }
    }

    /// The public virtual method of the class at a token.
    pub(crate) fn public(&self, token: u8) -> Option<MethodName>
        ensures { result ≡ public_method_of self.now.world self.now.class token }
    {
        if token < PACKAGE_VISIBLE {
            self.own.at(token)
        } else {
            None
        }
    }

    /// The public virtual method of the superclass at a token.
    pub(crate) fn public_above(&self, token: u8) -> Option<MethodName>
        ensures { (above : ClassName) → superclass_of self.now.world self.now.class ≡ Some above
            → result ≡ public_method_of self.now.world above token }
    {
        if token < PACKAGE_VISIBLE {
            self.above(token)
        } else {
            None
        }
    }
}
