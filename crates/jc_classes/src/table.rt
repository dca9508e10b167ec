//! The table of a world's classes.

ghost use Rattle.std.specs.Prelude.{◌≡◌, ◌-◌, ◌<◌, ◌≤◌, length, slice_get, IfSome};
ghost use Rattle.std.specs.Option.{option_map};
ghost use Rattle.jc_classes.specs.Limits.{IsSmall, most_packages, most_classes_of_one};
ghost use Rattle.jc_names.specs.Names.{home_of};
ghost use Rattle.jc_classes.specs.World.{package_at, class_at, import_of, loaded_with, class_named, superclass_of};

use crate::shape::{Class, PackageShape};
use crate::shapes::Shapes;
use crate::tables::PackageTables;
use jc_base::{Aid, ClassRef, Shared};
use jc_names::{ClassName, PackagePlace};
use std::marker::Model;

/// The classes of a world: of the API's two packages, and of the loaded packages in the order in which they were added.
#[derive(Drop)]
pub struct ClassTable {
    pub(crate) shapes: Shapes,
    /// The tables of the classes of each package.
    pub(crate) tables: Vec<Shared<PackageTables>>,
}

impl Model for ClassTable {
    ghost use Rattle.std.specs.Prelude.{List};
    ghost use Rattle.jc_cap_desc.specs.Shape.{Shape};
    ghost use Rattle.jc_classes.specs.PrivateTables.{AreTables};

    ghost Value = { List Shape };

    ghost view = { λ t. t.shapes };

    ghost invariant = { λ t. AreTables t.shapes t.tables.items };
}

impl ClassTable {
    /// How many packages there are, those of the API included.
    pub fn len(&self) -> usize
        ensures count { result ≡ length self.now }
        ensures most { result ≤ most_packages }
        ensures small { IsSmall self.now }
    {
        self.shapes.len()
    }

    /// The place of the last package.
    pub fn last(&self) -> PackagePlace
        ensures { result ≡ length self.now - 1 }
    {
        PackagePlace::new(self.len().saturating_sub(1))
    }

    /// The package at a place.
    pub fn shape(&self, home: PackagePlace) -> Option<&PackageShape>
        ensures found { option_map (λ s. s.now) result ≡ slice_get self.now home }
        ensures few { IfSome result (λ s. length s.now.classes ≤ most_classes_of_one) }
        ensures home { IfSome result (λ s. home < most_packages) }
    {
        self.shapes.shape(home)
    }

    /// The package of a class.
    pub(crate) fn package_at(&self, class: ClassName) -> Option<&PackageShape>
        ensures found { option_map (λ s. s.now) result ≡ package_at self.now class }
        ensures few { IfSome result (λ s. length s.now.classes ≤ most_classes_of_one) }
        ensures home { IfSome result (λ s. home_of class < most_packages) }
    {
        self.shapes.package_at(class)
    }

    /// The class with a name.
    pub fn class_at(&self, class: ClassName) -> Option<&Class>
        ensures { option_map (λ k. k.now) result ≡ class_at self.now class }
    {
        self.shapes.class_at(class)
    }

    /// The place of the package that meets the import with a token: the first before the importing one.
    pub fn import_of(&self, home: PackagePlace, token: u8) -> Option<PackagePlace>
        ensures found { result ≡ import_of self.now home token }
        ensures before { IfSome result (λ there. there < home) }
    {
        self.shapes.import_of(home, token)
    }

    /// The place of the loaded package with an AID, before a place.
    pub fn loaded_with(&self, home: PackagePlace, aid: &Aid) -> Option<PackagePlace>
        requires { home ≤ length self.now }
        ensures found { result ≡ loaded_with self.now home aid.now }
        ensures before { IfSome result (λ there. there < home) }
    {
        self.shapes.loaded_with(home, aid)
    }

    /// The class that a reference of the package at place `home` resolves to.
    pub fn class_named(&self, home: PackagePlace, reference: ClassRef) -> Option<ClassName>
        ensures { result ≡ class_named self.now home reference }
    {
        self.shapes.class_named(home, reference)
    }

    /// The superclass of a class.
    pub fn superclass_of(&self, class: ClassName) -> Option<ClassName>
        ensures { result ≡ superclass_of self.now class }
    {
        self.shapes.superclass_of(class)
    }
}
