//! The packages of a world.

ghost use Rattle.std.specs.Prelude.{◌≡◌, ◌<◌, ◌≤◌, ◌==◌, List, [], length, bytes_eq, slice_get, IfOk, IfErr, IfSome};
ghost use Rattle.std.specs.List.{position};
ghost use Rattle.std.specs.Option.{option_map, option_map_or};
ghost use Rattle.jc_cap_desc.specs.Shape.{Shape};
ghost use Rattle.jc_classes.specs.Growth.{grown};
ghost use Rattle.jc_names.specs.Names.{home_of};
ghost use Rattle.jc_classes.specs.World.{class_in, package_at, class_at, meets, import_of, loaded_with, exported_class};
ghost use Rattle.jc_classes.specs.World.{class_spelled, if_there, class_named, superclass_ref, superclass_of};
ghost use Rattle.jc_classes.specs.PrivateSearch.{class_placed};
ghost use Rattle.jc_classes.specs.PrivateShape.{record_of};
ghost use Rattle.jc_classes.specs.Limits.{IsSmall, most_packages, most_classes_of_one};

use crate::copies::all_shared;
use crate::places::place_at;
use crate::shape::{Body, Class, PackageShape};
use jc_base::{Aid, ClassRef, PackageInfo, Shared};
use jc_names::{ClassName, PackagePlace, name_in};
use std::alloc::{AllocError, Global};
use std::marker::Model;

/// The packages of a world, without the tables of their classes.
#[derive(Drop)]
pub(crate) struct Shapes {
    packages: Vec<Shared<PackageShape>>,
}

impl Model for Shapes {
    ghost use Rattle.std.specs.Prelude.{List};
    ghost use Rattle.jc_cap_desc.specs.Shape.{Shape};
    ghost use Rattle.jc_classes.specs.Limits.{IsSmall};

    ghost Value = { List Shape };

    ghost view = { λ s. s.packages.items };

    ghost invariant = { λ s. IsSmall s.packages.items };
}

impl PackageShape {
    /// The index of the first of its classes at an offset.
    #[tactic(auto, using(crate::proofs::Placing::position_within))]
    pub(crate) fn index_of(&self, offset: u16) -> Option<usize>
        ensures found { result ≡ position (λ k. k.offset == offset) self.now.classes }
        ensures within { IfSome result (λ i. i < length self.now.classes) }
    {
        let place = place_at(&self.class_places, usize::from(offset))?;
        Some(usize::from(place))
    }

    /// The class with an index.
    pub(crate) fn class_with(&self, index: usize) -> Option<&Class>
        ensures { option_map (λ k. k.now) result ≡ slice_get self.now.classes index }
    {
        self.classes.get(index)
    }

    /// The class at an offset.
    #[tactic(auto, using(crate::proofs::Placing::found_there, crate::proofs::Placing::none_there))]
    pub(crate) fn class_in(&self, offset: u16) -> Option<&Class>
        ensures { option_map (λ k. k.now) result ≡ class_in offset self.now }
    {
        let index = self.index_of(offset)?;
        self.class_with(index)
    }

    /// Whether it meets an import: the AID and the major version are equal, and the minor version isn't smaller.
    fn meets(&self, wanted: &PackageInfo) -> bool
        ensures { result ≡ meets wanted.now self.now }
    {
        let package = &self.package;
        wanted.aid == package.aid && wanted.major == package.major && wanted.minor <= package.minor
    }

    /// Whether it has an AID.
    fn has_aid(&self, aid: &Aid) -> bool
        ensures { result ≡ bytes_eq aid.now self.now.«package».aid }
    {
        *aid == self.package.aid
    }
}

impl Body {
    /// The superclass that it names.
    pub(crate) fn superclass(&self) -> Option<ClassRef>
        ensures { result ≡ superclass_ref (record_of self.now) }
    {
        match self {
            Body::Interface(_) => None,
            Body::Class(class) => class.superclass,
        }
    }
}

/// The index of the first of these packages that meets an import.
fn first_that_meets(packages: &[Shared<PackageShape>], wanted: &PackageInfo) -> Option<usize>
    ensures found { result ≡ position (meets wanted.now) packages.now }
    ensures within { IfSome result (λ there. there < length packages.now) }
{
    packages.iter().position(|p| p.get().meets(wanted))
}

/// The index of the first of these packages that has an AID.
fn first_with(packages: &[Shared<PackageShape>], aid: &Aid) -> Option<usize>
    ensures found { result ≡ position (λ shape. bytes_eq aid.now shape.«package».aid) packages.now }
    ensures within { IfSome result (λ there. there < length packages.now) }
{
    packages.iter().position(|p| p.get().has_aid(aid))
}

impl Shapes {
    /// No packages.
    pub(crate) fn new(alloc: Global) -> Shapes
        ensures { result ≡ [] }
    {
        Shapes {
            packages: Vec::new(alloc),
        }
    }

    /// A copy that shares the packages.
    pub(crate) fn shared(&self, alloc: Global) -> Result<Shapes, AllocError>
        ensures { IfOk result (λ copy. copy ≡ self.now) }
    {
        Ok(Shapes {
            packages: all_shared(alloc, &self.packages)?,
        })
    }

    /// Its allocator.
    pub(crate) fn allocator(&self) -> Global {
        *self.packages.allocator()
    }

    /// Appends a package.
    #[tactic(auto, using(crate::proofs::Small::small_grown))]
    pub(crate) fn put(&mut self, shape: PackageShape) -> Result<(), AllocError>
        requires room { length self.now < most_packages }
        requires few { length shape.classes ≤ most_classes_of_one }
        ensures done { IfOk result (λ u. self.new ≡ grown self.old shape) }
        ensures kept { IfErr result (λ e. self.new ≡ self.old) }
    {
        let shared = Shared::new(self.allocator(), shape)?;
        self.packages.push(shared)?;
        Ok(())
    }

    /// Drops the last package.
    pub(crate) fn drop_last(&mut self)
        ensures { (world : List Shape) (more : Shape) → self.old ≡ grown world more → self.new ≡ world }
    {
        self.packages.pop();
    }

    /// How many packages there are, those of the API included.
    pub(crate) fn len(&self) -> usize
        ensures count { result ≡ length self.now }
        ensures most { result ≤ most_packages }
        ensures small { IsSmall self.now }
    {
        self.packages.len()
    }

    /// The package at a place.
    pub(crate) fn shape(&self, home: PackagePlace) -> Option<&PackageShape>
        ensures found { option_map (λ s. s.now) result ≡ slice_get self.now home }
        ensures few { IfSome result (λ s. length s.now.classes ≤ most_classes_of_one) }
        ensures home { IfSome result (λ s. home < most_packages) }
    {
        match self.packages.get(home.index()) {
            Some(shared) => Some(shared.get()),
            None => None,
        }
    }

    /// The package of a class.
    pub(crate) fn package_at(&self, class: ClassName) -> Option<&PackageShape>
        ensures found { option_map (λ s. s.now) result ≡ package_at self.now class }
        ensures few { IfSome result (λ s. length s.now.classes ≤ most_classes_of_one) }
        ensures home { IfSome result (λ s. home_of class < most_packages) }
    {
        match class {
            ClassName::Loaded { package: 0, .. } => None,
            ClassName::Api(_) | ClassName::Loaded { .. } => self.shape(class.home()),
        }
    }

    /// The class with a name.
    pub(crate) fn class_at(&self, class: ClassName) -> Option<&Class>
        ensures { option_map (λ k. k.now) result ≡ class_at self.now class }
    {
        let shape = self.package_at(class)?;
        shape.class_in(class.offset())
    }

    /// The place of the package that meets the import with a token: the first before the importing one.
    pub(crate) fn import_of(&self, home: PackagePlace, token: u8) -> Option<PackagePlace>
        ensures found { result ≡ import_of self.now home token }
        ensures before { IfSome result (λ there. there < home) }
    {
        let shape = self.shape(home)?;
        let wanted = shape.imports.get(usize::from(token))?;
        let there = first_that_meets(&self.packages[..home.index()], wanted)?;
        Some(PackagePlace::new(there))
    }

    /// The place of the loaded package with an AID, before a place.
    pub(crate) fn loaded_with(&self, home: PackagePlace, aid: &Aid) -> Option<PackagePlace>
        requires { home ≤ length self.now }
        ensures found { result ≡ loaded_with self.now home aid.now }
        ensures before { IfSome result (λ there. there < home) }
    {
        let loaded = self.packages[..home.index()].get(2..)?;
        let number = first_with(loaded, aid)?;
        Some(PackagePlace::new(2 + number))
    }

    /// The class that a package exports under a token.
    fn exported_class(&self, home: PackagePlace, token: u8) -> Option<ClassName>
        ensures { result ≡ exported_class self.now home token }
    {
        let shape = self.shape(home)?;
        let row = shape.exports.get(usize::from(token))?;
        name_in(home, row.class)
    }

    /// The name that a reference encodes in the package at place `home`.
    fn class_spelled(&self, home: PackagePlace, reference: ClassRef) -> Option<ClassName>
        ensures { result ≡ class_spelled self.now home reference }
    {
        match reference {
            ClassRef::Internal { offset } => name_in(home, offset),
            ClassRef::External { package, class } => {
                let there = self.import_of(home, package)?;
                self.exported_class(there, class)
            }
        }
    }

    /// The name, if a class has it.
    fn if_there(&self, class: ClassName) -> Option<ClassName>
        ensures { result ≡ if_there self.now class }
    {
        if self.class_at(class).is_some() {
            Some(class)
        } else {
            None
        }
    }

    /// The class that a reference of the package at place `home` resolves to.
    pub(crate) fn class_named(&self, home: PackagePlace, reference: ClassRef) -> Option<ClassName>
        ensures { result ≡ class_named self.now home reference }
    {
        let class = self.class_spelled(home, reference)?;
        self.if_there(class)
    }

    /// The superclass of a class.
    pub(crate) fn superclass_of(&self, class: ClassName) -> Option<ClassName>
        ensures { result ≡ superclass_of self.now class }
    {
        let found = self.class_at(class)?;
        let reference = found.body.superclass()?;
        self.class_named(class.home(), reference)
    }

    /// The class with an index in the package at a place.
    pub(crate) fn class_placed(&self, home: PackagePlace, index: usize) -> Option<&Class>
        ensures { option_map (λ k. k.now) result ≡ class_placed self.now home index }
    {
        self.shape(home)?.class_with(index)
    }

    /// How many classes the package at a place has.
    pub(crate) fn class_count(&self, home: PackagePlace) -> usize
        ensures count { result ≡ option_map_or (λ s. length s.classes) (slice_get self.now home) 0 }
        ensures few { result ≤ most_classes_of_one }
    {
        match self.shape(home) {
            Some(shape) => shape.classes.len(),
            None => 0,
        }
    }
}
