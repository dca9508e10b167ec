//! Tables of a package's classes and methods by their offsets.

ghost use Rattle.std.specs.Prelude.{◌≡◌, ℕ, ◌==◌, ◌<◌, ◌≤◌, ◌^◌, Some, if◌then◌else◌, length, IfOk};
ghost use Rattle.std.specs.List.{position};
ghost use Rattle.jc_classes.specs.Limits.{most_classes_of_one};
ghost use Rattle.jc_classes.specs.PrivatePlaces.{place_at, place_or, position_in, first_method, AreClassPlaces};
ghost use Rattle.jc_classes.specs.PrivatePlaces.{AreMethodPlaces};

use crate::shape::{Body, Class, DescribedMethod, Export, MethodPlace, PackageShape};
use jc_base::PackageInfo;
use std::alloc::{AllocError, Global};
use std::marker::Model;

/// The entry of a table at an offset, or `None` past its end.
pub(crate) fn place_at<T: Copy>(places: &[Option<T>], offset: usize) -> Option<T>
    ensures { result ≡ place_at places.now offset }
{
    places.get(offset).copied().unwrap_or(None)
}

/// Makes room for an offset.
pub(crate) fn make_room<T: Drop>(
    places: &mut Vec<Option<T>>,
    offset: usize,
) -> Result<(), AllocError>
    ensures long { IfOk result (λ u. offset < length places.new.items) }
    ensures same { IfOk result (λ u. (i : ℕ) → place_at places.new.items i ≡ place_at places.old.items i) }
{
    while places.len() <= offset {
        places.push(None)?;
    }
    Ok(())
}

/// Puts an entry at an offset.
fn put<T: Copy>(places: &mut Vec<Option<T>>, offset: usize, place: T) -> Result<(), AllocError>
    ensures { IfOk result (λ u. (i : ℕ)
        → place_at places.new.items i ≡ (if offset == i then Some place else place_at places.old.items i)) }
{
    make_room(places, offset)?;
    places[offset] = Some(place);
    Ok(())
}

/// The index of the class at each offset; of two the first.
fn class_places(alloc: Global, classes: &[Class]) -> Result<Vec<Option<u8>>, AllocError>
    requires { length classes.now ≤ most_classes_of_one }
    ensures { IfOk result (λ places. AreClassPlaces places.items classes.now) }
{
    let mut places = Vec::new(alloc);
    let mut left = classes.len();
    while left > 0 {
        left -= 1;
        let class = &classes[left];
        put(&mut places, usize::from(class.offset), left as u8)?;
    }
    Ok(places)
}

/// Puts the methods of a class at their offsets; of two the first.
fn put_methods(
    places: &mut Vec<Option<MethodPlace>>,
    class: u8,
    methods: &[DescribedMethod],
) -> Result<(), AllocError>
    requires { length methods.now < 2 ^ 16 }
    ensures { IfOk result (λ u. (i : ℕ) → place_at places.new.items i ≡ place_or class
        (position (λ m. m.offset == i) methods.now) (place_at places.old.items i)) }
{
    let mut left = methods.len();
    while left > 0 {
        left -= 1;
        let method = &methods[left];
        let place = MethodPlace {
            class,
            method: left as u16,
        };
        put(places, usize::from(method.offset), place)?;
    }
    Ok(())
}

/// Puts the methods of a class or an interface at their offsets; an interface's methods are ignored, since they have no
/// header.
fn put_class(
    places: &mut Vec<Option<MethodPlace>>,
    class: u8,
    found: &Class,
) -> Result<(), AllocError>
    ensures { IfOk result (λ u. (i : ℕ)
        → place_at places.new.items i ≡ place_or class (position_in i found.now) (place_at places.old.items i)) }
{
    match &found.body {
        Body::Interface(_) => Ok(()),
        Body::Class(_) => put_methods(places, class, &found.methods),
    }
}

/// The place of the first method with a header at each offset.
fn method_places(alloc: Global, classes: &[Class]) -> Result<Vec<Option<MethodPlace>>, AllocError>
    requires { length classes.now ≤ most_classes_of_one }
    ensures { IfOk result (λ places. AreMethodPlaces places.items classes.now) }
{
    let mut places = Vec::new(alloc);
    let mut left = classes.len();
    while left > 0 {
        left -= 1;
        put_class(&mut places, left as u8, &classes[left])?;
    }
    Ok(places)
}

/// A method with its class.
#[derive(Drop)]
pub(crate) struct PlacedMethod<'t> {
    pub(crate) class: &'t Class,
    pub(crate) method: &'t DescribedMethod,
}

impl<'t> Model for PlacedMethod<'t> {
    ghost use Rattle.jc_classes.specs.PrivatePlaces.{PlacedMethod as Placed, placed};

    ghost Value = { Placed };

    ghost view = { λ p. placed p.class.now p.method.now };
}

impl PackageShape {
    /// A package with the tables of its offsets.
    pub(crate) fn new(
        alloc: Global,
        package: PackageInfo,
        imports: Vec<PackageInfo>,
        exports: Vec<Export>,
        classes: Vec<Class>,
    ) -> Result<PackageShape, AllocError>
        requires { length classes.items ≤ most_classes_of_one }
        ensures { IfOk result (λ made. made ≡ record {
          «package» = «package»;
          imports = imports.items;
          exports = exports.items;
          classes = classes.items;
        }) }
    {
        let class_places = class_places(alloc, &classes)?;
        let method_places = method_places(alloc, &classes)?;
        Ok(PackageShape {
            package,
            imports,
            exports,
            classes,
            class_places,
            method_places,
        })
    }

    /// The first method with a header at an offset.
    pub(crate) fn first_method(&self, offset: u16) -> Option<PlacedMethod<'_>>
        ensures { result ≡ first_method offset self.now.classes }
    {
        let place = place_at(&self.method_places, usize::from(offset))?;
        let class = self.classes.get(usize::from(place.class))?;
        let method = class.methods.get(usize::from(place.method))?;
        Some(PlacedMethod { class, method })
    }
}
