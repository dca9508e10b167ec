//! The static fields of loaded packages, as words.

ghost use Rattle.std.specs.Prelude.{◌≡◌, ◌++◌, ◌∷◌, [], length, List, ℕ, Some, IfErr, IfOk};
ghost use Rattle.std.specs.Borrow.{sem};
ghost use Rattle.jc_interp.specs.PrivateStatics.{HasImage, LendsAll, LendsImage, with_left};
ghost use Rattle.jc_interp.specs.Statics.{static_in, with_static};
ghost use Rattle.jc_machine.specs.Lookup.{of_package, with_package};

use std::alloc::{AllocError, Global};
use std::marker::Model;

/// The static fields of one package: a word for each offset of its static image.
#[derive(Drop)]
struct Image {
    words: Vec<u16>,
}

impl Model for Image {
    ghost use Rattle.std.specs.Prelude.{List, ℕ};

    ghost Value = { List ℕ };

    ghost view = { λ i. i.words.items };
}

impl Image {
    #[inline]
    fn all(&self) -> &[u16]
        ensures { result.now ≡ self.now }
    {
        &self.words
    }

    #[inline]
    fn all_mut(&mut self) -> &mut [u16]
        ensures* given_back { sem 𝓛 (LendsAll self.entry result) }
        ensures words { result.now ≡ self.old }
    {
        let end = self.words.len();
        self.words.slice_mut(0..end)
    }
}

/// The static fields of the loaded packages, in the order of the packages. The field at an offset of a package's static
/// image has the word at that offset.
#[derive(Drop)]
pub struct Statics {
    images: Vec<Image>,
}

impl Model for Statics {
    ghost use Rattle.std.specs.Prelude.{List, ℕ};

    ghost Value = { List (List ℕ) };

    ghost view = { λ s. s.images.items };
}

impl Statics {
    /// No package's static fields.
    pub fn new(alloc: Global) -> Statics
        ensures { result ≡ [] }
    {
        Statics {
            images: Vec::new(alloc),
        }
    }

    /// Appends the static fields of a package.
    pub fn push(&mut self, words: Vec<u16>) -> Result<(), AllocError>
        ensures done { IfOk result (λ u. self.new ≡ self.old ++ words.items ∷ []) }
        ensures kept { IfErr result (λ e. self.new ≡ self.old) }
    {
        self.images.push(Image { words })?;
        Ok(())
    }

    /// The word of the field at an offset, of the package with a number; 0 if there is none.
    #[inline]
    pub(crate) fn get(&self, package: u8, offset: u16) -> u16
        ensures { result ≡ static_in self.now «package» offset }
    {
        if package == 0 {
            return 0;
        }
        match self.images.get(usize::from(package) - 1) {
            Some(image) => image.words.get(usize::from(offset)).copied().unwrap_or(0),
            None => 0,
        }
    }

    /// Writes a word there, if there is such a field.
    #[inline]
    pub(crate) fn set(&mut self, package: u8, offset: u16, word: u16)
        ensures { self.new ≡ with_static self.old «package» offset word }
    {
        if package == 0 {
            return;
        }
        if let Some(image) = self.images.get_mut(usize::from(package) - 1) {
            if let Some(place) = image.words.get_mut(usize::from(offset)) {
                *place = word;
            }
        }
    }

    /// The words of the package with a number, for writing.
    #[inline]
    pub(crate) fn image_mut(&mut self, package: u8) -> &mut [u16]
        requires there { HasImage self.old «package» }
        ensures* given_back { sem 𝓛 (LendsImage self.entry «package» result) }
        ensures words { (image : List ℕ) → of_package self.old «package» ≡ Some image → result.now ≡ image }
    {
        let image = &mut self.images[usize::from(package) - 1];
        image.all_mut()
    }
}

/// If as many words are given back as were lent, they are the package's static fields. It does nothing.
pub(crate) fn image_laws()
    ensures { (images : List (List ℕ)) (number : ℕ) (image left : List ℕ) → of_package images number ≡ Some image
        → length left ≡ length image → with_left images number left ≡ with_package images number left }
{}
