//! Bounds on the tables of classes, and whether classes may list interfaces, for crates that make their own tables from
//! them.

ghost use Rattle.std.specs.Prelude.{◌≡◌, ◌≢◌, ◌+◌, ◌≤◌, ◌<◌, ◌==◌, ℕ, None, false, length, true};
ghost use Rattle.jc_classes.specs.Listed.{ListNothing};
ghost use Rattle.jc_classes.specs.Methods.{FindsAbove, FindsNothingElse, is_among, virtual_method_of};
ghost use Rattle.jc_classes.specs.PrivateShape.{record_of};
ghost use Rattle.jc_classes.specs.Record.{package_entries};
ghost use Rattle.jc_names.specs.Names.{home_of};

use crate::shape::Body;
use crate::table::ClassTable;
use crate::walk::{MOST_CLASSES, anchor_behind};
use jc_names::{ClassName, PackagePlace};

/// Places of packages, from `first` to before `end`.
#[derive(Clone, Copy)]
pub struct Places {
    /// The first place.
    pub first: usize,
    /// The place after the last.
    pub end: usize,
}

impl Places {
    /// A range that has these places and one more.
    fn and(self, place: PackagePlace) -> Places
        ensures has { is_among result place ≡ true }
        ensures more { (other : ℕ) → is_among result other ≡ false → is_among self other ≡ false }
    {
        Places {
            first: self.first.min(place.index()),
            end: self.end.max(place.index() + 1),
        }
    }

    /// Whether a place is in the range.
    pub fn has(self, place: usize) -> bool
        ensures { result ≡ is_among self place }
    {
        self.first <= place && place < self.end
    }
}

/// Whether a record has no package-visible methods.
fn declares_none(body: &Body) -> bool
    ensures { result ≡ (length (package_entries (record_of body.now)) == 0) }
{
    match body {
        Body::Interface(_) => true,
        Body::Class(class) => class.package_methods.methods.len() == 0,
    }
}

impl ClassTable {
    /// A number of public tokens, at most 128: no public token from this number on resolves to a virtual method of a
    /// class.
    #[tactic(auto, using(crate::proofs::Extending::none_public))]
    pub fn public_tokens(&self, class: ClassName) -> u8
        ensures most { result ≤ 128 }
        ensures none { (token asker : ℕ) → result ≤ token → token < 128
            → virtual_method_of self.now class token asker ≡ None }
    {
        match self.table_of(class) {
            Some(table) => table.public_count(),
            None => 128,
        }
    }

    /// The places of the packages of a class and of its superclasses, by a walk along these.
    fn walked_places(&self, class: ClassName) -> Places
        ensures { FindsNothingElse self.now class result }
    {
        let mut places = Places {
            first: class.home().index(),
            end: class.home().index(),
        };
        let mut at = class;
        let mut anchor = class;
        for steps in 0..MOST_CLASSES {
            places = places.and(at.home());
            match self.superclass_of(at) {
                Some(above) => at = above,
                None => return places,
            }
            if at.is(anchor) {
                return places;
            }
            anchor = anchor_behind(steps + 1, at, anchor);
        }
        places
    }

    /// A range of places: no package outside it finds a package-visible method of a class.
    #[tactic(auto, using(crate::proofs::Extending::none_else))]
    pub fn visible_places(&self, class: ClassName) -> Places
        ensures { FindsNothingElse self.now class result }
    {
        match self.table_of(class) {
            Some(table) => Places {
                first: 0,
                end: table.visible_count(),
            },
            None => self.walked_places(class),
        }
    }

    /// A number of package-visible tokens, at most 128: for the package at a place, no token after them resolves to a
    /// method of a class.
    #[tactic(auto, using(crate::proofs::Extending::none_visible))]
    pub fn visible_tokens(&self, class: ClassName, place: usize) -> u8
        ensures most { result ≤ 128 }
        ensures none { (token : ℕ) → result ≤ token → token < 128
            → virtual_method_of self.now class (128 + token) place ≡ None }
    {
        match self.table_of(class) {
            Some(table) => table.visible_tokens(place),
            None => 128,
        }
    }

    /// Whether calls from other packages than the class's own resolve package-visible tokens as for its superclass. If
    /// it returns true, they do. It returns true for each class whose chain of superclasses ends.
    #[tactic(auto, using(crate::proofs::Extending::others_above))]
    pub fn others_find_above(&self, class: ClassName) -> bool
        ensures { result ≡ true → (asker : ℕ) → home_of class ≢ asker → FindsAbove self.now class asker }
    {
        match (self.class_at(class), self.table_of(class)) {
            (Some(_), Some(_)) => true,
            _ => false,
        }
    }

    /// Whether calls from all packages do, since the class's record has no package-visible methods. If it returns true,
    /// they do.
    #[tactic(auto, using(crate::proofs::Extending::all_above))]
    pub fn all_find_above(&self, class: ClassName) -> bool
        ensures { result ≡ true → (asker : ℕ) → FindsAbove self.now class asker }
    {
        match (self.class_at(class), self.table_of(class)) {
            (Some(found), Some(_)) => declares_none(&found.body),
            _ => false,
        }
    }

    /// Whether a class or a superclass of it may list an interface in its own record. If it returns false, none does.
    pub fn may_list(&self, class: ClassName) -> bool
        ensures { result ≡ false → ListNothing self.now class }
    {
        match self.table_of(class) {
            Some(table) => table.lists(),
            None => true,
        }
    }
}
