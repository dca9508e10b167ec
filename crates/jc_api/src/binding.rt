//! Bindings.

ghost use Rattle.std.specs.Prelude.{◌≡◌, ◌↔◌, ℕ, List, Ok};
ghost use Rattle.jc_api.specs.Binding.{binding_of};
ghost use Rattle.jc_api.specs.Bound.{Bound, default_binding, package_in};
ghost use Rattle.jc_api.specs.Meaning.{IsBinding};
ghost use Rattle.jc_api.specs.Class.{number_of};
ghost use Rattle.jc_api.specs.Draft.{whole_of};
ghost use Rattle.jc_api.specs.NoClash.{HasNoClash};
ghost use Rattle.jc_api.specs.PrivateDraft.{IsSound};
ghost use Rattle.jc_api.specs.Numbered.{numbered};

use crate::class::{ApiClass, ApiPackage, CLASS_COUNT};
use crate::draft::{Draft, all_of};
use crate::fault::BindingFault;
use crate::member::MEMBER_COUNT;
use crate::numbered::numbered;
use jc_base::{Aid, PackageInfo};
use std::marker::Model;

/// The AIDs and versions of the API's packages, and the tokens of its classes and members, on a card.
#[derive(Clone, Copy, Debug)]
pub struct Binding {
    lang: PackageInfo,
    framework: PackageInfo,
    classes: [u8; CLASS_COUNT],
    members: [u8; MEMBER_COUNT],
}

impl Model for Binding {
    ghost use Rattle.jc_api.specs.Bound.{Bound};

    ghost Value = { Bound };

    ghost use Rattle.jc_api.specs.PrivateBinding.{held, fields_of, IsHeld};

    ghost view = { held };

    ghost invariant = { IsHeld };

    ghost inverse = { fields_of };
}

const LANG_AID: [u8; 5] = [0xF0, 0x4A, 0x43, 0x01, 0x01];

const FRAMEWORK_AID: [u8; 5] = [0xF0, 0x4A, 0x43, 0x01, 0x02];

const CLASS_TOKENS: [u8; CLASS_COUNT] = [
    0, 1, 2, 3, 4, 5, 6, 7, 8, 9, 10, 11, // java.lang
    0, 1, 2, 3, 4, 5, 6, 7, 8, 9, // javacard.framework
];

const MEMBER_TOKENS: [u8; MEMBER_COUNT] = [
    0, 0, // Object
    0, 0, 0, 0, 0, 0, 0, 0, 0, 0, 0, // Throwable to SecurityException
    0, 1, 2, // CardRuntimeException
    0, 1, 0, 1, 0, 1, // ISOException, SystemException, APDUException
    0, 1, 2, // AID
    1, 2, 3, 4, 5, 6, 7, // APDU
    0, 1, 2, 3, 4, 5, 6, 7, // Applet
    0, 1, 2, 3, 4, 5, 6, 7, // JCSystem
    0, 1, 2, 3, 4, 5, 6, // Util
];

impl Binding {
    /// The table that is used if none is given.
    pub fn default_table() -> Binding
        ensures { result ≡ default_binding }
    {
        let lang = PackageInfo {
            minor: 0,
            major: 1,
            aid: Aid::from_slice(&LANG_AID).unwrap(),
        };
        let framework = PackageInfo {
            minor: 0,
            major: 1,
            aid: Aid::from_slice(&FRAMEWORK_AID).unwrap(),
        };
        Binding {
            lang,
            framework,
            classes: CLASS_TOKENS,
            members: MEMBER_TOKENS,
        }
    }

    /// The binding that a text encodes, or the first fault in the order of its lines.
    #[tactic(auto, unfolding(crate::specs::Binding::binding_of))]
    pub fn from_text(text: &str) -> Result<Binding, BindingFault>
        ensures { result ≡ binding_of text.now }
    {
        let mut draft = Draft::empty();
        draft.take_text(text.as_bytes())?;
        Binding::whole_of(&draft).ok_or(BindingFault::Missing)
    }

    /// The binding, if everything was named.
    #[tactic(auto, unfolding(crate::specs::Draft::whole_of))]
    fn whole_of(draft: &Draft) -> Option<Binding>
        requires { IsSound draft.now }
        ensures { result ≡ whole_of draft.now }
    {
        let lang = draft.lang?;
        let framework = draft.framework?;
        let classes = all_of(&draft.classes)?;
        let members = all_of(&draft.members)?;
        Some(Binding {
            lang,
            framework,
            classes,
            members,
        })
    }

    /// No binding has a clash, and the tokens of every binding are in their ranges.
    pub fn has_no_clash(&self)
        ensures { HasNoClash self.now }
    {
        let _ = &self.classes;
    }

    /// A package's AID and version.
    pub fn package(&self, which: ApiPackage) -> PackageInfo
        ensures { result ≡ package_in self.now which }
    {
        match which {
            ApiPackage::Lang => self.lang,
            ApiPackage::Framework => self.framework,
        }
    }

    /// The token of the class with a number of 1 to [`CLASS_COUNT`].
    pub fn class_token(&self, number: u8) -> Option<u8>
        ensures { result ≡ numbered self.now.classes number }
    {
        numbered(&self.classes, number)
    }

    /// The token of the member with a number of 1 to [`MEMBER_COUNT`].
    pub fn member_token(&self, number: u8) -> Option<u8>
        ensures { result ≡ numbered self.now.members number }
    {
        numbered(&self.members, number)
    }
}

/// A text is read as a binding if and only if its lines, in whatever order, state that binding.
pub fn read_texts_are_bindings()
    ensures { (text : List ℕ) (bound : Bound) → (binding_of text ≡ Ok bound) ↔ IsBinding text bound }
{}
