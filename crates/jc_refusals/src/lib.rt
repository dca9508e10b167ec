//! A load, and an install, report their refusals in the order of their numbers.
#![tactic(auto)]

ghost use Rattle.jc_base.specs.Cutting.{Piece, Splits, answer};
ghost use Rattle.jc_base.specs.Fault.{number_of};
ghost use Rattle.jc_base.specs.Parts.{Infos};
ghost use Rattle.jc_base.specs.declared.fault.LoadFault.{LoadFault};
ghost use Rattle.jc_cap_desc.specs.Package.{package_of};
ghost use Rattle.jc_cap_desc.specs.Shape.{Package, Shape};
ghost use Rattle.jc_cert.specs.Cert.{Row};
ghost use Rattle.jc_check.specs.Checked.{IsFirstRefusal};
ghost use Rattle.jc_link.specs.Linked.{Linked};
ghost use Rattle.jc_link.specs.WellFormed.{fault_behind};
ghost use Rattle.jc_base.specs.declared.fault.LoadFault.TheVariants.{Memory};
ghost use Rattle.jc_natives.specs.Kept.{are_bytes};
ghost use Rattle.jc_card.specs.Answering.{comes_at_once};
ghost use Rattle.jc_card.specs.Card.{CardState};
ghost use Rattle.jc_card.specs.Install.{Installed, Refused, install_command};
ghost use Rattle.jc_card.specs.Load.{IsLoad};
ghost use Rattle.jc_card.specs.Parts.{Left};
ghost use Rattle.jc_card.specs.declared.fault.InstallFault.{InstallFault};
ghost use Rattle.jc_refusals.specs.Installs.{AppliesToInstall, IsLeastOfInstall, IsRefusedAtOnce};
ghost use Rattle.jc_refusals.specs.Loads.{Applies, IsLeast};
ghost use Rattle.jc_refusals.specs.Order.{IsBetween};
ghost use Rattle.std.specs.Prelude.{◌≡◌, ◌≢◌, ℕ, true, List, Some, Result, Ok, Err};

use jc_cap_desc::read_packages_are_whole;
use jc_cert::one_spelling;
use jc_check::first_fault_laws;
use jc_code::listing_laws;

/// Each stage of a load reports refusals of its own numbers, and a later stage those of greater ones. If an image isn't
/// cut into its components, the number is 1 to 4; if a component isn't read, or components don't fit each other, 5 to
/// 9; if the package isn't well-formed in its world, 10 to 15; and if a certificate doesn't carry it, 17. An image is
/// split into components in one way only, so it has one answer. It does nothing.
pub fn refusals_are_in_order()
    ensures cut { (pieces : List Piece) (rest : List ℕ) (fault : LoadFault) → answer pieces rest ≡ Err fault
        → IsBetween 1 4 fault }
    ensures read { (parts : Infos) (fault : LoadFault) → package_of parts ≡ Err fault → IsBetween 5 9 fault }
    ensures linked { (before : List Shape) (p : Package) (fault : LoadFault) → fault_behind before p ≡ Some fault
        → IsBetween 10 15 fault }
    ensures checked { (l : Linked) (rows : List Row) (fault : LoadFault) → IsFirstRefusal l rows fault
        → number_of fault ≡ 17 }
    ensures once { (image : List ℕ) (ps qs : List Piece) (rest others : List ℕ) → Splits image ps rest
        → Splits image qs others → answer ps rest ≡ answer qs others }
{}

/// If a load reports a refusal other than out of memory, that refusal applies to it, and no other that applies has a
/// smaller number, nor the same number and a smaller place. If it reports out of memory, those that apply have numbers
/// from 10 to 18. A package to which a refusal applies isn't loaded. It does nothing.
pub fn the_least_refusal_is_told()
    ensures told { (c after : CardState) (image certificate : List ℕ) (fault : LoadFault)
        → IsLoad c image certificate (Err fault) after → fault ≢ Memory → IsLeast c image certificate fault }
    ensures memory { (c after : CardState) (image certificate : List ℕ)
        → IsLoad c image certificate (Err Memory) after
        → (other : LoadFault) → Applies c image certificate other → IsBetween 10 18 other }
    ensures loaded { (c after : CardState) (image certificate : List ℕ) (number : ℕ)
        → IsLoad c image certificate (Ok number) after → (other : LoadFault) → Applies c image certificate other → ⊥ }
{
    first_fault_laws();
    listing_laws();
    one_spelling();
}

/// Two results of one load, neither of them out of memory, are equal, and so are the cards after it. It does nothing.
pub fn a_load_has_one_answer()
    ensures { (c first second : CardState) (image certificate : List ℕ) (one other : Result ℕ LoadFault)
        → are_bytes image ≡ true → IsLoad c image certificate one first → IsLoad c image certificate other second
        → one ≢ Err Memory → other ≢ Err Memory → (one ≡ other) × (first ≡ second) }
{
    first_fault_laws();
    listing_laws();
    one_spelling();
    read_packages_are_whole();
}

/// If an install is refused before the install method is called, the refusal that it reports applies to it, and no
/// other that applies has a smaller number. An install to which one of these applies isn't done: it is refused by one,
/// and the card is unchanged. It does nothing.
pub fn the_least_refusal_of_an_install_is_told()
    ensures told { (c : CardState) (applet instance incoming : List ℕ) (l : Left Installed) (fault : InstallFault)
        → install_command c applet instance incoming ≡ Some l → l.value ≡ Refused fault → comes_at_once fault ≡ true
        → IsLeastOfInstall c applet instance incoming fault }
    ensures refused { (c : CardState) (applet instance incoming : List ℕ) (fault : InstallFault)
        → AppliesToInstall c applet instance incoming fault → IsRefusedAtOnce c applet instance incoming }
{}
