//! Loading packages (Java Card Virtual Machine Specification, Linking, Verification of CAP files).

ghost use Rattle.std.specs.Prelude.{◌≡◌, ℕ, true, Result, Ok, IfErr, IfOk};
ghost use Rattle.jc_card.specs.Accesses.{LeavesObjects};
ghost use Rattle.jc_card.specs.Card.{CardState};
ghost use Rattle.jc_card.specs.Load.{IsLoad, has_room, with_package};
ghost use Rattle.jc_card.specs.Reads.{Holds, Loads};
ghost use Rattle.jc_link.specs.Linked.{IsBoundTo, most_in_world, with_linked};
ghost use Rattle.jc_machine.specs.Accepted.{IsAccepted};
ghost use Rattle.jc_safety.specs.Loading.{next_package};

use crate::accesses::commands_are_guarded;
use crate::card::Card;
use crate::checking::checked;
use crate::growing::grow;
use crate::laws::is_word;
use jc_base::LoadFault;
use jc_interp::{has_room_for, loads_stay_in_agreement};
use jc_link::Linked;
use jc_natives::loads_keep_fitting;
use jc_safety::loads_stay_typed;
use std::alloc::{AllocError, Global};

impl Card {
    // Whether there is room for another package, and for its arrays.
    fn has_room(&self, linked: &Linked) -> bool
        ensures { (c : CardState) → Holds self.now c → result ≡ has_room c linked.now }
    {
        !self.world.is_full()
            && has_room_for(
                &self.machine.store,
                self.most_objects,
                self.most_cells,
                linked.body(),
            )
    }

    // Appends a package for which there is room. If memory runs out, the card is unchanged.
    fn put(&mut self, alloc: Global, linked: Linked) -> Result<u8, AllocError>
        requires bound { IsBoundTo self.old.world linked }
        requires accepted { IsAccepted (with_linked self.old.world linked) }
        requires room { (c : CardState) → Holds self.old c → has_room c linked ≡ true }
        ensures done { IfOk result (λ number. (c : CardState) → Holds self.old c
            → (number ≡ next_package c.world) × Holds self.new (with_package c linked)) }
        ensures kept { IfErr result (λ e. self.new ≡ self.old) }
    {
        loads_keep_fitting();
        loads_stay_typed(&self.runtime);
        loads_stay_in_agreement(&self.runtime);
        is_word(self.most_objects);
        let number = self.world.bodies().len() as u8 + 1;
        grow(
            alloc,
            &mut self.world,
            &mut self.program,
            &mut self.machine,
            linked,
            number,
        )?;
        Ok(number)
    }

    /// Loads a package from its image and the bytes of its certificate. It returns the package's number, from 1 on. A
    /// refused package leaves the card unchanged. If several refusals apply, the one with the smallest number is
    /// reported. `Memory` may replace an `Ok`, or the refusals 10 to 18. It never replaces the refusals 1 to 9, by
    /// which the image doesn't split into its components, or isn't read as a package.
    pub fn load(&mut self, alloc: Global, image: &[u8], certificate: &[u8]) -> Result<u8, LoadFault>
        ensures done { Loads self.old self.new image.now certificate.now result }
        ensures guarded { (c after : CardState) → IsLoad c image.now certificate.now result after
            → LeavesObjects c.heap after.heap }
    {
        commands_are_guarded();
        let linked = checked(alloc, image, certificate, &self.world)?;
        if !self.has_room(&linked) {
            return Err(LoadFault::Full);
        }
        match self.put(alloc, linked) {
            Ok(number) => Ok(number),
            Err(_) => Err(LoadFault::Memory),
        }
    }
}
