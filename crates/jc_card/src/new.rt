//! New cards.

ghost use Rattle.std.specs.Prelude.{◌≡◌, ◌↔◌, IfOk, Err, false};
ghost use Rattle.jc_machine.specs.Limits.{are_limits};
ghost use Rattle.jc_card.specs.New.{new_card};
ghost use Rattle.jc_card.specs.Reads.{Holds};
ghost use Rattle.jc_card.specs.declared.fault.CardFault.TheVariants.{BadLimits};

use crate::card::Card;
use crate::fault::CardFault;
use crate::laws::is_word;
use crate::runtime_objects::make_own_objects;
use jc_api::Binding;
use jc_frames::Frames;
use jc_interp::{ShownFrame, Statics, WordMachine};
use jc_link::{World, built_worlds_have_the_api};
use jc_machine::{Limits, accepted_worlds_grow, new_machines_are_typed};
use jc_natives::{Runtime, calls_keep_fitting};
use jc_program::{Program, program_laws};
use jc_store::Store;
use std::alloc::Global;

impl Card {
    /// A card with only the API's packages, with the AIDs and tokens of a binding, and within limits. It reserves all
    /// memory of the card, except that of packages.
    pub fn new(alloc: Global, limits: Limits, binding: &Binding) -> Result<Card, CardFault>
        ensures new { IfOk result (λ card. Holds card (new_card limits binding.now)) }
        ensures limits { (result ≡ Err BadLimits) ↔ (are_limits limits ≡ false) }
    {
        if !limits.are_limits() {
            return Err(CardFault::BadLimits);
        }
        binding.has_no_clash();
        is_word(limits.cells);
        new_machines_are_typed();
        accepted_worlds_grow();
        calls_keep_fitting();
        built_worlds_have_the_api();
        program_laws();
        let world = World::new(alloc, binding)?;
        let program = Program::new(alloc, &world)?;
        let mut store = Store::new(alloc, limits.objects, limits.cells)?;
        make_own_objects(&mut store, &program.classes);
        let frames = Frames::new(alloc, limits.frames, limits.frame_words)?;
        let machine = WordMachine {
            store,
            frames,
            statics: Statics::new(alloc),
        };
        Ok(Card {
            world,
            program,
            machine,
            runtime: Runtime::new(),
            selected: None,
            most_objects: limits.objects,
            most_cells: limits.cells,
            steps: limits.steps,
            stopped: ShownFrame::none(),
        })
    }
}
