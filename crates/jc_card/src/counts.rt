//! Counts of a card's objects and cells, and its budget of steps.

ghost use Rattle.std.specs.Prelude.{◌≡◌, length};
ghost use Rattle.jc_card.specs.Card.{CardState, with_steps};
ghost use Rattle.jc_card.specs.Reads.{Holds};
ghost use Rattle.jc_store.specs.Heap.{cells_in};

use crate::card::Card;

impl Card {
    /// How many objects there may be.
    pub fn most_objects(&self) -> u16
        ensures { (c : CardState) → Holds self.now c → result ≡ c.limits.objects }
    {
        self.most_objects
    }

    /// How many cells they may take.
    pub fn most_cells(&self) -> u16
        ensures { (c : CardState) → Holds self.now c → result ≡ c.limits.cells }
    {
        self.most_cells
    }

    /// How many objects there are, the runtime's own included.
    pub fn objects_used(&self) -> u16
        ensures { (c : CardState) → Holds self.now c → result ≡ length c.heap }
    {
        self.machine.store.objects_used()
    }

    /// How many cells they take: one each, and one for each of their components.
    pub fn cells_used(&self) -> u16
        ensures { (c : CardState) → Holds self.now c → result ≡ cells_in c.heap }
    {
        self.machine.store.cells_used()
    }

    /// Sets how many steps a call of the runtime may make from now on, at least 1.
    #[tactic(auto, using(crate::proofs::Selecting::steps_held))]
    pub fn set_steps(&mut self, steps: u32)
        ensures { (c : CardState) → Holds self.old c → Holds self.new (with_steps c steps) }
    {
        self.steps = steps;
    }
}
