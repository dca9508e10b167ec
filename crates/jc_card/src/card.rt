//! The card.

use jc_interp::{ShownFrame, WordMachine};
use jc_link::World;
use jc_names::Owner;
use jc_natives::Runtime;
use jc_program::Program;
use std::marker::Model;

/// A card: the loaded packages, the objects, and the instances of applets (Java Card Runtime Environment
/// Specification).
#[derive(Drop)]
pub struct Card {
    pub(crate) world: World,
    pub(crate) program: Program,
    pub(crate) machine: WordMachine,
    pub(crate) runtime: Runtime,
    pub(crate) selected: Option<Owner>,
    pub(crate) most_objects: u16,
    pub(crate) most_cells: u16,
    pub(crate) steps: u32,
    /// The frame in which the last call stopped, if it didn't end normally.
    pub(crate) stopped: ShownFrame,
}

impl Model for Card {
    ghost use Rattle.jc_card.specs.Reads.{CardWords, IsCard};

    ghost Value = { CardWords };

    ghost view = { λ c. record {
      world = c.world;
      program = c.program;
      machine = c.machine;
      kept = c.runtime;
      selected = c.selected;
      most_objects = c.most_objects;
      most_cells = c.most_cells;
      steps = c.steps;
    } };

    ghost invariant = { λ c. IsCard (record {
      world = c.world;
      program = c.program;
      machine = c.machine;
      kept = c.runtime;
      selected = c.selected;
      most_objects = c.most_objects;
      most_cells = c.most_cells;
      steps = c.steps;
    }) };
}
