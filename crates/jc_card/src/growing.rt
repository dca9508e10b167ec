//! Adding a package to a world, a program and a machine.

ghost use Rattle.std.specs.Prelude.{◌≡◌, ◌<◌, IfErr, IfOk, length};
ghost use Rattle.jc_card.specs.PrivateLoad.{Grows};
ghost use Rattle.jc_link.specs.Linked.{IsBoundTo, most_in_world, with_linked};
ghost use Rattle.jc_program.specs.Program.{IsProgramOf};

use jc_interp::{WordMachine, static_words};
use jc_link::{Linked, World};
use jc_program::Program;
use std::alloc::{AllocError, Global};

/// Appends a package to a world, its tables to the program, and its static fields and arrays to the machine, if there
/// is room for these. If memory runs out, all three are unchanged.
pub(crate) fn grow(
    alloc: Global,
    world: &mut World,
    program: &mut Program,
    machine: &mut WordMachine,
    linked: Linked,
    number: u8,
) -> Result<(), AllocError>
    requires bound { IsBoundTo world.old linked }
    requires tables { IsProgramOf world.old program.old }
    requires room { length world.old.shapes < most_in_world }
    ensures world { IfOk result (λ u. world.new ≡ with_linked world.old linked) }
    ensures program { IfOk result (λ u. IsProgramOf world.new program.new) }
    ensures machine { IfOk result (λ u. Grows machine.old machine.new number linked) }
    ensures kept { IfErr result (λ e. world.new ≡ world.old) }
    ensures same { IfErr result (λ e. program.new ≡ program.old) }
    ensures still { IfErr result (λ e. machine.new ≡ machine.old) }
{
    let words = static_words(alloc, &linked, machine.store.objects_used())?;
    world.bodies();
    world.table();
    let size = program.size();
    let before = world.add_for_now(linked)?;
    let last = world.bodies().len() - 1;
    match program.grow(alloc, world) {
        Ok(()) => match machine.load(number, &world.bodies()[last], words) {
            Ok(()) => Ok(()),
            Err(error) => {
                program.take_back(size);
                world.take_back(before);
                Err(error)
            }
        },
        Err(error) => {
            program.take_back(size);
            world.take_back(before);
            Err(error)
        }
    }
}
