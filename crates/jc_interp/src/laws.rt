//! A law of machines on words.

ghost use Rattle.std.specs.Prelude.{List, ℕ};
ghost use Rattle.jc_interp.specs.Agree.{AgreeBeside};
ghost use Rattle.jc_interp.specs.Loading.{LoadsWords, with_package};
ghost use Rattle.jc_interp.specs.declared.machine.WordMachine.{WordMachine};
ghost use Rattle.jc_link.specs.Linked.{Linked};
ghost use Rattle.jc_program.specs.declared.program.Program.{Program};
ghost use Rattle.jc_machine.specs.Machine.{Machine, Surroundings};
ghost use Rattle.jc_safety.specs.Loading.{around_behind, machine_behind, next_package};

use jc_machine::Natives;
use jc_program::classes_have_numbers;

/// Words that agree with the defensive machine still agree with it after a load: with the package's initialised arrays
/// in the store and the words of its static fields appended, over the tables of the world with the package. It does
/// nothing.
pub fn loads_stay_in_agreement<N: Natives>(_natives: &N)
    ensures { (s : Surroundings N.Kept) (p q : Program) (u : WordMachine) (kept : N.Kept) (m : Machine N.Kept)
        (l : Linked) (image : List ℕ) → LoadsWords s p q u kept m l image
        → AgreeBeside (around_behind s l) q (with_package u (next_package s.world) l.body image) kept
        (machine_behind s m l) }
{
    classes_have_numbers();
}
