//! Loads a linked package on words (Java Card Virtual Machine Specification, StaticField component).

ghost use Rattle.std.specs.Prelude.{◌≡◌, ◌++◌, true, IfErr, IfOk};
ghost use Rattle.jc_interp.specs.Loading.{with_package};
ghost use Rattle.jc_machine.specs.Machine.{Limits};
ghost use Rattle.jc_machine.specs.Reading.{HeapReads};
ghost use Rattle.jc_safety.specs.Loading.{has_room_for, loaded_arrays};
ghost use Rattle.jc_store.specs.Heap.{Heap};
ghost use Rattle.jc_words.specs.Values.{TaggedValue};

use crate::machine::WordMachine;
use crate::making::make_arrays;
use jc_link::LinkedBody;
use std::alloc::AllocError;

impl WordMachine {
    /// Loads the package with a number: appends the words of its static fields ([`static_words`](crate::static_words))
    /// to those of the others, and makes its initialised arrays. If there isn't room for all arrays, it may make some.
    /// If it runs out of memory, nothing changes.
    pub fn load(&mut self, number: u8, body: &LinkedBody, words: Vec<u16>) -> Result<(), AllocError>
        ensures done { IfOk result (λ u. (limits : Limits) (heap : Heap TaggedValue)
            → limits.objects ≡ self.old.store.most_objects → limits.cells ≡ self.old.store.most_cells
            → HeapReads self.old.store.objects heap
            → has_room_for limits (heap ++ loaded_arrays number body.now) ≡ true
            → self.new ≡ with_package self.old number body.now words.items) }
        ensures kept { IfErr result (λ e. self.new ≡ self.old) }
    {
        self.statics.push(words)?;
        make_arrays(&mut self.store, number, body);
        Ok(())
    }
}
