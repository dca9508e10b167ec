//! Writes of the runtime to its own arrays (Java Card Runtime Environment Specification, Global Arrays).

ghost use Rattle.std.specs.Prelude.{◌≡◌, length};
ghost use Rattle.jc_card.specs.Card.{CardState};
ghost use Rattle.jc_card.specs.Command.{buffer_size};
ghost use Rattle.jc_card.specs.Install.{install_size};
ghost use Rattle.jc_card.specs.Parts.{write};
ghost use Rattle.jc_card.specs.PrivateWords.{HasBytes};
ghost use Rattle.jc_card.specs.Reads.{Does, GivesNothing, Holds};
ghost use Rattle.jc_machine.specs.Runtime.{apdu_buffer, install_array};

use crate::card::Card;
use jc_machine::Natives;
use jc_safety::objects_stay_typed;

/// The APDU buffer, and its number of bytes.
const APDU_BUFFER: u16 = 12;

pub(crate) const BUFFER_SIZE: usize = 261;

/// The array of an install method's parameters, and its number of bytes.
pub(crate) const INSTALL_ARRAY: u16 = 13;

pub(crate) const INSTALL_SIZE: usize = 127;

impl Card {
    // Writes bytes to an array of the runtime, from its first component on.
    fn write(&mut self, number: u16, bytes: &[u8])
        requires array { (c : CardState) → Holds self.old c → HasBytes c.heap number (length bytes.now) }
        ensures { Does self.old self.new GivesNothing (write number bytes.now) }
    {
        self.runtime.law();
        objects_stay_typed(&self.runtime);
        self.machine.store.put_bytes(number, 0, bytes);
    }

    // Fills the APDU buffer.
    pub(crate) fn write_buffer(&mut self, bytes: &[u8])
        requires whole { length bytes.now ≡ buffer_size }
        ensures { Does self.old self.new GivesNothing (write apdu_buffer bytes.now) }
    {
        self.write(APDU_BUFFER, bytes);
    }

    // Fills the array of an install method's parameters.
    pub(crate) fn write_parameters(&mut self, bytes: &[u8])
        requires whole { length bytes.now ≡ install_size }
        ensures { Does self.old self.new GivesNothing (write install_array bytes.now) }
    {
        self.write(INSTALL_ARRAY, bytes);
    }
}
