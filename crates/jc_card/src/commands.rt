//! Commands of a reader on the card (Java Card Runtime Environment Specification, Selection, Applet Lifetime: select,
//! deselect and process).

ghost use Rattle.std.specs.Prelude.{◌≡◌, ◌≤◌, IfSome, length};
ghost use Rattle.jc_card.specs.Accesses.{IsApartCard, IsGuardedCommand, KeepsApart};
ghost use Rattle.jc_card.specs.Card.{CardState};
ghost use Rattle.jc_card.specs.Command.{buffer_of, buffer_size};
ghost use Rattle.jc_card.specs.Commands.{apdu_command, ask, choose, dispatch, perform, process, receive};
ghost use Rattle.jc_card.specs.Commands.{refused, select, selected_by};
ghost use Rattle.jc_card.specs.Order.{apdu_order};
ghost use Rattle.jc_card.specs.Parts.{write};
ghost use Rattle.jc_card.specs.Reads.{Does, GivesNothing, Holds, ReadsResponse};
ghost use Rattle.jc_machine.specs.Runtime.{apdu_buffer};

use crate::accesses::{commands_are_guarded, commands_stay_apart};
use crate::answer::Answer;
use crate::calls::AppletCall;
use crate::card::Card;
use crate::command::Command;
use crate::status::{NOT_SELECTED, WRONG_LENGTH, agrees};
use crate::writing::BUFFER_SIZE;
use jc_names::Owner;
use jc_natives::Instance;

/// The APDU buffer when a command arrives: its first five bytes, and zeros.
fn buffer_of(command: &Command<'_>) -> [u8; BUFFER_SIZE]
    requires header { length command.now.header ≡ 4 }
    ensures buffer { result ≡ buffer_of command.now }
    ensures whole { length result ≡ buffer_size }
{
    let mut buffer = [0; BUFFER_SIZE];
    buffer[..4].copy_from_slice(command.header);
    buffer[4] = command.p3;
    buffer
}

impl Card {
    // Gives the command to the selected applet.
    fn process(&mut self, command: &Command<'_>, selecting: bool) -> Answer
        requires few { length command.now.incoming ≤ 255 }
        ensures { Does self.old self.new (ReadsResponse result) (λ c. process c command.now selecting) }
    {
        self.open(command.incoming, command.expected, selecting);
        let ended = self.call_selected(AppletCall::Process);
        self.close();
        self.answer(ended)
    }

    // Unselects the applet that counts as selected.
    fn refuse(&mut self) -> Answer
        ensures { Does self.old self.new (ReadsResponse result) refused }
    {
        self.unselect();
        Answer::status_alone(NOT_SELECTED)
    }

    // Asks the applet that counts as selected whether it agrees. If it does, it gets the command.
    fn ask(&mut self, command: &Command<'_>) -> Answer
        requires few { length command.now.incoming ≤ 255 }
        ensures { Does self.old self.new (ReadsResponse result) (λ c. ask c command.now) }
    {
        let ended = self.call_selected(AppletCall::Select);
        if agrees(ended) {
            self.process(command, true)
        } else {
            self.refuse()
        }
    }

    // Makes another applet count as selected, and asks it.
    fn choose(&mut self, owner: Owner, command: &Command<'_>) -> Answer
        requires few { length command.now.incoming ≤ 255 }
        ensures { Does self.old self.new (ReadsResponse result) (λ c. choose c owner command.now) }
    {
        self.set_selected(Some(owner));
        self.ask(command)
    }

    // Deselects the selected applet, and selects another.
    fn select(&mut self, owner: Owner, command: &Command<'_>) -> Answer
        requires few { length command.now.incoming ≤ 255 }
        ensures { Does self.old self.new (ReadsResponse result) (λ c. select c owner command.now) }
    {
        self.deselect();
        self.choose(owner, command)
    }

    // Gives the command to the selected applet, if there is one.
    fn dispatch(&mut self, command: &Command<'_>) -> Answer
        requires few { length command.now.incoming ≤ 255 }
        ensures { Does self.old self.new (ReadsResponse result) (λ c. dispatch c command.now) }
    {
        if self.selected_instance().is_some() {
            self.process(command, false)
        } else {
            Answer::status_alone(NOT_SELECTED)
        }
    }

    // The registered instance that a command selects.
    fn selected_by(&self, command: &Command<'_>) -> Option<Instance>
        ensures { (c : CardState) → Holds self.now c → result ≡ selected_by c command.now }
    {
        if command.is_select() {
            self.runtime.instance_with(command.incoming)
        } else {
            None
        }
    }

    // Performs a command whose first bytes are in the APDU buffer.
    fn perform(&mut self, command: &Command<'_>) -> Answer
        requires few { length command.now.incoming ≤ 255 }
        ensures { Does self.old self.new (ReadsResponse result) (λ c. perform c command.now) }
    {
        match self.selected_by(command) {
            Some(instance) => self.select(instance.owner, command),
            None => self.dispatch(command),
        }
    }

    // Writes a command's first bytes to the APDU buffer.
    fn fill_buffer(&mut self, command: &Command<'_>)
        requires header { length command.now.header ≡ 4 }
        ensures { Does self.old self.new GivesNothing (write apdu_buffer (buffer_of command.now)) }
    {
        self.write_buffer(&buffer_of(command));
    }

    // Receives a command.
    fn receive(&mut self, command: &Command<'_>) -> Answer
        requires header { length command.now.header ≡ 4 }
        requires few { length command.now.incoming ≤ 255 }
        ensures { Does self.old self.new (ReadsResponse result) (λ c. receive c command.now) }
    {
        self.fill_buffer(command);
        self.perform(command)
    }

    /// Performs a command of a reader, and returns the answer. Bytes that are no command are answered 6700.
    pub fn apdu(&mut self, bytes: &[u8]) -> Answer
        ensures done { Does self.old self.new (ReadsResponse result) (λ c. apdu_command c bytes.now) }
        ensures guarded { (c : CardState) → Holds self.old c
            → IfSome (apdu_command c bytes.now) (IsGuardedCommand (apdu_order c bytes.now) c) }
        ensures apart { (c : CardState) → Holds self.old c → IsApartCard c
            → IfSome (apdu_command c bytes.now) (λ l. KeepsApart (apdu_order c bytes.now) c l.touches l.card) }
    {
        commands_are_guarded();
        commands_stay_apart();
        match Command::parse(bytes) {
            Some(command) => self.receive(&command),
            None => Answer::status_alone(WRONG_LENGTH),
        }
    }
}
