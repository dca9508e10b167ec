//! Calls of applets.

ghost use Rattle.std.specs.Prelude.{◌≡◌, ◌<◌, ◌∷◌, IfSome, length, true};
ghost use Rattle.jc_card.specs.Card.{CardState, selected_instance};
ghost use Rattle.jc_card.specs.Parts.{call_applet, call_selected, member_called};
ghost use Rattle.jc_card.specs.PrivateWords.{words_taken};
ghost use Rattle.jc_card.specs.Reads.{Does, Holds, ReadsEnded};
ghost use Rattle.jc_natives.specs.Meaning.{fits_instance};

use crate::card::Card;
use arrayvec::ArrayVec;
use jc_classes::superclass_laws;
use jc_interp::{FirstCall, RunEnd};
use jc_link::built_worlds_are_sound;
use jc_machine::Natives;
use jc_natives::{Instance, members_are_declared};
use jc_safety::accepted_packages_are_type_safe;

/// The number of the APDU object.
const APDU_OBJECT: u16 = 11;

/// The members of Applet that the runtime calls.
#[derive(Clone, Copy, Debug)]
pub(crate) enum AppletCall {
    Select,
    Deselect,
    Process,
}

/// Its number among the members of the API.
fn member_called(call: AppletCall) -> u16
    ensures { result ≡ member_called call }
{
    match call {
        AppletCall::Select => 36,
        AppletCall::Deselect => 37,
        AppletCall::Process => 38,
    }
}

/// The words of its arguments: the object's number, and the others.
fn call_words(call: AppletCall, object: u16) -> ArrayVec<u16, 2>
    ensures words { result.items ≡ object ∷ words_taken call }
    ensures few { length result.items < 256 }
{
    let mut words = ArrayVec::new();
    words.push(object);
    match call {
        AppletCall::Select | AppletCall::Deselect => {}
        AppletCall::Process => words.push(APDU_OBJECT),
    }
    words
}

impl Card {
    // Calls a member on the object of an instance, whose context counts as the selected one.
    fn call_applet(&mut self, instance: Instance, call: AppletCall) -> RunEnd
        requires fits { (c : CardState) → Holds self.old c → fits_instance c.world.shapes c.heap instance ≡ true }
        ensures { Does self.old self.new (ReadsEnded result) (λ c. call_applet c instance call) }
    {
        built_worlds_are_sound();
        superclass_laws();
        members_are_declared();
        self.runtime.law();
        accepted_packages_are_type_safe(&self.runtime);
        let called = self
            .machine
            .method_for(&self.program, member_called(call), instance.object);
        let words = call_words(call, instance.object);
        let first = FirstCall {
            called,
            owner: instance.owner,
            arguments: words.as_slice(),
        };
        let selected = Some(instance.owner.context);
        self.machine.call(
            &mut self.runtime,
            &self.world,
            &self.program,
            selected,
            self.steps,
            &first,
            &mut self.stopped,
        )
    }

    // The selected instance, if one is selected.
    pub(crate) fn selected_instance(&self) -> Option<Instance>
        ensures instance { (c : CardState) → Holds self.now c → result ≡ selected_instance c }
        ensures fits { IfSome result (λ i. (c : CardState) → Holds self.now c
            → fits_instance c.world.shapes c.heap i ≡ true) }
    {
        self.runtime.instance_of(self.selected?)
    }

    // Calls a member of the selected applet; without one it calls nothing.
    pub(crate) fn call_selected(&mut self, call: AppletCall) -> RunEnd
        ensures { Does self.old self.new (ReadsEnded result) (λ c. call_selected c call) }
    {
        match self.selected_instance() {
            Some(instance) => self.call_applet(instance, call),
            None => RunEnd::Gave(None),
        }
    }
}
