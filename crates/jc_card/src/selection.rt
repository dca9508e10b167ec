//! Selection and deselection, clearing and reset (Java Card Runtime Environment Specification, Applet Lifetime,
//! Transient Objects).

ghost use Rattle.std.specs.Prelude.{IfSome};
ghost use Rattle.jc_card.specs.Accesses.{AllCleared, IsApartCard, IsGuardedCommand, KeepsApart};
ghost use Rattle.jc_card.specs.Card.{CardState, with_selected};
ghost use Rattle.jc_card.specs.Commands.{deselect, reset_command, unselect};
ghost use Rattle.jc_card.specs.Order.{Resets};
ghost use Rattle.jc_card.specs.Parts.{clear, gives};
ghost use Rattle.jc_card.specs.Reads.{Does, GivesNothing, Holds};

use crate::accesses::{commands_are_guarded, commands_stay_apart};
use crate::calls::AppletCall;
use crate::card::Card;
use jc_machine::Natives;
use jc_names::Owner;
use jc_safety::objects_stay_typed;
use jc_store::ClearingEvent;

impl Card {
    // Clears the arrays of an event, to zero or null: those of a context, or all.
    pub(crate) fn clear(&mut self, event: ClearingEvent, context: Option<u8>)
        ensures { Does self.old self.new GivesNothing (clear event context) }
    {
        self.runtime.law();
        objects_stay_typed(&self.runtime);
        self.machine.store.clear(event, context);
    }

    // Makes another applet count as selected, or none.
    pub(crate) fn set_selected(&mut self, selected: Option<Owner>)
        ensures { Does self.old self.new GivesNothing (λ c. gives (with_selected c selected) tt) }
    {
        self.selected = selected;
    }

    // Clears the arrays of the selected applet's context that are cleared on deselect, and selects no applet.
    pub(crate) fn unselect(&mut self)
        ensures { Does self.old self.new GivesNothing unselect }
    {
        if let Some(owner) = self.selected {
            self.set_selected(None);
            self.clear(ClearingEvent::Deselect, Some(owner.context));
        }
    }

    // Deselects the selected applet, if there is one.
    pub(crate) fn deselect(&mut self)
        ensures { Does self.old self.new GivesNothing deselect }
    {
        let _ended = self.call_selected(AppletCall::Deselect);
        self.unselect();
    }

    /// Resets the card: no applet is selected, and all transient arrays are zero or null. It calls no method.
    pub fn reset(&mut self)
        ensures done { Does self.old self.new GivesNothing reset_command }
        ensures guarded { (c : CardState) → Holds self.old c → IfSome (reset_command c) (IsGuardedCommand Resets c) }
        ensures cleared { (c : CardState) → Holds self.old c
            → IfSome (reset_command c) (λ l. AllCleared c.heap l.card.heap) }
        ensures apart { (c : CardState) → Holds self.old c → IsApartCard c
            → IfSome (reset_command c) (λ l. KeepsApart Resets c l.touches l.card) }
    {
        commands_are_guarded();
        commands_stay_apart();
        self.set_selected(None);
        self.clear(ClearingEvent::Reset, None);
        self.clear(ClearingEvent::Deselect, None);
    }
}
