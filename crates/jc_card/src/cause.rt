//! Why a call of an applet didn't end normally: a cause that its status doesn't show.

ghost use Rattle.std.specs.Prelude.{◌≡◌};
ghost use Rattle.std.specs.Option.{option_and_then};
ghost use Rattle.jc_card.specs.Card.{CardState};
ghost use Rattle.jc_card.specs.Causes.{cause_of, denial_in, failure_cause, uncaught_cause};
ghost use Rattle.jc_card.specs.Parts.{Ended};
ghost use Rattle.jc_card.specs.Reads.{Holds, ReadsEnded};

use crate::card::Card;
use jc_firewall::Denial;
use jc_interp::{RunEnd, ShownFrame};
use jc_machine::{Budget, CodePoint, DeniedAccess};
use jc_store::ObjectType;

/// Why a call of an applet didn't end as it should.
#[derive(Clone, Copy, Debug, PartialEq, Eq)]
pub enum Cause {
    /// Nothing caught an exception: its type, its reason, which is its first component, where it was thrown, and the
    /// denied access, if the firewall denied the last access of the call.
    Threw {
        object: ObjectType,
        reason: u16,
        at: Option<CodePoint>,
        denial: Option<Denial>,
    },
    /// A budget was spent, while a frame stood at this point.
    RanOut {
        spent: Budget,
        at: Option<CodePoint>,
    },
    /// The install method ended, but registered no instance.
    NotRegistered,
}

impl Card {
    /// The frame in which the last call of an applet stopped, if nothing caught what code threw, or the steps were
    /// spent.
    pub fn stopped(&self) -> Option<&ShownFrame> {
        if self.stopped.is_there {
            Some(&self.stopped)
        } else {
            None
        }
    }

    // The denial of an access, with the owner of its object, if the object exists.
    fn denial_in(&self, denied: DeniedAccess) -> Option<Denial>
        ensures { (c : CardState) → Holds self.now c → result ≡ denial_in c.heap denied }
    {
        if !self.machine.store.is_there(denied.object) {
            return None;
        }
        Some(Denial {
            access: denied.access,
            owner: self.machine.store.owner_of(denied.object),
            rule: denied.rule,
        })
    }

    // The denial, if an access was denied.
    fn any_denial(&self, denied: Option<DeniedAccess>) -> Option<Denial>
        ensures { (c : CardState) → Holds self.now c → result ≡ option_and_then (denial_in c.heap) denied }
    {
        match denied {
            Some(denied) => self.denial_in(denied),
            None => None,
        }
    }

    // The cause for an object that nothing caught, if it exists.
    fn cause_of_thrown(
        &self,
        object: u16,
        at: Option<CodePoint>,
        denied: Option<DeniedAccess>,
    ) -> Option<Cause>
        ensures { (c : CardState) → Holds self.now c → result ≡ uncaught_cause c.heap object at denied }
    {
        if !self.machine.store.is_there(object) {
            return None;
        }
        Some(Cause::Threw {
            object: self.machine.store.kind_of(object).object_type,
            reason: self.reason_of(object),
            at,
            denial: self.any_denial(denied),
        })
    }

    // Why a call didn't end normally, from its end.
    pub(crate) fn cause_of(&self, ended: RunEnd) -> Option<Cause>
        ensures { (c : CardState) (e : Ended) → Holds self.now c → ReadsEnded ended e → result ≡ cause_of c e }
    {
        match ended {
            RunEnd::Gave(_) => None,
            RunEnd::Threw { object, at, denied } => self.cause_of_thrown(object, at, denied),
            RunEnd::RanOut { spent, at } => Some(Cause::RanOut { spent, at }),
        }
    }

    // Why an install failed, from the end of its method.
    pub(crate) fn failure_cause(&self, ended: RunEnd) -> Option<Cause>
        ensures { (c : CardState) (e : Ended) → Holds self.now c → ReadsEnded ended e → result ≡ failure_cause c e }
    {
        match ended {
            RunEnd::Gave(_) => Some(Cause::NotRegistered),
            RunEnd::Threw { object, at, denied } => self.cause_of_thrown(object, at, denied),
            RunEnd::RanOut { spent, at } => Some(Cause::RanOut { spent, at }),
        }
    }
}
