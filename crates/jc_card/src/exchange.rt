//! The exchange of a command and its answer with an applet (Java Card API Specification, APDU).

ghost use Rattle.std.specs.Prelude.{◌≡◌, ◌≤◌, length};
ghost use Rattle.jc_card.specs.Card.{CardState, with_kept};
ghost use Rattle.jc_card.specs.Causes.{cause_of};
ghost use Rattle.jc_card.specs.Commands.{Response, status_of};
ghost use Rattle.jc_card.specs.Parts.{Ended, gives};
ghost use Rattle.jc_card.specs.Reads.{Does, GivesNothing, Holds, ReadsEnded, ReadsResponse};
ghost use Rattle.jc_natives.specs.Kept.{with_command, without_command};

use crate::answer::Answer;
use crate::card::Card;
use crate::laws::bytes_are_low;
use arrayvec::ArrayVec;
use jc_interp::RunEnd;
use jc_natives::calls_keep_fitting;

impl Card {
    // Gives a command to the selected applet: its data, its Le, and whether it selected the applet.
    pub(crate) fn open(&mut self, incoming: &[u8], expected: u8, selecting: bool)
        requires few { length incoming.now ≤ 255 }
        ensures { Does self.old self.new GivesNothing
            (λ c. gives (with_kept c (with_command c.kept incoming.now expected selecting)) tt) }
    {
        calls_keep_fitting();
        bytes_are_low(incoming);
        self.runtime.open(incoming, expected, selecting);
    }

    // Ends the exchange: no applet has a command.
    pub(crate) fn close(&mut self)
        ensures { Does self.old self.new GivesNothing (λ c. gives (with_kept c (without_command c.kept)) tt) }
    {
        calls_keep_fitting();
        self.runtime.close();
    }

    // The answer: the sent data, the status of the end of the process call, and why that didn't end normally.
    pub(crate) fn answer(&self, ended: RunEnd) -> Answer
        ensures { (c : CardState) (e : Ended) → Holds self.now c → ReadsEnded ended e
            → ReadsResponse result (record {
              sent = c.kept.sent;
              status = status_of c e;
              cause = cause_of c e;
            }) }
    {
        let mut sent = ArrayVec::new();
        let _fits = sent.try_extend_from_slice(self.runtime.sent());
        Answer {
            sent,
            status: self.status_of(ended),
            cause: self.cause_of(ended),
        }
    }
}
