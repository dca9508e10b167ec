//! Native members that do nothing.

ghost use Rattle.jc_machine.specs.Reading.{ReadsResult};
ghost use Rattle.jc_machine.specs.Idle.{idle_result, idle_value};

use crate::member::member_with;
use crate::natives::{AtOnce, Natives, WordCall, WordOutcome};
use jc_api::ApiClass;
use jc_base::ReturnType;
use jc_link::World;
use jc_store::Store;

/// Native members that do nothing: they access no object, keep nothing, and return 0, which is null too, if they are
/// declared to return something.
#[derive(Clone, Copy, Debug)]
pub struct IdleNatives;

// 0, if something is declared to be returned.
fn idle_word(declared: ReturnType<ApiClass>) -> Option<u16>
    ensures { ReadsResult result (idle_value declared) }
{
    match declared {
        ReturnType::Void => None,
        ReturnType::Value(_) => Some(0),
    }
}

// The result of the member with a number.
fn idle_result(member: u16) -> Option<u16>
    ensures { ReadsResult result (idle_result member) }
{
    match member_with(member) {
        Some(member) => idle_word(member.result),
        None => None,
    }
}

impl Natives for IdleNatives {
    ghost use Rattle.jc_machine.specs.Idle.{idle};

    ghost Kept = { Unit {0} };

    ghost kept = { λ natives. tt };

    ghost meaning = { idle };

    fn call(&mut self, _store: &mut Store, call: &WordCall<'_>) -> WordOutcome {
        WordOutcome::Returned(idle_result(call.member))
    }

    fn call_at_once(
        &mut self,
        _store: &mut Store,
        _member: u16,
        _arguments: &[u16],
        _context: u8,
    ) -> AtOnce {
        AtOnce::NotAtOnce
    }

    fn law(&self) {}
}
