//! Calls that the runtime makes: of a method of an applet's instance, or of a native member in its place (Java Card
//! Runtime Environment Specification, Applet lifetime).

ghost use Rattle.std.specs.Prelude.{◌≡◌, []};
ghost use Rattle.jc_entries.specs.declared.called.Called.TheVariants.{Method, NativeMethod};
ghost use Rattle.std.specs.Bool.{OnTrue};
ghost use Rattle.jc_interp.specs.Calling.{IsCall, IsMethodFor, MayCall};
ghost use Rattle.jc_interp.specs.Showing.{ShowsCall};
ghost use Rattle.jc_interp.specs.PrivateCalling.{EntersFirst, called_for, called_on, first_end};
ghost use Rattle.jc_interp.specs.PrivateDone.{done};

use crate::ends::{RunEnd, SECURITY_EXCEPTION, StepEnd};
use crate::entering::{Owners, header_of, size_of};
use crate::machine::WordMachine;
use crate::seen::look_at;
use crate::shown::ShownFrame;
use crate::step::tables_are_known;
use jc_entries::{Called, MethodNumber};
use jc_link::World;
use jc_machine::{Budget, Natives, WordCall, WordOutcome};
use jc_names::Owner;
use jc_program::{ClassNumber, Program};
use jc_safety::accepted_packages_are_type_safe;
use jc_store::Store;

/// A call that the runtime makes.
#[derive(Clone, Copy)]
pub struct FirstCall<'a> {
    /// What is called.
    pub called: Called,
    /// The owner that is active in the call: the instance's. No owner was active before.
    pub owner: Owner,
    /// The arguments, the object first if it has one.
    pub arguments: &'a [u16],
}

/// A call ended before its first frame, since no step is left.
const NO_STEP: RunEnd = RunEnd::RanOut {
    spent: Budget::Steps,
    at: None,
};

/// How a native member ends a call that began with it. It may make no call itself.
fn native_end(outcome: WordOutcome) -> RunEnd
    ensures { result ≡ first_end outcome }
{
    match outcome {
        WordOutcome::Returned(value) => RunEnd::Gave(value),
        WordOutcome::Thrown(object) => RunEnd::Threw {
            object,
            at: None,
            denied: None,
        },
        WordOutcome::AccessDenied(denied) => RunEnd::Threw {
            object: SECURITY_EXCEPTION,
            at: None,
            denied: Some(denied),
        },
        WordOutcome::CallsBack(_) => NO_STEP,
    }
}

/// What the class of an object has at a token; none if there is no object.
fn called_on(program: &Program, store: &Store, number: u16, token: u8) -> Option<Called>
    ensures { result ≡ called_on program.now store.now number token }
{
    let object = look_at(store, number)?;
    let class = ClassNumber::new(object.class);
    Some(program.virtual_methods.virtual_method(class, token))
}

/// What the class of an object has in place of a virtual member of the API.
fn called_for(program: &Program, store: &Store, member: u16, number: u16) -> Called
    ensures { result ≡ called_for program.now store.now member number }
{
    let Some(token) = program.member_tokens.token(member) else {
        return Called::Nothing;
    };
    match called_on(program, store, number, token) {
        Some(called) => called,
        None => Called::Nothing,
    }
}

impl WordMachine {
    /// What the class of an object has in place of a virtual member of the API. In an accepted world, over its own
    /// tables, it is what the look-up finds; nothing if there is no such object.
    pub fn method_for(&self, program: &Program, member: u16, object: u16) -> Called
        ensures { IsMethodFor program.now self.now.store member object result }
    {
        tables_are_known(program);
        called_for(program, &self.store, member, object)
    }

    /// Makes the first frame of a call.
    fn enter_first(
        &mut self,
        program: &Program,
        number: MethodNumber,
        call: &FirstCall<'_>,
    ) -> StepEnd
        ensures { EntersFirst program.now number call.now self.old (done self.new result) }
    {
        let Some(method) = program.methods.get(number) else {
            return StepEnd::UsedUp;
        };
        let Ok(count) = u8::try_from(call.arguments.len()) else {
            return StepEnd::UsedUp;
        };
        let owners = Owners {
            active: call.owner,
            previous: None,
        };
        let header = header_of(&method, owners);
        let size = size_of(method.header, count);
        self.frames.clear();
        if self.frames.push_frame(header, size, call.arguments) {
            StepEnd::GoesOn
        } else {
            StepEnd::UsedUp
        }
    }

    /// Calls a method of a loaded package.
    fn call_method<N: Natives>(
        &mut self,
        natives: &mut N,
        world: &World,
        program: &Program,
        selected: Option<u8>,
        steps: u32,
        call: &FirstCall<'_>,
        number: MethodNumber,
        shown: &mut ShownFrame,
    ) -> RunEnd
        requires may_call { MayCall world.now program.now N.meaning selected call.now
            (record { machine = self.old; kept = N.kept natives.old }) }
        requires method { call.now.called ≡ Method number }
        ensures call { IsCall world.now program.now N.meaning selected steps call.now
            (record { machine = self.old; kept = N.kept natives.old })
            (record { machine = self.new; kept = N.kept natives.new }) result }
        ensures shown { OnTrue shown.new.is_there (ShowsCall world.now program.now N.meaning selected steps call.now
            (record { machine = self.old; kept = N.kept natives.old }) shown.new) }
    {
        tables_are_known(program);
        natives.law();
        accepted_packages_are_type_safe(natives);
        match self.enter_first(program, number, call) {
            StepEnd::GoesOn => { self.run(natives, world, program, selected, steps, shown) }
            StepEnd::Throws(_) | StepEnd::AccessDenied(_) | StepEnd::Gives(_) | StepEnd::UsedUp => {
                shown.is_there = false;
                RunEnd::RanOut {
                    spent: self.lacking(),
                    at: None,
                }
            }
        }
    }

    /// Calls a native member, in one step and without a frame.
    fn call_api<N: Natives>(
        &mut self,
        natives: &mut N,
        world: &World,
        program: &Program,
        selected: Option<u8>,
        steps: u32,
        call: &FirstCall<'_>,
        member: u16,
    ) -> RunEnd
        requires native { call.now.called ≡ NativeMethod member }
        ensures { IsCall world.now program.now N.meaning selected steps call.now
            (record { machine = self.old; kept = N.kept natives.old })
            (record { machine = self.new; kept = N.kept natives.new }) result }
    {
        tables_are_known(program);
        natives.law();
        accepted_packages_are_type_safe(natives);
        if steps == 0 {
            return NO_STEP;
        }
        let native_call = WordCall {
            world,
            member,
            arguments: call.arguments,
            active: call.owner,
            previous: None,
            selected,
        };
        native_end(natives.call(&mut self.store, &native_call))
    }

    /// Makes a call.
    fn make_call<N: Natives>(
        &mut self,
        natives: &mut N,
        world: &World,
        program: &Program,
        selected: Option<u8>,
        steps: u32,
        call: &FirstCall<'_>,
        shown: &mut ShownFrame,
    ) -> RunEnd
        requires may_call { MayCall world.now program.now N.meaning selected call.now
            (record { machine = self.old; kept = N.kept natives.old }) }
        ensures call { IsCall world.now program.now N.meaning selected steps call.now
            (record { machine = self.old; kept = N.kept natives.old })
            (record { machine = self.new; kept = N.kept natives.new }) result }
        ensures shown { OnTrue shown.new.is_there (ShowsCall world.now program.now N.meaning selected steps call.now
            (record { machine = self.old; kept = N.kept natives.old }) shown.new) }
    {
        tables_are_known(program);
        match call.called {
            Called::Method(number) => self.call_method(
                natives, world, program, selected, steps, call, number, shown,
            ),
            Called::NativeMethod { member } => {
                shown.is_there = false;
                self.call_api(natives, world, program, selected, steps, call, member)
            }
            Called::Nothing => {
                shown.is_there = false;
                NO_STEP
            }
        }
    }

    /// Makes a call of the runtime, of at most `steps` steps: it makes a frame for the method, and steps until the call
    /// ends; a native member is one step. It drops all frames, earlier ones too. It is for calls that read a call of
    /// the defensive machine that can begin in an accepted world. The call ends as each such call ends, and what both
    /// machines keep besides their frames agrees again. `selected` is the context of the selected applet, if one is. If
    /// nothing caught what code threw, or the steps are spent, `shown` has the frame in which that happened.
    pub fn call<N: Natives>(
        &mut self,
        natives: &mut N,
        world: &World,
        program: &Program,
        selected: Option<u8>,
        steps: u32,
        call: &FirstCall<'_>,
        shown: &mut ShownFrame,
    ) -> RunEnd
        requires may_call { MayCall world.now program.now N.meaning selected call.now
            (record { machine = self.old; kept = N.kept natives.old }) }
        ensures call { IsCall world.now program.now N.meaning selected steps call.now
            (record { machine = self.old; kept = N.kept natives.old })
            (record { machine = self.new; kept = N.kept natives.new }) result }
        ensures shown { OnTrue shown.new.is_there (ShowsCall world.now program.now N.meaning selected steps call.now
            (record { machine = self.old; kept = N.kept natives.old }) shown.new) }
        ensures dropped { self.new.frames.frames ≡ [] }
    {
        let end = self.make_call(natives, world, program, selected, steps, call, shown);
        self.frames.clear();
        end
    }
}
