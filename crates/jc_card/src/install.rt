//! Installation of applets (Java Card Runtime Environment Specification, Applet Lifetime: the install method, Applet
//! installation parameters).

ghost use Rattle.std.specs.Prelude.{◌≡◌, ◌<◌, ◌≤◌, suc, IfNone, IfSome, Some, length};
ghost use Rattle.jc_card.specs.Accesses.{IsApartCard, IsGuardedCommand, KeepsApart};
ghost use Rattle.jc_card.specs.Card.{CardState, with_kept};
ghost use Rattle.jc_card.specs.Install.{accepted, begin, call_install, failure_of, failure_status, install_as};
ghost use Rattle.jc_card.specs.Install.{install_command, install_size, most_data, padded, parameters_of};
ghost use Rattle.jc_card.specs.Install.{refusal_of, settle, succeeds};
ghost use Rattle.jc_card.specs.Order.{install_order};
ghost use Rattle.jc_card.specs.Parts.{Ended, gives};
ghost use Rattle.jc_card.specs.PrivateWords.{IsInstallPlace, install_words};
ghost use Rattle.jc_card.specs.Reads.{Does, GivesNothing, Holds, IsDone, ReadsEnded, ReadsInstalled};
ghost use Rattle.jc_program.specs.Called.{called_of};
ghost use Rattle.jc_machine.specs.Runtime.{most_instances};
ghost use Rattle.jc_names.specs.declared.name.MethodName.TheVariants.{Loaded};
ghost use Rattle.jc_natives.specs.Kept.{after_install, with_install};

use crate::accesses::{commands_are_guarded, commands_stay_apart};
use crate::card::Card;
use crate::fault::{Failure, InstallFault};
use crate::laws::aids_are_fit;
use crate::places::{AppletPlace, applet_of};
use crate::status::UNKNOWN_ERROR;
use crate::writing::{INSTALL_ARRAY, INSTALL_SIZE};
use arrayvec::ArrayVec;
use jc_base::Aid;
use jc_entries::Called;
use jc_interp::{FirstCall, RunEnd};
use jc_link::built_worlds_are_sound;
use jc_machine::Natives;
use jc_names::Owner;
use jc_natives::{calls_keep_fitting, calls_keep_numbers};
use jc_program::Program;
use jc_safety::accepted_packages_are_type_safe;
use jc_store::ClearingEvent;

/// The most bytes of data of an install.
const MOST_DATA: usize = 108;

/// The most instances, and the greatest number of one.
const MOST_INSTANCES: u8 = 32;

/// The parameters of an install method, without the zeros after them.
fn parameters_of(instance: &Aid, incoming: &[u8]) -> ArrayVec<u8, INSTALL_SIZE>
    requires few { length incoming.now ≤ most_data }
    ensures parameters { result.items ≡ parameters_of instance.now incoming.now }
    ensures most { length result.items ≤ install_size }
{
    let mut parameters = ArrayVec::new();
    parameters.push(instance.len() as u8);
    let _fits = parameters.try_extend_from_slice(instance.as_slice());
    parameters.push(0);
    parameters.push(incoming.len() as u8);
    let _fits_too = parameters.try_extend_from_slice(incoming);
    parameters
}

/// Bytes, padded with zeros.
fn padded(bytes: &[u8]) -> [u8; INSTALL_SIZE]
    requires few { length bytes.now ≤ install_size }
    ensures padded { result ≡ padded install_size bytes.now }
    ensures whole { length result ≡ install_size }
{
    let mut array = [0; INSTALL_SIZE];
    array[..bytes.len()].copy_from_slice(bytes);
    array
}

/// The arguments of an install method: the array, an offset of 0, and the number of its bytes that are used.
fn install_words(size: u16) -> ArrayVec<u16, 3>
    ensures words { result.items ≡ install_words size }
    ensures few { length result.items < 256 }
{
    let mut words = ArrayVec::new();
    words.push(INSTALL_ARRAY);
    words.push(0);
    words.push(size);
    words
}

/// The target of a call, by the place of its method.
fn called_at(program: &Program, place: AppletPlace) -> Called
    ensures { result ≡ called_of program.now.methods (Some (Loaded place.number place.install)) }
{
    match program.methods.number_of(place.number, place.install) {
        Some(number) => Called::Method(number),
        None => Called::Nothing,
    }
}

impl Card {
    // Why an applet that exists isn't installed, if there is a reason.
    fn refusal_of(&self, instance: &Aid, incoming: &[u8]) -> Option<InstallFault>
        ensures refusal { (c : CardState) → Holds self.now c → result ≡ refusal_of c instance.now incoming.now }
        ensures few { IfNone result (length incoming.now ≤ most_data) }
        ensures room { IfNone result (self.now.kept.numbers < most_instances) }
    {
        if incoming.len() > MOST_DATA {
            return Some(InstallFault::TooLong);
        }
        if self.runtime.instance_with(instance.as_slice()).is_some() {
            return Some(InstallFault::AidInUse);
        }
        if self.runtime.numbers() >= MOST_INSTANCES {
            return Some(InstallFault::NoInstance);
        }
        None
    }

    // Assigns the next number to an instance that is being installed, of an applet with an AID.
    fn take_number(&mut self, owner: Owner, applet: Aid)
        requires next { owner.instance ≡ suc self.old.kept.numbers }
        requires room { self.old.kept.numbers < most_instances }
        ensures { Does self.old self.new GivesNothing
            (λ c. gives (with_kept c (with_install c.kept owner applet)) tt) }
    {
        calls_keep_fitting();
        aids_are_fit(&applet);
        self.runtime.begin_install(owner, applet);
    }

    // Calls the install method of an applet as the new instance.
    fn call_install(&mut self, place: AppletPlace, owner: Owner, size: u16) -> RunEnd
        requires place { IsInstallPlace self.old.world place }
        ensures { Does self.old self.new (ReadsEnded result) (λ c. call_install c place owner size) }
    {
        built_worlds_are_sound();
        self.runtime.law();
        accepted_packages_are_type_safe(&self.runtime);
        let called = called_at(&self.program, place);
        let words = install_words(size);
        let first = FirstCall {
            called,
            owner,
            arguments: words.as_slice(),
        };
        let selected = Some(owner.context);
        self.machine.call(
            &mut self.runtime,
            &self.world,
            &self.program,
            selected,
            self.steps,
            &first,
            &mut self.stopped,
        )
    }

    // Whether the install method ended, and the instance registered.
    fn succeeds(&self, ended: RunEnd) -> bool
        ensures { (c : CardState) (e : Ended) → Holds self.now c → ReadsEnded ended e → result ≡ succeeds c e }
    {
        match ended {
            RunEnd::Gave(_) => self.runtime.has_registered(),
            RunEnd::Threw { .. } | RunEnd::RanOut { .. } => false,
        }
    }

    // The status of an install that failed.
    fn failure_status(&self, ended: RunEnd) -> u16
        ensures { (c : CardState) (e : Ended) → Holds self.now c → ReadsEnded ended e → result ≡ failure_status c e }
    {
        match ended {
            RunEnd::Threw { object, .. } => self.status_of_thrown(object),
            RunEnd::Gave(_) | RunEnd::RanOut { .. } => UNKNOWN_ERROR,
        }
    }

    // The failure of an install: its status and cause.
    fn failure_of(&self, ended: RunEnd) -> Failure
        ensures { (c : CardState) (e : Ended) → Holds self.now c → ReadsEnded ended e → result ≡ failure_of c e }
    {
        Failure {
            status: self.failure_status(ended),
            cause: self.failure_cause(ended),
        }
    }

    // Ends the install.
    fn end_install(&mut self, succeeds: bool)
        ensures { Does self.old self.new GivesNothing (λ c. gives (with_kept c (after_install c.kept succeeds)) tt) }
    {
        calls_keep_fitting();
        self.runtime.end_install(succeeds);
    }

    // Ends an install after its method: an instance that registered is removed if the install failed.
    fn settle(&mut self, owner: Owner, ended: RunEnd) -> Result<u8, InstallFault>
        ensures { (c : CardState) (e : Ended) → Holds self.old c → ReadsEnded ended e
            → IsDone self.new (ReadsInstalled result) (settle c owner e) }
    {
        let succeeds = self.succeeds(ended);
        let failure = self.failure_of(ended);
        self.end_install(succeeds);
        self.clear(ClearingEvent::Deselect, Some(owner.context));
        if succeeds {
            Ok(owner.instance)
        } else {
            Err(InstallFault::InstallFailed(failure))
        }
    }

    // Installs an applet as an instance with the next number.
    fn install_as(
        &mut self,
        place: AppletPlace,
        owner: Owner,
        applet: &Aid,
        instance: &Aid,
        incoming: &[u8],
    ) -> Result<u8, InstallFault>
        requires place { IsInstallPlace self.old.world place }
        requires few { length incoming.now ≤ most_data }
        requires next { owner.instance ≡ suc self.old.kept.numbers }
        requires room { self.old.kept.numbers < most_instances }
        ensures { Does self.old self.new (ReadsInstalled result)
            (λ c. install_as c place owner applet.now instance.now incoming.now) }
    {
        // a read of a field makes the card's invariant known
        let _ = &self.world;
        let parameters = parameters_of(instance, incoming);
        let bytes = parameters.as_slice();
        self.take_number(owner, *applet);
        self.write_parameters(&padded(bytes));
        let ended = self.call_install(place, owner, bytes.len() as u16);
        self.settle(owner, ended)
    }

    // Begins an install. The instance's context is its package's, and its number the next one.
    fn begin(
        &mut self,
        place: AppletPlace,
        applet: &Aid,
        instance: &Aid,
        incoming: &[u8],
    ) -> Result<u8, InstallFault>
        requires place { IsInstallPlace self.old.world place }
        requires few { length incoming.now ≤ most_data }
        requires room { self.old.kept.numbers < most_instances }
        ensures { Does self.old self.new (ReadsInstalled result)
            (λ c. begin c place applet.now instance.now incoming.now) }
    {
        let owner = Owner {
            context: place.number,
            instance: self.runtime.numbers() + 1,
        };
        self.install_as(place, owner, applet, instance, incoming)
    }

    // Deselects the selected applet, and installs another.
    fn accept(
        &mut self,
        place: AppletPlace,
        applet: &Aid,
        instance: &Aid,
        incoming: &[u8],
    ) -> Result<u8, InstallFault>
        requires place { IsInstallPlace self.old.world place }
        requires few { length incoming.now ≤ most_data }
        requires room { self.old.kept.numbers < most_instances }
        ensures { Does self.old self.new (ReadsInstalled result)
            (λ c. accepted c place applet.now instance.now incoming.now) }
    {
        // a read of a field makes the card's invariant known
        let _ = &self.world;
        calls_keep_numbers();
        self.deselect();
        self.begin(place, applet, instance, incoming)
    }

    /// Installs an applet of a loaded package, from the applet's AID, the instance's AID, and data. It returns the
    /// number of the instance. Every refusal except the last leaves the card unchanged.
    pub fn install(
        &mut self,
        applet: &Aid,
        instance: &Aid,
        incoming: &[u8],
    ) -> Result<u8, InstallFault>
        ensures done { Does self.old self.new (ReadsInstalled result)
            (λ c. install_command c applet.now instance.now incoming.now) }
        ensures guarded { (c : CardState) → Holds self.old c
            → IfSome (install_command c applet.now instance.now incoming.now)
            (IsGuardedCommand (install_order c applet.now) c) }
        ensures apart { (c : CardState) → Holds self.old c → IsApartCard c
            → IfSome (install_command c applet.now instance.now incoming.now)
            (λ l. KeepsApart (install_order c applet.now) c l.touches l.card) }
    {
        commands_are_guarded();
        commands_stay_apart();
        let Some(place) = applet_of(&self.world, applet) else {
            return Err(InstallFault::UnknownApplet);
        };
        if let Some(fault) = self.refusal_of(instance, incoming) {
            return Err(fault);
        }
        self.accept(place, applet, instance, incoming)
    }
}
