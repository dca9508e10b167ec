//! The state of the runtime besides the objects.

ghost use Rattle.std.specs.Prelude.{◌≡◌, ◌+◌, ◌++◌, ◌≤◌, ◌<◌, [], bytes_eq, length, nat_le, option_map, suc, true};
ghost use Rattle.jc_natives.specs.Kept.{after_install, expected_of, has_registered, instance_of, instance_with};
ghost use Rattle.jc_natives.specs.Kept.{is_same_owner, nothing_kept, with_announced, with_command, with_install};
ghost use Rattle.jc_natives.specs.Kept.{waits, with_instance, with_sent, with_state, without_command};
ghost use Rattle.jc_natives.specs.PrivateCells.{bytes_of};
ghost use Rattle.jc_natives.specs.declared.kept.ApduState.TheVariants.{LengthSet};

use crate::bytes::{append_bytes, are_bytes};
use arrayvec::ArrayVec;
use jc_base::Aid;
use jc_names::Owner;
use jc_store::Store;
use std::marker::Model;

/// The most instances of applets.
pub(crate) const MOST_INSTANCES: usize = 32;

/// The most bytes that are sent in an answer.
pub(crate) const MOST_SENT: usize = 256;

/// The most bytes of data that come with a command.
pub(crate) const MOST_INCOMING: usize = 255;

/// The state of the exchange of a command and its answer (Java Card API Specification, APDU).
#[derive(Clone, Copy, Debug, PartialEq, Eq)]
pub enum ApduState {
    /// No applet has a command.
    Closed,
    /// The header has arrived.
    Fresh,
    /// The data were received.
    Received,
    /// The direction was turned to outgoing.
    Outgoing,
    /// The length of the answer is set.
    LengthSet,
}

/// A registered instance of an applet.
#[derive(Clone, Copy, Debug)]
pub struct Instance {
    /// The AID with which it registered.
    pub aid: Aid,
    /// The number of its object.
    pub object: u16,
    /// The owner of its object.
    pub owner: Owner,
}

/// The instance that is being installed.
#[derive(Clone, Copy, Debug)]
pub struct Installing {
    /// Its context and its number.
    pub owner: Owner,
    /// The applet's AID, with which it registers if it names none.
    pub aid: Aid,
    /// Whether it has registered.
    pub registered: bool,
}

impl Default for Instance {
    fn default() -> Instance {
        match Aid::from_slice(&[0; 5]) {
            Some(aid) => Instance {
                aid,
                object: 0,
                owner: Owner::RUNTIME,
            },
            None => unreachable!(),
        }
    }
}

/// The state of the runtime besides the objects: the instances of applets, and the exchange of a command and its
/// answer.
#[derive(Drop)]
pub struct Runtime {
    instances: ArrayVec<Instance, MOST_INSTANCES>,
    installing: Option<Installing>,
    numbers: u8,
    state: ApduState,
    incoming: ArrayVec<u8, MOST_INCOMING>,
    expected: u8,
    announced: u16,
    sent: ArrayVec<u8, MOST_SENT>,
    selecting: bool,
}

impl Model for Runtime {
    ghost use Rattle.std.specs.Prelude.{◌≡◌, ◌≤◌, true};
    ghost use Rattle.jc_natives.specs.Kept.{Kept, have_numbers};

    ghost Value = { Kept };

    ghost view = { λ r. record {
      instances = r.instances.items;
      installing = r.installing;
      numbers = r.numbers;
      state = r.state;
      incoming = r.incoming.items;
      expected = r.expected;
      announced = r.announced;
      sent = r.sent.items;
      selecting = r.selecting;
    } };

    ghost invariant = { λ r. (r.announced ≤ 256)
        × (have_numbers r.instances.items r.installing r.numbers ≡ true) };
}

// Whether an instance has an AID.
fn has_aid(instance: &Instance, aid: &[u8]) -> bool
    ensures { result ≡ bytes_eq instance.now.aid aid.now }
{
    instance.aid.as_slice() == aid
}

// Whether the bytes of an object from an index on are an instance's AID.
fn has_aid_in(instance: &Instance, store: &Store, number: u16, from: u16, count: u16) -> bool
    ensures { result ≡ bytes_eq instance.now.aid (bytes_of store.now.objects number from count) }
{
    are_bytes(
        store,
        number,
        usize::from(from),
        count,
        instance.aid.as_slice(),
    )
}

// Whether two owners are equal.
pub(crate) fn is_same_owner(one: Owner, other: Owner) -> bool
    ensures { result ≡ is_same_owner one other }
{
    one.context == other.context && one.instance == other.instance
}

// Whether an owner owns an instance's object.
fn is_of(instance: &Instance, owner: Owner) -> bool
    ensures { result ≡ is_same_owner instance.now.owner owner }
{
    is_same_owner(instance.owner, owner)
}

// The registered instance with an AID.
fn find_aid<'a>(instances: &'a [Instance], aid: &[u8]) -> Option<&'a Instance>
    ensures { option_map (λ i. i.now) result ≡ instance_with instances.now aid.now }
{
    instances.iter().find(|i| has_aid(i, aid))
}

// The registered instance whose AID is the bytes of an object from an index on.
fn find_aid_in<'a>(
    instances: &'a [Instance],
    store: &Store,
    number: u16,
    from: u16,
    count: u16,
) -> Option<&'a Instance>
    ensures { option_map (λ i. i.now) result
        ≡ instance_with instances.now (bytes_of store.now.objects number from count) }
{
    instances
        .iter()
        .find(|i| has_aid_in(i, store, number, from, count))
}

// The registered instance of an owner.
fn find_owner(instances: &[Instance], owner: Owner) -> Option<&Instance>
    ensures { option_map (λ i. i.now) result ≡ instance_of instances.now owner }
{
    instances.iter().find(|i| is_of(i, owner))
}

impl Runtime {
    /// The state of the runtime of a new card.
    pub fn new() -> Runtime
        ensures { result ≡ nothing_kept }
    {
        Runtime {
            instances: ArrayVec::new(),
            installing: None,
            numbers: 0,
            state: ApduState::Closed,
            incoming: ArrayVec::new(),
            expected: 0,
            announced: 0,
            sent: ArrayVec::new(),
            selecting: false,
        }
    }

    /// How many instance numbers were assigned.
    pub fn numbers(&self) -> u8
        ensures { result ≡ self.now.numbers }
    {
        self.numbers
    }

    /// Begins an install: of the instance with this context and the next number, of an applet with this AID.
    pub fn begin_install(&mut self, owner: Owner, aid: Aid)
        requires next { owner.instance ≡ suc self.old.numbers }
        requires room { self.old.numbers < 32 }
        ensures { self.new ≡ with_install self.old owner aid }
    {
        self.numbers = owner.instance;
        self.installing = Some(Installing {
            owner,
            aid,
            registered: false,
        });
    }

    /// Whether an instance has registered in the current install.
    pub fn has_registered(&self) -> bool
        ensures { result ≡ has_registered self.now }
    {
        match self.installing {
            Some(installing) => installing.registered,
            None => false,
        }
    }

    /// Ends an install. If it failed, the instance that registered is removed.
    pub fn end_install(&mut self, succeeds: bool)
        ensures { self.new ≡ after_install self.old succeeds }
    {
        if self.has_registered() && !succeeds {
            self.instances.pop();
        }
        self.installing = None;
    }

    /// Gives a command to an applet: its data, its Le, which is 0 if it has none, and whether it is the SELECT that
    /// selected the applet.
    pub fn open(&mut self, incoming: &[u8], expected: u8, selecting: bool)
        requires { length incoming.now ≤ 255 }
        ensures { self.new ≡ with_command self.old incoming.now expected selecting }
    {
        self.incoming.clear();
        let _fits = self.incoming.try_extend_from_slice(incoming);
        self.state = ApduState::Fresh;
        self.expected = expected;
        self.announced = 0;
        self.sent.clear();
        self.selecting = selecting;
    }

    /// Ends the exchange: no applet has a command. The sent data stay until the next command.
    pub fn close(&mut self)
        ensures { self.new ≡ without_command self.old }
    {
        self.state = ApduState::Closed;
        self.selecting = false;
    }

    /// The sent data.
    pub fn sent(&self) -> &[u8]
        ensures data { result.now ≡ self.now.sent }
        ensures most { length result.now ≤ 256 }
    {
        self.sent.as_slice()
    }

    /// The registered instance with an AID.
    pub fn instance_with(&self, aid: &[u8]) -> Option<Instance>
        ensures { result ≡ instance_with self.now.instances aid.now }
    {
        find_aid(self.instances.as_slice(), aid).copied()
    }

    // The registered instance whose AID is the bytes of an object from an index on.
    pub(crate) fn instance_in(
        &self,
        store: &Store,
        number: u16,
        from: u16,
        count: u16,
    ) -> Option<Instance>
        ensures { result ≡ instance_with self.now.instances (bytes_of store.now.objects number from count) }
    {
        find_aid_in(self.instances.as_slice(), store, number, from, count).copied()
    }

    /// The registered instance of an owner.
    pub fn instance_of(&self, owner: Owner) -> Option<Instance>
        ensures { result ≡ instance_of self.now.instances owner }
    {
        find_owner(self.instances.as_slice(), owner).copied()
    }

    pub(crate) fn installing(&self) -> Option<Installing>
        ensures { result ≡ self.now.installing }
    {
        self.installing
    }

    // Registers an instance for the one that is being installed.
    pub(crate) fn register(&mut self, instance: Instance)
        requires { waits self.old ≡ true }
        ensures { self.new ≡ with_instance self.old instance }
    {
        self.instances.push(instance);
        if let Some(installing) = &mut self.installing {
            installing.registered = true;
        }
    }

    pub(crate) fn state(&self) -> ApduState
        ensures { result ≡ self.now.state }
    {
        self.state
    }

    pub(crate) fn is_selecting(&self) -> bool
        ensures { result ≡ self.now.selecting }
    {
        self.selecting
    }

    // The data of the command.
    pub(crate) fn incoming(&self) -> &[u8]
        ensures data { result.now ≡ self.now.incoming }
        ensures fits { length result.now ≤ 255 }
    {
        self.incoming.as_slice()
    }

    // How many bytes are expected.
    pub(crate) fn expected(&self) -> u16
        ensures { result ≡ expected_of self.now }
    {
        if self.expected == 0 {
            256
        } else {
            u16::from(self.expected)
        }
    }

    pub(crate) fn set_state(&mut self, state: ApduState)
        ensures { self.new ≡ with_state self.old state }
    {
        self.state = state;
    }

    // Sets the length of the answer.
    pub(crate) fn announce(&mut self, count: u16)
        requires { count ≤ 256 }
        ensures { self.new ≡ with_announced self.old LengthSet count }
    {
        self.state = ApduState::LengthSet;
        self.announced = count;
    }

    // Whether `count` more bytes don't exceed the announced length.
    pub(crate) fn may_send(&self, count: u16) -> bool
        ensures { result ≡ nat_le (length self.now.sent + count) self.now.announced }
    {
        self.sent.len() + usize::from(count) <= usize::from(self.announced)
    }

    // Sends `count` more bytes of an array.
    pub(crate) fn send(&mut self, store: &Store, array: u16, from: u16, count: u16)
        requires { length self.old.sent + count ≤ self.old.announced }
        ensures { self.new ≡ with_sent self.old (self.old.sent ++ bytes_of store.now.objects array from count) }
    {
        append_bytes(&mut self.sent, store, array, from, count);
    }

    // Clears the sent data.
    pub(crate) fn clear_sent(&mut self)
        ensures { self.new ≡ with_sent self.old [] }
    {
        self.sent.clear();
    }
}
