//! Accesses to objects, and the verdicts on them.

use jc_names::Owner;
use jc_store::{ClearingEvent, Mark};

/// A kind of access to an object.
#[derive(Clone, Copy, Debug, PartialEq, Eq)]
pub enum Access {
    /// putstatic of a reference; the object is the one to which the reference refers.
    PutStaticReference,
    /// putfield of a reference.
    PutReferenceField,
    /// putfield of a boolean, a byte or a short.
    PutField,
    /// getfield
    GetField,
    /// aaload, baload, saload
    LoadComponent,
    /// bastore, sastore
    StoreComponent,
    /// aastore
    StoreReference,
    /// arraylength
    ArrayLength,
    /// invokevirtual
    InvokeVirtual,
    /// invokeinterface
    InvokeInterface,
    /// athrow
    Throw,
    /// checkcast
    CheckCast,
    /// instanceof
    InstanceOf,
}

/// The facts from which the verdict on an access is computed, besides the active context.
#[derive(Clone, Copy, Debug, PartialEq, Eq)]
pub struct Facts {
    pub owner: Owner,
    pub mark: Mark,
    pub is_array: bool,
    /// The event that clears the object, if it is transient.
    pub clears: Option<ClearingEvent>,
    /// The mark of the object to which a stored reference refers, if a reference is stored.
    pub stored: Option<Mark>,
    /// Whether the object's class implements Shareable.
    pub is_shareable: bool,
    /// Whether the interface that is called or cast to is Shareable or extends it.
    pub is_shared_interface: bool,
    /// The context of the selected applet, if one is selected.
    pub selected: Option<u8>,
}

/// The rule by which an access is denied.
#[derive(Clone, Copy, Debug, PartialEq, Eq)]
pub enum Rule {
    /// Rule 1: a reference to a temporary entry point or a global array may not be stored.
    Storing,
    /// Rule 2: the array has to be the context's own, or global.
    Components,
    /// Rule 3: the object of a field has to be the context's own.
    Fields,
    /// Rule 4: the object of a called method has to be the context's own or an entry point, or for invokevirtual a
    /// global array.
    Calls,
    /// Rule 5: the object of a called method of a shareable interface has to be the context's own, an entry point or
    /// shareable.
    SharedCalls,
    /// Rule 6: a thrown object has to be the context's own or an entry point.
    Throws,
    /// Rule 7: an object that is cast has to be the context's own or an entry point.
    Casts,
    /// Rule 8: an object that is cast to a shareable interface has to be the context's own, an entry point or
    /// shareable.
    SharedCasts,
    /// Rule 9: an array that is cleared on deselect may be used only while an applet of the active context is selected.
    Selection,
}

/// A denied access.
#[derive(Clone, Copy, Debug, PartialEq, Eq)]
pub struct Denial {
    pub access: Access,
    /// The owner of the object.
    pub owner: Owner,
    /// The rule by which it is denied.
    pub rule: Rule,
}

/// The verdict on an access.
#[derive(Clone, Copy, Debug, PartialEq, Eq)]
pub enum Verdict {
    Allowed,
    /// It is allowed, and switches to this owner.
    AllowedSwitch(Owner),
    Denied(Rule),
}
