//! The runtime's own objects, which a new card has (Java Card Runtime Environment Specification, JCRE Entry Point
//! Objects, Global Arrays; Java Card API Specification, AID, APDU, Applet.install).

ghost use Rattle.std.specs.Prelude.{◌≡◌, [], suc};
ghost use Rattle.jc_card.specs.PrivateNew.{HasOwn, HasOwnRoom, HasRoomFor, HaveApiNumbers};
ghost use Rattle.jc_card.specs.PrivateNew.{global_bytes, own_object, temporary};
ghost use Rattle.jc_machine.specs.Lookup.{class_of};
ghost use Rattle.jc_store.specs.Store.{Store};

use jc_api::ApiClass;
use jc_names::{ClassName, Owner};
use jc_program::{Classes, classes_have_numbers};
use jc_store::{Mark, ObjectKind, ObjectType, Store};

/// One of these objects; when it is made, all its components are 0.
#[derive(Clone, Copy)]
pub(crate) struct OwnObject {
    object: ObjectType,
    mark: Mark,
    /// How many components it has.
    size: u16,
}

/// An instance of a class, as a temporary entry point: no reference to it may be stored.
fn temporary(class: ApiClass, size: u16) -> OwnObject
    ensures { result ≡ temporary class size }
{
    OwnObject {
        object: ObjectType::Instance(ClassName::Api(class)),
        mark: Mark::TemporaryEntryPoint,
        size,
    }
}

/// A global array of bytes.
fn global_bytes(size: u16) -> OwnObject
    ensures { result ≡ global_bytes size }
{
    OwnObject {
        object: ObjectType::ByteArray,
        mark: Mark::GlobalArray,
        size,
    }
}

/// The AID of an instance: its length, and 16 bytes.
const AID: OwnObject = OwnObject {
    object: ObjectType::Instance(ClassName::Api(ApiClass::Aid)),
    mark: Mark::PermanentEntryPoint,
    size: 17,
};

/// How many objects there are: 13, and an AID for each of 32 instances.
const OWN_OBJECTS: u16 = 45;

/// The object at an index, from 0 on: the exceptions of the machine and of the API, the APDU, its buffer, the array of
/// an install method's parameters, and then the AIDs.
fn own_object(place: u16) -> OwnObject
    ensures { result ≡ own_object place }
{
    match place {
        0 => temporary(ApiClass::ArithmeticException, 0),
        1 => temporary(ApiClass::ArrayStoreException, 0),
        2 => temporary(ApiClass::ClassCastException, 0),
        3 => temporary(ApiClass::ArrayIndexOutOfBoundsException, 0),
        4 => temporary(ApiClass::NegativeArraySizeException, 0),
        5 => temporary(ApiClass::NullPointerException, 0),
        6 => temporary(ApiClass::SecurityException, 0),
        7 => temporary(ApiClass::IsoException, 1),
        8 => temporary(ApiClass::SystemException, 1),
        9 => temporary(ApiClass::ApduException, 1),
        10 => temporary(ApiClass::Apdu, 0),
        11 => global_bytes(261),
        12 => global_bytes(127),
        _ => AID,
    }
}

/// The class of an object; an array's is Object.
fn class_of(object: ObjectType) -> ClassName
    ensures { result ≡ class_of object }
{
    match object {
        ObjectType::Instance(class) => class,
        ObjectType::BooleanArray
        | ObjectType::ByteArray
        | ObjectType::ShortArray
        | ObjectType::ReferenceArray(_) => ClassName::Api(ApiClass::Object),
    }
}

/// Makes the object at an index, after those before it. The store has room for it.
fn make(store: &mut Store, classes: &Classes, place: u16)
    requires numbers { HaveApiNumbers classes.now }
    requires room { HasRoomFor store.old (own_object place) }
    ensures made { (before : Store) → HasOwn classes.now before store.old place
        → HasOwn classes.now before store.new (suc place) }
{
    classes_have_numbers();
    let own = own_object(place);
    let class = classes.number_of(class_of(own.object)).unwrap();
    let kind = ObjectKind {
        object_type: own.object,
        mark: own.mark,
        clears: None,
    };
    store
        .make(kind, Owner::RUNTIME, usize::from(own.size), class.index())
        .unwrap();
}

/// Makes all of them, in order of their numbers. The store is empty, and has room for them.
pub(crate) fn make_own_objects(store: &mut Store, classes: &Classes)
    requires objects { store.old.objects ≡ [] }
    requires classes { store.old.classes ≡ [] }
    requires numbers { HaveApiNumbers classes.now }
    requires room { HasOwnRoom store.old }
    ensures made { HasOwn classes.now store.old store.new 45 }
{
    for place in 0..OWN_OBJECTS {
        make(store, classes, place);
    }
}
