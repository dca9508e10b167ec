//! The status of calls that ended (ISO/IEC 7816-4, status words; Java Card API Specification, ISOException).

ghost use Rattle.std.specs.Prelude.{◌≡◌, Some, get_or};
ghost use Rattle.std.specs.Option.{option_map_or};
ghost use Rattle.jc_api.specs.declared.class.ApiClass.TheVariants.{IsoException};
ghost use Rattle.jc_card.specs.Card.{CardState};
ghost use Rattle.jc_card.specs.Command.{unknown_error};
ghost use Rattle.jc_card.specs.Causes.{reason_of};
ghost use Rattle.jc_card.specs.Commands.{agrees, status_of, status_of_thrown};
ghost use Rattle.jc_card.specs.Parts.{Ended};
ghost use Rattle.jc_card.specs.Reads.{Holds, ReadsEnded};
ghost use Rattle.jc_machine.specs.Lookup.{is_of_class};
ghost use Rattle.jc_names.specs.declared.name.ClassName.TheVariants.{Api};
ghost use Rattle.jc_store.specs.Heap.{Object, object_at};
ghost use Rattle.jc_store.specs.Store.{IsThere};
ghost use Rattle.jc_words.specs.Values.{TaggedValue};

use crate::card::Card;
use jc_api::ApiClass;
use jc_interp::RunEnd;
use jc_link::built_worlds_have_the_api;
use jc_names::ClassName;
use jc_program::{ClassNumber, class_subtypes_are_below, classes_have_numbers, program_laws};

/// Normal processing.
pub(crate) const NORMAL: u16 = 0x9000;

/// The length is wrong.
pub(crate) const WRONG_LENGTH: u16 = 0x6700;

/// No applet is selected.
pub(crate) const NOT_SELECTED: u16 = 0x6999;

/// No precise diagnosis.
pub(crate) const UNKNOWN_ERROR: u16 = 0x6F00;

/// The class whose objects carry a status.
const ISO_EXCEPTION: ClassName = ClassName::Api(ApiClass::IsoException);

/// Whether an applet agrees to be selected, from the end of its select method.
pub(crate) fn agrees(ended: RunEnd) -> bool
    ensures { (e : Ended) → ReadsEnded ended e → result ≡ agrees e }
{
    match ended {
        RunEnd::Gave(Some(word)) => word != 0,
        RunEnd::Gave(None) | RunEnd::Threw { .. } | RunEnd::RanOut { .. } => false,
    }
}

/// The first of these words, or 0 if there is none.
fn first_of(words: &[u16]) -> u16
    ensures { result ≡ get_or words.now 0 0 }
{
    match words.first() {
        Some(word) => *word,
        None => 0,
    }
}

impl Card {
    // Whether an object is an ISOException, or of a subclass.
    fn is_iso_exception(&self, object: u16) -> bool
        requires there { IsThere self.now.machine.store object }
        ensures { (c : CardState) (thrown : Object TaggedValue) → Holds self.now c
            → object_at c.heap object ≡ Some thrown
            → result ≡ is_of_class c.world.shapes (Api IsoException) thrown.kind.object_type }
    {
        program_laws();
        classes_have_numbers();
        class_subtypes_are_below();
        built_worlds_have_the_api();
        let class = ClassNumber::new(self.machine.store.class_number(object));
        match self.program.classes.number_of(ISO_EXCEPTION) {
            Some(number) => self.program.supertypes.is_subtype(class, number),
            None => false,
        }
    }

    // The reason of an exception, which is its first component.
    pub(crate) fn reason_of(&self, object: u16) -> u16
        ensures { (c : CardState) (thrown : Object TaggedValue) → Holds self.now c
            → object_at c.heap object ≡ Some thrown → result ≡ reason_of thrown }
    {
        first_of(self.machine.store.components(object))
    }

    // The status of an object that nothing caught.
    pub(crate) fn status_of_thrown(&self, object: u16) -> u16
        ensures { (c : CardState) → Holds self.now c
            → result ≡ option_map_or (status_of_thrown c) (object_at c.heap object) unknown_error }
    {
        if !self.machine.store.is_there(object) {
            return UNKNOWN_ERROR;
        }
        if self.is_iso_exception(object) {
            self.reason_of(object)
        } else {
            UNKNOWN_ERROR
        }
    }

    // The status of a process call, from its end.
    pub(crate) fn status_of(&self, ended: RunEnd) -> u16
        ensures { (c : CardState) (e : Ended) → Holds self.now c → ReadsEnded ended e → result ≡ status_of c e }
    {
        match ended {
            RunEnd::Gave(_) => NORMAL,
            RunEnd::Threw { object, .. } => self.status_of_thrown(object),
            RunEnd::RanOut { .. } => UNKNOWN_ERROR,
        }
    }
}
