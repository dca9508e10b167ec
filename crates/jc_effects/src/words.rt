//! The effect of the instructions on words.

ghost use Rattle.std.specs.Prelude.{◌≡◌, ◌≤◌, ◌∷◌, [], length, false};
ghost use Rattle.std.specs.Option.{option_copied, option_map_or};
ghost use Rattle.jc_types.specs.Changes.{Became};
ghost use Rattle.jc_types.specs.Ty.{is_word};
ghost use Rattle.jc_effects.specs.Coded.{demands_of, row_said};
ghost use Rattle.jc_effects.specs.Words as words;

use crate::applying::{Row, apply};
use crate::demands::Wanted;
use crate::row::{Demand, Given, LocalDemand};
use jc_base::Reason;
use jc_code::{Shuffle, When, WordOperation};
use jc_types::{ClassOrder, State, Ty};

/// The demand on a word.
pub(crate) const WORD: Demand = Demand::Below(Ty::Word);

/// The row of an instruction that takes operands, and pushes one or none.
#[inline(always)]
pub(crate) fn takes(operands: Wanted<'_>, pushed: Given) -> Row<'_>
    ensures { row_said result ≡ words.takes (demands_of operands.entry) pushed }
{
    Row {
        local: LocalDemand::Nowhere,
        operands,
        fits: true,
        written: Given::Nothing,
        pushed,
    }
}

/// The row of an instruction that also reads a local.
#[inline(always)]
pub(crate) fn reads(index: u8, demand: Demand, operands: Wanted<'_>, pushed: Given) -> Row<'_>
    ensures { row_said result ≡ words.reads index demand (demands_of operands.entry) pushed }
{
    Row {
        local: LocalDemand::At { index, demand },
        operands,
        fits: true,
        written: Given::Nothing,
        pushed,
    }
}

/// The row of an instruction that stores an operand in a local, whatever that held.
#[inline(always)]
pub(crate) fn writes<'a>(index: u8, demand: Demand) -> Row<'a>
    ensures { row_said result ≡ words.writes index demand }
{
    Row {
        local: LocalDemand::At {
            index,
            demand: Demand::Below(Ty::Top),
        },
        operands: Wanted::One(demand),
        fits: true,
        written: Given::OfOperand(0),
        pushed: Given::Nothing,
    }
}

/// The demands on the words that a branch compares.
#[inline(always)]
fn compared<'a>(when: When) -> Wanted<'a>
    ensures { demands_of result ≡ words.compared when }
{
    match when {
        When::Always => Wanted::Nothing,
        When::Zero(_) => Wanted::One(WORD),
        When::Compare(_) => Wanted::Two(WORD, WORD),
    }
}

/// Whether a method's result is a word.
fn returns_word(returned: Option<&Ty>) -> bool
    ensures { result ≡ option_map_or is_word (option_copied returned.entry) false }
{
    match returned {
        Some(Ty::Word) => true,
        Some(Ty::Top | Ty::Null | Ty::Class(_) | Ty::ReferenceArray(_)) => false,
        Some(Ty::BooleanArray | Ty::ByteArray | Ty::ShortArray) => false,
        None => false,
    }
}

/// The row of sreturn in a method with this result.
#[inline(always)]
fn return_word<'a>(returned: Option<&Ty>) -> Row<'a>
    ensures { row_said result ≡ record (words.takes (words.word ∷ []) Given.Nothing)
        { fits = option_map_or is_word (option_copied returned.entry) false } }
{
    Row {
        fits: returns_word(returned),
        ..takes(Wanted::One(WORD), Given::Nothing)
    }
}

/// Moves operands.
fn transfer_shuffle(shuffle: Shuffle, state: &mut State, max_stack: u8) -> Result<(), Reason>
    requires { max_stack ≤ state.old.room }
    ensures became { Became result state.new.types (words.shuffle_effect max_stack shuffle state.old.types) }
    ensures room { state.new.room ≡ state.old.room }
    ensures locals { length state.new.types.locals ≡ length state.old.types.locals }
{
    match shuffle {
        Shuffle::Pop { count } => state.drop_top(count),
        Shuffle::Duplicate { count, depth } => state.duplicate(max_stack, count, depth),
        Shuffle::Swap { upper, lower } => state.swap(upper, lower),
    }
}

/// Applies an operation on words to a state, in a method of at most `max_stack` operands that returns a value of the
/// type `returned`, or none. Of several reasons against it, it reports the first, in the order of `applied`. After a
/// reason the state mustn't be used.
#[tactic(auto, unfolding(crate::specs::Words::word_effect))]
pub fn transfer_word<C: ClassOrder>(
    operation: &WordOperation,
    state: &mut State,
    max_stack: u8,
    returned: Option<&Ty>,
    classes: &C,
) -> Result<(), Reason>
    requires { max_stack ≤ state.old.room }
    ensures became { Became result state.new.types (words.word_effect (C.lies_below classes.now) max_stack
        (option_copied returned.entry) operation.now state.old.types) }
    ensures room { state.new.room ≡ state.old.room }
    ensures locals { length state.new.types.locals ≡ length state.old.types.locals }
{
    let (no_operand, one, two) = (Wanted::Nothing, Wanted::One(WORD), Wanted::Two(WORD, WORD));
    let (nothing, word) = (Given::Nothing, Given::Exactly(Ty::Word));
    match operation {
        WordOperation::Nop => apply(takes(no_operand, nothing), state, max_stack, classes),
        WordOperation::Push(_) => apply(takes(no_operand, word), state, max_stack, classes),
        WordOperation::Load(local) => {
            let row = reads(*local, WORD, no_operand, word);
            apply(row, state, max_stack, classes)
        }
        WordOperation::Store(local) => apply(writes(*local, WORD), state, max_stack, classes),
        WordOperation::Increment { local, .. } => {
            let row = reads(*local, WORD, no_operand, nothing);
            apply(row, state, max_stack, classes)
        }
        WordOperation::Shuffle(shuffle) => transfer_shuffle(*shuffle, state, max_stack),
        WordOperation::Binary(_) => apply(takes(two, word), state, max_stack, classes),
        WordOperation::Unary(_) => apply(takes(one, word), state, max_stack, classes),
        WordOperation::Branch { when, .. } => {
            let row = takes(compared(*when), nothing);
            apply(row, state, max_stack, classes)
        }
        WordOperation::StableSwitch { .. } | WordOperation::LookupSwitch { .. } => {
            apply(takes(one, nothing), state, max_stack, classes)
        }
        WordOperation::ReturnWord => apply(return_word(returned), state, max_stack, classes),
    }
}
