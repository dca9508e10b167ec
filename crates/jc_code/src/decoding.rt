//! The tables of the instructions on words.

ghost use Rattle.std.specs.Prelude.{◌≡◌, ◌<◌, ◌≤◌};
ghost use Rattle.jc_base.specs.Cursor.{Gives};
ghost use Rattle.jc_code.specs.Decoding.{next_stable_switch, next_lookup_switch, next_wide_increment, when_of};
ghost use Rattle.jc_code.specs.Decoding.{next_wide_branch, next_control, next_branch, operator_of, next_arithmetic};
ghost use Rattle.jc_code.specs.Decoding.{is_duplicate, is_swap, next_shuffle, next_local, next_constant};

use crate::fault::CodeFault;
use crate::instr::{BinaryOperator, Condition, Shuffle, UnaryOperator, When, WordOperation};
use crate::tables::{LookupTable, StableTable, next_cases, next_offsets};
use jc_base::Cursor;

/// The table of a stableswitch; the cursor stands after its opcode.
#[inline(always)]
#[tactic(auto, unfolding(crate::specs::Decoding::next_stable_switch))]
pub fn next_stable_switch<'a>(cursor: &mut Cursor<'a>) -> Result<StableTable<'a>, CodeFault>
    ensures { Gives (λ t. t) result cursor.new (next_stable_switch cursor.old) }
{
    let default = cursor.s2().ok_or(CodeFault::CutShort)?;
    let low = cursor.s2().ok_or(CodeFault::CutShort)?;
    let high = cursor.s2().ok_or(CodeFault::CutShort)?;
    if high < low {
        return Err(CodeFault::BadOperand);
    }
    let count = usize::from(high.abs_diff(low)) + 1;
    let offsets = next_offsets(cursor, count)?;
    Ok(StableTable {
        default,
        low,
        offsets,
    })
}

/// The table of a slookupswitch; the cursor stands after its opcode.
#[inline(always)]
#[tactic(auto, unfolding(crate::specs::Decoding::next_lookup_switch))]
pub fn next_lookup_switch<'a>(cursor: &mut Cursor<'a>) -> Result<LookupTable<'a>, CodeFault>
    ensures { Gives (λ t. t) result cursor.new (next_lookup_switch cursor.old) }
{
    let default = cursor.s2().ok_or(CodeFault::CutShort)?;
    let count = cursor.u2().ok_or(CodeFault::CutShort)?;
    let cases = next_cases(cursor, usize::from(count))?;
    Ok(LookupTable { default, cases })
}

#[inline(always)]
#[tactic(auto, unfolding(crate::specs::Decoding::next_wide_increment))]
fn wide_increment<'a>(cursor: &mut Cursor<'a>) -> Result<WordOperation<'a>, CodeFault>
    ensures { Gives (λ o. o) result cursor.new (next_wide_increment cursor.old) }
{
    let local = cursor.u1().ok_or(CodeFault::CutShort)?;
    let by = cursor.s2().ok_or(CodeFault::CutShort)?;
    Ok(WordOperation::Increment { local, by })
}

/// The condition of a branch opcode with an offset of one byte, or `None` if no such branch has the opcode.
#[inline(always)]
#[tactic(auto, unfolding(crate::specs::Decoding::when_of))]
pub fn when_of(opcode: u8) -> Option<When>
    ensures { result ≡ when_of opcode }
{
    match opcode {
        96 => Some(When::Zero(Condition::Equal)),
        97 => Some(When::Zero(Condition::NotEqual)),
        98 => Some(When::Zero(Condition::Less)),
        99 => Some(When::Zero(Condition::GreaterOrEqual)),
        100 => Some(When::Zero(Condition::Greater)),
        101 => Some(When::Zero(Condition::LessOrEqual)),
        106 => Some(When::Compare(Condition::Equal)),
        107 => Some(When::Compare(Condition::NotEqual)),
        108 => Some(When::Compare(Condition::Less)),
        109 => Some(When::Compare(Condition::GreaterOrEqual)),
        110 => Some(When::Compare(Condition::Greater)),
        111 => Some(When::Compare(Condition::LessOrEqual)),
        112 => Some(When::Always),
        _ => None,
    }
}

#[inline(always)]
#[tactic(auto, unfolding(crate::specs::Decoding::next_wide_branch))]
fn wide_branch<'a>(opcode: u8, cursor: &mut Cursor<'a>) -> Result<WordOperation<'a>, CodeFault>
    requires { 152 ≤ opcode }
    ensures { Gives (λ o. o) result cursor.new (next_wide_branch opcode cursor.old) }
{
    let when = when_of(opcode - 56).ok_or(CodeFault::BadOpcode)?;
    let offset = cursor.s2().ok_or(CodeFault::CutShort)?;
    Ok(WordOperation::Branch { when, offset })
}

#[inline(always)]
#[tactic(auto, unfolding(crate::specs::Decoding::next_control))]
fn control<'a>(opcode: u8, cursor: &mut Cursor<'a>) -> Result<WordOperation<'a>, CodeFault>
    ensures { Gives (λ o. o) result cursor.new (next_control opcode cursor.old) }
{
    match opcode {
        115 => {
            let StableTable {
                default,
                low,
                offsets,
            } = next_stable_switch(cursor)?;
            Ok(WordOperation::StableSwitch {
                default,
                low,
                offsets,
            })
        }
        117 => {
            let LookupTable { default, cases } = next_lookup_switch(cursor)?;
            Ok(WordOperation::LookupSwitch { default, cases })
        }
        120 => Ok(WordOperation::ReturnWord),
        150 => wide_increment(cursor),
        152.. => wide_branch(opcode, cursor),
        _ => Err(CodeFault::BadOpcode),
    }
}

#[inline(always)]
#[tactic(auto, unfolding(crate::specs::Decoding::next_branch))]
fn branch<'a>(opcode: u8, cursor: &mut Cursor<'a>) -> Result<WordOperation<'a>, CodeFault>
    ensures { Gives (λ o. o) result cursor.new (next_branch opcode cursor.old) }
{
    let Some(when) = when_of(opcode) else {
        return control(opcode, cursor);
    };
    let offset = cursor.s1().ok_or(CodeFault::CutShort)?;
    Ok(WordOperation::Branch {
        when,
        offset: i16::from(offset),
    })
}

#[inline(always)]
#[tactic(auto, unfolding(crate::specs::Decoding::operator_of))]
fn operator(opcode: u8) -> Option<BinaryOperator>
    ensures { result ≡ operator_of opcode }
{
    match opcode {
        65 => Some(BinaryOperator::Add),
        67 => Some(BinaryOperator::Subtract),
        69 => Some(BinaryOperator::Multiply),
        71 => Some(BinaryOperator::Divide),
        73 => Some(BinaryOperator::Remainder),
        77 => Some(BinaryOperator::ShiftLeft),
        79 => Some(BinaryOperator::ShiftRight),
        81 => Some(BinaryOperator::ShiftRightUnsigned),
        83 => Some(BinaryOperator::And),
        85 => Some(BinaryOperator::Or),
        87 => Some(BinaryOperator::Xor),
        _ => None,
    }
}

#[inline(always)]
#[tactic(auto, unfolding(crate::specs::Decoding::next_arithmetic))]
fn arithmetic<'a>(opcode: u8, cursor: &mut Cursor<'a>) -> Result<WordOperation<'a>, CodeFault>
    ensures { Gives (λ o. o) result cursor.new (next_arithmetic opcode cursor.old) }
{
    match opcode {
        75 => Ok(WordOperation::Unary(UnaryOperator::Negate)),
        89 => {
            let local = cursor.u1().ok_or(CodeFault::CutShort)?;
            let by = cursor.s1().ok_or(CodeFault::CutShort)?;
            Ok(WordOperation::Increment {
                local,
                by: i16::from(by),
            })
        }
        91 => Ok(WordOperation::Unary(UnaryOperator::ToByte)),
        _ => match operator(opcode) {
            Some(operator) => Ok(WordOperation::Binary(operator)),
            None => branch(opcode, cursor),
        },
    }
}

#[inline(always)]
fn can_duplicate(count: u8, depth: u8) -> bool
    requires { depth < 16 }
    ensures { result ≡ is_duplicate count depth }
{
    1 <= count && count <= 4 && (depth == 0 || count <= depth && depth <= count + 4)
}

#[inline(always)]
fn can_swap(upper: u8, lower: u8) -> bool
    ensures { result ≡ is_swap upper lower }
{
    1 <= upper && upper <= 2 && 1 <= lower && lower <= 2
}

#[inline(always)]
#[tactic(auto, unfolding(crate::specs::Decoding::next_shuffle))]
fn shuffle_operation<'a>(
    opcode: u8,
    cursor: &mut Cursor<'a>,
) -> Result<WordOperation<'a>, CodeFault>
    ensures { Gives (λ o. o) result cursor.new (next_shuffle opcode cursor.old) }
{
    match opcode {
        59 => Ok(WordOperation::Shuffle(Shuffle::Pop { count: 1 })),
        60 => Ok(WordOperation::Shuffle(Shuffle::Pop { count: 2 })),
        61 => Ok(WordOperation::Shuffle(Shuffle::Duplicate { count: 1, depth: 0 })),
        62 => Ok(WordOperation::Shuffle(Shuffle::Duplicate { count: 2, depth: 0 })),
        63 => {
            let shape = cursor.u1().ok_or(CodeFault::CutShort)?;
            let count = shape / 16;
            let depth = shape % 16;
            if can_duplicate(count, depth) {
                Ok(WordOperation::Shuffle(Shuffle::Duplicate { count, depth }))
            } else {
                Err(CodeFault::BadOperand)
            }
        }
        64 => {
            let shape = cursor.u1().ok_or(CodeFault::CutShort)?;
            let upper = shape / 16;
            let lower = shape % 16;
            if can_swap(upper, lower) {
                Ok(WordOperation::Shuffle(Shuffle::Swap { upper, lower }))
            } else {
                Err(CodeFault::BadOperand)
            }
        }
        _ => arithmetic(opcode, cursor),
    }
}

#[inline(always)]
#[tactic(auto, unfolding(crate::specs::Decoding::next_local))]
fn local<'a>(opcode: u8, cursor: &mut Cursor<'a>) -> Result<WordOperation<'a>, CodeFault>
    ensures { Gives (λ o. o) result cursor.new (next_local opcode cursor.old) }
{
    match opcode {
        22 => {
            let index = cursor.u1().ok_or(CodeFault::CutShort)?;
            Ok(WordOperation::Load(index))
        }
        28 => Ok(WordOperation::Load(0)),
        29 => Ok(WordOperation::Load(1)),
        30 => Ok(WordOperation::Load(2)),
        31 => Ok(WordOperation::Load(3)),
        41 => {
            let index = cursor.u1().ok_or(CodeFault::CutShort)?;
            Ok(WordOperation::Store(index))
        }
        47 => Ok(WordOperation::Store(0)),
        48 => Ok(WordOperation::Store(1)),
        49 => Ok(WordOperation::Store(2)),
        50 => Ok(WordOperation::Store(3)),
        _ => shuffle_operation(opcode, cursor),
    }
}

/// The operation on words that an opcode and the bytes after it encode: the first of the tables. Each table hands an
/// opcode that it doesn't have to the next, so all compile to one jump.
#[inline(always)]
#[tactic(auto, unfolding(crate::specs::Decoding::next_constant))]
pub(crate) fn next_constant<'a>(
    opcode: u8,
    cursor: &mut Cursor<'a>,
) -> Result<WordOperation<'a>, CodeFault>
    ensures { Gives (λ o. o) result cursor.new (next_constant opcode cursor.old) }
{
    match opcode {
        0 => Ok(WordOperation::Nop),
        2 => Ok(WordOperation::Push(-1)),
        3 => Ok(WordOperation::Push(0)),
        4 => Ok(WordOperation::Push(1)),
        5 => Ok(WordOperation::Push(2)),
        6 => Ok(WordOperation::Push(3)),
        7 => Ok(WordOperation::Push(4)),
        8 => Ok(WordOperation::Push(5)),
        16 => {
            let value = cursor.s1().ok_or(CodeFault::CutShort)?;
            Ok(WordOperation::Push(i16::from(value)))
        }
        17 => {
            let value = cursor.s2().ok_or(CodeFault::CutShort)?;
            Ok(WordOperation::Push(value))
        }
        _ => local(opcode, cursor),
    }
}
