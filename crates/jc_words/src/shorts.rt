//! Arithmetic on words of 16 bits, as shorts.

ghost use Rattle.std.specs.Prelude.{◌≡◌, ◌<◌, Some};
ghost use Rattle.jc_words.specs.Shorts.{binary_of, distance, holds, incremented, low_half, unary_of};

use jc_code::{BinaryOperator, Condition, UnaryOperator};

/// The low 16 of 32 bits.
#[inline(always)]
fn low_bits(bits: u32) -> u16
    ensures { result ≡ low_half bits }
{
    (bits % 65536) as u16
}

/// The distance of a shift, below 32.
#[inline(always)]
fn distance_of(word: u16) -> u32
    ensures value { result ≡ distance word }
    ensures bound { result < 32 }
{
    u32::from(word % 32)
}

#[inline(always)]
fn divide(a: u16, b: u16) -> Option<u16>
    ensures { result ≡ binary_of BinaryOperator.Divide a b }
{
    if b == 0 {
        return None;
    }
    Some(
        a.cast_signed()
            .wrapping_div(b.cast_signed())
            .cast_unsigned(),
    )
}

#[inline(always)]
fn remainder(a: u16, b: u16) -> Option<u16>
    ensures { result ≡ binary_of BinaryOperator.Remainder a b }
{
    if b == 0 {
        return None;
    }
    Some(
        a.cast_signed()
            .wrapping_rem(b.cast_signed())
            .cast_unsigned(),
    )
}

#[inline(always)]
fn shift_left(a: u16, b: u16) -> u16
    ensures { binary_of BinaryOperator.ShiftLeft a b ≡ Some result }
{
    low_bits(
        i32::from(a.cast_signed())
            .wrapping_shl(distance_of(b))
            .cast_unsigned(),
    )
}

#[inline(always)]
fn shift_right(a: u16, b: u16) -> u16
    ensures { binary_of BinaryOperator.ShiftRight a b ≡ Some result }
{
    low_bits(
        i32::from(a.cast_signed())
            .wrapping_shr(distance_of(b))
            .cast_unsigned(),
    )
}

#[inline(always)]
fn shift_right_unsigned(a: u16, b: u16) -> u16
    ensures { binary_of BinaryOperator.ShiftRightUnsigned a b ≡ Some result }
{
    low_bits(i32::from(a.cast_signed()).cast_unsigned() >> distance_of(b))
}

/// The result of a binary operator, the deeper operand first. `None` is a division by 0.
#[inline(always)]
pub fn binary(operator: BinaryOperator, a: u16, b: u16) -> Option<u16>
    ensures { result ≡ binary_of operator a b }
{
    match operator {
        BinaryOperator::Add => Some(
            a.cast_signed()
                .wrapping_add(b.cast_signed())
                .cast_unsigned(),
        ),
        BinaryOperator::Subtract => Some(
            a.cast_signed()
                .wrapping_sub(b.cast_signed())
                .cast_unsigned(),
        ),
        BinaryOperator::Multiply => Some(
            a.cast_signed()
                .wrapping_mul(b.cast_signed())
                .cast_unsigned(),
        ),
        BinaryOperator::Divide => divide(a, b),
        BinaryOperator::Remainder => remainder(a, b),
        BinaryOperator::ShiftLeft => Some(shift_left(a, b)),
        BinaryOperator::ShiftRight => Some(shift_right(a, b)),
        BinaryOperator::ShiftRightUnsigned => Some(shift_right_unsigned(a, b)),
        BinaryOperator::And => Some(a & b),
        BinaryOperator::Or => Some(a | b),
        BinaryOperator::Xor => Some(a ^ b),
    }
}

/// The result of a unary operator.
#[inline(always)]
pub fn unary(operator: UnaryOperator, a: u16) -> u16
    ensures { result ≡ unary_of operator a }
{
    match operator {
        UnaryOperator::Negate => a.cast_signed().wrapping_neg().cast_unsigned(),
        UnaryOperator::ToByte => i16::from(((a % 256) as u8).cast_signed()).cast_unsigned(),
    }
}

/// The sum of a word and a constant, wrapped.
#[inline(always)]
pub fn incremented(a: u16, by: i16) -> u16
    ensures { result ≡ incremented a by }
{
    a.cast_signed().wrapping_add(by).cast_unsigned()
}

/// Whether a condition holds of two words as shorts.
#[inline(always)]
pub fn compares(condition: Condition, a: u16, b: u16) -> bool
    ensures { result ≡ holds condition a b }
{
    let (x, y) = (a.cast_signed(), b.cast_signed());
    match condition {
        Condition::Equal => a == b,
        Condition::NotEqual => a != b,
        Condition::Less => x < y,
        Condition::GreaterOrEqual => x >= y,
        Condition::Greater => x > y,
        Condition::LessOrEqual => x <= y,
    }
}
