//! Where the next instruction begins: the opcode says it, except if the length depends on the operands or they are
//! tested.

ghost use Rattle.std.specs.Prelude.{◌≡◌, ◌+◌, ◌<◌, ◌≤◌, length, IfOk};
ghost use Rattle.jc_code.specs.Decoding.{next_constant};
ghost use Rattle.jc_code.specs.Instructions.{instr_at, word_instr_at, next_pc_of};
ghost use Rattle.jc_code.specs.PrivateLengths.{AreLengths, HasLength, next_any, pc_behind};

use crate::fault::CodeFault;
use crate::instructions::{decode, decode_words};

/// How many bytes the instruction of an opcode has; 0 means that decoding decides.
static LENGTHS: [u8; 256] = [
    1, 1, 1, 1, 1, 1, 1, 1, 1, 0, 0, 0, 0, 0, 0, 0, 2, 3, 0, 0, 0, 2, 2, 0, 1, 1, 1, 1, 1, 1, 1, 1,
    0, 0, 0, 0, 1, 1, 1, 0, 2, 2, 0, 1, 1, 1, 1, 1, 1, 1, 1, 0, 0, 0, 0, 1, 1, 1, 0, 1, 1, 1, 1, 0,
    0, 1, 0, 1, 0, 1, 0, 1, 0, 1, 0, 1, 0, 1, 0, 1, 0, 1, 0, 1, 0, 1, 0, 1, 0, 3, 0, 1, 0, 0, 0, 0,
    2, 2, 2, 2, 2, 2, 2, 2, 2, 2, 2, 2, 2, 2, 2, 2, 2, 0, 0, 0, 0, 0, 0, 1, 1, 0, 1, 3, 3, 3, 0, 3,
    3, 3, 0, 2, 2, 2, 0, 2, 2, 2, 0, 3, 3, 3, 5, 3, 0, 3, 1, 1, 0, 0, 4, 0, 3, 3, 3, 3, 3, 3, 3, 3,
    3, 3, 3, 3, 3, 3, 3, 3, 3, 3, 3, 3, 0, 2, 2, 2, 0, 3, 3, 3, 0, 2, 2, 2, 0, 0, 0, 0, 0, 0, 0, 0,
    0, 0, 0, 0, 0, 0, 0, 0, 0, 0, 0, 0, 0, 0, 0, 0, 0, 0, 0, 0, 0, 0, 0, 0, 0, 0, 0, 0, 0, 0, 0, 0,
    0, 0, 0, 0, 0, 0, 0, 0, 0, 0, 0, 0, 0, 0, 0, 0, 0, 0, 0, 0, 0, 0, 0, 0, 0, 0, 0, 0, 0, 0, 0, 0,
];

/// The same for code alone, which has only the opcodes on words.
static WORD_LENGTHS: [u8; 256] = [
    1, 0, 1, 1, 1, 1, 1, 1, 1, 0, 0, 0, 0, 0, 0, 0, 2, 3, 0, 0, 0, 0, 2, 0, 0, 0, 0, 0, 1, 1, 1, 1,
    0, 0, 0, 0, 0, 0, 0, 0, 0, 2, 0, 0, 0, 0, 0, 1, 1, 1, 1, 0, 0, 0, 0, 0, 0, 0, 0, 1, 1, 1, 1, 0,
    0, 1, 0, 1, 0, 1, 0, 1, 0, 1, 0, 1, 0, 1, 0, 1, 0, 1, 0, 1, 0, 1, 0, 1, 0, 3, 0, 1, 0, 0, 0, 0,
    2, 2, 2, 2, 2, 2, 0, 0, 0, 0, 2, 2, 2, 2, 2, 2, 2, 0, 0, 0, 0, 0, 0, 0, 1, 0, 0, 0, 0, 0, 0, 0,
    0, 0, 0, 0, 0, 0, 0, 0, 0, 0, 0, 0, 0, 0, 0, 0, 0, 0, 0, 0, 0, 0, 4, 0, 3, 3, 3, 3, 3, 3, 0, 0,
    0, 0, 3, 3, 3, 3, 3, 3, 3, 0, 0, 0, 0, 0, 0, 0, 0, 0, 0, 0, 0, 0, 0, 0, 0, 0, 0, 0, 0, 0, 0, 0,
    0, 0, 0, 0, 0, 0, 0, 0, 0, 0, 0, 0, 0, 0, 0, 0, 0, 0, 0, 0, 0, 0, 0, 0, 0, 0, 0, 0, 0, 0, 0, 0,
    0, 0, 0, 0, 0, 0, 0, 0, 0, 0, 0, 0, 0, 0, 0, 0, 0, 0, 0, 0, 0, 0, 0, 0, 0, 0, 0, 0, 0, 0, 0, 0,
];

#[inline(always)]
fn lengths() -> &'static [u8; 256]
    ensures { AreLengths next_any result.now }
{
    &LENGTHS
}

#[inline(always)]
fn word_lengths() -> &'static [u8; 256]
    ensures { AreLengths next_constant result.now }
{
    &WORD_LENGTHS
}

#[inline(always)]
fn length_of(opcode: u8) -> u8
    ensures { HasLength result (next_any opcode) }
{
    lengths()[usize::from(opcode)]
}

#[inline(always)]
fn word_length_of(opcode: u8) -> u8
    ensures { HasLength result (next_constant opcode) }
{
    word_lengths()[usize::from(opcode)]
}

/// The pc that lies `count` bytes after one.
#[inline(always)]
fn pc_behind(code: &[u8], pc: usize, count: u8) -> Result<usize, CodeFault>
    requires { pc < length code.now }
    ensures pc { result ≡ pc_behind code.now pc count }
    ensures behind { IfOk result (λ n. n ≡ pc + count) }
    ensures within { IfOk result (λ n. n ≤ length code.now) }
{
    let behind = pc + usize::from(count);
    if code.len() < behind {
        Err(CodeFault::CutShort)
    } else {
        Ok(behind)
    }
}

#[inline(never)]
fn decoded_next_pc(code: &[u8], pc: usize) -> Result<usize, CodeFault>
    ensures pc { result ≡ next_pc_of (instr_at code.now pc) }
    ensures behind { IfOk result (λ n. pc < n) }
    ensures within { IfOk result (λ n. n ≤ length code.now) }
{
    Ok(decode(code, pc)?.next_pc)
}

#[inline(never)]
fn decoded_next_words_pc(code: &[u8], pc: usize) -> Result<usize, CodeFault>
    ensures pc { result ≡ next_pc_of (word_instr_at code.now pc) }
    ensures behind { IfOk result (λ n. pc < n) }
    ensures within { IfOk result (λ n. n ≤ length code.now) }
{
    Ok(decode_words(code, pc)?.next_pc)
}

/// The pc of the instruction after the one at a pc.
#[inline(always)]
#[tactic(auto, using(crate::proofs::ByLength::no_instr, crate::proofs::ByLength::by_length))]
pub fn next_pc(code: &[u8], pc: usize) -> Result<usize, CodeFault>
    ensures pc { result ≡ next_pc_of (instr_at code.now pc) }
    ensures behind { IfOk result (λ n. pc < n) }
    ensures within { IfOk result (λ n. n ≤ length code.now) }
{
    if pc >= code.len() {
        return Err(CodeFault::CutShort);
    }
    let count = length_of(code[pc]);
    if count == 0 {
        decoded_next_pc(code, pc)
    } else {
        pc_behind(code, pc, count)
    }
}

/// The same for code alone, in which every opcode that isn't one on words is `BadOpcode`.
#[inline(always)]
#[tactic(auto, using(crate::proofs::ByLength::no_word_instr, crate::proofs::ByLength::words_by_length))]
pub fn next_words_pc(code: &[u8], pc: usize) -> Result<usize, CodeFault>
    ensures pc { result ≡ next_pc_of (word_instr_at code.now pc) }
    ensures behind { IfOk result (λ n. pc < n) }
    ensures within { IfOk result (λ n. n ≤ length code.now) }
{
    if pc >= code.len() {
        return Err(CodeFault::CutShort);
    }
    let count = word_length_of(code[pc]);
    if count == 0 {
        decoded_next_words_pc(code, pc)
    } else {
        pc_behind(code, pc, count)
    }
}
