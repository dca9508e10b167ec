//! The instruction that stands at a pc.

ghost use Rattle.std.specs.Prelude.{◌≡◌, ◌+◌, ◌<◌, ◌≤◌, drop, length, None, Some, IfErr, IfOk};
ghost use Rattle.jc_base.specs.Cursor.{next_u1};
ghost use Rattle.jc_code.specs.declared.fault.CodeFault.TheVariants.{CutShort};
ghost use Rattle.jc_code.specs.Instructions.{instr_at, word_instr_at};

use crate::decoding::next_constant;
use crate::fault::CodeFault;
use crate::instr::{Instr, Operation};
use crate::objects::next_object;
use jc_base::Cursor;

// The opcode at a pc, and the bytes after it.
#[inline(always)]
fn opcode_at<'a>(code: &'a [u8], pc: usize) -> Result<(u8, &'a [u8]), CodeFault>
    ensures read { IfOk result (λ r. next_u1 (drop pc code.now) ≡ Some (record { value = r.0; rest = r.1.now })) }
    ensures room { IfOk result (λ r. pc + length r.1.now < length code.now) }
    ensures none { IfErr result (λ fault. (next_u1 (drop pc code.now) ≡ None) × (fault ≡ CutShort)) }
{
    let mut cursor = Cursor::at(code, pc);
    let opcode = cursor.u1().ok_or(CodeFault::CutShort)?;
    Ok((opcode, cursor.rest()))
}

/// The instruction that begins at a pc.
///
/// `CutShort` also if the pc lies at the code's end or past it.
#[inline(always)]
#[tactic(auto, unfolding(crate::specs::Instructions::instr_at, crate::specs::Instructions::next_operation), using(crate::proofs::Ascents::left_behind_word, crate::proofs::Ascents::left_behind_object))]
pub fn decode<'a>(code: &'a [u8], pc: usize) -> Result<Instr<'a>, CodeFault>
    ensures instr { result ≡ instr_at code.now pc }
    ensures behind { IfOk result (λ i. pc < i.next_pc) }
    ensures within { IfOk result (λ i. i.next_pc ≤ length code.now) }
{
    let (opcode, behind) = opcode_at(code, pc)?;
    let mut cursor = Cursor::new(behind);
    match next_constant(opcode, &mut cursor) {
        Ok(operation) => Ok(Instr {
            operation: Operation::Word(operation),
            next_pc: code.len() - cursor.len(),
        }),
        Err(CodeFault::BadOpcode) => {
            let mut cursor = Cursor::new(behind);
            let operation = next_object(opcode, &mut cursor)?;
            Ok(Instr {
                operation: Operation::Object(operation),
                next_pc: code.len() - cursor.len(),
            })
        }
        Err(CodeFault::BadOperand) => Err(CodeFault::BadOperand),
        Err(CodeFault::CutShort) => Err(CodeFault::CutShort),
    }
}

/// The instruction that begins at a pc of code alone, which may use those on words: every other opcode is `BadOpcode`.
///
/// `CutShort` also if the pc lies at the code's end or past it.
#[inline(always)]
#[tactic(auto, unfolding(crate::specs::Instructions::word_instr_at, crate::specs::Decoding::next_word_operation), using(crate::proofs::Ascents::left_behind_word))]
pub fn decode_words<'a>(code: &'a [u8], pc: usize) -> Result<Instr<'a>, CodeFault>
    ensures instr { result ≡ word_instr_at code.now pc }
    ensures behind { IfOk result (λ i. pc < i.next_pc) }
    ensures within { IfOk result (λ i. i.next_pc ≤ length code.now) }
{
    let (opcode, behind) = opcode_at(code, pc)?;
    let mut cursor = Cursor::new(behind);
    let operation = next_constant(opcode, &mut cursor)?;
    Ok(Instr {
        operation: Operation::Word(operation),
        next_pc: code.len() - cursor.len(),
    })
}
