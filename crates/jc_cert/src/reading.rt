//! Reading a certificate, in one pass.

ghost use Rattle.std.specs.Prelude.{◌≡◌, ◌⊎◌, List, [], IfOk, IfErr, IsErrOf, MatchResult, map};
ghost use Rattle.jc_base.specs.Cursor.{Gives};
ghost use Rattle.jc_cert.specs.Cert.{Row, IsCert, stated, row, rows};
ghost use Rattle.jc_cert.specs.Writing.{spelling};
ghost use Rattle.jc_cert.specs.PrivateReading.{next_number, next_api, next_other, next_class, next_type, next_types};
ghost use Rattle.jc_cert.specs.PrivateReading.{next_stated, next_states, next_row, next_rows, next_cert};
ghost use Rattle.jc_cert.specs.PrivateReading.{GivesUnlessMemory};

use crate::cert::{Cert, MethodStates, StateRow};
use crate::refusal::{NoSpelling, Refusal};
use crate::stated_type::{SpelledClass, StatedType};
use jc_api::ApiClass;
use jc_base::{Aid, Cursor, LoadFault};
use std::alloc::Global;

/// The next number of two bytes, if it is at least `least`.
#[tactic(auto, unfolding(crate::specs::PrivateReading::next_number))]
fn read_number(cursor: &mut Cursor, least: u32) -> Result<u16, NoSpelling>
    ensures { Gives (λ n. n) result cursor.new (next_number least cursor.old) }
{
    let number = cursor.u2().ok_or(NoSpelling)?;
    if u32::from(number) < least {
        return Err(NoSpelling);
    }
    Ok(number)
}

/// A class of the API, after the length 1.
#[tactic(auto, unfolding(crate::specs::PrivateReading::next_api))]
fn read_api(cursor: &mut Cursor) -> Result<ApiClass, NoSpelling>
    ensures { Gives (λ class. class) result cursor.new (next_api cursor.old) }
{
    let first = cursor.u1().ok_or(NoSpelling)?;
    let high = cursor.u1().ok_or(NoSpelling)?;
    let number = cursor.u1().ok_or(NoSpelling)?;
    let class = ApiClass::from_number(number).ok_or(NoSpelling)?;
    if first != 0 || high != 0 {
        return Err(NoSpelling);
    }
    Ok(class)
}

/// A class of another package, after the length of that package's AID.
#[tactic(auto, unfolding(crate::specs::PrivateReading::next_other))]
fn read_other(cursor: &mut Cursor, len: usize) -> Result<SpelledClass, NoSpelling>
    ensures { Gives (λ class. class) result cursor.new (next_other len cursor.old) }
{
    let bytes = cursor.take(len).ok_or(NoSpelling)?;
    let package = Aid::from_slice(bytes).ok_or(NoSpelling)?;
    let offset = cursor.u2().ok_or(NoSpelling)?;
    Ok(SpelledClass::Other { package, offset })
}

#[tactic(auto, unfolding(crate::specs::PrivateReading::next_class))]
fn read_class(cursor: &mut Cursor) -> Result<SpelledClass, NoSpelling>
    ensures { Gives (λ class. class) result cursor.new (next_class cursor.old) }
{
    match cursor.u1().ok_or(NoSpelling)? {
        0 => {
            let offset = cursor.u2().ok_or(NoSpelling)?;
            Ok(SpelledClass::Own { offset })
        }
        1 => Ok(SpelledClass::Api(read_api(cursor)?)),
        len => read_other(cursor, usize::from(len)),
    }
}

#[tactic(auto, unfolding(crate::specs::PrivateReading::next_type))]
fn read_type(cursor: &mut Cursor) -> Result<StatedType, NoSpelling>
    ensures { Gives (λ ty. ty) result cursor.new (next_type cursor.old) }
{
    match cursor.u1().ok_or(NoSpelling)? {
        0 => Ok(StatedType::Top),
        1 => Ok(StatedType::Word),
        2 => Ok(StatedType::Null),
        3 => Ok(StatedType::Class(read_class(cursor)?)),
        4 => Ok(StatedType::BooleanArray),
        5 => Ok(StatedType::ByteArray),
        6 => Ok(StatedType::ShortArray),
        7 => Ok(StatedType::ReferenceArray(read_class(cursor)?)),
        _ => Err(NoSpelling),
    }
}

fn read_types(alloc: Global, cursor: &mut Cursor, count: u16) -> Result<Vec<StatedType>, Refusal>
    ensures { GivesUnlessMemory (λ types. types.items) result cursor.new (next_types count cursor.old) }
{
    let mut types = Vec::new(alloc);
    for _ in 0..count {
        let ty = read_type(cursor)?;
        // As a slice: `push` returns its value if memory runs out, and the check fails on that for enums in enums.
        types.extend_from_slice(&[ty])?;
    }
    Ok(types)
}

#[tactic(auto, unfolding(crate::specs::PrivateReading::next_stated))]
fn read_state(alloc: Global, cursor: &mut Cursor, least: u32) -> Result<StateRow, Refusal>
    ensures { GivesUnlessMemory stated result cursor.new (next_stated least cursor.old) }
{
    let pc = read_number(cursor, least)?;
    let count = cursor.u2().ok_or(NoSpelling)?;
    let locals = read_types(alloc, cursor, count)?;
    let depth = cursor.u1().ok_or(NoSpelling)?;
    let operands = read_types(alloc, cursor, u16::from(depth))?;
    Ok(StateRow {
        pc,
        locals,
        operands,
    })
}

fn read_states(alloc: Global, cursor: &mut Cursor, count: u16) -> Result<Vec<StateRow>, Refusal>
    ensures { GivesUnlessMemory (λ states. map stated states.items) result cursor.new (next_states count 0 cursor.old) }
{
    let mut states = Vec::new(alloc);
    let mut least = 0u32;
    for _ in 0..count {
        let state = read_state(alloc, cursor, least)?;
        least = u32::from(state.pc) + 1;
        states.push(state)?;
    }
    Ok(states)
}

#[tactic(auto, unfolding(crate::specs::PrivateReading::next_row))]
fn read_row(alloc: Global, cursor: &mut Cursor, least: u32) -> Result<MethodStates, Refusal>
    ensures { GivesUnlessMemory row result cursor.new (next_row least cursor.old) }
{
    let offset = read_number(cursor, least)?;
    let count = read_number(cursor, 1)?;
    let states = read_states(alloc, cursor, count)?;
    Ok(MethodStates { offset, states })
}

fn read_rows(alloc: Global, cursor: &mut Cursor, count: u16) -> Result<Vec<MethodStates>, Refusal>
    ensures { GivesUnlessMemory (λ methods. rows methods.items) result cursor.new (next_rows count 0 cursor.old) }
{
    let mut methods = Vec::new(alloc);
    let mut least = 0u32;
    for _ in 0..count {
        let method = read_row(alloc, cursor, least)?;
        least = u32::from(method.offset) + 1;
        methods.push(method)?;
    }
    Ok(methods)
}

#[tactic(auto, unfolding(crate::specs::PrivateReading::next_cert))]
fn read_all(alloc: Global, bytes: &[u8]) -> Result<Vec<MethodStates>, Refusal>
    ensures { GivesUnlessMemory (λ methods. rows methods.items) result [] (next_cert bytes.now) }
{
    let mut cursor = Cursor::new(bytes);
    let count = cursor.u2().ok_or(NoSpelling)?;
    let methods = read_rows(alloc, &mut cursor, count)?;
    if !cursor.is_empty() {
        return Err(Refusal::Unspelled);
    }
    Ok(methods)
}

/// The certificate that these bytes encode.
///
/// `BadCertificate` if they encode none, and `Memory` if memory runs out, which may happen first.
pub fn read(alloc: Global, bytes: &[u8]) -> Result<Cert, LoadFault>
    // The result is a certificate, and the bytes are its encoding.
    ensures found { IfOk result (λ rows. IsCert rows × (bytes.now ≡ spelling rows)) }
    // A certificate with this encoding is returned, unless memory runs out.
    ensures only { (rows : List Row) → IsCert rows → bytes.now ≡ spelling rows →
        MatchResult result (λ read. read ≡ rows) (λ fault. fault ≡ LoadFault.Memory) }
    // Refused bytes are no certificate's encoding.
    ensures refused { IsErrOf result LoadFault.BadCertificate →
        (rows : List Row) → IsCert rows → bytes.now ≡ spelling rows → ⊥ }
    ensures faults { IfErr result (λ fault. (fault ≡ LoadFault.BadCertificate) ⊎ (fault ≡ LoadFault.Memory)) }
{
    let methods = read_all(alloc, bytes)?;
    Ok(Cert::from_rows(methods))
}
