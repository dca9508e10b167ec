//! Exception handlers, as a machine searches them.

ghost use Rattle.std.specs.Prelude.{◌≡◌, ℕ, ◌-◌, ◌+◌, List, map, IfOk};
ghost use Rattle.jc_cap_desc.specs.Shape.{Shape};
ghost use Rattle.jc_link.specs.Linked.{IsResolved};
ghost use Rattle.jc_program.specs.Methods.{covers, loaded_handler};
ghost use Rattle.jc_program.specs.PrivateLaid.{caught_in};
ghost use Rattle.jc_names.specs.Names.{home_at};

use jc_cap::Handler;
use jc_link::{LinkedBody, PoolTarget};
use jc_names::ClassName;
use std::alloc::{AllocError, Global};

/// What an exception handler catches.
#[derive(Clone, Copy, Debug, PartialEq, Eq)]
pub enum Caught {
    /// Every exception.
    All,
    /// Objects of a class and its subclasses.
    OfClass(ClassName),
    /// Nothing: its constant pool entry isn't a class. The check of packages refuses that.
    Nothing,
}

/// An exception handler. Its pcs count from the start of its method's code.
#[derive(Clone, Copy, Debug, PartialEq, Eq)]
pub struct LoadedHandler {
    /// The first pc that it covers.
    pub start: u16,
    /// The pc after the last one that it covers.
    pub end: u32,
    /// The pc where the method continues.
    pub goes_on: u16,
    pub caught: Caught,
}

impl LoadedHandler {
    /// Whether it covers a pc.
    #[inline]
    pub fn covers(self, pc: u16) -> bool
        ensures { result ≡ covers self pc }
    {
        self.start <= pc && u32::from(pc) < self.end
    }
}

/// The constant pool index of a handler that catches every exception.
const CATCHES_ALL: u16 = 0;

/// What an exception handler catches, by its index into the constant pool.
fn caught_in(targets: &[PoolTarget], index: u16) -> Caught
    ensures { result ≡ caught_in targets.now index }
{
    if index == CATCHES_ALL {
        return Caught::All;
    }
    let Some(target) = targets.get(usize::from(index)) else {
        return Caught::Nothing;
    };
    match target {
        PoolTarget::Class(class) => Caught::OfClass(*class),
        PoolTarget::InstanceField { .. } | PoolTarget::StaticField { .. } => Caught::Nothing,
        PoolTarget::VirtualMethod { .. } | PoolTarget::SuperMethod { .. } => Caught::Nothing,
        PoolTarget::StaticMethod { .. } => Caught::Nothing,
    }
}

/// The pc of an offset of the Method component, in code that begins at `code_offset`.
fn pc_at(offset: u16, code_offset: usize) -> u16
    ensures { result ≡ offset - code_offset }
{
    usize::from(offset).saturating_sub(code_offset) as u16
}

/// The pc after `length` bytes from an offset on.
fn pc_behind(offset: u16, length: u16, code_offset: usize) -> u32
    ensures { result ≡ offset + length - code_offset }
{
    let behind = usize::from(offset) + usize::from(length);
    behind.saturating_sub(code_offset) as u32
}

/// An exception handler of a method, in a package whose constant pool is resolved.
#[tactic(auto, using(crate::proofs::Catching::caught_there))]
fn loaded_handler(body: &LinkedBody, code_offset: usize, row: &Handler) -> LoadedHandler
    ensures { (world : List Shape) (number : ℕ) → IsResolved world (home_at number) body.now
        → result ≡ loaded_handler world number body.now code_offset row.now }
{
    LoadedHandler {
        start: pc_at(row.start, code_offset),
        end: pc_behind(row.start, row.active_length, code_offset),
        goes_on: pc_at(row.handler, code_offset),
        caught: caught_in(body.targets(), row.catch_type),
    }
}

/// The exception handlers of a method.
pub(crate) fn loaded_handlers(
    alloc: Global,
    body: &LinkedBody,
    code_offset: usize,
    rows: &[Handler],
) -> Result<Vec<LoadedHandler>, AllocError>
    ensures { IfOk result (λ handlers. (world : List Shape) (number : ℕ) → IsResolved world (home_at number) body.now
        → handlers.items ≡ map (loaded_handler world number body.now code_offset) rows.now) }
{
    let mut handlers = Vec::new(alloc);
    for row in rows {
        handlers.push(loaded_handler(body, code_offset, row))?;
    }
    Ok(handlers)
}
