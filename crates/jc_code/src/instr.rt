//! Decoded instructions.

ghost use Rattle.std.specs.Prelude.{◌≡◌};
ghost use Rattle.jc_code.specs.Targets.{word_flow};

use crate::flow::Flow;
use crate::object::ObjectOperation;
use crate::tables::{Cases, Offsets};

/// A decoded instruction.
#[derive(Drop)]
pub struct Instr<'a> {
    pub operation: Operation<'a>,
    /// Where the next instruction begins.
    pub next_pc: usize,
}

/// What an instruction does, whatever its encoding (Java Card Virtual Machine Specification, instruction set). Offsets
/// count from the instruction's own opcode.
#[derive(Drop)]
pub enum Operation<'a> {
    /// On words, and moves of operands.
    Word(WordOperation<'a>),
    /// On references: to objects, arrays, members and methods.
    Object(ObjectOperation),
}

/// What an instruction on words does. Code alone may use only these.
#[derive(Drop)]
pub enum WordOperation<'a> {
    /// nop
    Nop,
    /// sconst, bspush, sspush: puts a short on the operand stack.
    Push(i16),
    /// sload: puts the short of a local on the operand stack.
    Load(u8),
    /// sstore: takes a short into a local.
    Store(u8),
    /// sinc: adds to the short of a local.
    Increment {
        local: u8,
        by: i16,
    },
    /// Moves operands, whatever they are.
    Shuffle(Shuffle),
    /// Takes two shorts and puts one.
    Binary(BinaryOperator),
    /// Takes a short and puts one.
    Unary(UnaryOperator),
    /// Goes to another place, always or if a condition holds.
    Branch {
        when: When,
        offset: i16,
    },
    /// stableswitch: goes by the offset of a key in a table from `low` on.
    StableSwitch {
        default: i16,
        low: i16,
        offsets: Offsets<'a>,
    },
    /// slookupswitch: goes by the first case of a key.
    LookupSwitch {
        default: i16,
        cases: Cases<'a>,
    },
    /// sreturn: ends the method with a short.
    ReturnWord,
}

impl<'a> WordOperation<'a> {
    /// Where control flow goes after it.
    pub(crate) fn flow(&self) -> Flow<'a>
        ensures { result ≡ word_flow self.now }
    {
        match self {
            WordOperation::Nop | WordOperation::Push(_) | WordOperation::Load(_) => Flow::On,
            WordOperation::Store(_) | WordOperation::Increment { .. } => Flow::On,
            WordOperation::Shuffle(_) | WordOperation::Binary(_) => Flow::On,
            WordOperation::Unary(_) => Flow::On,
            WordOperation::Branch { when, offset } => match when {
                When::Always => Flow::Jump(*offset),
                When::Zero(_) => Flow::Branch(*offset),
                When::Compare(_) => Flow::Branch(*offset),
            },
            WordOperation::StableSwitch {
                default,
                offsets,
                ..
            } => Flow::ByKey {
                default: *default,
                offsets: offsets.lent(),
            },
            WordOperation::LookupSwitch { default, cases } => Flow::ByCase {
                default: *default,
                cases: cases.lent(),
            },
            WordOperation::ReturnWord => Flow::End,
        }
    }
}

/// How operands are moved. Counting starts at the top.
#[derive(Clone, Copy, Debug, PartialEq, Eq)]
pub enum Shuffle {
    /// pop, pop2: drops the top `count`.
    Pop { count: u8 },
    /// dup, dup2, dup_x: inserts a copy of the top `count` below the top `depth`; depth 0 is on top.
    Duplicate { count: u8, depth: u8 },
    /// swap_x: the top `upper` and the `lower` below them change places.
    Swap { upper: u8, lower: u8 },
}

/// Operators on two shorts.
#[derive(Clone, Copy, Debug, PartialEq, Eq)]
pub enum BinaryOperator {
    Add,
    Subtract,
    Multiply,
    Divide,
    Remainder,
    ShiftLeft,
    ShiftRight,
    ShiftRightUnsigned,
    And,
    Or,
    Xor,
}

/// Operators on one short.
#[derive(Clone, Copy, Debug, PartialEq, Eq)]
pub enum UnaryOperator {
    /// sneg
    Negate,
    /// s2b: the low byte, with its sign.
    ToByte,
}

/// When a branch is taken.
#[derive(Clone, Copy, Debug, PartialEq, Eq)]
pub enum When {
    /// goto
    Always,
    /// If a short compares so with zero.
    Zero(Condition),
    /// If two shorts compare so, the deeper one first.
    Compare(Condition),
}

/// How two shorts compare.
#[derive(Clone, Copy, Debug, PartialEq, Eq)]
pub enum Condition {
    Equal,
    NotEqual,
    Less,
    GreaterOrEqual,
    Greater,
    LessOrEqual,
}
