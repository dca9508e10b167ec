//! The instructions of a method's code, decoded from its bytes.
#![tactic(auto)]

mod decoding;
mod fault;
mod flow;
mod instr;
mod instructions;
mod lengths;
mod listing;
mod object;
mod objects;
mod operands;
mod tables;

pub use decoding::{next_lookup_switch, next_stable_switch, when_of};
pub use fault::CodeFault;
pub use flow::Targets;
pub use instr::{
    BinaryOperator, Condition, Instr, Operation, Shuffle, UnaryOperator, When, WordOperation,
};
pub use instructions::{decode, decode_words};
pub use lengths::{next_pc, next_words_pc};
pub use listing::listing_laws;
pub use object::{
    Creation, FieldAccess, FieldAction, Form, Holder, Invocation, ObjectOperation,
    ReferenceCondition, TestedType, WordKind,
};
pub use operands::{next_at, s1_at, s2_at, u1_at};
pub use tables::{Case, Cases, LookupTable, Offsets, StableTable};
