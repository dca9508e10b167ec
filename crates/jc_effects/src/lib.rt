//! The effect of one instruction on the types of a method's locals and operands.
#![tactic(auto)]

mod applying;
mod calls;
mod demands;
mod effect;
mod fields;
mod laws;
mod objects;
mod row;
mod setting;
mod words;

pub use applying::{Row, apply};
pub use demands::Wanted;
pub use effect::{own_method, result_of, transfer, transfer_in};
pub use jc_base::Reason;
pub use laws::{
    api_classes_have_objects, effects_are_monotone, effects_keep_shapes, effects_name_classes,
    growing_keeps_effects,
};
pub use row::{Demand, Given, LocalDemand};
pub use setting::Setting;
pub use words::transfer_word;
