//! The defensive machine, which specifies an interpreter, and the contract of the native members that both call.
#![tactic(auto)]

mod examples;
mod idle;
mod laws;
mod limits;
mod member;
mod natives;
mod stop;

pub use examples::{
    bytes_are_kept, callback_runs, calls_run, first_frames_are_typed, handlers_cover_their_ranges,
    install_runs, natives_run, new_machines_are_typed, operands_are_written, runtime_objects_fit,
    stuck_runs, the_last_access_is_told, throws_run,
};
pub use idle::IdleNatives;
pub use laws::{
    accepted_methods_are_typed, accepted_worlds_grow, accesses_are_guarded,
    accesses_are_the_instructions, calls_keep_what_members_keep, cells_follow_superclasses,
    contents_are_unseen, held_values_stay, instructions_begin_in_turn, methods_have_code,
    operations_on_words_keep_types, owners_go_by_calls, runtime_objects_stay, steps_stay_apart,
    throws_are_caught,
};
pub use limits::Limits;
pub use natives::{AtOnce, MOST_ARGUMENTS, Natives, WordCall, WordCallback, WordOutcome};
pub use stop::{Budget, CodePoint, DeniedAccess};
