//! The machine on words.

use crate::statics::Statics;
use jc_frames::Frames;
use jc_store::Store;

/// What changes from step to step, besides what the runtime keeps: the objects, the frames of the current call, and the
/// static fields of the loaded packages.
#[derive(Drop)]
pub struct WordMachine {
    pub store: Store,
    pub frames: Frames,
    pub statics: Statics,
}
