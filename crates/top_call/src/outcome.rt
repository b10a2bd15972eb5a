//! What a call of the program comes to.

use crate::status::Status;
use seat_views::{Arena, Root};
use work_lang::Work;

/// A run that ended: the arena on which it was made, the arena's root, which has seen its one history, and the workload
/// that was run, with the target that it was run on.
#[derive(Drop)]
pub struct Ended {
    pub arena: Arena,
    pub root: Root,
    pub work: Work,
}

/// What a call of the program came to: its status, and the run that ended, where one did. That is at Done of `run` and of
/// `many`, and at a WriteFault that came while the run was told.
#[derive(Drop)]
pub struct Outcome {
    pub status: Status,
    pub ended: Option<Ended>,
}
