//! What a thread needs to run a script.

use place_core::{Replies, Script};
use seat_views::Pass;

/// A pass with the script that it runs and the replies to its calls.
#[derive(Drop)]
pub struct Worker {
    pub pass: Pass,
    pub script: Script,
    /// One reply a line, in the script's order, after those that were there before.
    pub replies: Replies,
}

/// What is kept of the calls of scripts.
#[derive(Clone, Copy, Debug, PartialEq, Eq)]
pub enum Keep {
    /// Every reply.
    Replies,
    /// Nothing, where the objects' last values are all that is asked for. No room for replies is taken then.
    Nothing,
}
