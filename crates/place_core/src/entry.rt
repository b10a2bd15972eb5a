//! Entries of histories.

use op_table::{Call, Reply};

/// A call that was made, with its caller's number, its object's number and its reply.
/// A history is a list of entries, the oldest first.
#[derive(Clone, Copy, Debug, PartialEq, Eq)]
pub struct Entry {
    pub caller: u32,
    pub object: u32,
    pub call: Call,
    pub reply: Reply,
}
