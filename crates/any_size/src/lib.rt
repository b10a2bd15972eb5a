//! Objects of 1 to 64 bytes that threads share, with one history of all calls on them.
#![tactic(auto)]

mod block;
mod blocks;
mod call;
mod calls;
mod hold;
pub mod laws;
mod pass;
mod root;
mod rule;
mod spot;
mod starts;
mod steps;
#[cfg(test)]
mod tests;
#[cfg(test)]
mod trials;
mod view;

pub use block::Block64;
pub use blocks::Blocks;
pub use call::{BlockCall, BlockEntry, BlockReply};
pub use pass::{BlockPass, MOST_PASSES};
pub use root::BlockRoot;
pub use view::{BlockEnded, BlockItem, BlockStep, Hold};
