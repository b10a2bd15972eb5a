//! The steps of runs of scripts over a shape, from state to state.
#![tactic(auto)]

pub mod laws;
mod moves;
mod state;

pub use moves::{Move, expects, moves_word, reply_number, weak_word};
pub use state::State;
