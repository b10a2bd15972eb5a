//! Where declared objects lie on a target, and how their calls are made there.
#![tactic(auto)]

pub mod laws;
mod layout;
mod plans;
mod soles;
#[cfg(test)]
mod tests;

pub use layout::{are_declared, has_lane, lay, next_address, place_at, words_for};
pub use plans::{is_sole_at, path_with, plan};
pub use soles::Plans;
