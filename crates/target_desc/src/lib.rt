//! What a machine can do with a word, and the text that says it.
#![tactic(auto)]

mod fields;
pub mod laws;
mod reading;
mod target;
mod text;

pub use reading::{TargetFault, read_target, target_at};
pub use target::{Target, builtin, builtins, is_of_version, target_ok};
pub use text::{push_description, push_target};

#[cfg(test)]
mod tests;
