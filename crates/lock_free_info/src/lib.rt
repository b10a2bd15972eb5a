//! Which objects need no lock, and by which class of path each call on them is made.
#![tactic(auto)]

mod classes;
pub mod laws;
mod table;
#[cfg(test)]
mod tests;

pub use classes::{PathClass, class_of, is_lock_free};
pub use table::write_plan;
