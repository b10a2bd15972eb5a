//! Scripts of calls, run on an arena: one by a pass, or one by each of many threads.
#![tactic(auto)]

mod crew;
mod scripts;
#[cfg(test)]
mod tests;
#[cfg(test)]
mod trials;
mod worker;

pub use crew::{run_all, run_each};
pub use scripts::run_script;
pub use worker::{Keep, Worker};
