//! A search for every state that can be reached, over any type that steps.
#![tactic(auto)]

mod fault;
mod search;
mod stepping;

pub use fault::SearchFault;
pub use search::reach;
pub use stepping::Stepping;

#[cfg(test)]
mod tests;
