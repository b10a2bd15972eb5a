//! An arena of words that threads share, with one history of all calls on its objects.
#![tactic(auto)]

mod arena;
mod hand;
mod lanes;
pub mod laws;
mod locks;
mod note;
mod pass;
mod root;
mod rule;
mod starts;
#[cfg(test)]
mod tests;
#[cfg(test)]
mod trials;
mod view;

pub use arena::Arena;
pub use hand::LAST_STAMP;
pub use note::Note;
pub use pass::{MOST_PASSES, Pass};
pub use root::Root;
pub use view::{Beside, Ended, Flight, Item, Opening, Role, StepKind, View};
