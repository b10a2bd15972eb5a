//! Updates by stored rules.
#![tactic(auto)]

#[cfg(test)]
mod crowd;
mod handles;
pub mod laws;
mod rule;
mod table;
#[cfg(test)]
mod tests;
#[cfg(test)]
mod trials;
#[cfg(test)]
mod type_tests;
mod typed;
mod update;

pub use handles::FetchUpdateHandle;
pub use rule::{Cycle, Lower, Raise, Rule, Stored};
pub use table::{PushFault, Table, TableOf};
pub use typed::FetchUpdate;
pub use update::{Stop, fetch_update, fetch_update_by};
