//! The report of a run: each call with its reply, and the last values; and the last values of a generated run.
#![tactic(auto)]

mod call_text;
pub mod laws;
mod many;
mod replies;
mod reports;

pub use many::many_text;
pub use replies::push_reply;
pub use reports::report;

#[cfg(test)]
mod tests;
