//! Tests of whole runs under contention: many threads on one word, on one lock, and glances beside writers, on each kind
//! of target, so that the second turn of each loop and its pause run. Each ends at values that arithmetic gives.
#![tactic(auto)]

#[cfg(test)]
mod tests;
