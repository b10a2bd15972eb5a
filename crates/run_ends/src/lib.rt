//! Whole runs and the beginnings of runs up to their last loads.
#![tactic(auto)]

pub mod laws;
