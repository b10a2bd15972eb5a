//! The top call of the program `portable`: it reads a workload, runs it on an arena with a thread for each script, and
//! writes the report of the arena's one history; or it describes a workload, or the built-in targets.
#![tactic(auto)]

mod command;
mod command_line;
mod describing;
mod faults;
mod input;
pub mod laws;
mod outcome;
mod prepared;
mod real;
mod run_text;
mod running;
mod status;
mod top;

pub use command::{Command, WordsFault, read_words};
pub use outcome::{Ended, Outcome};
pub use real::{ReadSource, WriteSink};
pub use status::Status;
pub use top::{describe, portable_call};

#[cfg(test)]
mod describe_tests;
#[cfg(test)]
mod edge_tests;
#[cfg(test)]
mod gate_tests;
#[cfg(test)]
mod many_tests;
#[cfg(test)]
mod real_tests;
#[cfg(test)]
mod run_tests;
#[cfg(test)]
mod tests;
