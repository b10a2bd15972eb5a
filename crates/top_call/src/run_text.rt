//! What is written of a run.

/// What is written of a run that ended.
#[derive(Clone, Copy, Debug, PartialEq, Eq)]
pub enum RunText {
    /// The report: each call with its reply, and the last values.
    Report,
    /// The last values of a run that was generated from these numbers.
    Many { seed: u64, threads: u32, calls: u32 },
}
