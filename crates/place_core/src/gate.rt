//! What a caller of a run is told as it goes on.

/// A watcher of a run, which threads share: each thread calls it before and after each of its calls. It may hold a
/// thread back for a while, and no clause speaks of it: whatever it does, it returns.
pub trait Gate: Sync {
    /// Before a thread makes a call of its script. Threads and calls are counted from 1.
    fn before(&self, thread: u32, call: u32);

    /// After that call was answered.
    fn after(&self, thread: u32, call: u32);
}

/// The gate that does nothing.
#[derive(Clone, Copy, Debug, PartialEq, Eq)]
pub struct OpenGate;

impl Gate for OpenGate {
    fn before(&self, _thread: u32, _call: u32) {}

    fn after(&self, _thread: u32, _call: u32) {}
}
