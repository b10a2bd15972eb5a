//! GCC's atomic functions on objects of a size, `__atomic_load_1` to `__atomic_nand_fetch_16`, on cells of a region of
//! bytes.
#![tactic(auto)]

mod cells;
pub mod laws;
mod names;
mod operation;
mod region;
#[cfg(test)]
mod tests;
#[cfg(test)]
mod trials;

pub use cells::{Cell, RegionFault};
pub use names::read_name;
pub use operation::{SizedCall, SizedFault, SizedOp};
pub use region::Region;
