//! Names, scripts and replies; histories of calls on objects, and their laws.
#![tactic(auto)]

mod cursor;
mod entry;
mod full;
mod gate;
#[cfg(test)]
mod lane_tests;
mod lanes;
pub mod laws;
mod name;
mod parts;
mod places;
mod replies;
mod script;
mod serving;
mod shape;
pub mod shape_laws;
#[cfg(test)]
mod shape_tests;
#[cfg(test)]
mod tests;
mod valid;

pub use cursor::ScriptLines;
pub use entry::Entry;
pub use full::Full;
pub use gate::{Gate, OpenGate};
pub use lanes::{lane_bits, put_lane, raised};
pub use name::{Declared, Name};
pub use parts::{part_at, with_part};
pub use places::{Object, Path, Place, WordOp};
pub use replies::Replies;
pub use script::{Line, Lines, Piece, Script};
pub use serving::{has_step, is_sole, op_for, op_serves};
pub use shape::{Objects, Shape, data_word, lock_word};
pub use valid::{MOST_IN_SHAPE, shape_ok};
