//! The workload language: reading a workload from bytes, printing its calls, and where bytes come from and go to.
#![tactic(auto)]

mod canonical;
mod fault;
mod generate;
mod item;
pub mod laws;
mod limits;
mod memory;
mod meter;
mod objects;
mod operands;
mod orders;
mod print;
mod reader;
mod second;
mod stream;
pub mod vectors;
mod words;
mod work;

pub use canonical::{print_work, write_target};
pub use fault::{Cause, WorkFault};
pub use generate::{make_many, many_fits};
pub use limits::{Limits, limits_of};
pub use memory::{MemSink, MemSource, SureSink, SureSource};
pub use meter::Meter;
pub use operands::zero_call;
pub use print::push_call;
pub use reader::read_work;
pub use second::to_second;
pub use stream::{Failed, ReadEnd, Sink, Source, WriteEnd, read_all, write_all, write_line};
pub use work::Work;
