//! Rust's scalar types, and how each meets the table of operations by its own arithmetic.
#![tactic(auto)]

mod addr;
mod bodies;
mod replies;
mod scalar;
mod signed;
mod truth;
mod unsigned;

pub use addr::Addr;
pub use scalar::{IntScalar, LogicScalar, Scalar};

#[cfg(test)]
mod tests;
