//! A rule that is pushed onto a table.

use std::alloc::Global;
use top_call::Status;
use update_table::{Cycle, PushFault, Rule, Table};

/// Pushes a rule onto an empty table: `Done` and one rule where it is stored. Where memory is refused, `NoMemory` and none:
/// the rule is given back, the table is empty, and takes the same rule when it is pushed again. All else is `WriteFault`.
pub fn push_rule(alloc: Global) -> (Status, u64) {
    let mut table = Table::new(alloc, 1, 3);
    let Ok(rule) = Box::new(alloc, Cycle { lo: 1, hi: 3 }) else {
        return (Status::NoMemory, 0);
    };
    match table.push(rule) {
        Ok(0) if table.len() == 1 => (Status::Done, 1),
        Err((back, PushFault::NoMemory)) if back.range() == (1, 3) && table.len() == 0 => {
            match table.push(back) {
                Ok(0) => (Status::NoMemory, 0),
                _ => (Status::WriteFault, 0),
            }
        }
        _ => (Status::WriteFault, 0),
    }
}
