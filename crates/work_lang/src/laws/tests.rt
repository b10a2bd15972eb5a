//! Texts that end after each line of a workload's, in both versions of the language.

use crate::read_work;
use std::alloc::Global;
use std::process::Abort;
use std::test::Fail;

/// Each row has a line, and what is told of the text that ends with it.
fn assert_cuts(rt: &impl Abort, alloc: Global, rows: &str) -> Result<(), Fail> {
    let mut text = String::new(alloc);
    for row in rows.lines() {
        let (line, expected) = row.split_once(" => ").ok_or("a row without an answer")?;
        text.push_str(line)?;
        text.push_str("\n")?;
        let told = match read_work(alloc, text.as_bytes()) {
            Ok(_) => format!(in alloc; "a workload")?,
            Err(fault) => format!(in alloc; "{fault}")?,
        };
        assert_eq!(rt; told.as_str(), expected, "up to the line {line:?}");
    }
    Ok(())
}

#[test]
fn texts_may_end_where_nothing_is_open(rt: HostRuntime) -> Result<(), Fail> {
    let first = "work 1 => line 1 word 0 Missing
target full64 => a workload
object n u64 0 => a workload
thread => line 4 word 0 Unclosed
n fetch_add 5 => line 5 word 0 Unclosed
n load => line 6 word 0 Unclosed
end => a workload";
    assert_cuts(&rt, rt.alloc(), first)?;
    let second = "work 2 => line 1 word 0 Missing
target full64 => a workload
object n u8 0 => a workload
thread => line 4 word 0 Unclosed
repeat: 300 => line 5 word 0 Unclosed
n fetch_add 1 => line 6 word 0 Unclosed
end => line 7 word 0 Unclosed
n load => line 8 word 0 Unclosed
end => a workload
thread => line 10 word 0 Unclosed
repeat: 1 => line 11 word 0 Unclosed
end => line 12 word 0 Unclosed
end => a workload";
    assert_cuts(&rt, rt.alloc(), second)
}
