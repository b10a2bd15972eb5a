//! Every call on each class of kinds at the edges of its width: 0, 1, the greatest and the least value, and positions of
//! bits at and past the width. The replies and values were worked out from the table of operations on whole numbers.

use crate::status::Status;
use crate::top::portable_call;
use place_core::OpenGate;
use std::alloc::Global;
use std::process::Abort;
use std::sync::Wait;
use std::test::Fail;
use std::thread::Threads;
use work_lang::{MemSink, SureSource};

mod signed;
mod unsigned;

/// The workload whose calls are those of the rows, on one object.
fn text_of(alloc: Global, object: &str, rows: &str) -> Result<String, Fail> {
    let mut text = format!(in alloc; "work 1\ntarget full64\nobject n {object}\nthread\n")?;
    for row in rows.lines() {
        let (call, _) = row.split_once(" = ").ok_or("a row without a reply")?;
        text.push_str(call)?;
        text.push_str("\n")?;
    }
    text.push_str("end\n")?;
    Ok(text)
}

/// Runs the calls of the rows on one object, and compares their replies and the last value. Most rows begin with a swap,
/// which puts a value there and replies what the row before left.
fn assert_rows<R: Threads + Wait + Sync + Abort>(
    rt: &R,
    alloc: Global,
    object: &str,
    rows: &str,
    last: &str,
) -> Result<(), Fail> {
    let text = text_of(alloc, object, rows)?;
    let mut run = Vec::new(alloc);
    run.push(String::from_str(alloc, "run")?)?;
    let mut source = SureSource::of(text.as_bytes());
    let mut sink = MemSink::of(alloc, 16384, 4096, &[]).ok().ok_or("memory")?;
    let status = portable_call(rt, alloc, &run, &mut source, &mut sink, &OpenGate).status;
    assert_eq!(rt; status, Status::Done);
    let whole = format!(in alloc; "target full64\nthread 1\n{rows}\nlast\nn {last}\n")?;
    assert_eq!(rt; sink.bytes(), whole.as_bytes());
    Ok(())
}

#[test]
fn bools(rt: HostRuntime) -> Result<(), Fail> {
    let rows = "n swap false = false
n store true = unit
n swap true = true
n store false = unit
n swap false = false
n compare_exchange true false = err false
n compare_exchange false false = ok false
n swap true = false
n compare_exchange false true = err true
n compare_exchange true true = ok true
n swap false = true
n compare_exchange_weak true false = err false
n compare_exchange_weak false false = ok false
n swap true = false
n compare_exchange_weak false true = err true
n compare_exchange_weak true true = ok true
n swap false = true
n fetch_and true = false
n swap true = false
n fetch_and false = true
n swap false = false
n and true = unit
n swap true = false
n and false = unit
n swap false = false
n fetch_nand true = false
n swap true = true
n fetch_nand false = true
n swap false = true
n fetch_or true = false
n swap true = true
n fetch_or false = true
n swap false = true
n or true = unit
n swap true = true
n or false = unit
n swap false = true
n fetch_xor true = false
n swap true = true
n fetch_xor false = true
n swap false = true
n xor true = unit
n swap true = true
n xor false = unit
n swap false = true
n fetch_not = false
n swap true = true
n fetch_not = true
n swap false = false
n not = unit
n swap true = true
n not = unit
n load = false";
    assert_rows(&rt, rt.alloc(), "bool false", rows, "false")
}

#[test]
fn pointers(rt: HostRuntime) -> Result<(), Fail> {
    let rows = "n swap 0x0 = 0x0
n store 0x1 = unit
n swap 0x1 = 0x1
n store 0xffffffffffffffff = unit
n swap 0xffffffffffffffff = 0xffffffffffffffff
n store 0x0 = unit
n swap 0x0 = 0x0
n compare_exchange 0x1 0xffffffffffffffff = err 0x0
n compare_exchange 0x0 0xffffffffffffffff = ok 0x0
n swap 0x1 = 0xffffffffffffffff
n compare_exchange 0xffffffffffffffff 0x0 = err 0x1
n compare_exchange 0x1 0x0 = ok 0x1
n swap 0xffffffffffffffff = 0x0
n compare_exchange 0x0 0x1 = err 0xffffffffffffffff
n compare_exchange 0xffffffffffffffff 0x1 = ok 0xffffffffffffffff
n swap 0x0 = 0x1
n compare_exchange_weak 0x1 0xffffffffffffffff = err 0x0
n compare_exchange_weak 0x0 0xffffffffffffffff = ok 0x0
n swap 0x1 = 0xffffffffffffffff
n compare_exchange_weak 0xffffffffffffffff 0x0 = err 0x1
n compare_exchange_weak 0x1 0x0 = ok 0x1
n swap 0xffffffffffffffff = 0x0
n compare_exchange_weak 0x0 0x1 = err 0xffffffffffffffff
n compare_exchange_weak 0xffffffffffffffff 0x1 = ok 0xffffffffffffffff
n swap 0x0 = 0x1
n fetch_byte_add 0x1 = 0x0
n swap 0x1 = 0x1
n fetch_byte_add 0xffffffffffffffff = 0x1
n swap 0xffffffffffffffff = 0x0
n fetch_byte_add 0x0 = 0xffffffffffffffff
n swap 0x0 = 0xffffffffffffffff
n fetch_byte_sub 0x1 = 0x0
n swap 0x1 = 0xffffffffffffffff
n fetch_byte_sub 0xffffffffffffffff = 0x1
n swap 0xffffffffffffffff = 0x2
n fetch_byte_sub 0x0 = 0xffffffffffffffff
n swap 0x0 = 0xffffffffffffffff
n fetch_and 0x1 = 0x0
n swap 0x1 = 0x0
n fetch_and 0xffffffffffffffff = 0x1
n swap 0xffffffffffffffff = 0x1
n fetch_and 0x0 = 0xffffffffffffffff
n swap 0x0 = 0x0
n fetch_or 0x1 = 0x0
n swap 0x1 = 0x1
n fetch_or 0xffffffffffffffff = 0x1
n swap 0xffffffffffffffff = 0xffffffffffffffff
n fetch_or 0x0 = 0xffffffffffffffff
n swap 0x0 = 0xffffffffffffffff
n fetch_xor 0x1 = 0x0
n swap 0x1 = 0x1
n fetch_xor 0xffffffffffffffff = 0x1
n swap 0xffffffffffffffff = 0xfffffffffffffffe
n fetch_xor 0x0 = 0xffffffffffffffff
n swap 0x0 = 0xffffffffffffffff
n bit_set 0 = false
n swap 0x1 = 0x1
n bit_set 63 = false
n swap 0xffffffffffffffff = 0x8000000000000001
n bit_set 64 = true
n swap 0x0 = 0xffffffffffffffff
n bit_clear 129 = false
n swap 0x1 = 0x0
n bit_clear 4294967295 = false
n swap 0xffffffffffffffff = 0x1
n bit_clear 0 = true
n swap 0x0 = 0xfffffffffffffffe
n bit_toggle 63 = false
n swap 0x1 = 0x8000000000000000
n bit_toggle 64 = true
n swap 0xffffffffffffffff = 0x0
n bit_toggle 129 = true
n load = 0xfffffffffffffffd";
    assert_rows(&rt, rt.alloc(), "ptr 0x0", rows, "0xfffffffffffffffd")
}
