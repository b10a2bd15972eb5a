//! Makes one sized call many times, or opens a region of many cells: `bench/sized.py` times both beside plain C.
#![tactic(auto)]

ghost use Rattle.std.specs.Prelude.{IfSome};
ghost use Rattle.seat_views.specs.Trials.{IsReady, IsReadyRoot};

use op_table::Reply;
use place_core::MOST_IN_SHAPE;
use seat_views::Root;
use sized_calls::{Cell, Region, SizedCall, SizedFault, SizedOp, read_name};
use std::alloc::Global;
use std::process::ExitCode;
use std::sync::Wait;
use target_desc::{builtin, target_ok};

/// What the words ask for.
#[derive(Clone, Copy)]
enum Task {
    /// A call, so many times.
    Call(SizedCall, u64),
    /// A region of so many cells.
    Open(u32),
}

/// A call with the operand 3. An exchange that compares changes 0 to 0, so that it never fails on the object.
fn call_with(op: SizedOp, size: u32) -> SizedCall {
    let compares = op == SizedOp::CompareExchange;
    SizedCall {
        op,
        size,
        address: u64::from(size),
        a: if compares { 0 } else { 3 },
        b: 0,
        order: 5,
        failure: 5,
    }
}

/// A region of one cell of each size, at the address of its size, each of which begins with 0; on the target whose words
/// have 64 bits, which cells share, and that has every step. None where memory is refused.
fn open(alloc: Global) -> Option<(Region, Root)>
    ensures { IfSome result (λ r. IsReadyRoot r.0.arena r.1) }
{
    let target = builtin(b"word64")?;
    if !target_ok(&target) || !target.packed {
        return None;
    }
    let cell = |size: u32| Cell {
        address: u64::from(size),
        size,
        start: 0,
    };
    let cells = [cell(1), cell(2), cell(4), cell(8), cell(16)];
    Region::open(alloc, &target, &cells).ok()
}

/// Makes the call so many times, and then a load.
fn turns<R: Wait>(
    rt: &R,
    region: &Region,
    root: &mut Root,
    call: SizedCall,
    times: u64,
) -> Option<Result<Reply, SizedFault>>
    requires { IsReadyRoot region.now.arena root.old }
{
    let mut pass = root.pass(region.arena()).ok()?;
    for _ in 0..times {
        let _ = region.call(rt, &mut pass, &call);
    }
    let load = SizedCall {
        op: SizedOp::Load,
        ..call
    };
    Some(region.call(rt, &mut pass, &load))
}

/// What the object has after so many of these calls; None where memory is refused.
fn value_after<R: Wait>(rt: &R, alloc: Global, call: SizedCall, times: u64) -> Option<u128> {
    let (region, mut root) = open(alloc)?;
    match turns(rt, &region, &mut root, call, times)? {
        Ok(Reply::Value(last)) => Some(last),
        _ => None,
    }
}

/// So many cells, one every 16 bytes, of each size in turn.
fn many_cells(alloc: Global, count: u32) -> Option<Vec<Cell>> {
    let mut cells = Vec::with_capacity(alloc, count as usize).ok()?;
    for number in 0..count {
        let cell = Cell {
            address: 16 * u64::from(number),
            size: 1 << (number % 5),
            start: 0,
        };
        cells.push(cell).ok()?;
    }
    Some(cells)
}

/// How many objects the arena of a region of so many cells has; None where there are too many, or memory is refused.
fn objects_of(alloc: Global, count: u32) -> Option<u128> {
    let target = builtin(b"word64")?;
    let cells = many_cells(alloc, count)?;
    if !target_ok(&target) || !target.packed || cells.len() > MOST_IN_SHAPE {
        return None;
    }
    let (region, _root) = Region::open(alloc, &target, &cells).ok()?;
    Some(region.arena().shape().objects.len() as u128)
}

/// `open COUNT`, or the name of a function and how often it is called.
fn task_in(rt: &HostRuntime) -> Option<Task> {
    let mut words = std::env::args(rt).ok()?;
    let name = words.nth(1)?;
    let number = words.next()?;
    if name.as_str() == "open" {
        return Some(Task::Open(number.parse::<u32>().ok()?));
    }
    let (op, size) = read_name(name.as_bytes())?;
    Some(Task::Call(call_with(op, size), number.parse::<u64>().ok()?))
}

fn main(rt: HostRuntime) -> ExitCode {
    let Some(task) = task_in(&rt) else {
        let _ = eprintln!(rt; "usage: sized_times NAME TIMES | open CELLS");
        return ExitCode::from(2);
    };
    let told = match task {
        Task::Call(call, times) => value_after(&rt, rt.alloc(), call, times),
        Task::Open(count) => objects_of(rt.alloc(), count),
    };
    let Some(number) = told else {
        return ExitCode::from(5);
    };
    let (high, low) = ((number >> 64) as u64, (number % (1 << 64)) as u64);
    match println!(rt; "{high} {low}") {
        Ok(()) => ExitCode::from(0),
        Err(_) => ExitCode::from(4),
    }
}
