//! A tour of the library: four threads share a flag, a counter, an id of 128 bits and a pointer with a tag.
#![tactic(auto)]

ghost use Rattle.seat_views.specs.Trials.{IsReady};
ghost use Rattle.tour.specs.Tour.{AreOn};

use crate::shared::{Shared, give, open};
use crate::visits::{begin, four};
use anyhow::Context;
use op_table::LoadOrder;
use ptr_handles::{Handle, Pool};
use seat_views::{Arena, Pass};
use std::alloc::Global;
use std::sync::Wait;
use std::thread::Threads;

mod shared;
mod visits;

/// The last values: of the counter and the id, and where the pointer is, with its tag.
#[derive(Clone, Copy)]
struct Last {
    hits: u16,
    id: u128,
    next: Handle,
}

/// What the four threads took, in no order that holds for every run, and what was left.
#[derive(Clone, Copy)]
struct Report {
    flags: [bool; 4],
    ids: [u128; 4],
    taken: [Handle; 4],
    last: Last,
}

/// Loads the last values.
fn load_last<R: Wait>(rt: &R, arena: &Arena, on: &Shared, host: &mut Pass) -> Last
    requires { AreOn arena.now.shape on.now × IsReady arena.now host.old }
{
    Last {
        hits: on.hits.load(rt, arena, host, LoadOrder::Relaxed),
        id: on.id.load(rt, arena, host, LoadOrder::Relaxed),
        next: on.next.load(rt, arena, host, LoadOrder::Acquire),
    }
}

/// Opens an arena and has it visited by four threads. None where memory is refused.
fn tour<R: Threads + Wait + Sync>(rt: &R, alloc: Global, first: Handle) -> Option<Report> {
    let (arena, mut root) = open(alloc, b"word32")?;
    let on = Shared::of(&arena)?;
    let mut host = give(&arena, &mut root)?;
    begin(rt, &arena, &on, &mut host, first);
    let ((a, b), (c, d)) = four(rt, &arena, &on, &mut root)?;
    // What the host does from here on comes after all that the four did.
    host.meet(&arena, a.note);
    host.meet(&arena, b.note);
    host.meet(&arena, c.note);
    host.meet(&arena, d.note);
    Some(Report {
        flags: [a.ready, b.ready, c.ready, d.ready],
        ids: [a.id, b.id, c.id, d.id],
        taken: [a.item, b.item, c.item, d.item],
        last: load_last(rt, &arena, &on, &mut host),
    })
}

/// The numbers, lowest first.
fn sorted(numbers: [u128; 4]) -> [u128; 4] {
    let mut numbers = numbers;
    numbers.sort_unstable();
    numbers
}

fn main(rt: HostRuntime) -> anyhow::Result<()> {
    let pool = Pool::of(vec![in rt.alloc(); 2, 3, 5, 7, 11]?);
    let first = pool.handle(0).context("the first item")?.with_tag(3);
    let Report {
        flags,
        ids,
        taken,
        last,
    } = tour(&rt, rt.alloc(), first).context("memory")?;
    let item = |handle| pool.get(handle).copied().unwrap_or(0);
    println!(rt; "saw the flag {flags:?}")?;
    println!(rt; "took the ids {:?}", sorted(ids))?;
    println!(rt; "took the items {:?}", sorted(taken.map(item)))?;
    println!(rt; "hits {}, id {}", last.hits, last.id)?;
    println!(rt; "next item {}, tag {}", item(last.next), last.next.tag())?;
    Ok(())
}
