//! The calls that are timed, each in a loop of its own.

ghost use Rattle.seat_views.specs.Trials.{IsReady};
ghost use Rattle.call_times.specs.Calls.{AreOn};

use crate::shared::Shared;
use atomic_types::Served;
use op_table::{Call, LoadOrder, Order, StoreOrder};
use seat_views::{Arena, Pass};
use std::sync::Wait;
use update_table::{FetchUpdate, Raise, fetch_update_by};

/// The call that is timed.
#[derive(Clone, Copy)]
pub(crate) enum Timed {
    /// `Served::call` of an addition to the u64.
    Served,
    /// The typed addition to the u64.
    Add,
    /// The typed nand of the u8.
    Nand,
    /// The typed load of the u128.
    Load,
    /// The typed store of the u128.
    Store,
    /// The typed addition to the u128.
    AddPair,
    /// The typed update of the u64 by a closure that adds 1.
    Update,
    /// The update of the u64 by a rule that adds 1.
    Raise,
}

/// Adds 1 to the u64, by a call that names its object by number.
fn served<R: Wait>(rt: &R, arena: &Arena, on: &Shared, pass: &mut Pass, times: u64)
    requires { AreOn arena.now.shape on.now × IsReady arena.now pass.old }
{
    let wide = Served {
        object: on.wide.object(),
    };
    for _ in 0..times {
        wide.call(rt, arena, pass, &Call::Add(1, false));
    }
}

/// Adds 1 to the u64, by one step of a word.
fn added<R: Wait>(rt: &R, arena: &Arena, on: &Shared, pass: &mut Pass, times: u64)
    requires { AreOn arena.now.shape on.now × IsReady arena.now pass.old }
{
    for _ in 0..times {
        on.wide.fetch_add(rt, arena, pass, 1, Order::SeqCst);
    }
}

/// Keeps four bits of the u8 and flips all, by a loop of masked exchanges.
fn nanded<R: Wait>(rt: &R, arena: &Arena, on: &Shared, pass: &mut Pass, times: u64)
    requires { AreOn arena.now.shape on.now × IsReady arena.now pass.old }
{
    for _ in 0..times {
        on.small.fetch_nand(rt, arena, pass, 170, Order::SeqCst);
    }
}

/// Loads the u128, by a glance at its parts.
fn loaded<R: Wait>(rt: &R, arena: &Arena, on: &Shared, pass: &mut Pass, times: u64)
    requires { AreOn arena.now.shape on.now × IsReady arena.now pass.old }
{
    for _ in 0..times {
        on.pair.load(rt, arena, pass, LoadOrder::SeqCst);
    }
}

/// Stores a u128, under its lock.
fn stored<R: Wait>(rt: &R, arena: &Arena, on: &Shared, pass: &mut Pass, times: u64)
    requires { AreOn arena.now.shape on.now × IsReady arena.now pass.old }
{
    for _ in 0..times {
        on.pair.store(rt, arena, pass, 1, StoreOrder::SeqCst);
    }
}

/// Adds 1 to the u128, under its lock.
fn added_pair<R: Wait>(rt: &R, arena: &Arena, on: &Shared, pass: &mut Pass, times: u64)
    requires { AreOn arena.now.shape on.now × IsReady arena.now pass.old }
{
    for _ in 0..times {
        on.pair.fetch_add(rt, arena, pass, 1, Order::SeqCst);
    }
}

/// Adds 1 to the u64, by a load and exchanges of what a closure answers.
fn updated<R: Wait>(rt: &R, arena: &Arena, on: &Shared, pass: &mut Pass, times: u64)
    requires { AreOn arena.now.shape on.now × IsReady arena.now pass.old }
{
    let (set, fetch) = (Order::SeqCst, LoadOrder::SeqCst);
    for _ in 0..times {
        let _ = on.wide.fetch_update(
            rt,
            arena,
            pass,
            set,
            fetch,
            |v: u64| Some(v.wrapping_add(1)),
        );
    }
}

/// Adds 1 to the u64, by a load and exchanges of what a rule leads to.
fn raised<R: Wait>(rt: &R, arena: &Arena, on: &Shared, pass: &mut Pass, times: u64)
    requires { AreOn arena.now.shape on.now × IsReady arena.now pass.old }
{
    let wide = Served {
        object: on.wide.object(),
    };
    let rule = Raise {
        lo: 0,
        hi: 18_446_744_073_709_551_615,
        by: 1,
    };
    for _ in 0..times {
        let _ = fetch_update_by(rt, arena, pass, wide, &rule);
    }
}

/// Makes a call so many times, and ends the pass.
pub(crate) fn turns<R: Wait>(
    rt: &R,
    arena: &Arena,
    on: &Shared,
    mut pass: Pass,
    call: Timed,
    times: u64,
)
    requires { AreOn arena.now.shape on.now × IsReady arena.now pass }
{
    let pass = &mut pass;
    match call {
        Timed::Served => served(rt, arena, on, pass, times),
        Timed::Add => added(rt, arena, on, pass, times),
        Timed::Nand => nanded(rt, arena, on, pass, times),
        Timed::Load => loaded(rt, arena, on, pass, times),
        Timed::Store => stored(rt, arena, on, pass, times),
        Timed::AddPair => added_pair(rt, arena, on, pass, times),
        Timed::Update => updated(rt, arena, on, pass, times),
        Timed::Raise => raised(rt, arena, on, pass, times),
    }
}

/// Loads the last values of the three objects.
pub(crate) fn last<R: Wait>(rt: &R, arena: &Arena, on: &Shared, pass: &mut Pass) -> (u64, u8, u128)
    requires { AreOn arena.now.shape on.now × IsReady arena.now pass.old }
{
    let wide = on.wide.load(rt, arena, pass, LoadOrder::SeqCst);
    let small = on.small.load(rt, arena, pass, LoadOrder::SeqCst);
    let pair = on.pair.load(rt, arena, pass, LoadOrder::SeqCst);
    (wide, small, pair)
}
