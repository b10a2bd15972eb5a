//! What each thread does, in a loop of its own.

ghost use Rattle.std.specs.Prelude.{◌≡◌, false, IfSome};
ghost use Rattle.op_table.specs.declared.kind.Width.TheVariants.{W32};
ghost use Rattle.op_table.specs.declared.call.Call.TheVariants.{Load};
ghost use Rattle.scalar_laws.specs.Kinds.{integer};
ghost use Rattle.seat_views.specs.Trials.{IsReady};
ghost use Rattle.atomic_types.specs.Atomics.{HasAtomic};
ghost use Rattle.atomic_types.specs.Serving.{IsOne};
ghost use Rattle.wait_cell.specs.Takes.{HasCount};

use atomic_types::{AtomicU32, Served};
use op_table::StoreOrder;
use seat_views::{Arena, Pass};
use std::sync::Wait;
use std::thread::sleep;
use std::time::{Clock, Duration};
use wait_cell::{AtomicWait, Bell, Permits, look};

/// Waits so many times until the number isn't the one that this thread left, stores the next, and rings.
pub(crate) fn hand_on<R: Wait>(
    rt: &R,
    arena: &Arena,
    mut pass: Pass,
    on: AtomicU32,
    bell: &Bell,
    first: u32,
    times: u64,
)
    requires ready { IsReady arena.now pass }
    requires on { HasAtomic arena.now.shape (integer W32 false) on }
{
    let mut left = first;
    for _ in 0..times {
        let found = on.wait(rt, arena, &mut pass, left, bell);
        left = found.wrapping_add(1);
        on.store(rt, arena, &mut pass, left, StoreOrder::SeqCst);
        bell.ring(rt);
    }
}

/// Takes a permit and gives it back, so many times.
pub(crate) fn lend<R: Wait>(
    rt: &R,
    arena: &Arena,
    mut pass: Pass,
    permits: Permits,
    bell: &Bell,
    times: u64,
)
    requires ready { IsReady arena.now pass }
    requires count { HasCount arena.now.shape permits }
{
    for _ in 0..times {
        permits.take(rt, arena, &mut pass, bell);
        permits.give(rt, arena, &mut pass, bell);
    }
}

/// Looks so many times for one turn, and counts the looks that found another number than 0.
pub(crate) fn looks(arena: &Arena, mut pass: Pass, on: AtomicU32, times: u64) -> u64
    requires ready { IsReady arena.now pass }
    requires on { HasAtomic arena.now.shape (integer W32 false) on }
    requires one { IsOne arena.now.shape on Load }
{
    let served = Served {
        object: on.object(),
    };
    let mut found = 0u64;
    for _ in 0..times {
        if look(arena, &mut pass, served, 0, 1).is_some() {
            found = found.wrapping_add(1);
        }
    }
    found
}

/// Waits until the number isn't 0.
pub(crate) fn sleep_on<R: Wait>(rt: &R, arena: &Arena, mut pass: Pass, on: AtomicU32, bell: &Bell)
    requires ready { IsReady arena.now pass }
    requires on { HasAtomic arena.now.shape (integer W32 false) on }
{
    on.wait(rt, arena, &mut pass, 0, bell);
}

/// After so many milliseconds stores 1, and rings.
pub(crate) fn wake_later<R: Wait + Clock>(
    rt: &R,
    arena: &Arena,
    mut pass: Pass,
    on: AtomicU32,
    bell: &Bell,
    times: u64,
)
    requires ready { IsReady arena.now pass }
    requires on { HasAtomic arena.now.shape (integer W32 false) on }
{
    sleep(rt, Duration::from_millis(times));
    on.store(rt, arena, &mut pass, 1, StoreOrder::SeqCst);
    bell.ring(rt);
}
