//! Helpers of the tests: four threads that update the same objects.

ghost use Rattle.std.specs.Prelude.{IfSome};
ghost use Rattle.std.specs.Thread.{IsSync};
ghost use Rattle.seat_views.specs.Trials.{IsReady, IsReadyRoot};

use crate::trials::{Way, give, go, named};
use crate::{FetchUpdate, Stop};
use atomic_types::AtomicU8;
use op_table::{LoadOrder, Order};
use place_core::Declared;
use scalar_laws::Scalar;
use seat_views::{Arena, Pass, Root};
use std::sync::Wait;
use std::thread::{Threads, join};

/// An object for each rule, a count that stays at its highest, and one of those who hold something, up to three.
pub(crate) fn five_objects() -> Option<[Declared; 5]> {
    Some([
        named(b"up", u16::KIND, 0)?,
        named(b"down", u32::KIND, 2_000)?,
        named(b"round", u128::KIND, 0)?,
        named(b"full", u8::KIND, 0)?,
        named(b"held", u8::KIND, 0)?,
    ])
}

/// What a thread saw: whether each update ended as it may, and how many the count that stays at its highest counted.
#[derive(Clone, Copy, Debug, PartialEq, Eq)]
pub(crate) struct Saw {
    pub(crate) right: bool,
    pub(crate) counted: u32,
}

/// An update by each rule. Whether each stored a number.
fn move_each<R: Wait>(rt: &R, arena: &Arena, pass: &mut Pass) -> bool
    requires { IsReady arena.now pass.old }
    ensures { IsReady arena.now pass.new }
{
    let up = go(rt, arena, pass, 0, Way::Up(1), (0, 2_000));
    let down = go(rt, arena, pass, 1, Way::Down(1), (0, 2_000));
    let round = go(rt, arena, pass, 2, Way::Round, (0, 2));
    matches!(&up, Some(Ok(_))) && matches!(&down, Some(Ok(_))) && matches!(&round, Some(Ok(0..=2)))
}

/// Counts once, to 255 at most. None where the count was told wrong, else whether it was raised.
fn count<R: Wait>(rt: &R, arena: &Arena, pass: &mut Pass) -> Option<bool>
    requires { IsReady arena.now pass.old }
    ensures { IsReady arena.now pass.new }
{
    let full = AtomicU8::of(arena, 3)?;
    let (set, fetch) = (Order::Relaxed, LoadOrder::Relaxed);
    match full.fetch_update(rt, arena, pass, set, fetch, |v: u8| v.checked_add(1)) {
        Ok(v) if v < 255 => Some(true),
        Err(255) => Some(false),
        _ => None,
    }
}

/// Holds, where fewer than three do, and lets go. Whether no number out of its bounds was told.
fn hold<R: Wait>(rt: &R, arena: &Arena, pass: &mut Pass) -> bool
    requires { IsReady arena.now pass.old }
    ensures { IsReady arena.now pass.new }
{
    match go(rt, arena, pass, 4, Way::Up(1), (0, 3)) {
        Some(Ok(0..=2)) => {
            let freed = go(rt, arena, pass, 4, Way::Down(1), (0, 3));
            matches!(&freed, Some(Ok(1..=3)))
        }
        Some(Err(Stop::Refused(3))) => true,
        _ => false,
    }
}

/// One round of a thread.
fn once<R: Wait>(rt: &R, arena: &Arena, pass: &mut Pass, saw: Saw) -> Saw
    requires { IsReady arena.now pass.old }
    ensures { IsReady arena.now pass.new }
{
    let moved = move_each(rt, arena, pass);
    let counted = count(rt, arena, pass);
    let held = hold(rt, arena, pass);
    Saw {
        right: saw.right && moved && held && counted.is_some(),
        counted: saw.counted.saturating_add(u32::from(counted == Some(true))),
    }
}

/// Five hundred rounds of a thread.
fn many<R: Wait>(rt: &R, arena: &Arena, pass: Pass) -> Saw
    requires { IsReady arena.now pass }
{
    let mut pass = pass;
    let mut saw = Saw {
        right: true,
        counted: 0,
    };
    for _ in 0..500 {
        saw = once(rt, arena, &mut pass, saw);
    }
    saw
}

/// What two threads saw.
fn both(one: Saw, two: Saw) -> Saw {
    Saw {
        right: one.right && two.right,
        counted: one.counted.saturating_add(two.counted),
    }
}

/// Two threads.
fn pair<R: Threads + Wait + Sync>(rt: &R, arena: &Arena, p: Pass, q: Pass) -> Saw
    requires { IsReady arena.now p × IsReady arena.now q }
{
    let (one, two) = join(rt, move || many(rt, arena, p), move || many(rt, arena, q));
    both(one, two)
}

/// Four threads. None where every number was given.
pub(crate) fn four<R: Threads + Wait + Sync>(rt: &R, arena: &Arena, root: &mut Root) -> Option<Saw>
    requires { IsReadyRoot arena.now root.old }
    ensures { IfSome result (λ _. IsReadyRoot arena.now root.new) }
{
    let (p, q) = (give(arena, root)?, give(arena, root)?);
    let (r, s) = (give(arena, root)?, give(arena, root)?);
    let (one, two) = join(
        rt,
        move ||
            requires { IsSync R.row × IsReady arena.now p × IsReady arena.now q }
        { pair(rt, arena, p, q) },
        move ||
            requires { IsSync R.row × IsReady arena.now r × IsReady arena.now s }
        { pair(rt, arena, r, s) },
    );
    Some(both(one, two))
}
