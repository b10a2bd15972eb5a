//! Helpers of the tests: arenas, passes for many threads, and what each thread does.

ghost use Rattle.std.specs.Prelude.{IfSome};
ghost use Rattle.std.specs.List.{All};
ghost use Rattle.std.specs.Thread.{IsSync};
ghost use Rattle.seat_views.specs.Trials.{IsReady, IsReadyRoot};
ghost use Rattle.wait_cell.specs.Takes.{HasCount};

use crate::{AtomicWait, Bell, Latch, Permits, Zero, look, wait, wait_while};
use atomic_types::{AtomicU32, Served};
use layout_plan::{are_declared, lay};
use op_table::{Call, Class, Kind, Reply, Width, call_fits};
use place_core::{Declared, MOST_IN_SHAPE, Name, Path};
use seat_views::{Arena, Pass, Root};
use std::alloc::Global;
use std::sync::Wait;
use std::thread::{Threads, join, map_vec, sleep};
use std::time::{Clock, Duration};
use target_desc::{builtin, target_ok};

/// An object of an unsigned kind.
pub(crate) fn object(width: Width, start: u128) -> Option<Declared> {
    let name = Name::of(b"o")?;
    let kind = Kind {
        width,
        signed: false,
        class: Class::Int,
    };
    Some(Declared { name, kind, start })
}

/// The arena of objects on a target with a name; None where they are none, or memory is refused.
pub(crate) fn open(alloc: Global, target: &[u8], objects: &[Declared]) -> Option<(Arena, Root)>
    ensures { IfSome result (λ r. IsReadyRoot r.0 r.1) }
{
    let target = builtin(target)?;
    if !target_ok(&target) || !are_declared(objects) || objects.len() > MOST_IN_SHAPE {
        return None;
    }
    let shape = lay(alloc, &target, objects).ok()?;
    Arena::open(alloc, shape, 0).ok()
}

/// A new pass.
pub(crate) fn give(arena: &Arena, root: &mut Root) -> Option<Pass>
    requires { IsReadyRoot arena.now root.old }
    ensures root { IsReadyRoot arena.now root.new }
    ensures pass { IfSome result (λ p. IsReady arena.now p) }
{
    root.pass(arena).ok()
}

/// So many new passes.
pub(crate) fn give_many(
    alloc: Global,
    arena: &Arena,
    root: &mut Root,
    count: u32,
) -> Option<Vec<Pass>>
    requires { IsReadyRoot arena.now root.old }
    ensures root { IfSome result (λ _. IsReadyRoot arena.now root.new) }
    ensures passes { IfSome result (λ ps. All (λ p. IsReady arena.now p) ps.items) }
{
    let mut passes = Vec::new(alloc);
    for _ in 0..count {
        let pass = give(arena, root)?;
        passes.push(pass).ok()?;
    }
    Some(passes)
}

/// Makes a call; None where there is no such object, or its kind hasn't the call.
pub(crate) fn make<R: Wait>(
    rt: &R,
    arena: &Arena,
    pass: &mut Pass,
    object: u32,
    call: Call,
) -> Option<Reply>
    requires { IsReady arena.now pass.old }
    ensures { IsReady arena.now pass.new }
{
    if object as usize >= arena.shape().objects.len() {
        return None;
    }
    if !call_fits(arena.shape().objects.at(object as usize).kind, &call) {
        return None;
    }
    Some(Served { object }.call(rt, arena, pass, &call))
}

/// Waits until an object has another number; None where there is no such object, or it can't have the number.
pub(crate) fn other<R: Wait>(
    rt: &R,
    arena: &Arena,
    pass: &mut Pass,
    object: u32,
    expected: u128,
    bell: &Bell,
) -> Option<u128>
    requires { IsReady arena.now pass.old }
    ensures { IsReady arena.now pass.new }
{
    if object as usize >= arena.shape().objects.len() {
        return None;
    }
    if !call_fits(
        arena.shape().objects.at(object as usize).kind,
        &Call::Store(expected),
    ) {
        return None;
    }
    Some(wait(rt, arena, pass, Served { object }, expected, bell))
}

/// Waits until an object's number is at least this; None where there is no such object.
pub(crate) fn at_least<R: Wait>(
    rt: &R,
    arena: &Arena,
    pass: &mut Pass,
    object: u32,
    least: u128,
    bell: &Bell,
) -> Option<u128>
    requires { IsReady arena.now pass.old }
    ensures { IsReady arena.now pass.new }
{
    if object as usize >= arena.shape().objects.len() {
        return None;
    }
    let served = Served { object };
    let below = |number: u128| number < least;
    Some(wait_while(rt, arena, pass, served, below, bell))
}

/// Looks so many turns at an object; None where there is no such object that one step loads, or it can't have the number.
pub(crate) fn look_at(
    arena: &Arena,
    pass: &mut Pass,
    object: u32,
    expected: u128,
    turns: u32,
) -> Option<Option<u128>>
    requires { IsReady arena.now pass.old }
    ensures { IsReady arena.now pass.new }
{
    if object as usize >= arena.shape().objects.len() || turns == 0 {
        return None;
    }
    if !call_fits(
        arena.shape().objects.at(object as usize).kind,
        &Call::Store(expected),
    ) {
        return None;
    }
    match arena.plan(object, &Call::Load) {
        Path::One(_) => Some(look(arena, pass, Served { object }, expected, turns)),
        _ => None,
    }
}

/// The same by the type.
pub(crate) fn look_typed(
    arena: &Arena,
    pass: &mut Pass,
    object: u32,
    expected: u32,
    turns: u32,
) -> Option<Option<u32>>
    requires { IsReady arena.now pass.old }
    ensures { IsReady arena.now pass.new }
{
    let number = AtomicU32::of(arena, object)?;
    if turns == 0 {
        return None;
    }
    match arena.plan(object, &Call::Load) {
        Path::One(_) => Some(number.look(arena, pass, expected, turns)),
        _ => None,
    }
}

/// Whether an object is neither permits nor a latch.
pub(crate) fn counts_nothing(arena: &Arena, object: u32) -> bool {
    Permits::of(arena, object).is_none() && Latch::of(arena, object).is_none()
}

/// Takes a permit of an object if one is left, gives one, and takes one again. None where it counts no permits.
pub(crate) fn take_give_take<R: Wait>(
    rt: &R,
    arena: &Arena,
    pass: &mut Pass,
    object: u32,
) -> Option<(Result<u32, Zero>, u32, Result<u32, Zero>)>
    requires { IsReady arena.now pass.old }
{
    let bell = Bell::new();
    let permits = Permits::of(arena, object)?;
    let first = permits.one_less(rt, arena, pass);
    let before = permits.give(rt, arena, pass, &bell);
    let last = permits.one_less(rt, arena, pass);
    Some((first, before, last))
}

/// Counts an object down twice, and waits until it is 0. None where it is no latch.
pub(crate) fn count_twice<R: Wait>(
    rt: &R,
    arena: &Arena,
    pass: &mut Pass,
    object: u32,
) -> Option<(Result<u32, Zero>, Result<u32, Zero>)>
    requires { IsReady arena.now pass.old }
{
    let bell = Bell::new();
    let latch = Latch::of(arena, object)?;
    let first = latch.count_down(rt, arena, pass, &bell);
    let second = latch.count_down(rt, arena, pass, &bell);
    latch.wait_zero(rt, arena, pass, &bell);
    Some((first, second))
}

/// Makes a call on object 0, and rings.
fn make_and_ring<R: Wait>(rt: &R, arena: &Arena, mut pass: Pass, call: Call, bell: &Bell)
    requires { IsReady arena.now pass }
{
    make(rt, arena, &mut pass, 0, call);
    bell.ring(rt);
}

/// Waits until object 0 isn't this number.
fn wait_for_other<R: Wait>(
    rt: &R,
    arena: &Arena,
    mut pass: Pass,
    expected: u128,
    bell: &Bell,
) -> Option<u128>
    requires { IsReady arena.now pass }
{
    other(rt, arena, &mut pass, 0, expected, bell)
}

/// One thread waits for another number than 0 on object 0, and another makes the call there.
pub(crate) fn meet<R: Threads + Wait + Sync>(
    rt: &R,
    arena: &Arena,
    p: Pass,
    q: Pass,
    call: Call,
) -> Option<u128>
    requires { IsReady arena.now p × IsReady arena.now q }
{
    let bell = Bell::new();
    let bell = &bell;
    let (found, _) = join(
        rt,
        move || wait_for_other(rt, arena, p, 0, bell),
        move || make_and_ring(rt, arena, q, call, bell),
    );
    found
}

/// Waits so many times until object 0 isn't the number that this thread left, adds 1 to it, and rings. It answers the
/// number that it left last; None where something isn't there.
fn hand_on<R: Wait>(
    rt: &R,
    arena: &Arena,
    mut pass: Pass,
    bell: &Bell,
    first: u128,
    most: u128,
    times: u32,
) -> Option<u128>
    requires { IsReady arena.now pass }
{
    let mut left = first;
    for _ in 0..times {
        let found = other(rt, arena, &mut pass, 0, left, bell)?;
        make(rt, arena, &mut pass, 0, Call::Add(1, true))?;
        bell.ring(rt);
        left = found.wrapping_add(1) & most;
    }
    Some(left)
}

/// Two threads hand object 0, which is 1, to and fro: one waits for another number than 0, the other than 1. `most` is the
/// greatest number of its kind.
pub(crate) fn to_and_fro<R: Threads + Wait + Sync>(
    rt: &R,
    arena: &Arena,
    p: Pass,
    q: Pass,
    most: u128,
    times: u32,
) -> (Option<u128>, Option<u128>)
    requires { IsReady arena.now p × IsReady arena.now q }
{
    let bell = Bell::new();
    let bell = &bell;
    join(
        rt,
        move || hand_on(rt, arena, p, bell, 0, most, times),
        move || hand_on(rt, arena, q, bell, 1, most, times),
    )
}

/// What one of many threads does.
#[derive(Clone, Copy)]
pub(crate) enum Part {
    /// Tells that it is there, and waits until object 0 isn't 0.
    Waits,
    /// Takes a permit of object 0 and gives it back, a hundred times.
    Lends,
    /// Counts object 0 down.
    Counts,
    /// Waits until object 0 is 0.
    Leaves,
}

/// The bells that threads share: of object 0, and of object 1, which counts those that are there.
#[derive(Drop)]
pub(crate) struct Bells {
    pub(crate) change: Bell,
    pub(crate) arrival: Bell,
}

impl Bells {
    pub(crate) fn new() -> Bells {
        Bells {
            change: Bell::new(),
            arrival: Bell::new(),
        }
    }
}

/// Tells that the thread is there, and waits until object 0 isn't 0. The answer is its number then.
fn arrive_and_wait<R: Wait>(rt: &R, arena: &Arena, pass: &mut Pass, bells: &Bells) -> Option<u32>
    requires { IsReady arena.now pass.old }
{
    let number = AtomicU32::of(arena, 0)?;
    make(rt, arena, pass, 1, Call::Add(1, true))?;
    bells.arrival.ring(rt);
    Some(number.wait(rt, arena, pass, 0, &bells.change))
}

/// Takes a permit and gives it back, so many times. The answer is the most that were left when it had one.
pub(crate) fn lend<R: Wait>(
    rt: &R,
    arena: &Arena,
    pass: &mut Pass,
    permits: Permits,
    bell: &Bell,
    times: u32,
) -> u32
    requires ready { IsReady arena.now pass.old }
    requires count { HasCount arena.now.shape permits }
    ensures { IsReady arena.now pass.new }
{
    let mut most = 0;
    for _ in 0..times {
        let left = permits.take(rt, arena, pass, bell);
        most = most.max(left);
        permits.give(rt, arena, pass, bell);
    }
    most
}

/// Does what one of many threads does. The answer is the number that a waiter found; the most permits that were left; 1 of
/// the thread that counted down to 0, and of one that left; 0 else. None where something isn't there.
fn play<R: Wait>(rt: &R, arena: &Arena, mut pass: Pass, bells: &Bells, part: Part) -> Option<u32>
    requires { IsReady arena.now pass }
{
    let pass = &mut pass;
    match part {
        Part::Waits => arrive_and_wait(rt, arena, pass, bells),
        Part::Lends => {
            let permits = Permits::of(arena, 0)?;
            Some(lend(rt, arena, pass, permits, &bells.change, 100))
        }
        Part::Counts => {
            let latch = Latch::of(arena, 0)?;
            let left = latch.count_down(rt, arena, pass, &bells.change);
            Some(if left == Ok(0) { 1 } else { 0 })
        }
        Part::Leaves => {
            let latch = Latch::of(arena, 0)?;
            latch.wait_zero(rt, arena, pass, &bells.change);
            Some(1)
        }
    }
}

/// Each pass on a thread of its own does the part. None where memory is refused.
pub(crate) fn crowd<R: Threads + Wait + Sync>(
    rt: &R,
    arena: &Arena,
    passes: Vec<Pass>,
    bells: &Bells,
    part: Part,
) -> Option<Vec<Option<u32>>>
    requires { All (λ p. IsReady arena.now p) passes.items }
{
    map_vec(rt, passes, &|pass| play(rt, arena, pass, bells, part)).ok()
}

/// Once so many threads are there and had time to sleep, rings a hundred times without a change, then stores 7 to object 0
/// and rings once.
fn release<R: Wait + Clock>(rt: &R, arena: &Arena, mut pass: Pass, bells: &Bells, count: u32)
    requires { IsReady arena.now pass }
{
    at_least(rt, arena, &mut pass, 1, count as u128, &bells.arrival);
    sleep(rt, Duration::from_millis(20));
    for _ in 0..100 {
        bells.change.ring(rt);
    }
    sleep(rt, Duration::from_millis(20));
    make_and_ring(rt, arena, pass, Call::Store(7), &bells.change);
}

/// Some threads wait at one bell, and another wakes them.
pub(crate) fn wake_all<R: Threads + Wait + Clock + Sync>(
    rt: &R,
    arena: &Arena,
    waiters: Vec<Pass>,
    q: Pass,
    count: u32,
) -> Option<Vec<Option<u32>>>
    requires { All (λ p. IsReady arena.now p) waiters.items × IsReady arena.now q }
{
    let bells = Bells::new();
    let bells = &bells;
    let (found, _) = join(
        rt,
        move ||
            requires { IsSync R.row × All (λ p. IsReady arena.now p) waiters.items }
        { crowd(rt, arena, waiters, bells, Part::Waits) },
        move || release(rt, arena, q, bells, count),
    );
    found
}

/// What each of the two groups of threads answered.
type Answers = (Option<Vec<Option<u32>>>, Option<Vec<Option<u32>>>);

/// Some threads count object 0 down, and others wait until it is 0.
pub(crate) fn count_out<R: Threads + Wait + Sync>(
    rt: &R,
    arena: &Arena,
    counters: Vec<Pass>,
    leavers: Vec<Pass>,
) -> Answers
    requires { All (λ p. IsReady arena.now p) counters.items × All (λ p. IsReady arena.now p) leavers.items }
{
    let bells = Bells::new();
    let bells = &bells;
    join(
        rt,
        move ||
            requires { IsSync R.row × All (λ p. IsReady arena.now p) counters.items }
        { crowd(rt, arena, counters, bells, Part::Counts) },
        move ||
            requires { IsSync R.row × All (λ p. IsReady arena.now p) leavers.items }
        { crowd(rt, arena, leavers, bells, Part::Leaves) },
    )
}

/// Takes a permit of object 0.
fn take_first<R: Wait>(rt: &R, arena: &Arena, mut pass: Pass, bell: &Bell) -> Option<u32>
    requires { IsReady arena.now pass }
{
    let permits = Permits::of(arena, 0)?;
    Some(permits.take(rt, arena, &mut pass, bell))
}

/// Gives a permit of object 0, after a while.
fn give_late<R: Wait + Clock>(rt: &R, arena: &Arena, mut pass: Pass, bell: &Bell) -> Option<u32>
    requires { IsReady arena.now pass }
{
    let permits = Permits::of(arena, 0)?;
    sleep(rt, Duration::from_millis(20));
    Some(permits.give(rt, arena, &mut pass, bell))
}

/// One thread takes a permit of object 0, which another gives after a while.
pub(crate) fn take_and_give<R: Threads + Wait + Clock + Sync>(
    rt: &R,
    arena: &Arena,
    p: Pass,
    q: Pass,
) -> (Option<u32>, Option<u32>)
    requires { IsReady arena.now p × IsReady arena.now q }
{
    let bell = Bell::new();
    let bell = &bell;
    join(
        rt,
        move || take_first(rt, arena, p, bell),
        move || give_late(rt, arena, q, bell),
    )
}
