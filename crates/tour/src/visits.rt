//! What the threads do on the arena.

ghost use Rattle.std.specs.Prelude.{IfSome};
ghost use Rattle.std.specs.Thread.{IsSync};
ghost use Rattle.seat_views.specs.States.{IsNoteOf};
ghost use Rattle.seat_views.specs.Trials.{IsReady, IsReadyRoot};
ghost use Rattle.tour.specs.Tour.{AreOn, HaveNotes};

use crate::shared::{Shared, give};
use op_table::{LoadOrder, Order, StoreOrder};
use ptr_handles::Handle;
use seat_views::{Arena, Note, Pass, Root};
use std::sync::Wait;
use std::thread::{Threads, join};

/// What a thread saw: the flag, the id and the item that it took, and a note of all calls up to its own last one.
#[derive(Drop)]
pub(crate) struct Seen {
    pub(crate) ready: bool,
    pub(crate) id: u128,
    pub(crate) item: Handle,
    pub(crate) note: Note,
}

/// Points to the first item, and then raises the flag.
pub(crate) fn begin<R: Wait>(rt: &R, arena: &Arena, on: &Shared, host: &mut Pass, first: Handle)
    requires { AreOn arena.now.shape on.now × IsReady arena.now host.old }
    ensures { IsReady arena.now host.new }
{
    on.next.store(rt, arena, host, first, StoreOrder::Relaxed);
    on.ready.store(rt, arena, host, true, StoreOrder::Release);
}

/// Adds 1 to the counter by weak exchanges. One may fail though it found the expected value, since the flag is in the same
/// word of 32 bits and other threads count too; so it goes on from the value found.
fn add_by_exchange<R: Wait>(rt: &R, arena: &Arena, on: &Shared, pass: &mut Pass)
    requires { AreOn arena.now.shape on.now × IsReady arena.now pass.old }
    ensures { IsReady arena.now pass.new }
{
    let (done, failed) = (Order::AcqRel, LoadOrder::Relaxed);
    let mut seen = on.hits.load(rt, arena, pass, LoadOrder::Relaxed);
    for _ in rt.forever() {
        let new = seen.wrapping_add(1);
        match on
            .hits
            .compare_exchange_weak(rt, arena, pass, seen, new, done, failed)
        {
            Ok(_) => return,
            Err(found) => seen = found,
        }
    }
}

/// Adds 1 to the counter, a thousand times: half of them by additions, half by weak exchanges.
fn count<R: Wait>(rt: &R, arena: &Arena, on: &Shared, pass: &mut Pass)
    requires { AreOn arena.now.shape on.now × IsReady arena.now pass.old }
    ensures { IsReady arena.now pass.new }
{
    for _ in 0..500 {
        on.hits.add(rt, arena, pass, 1, Order::Relaxed);
        add_by_exchange(rt, arena, on, pass);
    }
}

/// What one thread does. Its pass ends with it, and its note is left.
fn visit<R: Wait>(rt: &R, arena: &Arena, on: &Shared, mut pass: Pass) -> Seen
    requires { AreOn arena.now.shape on.now × IsReady arena.now pass }
    ensures { IsNoteOf arena.now result.note }
{
    let pass = &mut pass;
    let ready = on.ready.load(rt, arena, pass, LoadOrder::Acquire);
    count(rt, arena, on, pass);
    let id = on.id.fetch_add(rt, arena, pass, 1, Order::Relaxed);
    let item = on.next.fetch_ptr_add(rt, arena, pass, 1, Order::AcqRel);
    let note = pass.note(arena);
    Seen {
        ready,
        id,
        item,
        note,
    }
}

/// Two visits, each on a thread of its own.
fn pair<R>(rt: &R, arena: &Arena, on: &Shared, p: Pass, q: Pass) -> (Seen, Seen)
where
    R: Threads + Wait + Sync,
    requires { AreOn arena.now.shape on.now × IsReady arena.now p × IsReady arena.now q }
    ensures { HaveNotes arena.now result }
{
    join(
        rt,
        move || visit(rt, arena, on, p),
        move || visit(rt, arena, on, q),
    )
}

/// Four visits, each on a thread of its own.
pub(crate) fn four<R>(
    rt: &R,
    arena: &Arena,
    on: &Shared,
    root: &mut Root,
) -> Option<((Seen, Seen), (Seen, Seen))>
where
    R: Threads + Wait + Sync,
    requires { AreOn arena.now.shape on.now × IsReadyRoot arena.now root.old }
    ensures { IfSome result (λ r. HaveNotes arena.now r.0 × HaveNotes arena.now r.1) }
{
    let (p, q) = (give(arena, root)?, give(arena, root)?);
    let (r, s) = (give(arena, root)?, give(arena, root)?);
    Some(join(
        rt,
        move ||
            requires { IsSync R.row × AreOn arena.now.shape on.now × IsReady arena.now p × IsReady arena.now q }
        { pair(rt, arena, on, p, q) },
        move ||
            requires { IsSync R.row × AreOn arena.now.shape on.now × IsReady arena.now r × IsReady arena.now s }
        { pair(rt, arena, on, r, s) },
    ))
}
