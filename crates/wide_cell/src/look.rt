//! A load without the lock.

ghost use Rattle.std.specs.Prelude.{◌≡◌, IfOk, IfErr};
ghost use Rattle.seat_views.specs.declared.view.Flight.TheVariants.{Idle};
ghost use Rattle.seat_views.specs.Places.{HasParts};
ghost use Rattle.seat_views.specs.States.{IsOf};
ghost use Rattle.wide_cell.specs.Looks.{GlanceHits, GlanceMisses};

use seat_views::{Arena, Pass};
use seq_lock::{Missed, glance_begin, glance_end, glance_part, spread_of};

/// Reads the stamp of the lock, each part once from part 0 up, and the stamp again. Ok with the value where the stamp
/// stands, which makes a load. Held or Last where the first stamp is no stamp to glance at, and then nothing else was
/// read; Moved, with both numbers, where the second differs. After a miss nothing is in flight, and no entry was made.
#[inline(always)]
pub fn glance(arena: &Arena, pass: &mut Pass, object: u32) -> Result<u128, Missed>
    requires arena { IsOf arena.now pass.old }
    requires object { HasParts arena.now.shape object }
    requires rest { pass.old.flight ≡ Idle }
    ensures hit { IfOk result (λ v. GlanceHits arena.now.shape object pass.old v pass.new) }
    ensures missed { IfErr result (λ m. GlanceMisses arena.now.shape object pass.old m pass.new) }
{
    let parts = spread_of(arena, object).parts;
    let _stamp = match glance_begin(arena, pass, object) {
        Ok(stamp) => stamp,
        Err(missed) => return Err(missed),
    };
    for part in 0..parts {
        glance_part(arena, pass, object, part);
    }
    glance_end(arena, pass, object)
}
