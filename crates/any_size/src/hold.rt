//! The words of an object under its lock.

ghost use Rattle.std.specs.Prelude.{◌≡◌, [], length, MatchBool};
ghost use Rattle.any_size.specs.declared.view.Hold.TheVariants as hold;
ghost use Rattle.any_size.specs.Histories.{size_of};
ghost use Rattle.any_size.specs.Layout.{count_of};
ghost use Rattle.any_size.specs.Steps.{HoldsRead};
ghost use Rattle.any_size.specs.Keeping.{IsSpot};
ghost use Rattle.any_size.specs.States.{IsOf};
ghost use Rattle.any_size.specs.Calls.{Took, TookLast, FindsHeld, ReadsAll, PutsAll};

use crate::block::Block64;
use crate::blocks::Blocks;
use crate::pass::BlockPass;
use crate::spot::Spot;
use crate::steps::{held, put, take_as};
use crossbeam_utils::Backoff;
use std::marker::Brand;
use std::sync::Wait;

/// Takes the lock of an object once. True where the pass holds it now; else it was held, and nothing is in flight.
#[inline(always)]
pub(crate) fn try_take(blocks: &Blocks, pass: &mut BlockPass, object: u32, spot: Spot) -> bool
    requires blocks { IsOf blocks.now pass.old }
    requires spot { IsSpot blocks.now.starts blocks.now.locks object spot }
    requires rest { pass.old.hold ≡ hold.Idle }
    ensures took { MatchBool result (Took blocks.now object 0 pass.old pass.new) (FindsHeld blocks.now object pass.old pass.new) }
{
    take_as::<Brand>(blocks, pass, object, spot)
}

/// Takes the lock of an object, as often as it finds it held.
#[inline]
pub(crate) fn take<R: Wait>(rt: &R, blocks: &Blocks, pass: &mut BlockPass, object: u32, spot: Spot)
    requires blocks { IsOf blocks.now pass.old }
    requires spot { IsSpot blocks.now.starts blocks.now.locks object spot }
    requires rest { pass.old.hold ≡ hold.Idle }
    ensures { TookLast blocks.now object pass.old pass.new }
{
    let pause = Backoff::new();
    for _ in rt.forever() {
        if try_take(blocks, pass, object, spot) {
            return;
        }
        pause.snooze();
    }
    unreachable!()
}

/// Reads every word of the object whose lock is held, and answers the value. Nothing was read or written yet.
#[inline]
pub(crate) fn held_value(blocks: &Blocks, pass: &mut BlockPass, object: u32, spot: Spot) -> Block64
    requires blocks { IsOf blocks.now pass.old }
    requires spot { IsSpot blocks.now.starts blocks.now.locks object spot }
    requires hold { pass.old.hold ≡ hold.Held object [] [] }
    ensures { ReadsAll blocks.now object pass.old result pass.new }
{
    let mut words = [0; 8];
    for i in 0..spot.count {
        words[i as usize] = held(blocks, pass, object, spot, i);
    }
    Block64::spelled(&words, spot.size as usize)
}

/// Stores every word of a block into the object whose lock is held. Every word was read, and none written yet.
#[inline]
pub(crate) fn put_value(
    blocks: &Blocks,
    pass: &mut BlockPass,
    object: u32,
    spot: Spot,
    new: &Block64,
)
    requires blocks { IsOf blocks.now pass.old }
    requires spot { IsSpot blocks.now.starts blocks.now.locks object spot }
    requires hold { HoldsRead object (count_of blocks.now.starts object) 0 pass.old.hold }
    requires size { length new.now ≡ size_of blocks.now.starts object }
    ensures { PutsAll blocks.now object pass.old new.now pass.new }
{
    let words = new.words();
    for i in 0..spot.count {
        put(blocks, pass, object, spot, i, words[i as usize]);
    }
}
