//! The steps on a lock and on the words of an object under it.

ghost use Rattle.std.specs.Prelude.{◌≡◌, ◌<◌, ◌+◌, [], ◌∷◌, length, MatchBool};
ghost use Rattle.any_size.specs.declared.view.BlockStep.TheVariants as kind;
ghost use Rattle.any_size.specs.declared.view.Hold.TheVariants as hold;
ghost use Rattle.any_size.specs.Operations.{block_answer, OperandsFit};
ghost use Rattle.any_size.specs.Histories.{size_of};
ghost use Rattle.any_size.specs.Layout.{lock_of, lock_word, first_word, count_of};
ghost use Rattle.any_size.specs.Steps.{item, entry, read_more, put_more, asked_object, asked_value, TellsValue, HoldsClean, HoldsRead, MayRelease};
ghost use Rattle.any_size.specs.Keeping.{IsSpot};
ghost use Rattle.any_size.specs.States.{IsOf, IsKept, Moved, Appends};

use crate::block::Block64;
use crate::blocks::Blocks;
use crate::call::BlockCall;
use crate::pass::BlockPass;
use crate::rule::{Asking, Held, Put, Release, Take};
use crate::spot::Spot;

/// Swaps 1 into the lock of an object. True where it found 0: the pass then holds the lock, and else nothing is in flight.
#[inline(always)]
pub(crate) fn take_as<J: Asking>(
    blocks: &Blocks,
    pass: &mut BlockPass,
    object: u32,
    spot: Spot,
) -> bool
    requires asked { J.ask ≡ asked_object object }
    requires blocks { IsOf blocks.now pass.old }
    requires spot { IsSpot blocks.now.starts blocks.now.locks object spot }
    requires rest { pass.old.hold ≡ hold.Idle }
    ensures took { MatchBool result
        (Moved pass.old (item (lock_word (lock_of blocks.now.locks object)) kind.Take 0) (hold.Held object [] []) pass.new)
        (Moved pass.old (item (lock_word (lock_of blocks.now.locks object)) kind.Take 1) hold.Idle pass.new) }
    ensures kept { IsKept pass.new }
{
    blocks
        .table
        .shared
        .swap::<Take<J>>(&mut pass.seat, spot.lock as usize, 1)
        == 0
}

/// Loads the next word of the object whose lock is held. Nothing was written yet.
#[inline(always)]
pub(crate) fn held(
    blocks: &Blocks,
    pass: &mut BlockPass,
    object: u32,
    spot: Spot,
    index: u32,
) -> u64
    requires blocks { IsOf blocks.now pass.old }
    requires spot { IsSpot blocks.now.starts blocks.now.locks object spot }
    requires index { index < count_of blocks.now.starts object }
    requires hold { HoldsClean object index pass.old.hold }
    ensures read { Moved pass.old (item (first_word blocks.now.starts blocks.now.locks object + index) kind.Held result) (read_more pass.old.hold (result ∷ [])) pass.new }
    ensures value { TellsValue blocks.now.starts (read_more pass.old.hold (result ∷ [])) }
{
    blocks
        .table
        .shared
        .load::<Held>(&mut pass.seat, spot.first as usize + index as usize)
}

/// Stores the next word of the object whose lock is held. Every word was read before.
#[inline(always)]
pub(crate) fn put(
    blocks: &Blocks,
    pass: &mut BlockPass,
    object: u32,
    spot: Spot,
    index: u32,
    word: u64,
)
    requires blocks { IsOf blocks.now pass.old }
    requires spot { IsSpot blocks.now.starts blocks.now.locks object spot }
    requires index { index < count_of blocks.now.starts object }
    requires hold { HoldsRead object (count_of blocks.now.starts object) index pass.old.hold }
    ensures { Moved pass.old (item (first_word blocks.now.starts blocks.now.locks object + index) kind.Put word) (put_more pass.old.hold (word ∷ [])) pass.new }
{
    blocks
        .table
        .shared
        .store::<Put>(&mut pass.seat, spot.first as usize + index as usize, word);
}

/// Stores 0 into the lock that is held, which makes the call: the words now spell what it leaves of the value that was read.
#[inline(always)]
pub(crate) fn release_as<J: Asking>(
    blocks: &Blocks,
    pass: &mut BlockPass,
    object: u32,
    spot: Spot,
    call: &BlockCall,
    value: &Block64,
)
    requires asked { J.ask ≡ asked_value object call.now value.now }
    requires blocks { IsOf blocks.now pass.old }
    requires spot { IsSpot blocks.now.starts blocks.now.locks object spot }
    requires operands { OperandsFit (size_of blocks.now.starts object) call.now }
    requires hold { MayRelease object (count_of blocks.now.starts object) (size_of blocks.now.starts object) call.now value.now pass.old.hold }
    ensures { Appends pass.old (entry pass.old.number object call.now (block_answer call.now value.now)) (item (lock_word (lock_of blocks.now.locks object)) kind.Release 0) value.now pass.new }
{
    blocks
        .table
        .shared
        .store::<Release<J>>(&mut pass.seat, spot.lock as usize, 0);
}
