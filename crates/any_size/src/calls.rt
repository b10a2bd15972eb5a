//! Whole calls on objects.

ghost use Rattle.std.specs.Prelude.{◌≡◌, ◌<◌, [], true, false, length, MatchOption, IfSome, IfNone};
ghost use Rattle.any_size.specs.declared.view.Hold.TheVariants as hold;
ghost use Rattle.any_size.specs.Operations.{block_after, block_answer, does_write, OperandsFit};
ghost use Rattle.any_size.specs.Histories.{size_of};
ghost use Rattle.any_size.specs.Keeping.{IsSpot};
ghost use Rattle.any_size.specs.States.{IsOf};
ghost use Rattle.any_size.specs.Calls.{MakesHeld, MakesCall, MakesSome, FindsHeld};

use crate::block::Block64;
use crate::blocks::Blocks;
use crate::call::{BlockCall, BlockReply};
use crate::hold::{held_value, put_value, take, try_take};
use crate::pass::BlockPass;
use crate::spot::Spot;
use crate::steps::release_as;
use std::marker::Brand;
use std::sync::Wait;

/// What a call that found a value puts; None where it writes nothing.
#[inline]
fn written<'a>(call: &'a BlockCall, found: &Block64) -> Option<&'a Block64>
    ensures { MatchOption result (does_write call.now found.now ≡ false) (λ new. (does_write call.now found.now ≡ true) × (new.now ≡ block_after call.now found.now)) }
{
    match call {
        BlockCall::Load => None,
        BlockCall::Store(new) | BlockCall::Exchange(new) => Some(new),
        BlockCall::CompareExchange(expected, new) => if found.same(expected) {
            Some(new)
        } else {
            None
        },
    }
}

/// The reply of a call that found a value, and wrote or didn't.
#[inline]
fn reply(call: &BlockCall, wrote: bool, found: Block64) -> BlockReply
    requires { wrote ≡ does_write call.now found }
    ensures { result ≡ block_answer call.now found }
{
    match call {
        BlockCall::Load | BlockCall::Exchange(_) => BlockReply::Old(found),
        BlockCall::Store(_) => BlockReply::Unit,
        BlockCall::CompareExchange(..) => if wrote {
            BlockReply::Done(found)
        } else {
            BlockReply::Failed(found)
        },
    }
}

/// Makes a call under a lock that is held, and gives it up.
#[inline]
pub(crate) fn held_call(
    blocks: &Blocks,
    pass: &mut BlockPass,
    object: u32,
    spot: Spot,
    call: &BlockCall,
) -> BlockReply
    requires blocks { IsOf blocks.now pass.old }
    requires spot { IsSpot blocks.now.starts blocks.now.locks object spot }
    requires operands { OperandsFit (size_of blocks.now.starts object) call.now }
    requires hold { pass.old.hold ≡ hold.Held object [] [] }
    ensures { MakesHeld blocks.now object call.now pass.old result pass.new }
{
    let found = held_value(blocks, pass, object, spot);
    match written(call, &found) {
        Some(new) => {
            put_value(blocks, pass, object, spot, new);
            release_as::<Brand>(blocks, pass, object, spot, call, &found);
            reply(call, true, found)
        }
        None => {
            release_as::<Brand>(blocks, pass, object, spot, call, &found);
            reply(call, false, found)
        }
    }
}

impl Blocks {
    /// Makes a call on an object under its lock, for which it may wait: every word is read, and every word is stored exactly
    /// where the call writes. After GCC's generic `__atomic_load`, `__atomic_store`, `__atomic_exchange` and
    /// `__atomic_compare_exchange`.
    pub fn call<R: Wait>(
        &self,
        rt: &R,
        pass: &mut BlockPass,
        object: u32,
        call: &BlockCall,
    ) -> BlockReply
        requires pass { IsOf self.now pass.old }
        requires rest { pass.old.hold ≡ hold.Idle }
        requires object { object < length self.now.starts }
        requires operands { OperandsFit (size_of self.now.starts object) call.now }
        ensures { MakesSome self.now object call.now pass.old result pass.new }
    {
        let spot = self.spot(object);
        take(rt, self, pass, object, spot);
        held_call(self, pass, object, spot, call)
    }

    /// Makes a call as `call` does, but takes the lock only once, and waits for nobody. None where that take found the lock
    /// held: then nothing is in flight, and no entry was made.
    pub fn try_call(
        &self,
        pass: &mut BlockPass,
        object: u32,
        call: &BlockCall,
    ) -> Option<BlockReply>
        requires pass { IsOf self.now pass.old }
        requires rest { pass.old.hold ≡ hold.Idle }
        requires object { object < length self.now.starts }
        requires operands { OperandsFit (size_of self.now.starts object) call.now }
        ensures made { IfSome result (λ r. MakesCall self.now object call.now 0 pass.old r pass.new) }
        ensures held { IfNone result (FindsHeld self.now object pass.old pass.new) }
    {
        let spot = self.spot(object);
        if !try_take(self, pass, object, spot) {
            return None;
        }
        Some(held_call(self, pass, object, spot, call))
    }
}
