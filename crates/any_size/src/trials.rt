//! Helpers of the tests.

ghost use Rattle.std.specs.Prelude.{◌≡◌, ◌<◌, IsTrue, IfSome, length};
ghost use Rattle.std.specs.Thread.{IsSync};
ghost use Rattle.any_size.specs.Operations.{OperandsFit};
ghost use Rattle.any_size.specs.Histories.{size_of};
ghost use Rattle.any_size.specs.Trials.{IsReady, IsReadyRoot};

use crate::calls::held_call;
use crate::hold::try_take;
use crate::{Block64, BlockCall, BlockPass, BlockReply, BlockRoot, Blocks};
use op_table::MOST_LOCKS;
use std::alloc::Global;
use std::sync::Wait;
use std::thread::{Threads, join};

/// Blocks of these starts; None where that isn't possible.
pub(crate) fn open(alloc: Global, starts: &[Block64], locks: u32) -> Option<(Blocks, BlockRoot)>
    ensures { IfSome result (λ r. IsReadyRoot r.0 r.1) }
{
    if locks < 1 || MOST_LOCKS < locks || 65536 < starts.len() {
        return None;
    }
    Blocks::open(alloc, starts, locks).ok()
}

/// A block of so many bytes, all the same.
pub(crate) fn all_of(byte: u8, len: usize) -> Option<Block64> {
    if 64 < len {
        return None;
    }
    Block64::of(&[byte; 64][..len])
}

/// The next pass of a root.
pub(crate) fn give(blocks: &Blocks, root: &mut BlockRoot) -> Option<BlockPass>
    requires { IsReadyRoot blocks.now root.old }
    ensures pass { IfSome result (λ p. IsReady blocks.now p) }
    ensures root { IsReadyRoot blocks.now root.new }
{
    root.pass(blocks).ok()
}

/// Gives so many passes, and takes each back. How many were given.
pub(crate) fn give_many(blocks: &Blocks, root: &mut BlockRoot, times: u32) -> u32
    requires { IsReadyRoot blocks.now root.old }
    ensures { IsReadyRoot blocks.now root.new }
{
    let mut given = 0;
    for i in 0..times {
        if let Some(pass) = give(blocks, root) {
            root.take_back(blocks, pass);
            given = i + 1;
        }
    }
    given
}

/// Whether the operands have so many bytes.
fn operands_fit(call: &BlockCall, size: usize) -> bool
    ensures { IsTrue result → OperandsFit size call.now }
{
    match call {
        BlockCall::Load => true,
        BlockCall::Store(a) | BlockCall::Exchange(a) => a.count() == size,
        BlockCall::CompareExchange(a, b) => a.count() == size && b.count() == size,
    }
}

/// Whether the object is there and has the call.
fn fits(blocks: &Blocks, object: u32, call: &BlockCall) -> bool
    ensures { IsTrue result → (object < length blocks.now.starts) × OperandsFit (size_of blocks.now.starts object) call.now }
{
    (object as usize) < blocks.objects() && operands_fit(call, blocks.size(object))
}

/// Makes a call; None where the object doesn't have it.
pub(crate) fn make<R: Wait>(
    rt: &R,
    blocks: &Blocks,
    pass: &mut BlockPass,
    object: u32,
    call: BlockCall,
) -> Option<BlockReply>
    requires { IsReady blocks.now pass.old }
    ensures { IsReady blocks.now pass.new }
{
    if fits(blocks, object, &call) {
        Some(blocks.call(rt, pass, object, &call))
    } else {
        None
    }
}

/// Makes a call with one take; None where the object doesn't have it, or the lock was held.
pub(crate) fn attempt(
    blocks: &Blocks,
    pass: &mut BlockPass,
    object: u32,
    call: BlockCall,
) -> Option<BlockReply>
    requires { IsReady blocks.now pass.old }
    ensures { IsReady blocks.now pass.new }
{
    if fits(blocks, object, &call) {
        blocks.try_call(pass, object, &call)
    } else {
        None
    }
}

/// A block of so many bytes, each one more than the one before.
pub(crate) fn counting(from: u8, len: usize) -> Option<Block64> {
    let mut bytes = [from; 64];
    for i in 0..64 {
        bytes[i] = from.wrapping_add(i as u8);
    }
    if 64 < len {
        return None;
    }
    Block64::of(&bytes[..len])
}

/// The kind of a reply, in a letter.
fn letter_of(reply: &BlockReply) -> u8 {
    match reply {
        BlockReply::Unit => b'u',
        BlockReply::Old(_) => b'o',
        BlockReply::Done(_) => b'd',
        BlockReply::Failed(_) => b'f',
    }
}

/// Whether a reply is of this kind, and has these bytes; a store's has none, whatever bytes are given.
pub(crate) fn told(reply: Option<BlockReply>, letter: u8, bytes: &[u8]) -> bool {
    let Some(reply) = reply else {
        return false;
    };
    if letter_of(&reply) != letter {
        return false;
    }
    match reply {
        BlockReply::Unit => true,
        BlockReply::Old(v) | BlockReply::Done(v) | BlockReply::Failed(v) => v.bytes() == bytes,
    }
}

/// Whether all bytes are one byte, which is at most `most`.
fn all_same(bytes: &[u8], most: u8) -> bool {
    let Some(first) = bytes.first() else {
        return false;
    };
    *first <= most && bytes.iter().all(|x| x == first)
}

/// A call on an object, with the kind of its reply and the bytes that it must tell; a store's reply has none.
#[derive(Clone, Copy)]
pub(crate) struct Row {
    pub object: u32,
    pub call: BlockCall,
    pub letter: u8,
    pub bytes: Block64,
}

/// Makes the calls of the rows, in order. Whether each told what it must.
pub(crate) fn all_right<R: Wait>(
    rt: &R,
    blocks: &Blocks,
    pass: &mut BlockPass,
    rows: &[Row],
) -> bool
    requires { IsReady blocks.now pass.old }
    ensures { IsReady blocks.now pass.new }
{
    let mut right = true;
    for i in 0..rows.len() {
        let row = rows[i];
        let reply = make(rt, blocks, pass, row.object, row.call);
        right = right && told(reply, row.letter, row.bytes.bytes());
    }
    right
}

/// A block of so many bytes, all 0 but the last, which is 1.
fn last_alone(len: usize) -> Option<Block64> {
    if len < 1 || 64 < len {
        return None;
    }
    let mut last = [0; 64];
    last[len - 1] = 1;
    Block64::of(&last[..len])
}

/// Every call on object 0 of so many bytes, with the bytes that each must tell worked out beside, and what it begins with.
fn rows_of(len: usize) -> Option<(Block64, [Row; 7])> {
    let start = counting(1, len)?;
    let same = all_of(9, len)?;
    let other = counting(100, len)?;
    let zero = all_of(0, len)?;
    let off = last_alone(len)?;
    let rows = [
        row_of(0, BlockCall::Load, b'o', start),
        row_of(0, BlockCall::Store(same), b'u', same),
        row_of(0, BlockCall::Exchange(other), b'o', same),
        row_of(0, BlockCall::CompareExchange(other, zero), b'd', other),
        row_of(0, BlockCall::CompareExchange(other, same), b'f', zero),
        row_of(0, BlockCall::CompareExchange(off, same), b'f', zero),
        row_of(0, BlockCall::Load, b'o', zero),
    ];
    Some((start, rows))
}

/// A row of a table of calls.
pub(crate) fn row_of(object: u32, call: BlockCall, letter: u8, bytes: Block64) -> Row {
    Row {
        object,
        call,
        letter,
        bytes,
    }
}

/// Opens objects of these blocks under one lock, and makes the calls of the rows. Whether each told what it must; None where
/// memory is refused.
pub(crate) fn rows_right<R: Wait>(
    rt: &R,
    alloc: Global,
    starts: &[Block64],
    rows: &[Row],
) -> Option<bool> {
    let (blocks, mut root) = open(alloc, starts, 1)?;
    let mut pass = give(&blocks, &mut root)?;
    Some(all_right(rt, &blocks, &mut pass, rows))
}

/// Every call on one object of so many bytes. Whether each told what it must; None where there is no such object.
pub(crate) fn right_calls<R: Wait>(rt: &R, alloc: Global, len: usize) -> Option<bool> {
    let (start, rows) = rows_of(len)?;
    rows_right(rt, alloc, &[start], &rows)
}

/// So many exchanges of one block. The pass, and which exchange had a reply of bytes that differ or above 4 last, from 1 on;
/// 0 for none.
fn exchange_many<R: Wait>(
    rt: &R,
    blocks: &Blocks,
    pass: BlockPass,
    object: u32,
    block: Block64,
    times: u32,
) -> (BlockPass, u32)
    requires { IsReady blocks.now pass }
    ensures { IsReady blocks.now result.0 }
{
    let mut pass = pass;
    let mut torn = 0;
    for i in 0..times {
        let old = make(rt, blocks, &mut pass, object, BlockCall::Exchange(block));
        if !is_whole(old) {
            torn = i + 1;
        }
    }
    (pass, torn)
}

/// Whether a reply of an exchange has equal bytes.
fn is_whole(reply: Option<BlockReply>) -> bool {
    let Some(reply) = reply else {
        return false;
    };
    match reply {
        BlockReply::Old(old) | BlockReply::Done(old) | BlockReply::Failed(old) => all_same(
            old.bytes(),
            4,
        ),
        BlockReply::Unit => false,
    }
}

/// Two threads exchange blocks on one object, a thousand times each.
pub(crate) fn exchange_at_once<R: Threads + Wait + Sync>(
    rt: &R,
    blocks: &Blocks,
    p: BlockPass,
    q: BlockPass,
    one: Block64,
    two: Block64,
    object: u32,
) -> ((BlockPass, u32), (BlockPass, u32))
    requires { IsReady blocks.now p × IsReady blocks.now q }
    ensures { IsReady blocks.now result.0.0 × IsReady blocks.now result.1.0 }
{
    join(
        rt,
        move || exchange_many(rt, blocks, p, object, one, 1000),
        move || exchange_many(rt, blocks, q, object, two, 1000),
    )
}

/// So many tries of an exchange, each with one take. The pass, and which try had a torn reply last, from 1 on; 0 for none.
fn attempt_many(
    blocks: &Blocks,
    pass: BlockPass,
    object: u32,
    block: Block64,
    times: u32,
) -> (BlockPass, u32)
    requires { IsReady blocks.now pass }
    ensures { IsReady blocks.now result.0 }
{
    let mut pass = pass;
    let mut torn = 0;
    for i in 0..times {
        let old = attempt(blocks, &mut pass, object, BlockCall::Exchange(block));
        if old.is_some() && !is_whole(old) {
            torn = i + 1;
        }
    }
    (pass, torn)
}

/// Two threads try exchanges on one object, a thousand times each.
pub(crate) fn attempt_at_once<R: Threads + Sync>(
    rt: &R,
    blocks: &Blocks,
    p: BlockPass,
    q: BlockPass,
    one: Block64,
    two: Block64,
) -> ((BlockPass, u32), (BlockPass, u32))
    requires { IsReady blocks.now p × IsReady blocks.now q }
    ensures { IsReady blocks.now result.0.0 × IsReady blocks.now result.1.0 }
{
    join(
        rt,
        move || attempt_many(blocks, p, 0, one, 1000),
        move || attempt_many(blocks, q, 0, two, 1000),
    )
}

/// One pass holds an object's lock while another tries a load, of object `other`. What that one was told, and then the first
/// pass's load; None where there is no such object, or its lock is held.
pub(crate) fn try_beside(
    blocks: &Blocks,
    p: &mut BlockPass,
    q: &mut BlockPass,
    object: u32,
    other: u32,
) -> Option<(Option<BlockReply>, BlockReply)>
    requires { IsReady blocks.now p.old × IsReady blocks.now q.old }
    ensures { IsReady blocks.now p.new × IsReady blocks.now q.new }
{
    if (object as usize) >= blocks.objects() {
        return None;
    }
    let spot = blocks.spot(object);
    if !try_take(blocks, p, object, spot) {
        return None;
    }
    let tried = attempt(blocks, q, other, BlockCall::Load);
    let made = held_call(blocks, p, object, spot, &BlockCall::Load);
    Some((tried, made))
}

/// A struct of three fields, which is kept in a block of 24 bytes.
#[derive(Clone, Copy, Debug, PartialEq, Eq)]
pub(crate) struct Position {
    pub x: u64,
    pub y: u64,
    pub z: u64,
}

impl Position {
    /// The block that keeps it: each field in eight bytes, the lowest first.
    pub(crate) fn to_block(self) -> Option<Block64> {
        let fields = [
            self.x.to_le_bytes(),
            self.y.to_le_bytes(),
            self.z.to_le_bytes(),
        ];
        Block64::of(fields.as_flattened())
    }

    /// The struct that a block keeps; None where it has no 24 bytes.
    pub(crate) fn of(block: &Block64) -> Option<Position> {
        let (fields, _) = block.bytes().as_chunks::<8>();
        if fields.len() != 3 {
            return None;
        }
        Some(Position {
            x: u64::from_le_bytes(fields[0]),
            y: u64::from_le_bytes(fields[1]),
            z: u64::from_le_bytes(fields[2]),
        })
    }
}

/// Puts a struct into an object, and answers the one that was there; None where the object has another size.
pub(crate) fn swap_position<R: Wait>(
    rt: &R,
    blocks: &Blocks,
    pass: &mut BlockPass,
    object: u32,
    new: Position,
) -> Option<Position>
    requires { IsReady blocks.now pass.old }
    ensures { IsReady blocks.now pass.new }
{
    let block = new.to_block()?;
    match make(rt, blocks, pass, object, BlockCall::Exchange(block))? {
        BlockReply::Old(old) => Position::of(&old),
        BlockReply::Unit | BlockReply::Done(_) | BlockReply::Failed(_) => None,
    }
}

/// Four threads exchange blocks on one object, a thousand times each. How many of them had a torn reply.
pub(crate) fn exchange_by_four<R: Threads + Wait + Sync>(
    rt: &R,
    blocks: &Blocks,
    p: BlockPass,
    q: BlockPass,
    r: BlockPass,
    s: BlockPass,
    one: Block64,
    two: Block64,
) -> u32
    requires first { IsReady blocks.now p × IsReady blocks.now q }
    requires second { IsReady blocks.now r × IsReady blocks.now s }
{
    let (first, second) = join(
        rt,
        move ||
            requires { IsSync R.row × IsReady blocks.now p × IsReady blocks.now q }
        { exchange_at_once(rt, blocks, p, q, one, two, 0) },
        move ||
            requires { IsSync R.row × IsReady blocks.now r × IsReady blocks.now s }
        { exchange_at_once(rt, blocks, r, s, two, one, 0) },
    );
    let ((_, a), (_, b)) = first;
    let ((_, c), (_, d)) = second;
    u32::from(a != 0) + u32::from(b != 0) + u32::from(c != 0) + u32::from(d != 0)
}
