//! The table of operations: the value after a call and its reply, as arithmetic modulo 2 to the width.
//! Load, store, exchange, add, sub, or, xor and and are those of C11 7.17.7, those that answer the new value are GCC's
//! (`__atomic_add_fetch` and its like), the others portable-atomic's.

ghost use Rattle.std.specs.Prelude.{◌≡◌, ◌↔◌, ◌+◌, ◌-◌, ◌/◌, ◌%◌, ◌<◌, ◌==◌, IsTrue};
ghost use Rattle.op_table.specs.Kind.{values_of, IsKind};
ghost use Rattle.op_table.specs.Call.{after_of, answer_of, CallFits, ReplyFits, rank_of, bit_place};

use crate::call::{Call, Reply};
use crate::kind::{Class, Kind, Width, bits};

/// The greatest value of a kind.
pub(crate) fn mask(kind: Kind) -> u128
    ensures { result + 1 ≡ values_of kind }
{
    match kind.width {
        Width::W1 => 1,
        Width::W8 => u8::MAX as u128,
        Width::W16 => u16::MAX as u128,
        Width::W32 => u32::MAX as u128,
        Width::W64 => u64::MAX as u128,
        Width::W128 => u128::MAX,
    }
}

/// A value's place in the kind's order: a signed kind has its upper half first.
fn rank(kind: Kind, v: u128) -> u128
    requires { v < values_of kind }
    ensures { result ≡ rank_of kind v }
{
    let half = mask(kind) / 2 + 1;
    if !kind.signed {
        v
    } else if v < half {
        v + half
    } else {
        v - half
    }
}

/// The sum, modulo the number of values.
fn plus(kind: Kind, v: u128, a: u128) -> u128
    requires value { v < values_of kind }
    requires operand { a < values_of kind }
    ensures { result ≡ (v + a) % values_of kind }
{
    let room = mask(kind) - a;
    if v <= room { v + a } else { v - room - 1 }
}

/// The difference, modulo the number of values.
fn minus(kind: Kind, v: u128, a: u128) -> u128
    requires value { v < values_of kind }
    requires operand { a < values_of kind }
    ensures { result ≡ (v + (values_of kind - a)) % values_of kind }
{
    if a <= v {
        v - a
    } else {
        v + (mask(kind) - a) + 1
    }
}

/// The negative, modulo the number of values.
fn negative(kind: Kind, v: u128) -> u128
    requires { v < values_of kind }
    ensures { result ≡ (values_of kind - v) % values_of kind }
{
    if v == 0 { 0 } else { mask(kind) - v + 1 }
}

/// The bit at a position.
fn bit(kind: Kind, position: u32) -> u128
    ensures value { result ≡ bit_place kind position }
    ensures fits { result < values_of kind }
{
    1 << (position % bits(kind.width))
}

fn is_set(kind: Kind, position: u32, v: u128) -> bool
    ensures { result ≡ (v / bit_place kind position % 2 == 1) }
{
    (v >> (position % bits(kind.width))) % 2 == 1
}

/// The value after a call on an object that holds `v`; a weak exchange is made as a strong one.
/// It wraps, for signed kinds too (C11 7.17.7.5).
pub fn after(kind: Kind, call: &Call, v: u128) -> u128
    requires kind { IsKind kind }
    requires call { CallFits kind call.now }
    requires value { v < values_of kind }
    ensures value { result ≡ after_of kind call.now v }
    ensures fits { result < values_of kind }
{
    let most = mask(kind);
    match call {
        Call::Load => v,
        Call::Store(a) => *a,
        Call::Swap(a) => *a,
        Call::Cas(e, n) => if v == *e { *n } else { v },
        Call::CasWeak(e, n) => if v == *e { *n } else { v },
        Call::Add(a, _) | Call::AddFetch(a) => plus(kind, v, *a),
        Call::Sub(a, _) | Call::SubFetch(a) => minus(kind, v, *a),
        Call::And(a, _) | Call::AndFetch(a) => v & *a,
        Call::Nand(a) | Call::NandFetch(a) => most - (v & *a),
        Call::Or(a, _) | Call::OrFetch(a) => v | *a,
        Call::Xor(a, _) | Call::XorFetch(a) => v ^ *a,
        Call::Max(a) => if rank(kind, v) < rank(kind, *a) {
            *a
        } else {
            v
        },
        Call::Min(a) => if rank(kind, *a) < rank(kind, v) {
            *a
        } else {
            v
        },
        Call::Not(_) => most - v,
        Call::Neg(_) => negative(kind, v),
        Call::BitSet(p) => v | bit(kind, *p),
        Call::BitClear(p) => v - (v & bit(kind, *p)),
        Call::BitToggle(p) => v ^ bit(kind, *p),
    }
}

/// What a call answers on an object that holds `v`; a weak exchange answers as a strong one.
#[inline(always)]
pub fn answer(kind: Kind, call: &Call, v: u128) -> Reply
    requires kind { IsKind kind }
    requires call { CallFits kind call.now }
    requires value { v < values_of kind }
    ensures value { result ≡ answer_of kind call.now v }
    ensures fits { ReplyFits kind result }
{
    match call {
        Call::Load => Reply::Value(v),
        Call::Store(_) => Reply::Unit,
        Call::Cas(e, _) => if v == *e {
            Reply::Done(v)
        } else {
            Reply::Failed(v)
        },
        Call::CasWeak(e, _) => if v == *e {
            Reply::Done(v)
        } else {
            Reply::Failed(v)
        },
        Call::Add(_, quiet) => if *quiet { Reply::Unit } else { Reply::Value(v) },
        Call::Sub(_, quiet) => if *quiet { Reply::Unit } else { Reply::Value(v) },
        Call::And(_, quiet) => if *quiet { Reply::Unit } else { Reply::Value(v) },
        Call::Or(_, quiet) => if *quiet { Reply::Unit } else { Reply::Value(v) },
        Call::Xor(_, quiet) => if *quiet { Reply::Unit } else { Reply::Value(v) },
        Call::Not(quiet) => if *quiet { Reply::Unit } else { Reply::Value(v) },
        Call::Neg(quiet) => if *quiet { Reply::Unit } else { Reply::Value(v) },
        Call::BitSet(p) => Reply::Bit(is_set(kind, *p, v)),
        Call::BitClear(p) => Reply::Bit(is_set(kind, *p, v)),
        Call::BitToggle(p) => Reply::Bit(is_set(kind, *p, v)),
        Call::AddFetch(_)
        | Call::SubFetch(_)
        | Call::AndFetch(_)
        | Call::NandFetch(_)
        | Call::OrFetch(_)
        | Call::XorFetch(_) => Reply::Value(after(kind, call, v)),
        _ => Reply::Value(v),
    }
}

/// Whether a kind has a call, and each operand is a value of the kind. A position may be any number.
pub fn call_fits(kind: Kind, call: &Call) -> bool
    ensures { IsTrue result ↔ CallFits kind call.now }
{
    let int = kind.class == Class::Int;
    let ptr = kind.class == Class::Ptr;
    let flag = kind.class == Class::Bool;
    let most = mask(kind);
    match call {
        Call::Load => true,
        Call::Store(a) => *a <= most,
        Call::Swap(a) => *a <= most,
        Call::Cas(e, n) => *e <= most && *n <= most,
        Call::CasWeak(e, n) => *e <= most && *n <= most,
        Call::Add(a, quiet) => *a <= most && (int || ptr && !*quiet),
        Call::Sub(a, quiet) => *a <= most && (int || ptr && !*quiet),
        Call::And(a, quiet) => *a <= most && (!ptr || !*quiet),
        Call::Nand(a) => *a <= most && !ptr,
        Call::Or(a, quiet) => *a <= most && (!ptr || !*quiet),
        Call::Xor(a, quiet) => *a <= most && (!ptr || !*quiet),
        Call::Max(a) => *a <= most && int,
        Call::Min(a) => *a <= most && int,
        Call::Not(_) => !ptr,
        Call::Neg(_) => int,
        Call::BitSet(_) => !flag,
        Call::BitClear(_) => !flag,
        Call::BitToggle(_) => !flag,
        Call::AddFetch(a) => *a <= most && int,
        Call::SubFetch(a) => *a <= most && int,
        Call::AndFetch(a) => *a <= most && !ptr,
        Call::NandFetch(a) => *a <= most && !ptr,
        Call::OrFetch(a) => *a <= most && !ptr,
        Call::XorFetch(a) => *a <= most && !ptr,
    }
}
