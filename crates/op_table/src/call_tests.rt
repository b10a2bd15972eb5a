//! Tests for kinds of calls, and of replies.

ghost use Rattle.std.specs.Prelude.{◌≡◌};
ghost use Rattle.op_table.specs.CallTests.{is_load, is_weak, is_exchange, is_newer, expects_another, does_write};

use crate::call::{Call, Reply};

/// Whether a call only reads.
pub fn is_load(call: &Call) -> bool
    ensures { result ≡ is_load call.now }
{
    matches!(call, Call::Load)
}

/// Whether a call is an exchange that may fail with the value that it expects (C11 7.17.7.4, a spurious failure).
pub fn is_weak(call: &Call) -> bool
    ensures { result ≡ is_weak call.now }
{
    matches!(call, Call::CasWeak(_, _))
}

/// Whether a call is a compare and exchange, strong or weak. It alone has a failure order.
pub fn is_exchange(call: &Call) -> bool
    ensures { result ≡ is_exchange call.now }
{
    matches!(call, Call::Cas(_, _) | Call::CasWeak(_, _))
}

/// Whether a call answers the new value (GCC's `__atomic_add_fetch` and its like).
pub fn is_newer(call: &Call) -> bool
    ensures { result ≡ is_newer call.now }
{
    matches!(
        call,
        Call::AddFetch(_)
            | Call::SubFetch(_)
            | Call::AndFetch(_)
            | Call::NandFetch(_)
            | Call::OrFetch(_)
            | Call::XorFetch(_)
    )
}

/// Whether a call is an exchange that expects another value than `v`, so that it fails on an object that holds `v`.
#[inline(always)]
pub fn expects_another(call: &Call, v: u128) -> bool
    ensures { result ≡ expects_another call.now v }
{
    match call {
        Call::Cas(expected, _) | Call::CasWeak(expected, _) => v != *expected,
        _ => false,
    }
}

/// Whether a call with this reply stores a value: it isn't a load, and no exchange that failed.
#[inline(always)]
pub fn does_write(call: &Call, reply: &Reply) -> bool
    ensures { result ≡ does_write call.now reply.now }
{
    match (call, reply) {
        (Call::Load, _) => false,
        (_, Reply::Failed(_)) => false,
        _ => true,
    }
}
