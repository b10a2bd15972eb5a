//! The replies of calls.

ghost use Rattle.std.specs.Prelude.{◌≡◌, if◌then◌else◌};
ghost use Rattle.op_table.specs.declared.call.Reply.TheVariants as reply;
ghost use Rattle.op_table.specs.Call.{unless_quiet};

use op_table::Reply;

/// A value, unless the call is quiet.
#[inline(always)]
pub(crate) fn unless_quiet(quiet: bool, bits: u128) -> Reply
    ensures { result ≡ unless_quiet quiet bits }
{
    if quiet {
        Reply::Unit
    } else {
        Reply::Value(bits)
    }
}
