//! Families of calls: calls of one family leave the same value in whichever order they are made.

ghost use Rattle.std.specs.Prelude.{◌≡◌};
ghost use Rattle.ledger_sums.specs.Families.{mix_of};
ghost use Rattle.ledger_sums.specs.Tallies.{joined};

use op_table::Call;

/// Calls that may be made in any order among each other.
#[derive(Clone, Copy, Debug, PartialEq, Eq)]
pub enum Family {
    /// Additions and subtractions.
    Sums,
    /// Calls that turn bits over.
    Flips,
    /// Calls that set bits.
    Sets,
    /// Calls that clear bits.
    Clears,
    Maxima,
    Minima,
}

/// What calls are together.
#[derive(Clone, Copy, Debug, PartialEq, Eq)]
pub enum Mix {
    /// Loads alone, or no call.
    Loads,
    /// Loads and members of one family.
    One(Family),
    /// Members of two families, or a call of none.
    Other,
}

/// What a call is alone. Quiet calls belong to the families too.
pub fn mix_of(call: &Call) -> Mix
    ensures { result ≡ mix_of call.now }
{
    match call {
        Call::Load => Mix::Loads,
        Call::Add(_, _) => Mix::One(Family::Sums),
        Call::Sub(_, _) => Mix::One(Family::Sums),
        Call::Xor(_, _) => Mix::One(Family::Flips),
        Call::Not(_) => Mix::One(Family::Flips),
        Call::BitToggle(_) => Mix::One(Family::Flips),
        Call::Or(_, _) => Mix::One(Family::Sets),
        Call::BitSet(_) => Mix::One(Family::Sets),
        Call::And(_, _) => Mix::One(Family::Clears),
        Call::BitClear(_) => Mix::One(Family::Clears),
        Call::Max(_) => Mix::One(Family::Maxima),
        Call::Min(_) => Mix::One(Family::Minima),
        Call::Store(_) => Mix::Other,
        Call::Swap(_) => Mix::Other,
        Call::Cas(_, _) => Mix::Other,
        Call::CasWeak(_, _) => Mix::Other,
        Call::Nand(_) => Mix::Other,
        Call::Neg(_) => Mix::Other,
        Call::AddFetch(_) => Mix::One(Family::Sums),
        Call::SubFetch(_) => Mix::One(Family::Sums),
        Call::AndFetch(_) => Mix::One(Family::Clears),
        Call::NandFetch(_) => Mix::Other,
        Call::OrFetch(_) => Mix::One(Family::Sets),
        Call::XorFetch(_) => Mix::One(Family::Flips),
    }
}

/// What two lots of calls are together.
pub fn joined(calls: Mix, more: Mix) -> Mix
    ensures { result ≡ joined calls more }
{
    match (calls, more) {
        (Mix::Loads, more) => more,
        (Mix::One(family), Mix::Loads) => Mix::One(family),
        (Mix::One(family), Mix::One(other)) => {
            if family == other {
                Mix::One(family)
            } else {
                Mix::Other
            }
        }
        (Mix::One(_), Mix::Other) => Mix::Other,
        (Mix::Other, _) => Mix::Other,
    }
}
