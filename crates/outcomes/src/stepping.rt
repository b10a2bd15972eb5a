//! Types that step from state to state.

ghost use Rattle.std.specs.Prelude.{◌≡◌, ℕ, ◌<◌, Option, IfOk, IfSome};
ghost use Rattle.std.specs.declared.cmp.Ordering.TheVariants.{Equal};

use std::alloc::AllocError;
use std::cmp::Ord;

/// A machine that steps: at each of its states it has one number of choices, and each choice leads to one state or to none.
pub trait Stepping {
    /// A state. Two that compare equal are the same state.
    type State: Ord + Drop;

    ghost is_state: { Self → Self.State → Type 0 };

    ghost choices: { Self → ℕ };

    ghost after: { Self → Self.State → ℕ → Option Self.State };

    /// How many choices there are at each state.
    fn choices(&self) -> u32
        ensures { result ≡ choices self.now };

    /// The state to which a choice leads, counted from 0; None where it leads to none. `AllocError` where memory is wanting.
    fn after(&self, state: &Self::State, choice: u32) -> Result<Option<Self::State>, AllocError>
        requires state { is_state self.now state.now }
        requires choice { choice < choices self.now }
        ensures { IfOk result (λ next. next ≡ after self.now state.now choice) };

    ghost same: { (s t : Self.State) → Self.State.cmp s t ≡ Equal → s ≡ t };

    ghost stays: { (m : Self) (s : Self.State) (k : ℕ) → is_state m s → k < choices m → IfSome (after m s k) (is_state m) };
}
