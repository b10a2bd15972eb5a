//! Rules: which number follows a number.

ghost use Rattle.std.specs.Prelude.{◌≡◌, ◌≤◌, ⊤, ℕ, ◌+◌, ◌-◌, Option, Some, None, IfSome};
ghost use Rattle.std.proofs.Common.{rules};
ghost use Rattle.update_table.specs.Rules.{AnswersWithin, InRange, cycled, lowered, raised};

/// Which number follows each number of a range, as bit patterns. A rule may refuse a number.
pub trait Rule: Send + Sync + Drop {
    // The lowest number, the highest, and which answers a number may have.
    ghost low: { Self → ℕ };

    ghost high: { Self → ℕ };

    ghost leads: { Self → ℕ → Option ℕ → Type 0 };

    // What its maker has promised, so that it may be asked at each number of the range.
    ghost is_rule: { Self → Type 0 };

    /// The lowest number, and the highest.
    fn range(&self) -> (u128, u128)
        ensures lo { result.0 ≡ low self.now }
        ensures hi { result.1 ≡ high self.now }
        ensures ordered { low self.now ≤ high self.now };

    /// The number that follows `v`, a number of the range; None where `v` is refused.
    fn next(&self, v: u128) -> Option<u128>
        requires rule { is_rule self.now }
        requires range { InRange (low self.now) (high self.now) v }
        ensures leads { leads self.now v result }
        ensures within { IfSome result (λ n. InRange (low self.now) (high self.now) n) };
}

/// Raises a number by `by`, and refuses one that would pass `hi`.
#[derive(Clone, Copy, Debug)]
pub struct Raise {
    pub lo: u128,
    pub hi: u128,
    pub by: u128,
    pub ghost is_range: { lo ≤ hi },
}

impl Rule for Raise {
    ghost low = { λ r. r.lo };

    ghost high = { λ r. r.hi };

    ghost leads = { λ r v answer. answer ≡ raised r.hi r.by v };

    ghost is_rule = { λ r. ⊤ };

    fn range(&self) -> (u128, u128) {
        (self.lo, self.hi)
    }

    fn next(&self, v: u128) -> Option<u128> {
        if self.by > self.hi - v {
            return None;
        }
        Some(v + self.by)
    }
}

/// Lowers a number by `by`, and refuses one that would go below `lo`.
#[derive(Clone, Copy, Debug)]
pub struct Lower {
    pub lo: u128,
    pub hi: u128,
    pub by: u128,
    pub ghost is_range: { lo ≤ hi },
}

impl Rule for Lower {
    ghost low = { λ r. r.lo };

    ghost high = { λ r. r.hi };

    ghost leads = { λ r v answer. answer ≡ lowered r.lo r.by v };

    ghost is_rule = { λ r. ⊤ };

    fn range(&self) -> (u128, u128) {
        (self.lo, self.hi)
    }

    fn next(&self, v: u128) -> Option<u128> {
        if self.by > v - self.lo {
            return None;
        }
        Some(v - self.by)
    }
}

/// Goes up by 1, and from `hi` to `lo`.
#[derive(Clone, Copy, Debug)]
pub struct Cycle {
    pub lo: u128,
    pub hi: u128,
    pub ghost is_range: { lo ≤ hi },
}

impl Rule for Cycle {
    ghost low = { λ r. r.lo };

    ghost high = { λ r. r.hi };

    ghost leads = { λ r v answer. answer ≡ Some (cycled r.lo r.hi v) };

    ghost is_rule = { λ r. ⊤ };

    fn range(&self) -> (u128, u128) {
        (self.lo, self.hi)
    }

    fn next(&self, v: u128) -> Option<u128> {
        if v == self.hi {
            return Some(self.lo);
        }
        Some(v + 1)
    }
}

/// A rule by a closure: it answers the next number, or None where it refuses.
#[derive(Drop)]
pub struct Stored<F> {
    pub lo: u128,
    pub hi: u128,
    pub f: F,
    pub ghost is_range: { lo ≤ hi },
}

impl<F: Fn(u128) -> Option<u128> + Send + Sync + Drop> Stored<F> {
    /// The rule of the numbers from `lo` to `hi` that answers as `f` does.
    pub fn of(lo: u128, hi: u128, f: F) -> Stored<F>
        requires range { lo ≤ hi }
        requires answers { AnswersWithin lo hi (F.pre f) (F.post f) }
        ensures lo { result.lo ≡ lo }
        ensures hi { result.hi ≡ hi }
        ensures f { result.f ≡ f }
    {
        Stored { lo, hi, f }
    }
}

impl<F: Fn(u128) -> Option<u128> + Send + Sync + Drop> Rule for Stored<F> {
    ghost low = { λ r. r.lo };

    ghost high = { λ r. r.hi };

    ghost leads = { λ r v answer. F.post r.f v answer };

    ghost is_rule = { λ r. AnswersWithin r.lo r.hi (F.pre r.f) (F.post r.f) };

    fn range(&self) -> (u128, u128) {
        (self.lo, self.hi)
    }

    fn next(&self, v: u128) -> Option<u128> {
        (self.f)(v)
    }
}
