//! States as lists of numbers.

ghost use Rattle.std.specs.Prelude.{◌≡◌, ◌+◌, ◌<◌, ◌++◌, ◌∷◌, [], length, nat_eq, slice_index, IfOk, OnOk, Some};
ghost use Rattle.std.specs.Cmp;
ghost use Rattle.std.specs.Cmp.Lexicographic.{pointwise, slice_cmp, nat_list_eq_equiv, nat_list_cmp_total, texts_ties, texts_po};
ghost use Rattle.std.specs.Ordering.{nat_cmp};
ghost use Rattle.std.proofs.Common.{rules};

use std::alloc::{AllocError, Global};
use std::cmp::{Eq, Ord, Ordering, PartialEq, PartialOrd};
use std::marker::Model;

/// A state of a run, as a list of numbers. States are ordered as lists of numbers are.
#[derive(Drop)]
pub struct State {
    cells: Vec<u128>,
}

impl Model for State {
    ghost use Rattle.std.specs.Prelude.{ℕ, List};

    ghost Value = { List ℕ };

    ghost view = { λ s. s.cells.items };
}

impl State {
    /// No numbers yet, with room for so many.
    pub fn with_room(alloc: Global, count: usize) -> Result<State, AllocError>
        ensures { IfOk result (λ s. s ≡ []) }
    {
        let cells = Vec::with_capacity(alloc, count)?;
        Ok(State { cells })
    }

    /// Adds a number at the end.
    pub fn push(&mut self, number: u128) -> Result<(), AllocError>
        ensures { OnOk result (self.new ≡ self.old ++ number ∷ []) }
    {
        self.cells.push(number)?;
        Ok(())
    }

    /// How many numbers there are.
    pub fn len(&self) -> usize
        ensures { result ≡ length self.now }
    {
        self.cells.len()
    }

    /// Number `i`, counted from 0.
    pub fn at(&self, i: usize) -> u128
        requires { i < length self.now }
        ensures { result ≡ slice_index self.now i }
    {
        self.cells[i]
    }
}

impl PartialEq for State {
    ghost eq = { λ x y. pointwise nat_eq x y };

    ghost laws = { Cmp.partial_equiv_from_equiv nat_list_eq_equiv };

    fn eq(&self, other: &State) -> bool {
        self.cells.as_slice() == other.cells.as_slice()
    }
}

impl Eq for State {
    ghost laws = { nat_list_eq_equiv };
}

impl PartialOrd for State {
    ghost partial_cmp = { λ x y. Some (slice_cmp nat_cmp x y) };

    ghost laws = { texts_po };

    fn partial_cmp(&self, other: &State) -> Option<Ordering> {
        Some(self.cmp(other))
    }
}

impl Ord for State {
    ghost cmp = { λ x y. slice_cmp nat_cmp x y };

    ghost total = { nat_list_cmp_total };

    ghost matches_partial_cmp = { Prim.search rules };

    ghost matches_eq = { λ x y. texts_ties x y };

    fn cmp(&self, other: &State) -> Ordering {
        self.cells.as_slice().cmp(&other.cells.as_slice())
    }
}
