//! Tables of rules.

ghost use Rattle.std.specs.Prelude.{◌≡◌, ◌≢◌, ◌⊎◌, ◌≤◌, ℕ, ◌+◌, ◌-◌, ◌^◌, ◌<◌, Option, Some, None, IfSome, length, ◌++◌, ◌∷◌, [], MatchResult, slice_get};
ghost use Rattle.op_table.specs.Kind.{values_of};
ghost use Rattle.place_core.specs.Shapes.{kind_of};
ghost use Rattle.seat_views.specs.Trials.{IsReady};
ghost use Rattle.update_table.specs.Pushes.{Pushes};
ghost use Rattle.update_table.specs.Tables.{AreRules};
ghost use Rattle.update_table.specs.Updates.{Updates};

use crate::rule::Rule;
use crate::update::{Stop, fetch_update_by};
use atomic_types::Served;
use seat_views::{Arena, Pass};
use std::alloc::{AllocFailed, Global};
use std::marker::Model;
use std::sync::Wait;

/// Why a rule wasn't stored.
#[derive(Clone, Copy, Debug, PartialEq, Eq)]
pub enum PushFault {
    /// The rule has another range than the table.
    OtherRange = 1,
    /// Memory was refused.
    NoMemory = 2,
}

impl Rule for Box<dyn Rule> {
    ghost low = { λ b. (Rule-box b).low b.value };

    ghost high = { λ b. (Rule-box b).high b.value };

    ghost leads = { λ b. (Rule-box b).leads b.value };

    ghost is_rule = { λ b. (Rule-box b).is_rule b.value };

    fn range(&self) -> (u128, u128) {
        (**self).range()
    }

    fn next(&self, v: u128) -> Option<u128> {
        (**self).next(v)
    }
}

impl Rule for &dyn Rule {
    ghost low = { λ r. (Rule-dyn r.now).low r.now.1 };

    ghost high = { λ r. (Rule-dyn r.now).high r.now.1 };

    ghost leads = { λ r. (Rule-dyn r.now).leads r.now.1 };

    ghost is_rule = { λ r. (Rule-dyn r.now).is_rule r.now.1 };

    fn range(&self) -> (u128, u128) {
        (**self).range()
    }

    fn next(&self, v: u128) -> Option<u128> {
        (**self).next(v)
    }
}

/// Rules of one range. Contracts see the range and the rules.
#[derive(Drop)]
pub struct TableOf<B> {
    lo: u128,
    hi: u128,
    rules: Vec<B>,
}

impl<B> Model for TableOf<B> {
    ghost use Rattle.update_table.specs.Tables.{TableState};

    ghost Value = { TableState B };

    ghost use Rattle.std.specs.Prelude.{◌≤◌, ◌<◌, ◌^◌, length};

    ghost view = { λ t. record { lo = t.lo; hi = t.hi; rules = t.rules.items } };

    ghost invariant = { λ t. (t.lo ≤ t.hi) × (length t.rules.items < 2 ^ 32) };
}

/// Rules of one range, in boxes.
pub type Table = TableOf<Box<dyn Rule>>;

impl<B: Rule> TableOf<B> {
    /// A table of no rules, for numbers from `lo` to `hi`. It takes no memory.
    pub fn new(alloc: Global, lo: u128, hi: u128) -> TableOf<B>
        requires { lo ≤ hi }
        ensures range { (result.lo ≡ lo) × (result.hi ≡ hi) }
        ensures empty { result.rules ≡ [] }
        ensures rules { AreRules B.low B.high B.is_rule result }
    {
        TableOf {
            lo,
            hi,
            rules: Vec::new(alloc),
        }
    }

    /// How many rules the table has.
    pub fn len(&self) -> u32
        ensures { result ≡ length self.now.rules }
    {
        self.rules.len() as u32
    }

    /// Stores a rule after the others, and answers its place, counted from 0. `OtherRange` where its range isn't the
    /// table's, and else `NoMemory` where memory is refused: then the rule is given back, and the table is as it was.
    pub fn push(&mut self, rule: B) -> Result<u32, (B, PushFault)>
        requires room { length self.old.rules < 2 ^ 32 - 1 }
        requires rules { AreRules B.low B.high B.is_rule self.old }
        requires rule { B.is_rule rule }
        ensures pushes { Pushes self.old rule (B.low rule) (B.high rule) result self.new }
        ensures rules { AreRules B.low B.high B.is_rule self.new }
    {
        if rule.range() != (self.lo, self.hi) {
            return Err((rule, PushFault::OtherRange));
        }
        let place = self.rules.len() as u32;
        if let Err(AllocFailed { value }) = self.rules.push(rule) {
            return Err((value, PushFault::NoMemory));
        }
        Ok(place)
    }

    /// The rule at a place.
    #[inline(always)]
    fn at(&self, i: u32) -> &B
        requires { i < length self.now.rules }
        ensures { slice_get self.now.rules i ≡ Some result.now }
    {
        &self.rules[i as usize]
    }

    /// Updates an object's number by rule number `i`, as `fetch_update` does.
    #[inline(always)]
    pub fn update<R: Wait>(
        &self,
        rt: &R,
        arena: &Arena,
        pass: &mut Pass,
        served: Served,
        i: u32,
    ) -> Result<u128, Stop>
        requires ready { IsReady arena.now pass.old }
        requires object { served.object < length arena.now.shape.objects }
        requires place { i < length self.now.rules }
        requires fits { self.now.hi < values_of (kind_of arena.now.shape served.object) }
        requires rules { AreRules B.low B.high B.is_rule self.now }
        ensures updates { (rule : B) → slice_get self.now.rules i ≡ Some rule → Updates arena.now.shape served.object self.now.lo self.now.hi (B.leads rule) pass.old result pass.new }
        ensures ready { IsReady arena.now pass.new }
    {
        fetch_update_by(rt, arena, pass, served, self.at(i))
    }
}
