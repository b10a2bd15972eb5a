//! The search.

ghost use Rattle.std.specs.Prelude.{◌≡◌, not, ◌&&◌, ◌+◌, ◌<◌, ◌≤◌, Err, OnOk, IfOk, OnErr};
ghost use Rattle.std.specs.BTreeMap.{is_at};
ghost use Rattle.std.specs.BTreeSet.{btree_set_len, contains, IsUnchanged};
ghost use Rattle.outcomes.specs.declared.fault.SearchFault.TheVariants.{TooManyStates, NoMemory};
ghost use Rattle.outcomes.specs.Reached.{HasReached, ReachesMore};
ghost use Rattle.outcomes.specs.Keeping.{AddsOne, Adds, KeepsAll, IsOver, IsOverAt};

use crate::fault::SearchFault;
use crate::stepping::Stepping;
use std::alloc::Global;
use std::cmp::{Ord, Ordering};
use std::collections::BTreeSet;

/// Whether a state is another than `state`, and in neither set.
fn is_new<S: Ord>(state: &S, done: &BTreeSet<S>, left: &BTreeSet<S>, next: &S) -> bool
    ensures { result ≡ (not (is_at (S.cmp next.now) state.now) && not (contains S.cmp done.now next.now) && not (contains S.cmp left.now next.now)) }
{
    next.cmp(state) != Ordering::Equal && !done.contains(next) && !left.contains(next)
}

/// Tries a choice at a state: adds the state that it leads to, where that is new.
fn add_choice<M: Stepping>(
    machine: &M,
    state: &M::State,
    choice: u32,
    limit: usize,
    done: &BTreeSet<M::State>,
    left: &mut BTreeSet<M::State>,
) -> Result<(), SearchFault>
    requires state { M.is_state machine.now state.now }
    requires choice { choice < M.choices machine.now }
    requires within { btree_set_len done.now + btree_set_len left.old + 1 ≤ limit }
    ensures adds { OnOk result (AddsOne M.State.cmp (M.after machine.now) choice state.now done.now left.old left.new) }
    ensures within { OnOk result (btree_set_len done.now + btree_set_len left.new + 1 ≤ limit) }
    ensures err { OnErr result (IsUnchanged left.old left.new) }
    ensures over { result ≡ Err TooManyStates → IsOver M.State.cmp (M.after machine.now) choice state.now done.now left.old limit }
{
    let Ok(leads) = machine.after(state, choice) else {
        return Err(SearchFault::NoMemory);
    };
    let Some(next) = leads else {
        return Ok(());
    };
    if !is_new(state, done, left, &next) {
        return Ok(());
    }
    if done.len() + left.len() + 1 >= limit {
        return Err(SearchFault::TooManyStates);
    }
    match left.insert(next) {
        Ok(_) => Ok(()),
        Err(refused) => {
            drop(refused);
            Err(SearchFault::NoMemory)
        }
    }
}

/// Tries every choice at a state.
fn add_next<M: Stepping>(
    machine: &M,
    state: &M::State,
    limit: usize,
    done: &BTreeSet<M::State>,
    left: &mut BTreeSet<M::State>,
) -> Result<(), SearchFault>
    requires state { M.is_state machine.now state.now }
    requires within { btree_set_len done.now + btree_set_len left.old + 1 ≤ limit }
    ensures adds { Adds M.State.cmp (M.after machine.now) (M.choices machine.now) state.now done.now left.old left.new }
    ensures within { OnOk result (btree_set_len done.now + btree_set_len left.new + 1 ≤ limit) }
    ensures all { OnOk result (KeepsAll M.State.cmp (M.after machine.now) (M.choices machine.now) state.now done.now left.new) }
    ensures over { result ≡ Err TooManyStates → IsOverAt M.State.cmp (M.after machine.now) (M.choices machine.now) state.now done.now left.new limit }
{
    for choice in 0..machine.choices() {
        match add_choice(machine, state, choice, limit, done, left) {
            Ok(()) => {}
            Err(fault) => return Err(fault),
        }
    }
    Ok(())
}

/// Every state that can be reached from the start, in their order. TooManyStates comes exactly where more than `limit`
/// states can be reached. NoMemory comes where the allocator refused memory, to the search or to the machine.
pub fn reach<M: Stepping>(
    alloc: Global,
    machine: &M,
    start: M::State,
    limit: usize,
) -> Result<BTreeSet<M::State>, SearchFault>
    requires { M.is_state machine.now start }
    ensures ok { IfOk result (HasReached M.State.cmp (M.choices machine.now) (M.after machine.now) start limit) }
    ensures many { result ≡ Err TooManyStates → ReachesMore M.State.cmp (M.choices machine.now) (M.after machine.now) start limit }
{
    if limit == 0 {
        return Err(SearchFault::TooManyStates);
    }
    let mut done = BTreeSet::new(alloc);
    let mut left = BTreeSet::new(alloc);
    match left.insert(start) {
        Ok(_) => {}
        Err(refused) => {
            drop(refused);
            return Err(SearchFault::NoMemory);
        }
    }
    while let Some(state) = left.pop_first() {
        match add_next(machine, &state, limit, &done, &mut left) {
            Ok(()) => {}
            Err(fault) => return Err(fault),
        }
        match done.insert(state) {
            Ok(_) => {}
            Err(refused) => {
                drop(refused);
                return Err(SearchFault::NoMemory);
            }
        }
    }
    Ok(done)
}
