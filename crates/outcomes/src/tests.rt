//! A ladder, whose rungs are numbers: from a rung one may climb so many, or fall so many. What is wanted was worked out by
//! hand.

ghost use Rattle.std.specs.Prelude.{ℕ, ◌+◌, ◌-◌, ◌==◌, nat_lt, nat_le, if◌then◌else◌, Some, None, ◌<◌, ◌≤◌};
ghost use Rattle.std.proofs.lemmas.Map.Lookups.{exact_unsigned};
ghost use Rattle.std.proofs.Common.{arith};
ghost use Rattle.std.proofs.lemmas.Grind.{common_steps};

use crate::{SearchFault, Stepping, reach};
use std::alloc::{AllocError, Global};
use std::process::Abort;
use std::test::Fail;

#[derive(Drop)]
struct Ladder {
    rungs: u32,
    up: u32,
    down: u32,
}

impl Stepping for Ladder {
    type State = u32;

    ghost is_state = { λ m s. s < m.rungs };

    ghost choices = { λ m. 2 };

    ghost after = { λ m s k. if k == 0 then (if nat_lt (s + m.up) m.rungs then Some (s + m.up) else None) else (if nat_le m.down s then Some (s - m.down) else None) };

    ghost same = { exact_unsigned };

    ghost stays = { λ m s k at_rung below. Prim.grind (arith, common_steps) };

    fn choices(&self) -> u32 {
        2
    }

    fn after(&self, state: &u32, choice: u32) -> Result<Option<u32>, AllocError> {
        let rung = *state;
        if choice == 0 {
            let higher = u64::from(rung) + u64::from(self.up);
            if higher < u64::from(self.rungs) {
                Ok(Some(higher as u32))
            } else {
                Ok(None)
            }
        } else if self.down <= rung {
            Ok(Some(rung - self.down))
        } else {
            Ok(None)
        }
    }
}

/// The rungs that are reached from rung 0, or what was told in their place.
fn climb(
    rt: &impl Abort,
    alloc: Global,
    ladder: &Ladder,
    limit: usize,
    wanted: Result<&[u32], SearchFault>,
)
    requires { 0 < ladder.now.rungs }
{
    match reach(alloc, ladder, 0, limit) {
        Ok(found) => {
            let Ok(rungs) = wanted else {
                panic!(rt; "an answer where a fault was wanted")
            };
            assert_eq!(rt; found.len(), rungs.len());
            for rung in rungs {
                assert!(rt; found.contains(rung));
            }
        }
        Err(fault) => {
            assert!(rt; wanted == Err(fault));
        }
    }
}

#[test]
fn each_rung_is_found(rt: HostRuntime) -> Result<(), Fail> {
    let even = Ladder {
        rungs: 10,
        up: 4,
        down: 6,
    };
    climb(&rt, rt.alloc(), &even, 5, Ok(&[0, 2, 4, 6, 8]));
    climb(&rt, rt.alloc(), &even, 6, Ok(&[0, 2, 4, 6, 8]));
    climb(&rt, rt.alloc(), &even, 4, Err(SearchFault::TooManyStates));
    climb(&rt, rt.alloc(), &even, 1, Err(SearchFault::TooManyStates));
    climb(&rt, rt.alloc(), &even, 0, Err(SearchFault::TooManyStates));

    let all = Ladder {
        rungs: 6,
        up: 2,
        down: 3,
    };
    climb(&rt, rt.alloc(), &all, 6, Ok(&[0, 1, 2, 3, 4, 5]));
    climb(&rt, rt.alloc(), &all, 5, Err(SearchFault::TooManyStates));

    let stuck = Ladder {
        rungs: 3,
        up: 3,
        down: 1,
    };
    climb(&rt, rt.alloc(), &stuck, 1, Ok(&[0]));

    let idle = Ladder {
        rungs: 3,
        up: 0,
        down: 0,
    };
    climb(&rt, rt.alloc(), &idle, 1, Ok(&[0]));
    climb(&rt, rt.alloc(), &idle, 0, Err(SearchFault::TooManyStates));
    Ok(())
}
