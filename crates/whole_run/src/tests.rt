//! Whole runs whose replies, taken together, no order of threads can change.

use crate::WholeRun;
use crate::trials::{counter, run_none, run_two};
use op_table::{Call, Reply};
use place_core::Replies;
use runner::Keep;
use std::process::Abort;
use std::test::*;

/// The value of reply number `i`; 0 where it is none.
fn value_at(replies: &Replies, i: u32) -> u128 {
    if i >= replies.len() {
        return 0;
    }
    match replies.at(i) {
        Reply::Value(value) => *value,
        _ => 0,
    }
}

/// The last loads answered these values.
fn ends_with(rt: &impl Abort, run: &WholeRun, wanted: &[u128]) {
    assert_eq!(rt; run.last.len() as usize, wanted.len());
    for (i, value) in wanted.iter().enumerate() {
        if i < 1000 {
            assert_eq!(rt; value_at(&run.last, i as u32), *value, "object {i}");
        }
    }
}

const ONE: Call = Call::Add(1, false);

#[test]
fn additions_of_two_threads_add_up(rt: HostRuntime) -> Result<(), Fail> {
    let objects = [counter(100).ok_or("an object")?];
    let run = run_two(
        &rt,
        rt.alloc(),
        &objects,
        &[ONE, ONE],
        &[ONE, ONE],
        Keep::Replies,
    )
    .ok_or("it runs")?;
    ends_with(&rt, &run, &[104]);
    assert_eq!(rt; run.scripts.len(), 2);
    let [first, second] = run.replies.as_slice() else {
        return Err("replies of two threads".into());
    };
    let (a, b) = (value_at(first, 0), value_at(first, 1));
    let (c, d) = (value_at(second, 0), value_at(second, 1));
    assert!(rt; 100 <= a && a < b && b <= 103);
    assert!(rt; 100 <= c && c < d && d <= 103);
    assert_eq!(rt; a + b + c + d, 100 + 101 + 102 + 103);
    Ok(())
}

#[test]
fn last_values_are_the_same_where_no_replies_are_kept(rt: HostRuntime) -> Result<(), Fail> {
    let objects = [counter(100).ok_or("an object")?];
    let run = run_two(
        &rt,
        rt.alloc(),
        &objects,
        &[ONE, ONE],
        &[ONE, ONE],
        Keep::Nothing,
    )
    .ok_or("it runs")?;
    ends_with(&rt, &run, &[104]);
    let [first, second] = run.replies.as_slice() else {
        return Err("two threads".into());
    };
    assert_eq!(rt; (first.len(), second.len()), (0, 0));
    Ok(())
}

#[test]
fn threads_that_do_not_meet_have_their_own_replies(rt: HostRuntime) -> Result<(), Fail> {
    let objects = [
        counter(7).ok_or("an object")?,
        counter(8).ok_or("an object")?,
    ];
    let calls = [Call::Swap(3), Call::Load];
    let run = run_two(&rt, rt.alloc(), &objects, &calls, &[], Keep::Replies).ok_or("it runs")?;
    ends_with(&rt, &run, &[3, 8]);
    let [first, second] = run.replies.as_slice() else {
        return Err("replies of two threads".into());
    };
    assert_eq!(rt; (first.len(), second.len()), (2, 0));
    assert_eq!(rt; (value_at(first, 0), value_at(first, 1)), (7, 3));
    Ok(())
}

#[test]
fn no_scripts_leave_the_starts(rt: HostRuntime) -> Result<(), Fail> {
    let run = run_none(&rt, rt.alloc(), &[counter(9).ok_or("an object")?]).ok_or("it runs")?;
    ends_with(&rt, &run, &[9]);
    assert_eq!(rt; run.replies.len(), 0);
    Ok(())
}

#[test]
fn no_objects_have_no_last_load(rt: HostRuntime) -> Result<(), Fail> {
    let run = run_two(&rt, rt.alloc(), &[], &[], &[], Keep::Replies).ok_or("it runs")?;
    ends_with(&rt, &run, &[]);
    assert_eq!(rt; run.replies.len(), 2);
    Ok(())
}

/// The most objects that an arena may have, a word each.
#[test]
fn the_most_objects_are_loaded(rt: HostRuntime) -> Result<(), Fail> {
    let mut objects = Vec::new(rt.alloc());
    for _ in 0..65_536 {
        objects.push(counter(9).ok_or("an object")?)?;
    }
    let run = run_none(&rt, rt.alloc(), &objects).ok_or("it runs")?;
    assert_eq!(rt; run.last.len(), 65_536);
    assert_eq!(rt; value_at(&run.last, 65_535), 9);
    Ok(())
}
