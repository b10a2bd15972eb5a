//! Holds and glances of one thread, by number.

use crate::Missed;
use crate::trials::{begin, give, glance_beside, load_beside, open_wide, store};
use op_table::Reply;
use std::test::*;

#[test]
fn store_moves_a_glance(rt: HostRuntime) -> Result<(), Fail> {
    let (arena, mut root) = open_wide(rt.alloc(), 5, 32, 0)?.ok_or("it opens")?;
    let mut p = give(&arena, &mut root).ok_or("a number is left")?;
    let mut q = give(&arena, &mut root).ok_or("a number is left")?;
    let moved = Err(Missed::Moved {
        first: 0,
        second: 2,
    });
    assert_eq!(rt;
        glance_beside(&rt, &arena, &mut q, &mut p, Some(1 << 96)),
        moved,
        "glance_beside(Some(1 << 96))"
    );
    assert_eq!(rt;
        glance_beside(&rt, &arena, &mut q, &mut p, None),
        Ok(1 << 96),
        "glance_beside(None)"
    );
    Ok(())
}

#[test]
fn glance_finds_the_lock_held(rt: HostRuntime) -> Result<(), Fail> {
    let (arena, mut root) = open_wide(rt.alloc(), 5, 64, 0)?.ok_or("it opens")?;
    let mut p = give(&arena, &mut root).ok_or("a number is left")?;
    let mut q = give(&arena, &mut root).ok_or("a number is left")?;
    let (seen, value, reply) = load_beside(&rt, &arena, &mut p, &mut q);
    assert_eq!(rt; seen, Err(Missed::Held), "seen");
    assert_eq!(rt; value, 5, "value");
    assert_eq!(rt; reply, Reply::Value(5), "reply");
    Ok(())
}

#[test]
fn last_stamp_begins_no_glance(rt: HostRuntime) -> Result<(), Fail> {
    let (arena, mut root) = open_wide(rt.alloc(), 5, 64, 18446744073709551612)?.ok_or("it opens")?;
    let mut p = give(&arena, &mut root).ok_or("a number is left")?;
    assert_eq!(rt;
        store(&rt, &arena, &mut p, 1 << 64),
        Some(Reply::Unit),
        "store(1 << 64)"
    );
    assert_eq!(rt; begin(&arena, &mut p), Err(Missed::Last), "begin()");
    Ok(())
}
