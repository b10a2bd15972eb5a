//! Calls on a u8 of a section, by number.

use crate::trials::{give, make, open_byte};
use op_table::{Call, Reply};
use std::test::*;

#[test]
fn stores_and_loads(rt: HostRuntime) -> Result<(), Fail> {
    let (arena, mut root) = open_byte(rt.alloc())?.ok_or("it opens")?;
    let mut p = give(&arena, &mut root).ok_or("a number is left")?;
    assert_eq!(rt;
        make(&rt, &arena, &mut p, Call::Store(9)),
        Some(Reply::Unit),
        "make(Call::Store(9))"
    );
    assert_eq!(rt;
        make(&rt, &arena, &mut p, Call::Load),
        Some(Reply::Value(9)),
        "make(Call::Load)"
    );
    Ok(())
}

#[test]
fn exchanges_once(rt: HostRuntime) -> Result<(), Fail> {
    let (arena, mut root) = open_byte(rt.alloc())?.ok_or("it opens")?;
    let mut p = give(&arena, &mut root).ok_or("a number is left")?;
    assert_eq!(rt;
        make(&rt, &arena, &mut p, Call::CasWeak(1, 2)),
        Some(Reply::Failed(0)),
        "make(Call::CasWeak(1, 2))"
    );
    assert_eq!(rt;
        make(&rt, &arena, &mut p, Call::Not(false)),
        Some(Reply::Value(0)),
        "make(Call::Not(false))"
    );
    assert_eq!(rt;
        make(&rt, &arena, &mut p, Call::Cas(255, 2)),
        Some(Reply::Done(255)),
        "make(Call::Cas(255, 2))"
    );
    Ok(())
}
