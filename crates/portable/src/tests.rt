//! The line that is written where the words are no form.

use crate::write_usage;
use std::test::*;

#[test]
fn the_usage_line_names_every_form(rt: HostRuntime) -> Result<(), Fail> {
    let mut errors = Vec::new(rt.alloc());
    write_usage(&mut errors);
    assert_eq!(rt;
        errors.as_slice(),
        b"usage: portable run|plan [--target NAME] | check | convert | targets | many SEED THREADS CALLS\n".as_slice()
    );
    Ok(())
}
