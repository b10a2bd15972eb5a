//! Names by example, and each public call once.

use super::*;
use op_table::{Call, Order, Reply};
use std::alloc::Global;
use std::process::Abort;
use std::test::*;

#[test]
fn names_are_told_from_other_texts(rt: HostRuntime) {
    for (text, named) in [
        ("a", true),
        ("abcdefghijklmnop", true),
        ("abcdefghijklmnopq", false),
        ("", false),
        ("end", false),
        ("ends", true),
        ("A", false),
        ("1a", false),
        ("_a", false),
        ("a_1", true),
    ] {
        assert_eq!(rt; Name::of(text.as_bytes()).is_some(), named, "at {text}");
    }
}

#[test]
fn a_name_has_its_bytes(rt: HostRuntime) -> Result<(), Fail> {
    let name = Name::of(b"a_1").ok_or("a name")?;
    assert_eq!(rt; name.bytes(), b"a_1".as_slice());
    Ok(())
}

/// A line that adds to the object of that number.
fn line(object: u32) -> Line {
    Line {
        object,
        call: Call::Add(2, true),
        success: Order::AcqRel,
        failure: None,
    }
}

/// The lines of these objects as a block.
fn block(alloc: Global, objects: &[u32]) -> Result<Lines, Fail> {
    let mut lines = Lines::new(alloc);
    for object in objects {
        if lines.len() == u32::MAX {
            return Err("a short block".into());
        }
        lines.push(line(*object)).map_err(|_| "memory")?;
    }
    Ok(lines)
}

/// A line, a block of two lines three times over, a block of none as often as can be said, and a line.
fn pieces(rt: &impl Abort, alloc: Global) -> Result<Script, Fail> {
    let mut script = Script::new(alloc);
    script.push(line(1)).map_err(|_| "memory")?;
    for (times, objects) in [(3, [2, 3].as_slice()), (4294967295, &[])] {
        let lines = block(alloc, objects)?;
        assert!(rt; script.len() as u64 + times as u64 * lines.len() as u64 <= u32::MAX as u64);
        assert!(rt; script.pieces() < u32::MAX);
        script.push_block(times, lines).map_err(|_| "memory")?;
    }
    assert!(rt; script.len() < u32::MAX && script.pieces() < u32::MAX);
    script.push(line(4)).map_err(|_| "memory")?;
    Ok(script)
}

/// The objects of the lines, by number and by the cursor.
fn both_walks(script: &Script, alloc: Global) -> Result<(Vec<u32>, Vec<u32>), Fail> {
    let mut numbered = Vec::new(alloc);
    for i in 0..script.len() {
        numbered.push(script.at(i).object).map_err(|_| "memory")?;
    }
    let mut walked = Vec::new(alloc);
    let mut lines = script.lines();
    'lines: while let Some(line) = lines.next() {
        walked.push(line.object).map_err(|_| "memory")?;
    }
    Ok((numbered, walked))
}

#[test]
fn a_script_has_the_lines_of_its_pieces(rt: HostRuntime) -> Result<(), Fail> {
    let script = pieces(&rt, rt.alloc())?;
    let copy = script.copy(rt.alloc()).map_err(|_| "memory")?;
    for script in [&script, &copy] {
        assert_eq!(rt; script.len(), 8);
        assert_eq!(rt; script.pieces(), 4);
        let (numbered, walked) = both_walks(script, rt.alloc())?;
        assert_eq!(rt; numbered.as_slice(), [1, 2, 3, 2, 3, 2, 3, 4].as_slice());
        assert_eq!(rt; walked.as_slice(), [1, 2, 3, 2, 3, 2, 3, 4].as_slice());
    }
    Ok(())
}

/// A million pieces may be kept.
#[test]
fn a_piece_is_little_more_than_a_line(rt: HostRuntime) {
    assert!(rt; std::mem::size_of::<Piece>() <= std::mem::size_of::<Line>() + 16);
}

#[test]
fn the_open_gate_lets_all_pass(rt: HostRuntime) {
    OpenGate.before(1, 1);
    OpenGate.after(1, 1);
    assert_eq!(rt; OpenGate, OpenGate);
}

#[test]
fn replies_are_kept(rt: HostRuntime) -> Result<(), Fail> {
    let mut replies = Replies::with_room(rt.alloc(), 1).map_err(|_| "memory")?;
    replies.push(Reply::Value(5));
    assert_eq!(rt; replies.len(), 1);
    assert_eq!(rt; *replies.at(0), Reply::Value(5));
    Ok(())
}
