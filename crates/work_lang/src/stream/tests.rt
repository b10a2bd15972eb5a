//! Texts go through sources and sinks as they are, and a fault leaves what it should.

use super::*;
use crate::memory::{MemSink, MemSource, SureSink, SureSource};
use std::test::Fail;

#[test]
fn reads_whole_at_any_size(rt: HostRuntime) -> Result<(), Fail> {
    for most in [1, 2, 10, 100] {
        assert!(rt; most > 0);
        let mut source = MemSource::of(rt.alloc(), b"target full64\n", most, &[])?;
        let all = read_all(rt.alloc(), &mut source)?;
        assert_eq!(rt; all.as_slice(), b"target full64\n".as_slice(), "at {most}");
        let more = read_all(rt.alloc(), &mut source)?;
        assert!(rt; more.is_empty(), "at {most}");
    }
    Ok(())
}

#[test]
fn a_fault_keeps_the_bytes_after_it(rt: HostRuntime) -> Result<(), Fail> {
    let mut source = MemSource::of(rt.alloc(), b"abcde", 2, &[2])?;
    assert_eq!(rt;
        read_all(rt.alloc(), &mut source).err(),
        Some(ReadEnd::Fault)
    );
    let rest = read_all(rt.alloc(), &mut source)?;
    assert_eq!(rt; rest.as_slice(), b"cde".as_slice());
    Ok(())
}

#[test]
fn a_long_text_is_cut(rt: HostRuntime) -> Result<(), Fail> {
    let text = vec![in rt.alloc(); b'#'; 8_388_610]?;
    for (length, read, left) in [(8_388_609, 8_388_609, 0), (8_388_610, 8_388_609, 1)] {
        assert!(rt; length <= text.len());
        let mut source = SureSource::of(&text[..length]);
        let all = read_all(rt.alloc(), &mut source)?;
        assert_eq!(rt; all.len(), read, "of {length}");
        assert_eq!(rt; source.read(&mut [0; 8]), Ok(left), "of {length}");
    }
    Ok(())
}

#[test]
fn writes_whole_at_any_size(rt: HostRuntime) -> Result<(), Fail> {
    for most in [1, 2, 10, 100] {
        assert!(rt; most > 0);
        let mut sink = MemSink::of(rt.alloc(), 10, most, &[])?;
        write_all(b"cell ", &mut sink)?;
        write_all(b"load\n", &mut sink)?;
        assert_eq!(rt; sink.bytes(), b"cell load\n".as_slice(), "at {most}");
    }
    Ok(())
}

#[test]
fn a_fault_leaves_what_was_taken(rt: HostRuntime) -> Result<(), Fail> {
    let mut sink = MemSink::of(rt.alloc(), 100, 1, &[3])?;
    assert_eq!(rt; write_all(b"abcde", &mut sink), Err(WriteEnd::Fault));
    assert_eq!(rt; sink.bytes(), b"ab".as_slice());
    let mut small = MemSink::of(rt.alloc(), 3, 2, &[])?;
    assert_eq!(rt; write_all(b"abcde", &mut small), Err(WriteEnd::Fault));
    assert_eq!(rt; small.bytes(), b"ab".as_slice());
    Ok(())
}

#[test]
fn a_sure_sink_counts(rt: HostRuntime) {
    let mut sink = SureSink::new();
    assert_eq!(rt; sink.taken(), 0);
    assert_eq!(rt; write_all(b"abc", &mut sink), Ok(()));
    assert_eq!(rt; write_all(b"", &mut sink), Ok(()));
    assert_eq!(rt; write_all(b"de", &mut sink), Ok(()));
    assert_eq!(rt; sink.taken(), 5);
}
