//! Canonical texts, as the grammar and the tables give them.

use crate::{MemSink, Sink, Work, WriteEnd, print_work, read_work};
use std::alloc::Global;
use std::process::Abort;
use std::test::Fail;
use target_desc::builtin;

/// Reading the text and writing it again gives this text.
fn assert_canonical(
    rt: &impl Abort,
    alloc: Global,
    text: &str,
    canonical: &str,
) -> Result<(), Fail> {
    let work = read_work(alloc, text.as_bytes())?;
    let mut sink = MemSink::of(alloc, 65_536, 65_536, &[])?;
    let end = print_work(&work, &mut sink);
    assert_eq!(rt; end, Ok(()));
    assert_eq!(rt; sink.bytes(), canonical.as_bytes(), "{text:?}");
    Ok(())
}

#[test]
fn spare_bytes_and_words_are_left_out(rt: HostRuntime) -> Result<(), Fail> {
    assert_canonical(
        &rt,
        rt.alloc(),
        "# demo\n\nwork 1\ntarget 64 packed swap+add+bits+order 67 locks\nobject  n usize 3\nthread\nn compare_exchange 3 4 seq_cst seq_cst\nn load acquire\nend",
        "work 1\ntarget word64\nobject n u64 3\nthread\nn compare_exchange 3 4\nn load acquire\nend\n",
    )
}

#[test]
fn each_class_is_written(rt: HostRuntime) -> Result<(), Fail> {
    assert_canonical(
        &rt,
        rt.alloc(),
        " work 1 \ntarget 32  apart none 1 locks\nobject a isize -5\nobject p ptr 0xff\nobject f bool true\nthread\na fetch_max 3   relaxed\np bit_set 75 seq_cst\nf compare_exchange_weak true false seq_cst relaxed\na neg\nend\n# end",
        "work 1\ntarget 32 apart none 1 locks\nobject a i64 -5\nobject p ptr 0xff\nobject f bool true\nthread\na fetch_max 3 relaxed\np bit_set 75\nf compare_exchange_weak true false seq_cst relaxed\na neg\nend\n",
    )
}

#[test]
fn blocks_are_written_as_they_stand(rt: HostRuntime) -> Result<(), Fail> {
    assert_canonical(
        &rt,
        rt.alloc(),
        "work  2\ntarget 64 packed  swap+add+bits+order 67 locks big\nobject n u8 0\nthread\nrepeat:  300\nn  fetch_add 1 seq_cst\n# x\nend\nn load\nrepeat: 1\nn add_fetch 10\nn load acquire\nend\nrepeat: 4294967295\nend\nend",
        "work 2\ntarget 64 packed swap+add+bits+order 67 locks big\nobject n u8 0\nthread\nrepeat: 300\nn fetch_add 1\nend\nn load\nrepeat: 1\nn add_fetch 10\nn load acquire\nend\nrepeat: 4294967295\nend\nend\n",
    )
}

#[test]
fn a_workload_may_be_empty(rt: HostRuntime) -> Result<(), Fail> {
    assert_canonical(
        &rt,
        rt.alloc(),
        "work 1\ntarget 32 apart none 1 section",
        "work 1\ntarget section32\n",
    )
}

fn sample(alloc: Global) -> Result<Work, Fail> {
    Ok(read_work(
        alloc,
        b"work 1\ntarget full64\nobject n u8 7\nthread\nn load\nend\n",
    )?)
}

#[test]
fn another_target_is_written(rt: HostRuntime) -> Result<(), Fail> {
    let target = builtin(b"cas32").ok_or("no target")?;
    let work = sample(rt.alloc())?.with_target(target);
    let mut sink = MemSink::of(rt.alloc(), 65_536, 65_536, &[])?;
    let end = print_work(&work, &mut sink);
    assert_eq!(rt; end, Ok(()));
    assert_eq!(rt;
        sink.bytes(),
        b"work 1\ntarget cas32\nobject n u8 7\nthread\nn load\nend\n".as_slice()
    );
    Ok(())
}

/// The lines before the write that fails were taken.
#[test]
fn a_sink_that_fails_keeps_whole_lines(rt: HostRuntime) -> Result<(), Fail> {
    let work = sample(rt.alloc())?;
    let mut sink = MemSink::of(rt.alloc(), 65_536, 65_536, &[4])?;
    let end = print_work(&work, &mut sink);
    assert_eq!(rt; end, Err(WriteEnd::Fault));
    assert_eq!(rt;
        sink.bytes(),
        b"work 1\ntarget full64\nobject n u8 7\n".as_slice()
    );
    Ok(())
}
