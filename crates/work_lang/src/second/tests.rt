//! Second forms, as canonical texts.

use crate::{MemSink, Work, print_work, read_work, to_second};
use std::alloc::Global;
use std::process::Abort;
use std::test::Fail;

/// The canonical text of the second form of the workload that the text spells is this one.
fn assert_second(rt: &impl Abort, alloc: Global, text: &str, canonical: &str) -> Result<(), Fail> {
    let work = read_work(alloc, text.as_bytes())?;
    let second = to_second(alloc, work).map_err(|(_, error)| error)?;
    let mut sink = MemSink::of(alloc, 65_536, 65_536, &[])?;
    let end = print_work(&second, &mut sink);
    assert_eq!(rt; end, Ok(()));
    assert_eq!(rt; sink.bytes(), canonical.as_bytes(), "{text:?}");
    Ok(())
}

#[test]
fn equal_lines_become_a_block(rt: HostRuntime) -> Result<(), Fail> {
    assert_second(
        &rt,
        rt.alloc(),
        "work 1\ntarget full64\nobject n u8 0\nthread\nn load\nn load seq_cst\nn fetch_add 1\nend\n",
        "work 2\ntarget full64\nobject n u8 0\nthread\nrepeat: 2\nn load\nend\nn fetch_add 1\nend\n",
    )
}

/// Lines differ in the object, in the orders, and in positions that are equal modulo the width. A run ends with its
/// thread.
#[test]
fn other_lines_stand_alone(rt: HostRuntime) -> Result<(), Fail> {
    assert_second(
        &rt,
        rt.alloc(),
        "work 1\ntarget full64\nobject n u8 0\nobject m u8 0\nthread\nn load\nn load acquire\nn bit_set 3\nn bit_set 11\nm bit_set 11\nm bit_set 11\nm bit_set 11\nn load\nend\nthread\nend\nthread\nn load\nend\n",
        "work 2\ntarget full64\nobject n u8 0\nobject m u8 0\nthread\nn load\nn load acquire\nn bit_set 3\nn bit_set 11\nrepeat: 3\nm bit_set 11\nend\nn load\nend\nthread\nend\nthread\nn load\nend\n",
    )
}

/// A workload of version 2 is its own second form, also where equal lines or blocks follow one another.
#[test]
fn blocks_stay_as_they_are(rt: HostRuntime) -> Result<(), Fail> {
    let text =
        "work 2\ntarget full64\nobject n u8 0\nthread\nrepeat: 2\nn load\nend\nrepeat: 2\nn load\nend\nn load\nn load\nrepeat: 1\nn add_fetch 1\nend\nrepeat: 4294967295\nend\nend\n";
    assert_second(&rt, rt.alloc(), text, text)
}
