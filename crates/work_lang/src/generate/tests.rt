//! A generated workload as text. Its calls were worked out from words of PCG64, apart from this program.

use super::{make_many, many_fits};
use crate::canonical::print_work;
use crate::memory::MemSink;
use std::process::Abort;
use std::test::*;

const SEVEN: &str = "work 1
target word32
object n8 u8 0
object n16 i16 0
object m32 u32 0
object s32 i32 0
object x64 u64 0
object o8 u8 0
object a16 u16 65535
object w128 u128 0
thread
w128 fetch_add 1168972424838401
o8 fetch_or 73
x64 fetch_xor 2078927308749881402
n16 fetch_sub -1410
end
thread
m32 fetch_max 67657416
w128 fetch_add 1364750251485699933
w128 fetch_add 206523324010842285
m32 fetch_max 118115756
end
";

#[test]
fn words_are_drawn_thread_by_thread(rt: HostRuntime) -> Result<(), Fail> {
    assert!(rt; many_fits(2, 4));
    let work = make_many(rt.alloc(), 7, 2, 4)?;
    let mut sink = MemSink::of(rt.alloc(), 4096, 4096, &[])?;
    assert_eq!(rt; print_work(&work, &mut sink), Ok(()));
    assert_eq!(rt; str::from_utf8(sink.bytes())?, SEVEN);
    Ok(())
}

#[test]
fn generated_workloads_have_limits(rt: HostRuntime) {
    for (threads, calls, fits) in [
        (0, 0, false),
        (1, 0, true),
        (64, 0, true),
        (65, 0, false),
        (1, 65_536, true),
        (1, 65_537, false),
        (64, 15_625, true),
        (64, 15_626, false),
        (u32::MAX, u32::MAX, false),
    ] {
        assert_eq!(rt; many_fits(threads, calls), fits, "{threads} {calls}");
    }
}
