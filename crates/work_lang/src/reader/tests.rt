//! The place of each fault, and texts that are read as the same workload. What is expected stands in the tables.

use crate::fault::{Cause, WorkFault};
use crate::reader::read_work;
use crate::work::Work;
use op_table::{Call, Order};
use std::alloc::Global;
use std::process::Abort;
use std::test::Fail;

/// Each row has a line, and the word and the cause of its fault where it is line `number`, after a text without faults.
fn assert_places(
    rt: &impl Abort,
    alloc: Global,
    before: &str,
    number: u32,
    rows: &str,
) -> Result<(), Fail> {
    for row in rows.lines() {
        let (line, place) = row.split_once(" => ").ok_or("a row without a place")?;
        let text = format!(in alloc; "{before}{line}")?;
        let told = match read_work(alloc, text.as_bytes()) {
            Ok(_) => format!(in alloc; "a workload")?,
            Err(fault) => format!(in alloc; "{fault}")?,
        };
        let expected = format!(in alloc; "line {number} word {place}")?;
        assert_eq!(rt; told.as_str(), expected.as_str(), "the line {line:?}");
    }
    Ok(())
}

const HEAD: &str = "work 1\ntarget full64\n";

const OBJECT: &str = "work 1\ntarget full64\nobject n u64 5\n";

const THREAD: &str = "work 1\ntarget full64\nobject n u64 5\nthread\n";

#[test]
fn the_head_has_its_places(rt: HostRuntime) -> Result<(), Fail> {
    let version = "work => 2 Missing
works 1 => 1 Version
target full64 => 1 Version
Work => 1 Version
work 3 => 2 Version
work 01 => 2 Version
work 3 x => 2 Version
work 1 1 => 3 Extra
work 2 2 => 3 Extra
work 2 => 0 Missing";
    assert_places(&rt, rt.alloc(), "", 1, version)?;
    let target = "work 1 => 1 UnknownWord
thread => 1 UnknownWord
target => 2 Missing
target full => 2 BadTarget
target 64 => 2 BadTarget
target full64 x => 2 BadTarget
target word64 big => 2 BadTarget";
    assert_places(&rt, rt.alloc(), "work 1\n", 2, target)
}

/// All descriptions but the last one have a fault.
fn assert_descriptions(
    rt: &impl Abort,
    alloc: Global,
    before: &str,
    rows: &str,
) -> Result<(), Fail> {
    let (refused, read) = rows.rsplit_once("\n").ok_or("one row")?;
    assert_places(rt, alloc, before, 2, refused)?;
    let (line, _) = read.split_once(" => ").ok_or("a row without a place")?;
    let before = format!(in alloc; "{before}{line}\nthread\n")?;
    assert_places(rt, alloc, &before, 3, " => 0 Unclosed")
}

#[test]
fn descriptions_have_their_places(rt: HostRuntime) -> Result<(), Fail> {
    let rows = "target 65 packed => 2 BadTarget
target 064 packed none 1 locks => 2 BadTarget
target 64 pack => 3 BadTarget
target 64 packed => 4 Missing
target 64 packed x => 4 BadTarget
target 64 packed add+swap => 4 BadTarget
target 64 packed swap+swap => 4 BadTarget
target 64 packed none+add => 4 BadTarget
target 64 packed swap+add => 5 Missing
target 64 packed none 0 => 5 BadTarget
target 64 packed none 68 locks => 5 BadTarget
target 64 packed none 007 locks => 5 BadTarget
target 64 packed none 1 => 6 Missing
target 64 packed none 1 lock => 6 BadTarget
target 64 packed none 1 section => 6 BadTarget
target 32 apart none 2 section => 6 BadTarget
target 32 apart add 1 section x => 6 BadTarget
target 32 apart none 1 section x => 7 Extra
target 64 packed none 67 locks big => 7 Extra
target 32 apart none 67 locks big => 7 Extra
target 64  packed   order 67 locks => 0 Unclosed";
    assert_descriptions(&rt, rt.alloc(), "work 1\n", rows)?;
    let second = "target 32 apart none 67 locks big => 7 BadTarget
target 32 apart none 67 locks big x => 7 BadTarget
target 64 packed none 67 locks huge => 7 Extra
target 64 packed none 67 locks big x => 8 Extra
target 64 packed none 67 big => 6 BadTarget
target word64 big => 2 BadTarget
target 64 packed  swap+add 67 locks  big => 0 Unclosed";
    assert_descriptions(&rt, rt.alloc(), "work 2\n", second)
}

#[test]
fn objects_have_their_places(rt: HostRuntime) -> Result<(), Fail> {
    let rows = "target full64 => 1 UnknownWord
end => 1 UnknownWord
n load => 1 UnknownWord
object => 2 Missing
object abcdefghijklmnopq u64 0 => 2 UnknownWord
object end u64 0 => 2 UnknownWord
object A u64 0 => 2 UnknownWord
object 1a u64 0 => 2 UnknownWord
object A => 2 UnknownWord
object n => 2 Twice
object n u8 x => 2 Twice
object m => 3 Missing
object m u1 => 3 UnknownWord
object m U64 0 => 3 UnknownWord
object m i256 0 => 3 UnknownWord
object m u64 => 4 Missing
object m u64 12x => 4 BadNumber
object m u64 0 0 => 5 Extra
thread 1 => 2 Extra";
    assert_places(&rt, rt.alloc(), OBJECT, 4, rows)
}

#[test]
fn numbers_have_one_text(rt: HostRuntime) -> Result<(), Fail> {
    let rows = "object m u64 -0 => 4 BadNumber
object m u64 007 => 4 BadNumber
object m u64 +1 => 4 BadNumber
object m i8 - => 4 BadNumber
object m i8 -01 => 4 BadNumber
object m u64 18446744073709551616 => 4 OutOfRange
object m usize 18446744073709551616 => 4 OutOfRange
object m u128 340282366920938463463374607431768211456 => 4 OutOfRange
object m u128 1000000000000000000000000000000000000000 => 4 OutOfRange
object m i128 170141183460469231731687303715884105728 => 4 OutOfRange
object m i8 128 => 4 OutOfRange
object m i8 -129 => 4 OutOfRange
object m isize -9223372036854775809 => 4 OutOfRange
object m u64 -1 x => 4 OutOfRange
object m bool 1 => 4 BadNumber
object m bool True => 4 BadNumber
object m ptr 0 => 4 BadNumber
object m ptr 0X1 => 4 BadNumber
object m ptr 0xA => 4 BadNumber
object m ptr 0x01 => 4 BadNumber
object m ptr 0x => 4 BadNumber
object m ptr 0x10000000000000000 => 4 OutOfRange";
    assert_places(&rt, rt.alloc(), OBJECT, 4, rows)
}

#[test]
fn long_numbers_are_out_of_range(rt: HostRuntime) -> Result<(), Fail> {
    let mut row = String::from_str(rt.alloc(), "object m u128 1")?;
    for _ in 0..99_999 {
        row.push_str("0")?;
    }
    row.push_str(" => 4 OutOfRange")?;
    assert_places(&rt, rt.alloc(), OBJECT, 4, &row)
}

#[test]
fn calls_have_their_places(rt: HostRuntime) -> Result<(), Fail> {
    let rows = "end x => 2 Extra
m load => 1 UnknownName
thread => 1 UnknownName
abcdefghijklmnopq load => 1 UnknownName
n => 2 Missing
n nosuch 1 => 2 UnknownWord
n Load => 2 UnknownWord
n fetch => 2 UnknownWord
n compare_exchange_strong 1 2 => 2 UnknownWord
n store => 3 Missing
n fetch_add => 3 Missing
n compare_exchange => 3 Missing
n compare_exchange 3 => 4 Missing
n compare_exchange 3 x => 4 BadNumber
n compare_exchange x y => 3 BadNumber
n compare_exchange_weak 3 -1 => 4 OutOfRange
n fetch_add 1x => 3 BadNumber
n fetch_add 18446744073709551616 => 3 OutOfRange
n fetch_add -1 => 3 OutOfRange
n fetch_add seq_cst => 3 BadNumber
n bit_set => 3 Missing
n bit_set x => 3 BadNumber
n bit_set 4294967296 => 3 OutOfRange
n bit_clear -1 => 3 OutOfRange
n load 1 => 3 Extra
n fetch_not 5 => 3 Extra
n neg 5 => 3 Extra";
    assert_places(&rt, rt.alloc(), THREAD, 5, rows)
}

const CLASSES: &str =
    "work 1\ntarget full64\nobject n i8 0\nobject f bool false\nobject p ptr 0x0\nthread\n";

#[test]
fn classes_have_their_words(rt: HostRuntime) -> Result<(), Fail> {
    let rows = "f fetch_add 1 => 2 NotForKind
f neg => 2 NotForKind
f fetch_max true => 2 NotForKind
f bit_set 0 => 2 NotForKind
f fetch_byte_add 0x1 => 2 NotForKind
n fetch_byte_add 1 => 2 NotForKind
n fetch_byte_sub x => 2 NotForKind
p add 0x1 => 2 NotForKind
p fetch_add 0x1 => 2 NotForKind
p and 0x1 => 2 NotForKind
p not => 2 NotForKind
p fetch_nand 0x1 => 2 NotForKind
p fetch_min => 2 NotForKind
p nosuch => 2 UnknownWord
p fetch_byte_add 1 => 3 BadNumber
f store 1 => 3 BadNumber
n store -129 => 3 OutOfRange";
    assert_places(&rt, rt.alloc(), CLASSES, 7, rows)
}

#[test]
fn orders_have_their_places(rt: HostRuntime) -> Result<(), Fail> {
    let rows = "n load release => 3 BadOrder
n load acq_rel => 3 BadOrder
n store 1 acquire => 4 BadOrder
n store 1 acq_rel => 4 BadOrder
n load consume => 3 Extra
n load release x => 3 BadOrder
n load seq_cst x => 4 Extra
n load seq_cst seq_cst => 4 Extra
n fetch_add 1 relaxd => 4 Extra
n fetch_add 1 seq_cst seq_cst => 5 Extra
n compare_exchange 3 4 x => 5 Extra
n compare_exchange 3 4 relaxed => 6 Missing
n compare_exchange_weak 3 4 seq_cst => 6 Missing
n compare_exchange 3 4 relaxed x => 6 Extra
n compare_exchange 3 4 seq_cst release => 6 BadOrder
n compare_exchange_weak 3 4 relaxed acq_rel => 6 BadOrder
n compare_exchange 3 4 relaxed relaxed relaxed => 7 Extra";
    assert_places(&rt, rt.alloc(), THREAD, 5, rows)
}

/// The thread isn't closed, so a line that is read leaves that fault.
#[test]
fn orders_are_accepted(rt: HostRuntime) -> Result<(), Fail> {
    let rows = "n load relaxed => 0 Unclosed
n load acquire => 0 Unclosed
n load seq_cst => 0 Unclosed
n store 1 relaxed => 0 Unclosed
n store 1 release => 0 Unclosed
n store 1 seq_cst => 0 Unclosed
n swap 1 relaxed => 0 Unclosed
n swap 1 acquire => 0 Unclosed
n swap 1 release => 0 Unclosed
n swap 1 acq_rel => 0 Unclosed
n swap 1 seq_cst => 0 Unclosed
n bit_set 4294967295 acq_rel => 0 Unclosed
n neg release => 0 Unclosed";
    assert_places(&rt, rt.alloc(), THREAD, 5, rows)?;
    for call in ["compare_exchange", "compare_exchange_weak"] {
        for success in ["relaxed", "acquire", "release", "acq_rel", "seq_cst"] {
            let rows = format!(in rt.alloc();
                "n {call} 3 4 {success} relaxed => 0 Unclosed
n {call} 3 4 {success} acquire => 0 Unclosed
n {call} 3 4 {success} seq_cst => 0 Unclosed"
            )?;
            assert_places(&rt, rt.alloc(), THREAD, 5, &rows)?;
        }
    }
    Ok(())
}

const SECOND: &str = "work 2\ntarget full64\nobject n u8 0\nthread\n";

/// A block is opened only in a thread of version 2, and not in another block.
#[test]
fn blocks_have_their_places(rt: HostRuntime) -> Result<(), Fail> {
    let alloc = rt.alloc();
    let rows = "repeat: => 2 Missing
repeat: x => 2 BadNumber
repeat: 02 => 2 BadNumber
repeat: -1 => 2 OutOfRange
repeat: 4294967296 => 2 OutOfRange
repeat: 0 => 2 OutOfRange
repeat: 0 x => 2 OutOfRange
repeat: 2 x => 3 Extra
repeat:2 => 1 UnknownName
repeat 2 => 1 UnknownName
repeat: 2 => 0 Unclosed";
    assert_places(&rt, alloc, SECOND, 5, rows)?;
    let nested = "repeat: => 1 UnknownWord
repeat: x => 1 UnknownWord
repeat: 2 => 1 UnknownWord
thread => 1 UnknownName
m load => 1 UnknownName
end x => 2 Extra
end => 0 Unclosed";
    let before = format!(in alloc; "{SECOND}repeat: 300\n")?;
    assert_places(&rt, alloc, &before, 6, nested)?;
    let outside = "repeat: 2 => 1 UnknownWord
repeat: => 1 UnknownWord";
    assert_places(&rt, alloc, "work 2\ntarget full64\n", 3, outside)?;
    assert_places(&rt, alloc, HEAD, 3, outside)?;
    let between = format!(in alloc; "{SECOND}end\n")?;
    assert_places(&rt, alloc, &between, 6, outside)?;
    let first = "repeat: 300 => 1 UnknownName
repeat: => 1 UnknownName";
    assert_places(&rt, alloc, THREAD, 5, first)
}

/// The calls that answer the new value.
#[test]
fn later_words_are_of_version_2(rt: HostRuntime) -> Result<(), Fail> {
    for word in [
        "add_fetch",
        "sub_fetch",
        "and_fetch",
        "nand_fetch",
        "or_fetch",
        "xor_fetch",
    ] {
        let first = format!(in rt.alloc();
            "n {word} 1 => 2 UnknownWord\nn {word} => 2 UnknownWord"
        )?;
        assert_places(&rt, rt.alloc(), THREAD, 5, &first)?;
        let second = format!(in rt.alloc();
            "n {word} => 3 Missing
n {word} 256 => 3 OutOfRange
n {word} 1 1 => 4 Extra
n {word} 1 acq_rel x => 5 Extra
n {word} 1 acq_rel => 0 Unclosed"
        )?;
        assert_places(&rt, rt.alloc(), SECOND, 5, &second)?;
    }
    let classes = "work 2\ntarget full64\nobject f bool false\nobject p ptr 0x0\nthread\n";
    let rows = "f add_fetch true => 2 NotForKind
f sub_fetch true => 2 NotForKind
f nand_fetch true => 0 Unclosed
f xor_fetch 1 => 3 BadNumber
p and_fetch 0x1 => 2 NotForKind
p add_fetch 0x1 => 2 NotForKind";
    assert_places(&rt, rt.alloc(), classes, 6, rows)
}

/// 300 calls of a block, and one call.
#[test]
fn blocks_are_pieces(rt: HostRuntime) -> Result<(), Fail> {
    let text = format!(in rt.alloc();
        "{SECOND}repeat: 300\nn fetch_add 1\nend\nn load\nrepeat: 4294967295\nend\nend\n"
    )?;
    let work = read_work(rt.alloc(), text.as_bytes())?;
    assert_eq!(rt; work.version(), 2);
    let script = work.threads().first().ok_or("no script")?;
    assert_eq!(rt; script.pieces(), 3);
    assert_eq!(rt; script.len(), 301);
    for (number, call) in [
        (0, Call::Add(1, false)),
        (299, Call::Add(1, false)),
        (300, Call::Load),
    ] {
        if number < script.len() {
            assert_eq!(rt; script.at(number).call, call, "call {number}");
        }
    }
    Ok(())
}

#[test]
fn threads_follow_threads(rt: HostRuntime) -> Result<(), Fail> {
    let rows = "object m u64 5 => 1 UnknownWord
object => 1 UnknownWord
n load => 1 UnknownWord
end => 1 UnknownWord
thread x => 2 Extra
thread => 0 Unclosed";
    let before = format!(in rt.alloc(); "{THREAD}end\n")?;
    assert_places(&rt, rt.alloc(), &before, 6, rows)
}

#[test]
fn two_threads_keep_their_calls(rt: HostRuntime) -> Result<(), Fail> {
    let text = format!(in rt.alloc(); "{THREAD}n store 7\nn load\nend\n\nthread\nn load\nend\n")?;
    let work = read_work(rt.alloc(), text.as_bytes())?;
    assert_eq!(rt; work.threads().len(), 2);
    for (thread, calls, first) in [(0, 2, Call::Store(7)), (1, 1, Call::Load)] {
        let script = work.threads().get(thread).ok_or("no script")?;
        assert_eq!(rt; script.len(), calls, "calls of {thread}");
        if script.len() > 0 {
            assert_eq!(rt; script.at(0).call, first, "the first call of {thread}");
        }
    }
    Ok(())
}

#[test]
fn bytes_are_looked_at_first(rt: HostRuntime) -> Result<(), Fail> {
    let rows = "object n\tu64 5 => 0 NotAscii
object n u64 5\r => 0 NotAscii
# \u{7f} => 0 NotAscii
# \u{e9} => 0 NotAscii
\t => 0 NotAscii
nosuch word \t => 0 NotAscii
# ~ ! => 0 Unclosed";
    assert_places(
        &rt,
        rt.alloc(),
        "work 1\n# ~ !\ntarget full64\nthread\n",
        5,
        rows,
    )?;
    assert_places(
        &rt,
        rt.alloc(),
        "work 1\nnosuch\n",
        2,
        "\t => 1 UnknownWord",
    )
}

/// The texts end after so many lines.
#[test]
fn ends_have_their_places(rt: HostRuntime) -> Result<(), Fail> {
    let alloc = rt.alloc();
    let none = " => 0 Missing";
    assert_places(&rt, alloc, "", 0, none)?;
    assert_places(&rt, alloc, "\n", 1, none)?;
    assert_places(&rt, alloc, "  ", 1, none)?;
    assert_places(&rt, alloc, "# a\n\n", 2, none)?;
    assert_places(&rt, alloc, "work 1\n\n# a", 3, none)?;
    assert_places(&rt, alloc, THREAD, 4, " => 0 Unclosed")?;
    let passed_over = format!(in alloc; "{THREAD}# end\n\n")?;
    assert_places(&rt, alloc, &passed_over, 6, " => 0 Unclosed")
}

#[test]
fn bytes_have_a_limit(rt: HostRuntime) -> Result<(), Fail> {
    let mut text = vec![in rt.alloc(); b' '; 8_388_608]?;
    let longest = read_work(rt.alloc(), &text).err();
    assert_eq!(rt;
        longest,
        Some(WorkFault::Text {
            line: 1,
            word: 0,
            cause: Cause::Missing
        })
    );
    text.push(b'\n')?;
    let longer = read_work(rt.alloc(), &text).err();
    assert_eq!(rt;
        longer,
        Some(WorkFault::Text {
            line: 0,
            word: 0,
            cause: Cause::TooLong
        })
    );
    Ok(())
}

#[test]
fn objects_have_a_limit(rt: HostRuntime) -> Result<(), Fail> {
    for (version, most) in [(1, 1024), (2, 4096)] {
        let mut text = format!(in rt.alloc(); "work {version}\ntarget full64\n")?;
        for number in 0..most {
            text.push_str(&format!(in rt.alloc(); "object o{number} u64 {number}\n")?)?;
        }
        assert!(rt; read_work(rt.alloc(), text.as_bytes()).is_ok());
        let rows = "object m u64 0 => 1 Limit
object => 1 Limit
thread 1 => 2 Extra";
        assert_places(&rt, rt.alloc(), &text, most + 3, rows)?;
    }
    Ok(())
}

/// The calls of a thread are 1,000,000 at most, and the limit is looked at in a call line: an empty block has none.
#[test]
fn calls_of_blocks_have_a_limit(rt: HostRuntime) -> Result<(), Fail> {
    let alloc = rt.alloc();
    let past = "n load => 1 Limit
n nosuch => 1 Limit
m load => 1 UnknownName
end => 0 Unclosed";
    let too_often = format!(in alloc; "{SECOND}repeat: 1000001\n")?;
    assert_places(&rt, alloc, &too_often, 6, past)?;
    let most_often = format!(in alloc; "{SECOND}repeat: 4294967295\n")?;
    assert_places(&rt, alloc, &most_often, 6, past)?;
    let full = format!(in alloc; "{SECOND}repeat: 1000000\nn load\n")?;
    assert_places(&rt, alloc, &full, 7, past)?;
    let halves = format!(in alloc; "{SECOND}repeat: 500000\nn load\nn load\nend\n")?;
    let closed = "n load => 1 Limit
n nosuch => 1 Limit
m load => 1 UnknownName
end x => 2 Extra";
    assert_places(&rt, alloc, &halves, 9, closed)?;
    let one_left = format!(in alloc;
        "{SECOND}repeat: 333333\nn load\nn load\nn load\nend\nrepeat: 1\n"
    )?;
    assert_places(&rt, alloc, &one_left, 11, "n load => 0 Unclosed")?;
    let empty = format!(in alloc; "{SECOND}repeat: 4294967295\nend\nrepeat: 4294967295\nend\n")?;
    assert_places(&rt, alloc, &empty, 9, "n load => 0 Unclosed")
}

/// Four threads of 1,000,000 calls, and one more thread.
#[test]
fn calls_of_all_blocks_have_a_limit(rt: HostRuntime) -> Result<(), Fail> {
    let mut text = String::from_str(rt.alloc(), "work 2\ntarget full64\nobject n u8 0\n")?;
    for _ in 0..4 {
        text.push_str("thread\nrepeat: 1000000\nn load\nend\nend\n")?;
    }
    text.push_str("thread\n")?;
    assert_places(&rt, rt.alloc(), &text, 25, "n load => 1 Limit")
}

/// In version 2 the call lines of a thread have the limit that its calls have in version 1.
#[test]
fn call_lines_have_a_limit(rt: HostRuntime) -> Result<(), Fail> {
    for before in [THREAD, SECOND] {
        let mut text = String::from_str(rt.alloc(), before)?;
        for _ in 0..65_536 {
            text.push_str("n load\n")?;
        }
        let rows = "n load => 1 Limit
n nosuch => 1 Limit
m load => 1 UnknownName
end x => 2 Extra";
        assert_places(&rt, rt.alloc(), &text, 65_541, rows)?;
        text.push_str("end")?;
        assert!(rt; read_work(rt.alloc(), text.as_bytes()).is_ok());
    }
    Ok(())
}

#[test]
fn threads_have_a_limit(rt: HostRuntime) -> Result<(), Fail> {
    let mut text = String::from_str(rt.alloc(), HEAD)?;
    for _ in 0..64 {
        text.push_str("thread\nend\n")?;
    }
    let work = read_work(rt.alloc(), text.as_bytes())?;
    assert_eq!(rt; work.threads().len(), 64);
    let rows = "thread => 1 Limit
thread x => 1 Limit
object m u64 5 => 1 UnknownWord";
    assert_places(&rt, rt.alloc(), &text, 131, rows)
}

/// 16 threads of 62,500 calls, and one more thread.
#[test]
fn calls_of_all_threads_have_a_limit(rt: HostRuntime) -> Result<(), Fail> {
    let mut calls = String::from_str(rt.alloc(), "thread\n")?;
    for _ in 0..62_500 {
        calls.push_str("n load\n")?;
    }
    calls.push_str("end\n")?;
    let mut text = String::from_str(rt.alloc(), "work 1\ntarget full64\nobject n u64 5\n")?;
    for _ in 0..16 {
        text.push_str(&calls)?;
    }
    text.push_str("thread\n")?;
    assert_places(&rt, rt.alloc(), &text, 1_000_037, "n load => 1 Limit")
}

/// The workload of the texts below.
fn assert_sample(rt: &impl Abort, work: &Work, text: &str) -> Result<(), Fail> {
    assert_eq!(rt; work.objects().len(), 2, "objects of {text:?}");
    for (object, name, start) in [
        (0, "n", 5),
        (1, "abcdefghij_12345", 18_446_744_073_709_551_615),
    ] {
        let object = work.objects().get(object).ok_or("no object")?;
        assert_eq!(rt; object.name.bytes(), name.as_bytes(), "a name of {text:?}");
        assert_eq!(rt; object.start, start, "a start of {text:?}");
        assert_eq!(rt;
            op_table::bits(object.kind.width),
            64,
            "a width of {text:?}"
        );
    }
    assert_eq!(rt; work.threads().len(), 1, "threads of {text:?}");
    let script = work.threads().first().ok_or("no script")?;
    assert_eq!(rt; script.len(), 2, "lines of {text:?}");
    for (number, object, call) in [(0, 1, Call::Add(7, false)), (1, 0, Call::Load)] {
        if number < script.len() {
            let line = script.at(number);
            assert_eq!(rt; line.object, object, "an object of a line of {text:?}");
            assert_eq!(rt; line.call, call, "a call of {text:?}");
            assert_eq!(rt; line.success, Order::SeqCst, "an order of {text:?}");
            assert_eq!(rt; line.failure, None, "a second order of {text:?}");
        }
    }
    Ok(())
}

#[test]
fn spellings_are_read_alike(rt: HostRuntime) -> Result<(), Fail> {
    let objects = "object n u64 5\nobject abcdefghij_12345 u64 18446744073709551615\n";
    let calls = "thread\nabcdefghij_12345 fetch_add 7\nn load\nend";
    let alloc = rt.alloc();
    for text in [
        format!(in alloc; "work 1\ntarget full64\n{objects}{calls}\n")?,
        format!(in alloc; "work 1\ntarget full64\n{objects}{calls}")?,
        format!(in alloc;
            "\n  work   1  \n#work 2\n target full64\n\n{objects}   # x\n{calls}\n\n#"
        )?,
        format!(in alloc;
            "work 1\ntarget full64\n{objects}thread\nabcdefghij_12345  fetch_add 7 seq_cst\n n  load seq_cst \nend\n"
        )?,
    ] {
        assert_sample(&rt, &read_work(alloc, text.as_bytes())?, &text)?;
    }
    Ok(())
}

#[test]
fn faults_are_told(rt: HostRuntime) -> Result<(), Fail> {
    let fault = WorkFault::Text {
        line: 12,
        word: 3,
        cause: Cause::UnknownWord,
    };
    let told = format!(in rt.alloc(); "{fault}")?;
    assert_eq!(rt; told.as_str(), "line 12 word 3 UnknownWord");
    Ok(())
}
