//! The second version of the language, through the top call. What is wanted was worked out from the tables of operations,
//! places of faults and layout.

use super::{assert_has, called};
use crate::status::Status;
use std::test::Fail;

const COUNTS: &str = "work 2
target full64
object n u8 0
thread
repeat: 300
n fetch_add 1
end
n load
end
";

/// 300 additions, of which 256 bring an u8 back to its start.
#[test]
fn a_block_is_made_many_times(rt: HostRuntime) -> Result<(), Fail> {
    let ended = called(&rt, rt.alloc(), "run", COUNTS, &[])?;
    assert_eq!(rt; ended.status, Status::Done);
    let calls = ended.text.lines().filter(|line| line.contains(" = "));
    assert_eq!(rt; calls.count(), 301);
    assert!(rt; ended.text.ends_with("n load = 44\nlast\nn 44 fixed\n"));
    Ok(())
}

/// Of each text with a fault its line.
#[test]
fn each_version_has_its_faults(rt: HostRuntime) -> Result<(), Fail> {
    let head = "object n u8 0\nthread\n";
    for (version, target, rest, fault) in [
        (
            "1",
            "full64",
            "repeat: 300\n",
            "line 5 word 1 UnknownName\n",
        ),
        (
            "1",
            "full64",
            "n add_fetch 1\n",
            "line 5 word 2 UnknownWord\n",
        ),
        ("2", "full64", "repeat: 0\n", "line 5 word 2 OutOfRange\n"),
        (
            "2",
            "full64",
            "repeat: 1000001\nn load\n",
            "line 6 word 1 Limit\n",
        ),
        (
            "2",
            "full64",
            "repeat: 300\nrepeat: 2\n",
            "line 6 word 1 UnknownWord\n",
        ),
        (
            "2",
            "full64",
            "repeat: 300\nn load\nend\n",
            "line 7 word 0 Unclosed\n",
        ),
        ("3", "full64", "", "line 1 word 2 Version\n"),
        (
            "1",
            "32 apart none 67 locks big",
            "",
            "line 2 word 7 Extra\n",
        ),
        (
            "2",
            "32 apart none 67 locks big",
            "",
            "line 2 word 7 BadTarget\n",
        ),
        ("2", "word64 big", "", "line 2 word 2 BadTarget\n"),
    ] {
        let text = format!(in rt.alloc(); "work {version}\ntarget {target}\n{head}{rest}")?;
        let ended = called(&rt, rt.alloc(), "check", &text, &[])?;
        assert_eq!(rt; ended.text.as_str(), fault, "{text}");
        assert_eq!(rt; ended.status, Status::Refused);
    }
    Ok(())
}

const TWO_LOADS: &str = "work 2
target full64
object n u8 0
thread
repeat: 2
n load
end
n fetch_add 1
end
";

/// A text of each version, and what is written itself, which stays as it is.
#[test]
fn converts_to_the_second_version(rt: HostRuntime) -> Result<(), Fail> {
    let loads =
        "work 1\ntarget full64\nobject n u8 0\nthread\nn load\nn load seq_cst\nn fetch_add 1\nend";
    for (text, wanted) in [
        (loads, TWO_LOADS),
        (TWO_LOADS, TWO_LOADS),
        (COUNTS, COUNTS),
        (
            "work 1\ntarget cas32\nthread\nend\n",
            "work 2\ntarget cas32\nthread\nend\n",
        ),
    ] {
        let ended = called(&rt, rt.alloc(), "convert", text, &[])?;
        assert_eq!(rt; ended.status, Status::Done);
        assert_eq!(rt; ended.text.as_str(), wanted);
        assert_eq!(rt; ended.left, 0);
    }
    let stopped = called(&rt, rt.alloc(), "convert", loads, &[2])?;
    assert_eq!(rt; stopped.status, Status::WriteFault);
    assert_eq!(rt; stopped.text.as_str(), "work 2\n");
    let refused = called(&rt, rt.alloc(), "convert", "work 1\n", &[])?;
    assert_eq!(rt; refused.status, Status::Refused);
    assert_eq!(rt; refused.text.as_str(), "line 1 word 0 Missing\n");
    Ok(())
}

/// One call on one object, on a target.
#[test]
fn new_values_are_answered(rt: HostRuntime) -> Result<(), Fail> {
    let greatest = "u128 340282366920938463463374607431768211455";
    for (target, object, call, reply, last) in [
        ("word64", "u8 250", "add_fetch 10", "4", "4 fixed"),
        ("full64", "u8 12", "nand_fetch 10", "247", "247"),
        (
            "full64",
            "bool true",
            "xor_fetch true",
            "false",
            "false fixed",
        ),
        ("word32", greatest, "add_fetch 1", "0", "0 fixed"),
        ("cas32", "i16 -32768", "sub_fetch 1", "32767", "32767 fixed"),
        ("section32", "u8 12", "or_fetch 3", "15", "15 fixed"),
        ("word32", "u16 12", "and_fetch 10", "8", "8 fixed"),
    ] {
        let text = format!(in rt.alloc();
            "work 2\ntarget {target}\nobject n {object}\nthread\nn {call}\nend\n"
        )?;
        let wanted = format!(in rt.alloc();
            "target {target}\nthread 1\nn {call} = {reply}\nlast\nn {last}\n"
        )?;
        let ended = called(&rt, rt.alloc(), "run", &text, &[])?;
        assert_eq!(rt; ended.status, Status::Done);
        assert_eq!(rt; ended.text.as_str(), wanted.as_str());
    }
    Ok(())
}

const OTHER_END: &str = "work 2
target 64 packed swap+add+bits+order 67 locks big
object a u8 250
object b u8 7
thread
a fetch_add 10
end
";

/// The object of the lowest address is at the top of its word, so that one word operation adds to it.
#[test]
fn the_first_lane_may_be_at_the_top(rt: HostRuntime) -> Result<(), Fail> {
    let ended = called(&rt, rt.alloc(), "run", OTHER_END, &[])?;
    assert_eq!(rt; ended.status, Status::Done);
    assert_eq!(rt;
        ended.text.as_str(),
        "target 64 packed swap+add+bits+order 67 locks big\nthread 1\na fetch_add 10 = 250\nlast\na 4 fixed\nb 7 fixed\n"
    );
    let plan = called(&rt, rt.alloc(), "plan", OTHER_END, &[])?;
    assert_has(
        &rt,
        &plan.text,
        "a u8 address 0 word 0 shift 56 lock_free true
a fetch_add one
b u8 address 1 word 0 shift 48 lock_free true
b fetch_add loop",
    );
    Ok(())
}
