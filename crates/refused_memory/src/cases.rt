//! The cases: words of the program, each with what it reads.

/// What the program is asked, and what it reads.
#[derive(Clone, Copy)]
pub struct Case {
    pub name: &'static str,
    pub words: &'static [&'static str],
    pub text: &'static str,
}

/// One object and one thread; a plan with a lane and parts; a text to be spelled anew; threads that meet on a lane and on
/// parts; equal lines that become a block; and drawn calls, none and many.
pub const CASES: [Case; 7] = [
    Case {
        name: "run",
        words: &["run"],
        text: "work 1\ntarget full64\nobject n u64 0\nthread\nn fetch_add 5\nn load\nend\n",
    },
    Case {
        name: "plan",
        words: &["plan"],
        text: "work 1\ntarget cas32\nobject u u32 0\nobject g u64 0\n",
    },
    Case {
        name: "check",
        words: &["check"],
        text: "# demo\n\nwork 1\ntarget 64 packed swap+add+bits+order 67 locks\nobject  n usize 3\nthread\nn compare_exchange 3 4 seq_cst seq_cst\nn load acquire\nend\n",
    },
    Case {
        name: "threads",
        words: &["run"],
        text: "work 1\ntarget word32\nobject n u8 0\nobject w u128 0\nthread\nn add 1\nw add 1\nend\nthread\nn add 2\nw add 2\nend\nthread\nn add 3\nw add 3\nend\nthread\nn add 4\nw add 4\nend\n",
    },
    Case {
        name: "convert",
        words: &["convert"],
        text: "work 1\ntarget full64\nobject n u8 0\nthread\nn load\nn load seq_cst\nn fetch_add 1\nend\n",
    },
    Case {
        name: "none_drawn",
        words: &["many", "7", "1", "0"],
        text: "",
    },
    Case {
        name: "many_drawn",
        words: &["many", "7", "8", "10000"],
        text: "",
    },
];
