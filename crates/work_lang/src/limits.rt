//! The limits of a workload.

ghost use Rattle.std.specs.Prelude.{◌≡◌};
ghost use Rattle.work_lang.specs.Limits.{limits_of};

/// Bytes of a text.
pub const MOST_BYTES: usize = 8_388_608;

/// Threads of a workload.
pub const MOST_THREADS: usize = 64;

/// How much a workload of a version of the language may have.
#[derive(Clone, Copy, Debug, PartialEq, Eq)]
pub struct Limits {
    /// Objects.
    pub objects: u32,
    /// Call lines of a thread; a line in a block counts once.
    pub lines: u32,
    /// Call lines of all threads together.
    pub lines_in_all: u32,
    /// Calls of a thread; a line in a block counts as often as the block is made.
    pub calls: u32,
    /// Calls of all threads together.
    pub calls_in_all: u32,
}

/// The limits of version 1, where each call has a line of its own.
const FIRST: Limits = Limits {
    objects: 1024,
    lines: 65_536,
    lines_in_all: 1_000_000,
    calls: 65_536,
    calls_in_all: 1_000_000,
};

/// The limits of version 2, where a block makes its lines many times over.
const SECOND: Limits = Limits {
    objects: 4096,
    lines: 65_536,
    lines_in_all: 1_000_000,
    calls: 1_000_000,
    calls_in_all: 4_000_000,
};

/// The limits of a version.
pub fn limits_of(version: u32) -> Limits
    ensures { result ≡ limits_of version }
{
    if version == 1 { FIRST } else { SECOND }
}
