//! Sources and sinks over memory.

ghost use Rattle.std.specs.Prelude.{◌≡◌, ◌≤◌, length, take};
ghost use Rattle.work_lang.specs.Faults.{next_count};

use crate::meter::Meter;
use crate::stream::{Failed, Sink, Source};
use op_table::NoMemory;
use std::alloc::Global;
use std::marker::Model;

/// A source over bytes in memory, for tests and trials: it gives at most so many bytes a read, and fails at the
/// listed reads.
#[derive(Drop)]
pub struct MemSource {
    bytes: Vec<u8>,
    at: usize,
    most: usize,
    fails: Vec<u64>,
    reads: u64,
    faults: u64,
    meter: Meter,
}

impl Model for MemSource {
    ghost use Rattle.std.specs.Prelude.{◌≤◌, ◌<◌, drop, vec_len};
    ghost use Rattle.work_lang.specs.Faults.{last_count};
    ghost use Rattle.work_lang.specs.Memory.{Tape};

    ghost Value = { Tape };

    ghost view = { λ s. record { left = drop s.at s.bytes.items; most = s.most; fails = s.fails.items; reads = s.reads; faults = s.faults; meter = s.meter } };

    ghost invariant = { λ s. (s.at ≤ vec_len s.bytes) × (0 < s.most) × (s.faults ≤ last_count) };
}

impl MemSource {
    ghost use Rattle.std.specs.Prelude.{◌≡◌, ◌<◌, IfOk};
    ghost use Rattle.work_lang.specs.Counts.{new_meter};
    ghost use Rattle.work_lang.specs.Memory.{Tape};

    /// A source that has copied these bytes. A read gives at most `most` of them, and fails where its number, counted
    /// from 1 and standing still at 2^64 - 1, is listed. NoMemory where the copies find no memory.
    pub fn of(
        alloc: Global,
        bytes: &[u8],
        most: usize,
        fails: &[u64],
    ) -> Result<MemSource, NoMemory>
        requires { 0 < most }
        ensures { IfOk result (λ s. s ≡ record { left = bytes.now; most = most; fails = fails.now; reads = 0; faults = 0; meter = new_meter }) }
    {
        match (Vec::from_slice(alloc, bytes), Vec::from_slice(alloc, fails)) {
            (Ok(bytes), Ok(fails)) => Ok(MemSource {
                bytes,
                at: 0,
                most,
                fails,
                reads: 0,
                faults: 0,
                meter: Meter::new(),
            }),
            _ => Err(NoMemory),
        }
    }
}

/// Counts a fault.
fn failed(faults: &mut u64) -> Failed
    ensures { faults.new ≡ next_count faults.old }
{
    *faults = faults.saturating_add(1);
    Failed
}

/// Copies the first `count` bytes.
fn copy_front(from: &[u8], to: &mut [u8], count: usize)
    requires from { count ≤ length from.now }
    requires to { count ≤ length to.old }
    ensures { take count to.new ≡ take count from.now }
{
    to[..count].copy_from_slice(&from[..count]);
}

impl Source for MemSource {
    ghost use Rattle.std.specs.Prelude.{◌≡◌, ◌≤◌, length, is_err, IfOk, Some};
    ghost use Rattle.std.specs.Io.{ReadsAtMost};
    ghost use Rattle.std.specs.Io.KnownBytes.{ReadConsumes};
    ghost use Rattle.work_lang.specs.Faults.{last_count, HasCause};
    ghost use Rattle.work_lang.specs.Counts.{meter_after};
    ghost use Rattle.work_lang.specs.Memory.{given, read_fails, after_read};

    ghost left = { λ s. Some s.left };

    ghost faults = { λ s. s.faults };

    ghost meter = { λ s. s.meter };

    fn read(&mut self, buffer: &mut [u8]) -> Result<usize, Failed>
        ensures bound { ReadsAtMost result buffer.new }
        ensures bytes { ReadConsumes (Some self.old.left) (Some self.new.left) result buffer.new }
        ensures cause { HasCause self.old.faults self.new.faults result }
        ensures counted { self.new.faults ≤ last_count }
        ensures metered { self.new.meter ≡ meter_after self.old.meter result (length buffer.new) }
        ensures exact { is_err result ≡ read_fails self.old }
        ensures count { IfOk result (λ n. n ≡ given self.old (length buffer.new)) }
        ensures after { self.new ≡ after_read self.old (length buffer.new) }
    {
        self.reads = self.reads.saturating_add(1);
        if self.fails.contains(&self.reads) {
            self.meter.stop();
            return Err(failed(&mut self.faults));
        }
        let count = self.most.min(buffer.len()).min(self.bytes.len() - self.at);
        let rest = &self.bytes[self.at..];
        copy_front(rest, buffer, count);
        self.at += count;
        self.meter.give(count, buffer.len());
        Ok(count)
    }
}

/// A source that lends its bytes, gives as many as the buffer has room for, and never fails. It takes no memory.
#[derive(Drop)]
pub struct SureSource<'a> {
    rest: &'a [u8],
    meter: Meter,
}

impl<'a> Model for SureSource<'a> {
    ghost use Rattle.work_lang.specs.Memory.{Lent};

    ghost Value = { Lent };

    ghost view = { λ s. record { left = s.rest.now; meter = s.meter } };
}

impl<'a> SureSource<'a> {
    ghost use Rattle.std.specs.Prelude.{◌≡◌};
    ghost use Rattle.work_lang.specs.Counts.{new_meter};

    /// A source of these bytes.
    pub fn of(bytes: &'a [u8]) -> SureSource<'a>
        ensures { result ≡ record { left = bytes.now; meter = new_meter } }
    {
        SureSource {
            rest: bytes,
            meter: Meter::new(),
        }
    }
}

impl Source for SureSource<'_> {
    ghost use Rattle.std.specs.Prelude.{◌≡◌, ◌≤◌, min, length, drop, Some, Ok};
    ghost use Rattle.std.specs.Io.{ReadsAtMost};
    ghost use Rattle.std.specs.Io.KnownBytes.{ReadConsumes};
    ghost use Rattle.work_lang.specs.Faults.{last_count, HasCause};
    ghost use Rattle.work_lang.specs.Counts.{after_bytes, meter_after};

    ghost left = { λ s. Some s.left };

    ghost faults = { λ s. 0 };

    ghost meter = { λ s. s.meter };

    fn read(&mut self, buffer: &mut [u8]) -> Result<usize, Failed>
        ensures bound { ReadsAtMost result buffer.new }
        ensures bytes { ReadConsumes (Some self.old.left) (Some self.new.left) result buffer.new }
        ensures cause { HasCause 0 0 result }
        ensures counted { 0 ≤ last_count }
        ensures metered { self.new.meter ≡ meter_after self.old.meter result (length buffer.new) }
        ensures count { result ≡ Ok (min (length buffer.new) (length self.old.left)) }
        ensures after { let count = min (length buffer.new) (length self.old.left) in self.new ≡ record { left = drop count self.old.left; meter = after_bytes self.old.meter count (length buffer.new) } }
    {
        let count = buffer.len().min(self.rest.len());
        copy_front(self.rest, buffer, count);
        self.rest = &self.rest[count..];
        self.meter.give(count, buffer.len());
        Ok(count)
    }
}

/// A sink over reserved memory, for tests and trials: it takes at most so many bytes a write, and fails at the listed
/// writes and where its room doesn't suffice.
#[derive(Drop)]
pub struct MemSink {
    bytes: Vec<u8>,
    room: usize,
    most: usize,
    fails: Vec<u64>,
    writes: u64,
    faults: u64,
}

impl Model for MemSink {
    ghost use Rattle.std.specs.Prelude.{◌+◌, ◌≤◌, ◌<◌, vec_len, vec_capacity};
    ghost use Rattle.work_lang.specs.Faults.{last_count};
    ghost use Rattle.work_lang.specs.Memory.{Page};

    ghost Value = { Page };

    ghost view = { λ s. record { taken = s.bytes.items; room = s.room; most = s.most; fails = s.fails.items; writes = s.writes; faults = s.faults } };

    ghost invariant = { λ s. (vec_len s.bytes + s.room ≤ vec_capacity s.bytes) × (0 < s.most) × (s.faults ≤ last_count) × (s.writes ≤ last_count) };
}

impl MemSink {
    ghost use Rattle.std.specs.Prelude.{◌≡◌, ◌<◌, [], IfOk};
    ghost use Rattle.work_lang.specs.Memory.{Page};

    /// A sink with room for so many bytes. A write asks for at most `most`, and fails where its number, counted from 1
    /// and standing still at 2^64 - 1, is listed, or less room is left. NoMemory where the room can't be reserved.
    pub fn of(alloc: Global, room: usize, most: usize, fails: &[u64]) -> Result<MemSink, NoMemory>
        requires { 0 < most }
        ensures { IfOk result (λ s. s ≡ record { taken = []; room = room; most = most; fails = fails.now; writes = 0; faults = 0 }) }
    {
        match (
            Vec::with_capacity(alloc, room),
            Vec::from_slice(alloc, fails),
        ) {
            (Ok(bytes), Ok(fails)) => Ok(MemSink {
                bytes,
                room,
                most,
                fails,
                writes: 0,
                faults: 0,
            }),
            _ => Err(NoMemory),
        }
    }

    /// The bytes that were taken, in order.
    pub fn bytes(&self) -> &[u8]
        ensures { result.now ≡ self.now.taken }
    {
        &self.bytes
    }
}

impl Sink for MemSink {
    ghost use Rattle.std.specs.Prelude.{◌≡◌, ◌<◌, ◌≤◌, true, length, is_err, IfOk, Some};
    ghost use Rattle.std.specs.Io.{WritesAtMost};
    ghost use Rattle.std.specs.Io.KnownBytes.{WriteAppends};
    ghost use Rattle.work_lang.specs.Faults.{last_count, HasCause};
    ghost use Rattle.work_lang.specs.Counts.{raised};
    ghost use Rattle.work_lang.specs.Memory.{takes_lines, asked_room, write_fails, after_write};

    ghost taken = { λ s. Some s.taken };

    ghost faults = { λ s. s.faults };

    ghost tries = { λ s. s.writes };

    ghost whole = { takes_lines };

    fn write(&mut self, piece: &[u8]) -> Result<usize, Failed>
        ensures bound { WritesAtMost result piece.now }
        ensures progress { IfOk result (λ n. 0 < length piece.now → 0 < n) }
        ensures bytes { WriteAppends (Some self.old.taken) (Some self.new.taken) result piece.now }
        ensures whole { takes_lines self.old ≡ true → length piece.now ≤ 256 → IfOk result (λ n. n ≡ length piece.now) }
        ensures kept { takes_lines self.new ≡ takes_lines self.old }
        ensures cause { HasCause self.old.faults self.new.faults result }
        ensures counted { self.new.faults ≤ last_count }
        ensures tried { self.new.writes ≡ raised self.old.writes 1 }
        ensures exact { is_err result ≡ write_fails self.old piece.now }
        ensures count { IfOk result (λ n. n ≡ asked_room self.old piece.now) }
        ensures after { self.new ≡ after_write self.old piece.now }
    {
        self.writes = self.writes.saturating_add(1);
        let count = self.most.min(piece.len());
        if self.fails.contains(&self.writes) {
            return Err(failed(&mut self.faults));
        }
        if self.room < count {
            return Err(failed(&mut self.faults));
        }
        match self.bytes.extend_from_slice(&piece[..count]) {
            Ok(()) => {
                self.room -= count;
                Ok(count)
            }
            Err(_) => unreachable!(),
        }
    }
}

/// A sink that takes every piece whole, tells no bytes and never fails. It takes no memory.
#[derive(Clone, Copy)]
pub struct SureSink {
    taken: u64,
    writes: u64,
}

impl Model for SureSink {
    ghost use Rattle.work_lang.specs.Memory.{Tally};

    ghost Value = { Tally };

    ghost view = { λ s. record { taken = s.taken; writes = s.writes } };

    ghost inverse = { λ t. record { taken = t.taken; writes = t.writes } };
}

impl SureSink {
    ghost use Rattle.std.specs.Prelude.{◌≡◌};

    /// A sink that has taken nothing.
    pub fn new() -> SureSink
        ensures { result ≡ record { taken = 0; writes = 0 } }
    {
        SureSink {
            taken: 0,
            writes: 0,
        }
    }

    /// How many bytes were taken. It stands still at 2^64 - 1.
    pub fn taken(&self) -> u64
        ensures { result ≡ self.now.taken }
    {
        self.taken
    }
}

impl Sink for SureSink {
    ghost use Rattle.std.specs.Prelude.{◌≡◌, ◌+◌, ◌<◌, ◌≤◌, min, true, length, IfOk, Ok, None};
    ghost use Rattle.std.specs.Io.{WritesAtMost};
    ghost use Rattle.std.specs.Io.KnownBytes.{WriteAppends};
    ghost use Rattle.work_lang.specs.Faults.{last_count, next_count, HasCause};
    ghost use Rattle.work_lang.specs.Counts.{raised};

    ghost taken = { λ s. None };

    ghost faults = { λ s. 0 };

    ghost tries = { λ s. s.writes };

    ghost whole = { λ s. true };

    fn write(&mut self, piece: &[u8]) -> Result<usize, Failed>
        ensures bound { WritesAtMost result piece.now }
        ensures progress { IfOk result (λ n. 0 < length piece.now → 0 < n) }
        ensures bytes { WriteAppends None None result piece.now }
        ensures whole { true ≡ true → length piece.now ≤ 256 → IfOk result (λ n. n ≡ length piece.now) }
        ensures kept { true ≡ true }
        ensures cause { HasCause 0 0 result }
        ensures counted { 0 ≤ last_count }
        ensures tried { self.new.writes ≡ raised self.old.writes 1 }
        ensures count { result ≡ Ok (length piece.now) }
        ensures after { self.new ≡ record { taken = min (self.old.taken + length piece.now) last_count; writes = next_count self.old.writes } }
    {
        self.taken = self.taken.saturating_add(piece.len() as u64);
        self.writes = self.writes.saturating_add(1);
        Ok(piece.len())
    }
}
