//! Where bytes come from and where they go.

ghost use Rattle.std.specs.Prelude.{◌≡◌, ◌≢◌, ℕ, ◌+◌, ◌<◌, ◌≤◌, min, Bool, true, List, [], ◌∷◌, ◌++◌, length, vec_len, vec_capacity, IfOk, IfErr, OnOk, OnErr};
ghost use Rattle.std.specs.Io.{ReadsAtMost, WritesAtMost};
ghost use Rattle.std.specs.Io.KnownBytes.{Appends, Keeps, ReadConsumes, WriteAppends};
ghost use Rattle.std.specs.declared.option.Option.{Option};
ghost use Rattle.work_lang.specs.Faults.{last_count, Rose, HasCause};
ghost use Rattle.work_lang.specs.Counts.{raised, meter_after, ReadSoFar, ReadToStop, ReadsNoFurther};
ghost use Rattle.work_lang.specs.declared.meter.Meter.{Meter};
ghost use Rattle.work_lang.specs.Streams.{most_read, ReadsAll, LosesFront, AppendsFront, Writes};

use std::alloc::Global;
use thiserror::Error;

/// A read or a write failed. Nothing was read or taken, and the count of faults rose.
#[derive(Clone, Copy, Debug, PartialEq, Eq, Error)]
#[error("a read or a write failed")]
pub struct Failed;

/// Where bytes come from.
pub trait Source {
    /// The bytes that are left, where the source tells them.
    ghost left: { Self → Option (List ℕ) };

    /// How often a read has failed. It never falls, and stands still at 2^64 - 1.
    ghost faults: { Self → ℕ };

    /// How far it was read. Every source tells this.
    ghost meter: { Self → Meter };

    /// Reads bytes into the front of the buffer, and says how many; none in a buffer that isn't empty is the end.
    /// After `Failed` the bytes left are as they were, and the count of faults is one higher; else it is as before.
    fn read(&mut self, buffer: &mut [u8]) -> Result<usize, Failed>
        ensures bound { ReadsAtMost result buffer.new }
        ensures bytes { ReadConsumes (left self.old) (left self.new) result buffer.new }
        ensures cause { HasCause (faults self.old) (faults self.new) result }
        ensures counted { faults self.new ≤ last_count }
        ensures metered { meter self.new ≡ meter_after (meter self.old) result (length buffer.new) };
}

/// Where bytes go.
pub trait Sink {
    /// The bytes that the sink took, where it tells them.
    ghost taken: { Self → Option (List ℕ) };

    /// How often a write has failed. It never falls, and stands still at 2^64 - 1.
    ghost faults: { Self → ℕ };

    /// How often a write was tried. It stands still at 2^64 - 1.
    ghost tries: { Self → ℕ };

    /// Whether a write of at most 256 bytes takes all of them or fails. No write changes it.
    ghost whole: { Self → Bool };

    /// Takes bytes from the front of the piece, and says how many: at least one of a piece that isn't empty.
    /// After `Failed` nothing was taken, and the count of faults is one higher; else it is as before.
    fn write(&mut self, piece: &[u8]) -> Result<usize, Failed>
        ensures bound { WritesAtMost result piece.now }
        ensures progress { IfOk result (λ n. 0 < length piece.now → 0 < n) }
        ensures bytes { WriteAppends (taken self.old) (taken self.new) result piece.now }
        ensures whole { whole self.old ≡ true → length piece.now ≤ 256 → IfOk result (λ n. n ≡ length piece.now) }
        ensures kept { whole self.new ≡ whole self.old }
        ensures cause { HasCause (faults self.old) (faults self.new) result }
        ensures counted { faults self.new ≤ last_count }
        ensures tried { tries self.new ≡ raised (tries self.old) 1 };
}

/// Why reading to the end stopped early.
#[derive(Clone, Copy, Debug, PartialEq, Eq)]
pub enum ReadEnd {
    /// The source failed.
    Fault,
    /// There was no memory for what was read.
    NoMemory,
}

/// Why writing stopped early.
#[derive(Clone, Copy, Debug, PartialEq, Eq)]
pub enum WriteEnd {
    /// The sink failed.
    Fault,
}

/// One byte more than a text may have.
const MOST_READ: usize = 8_388_609;

/// How many bytes are asked for at a time.
const READ_SIZE: usize = 65_536;

/// Bytes to read into.
fn room_of(alloc: Global, size: usize) -> Result<Vec<u8>, ReadEnd>
    ensures size { IfOk result (λ v. length v.items ≡ size) }
    ensures err { IfErr result (λ e. e ≡ ReadEnd.NoMemory) }
{
    match vec![in alloc; 0u8; size] {
        Ok(room) => Ok(room),
        Err(_) => Err(ReadEnd::NoMemory),
    }
}

/// Adds bytes for which there is room.
fn append(all: &mut Vec<u8>, bytes: &[u8])
    requires { vec_len all.old + length bytes.now ≤ vec_capacity all.old }
    ensures { all.new.items ≡ all.old.items ++ bytes.now }
{
    let Ok(()) = all.extend_from_slice(bytes) else {
        unreachable!()
    };
}

/// Reads to the end as `read_all` does, by way of a buffer.
fn read_by<S: Source>(alloc: Global, source: &mut S, buffer: &mut [u8]) -> Result<Vec<u8>, ReadEnd>
    requires { 0 < length buffer.old }
    ensures bytes { IfOk result (λ v. ReadsAll S.left source.old source.new v.items) }
    ensures short { IfOk result (λ v. length v.items ≤ most_read) }
    ensures front { LosesFront S.left source.old source.new }
    ensures fault { result ≡ Err ReadEnd.Fault → Rose (S.faults source.old) (S.faults source.new) }
    ensures same { result ≢ Err ReadEnd.Fault → S.faults source.new ≡ S.faults source.old }
    ensures later { S.faults source.old ≤ S.faults source.new }
    ensures ended { IfOk result (λ v. length v.items < most_read → ReadToStop (S.meter source.old) (S.meter source.new) (length v.items)) }
    ensures full { IfOk result (λ v. length v.items ≡ most_read → ReadSoFar (S.meter source.old) (S.meter source.new) most_read) }
    ensures stopped { result ≡ Err ReadEnd.Fault → (n : ℕ) × (n < most_read) × ReadToStop (S.meter source.old) (S.meter source.new) n }
    ensures wanting { result ≡ Err ReadEnd.NoMemory → (n : ℕ) × (n < most_read) × ReadSoFar (S.meter source.old) (S.meter source.new) n }
    ensures further { ReadsNoFurther most_read (S.meter source.old) (S.meter source.new) }
{
    let mut all = Vec::new(alloc);
    'reads: while all.len() < MOST_READ {
        let want = (MOST_READ - all.len()).min(buffer.len());
        // Before the read, so that memory is there for all that is read.
        if all.reserve(want).is_err() {
            return Err(ReadEnd::NoMemory);
        }
        let room = &mut buffer[..want];
        match source.read(room) {
            Err(Failed) => return Err(ReadEnd::Fault),
            Ok(0) => return Ok(all),
            Ok(count) => append(&mut all, &room[..count]),
        }
    }
    Ok(all)
}

/// Reads to the end, or until 8,388,609 bytes were read; the rest is left unread. It reads no further after a read that
/// failed or ended the input: Fault comes only where the source's count of faults is one higher than before, and at every
/// other answer the count is as before. What was read before a Fault or NoMemory stays read; NoMemory never comes once
/// 8,388,609 bytes were read. It asks for 64 KiB at a time.
pub fn read_all<S: Source>(alloc: Global, source: &mut S) -> Result<Vec<u8>, ReadEnd>
    ensures bytes { IfOk result (λ v. ReadsAll S.left source.old source.new v.items) }
    ensures short { IfOk result (λ v. length v.items ≤ most_read) }
    ensures front { LosesFront S.left source.old source.new }
    ensures fault { result ≡ Err ReadEnd.Fault → Rose (S.faults source.old) (S.faults source.new) }
    ensures same { result ≢ Err ReadEnd.Fault → S.faults source.new ≡ S.faults source.old }
    ensures later { S.faults source.old ≤ S.faults source.new }
    ensures ended { IfOk result (λ v. length v.items < most_read → ReadToStop (S.meter source.old) (S.meter source.new) (length v.items)) }
    ensures full { IfOk result (λ v. length v.items ≡ most_read → ReadSoFar (S.meter source.old) (S.meter source.new) most_read) }
    ensures stopped { result ≡ Err ReadEnd.Fault → (n : ℕ) × (n < most_read) × ReadToStop (S.meter source.old) (S.meter source.new) n }
    ensures wanting { result ≡ Err ReadEnd.NoMemory → (n : ℕ) × (n < most_read) × ReadSoFar (S.meter source.old) (S.meter source.new) n }
    ensures further { ReadsNoFurther most_read (S.meter source.old) (S.meter source.new) }
{
    match room_of(alloc, READ_SIZE) {
        Ok(mut buffer) => read_by(alloc, source, buffer.as_mut_slice()),
        Err(end) => Err(end),
    }
}

/// Writes a piece until all of it is taken, and stops at the first write that fails. Fault comes only where the sink's
/// count of faults is one higher than before; what was taken is then a front of the piece. Where the sink takes a piece of
/// at most 256 bytes whole, such a piece is tried once, an empty one never, and at Fault nothing was taken. At Ok the
/// count is as before.
pub fn write_all<K: Sink>(piece: &[u8], sink: &mut K) -> Result<(), WriteEnd>
    ensures ok { OnOk result (Appends (K.taken sink.old) (K.taken sink.new) piece.now) }
    ensures err { OnErr result (AppendsFront (K.taken sink.old) (K.taken sink.new) piece.now) }
    ensures whole { K.whole sink.old ≡ true → length piece.now ≤ 256 → OnErr result (Keeps (K.taken sink.old) (K.taken sink.new)) }
    ensures once { K.whole sink.old ≡ true → length piece.now ≤ 256 → K.tries sink.new ≡ raised (K.tries sink.old) (min 1 (length piece.now)) }
    ensures kept { K.whole sink.new ≡ K.whole sink.old }
    ensures cause { HasCause (K.faults sink.old) (K.faults sink.new) result }
{
    let mut rest = piece;
    'writes: while !rest.is_empty() {
        match sink.write(rest) {
            Err(Failed) => return Err(WriteEnd::Fault),
            Ok(count) => {
                let (_, after) = rest.split_at(count);
                rest = after;
            }
        }
    }
    Ok(())
}

/// Writes a line, with its end, as one piece.
pub fn write_line<K: Sink>(line: &[u8], sink: &mut K) -> Result<(), WriteEnd>
    requires some { 0 < length line.now }
    requires short { length line.now ≤ 256 }
    ensures { Writes K.taken K.faults K.tries K.whole sink.old sink.new result (line.now ∷ []) }
{
    write_all(line, sink)
}

#[cfg(test)]
mod tests;
