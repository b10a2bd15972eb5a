//! Readers and writers of std as a source and a sink: the edge that is trusted.

ghost use Rattle.std.specs.Prelude.{◌≡◌, ◌<◌, ◌≤◌, false, [], length, IfOk};
ghost use Rattle.std.specs.Io.{ReadsAtMost, WritesAtMost};
ghost use Rattle.std.specs.Io.Buffered.{writer_contents, writer_buffer, writer_inner};
ghost use Rattle.std.specs.Io.KnownBytes.{Keeps, ReadConsumes, WriteAppends};
ghost use Rattle.work_lang.specs.Counts.{new_meter};
ghost use Rattle.work_lang.specs.Faults.{last_count, HasCause};

use op_table::NoMemory;
use std::alloc::Global;
use std::io::{BufWriter, ErrorKind, Read, Write};
use work_lang::{Failed, Meter, Sink, Source};

/// The count of faults after an answer: one more where it is Failed.
fn count_after(faults: u64, answer: &Result<usize, Failed>) -> u64
    ensures cause { HasCause faults result answer.now }
    ensures counted { result ≤ last_count }
{
    match answer {
        Ok(_) => faults,
        Err(_) => faults.saturating_add(1),
    }
}

/// Reads from a reader. A read that is interrupted is made again.
fn read_again<R: Read + Drop>(reader: &mut R, buffer: &mut [u8]) -> Result<usize, Failed>
    ensures bound { ReadsAtMost result buffer.new }
    ensures bytes { ReadConsumes (R.remaining reader.old) (R.remaining reader.new) result buffer.new }
{
    'tries: for _ in 0..u64::MAX {
        match reader.read(buffer) {
            Ok(count) => return Ok(count),
            Err(error) if error.kind() == ErrorKind::Interrupted => {}
            Err(_) => return Err(Failed),
        }
    }
    Err(Failed)
}

/// A reader as a source. It tells the bytes that the reader tells: those of a slice, and none of standard input. A read
/// that is interrupted is made again.
#[derive(Drop)]
pub struct ReadSource<R: Read + Drop> {
    reader: R,
    faults: u64,
    meter: Meter,
}

impl<R: Read + Drop> ReadSource<R> {
    /// A source over the reader; no read has failed, and the count of faults is 0.
    pub fn new(reader: R) -> Self
        ensures reader { result.reader ≡ reader }
        ensures faults { result.faults ≡ 0 }
        ensures meter { result.meter ≡ new_meter }
    {
        ReadSource {
            reader,
            faults: 0,
            meter: Meter::new(),
        }
    }
}

impl<R: Read + Drop> Source for ReadSource<R> {
    ghost left = { λ s. R.remaining s.reader };

    ghost faults = { λ s. s.faults };

    ghost meter = { λ s. s.meter };

    fn read(&mut self, buffer: &mut [u8]) -> Result<usize, Failed> {
        let answer = read_again(&mut self.reader, buffer);
        self.faults = count_after(self.faults, &answer);
        self.meter.count(&answer, buffer.len());
        answer
    }
}

/// How many bytes are handed on at a time.
const BUFFER_SIZE: usize = 65_536;

/// Writes to a writer: Failed where that fails or takes nothing. A write that is interrupted is made again.
fn write_again<W: Write + Drop>(writer: &mut BufWriter<W>, piece: &[u8]) -> Result<usize, Failed>
    ensures bound { WritesAtMost result piece.now }
    ensures progress { IfOk result (λ n. 0 < length piece.now → 0 < n) }
    ensures bytes { WriteAppends (writer_contents W.contents writer.old) (writer_contents W.contents writer.new) result piece.now }
{
    'tries: for _ in 0..u64::MAX {
        match writer.write(piece) {
            Ok(count) if count > 0 || piece.is_empty() => return Ok(count),
            Err(error) if error.kind() == ErrorKind::Interrupted => {}
            _ => return Err(Failed),
        }
    }
    Err(Failed)
}

/// A writer as a sink, behind a buffer of 64 KiB. It tells the bytes that the writer tells, with those of the buffer: those
/// of a vector, and none of standard output. A write that is interrupted is made again.
#[derive(Drop)]
pub struct WriteSink<W: Write + Drop> {
    writer: BufWriter<W>,
    faults: u64,
    tries: u64,
}

/// Tells a writer that no more bytes come. Where that is interrupted it is told again.
fn finish<W: Write + Drop>(mut writer: W) -> Result<W, Failed>
    ensures { IfOk result (λ w. Keeps (W.contents writer) (W.contents w)) }
{
    'tries: for _ in 0..u64::MAX {
        match writer.flush() {
            Ok(()) => return Ok(writer),
            Err(error) if error.kind() == ErrorKind::Interrupted => {}
            Err(_) => return Err(Failed),
        }
    }
    Err(Failed)
}

impl<W: Write + Drop> WriteSink<W> {
    /// A sink over the writer; no write has failed, and the count of faults is 0.
    pub fn new(alloc: Global, writer: W) -> Result<Self, NoMemory>
        ensures writer { IfOk result (λ s. writer_inner s.writer ≡ writer) }
        ensures empty { IfOk result (λ s. writer_buffer s.writer ≡ []) }
        ensures faults { IfOk result (λ s. s.faults ≡ 0) }
        ensures tries { IfOk result (λ s. s.tries ≡ 0) }
    {
        match BufWriter::with_capacity(alloc, BUFFER_SIZE, writer) {
            Ok(writer) => Ok(WriteSink {
                writer,
                faults: 0,
                tries: 0,
            }),
            Err(_) => Err(NoMemory),
        }
    }

    /// Ends the sink: hands on what the buffer holds, and gives the writer back, with all the bytes that the sink took.
    /// Failed where the writer failed; what it didn't take then is let go, and not handed on later.
    pub fn close(self) -> Result<W, Failed>
        ensures { IfOk result (λ w. Keeps (writer_contents W.contents self.writer) (W.contents w)) }
    {
        match self.writer.into_inner() {
            Ok(writer) => finish(writer),
            Err(unwritten) => {
                // Taken apart, since a buffer that is dropped is written once more.
                let (_writer, _rest) = unwritten.into_inner().into_parts();
                Err(Failed)
            }
        }
    }
}

impl<W: Write + Drop> Sink for WriteSink<W> {
    ghost taken = { λ s. writer_contents W.contents s.writer };

    ghost faults = { λ s. s.faults };

    ghost tries = { λ s. s.tries };

    ghost whole = { λ s. false };

    fn write(&mut self, piece: &[u8]) -> Result<usize, Failed> {
        let answer = write_again(&mut self.writer, piece);
        self.faults = count_after(self.faults, &answer);
        self.tries = self.tries.saturating_add(1);
        answer
    }
}
