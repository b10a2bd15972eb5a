//! How far a source was read.

ghost use Rattle.std.specs.Prelude.{◌≡◌};
ghost use Rattle.work_lang.specs.Counts.{new_meter, after_stop, after_bytes, meter_after};

use crate::stream::Failed;

/// How far a source was read. Its counts stand still at 2^64 - 1.
#[derive(Clone, Copy, Debug, PartialEq, Eq)]
pub struct Meter {
    /// How many bytes were given.
    pub given: u64,
    /// How many reads failed or ended the input.
    pub stops: u64,
    /// Whether the last read failed or ended the input.
    pub stopped: bool,
}

impl Meter {
    /// Of a source that wasn't read.
    pub fn new() -> Meter
        ensures { result ≡ new_meter }
    {
        Meter {
            given: 0,
            stops: 0,
            stopped: false,
        }
    }

    /// Counts a read that failed or ended the input.
    pub fn stop(&mut self)
        ensures { self.new ≡ after_stop self.old }
    {
        self.stops = self.stops.saturating_add(1);
        self.stopped = true;
    }

    /// Counts a read that gave so many bytes, with room for so many.
    pub fn give(&mut self, count: usize, room: usize)
        ensures { self.new ≡ after_bytes self.old count room }
    {
        if count == 0 && room > 0 {
            self.stop();
        } else {
            self.given = self.given.saturating_add(count as u64);
            self.stopped = false;
        }
    }

    /// Counts a read with room for so many bytes, by its answer.
    pub fn count(&mut self, answer: &Result<usize, Failed>, room: usize)
        ensures { self.new ≡ meter_after self.old answer.now room }
    {
        match answer {
            Ok(count) => self.give(*count, room),
            Err(_) => self.stop(),
        }
    }
}
