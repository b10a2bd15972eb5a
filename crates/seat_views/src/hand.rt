//! What the code keeps of a call in flight.

ghost use Rattle.std.specs.Prelude.{◌≡◌, ◌%◌, ℕ, false, slice_index};
ghost use Rattle.seat_views.specs.LockSteps.{released};

/// The stamp, whether a part was written, and the parts that were read.
#[derive(Clone, Copy)]
pub struct Hand {
    pub stamp: u64,
    pub wrote: bool,
    pub read: [u64; 4],
}

/// The greatest stamp. A lock that has come to it keeps it.
pub const LAST_STAMP: u64 = 18_446_744_073_709_551_614;

/// The hand where a call begins.
#[inline(always)]
pub(crate) fn hand_at(stamp: u64) -> Hand
    ensures stamp { result.stamp ≡ stamp }
    ensures wrote { result.wrote ≡ false }
    ensures read { (i : ℕ) → slice_index result.read i ≡ 0 }
{
    Hand {
        stamp,
        wrote: false,
        read: [0; 4],
    }
}

impl Hand {
    /// Begins the next call at a stamp. The fields are set where they lie, which costs less than a hand that is copied.
    #[inline(always)]
    pub(crate) fn begin(&mut self, stamp: u64)
        ensures stamp { self.new.stamp ≡ stamp }
        ensures wrote { self.new.wrote ≡ false }
        ensures read { (i : ℕ) → slice_index self.new.read i ≡ 0 }
    {
        self.stamp = stamp;
        self.wrote = false;
        self.read = [0; 4];
    }
}

/// The stamp that a release stores.
#[inline(always)]
pub(crate) fn stamp_after(hand: &Hand) -> u64
    requires even { hand.now.stamp % 2 ≡ 0 }
    ensures { result ≡ released hand.now.wrote hand.now.stamp }
{
    if hand.wrote && hand.stamp != LAST_STAMP {
        hand.stamp + 2
    } else {
        hand.stamp
    }
}
