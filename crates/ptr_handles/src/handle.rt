//! Handles.

ghost use Rattle.std.specs.Prelude.{◌≡◌, ◌/◌, ◌%◌, ◌<◌};

/// The number of a handle's bits from one item to the next.
pub(crate) const ITEM: u64 = 16;

/// A pointer to an item of a pool, or to none, with a tag: the item is a number of 60 bits, counted from 1, and 0 is
/// null; the tag is the four lowest bits.
#[derive(Clone, Copy, Debug, PartialEq, Eq)]
pub struct Handle {
    pub bits: u64,
}

impl Handle {
    /// The handle of no item, with tag 0.
    pub fn null() -> Handle
        ensures { result.bits ≡ 0 }
    {
        Handle { bits: 0 }
    }

    /// The tag, 0 to 15.
    pub fn tag(self) -> u64
        ensures { result ≡ self.bits % 16 }
    {
        self.bits % ITEM
    }

    /// The same with another tag, below 16.
    pub fn with_tag(self, tag: u64) -> Handle
        requires { tag < 16 }
        ensures item { result.bits / 16 ≡ self.bits / 16 }
        ensures tag { result.bits % 16 ≡ tag }
    {
        Handle {
            bits: self.bits - self.bits % ITEM + tag,
        }
    }
}
