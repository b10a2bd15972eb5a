//! Pools of items that handles point to.

ghost use Rattle.std.specs.Prelude.{◌≡◌, ◌⊎◌, ◌+◌, ◌*◌, ◌/◌, ◌^◌, ◌<◌, ◌≤◌, length, MatchOption};
ghost use Rattle.ptr_handles.specs.Handles.{NamesItem};

use crate::handle::{Handle, ITEM};
use std::marker::Model;

/// Items that stay where they are, so that a number names each. Contracts see them as a list.
#[derive(Drop)]
pub struct Pool<T> {
    items: Vec<T>,
    ghost few: { length items.items < 2 ^ 32 },
}

impl<T> Model for Pool<T> {
    ghost use Rattle.std.specs.Prelude.{List};

    ghost Value = { List T };

    ghost view = { λ p. p.items.items };
}

impl<T> Pool<T> {
    /// A pool of these items, fewer than 2 to 32.
    pub fn of(items: Vec<T>) -> Pool<T>
        requires { length items.items < 2 ^ 32 }
        ensures { result ≡ items.items }
    {
        Pool { items }
    }

    /// The handle of item i, counted from 0, with tag 0. None where there is no such item.
    #[inline]
    pub fn handle(&self, i: u32) -> Option<Handle>
        ensures { MatchOption result (length self.now ≤ i) (λ h. (i < length self.now) × (h.bits ≡ 16 * (i + 1))) }
    {
        if i as usize >= self.items.len() {
            return None;
        }
        Some(Handle {
            bits: ITEM * (i as u64 + 1),
        })
    }

    /// The item that a handle points to, with any tag. None for null, and where there is no such item.
    #[inline]
    pub fn get(&self, handle: Handle) -> Option<&T>
        ensures { MatchOption result ((handle.bits / 16 ≡ 0) ⊎ (length self.now < handle.bits / 16)) (λ item. NamesItem self.now handle.bits item.now) }
    {
        let count = handle.bits / ITEM;
        if count == 0 || count > self.items.len() as u64 {
            return None;
        }
        Some(&self.items[(count - 1) as usize])
    }
}
