//! Replies that are kept.

ghost use Rattle.std.specs.Prelude.{◌≡◌, ℕ, ◌<◌, ◌≤◌, ◌+◌, ◌-◌, ◌^◌, List, [], ◌∷◌, ◌++◌, length, slice_get, Some, OnOk, OnErr, IfOk};

use op_table::{NoMemory, Reply};
use std::alloc::Global;
use std::marker::Model;

/// Replies in order, with room for more. Contracts see them as `items`, the list of the replies, and `spare`,
/// how many more there is room for.
#[derive(Drop)]
pub struct Replies {
    replies: Vec<Reply>,
    spare: u32,
}

impl Model for Replies {
    ghost use Rattle.std.specs.Prelude.{◌≤◌, ◌+◌, ◌<◌, ◌^◌, length, vec_len, vec_capacity};
    ghost use Rattle.place_core.specs.RepliesState.{RepliesState};

    ghost Value = { RepliesState };

    ghost view = { λ r. record { items = r.replies.items; spare = r.spare } };

    ghost invariant = { λ r. (vec_len r.replies + r.spare ≤ vec_capacity r.replies) × (vec_len r.replies + r.spare < 2 ^ 32) };
}

impl Replies {
    /// No replies, with room for `n` of them at least.
    pub fn with_room(alloc: Global, n: u32) -> Result<Replies, NoMemory>
        ensures { IfOk result (λ r. (r.items ≡ []) × (n ≤ r.spare)) }
    {
        match Vec::with_capacity(alloc, n as usize) {
            Ok(replies) => Ok(Replies { replies, spare: n }),
            Err(_) => Err(NoMemory),
        }
    }

    /// Adds a reply at the end. It takes no memory.
    #[inline(always)]
    pub fn push(&mut self, reply: Reply)
        requires { 0 < self.old.spare }
        ensures items { self.new.items ≡ self.old.items ++ reply ∷ [] }
        ensures spare { self.new.spare + 1 ≡ self.old.spare }
    {
        self.spare -= 1;
        match self.replies.push(reply) {
            Ok(()) => {}
            Err(_) => unreachable!(),
        }
    }

    /// How many replies there are.
    pub fn len(&self) -> u32
        ensures { result ≡ length self.now.items }
    {
        self.replies.len() as u32
    }

    /// Reply number `i`, counted from 0.
    pub fn at(&self, i: u32) -> &Reply
        requires { i < length self.now.items }
        ensures { slice_get self.now.items i ≡ Some result.now }
    {
        &self.replies[i as usize]
    }
}
