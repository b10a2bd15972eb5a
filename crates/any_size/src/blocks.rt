//! The words that threads share.

ghost use Rattle.std.specs.Prelude.{◌≡◌, ◌≤◌, ◌<◌, length, IfOk};
ghost use Rattle.op_table.specs.Limits.{most_locks};
ghost use Rattle.any_size.specs.Histories.{size_of};
ghost use Rattle.any_size.specs.Starts.{Begins};
ghost use Rattle.any_size.specs.Keeping.{AreSpots, IsSpot};
ghost use Rattle.any_size.specs.States.{Opens};

use crate::block::Block64;
use crate::pass::BlockPass;
use crate::root::BlockRoot;
use crate::rule::BlockRule;
use crate::spot::Spot;
use crate::starts::{copied, laid};
use crate::view::{BlockOpening, BlockView};
use atomic_table::Table;
use op_table::NoMemory;
use std::alloc::{AllocError, Global};
use std::marker::Model;

/// Objects of 1 to 64 bytes that threads share, and their locks. Contracts see which table it is, what each object began
/// with, and how many locks there are.
#[derive(Drop)]
pub struct Blocks {
    pub(crate) table: Table<(), BlockView, BlockOpening, BlockRule, Global>,
    spots: Vec<Spot>,
}

impl Model for Blocks {
    ghost use Rattle.any_size.specs.States.{BlocksState, blocks_of};
    ghost use Rattle.any_size.specs.Keeping.{KeepsBlocks};

    ghost Value = { BlocksState };

    ghost view = { λ b. blocks_of b.table.shared.table_id b.table.shared.key };

    ghost invariant = { λ b. KeepsBlocks b.table.shared.key b.table.shared.table_id b.spots.items };
}

impl Blocks {
    /// The blocks of these words, and their root's pass.
    fn of(
        alloc: Global,
        words: &[u64],
        opening: &BlockOpening,
        spots: Vec<Spot>,
    ) -> Result<(Blocks, BlockPass), AllocError>
        requires locks { 1 ≤ opening.now.locks }
        requires words { Begins opening.now.starts.items opening.now.locks words.now }
        requires spots { AreSpots opening.now.starts.items opening.now.locks spots.items }
        ensures { IfOk result (λ r. Opens opening.now.starts.items opening.now.locks r.0 r.1) }
    {
        let (table, seat) = Table::of_words(alloc, words, opening)?;
        Ok((Blocks { table, spots }, BlockPass::of(0, 0, seat)))
    }

    /// Opens objects that hold these blocks, and gives their root. There are 1 to `op_table::MOST_LOCKS` locks, each with 0, and at most 65,536
    /// objects. The lock of an object is its number modulo the locks. NoMemory where memory is refused.
    pub fn open(
        alloc: Global,
        starts: &[Block64],
        locks: u32,
    ) -> Result<(Blocks, BlockRoot), NoMemory>
        requires locks { (1 ≤ locks) × (locks ≤ most_locks) }
        requires starts { length starts.now ≤ 65536 }
        ensures { IfOk result (λ r. Opens starts.now locks r.0 r.1) }
    {
        let (words, spots) = laid(alloc, starts, locks)?;
        let opening = BlockOpening {
            starts: copied(alloc, starts)?,
            locks,
        };
        let (blocks, pass) = Blocks::of(alloc, words.as_slice(), &opening, spots).map_err(
            |_| NoMemory,
        )?;
        Ok((blocks, BlockRoot::of(pass)))
    }

    /// How many objects there are.
    #[inline]
    pub fn objects(&self) -> usize
        ensures { result ≡ length self.now.starts }
    {
        self.spots.len()
    }

    /// How many bytes an object has, 1 to 64.
    #[inline]
    pub fn size(&self, object: u32) -> usize
        requires object { object < length self.now.starts }
        ensures value { result ≡ size_of self.now.starts object }
        ensures few { (1 ≤ result) × (result ≤ 64) }
    {
        self.spot(object).size as usize
    }

    /// Where an object lies.
    #[inline(always)]
    pub(crate) fn spot(&self, object: u32) -> Spot
        requires { object < length self.now.starts }
        ensures { IsSpot self.now.starts self.now.locks object result }
    {
        self.spots[object as usize]
    }
}
