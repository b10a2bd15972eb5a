//! The words with which blocks begin.

ghost use Rattle.std.specs.Prelude.{◌≡◌, ◌≤◌, ◌<◌, ◌+◌, ◌++◌, take, length, slice_get, Some, IfOk};
ghost use Rattle.op_table.specs.Limits.{most_locks};
ghost use Rattle.any_size.specs.Bytes.{words_for};
ghost use Rattle.any_size.specs.Keeping.{IsSpot, AreSpots};
ghost use Rattle.any_size.specs.Starts.{Begins, LaidSoFar, SpotsSoFar};

use crate::block::Block64;
use crate::spot::Spot;
use op_table::NoMemory;
use std::alloc::Global;

/// A copy of the blocks.
pub(crate) fn copied(alloc: Global, starts: &[Block64]) -> Result<Vec<Block64>, NoMemory>
    ensures { IfOk result (λ v. v.items ≡ starts.now) }
{
    Vec::from_slice(alloc, starts).map_err(|_| NoMemory)
}

/// Adds the words that spell one more block.
fn add_words(
    words: &mut Vec<u64>,
    starts: &[Block64],
    index: usize,
    locks: u32,
) -> Result<(), NoMemory>
    requires index { index < length starts.now }
    requires so_far { LaidSoFar starts.now locks words.old.items index }
    ensures { IfOk result (λ _. LaidSoFar starts.now locks words.new.items (index + 1)) }
{
    let start = &starts[index];
    let count = (start.count() + 7) / 8;
    let spelled = start.words();
    words
        .extend_from_slice(&spelled[..count])
        .map_err(|_| NoMemory)?;
    Ok(())
}

/// Where the next object lies.
fn next_spot(words: &[u64], starts: &[Block64], index: usize, locks: u32) -> Spot
    requires index { index < length starts.now }
    requires few { (length starts.now ≤ 65536) × (1 ≤ locks) × (locks ≤ most_locks) }
    requires so_far { LaidSoFar starts.now locks words.now index }
    ensures { IsSpot starts.now locks index result }
{
    let size = starts[index].count() as u32;
    Spot {
        first: words.len() as u32,
        lock: 1 + index as u32 % locks,
        count: (size + 7) / 8,
        size,
    }
}

/// Adds one more spot.
fn add_spot(
    spots: &mut Vec<Spot>,
    spot: Spot,
    starts: &[Block64],
    locks: u32,
    index: usize,
) -> Result<(), NoMemory>
    requires so_far { SpotsSoFar starts.now locks spots.old.items index }
    requires spot { IsSpot starts.now locks index spot }
    ensures { IfOk result (λ _. SpotsSoFar starts.now locks spots.new.items (index + 1)) }
{
    spots.push(spot).map_err(|_| NoMemory)?;
    Ok(())
}

/// The words that hold these blocks, and where each lies.
pub(crate) fn laid(
    alloc: Global,
    starts: &[Block64],
    locks: u32,
) -> Result<(Vec<u64>, Vec<Spot>), NoMemory>
    requires starts { length starts.now ≤ 65536 }
    requires locks { (1 ≤ locks) × (locks ≤ most_locks) }
    ensures { IfOk result (λ r. Begins starts.now locks r.0.items × AreSpots starts.now locks r.1.items) }
{
    let mut words = vec![in alloc; 0; 1 + locks as usize].map_err(|_| NoMemory)?;
    let mut spots = Vec::new(alloc);
    for i in 0..starts.len() {
        let spot = next_spot(words.as_slice(), starts, i, locks);
        add_spot(&mut spots, spot, starts, locks, i)?;
        add_words(&mut words, starts, i, locks)?;
    }
    Ok((words, spots))
}
