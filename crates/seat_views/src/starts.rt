//! The words with which an arena begins.

ghost use Rattle.std.specs.Prelude.{◌≡◌, ℕ, ◌+◌, ◌*◌, ◌<◌, ◌≤◌, length, slice_index, IfOk};
ghost use Rattle.place_core.specs.PartValues.{part_of};
ghost use Rattle.place_core.specs.Shapes.{IsShape};
ghost use Rattle.seat_views.specs.Starts.{Begins, StartsSoFar, Puts};

use op_table::NoMemory;
use place_core::{Place, Shape, part_at, raised};
use std::alloc::Global;

#[tactic(auto, using(crate::proofs::Filling::puts_none, crate::proofs::Filling::puts_more, crate::proofs::Filling::part_below))]
/// Puts the parts of a value into words, from one on.
fn put_parts(words: &mut [u64], from: usize, parts: u32, bits: u32, value: u128)
    requires words { from + parts ≤ length words.old }
    requires bits { (0 < bits) × (bits ≤ 64) }
    requires parts { bits * parts ≤ 128 }
    ensures { Puts words.old from parts (λ i. part_of bits i value) words.new }
{
    for i in 0..parts {
        words[from + i as usize] = part_at(bits, i, value);
    }
}

#[tactic(auto, using(crate::proofs::Filling::puts_none, crate::proofs::Filling::puts_more))]
/// Puts the first stamp into the locks.
fn put_stamps(words: &mut [u64], from: usize, locks: u32, stamp: u64)
    requires words { from + locks ≤ length words.old }
    ensures { Puts words.old from locks (λ _. stamp) words.new }
{
    for i in 0..locks {
        words[from + i as usize] = stamp;
    }
}

/// Puts the start of one object into its words.
fn put_start(shape: &Shape, index: usize, words: &mut [u64])
    requires shape { IsShape shape.now }
    requires index { index < length shape.now.objects }
    requires so_far { StartsSoFar shape.now words.old index }
    ensures { StartsSoFar shape.now words.new (index + 1) }
{
    let object = shape.objects.at(index);
    match object.place {
        Place::Lane { word, shift, width } => {
            let more = raised(object.start, shift, width);
            let at = 1 + word as usize;
            words[at] = words[at] + more;
        }
        Place::Parts {
            first,
            parts,
            part_bits,
            ..
        } => put_parts(words, 1 + first as usize, parts, part_bits, object.start),
    }
}

/// Puts the start of every object into its words.
fn put_starts(shape: &Shape, words: &mut [u64])
    requires shape { IsShape shape.now }
    requires so_far { StartsSoFar shape.now words.old 0 }
    ensures { StartsSoFar shape.now words.new (length shape.now.objects) }
{
    for i in 0..shape.objects.len() {
        put_start(shape, i, words);
    }
}

/// Puts the start of every object and the stamp of every lock into words that are 0.
fn fill(shape: &Shape, stamp: u64, words: &mut [u64])
    requires shape { IsShape shape.now }
    requires words { length words.old ≡ 1 + shape.now.words + shape.now.locks }
    requires zero { (i : ℕ) → slice_index words.old i ≡ 0 }
    ensures begins { Begins (record { shape = shape.now; first_stamp = stamp }) words.new }
    ensures words { length words.new ≡ length words.old }
{
    put_starts(shape, words);
    put_stamps(words, 1 + shape.words as usize, shape.locks, stamp);
}

/// The words in which every object has its start, and every lock the stamp.
pub(crate) fn starts(alloc: Global, shape: &Shape, stamp: u64) -> Result<Vec<u64>, NoMemory>
    requires { IsShape shape.now }
    ensures { IfOk result (λ v. Begins (record { shape = shape.now; first_stamp = stamp }) v.items) }
{
    let room = 1 + shape.words as usize + shape.locks as usize;
    let mut words = vec![in alloc; 0; room].map_err(|_| NoMemory)?;
    fill(shape, stamp, words.as_mut_slice());
    Ok(words)
}
