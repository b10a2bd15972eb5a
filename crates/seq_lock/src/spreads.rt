//! How an object's value is spread over parts.

ghost use Rattle.std.specs.Prelude.{◌≡◌, ◌*◌, ◌<◌, ◌≤◌};
ghost use Rattle.place_core.specs.Shapes.{IsShape};
ghost use Rattle.seat_views.specs.Places.{HasParts, parts_of};

use place_core::Place;
use seat_views::Arena;

/// How many parts an object has, 1 to 4, and how many bits a part has, 32 or 64.
#[derive(Clone, Copy)]
pub struct Spread {
    pub parts: u32,
    pub bits: u32,
}

/// How an object's value is spread.
#[tactic(auto, using(crate::proofs::Counts::spread_count))]
#[inline(always)]
pub fn spread_of(arena: &Arena, object: u32) -> Spread
    requires object { HasParts arena.now.shape object }
    ensures parts { (result.parts ≡ parts_of arena.now.shape object) × (1 ≤ result.parts) }
    ensures bits { (result.bits ≡ arena.now.shape.word_bits) × (0 < result.bits) × (result.bits ≤ 64) }
    ensures all { result.bits * result.parts ≤ 128 }
    ensures shape { IsShape arena.now.shape }
{
    let Place::Parts {
        parts,
        part_bits,
        ..
    } = arena.shape().objects.at(object as usize).place
    else {
        unreachable!()
    };
    Spread {
        parts,
        bits: part_bits,
    }
}
