//! The steps on a lock and on the parts under it.

ghost use Rattle.std.specs.Prelude.{◌≡◌, ◌≢◌, ◌%◌, ◌*◌, ◌^◌, ℕ, ◌<◌, ◌≤◌, slice_index};
ghost use Rattle.op_table.specs.Kind.{values_of, IsKind};
ghost use Rattle.op_table.specs.Call.{CallFits};
ghost use Rattle.place_core.specs.PartValues.{joined};
ghost use Rattle.place_core.specs.Shapes.{kind_of};
ghost use Rattle.seat_views.specs.declared.view.Role.TheVariants as role;
ghost use Rattle.seat_views.specs.declared.view.StepKind.TheVariants as kind;
ghost use Rattle.seat_views.specs.declared.view.Flight.TheVariants.{Idle};
ghost use Rattle.seat_views.specs.Places.{HasParts};
ghost use Rattle.seat_views.specs.Steps.{asked_object, asked_part, asked_value, asked_match};
ghost use Rattle.seat_views.specs.LockSteps.{object_in, stored_by, stamp_in, value_read, StampTold};
ghost use Rattle.seat_views.specs.LockSteps.{HoldsClean, HoldsRead, MayRelease, GlancesAt, GlancesRead};
ghost use Rattle.seat_views.specs.Spots.{IsCell, TakesThere, ReadsThere, PutsThere};
ghost use Rattle.seat_views.specs.Spots.{ReleasesThere, StampsThere, MatchesThere, MissesThere};

use crate::arena::Arena;
use crate::rule::{Asking, Held, Match, Part, Put, Release, Stamp, Take};
use crate::view::View;
use atomic_table::Seat;
use op_table::{Call, Kind};
use place_core::{Place, with_part};

/// An object's kind and its parts.
#[derive(Clone, Copy)]
pub(crate) struct Cell {
    pub kind: Kind,
    pub lock: u32,
    pub first: u32,
    pub parts: u32,
    pub bits: u32,
}

/// Where an object's parts are.
#[tactic(auto, using(crate::proofs::Spots::parts_facts))]
#[inline(always)]
pub(crate) fn parts_cell(arena: &Arena, object: u32) -> Cell
    requires { HasParts arena.now.shape object }
    ensures place { IsCell arena.now.shape object result }
    ensures kind { (kind_of arena.now.shape object ≡ result.kind) × IsKind result.kind }
    ensures parts { (1 ≤ result.parts) × (result.parts ≤ 4) }
    ensures bits { (result.bits ≡ arena.now.shape.word_bits) × (0 < result.bits) × (result.bits ≤ 64) }
    ensures all { result.bits * result.parts ≤ 128 }
{
    let object = arena.shape().objects.at(object as usize);
    let Place::Parts {
        lock,
        first,
        parts,
        part_bits,
    } = object.place
    else {
        unreachable!()
    };
    Cell {
        kind: object.kind,
        lock,
        first,
        parts,
        bits: part_bits,
    }
}

#[tactic(auto, using(crate::proofs::Joining::join_none, crate::proofs::Joining::join_more, crate::proofs::Joining::part_ends, crate::proofs::Joining::bits_more, crate::proofs::Joining::bits_none))]
/// The number whose parts these are.
#[inline(always)]
pub(crate) fn join(read: &[u64; 4], parts: u32, bits: u32) -> u128
    requires parts { parts ≤ 4 }
    requires bits { (0 < bits) × (bits * parts ≤ 128) }
    requires small { (i : ℕ) → slice_index read.now i < 2 ^ bits }
    ensures value { result ≡ joined bits (slice_index read.now) parts }
    ensures fits { result < 2 ^ (bits * parts) }
{
    let mut value = 0;
    for i in 0..parts {
        value = with_part(bits, i, value, read[i as usize]);
    }
    value
}

/// Swaps 1 into the lock, and answers what it found.
#[inline(always)]
pub(crate) fn take_as<J: Asking>(
    arena: &Arena,
    seat: &mut Seat<(), View>,
    object: u32,
    cell: Cell,
) -> u64
    requires asked { J.ask ≡ asked_object object arena.now.first_stamp }
    requires arena { seat.old.table_id ≡ arena.now.id }
    requires object { IsCell arena.now.shape object cell }
    requires rest { seat.old.me.0.flight ≡ Idle }
    ensures same { (seat.new.table_id ≡ seat.old.table_id) × (seat.new.me.1 ≡ seat.old.me.1) }
    ensures took { TakesThere arena.now.shape object cell seat.old.me.0 result seat.new.me.0 }
    ensures even { result ≢ 1 → result % 2 ≡ 0 }
    ensures found { StampTold J.ask seat.old.me.0 result }
{
    let word = 1 + arena.opening.shape.words as usize + cell.lock as usize;
    arena.table.shared.swap::<Take<J>>(seat, word, 1)
}

/// Loads a part under the lock.
#[inline(always)]
pub(crate) fn held_as<J: Asking>(
    arena: &Arena,
    seat: &mut Seat<(), View>,
    object: u32,
    cell: Cell,
    part: u32,
) -> u64
    requires asked { J.ask ≡ asked_part part }
    requires arena { seat.old.table_id ≡ arena.now.id }
    requires object { IsCell arena.now.shape object cell }
    requires part { part < cell.parts }
    requires pass { seat.old.me.0.role ≡ role.Pass }
    requires hold { HoldsClean object seat.old.me.0.flight }
    ensures same { (seat.new.table_id ≡ seat.old.table_id) × (seat.new.me.1 ≡ seat.old.me.1) }
    ensures read { ReadsThere kind.Held cell part seat.old.me.0 result seat.new.me.0 }
    ensures small { result < 2 ^ seat.old.me.0.shape.word_bits }
    ensures of_kind { result < values_of (kind_of seat.old.me.0.shape (object_in seat.old.me.0.flight)) }
{
    let word = 1 + (cell.first as usize + part as usize);
    arena.table.shared.load::<Held<J>>(seat, word)
}

/// Stores a part.
#[inline(always)]
pub(crate) fn put_as<J: Asking>(
    arena: &Arena,
    seat: &mut Seat<(), View>,
    object: u32,
    cell: Cell,
    part: u32,
    number: u64,
)
    requires asked { J.ask ≡ asked_part part }
    requires arena { seat.old.table_id ≡ arena.now.id }
    requires object { IsCell arena.now.shape object cell }
    requires part { part < cell.parts }
    requires number { number < 2 ^ arena.now.shape.word_bits }
    requires hold { HoldsRead object cell.parts seat.old.me.0.flight }
    ensures same { (seat.new.table_id ≡ seat.old.table_id) × (seat.new.me.1 ≡ seat.old.me.1) }
    ensures put { PutsThere cell part seat.old.me.0 number seat.new.me.0 }
{
    let word = 1 + (cell.first as usize + part as usize);
    arena.table.shared.store::<Put<J>>(seat, word, number);
}

/// Stores the stamp, which ends the call.
#[inline(always)]
pub(crate) fn release_as<J: Asking>(
    arena: &Arena,
    seat: &mut Seat<(), View>,
    object: u32,
    cell: Cell,
    call: &Call,
    value: u128,
    stamp: u64,
)
    requires asked { J.ask ≡ asked_value cell.kind object call.now value }
    requires arena { seat.old.table_id ≡ arena.now.id }
    requires object { IsCell arena.now.shape object cell }
    requires kind { kind_of arena.now.shape object ≡ cell.kind }
    requires fits { CallFits (kind_of arena.now.shape object) call.now }
    requires pass { seat.old.me.0.role ≡ role.Pass }
    requires hold { MayRelease arena.now.shape object call.now seat.old.me.0.flight }
    requires value { value ≡ value_read arena.now.shape object seat.old.me.0.flight }
    requires stamp { stamp ≡ stored_by seat.old.me.0.flight }
    ensures same { (seat.new.table_id ≡ seat.old.table_id) × (seat.new.me.1 ≡ seat.old.me.1) }
    ensures grows { ReleasesThere arena.now.shape object cell call.now value seat.old.me.0 stamp seat.new.me.0 }
    ensures small { value < values_of cell.kind }
{
    let word = 1 + arena.opening.shape.words as usize + cell.lock as usize;
    arena.table.shared.store::<Release<J>>(seat, word, stamp);
}

/// Loads the lock's stamp, to begin a glance.
#[inline(always)]
pub(crate) fn stamp_as<J: Asking>(
    arena: &Arena,
    seat: &mut Seat<(), View>,
    object: u32,
    cell: Cell,
) -> u64
    requires asked { J.ask ≡ asked_object object arena.now.first_stamp }
    requires arena { seat.old.table_id ≡ arena.now.id }
    requires object { IsCell arena.now.shape object cell }
    requires rest { seat.old.me.0.flight ≡ Idle }
    ensures same { (seat.new.table_id ≡ seat.old.table_id) × (seat.new.me.1 ≡ seat.old.me.1) }
    ensures stamp { StampsThere arena.now.shape object cell seat.old.me.0 result seat.new.me.0 }
    ensures found { StampTold J.ask seat.old.me.0 result }
{
    let word = 1 + arena.opening.shape.words as usize + cell.lock as usize;
    arena.table.shared.load::<Stamp<J>>(seat, word)
}

/// Loads a part in a glance.
#[inline(always)]
pub(crate) fn part_as<J: Asking>(
    arena: &Arena,
    seat: &mut Seat<(), View>,
    object: u32,
    cell: Cell,
    part: u32,
) -> u64
    requires asked { J.ask ≡ asked_part part }
    requires arena { seat.old.table_id ≡ arena.now.id }
    requires object { IsCell arena.now.shape object cell }
    requires part { part < cell.parts }
    requires pass { seat.old.me.0.role ≡ role.Pass }
    requires glance { GlancesAt object seat.old.me.0.flight }
    ensures same { (seat.new.table_id ≡ seat.old.table_id) × (seat.new.me.1 ≡ seat.old.me.1) }
    ensures read { ReadsThere kind.Part cell part seat.old.me.0 result seat.new.me.0 }
    ensures small { result < 2 ^ seat.old.me.0.shape.word_bits }
{
    let word = 1 + (cell.first as usize + part as usize);
    arena.table.shared.load::<Part<J>>(seat, word)
}

/// Loads the lock's stamp again, which ends the glance.
#[inline(always)]
pub(crate) fn match_as<J: Asking>(
    arena: &Arena,
    seat: &mut Seat<(), View>,
    object: u32,
    cell: Cell,
    value: u128,
    stamp: u64,
) -> u64
    requires asked { J.ask ≡ asked_match object value stamp }
    requires arena { seat.old.table_id ≡ arena.now.id }
    requires object { IsCell arena.now.shape object cell }
    requires pass { seat.old.me.0.role ≡ role.Pass }
    requires glance { GlancesRead object cell.parts seat.old.me.0.flight }
    requires value { value ≡ value_read arena.now.shape object seat.old.me.0.flight }
    requires stamp { stamp ≡ stamp_in seat.old.me.0.flight }
    ensures same { (seat.new.table_id ≡ seat.old.table_id) × (seat.new.me.1 ≡ seat.old.me.1) }
    ensures stands { MatchesThere arena.now.shape object cell value stamp seat.old.me.0 result seat.new.me.0 }
    ensures differs { MissesThere arena.now.shape cell stamp seat.old.me.0 result seat.new.me.0 }
{
    let word = 1 + arena.opening.shape.words as usize + cell.lock as usize;
    arena.table.shared.load::<Match<J>>(seat, word)
}
