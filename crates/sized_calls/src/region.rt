//! A region of bytes, and the calls on its cells.

ghost use Rattle.std.specs.Prelude.{◌≡◌, ◌≤◌, true, length, IfOk, IfErr, Some, None, MatchOption, MatchResult};
ghost use Rattle.target_desc.specs.Target.{IsTarget};
ghost use Rattle.place_core.specs.Shapes.{most_in_shape};
ghost use Rattle.seat_views.specs.declared.view.Flight.TheVariants.{Idle};
ghost use Rattle.seat_views.specs.States.{IsOf};
ghost use Rattle.sized_calls.specs.Cells.{first_fault};
ghost use Rattle.sized_calls.specs.Calls.{cell_with, sized_fault, IsCellAt};
ghost use Rattle.sized_calls.specs.Regions.{IsRegion, OpensCells, RefusesCells, CallsCell, RefusesCall};

use crate::cells::{Cell, RegionFault, cell_shape, first_fault, kind_of_size};
use crate::operation::{SizedCall, SizedFault};
use atomic_types::Served;
use op_table::{Reply, call_fits};
use seat_views::{Arena, Pass, Root};
use std::alloc::Global;
use std::marker::Model;
use std::sync::Wait;
use target_desc::Target;

/// Bytes with cells, each of which has one size for good. Threads share it. Contracts see the target, the cells and the
/// arena; object n of the arena is that of cell n.
#[derive(Drop)]
pub struct Region {
    target: Target,
    cells: Vec<Cell>,
    arena: Arena,
}

impl Model for Region {
    ghost use Rattle.sized_calls.specs.Regions.{RegionState};

    ghost Value = { RegionState };

    ghost use Rattle.sized_calls.specs.Regions.{IsRegion};

    ghost view = { λ r. record { target = r.target; cells = r.cells.items; arena = r.arena } };

    ghost invariant = { λ r. IsRegion (record { target = r.target; cells = r.cells.items; arena = r.arena }) };
}

impl Region {
    /// Opens a region of cells on a packed target, in which each cell has its start, and gives its root. Where a cell
    /// has a fault, the answer is that of the first one that has. `NoMemory` comes only where none has, and then nothing
    /// is left.
    pub fn open(
        alloc: Global,
        target: &Target,
        cells: &[Cell],
    ) -> Result<(Region, Root), RegionFault>
        requires target { IsTarget target.now }
        requires packed { target.now.packed ≡ true }
        requires most { length cells.now ≤ most_in_shape }
        ensures opens { IfOk result (λ r. OpensCells target.now cells.now r.0 r.1) }
        ensures refuses { IfErr result (λ fault. RefusesCells (first_fault target.now cells.now) fault) }
    {
        if let Some(fault) = first_fault(target, cells) {
            return Err(fault);
        }
        let shape = cell_shape(alloc, target, cells).map_err(|_| RegionFault::NoMemory)?;
        let kept = cells.to_vec(alloc).map_err(|_| RegionFault::NoMemory)?;
        let (arena, root) = Arena::open(alloc, shape, 0).map_err(|_| RegionFault::NoMemory)?;
        let region = Region {
            target: *target,
            cells: kept,
            arena,
        };
        Ok((region, root))
    }

    /// The arena of the cells' objects. Passes for the region's calls are of this arena.
    pub fn arena(&self) -> &Arena
        ensures arena { result.now ≡ self.now.arena }
        ensures kept { IsRegion self.now }
    {
        &self.arena
    }

    /// The number of the cell that has an address, found in as many steps as the number of cells has bits.
    fn number_at(&self, address: u64) -> Option<usize>
        ensures { MatchOption result (cell_with self.now.cells address ≡ None) (λ number. IsCellAt self.now.cells address number) }
    {
        self.cells
            .binary_search_by_key(&address, |cell| cell.address)
            .ok()
    }

    /// The object that a call is made on, or why the call is refused.
    fn object_for(&self, call: &SizedCall) -> Result<u32, SizedFault>
        ensures { MatchResult result (λ object. (sized_fault self.now.cells call.now ≡ None) × IsCellAt self.now.cells call.now.address object) (λ fault. sized_fault self.now.cells call.now ≡ Some fault) }
    {
        let Some(number) = self.number_at(call.address) else {
            return Err(SizedFault::NoCell);
        };
        if self.cells[number].size != call.size {
            return Err(SizedFault::BadSize);
        }
        if !call_fits(kind_of_size(call.size), &call.call()) {
            return Err(SizedFault::BadValue);
        }
        if !call.accepts() {
            return Err(SizedFault::BadOrder);
        }
        Ok(number as u32)
    }

    /// Makes a call on the object at its address, as GCC's libatomic makes it, with the reply of the table of
    /// operations: a load and a `Fetch..` reply the value before, a `..Fetch` the value after, a store nothing, an
    /// exchange that compares `Done` or `Failed` with the value before. It is never spurious. A refused call makes no
    /// step. Where the object's plan isn't one step it may wait for other threads.
    pub fn call<R: Wait>(
        &self,
        rt: &R,
        pass: &mut Pass,
        call: &SizedCall,
    ) -> Result<Reply, SizedFault>
        requires arena { IsOf self.now.arena pass.old }
        requires rest { pass.old.flight ≡ Idle }
        ensures makes { IfOk result (λ reply. CallsCell self.now call.now pass.old reply pass.new) }
        ensures refuses { IfErr result (λ fault. RefusesCall self.now call.now pass.old fault pass.new) }
    {
        let object = self.object_for(call)?;
        Ok(Served { object }.call(rt, &self.arena, pass, &call.call()))
    }
}
