//! Helpers of the tests: regions, and calls on them.

ghost use Rattle.std.specs.Prelude.{IfSome};
ghost use Rattle.seat_views.specs.Trials.{IsReady, IsReadyRoot};

use crate::{Cell, Region, RegionFault, SizedCall, SizedFault, SizedOp};
use op_table::Reply;
use place_core::MOST_IN_SHAPE;
use seat_views::{Pass, Root};
use std::alloc::Global;
use std::sync::Wait;
use target_desc::{Target, target_ok};

/// A region on a target; None where the target isn't packed, or the cells have a fault.
pub(crate) fn open(alloc: Global, target: &Target, cells: &[Cell]) -> Option<(Region, Root)>
    ensures { IfSome result (λ r. IsReadyRoot r.0.arena r.1) }
{
    if !target_ok(target) || !target.packed || cells.len() > MOST_IN_SHAPE {
        return None;
    }
    Region::open(alloc, target, cells).ok()
}

/// Why a region of two cells can't be opened; None where it can.
pub(crate) fn fault_of(
    alloc: Global,
    target: &Target,
    first: Cell,
    second: Cell,
) -> Option<RegionFault> {
    if !target_ok(target) || !target.packed {
        return None;
    }
    Region::open(alloc, target, &[first, second]).err()
}

/// A new pass.
pub(crate) fn give(region: &Region, root: &mut Root) -> Option<Pass>
    requires { IsReadyRoot region.now.arena root.old }
    ensures root { IsReadyRoot region.now.arena root.new }
    ensures pass { IfSome result (λ p. IsReady region.now.arena p) }
{
    root.pass(region.arena()).ok()
}

/// Makes a call.
pub(crate) fn make<R: Wait>(
    rt: &R,
    region: &Region,
    pass: &mut Pass,
    call: SizedCall,
) -> Result<Reply, SizedFault>
    requires { IsReady region.now.arena pass.old }
    ensures { IsReady region.now.arena pass.new }
{
    region.call(rt, pass, &call)
}

/// A call whose orders are the strongest.
pub(crate) fn call(op: SizedOp, size: u32, address: u64, a: u128, b: u128) -> SizedCall {
    SizedCall {
        op,
        size,
        address,
        a,
        b,
        order: 5,
        failure: 5,
    }
}

/// A load of the object at an address.
pub(crate) fn load(size: u32, address: u64) -> SizedCall {
    call(SizedOp::Load, size, address, 0, 0)
}

/// A cell.
pub(crate) fn cell(address: u64, size: u32, start: u128) -> Cell {
    Cell {
        address,
        size,
        start,
    }
}
