//! Cells of a region, and the shape that they make.

ghost use Rattle.std.specs.Prelude.{◌≡◌, ◌+◌, ◌≤◌, ◌^◌, ◌%◌, true, length, map, None, IfOk};
ghost use Rattle.target_desc.specs.Target.{IsTarget};
ghost use Rattle.place_core.specs.Shapes.{IsShape, most_in_shape};
ghost use Rattle.sized_calls.specs.Sizes.{is_size};
ghost use Rattle.sized_calls.specs.Cells.{most_bytes, cell_fault, faults_from, first_fault, kind_of_size, cell_object, last_end, cell_shape};

use layout_plan::{place_at, words_for};
use op_table::{Call, Class, Kind, NoMemory, Width, call_fits};
use place_core::{Object, Objects, Shape};
use std::alloc::Global;
use target_desc::Target;
use thiserror::Error;

/// A cell of a region: an object that has one size for good.
#[derive(Clone, Copy, Debug, PartialEq, Eq)]
pub struct Cell {
    /// The number of its first byte, a multiple of the size.
    pub address: u64,
    /// Its bytes: 1, 2, 4, 8 or 16.
    pub size: u32,
    /// The value that it begins with, below 2 to 8 times the size.
    pub start: u128,
}

/// Why cells can't be opened. Cells count from 0. The first cell with a fault decides, and at one cell the first of
/// these causes.
#[derive(Clone, Copy, Debug, PartialEq, Eq, Error)]
pub enum RegionFault {
    /// The size is none of 1, 2, 4, 8 and 16.
    #[error("cell {cell} has no size of a cell")]
    BadSize { cell: u32 },
    /// The address isn't a multiple of the size.
    #[error("cell {cell} isn't aligned")]
    Unaligned { cell: u32 },
    /// The address is below the end of the cell before.
    #[error("cell {cell} isn't after the cell before")]
    NotAfter { cell: u32 },
    /// The end of the cell is past the most words that an arena has, 2 to the 24.
    #[error("cell {cell} is too far")]
    TooFar { cell: u32 },
    /// The start has more bits than the cell.
    #[error("cell {cell} is too small for its start")]
    BadStart { cell: u32 },
    /// Memory was refused. No cell has a fault.
    #[error("no memory")]
    NoMemory,
}

/// Whether an object may have a size.
fn is_size(size: u32) -> bool
    ensures { result ≡ is_size size }
{
    matches!(size, 1 | 2 | 4 | 8 | 16)
}

/// The unsigned integer of a size, 1, 2, 4, 8 or 16.
pub(crate) fn kind_of_size(size: u32) -> Kind
    ensures { result ≡ kind_of_size size }
{
    let width = match size {
        1 => Width::W8,
        2 => Width::W16,
        4 => Width::W32,
        8 => Width::W64,
        _ => Width::W128,
    };
    Kind {
        width,
        signed: false,
        class: Class::Int,
    }
}

/// How many bytes a region may have.
fn most_bytes(target: &Target) -> u64
    requires { IsTarget target.now }
    ensures { result ≡ most_bytes target.now }
{
    (1 << 24) * u64::from(target.word_bits / 8)
}

/// The first cause of a fault at a cell with this number, where the cell before it ends at `end`.
fn cell_fault(target: &Target, number: u32, end: u64, cell: &Cell) -> Option<RegionFault>
    requires { IsTarget target.now }
    ensures { result ≡ cell_fault target.now number end cell.now }
{
    if !is_size(cell.size) {
        return Some(RegionFault::BadSize { cell: number });
    }
    if cell.address % u64::from(cell.size) != 0 {
        return Some(RegionFault::Unaligned { cell: number });
    }
    if cell.address < end {
        return Some(RegionFault::NotAfter { cell: number });
    }
    if cell.address > most_bytes(target) - u64::from(cell.size) {
        return Some(RegionFault::TooFar { cell: number });
    }
    if !call_fits(kind_of_size(cell.size), &Call::Store(cell.start)) {
        return Some(RegionFault::BadStart { cell: number });
    }
    None
}

/// The fault of the first cell that has one.
pub(crate) fn first_fault(target: &Target, cells: &[Cell]) -> Option<RegionFault>
    requires target { IsTarget target.now }
    requires most { length cells.now ≤ most_in_shape }
    ensures { result ≡ first_fault target.now cells.now }
{
    let mut number = 0;
    let mut end = 0;
    let mut rest = cells;
    'cells: while let [first, others @ ..] = rest {
        let fault = cell_fault(target, number, end, first);
        if fault.is_some() {
            return fault;
        }
        number += 1;
        end = first.address + u64::from(first.size);
        rest = others;
    }
    None
}

/// The object of a cell without a fault, at the cell's own address.
fn cell_object(target: &Target, cell: &Cell) -> Object
    requires target { IsTarget target.now }
    requires packed { target.now.packed ≡ true }
    requires size { is_size cell.now.size ≡ true }
    requires aligned { cell.now.address % cell.now.size ≡ 0 }
    requires near { cell.now.address + cell.now.size ≤ most_bytes target.now }
    ensures { result ≡ cell_object target.now cell.now }
{
    let kind = kind_of_size(cell.size);
    Object {
        kind,
        place: place_at(target, kind, cell.address as u32),
        start: cell.start,
    }
}

/// The shape of cells without a fault, each at its own address on a packed target. It is a valid one.
pub(crate) fn cell_shape(alloc: Global, target: &Target, cells: &[Cell]) -> Result<Shape, NoMemory>
    requires target { IsTarget target.now }
    requires packed { target.now.packed ≡ true }
    requires most { length cells.now ≤ most_in_shape }
    requires none { first_fault target.now cells.now ≡ None }
    ensures layout { IfOk result (λ s. s ≡ cell_shape target.now cells.now) }
    ensures valid { IfOk result (λ s. IsShape s) }
{
    let mut laid = Vec::new(alloc);
    let mut end = 0;
    let mut rest = cells;
    'cells: while let [first, others @ ..] = rest {
        laid.push(cell_object(target, first)).map_err(|_| NoMemory)?;
        end = first.address + u64::from(first.size);
        rest = others;
    }
    Ok(Shape {
        word_bits: target.word_bits,
        steps: target.steps,
        section: target.section,
        words: words_for(target, end as u32),
        locks: target.locks,
        objects: Objects::of(laid),
    })
}
