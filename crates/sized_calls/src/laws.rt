//! Laws of the shape of cells: each is the clause of a function that does nothing.

ghost use Rattle.sized_calls.specs.Laws.{CellsAreShape, ObjectIsCell, LockIsAddress};

/// The shape of cells without a fault is a valid one.
pub fn cells_are_shape()
    ensures { CellsAreShape }
{}

/// Object n is cell n: the unsigned integer of its size, placed at its own address, with its start.
pub fn object_is_cell()
    ensures { ObjectIsCell }
{}

/// The lock of an object with parts is its cell's address modulo the number of locks.
pub fn lock_is_address()
    ensures { LockIsAddress }
{}
