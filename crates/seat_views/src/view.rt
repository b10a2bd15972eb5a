//! What the seats of an arena know. No value of these types is made: contracts and the arena's rule speak of them.

use place_core::{Entry, Shape};
use std::collections::LinkedList;

/// What an arena is opened with, and what its rule reads: its shape, and the first stamp of each lock.
#[derive(Drop)]
pub struct Opening {
    pub shape: Shape,
    pub first_stamp: u64,
}

/// The kind of an atomic step.
pub enum StepKind {
    /// A word operation on a lane's word that makes a whole call.
    Op,
    /// A load of a lane's word.
    Look,
    /// A compare and exchange of a lane's word.
    Try,
    /// 1 is swapped into a lock.
    Take,
    /// A load of a part under the lock.
    Held,
    /// A store of a part under the lock.
    Put,
    /// A store of a stamp into the lock that was held.
    Release,
    /// A load of a lock's stamp, which begins a glance.
    Stamp,
    /// A load of a part in a glance.
    Part,
    /// A load of the lock's stamp again, which ends a glance.
    Match,
}

/// A step that was made: the table word, the kind of step, and the number stored by a put or a release, none at a
/// word operation that is a store, and the number found at every other step.
pub struct Item {
    pub word: u32,
    pub kind: StepKind,
    pub number: Option<u64>,
}

/// A pass that was taken back: its number, its own entries and its steps, in order, and how many loads it made aside.
pub struct Ended {
    pub number: u32,
    pub entries: LinkedList<Entry>,
    pub trail: LinkedList<Item>,
    pub aside: u64,
}

/// The call in flight. Parts are pairs of a part's number and what it holds, the latest first.
pub enum Flight {
    Idle,
    /// A lock is held: for this object, with this stamp, these parts were read, whether one was written, and, once
    /// one was written, the parts as they are.
    Hold(u32, u64, LinkedList<(u32, u64)>, bool, LinkedList<(u32, u64)>),
    /// A glance: at this object, at this stamp, these parts were read.
    Glance(u32, u64, LinkedList<(u32, u64)>),
}

/// What a seat stands for. The root is the pass of number 0.
pub enum Role {
    Pass,
    Note,
    /// It was joined to another.
    Spent,
}

/// A view that was joined to this one, and whose history is not yet compared with this one's.
pub enum Beside {
    Nobody,
    /// A pass: its number, what it has seen, its own entries, its steps and its loads aside.
    Pass(u32, LinkedList<Entry>, LinkedList<Entry>, LinkedList<Item>, u64),
    /// A note: what it has seen.
    Note(LinkedList<Entry>),
}

/// What a seat knows: of a pass its number, the history that it has seen, its own entries, its steps and the call in
/// flight; of the root's pass besides the count of numbers given, and the passes that were taken back. Each atomic step
/// of a pass is an item of its trail, or is counted aside: a load of word 0, by which numbers and notes are given, passes
/// and notes are taken in, and glances are dropped.
pub struct View {
    pub role: Role,
    pub shape: Shape,
    pub number: u32,
    pub seen: LinkedList<Entry>,
    pub mine: LinkedList<Entry>,
    pub trail: LinkedList<Item>,
    pub aside: u64,
    pub flight: Flight,
    pub beside: Beside,
    pub given: u32,
    pub ended: LinkedList<Ended>,
}
