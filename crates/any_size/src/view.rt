//! What the seats of blocks know. No value of these types is made: contracts and the rule of the blocks speak of them.

use crate::block::Block64;
use crate::call::BlockEntry;
use std::collections::LinkedList;

/// What blocks are opened with, and what their rule reads: the value that each object begins with, and how many locks
/// there are.
#[derive(Drop)]
pub struct BlockOpening {
    pub starts: Vec<Block64>,
    pub locks: u32,
}

/// The kind of an atomic step.
pub enum BlockStep {
    /// 1 is swapped into a lock.
    Take,
    /// A load of a word under the lock.
    Held,
    /// A store of a word under the lock.
    Put,
    /// A store of 0 into the lock that was held.
    Release,
}

/// A step that was made: the table word, the kind of step, and the number stored by a put or a release, and found by a
/// take or a held.
pub struct BlockItem {
    pub word: u32,
    pub kind: BlockStep,
    pub number: u64,
}

/// A pass that was taken back: its number, its own entries and its steps, in order, and how many loads it made aside.
pub struct BlockEnded {
    pub number: u32,
    pub entries: LinkedList<BlockEntry>,
    pub trail: LinkedList<BlockItem>,
    pub aside: u64,
}

/// The call in flight.
pub enum Hold {
    Idle,
    /// The lock is held: for this object, these words were read and these were written, from its first word on.
    Held(u32, LinkedList<u64>, LinkedList<u64>),
}

/// What a seat stands for. The root is the pass of number 0.
pub enum BlockRole {
    Pass,
    /// It was joined to another.
    Spent,
}

/// A pass that was joined to this one, and whose history is not yet compared with this one's.
pub enum Beside {
    Nobody,
    /// Its number, what it has seen, its own entries, its steps and its loads aside.
    Pass(u32, LinkedList<BlockEntry>, LinkedList<BlockEntry>, LinkedList<BlockItem>, u64),
}

/// What a seat knows: the starts and the number of locks; its number, the history that it has seen, its own entries, its
/// steps and the call in flight; of the root's pass besides the count of numbers given, and the passes that were taken
/// back. Each atomic step of a pass is an item of its trail, or is counted aside: a load of word 0, by which numbers are
/// given and passes taken back.
pub struct BlockView {
    pub role: BlockRole,
    pub starts: LinkedList<Block64>,
    pub locks: u32,
    pub number: u32,
    pub seen: LinkedList<BlockEntry>,
    pub mine: LinkedList<BlockEntry>,
    pub trail: LinkedList<BlockItem>,
    pub aside: u64,
    pub hold: Hold,
    pub beside: Beside,
    pub given: u32,
    pub ended: LinkedList<BlockEnded>,
}
