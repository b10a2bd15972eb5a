//! The shape of an arena: its words, its locks, and where its objects lie.

ghost use Rattle.std.specs.Prelude.{◌≡◌, ◌↔◌, ◌<◌, ◌≤◌, ◌+◌, ◌^◌, length, slice_get, Some, IsTrue};
ghost use Rattle.place_core.specs.Shapes.{IsShape, data_word, lock_word};

use crate::places::Object;
use op_table::StepSet;
use std::marker::Model;

/// The objects of a shape, in declared order. Contracts see it as the list of them.
#[derive(Drop)]
pub struct Objects {
    objects: Vec<Object>,
}

impl Model for Objects {
    ghost use Rattle.std.specs.Prelude.{List};
    ghost use Rattle.place_core.specs.declared.places.Object.{Object};

    ghost Value = { List Object };

    ghost view = { λ o. o.objects.items };
}

impl Objects {
    ghost use Rattle.std.specs.Prelude.{◌≡◌, ◌<◌, length, slice_get, Some};

    /// These objects, in this order.
    pub fn of(objects: Vec<Object>) -> Objects
        ensures { result ≡ objects.items }
    {
        Objects { objects }
    }

    /// The number of objects.
    #[inline(always)]
    pub fn len(&self) -> usize
        ensures { result ≡ length self.now }
    {
        self.objects.len()
    }

    /// The object of a number, counted from 0.
    #[inline(always)]
    pub fn at(&self, index: usize) -> Object
        requires { index < length self.now }
        ensures { slice_get self.now index ≡ Some result }
    {
        self.objects[index]
    }

    /// All objects, in order.
    pub fn as_slice(&self) -> &[Object]
        ensures { result.now ≡ self.now }
    {
        self.objects.as_slice()
    }
}

/// How many words and locks there are, what steps a word has, and where the objects lie. Not every value is a
/// shape; `shape_ok` tells.
#[derive(Drop)]
pub struct Shape {
    /// The bits of a target word, 32 or 64. Each is kept in the high bits of a table word of 64 bits.
    pub word_bits: u32,
    pub steps: StepSet,
    /// Whether all objects lie under one lock, lock 0.
    pub section: bool,
    /// The number of data words, to 2 to the 24.
    pub words: u32,
    /// The number of locks, 1 to 67.
    pub locks: u32,
    pub objects: Objects,
}

/// The table word of a data word. Table word 0 is none.
pub fn data_word(w: u32) -> u32
    requires { w < 2 ^ 24 }
    ensures { result ≡ data_word w }
{
    1 + w
}

/// The table word of a lock: the locks stand after the data words.
pub fn lock_word(shape: &Shape, l: u32) -> u32
    requires shape { IsShape shape.now }
    requires lock { l < shape.now.locks }
    ensures { result ≡ lock_word shape.now l }
{
    1 + shape.words + l
}
