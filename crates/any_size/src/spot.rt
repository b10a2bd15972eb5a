//! Where an object lies.

/// An object's first word, its lock's word, how many words and how many bytes it has.
#[derive(Clone, Copy)]
pub struct Spot {
    pub first: u32,
    pub lock: u32,
    pub count: u32,
    pub size: u32,
}
