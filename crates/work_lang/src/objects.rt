//! Declared objects, found by their names.

ghost use Rattle.std.specs.Prelude.{◌≡◌, ◌∷◌, ◌++◌, [], ◌<◌, ◌^◌, length, None, Some, OnOk, IfSome};
ghost use Rattle.op_table.specs.Kind.{IsKind};
ghost use Rattle.place_core.specs.DeclaredObjects.{IsDeclared};
ghost use Rattle.work_lang.specs.Workload.{object_of};
ghost use Rattle.work_lang.specs.Reading.{kind_at};

use op_table::{Class, Kind, NoMemory, Width};
use place_core::Declared;
use std::alloc::Global;
use std::collections::BTreeMap;
use std::marker::Model;

/// How many places of guesses there are.
const GUESSES: usize = 8_192;

/// Where the number of the object of that name is guessed to stand. Names may share a place.
fn place_of(word: &[u8]) -> usize
    ensures { result < 8192 }
{
    let mut mixed: u64 = 0;
    for byte in word {
        mixed = (mixed ^ u64::from(*byte)).wrapping_mul(0x9e37_79b9_7f4a_7c15);
    }
    (mixed >> 51) as usize
}

/// Objects in declared order, with an index of their names. A look-up compares a name with one that is guessed, and where
/// it has another, with few others; no choice of names makes it compare with more.
#[derive(Drop)]
pub struct Objects {
    alloc: Global,
    items: Vec<Declared>,
    /// At the place of each name the number of the last object that has its name there, so that most names are found by
    /// one comparison. Empty until an object is declared.
    guesses: Vec<u32>,
    index: BTreeMap<Vec<u8>, u32>,
}

impl Model for Objects {
    ghost use Rattle.std.specs.Prelude.{List};
    ghost use Rattle.std.specs.List.{AllByRecursion};
    ghost use Rattle.place_core.specs.declared.name.Declared.{Declared};
    ghost use Rattle.place_core.specs.DeclaredObjects.{IsDeclared};
    ghost use Rattle.std.specs.Prelude.{[]};
    ghost use Rattle.work_lang.specs.Index.{IsIndex};
    ghost use Rattle.work_lang.specs.Workload.{AreDeclared};

    ghost Value = { List Declared };

    ghost view = { λ o. o.items.items };

    ghost invariant = { λ o. IsIndex o.index o.items.items × AllByRecursion IsDeclared o.items.items × AreDeclared [] o.items.items };
}

/// Notes that the object of that name has this number. The first note takes the memory of all.
fn note(alloc: Global, guesses: &mut Vec<u32>, name: &[u8], number: u32) -> Result<(), NoMemory> {
    if guesses.is_empty() {
        match vec![in alloc; 0u32; GUESSES] {
            Ok(places) => *guesses = places,
            Err(_) => return Err(NoMemory),
        }
    }
    if let Some(place) = guesses.get_mut(place_of(name)) {
        *place = number;
    }
    Ok(())
}

impl Objects {
    /// No objects. It takes no memory.
    pub fn new(alloc: Global) -> Objects
        ensures { result ≡ [] }
    {
        Objects {
            alloc,
            items: Vec::new(alloc),
            guesses: Vec::new(alloc),
            index: BTreeMap::new(alloc),
        }
    }

    /// How many objects are declared.
    pub fn len(&self) -> usize
        ensures { result ≡ length self.now }
    {
        self.items.len()
    }

    /// The number of the object of that name, where its place has it.
    fn guess(&self, word: &[u8]) -> Option<u32>
        ensures { IfSome result (λ number. object_of self.now word.now ≡ Some number) }
    {
        let number = *self.guesses.get(place_of(word))?;
        let object = self.items.get(number as usize)?;
        let name = object.name;
        if name.bytes() == word {
            Some(number)
        } else {
            None
        }
    }

    /// The number of the object of that name.
    pub fn find(&self, word: &[u8]) -> Option<u32>
        ensures { result ≡ object_of self.now word.now }
    {
        match self.guess(word) {
            Some(number) => Some(number),
            None => self.index.get(word).copied(),
        }
    }

    /// The kind of an object; bool where there is no object of that number.
    pub fn kind(&self, number: u32) -> Kind
        ensures value { result ≡ kind_at self.now number }
        ensures known { IsKind result }
    {
        match self.items.get(number as usize) {
            Some(object) => object.kind,
            None => Kind {
                width: Width::W1,
                signed: false,
                class: Class::Bool,
            },
        }
    }

    /// Adds an object of a new name.
    pub fn push(&mut self, object: Declared) -> Result<(), NoMemory>
        requires new { object_of self.old object.name ≡ None }
        requires object { IsDeclared object }
        requires few { length self.old < 2 ^ 32 }
        ensures { OnOk result (self.new ≡ self.old ++ object ∷ []) }
    {
        let Ok(name) = Vec::from_slice(self.alloc, object.name.bytes()) else {
            return Err(NoMemory);
        };
        let number = self.items.len() as u32;
        note(self.alloc, &mut self.guesses, object.name.bytes(), number)?;
        let Ok(()) = self.items.push(object) else {
            return Err(NoMemory);
        };
        match self.index.insert(name, number) {
            Ok(_) => Ok(()),
            Err(_) => {
                self.items.pop();
                Err(NoMemory)
            }
        }
    }

    /// The declared objects, in order.
    pub fn into_items(self) -> Vec<Declared>
        ensures { result.items ≡ self }
    {
        let Objects {
            alloc: _,
            items,
            guesses: _,
            index: _,
        } = self;
        items
    }
}
