//! Fixed values of the objects of a shape under scripts.

ghost use Rattle.std.specs.Prelude.{◌≡◌, length, map, IfOk};
ghost use Rattle.place_core.specs.Shapes.{IsShape, cells_of_shape};
ghost use Rattle.place_core.specs.Pieces.{script_lines};
ghost use Rattle.place_core.specs.Runs.{ScriptsFit};
ghost use Rattle.ledger_sums.specs.Fixed.{fixed_values_of};

use crate::tally::{Tally, add_scripts, first_tallies, settled};
use op_table::NoMemory;
use place_core::{Script, Shape};
use std::alloc::Global;
use std::marker::Model;

/// Of each object its fixed value, where it has one; contracts see it as the list of these, in declared order.
#[derive(Drop)]
pub struct Fixed {
    tallies: Vec<Tally>,
}

impl Model for Fixed {
    ghost use Rattle.std.specs.Prelude.{ℕ, List, Option, map};
    ghost use Rattle.ledger_sums.specs.Tallies.{settled};

    ghost Value = { List (Option ℕ) };

    ghost view = { λ f. map settled f.tallies.items };
}

impl Fixed {
    ghost use Rattle.std.specs.Prelude.{◌≡◌, ◌<◌, length, slice_get, Some};

    /// The fixed value of an object, counted from 0; None where its last value may depend on the order of calls.
    pub fn at(&self, object: u32) -> Option<u128>
        requires { object < length self.now }
        ensures { slice_get self.now object ≡ Some result }
    {
        settled(self.tallies[object as usize])
    }
}

/// The fixed values of a shape's objects under scripts: of each object the last value that it has in whichever order
/// the threads make their calls, where all calls on it are loads and members of one family. It takes one pass over
/// the scripts.
pub fn fixed_values(alloc: Global, shape: &Shape, scripts: &[Script]) -> Result<Fixed, NoMemory>
    requires shape { IsShape shape.now }
    requires fits { ScriptsFit (cells_of_shape shape.now) (map script_lines scripts.now) }
    ensures values { IfOk result (λ f. f ≡ fixed_values_of (cells_of_shape shape.now) (map script_lines scripts.now)) }
    ensures whole { IfOk result (λ f. length f ≡ length shape.now.objects) }
{
    let mut tallies = first_tallies(alloc, shape.objects.as_slice())?;
    add_scripts(shape, tallies.as_mut_slice(), scripts);
    Ok(Fixed { tallies })
}
