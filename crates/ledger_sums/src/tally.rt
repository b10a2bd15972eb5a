//! Tallies: of each object what the calls on it have been so far, and the value that they leave.

ghost use Rattle.std.specs.Prelude.{◌≡◌, ◌<◌, map, IfOk};
ghost use Rattle.op_table.specs.Kind.{values_of, IsKind};
ghost use Rattle.op_table.specs.Call.{CallFits};
ghost use Rattle.place_core.specs.Shapes.{IsShape, cells_of_shape};
ghost use Rattle.place_core.specs.Pieces.{script_lines};
ghost use Rattle.place_core.specs.Runs.{asked_of, HasCall, ScriptFits, ScriptsFit};
ghost use Rattle.ledger_sums.specs.Tallies.{with_call, settled, AreTallies};
ghost use Rattle.ledger_sums.specs.Tallies.{first_tallies, next_tallies, tallies_after, tallies_end};

use crate::families::{Mix, joined, mix_of};
use op_table::{Call, Kind, NoMemory, after};
use place_core::{Line, Object, Script, Shape};
use std::alloc::Global;

/// What the calls on an object have been so far, and the value that they leave when they are made in this order.
#[derive(Clone, Copy, Debug, PartialEq, Eq)]
pub struct Tally {
    pub mix: Mix,
    pub value: u128,
}

/// The value, unless the calls are of no one family.
pub fn settled(tally: Tally) -> Option<u128>
    ensures { result ≡ settled tally }
{
    match tally.mix {
        Mix::Loads => Some(tally.value),
        Mix::One(_) => Some(tally.value),
        Mix::Other => None,
    }
}

/// A tally with one call more.
fn with_call(kind: Kind, tally: Tally, call: &Call) -> Tally
    requires kind { IsKind kind }
    requires call { CallFits kind call.now }
    requires value { tally.value < values_of kind }
    ensures after { result ≡ with_call kind tally call.now }
    ensures value { result.value < values_of kind }
{
    Tally {
        mix: joined(tally.mix, mix_of(call)),
        value: after(kind, call, tally.value),
    }
}

/// The tallies of objects without calls.
pub fn first_tallies(alloc: Global, objects: &[Object]) -> Result<Vec<Tally>, NoMemory>
    ensures { IfOk result (λ v. v.items ≡ first_tallies objects.now) }
{
    let mut tallies = Vec::new(alloc);
    let mut rest = objects;
    'objects: while let [object, next @ ..] = rest {
        let tally = Tally {
            mix: Mix::Loads,
            value: object.start,
        };
        tallies.push(tally).map_err(|_| NoMemory)?;
        rest = next;
    }
    Ok(tallies)
}

/// Adds a call to its object's tally.
fn add_line(shape: &Shape, tallies: &mut [Tally], line: &Line)
    requires shape { IsShape shape.now }
    requires fits { HasCall (cells_of_shape shape.now) (asked_of line.now) }
    requires tallies { AreTallies shape.now tallies.old }
    ensures after { tallies.new ≡ next_tallies shape.now tallies.old line.now }
    ensures tallies { AreTallies shape.now tallies.new }
{
    let number = line.object as usize;
    let kind = shape.objects.at(number).kind;
    let tally = tallies[number];
    tallies[number] = with_call(kind, tally, &line.call);
}

/// Adds the calls of a script, in order.
fn add_script(shape: &Shape, tallies: &mut [Tally], script: &Script)
    requires shape { IsShape shape.now }
    requires fits { ScriptFits (cells_of_shape shape.now) (script_lines script.now) }
    requires tallies { AreTallies shape.now tallies.old }
    ensures after { tallies.new ≡ tallies_after shape.now tallies.old (script_lines script.now) }
    ensures tallies { AreTallies shape.now tallies.new }
{
    let mut lines = script.lines();
    'lines: while let Some(line) = lines.next() {
        add_line(shape, tallies, line);
    }
}

/// Adds the calls of all scripts, one script after another.
pub fn add_scripts(shape: &Shape, tallies: &mut [Tally], scripts: &[Script])
    requires shape { IsShape shape.now }
    requires fits { ScriptsFit (cells_of_shape shape.now) (map script_lines scripts.now) }
    requires tallies { AreTallies shape.now tallies.old }
    ensures after { tallies.new ≡ tallies_end shape.now tallies.old (map script_lines scripts.now) }
    ensures tallies { AreTallies shape.now tallies.new }
{
    let mut rest = scripts;
    'scripts: while let [script, next @ ..] = rest {
        add_script(shape, tallies, script);
        rest = next;
    }
}
