//! The lines of a script, taken one after another.

ghost use Rattle.std.specs.Prelude.{◌≡◌, ◌∷◌, ◌++◌, [], MatchOption, IfNone};
ghost use Rattle.place_core.specs.Pieces.{times_over, piece_lines, script_lines};

use crate::script::{Line, Piece};
use std::marker::Model;

/// A cursor over the lines of a script, in order. Contracts see the list of the lines that are left.
#[derive(Drop)]
pub struct ScriptLines<'a> {
    /// The rest of the present turn of the open block.
    turn: &'a [Line],
    /// The turns of the open block that are left after it.
    turns: u32,
    /// The lines of the open block.
    block: &'a [Line],
    /// The pieces after it.
    pieces: &'a [Piece],
}

impl<'a> Model for ScriptLines<'a> {
    ghost use Rattle.std.specs.Prelude.{List, ◌++◌};
    ghost use Rattle.place_core.specs.declared.script.Line.{Line};
    ghost use Rattle.place_core.specs.Pieces.{times_over, script_lines};

    ghost Value = { List Line };

    ghost view = { λ c. c.turn.now ++ (times_over c.turns c.block.now ++ script_lines c.pieces.now) };
}

impl<'a> ScriptLines<'a> {
    /// The lines of these pieces.
    pub fn of(pieces: &'a [Piece]) -> ScriptLines<'a>
        ensures { result ≡ script_lines pieces.now }
    {
        ScriptLines {
            turn: &[],
            turns: 0,
            block: &[],
            pieces,
        }
    }

    /// Takes the next line. None where none is left. It passes over a block without lines at once, however many times
    /// the block says.
    #[inline]
    pub fn next(&mut self) -> Option<&'a Line>
        ensures line { MatchOption result (self.old ≡ []) (λ line. self.old ≡ line.now ∷ self.new) }
        ensures none { IfNone result (self.new ≡ self.old) }
    {
        if let [line, after @ ..] = self.turn {
            self.turn = after;
            return Some(line);
        }
        let (line, left) = after_turn(self.turns, self.block, self.pieces)?;
        *self = left;
        Some(line)
    }
}

/// The first line of the turns that are left of a block and of the pieces after it, with the lines that are left.
#[inline]
fn after_turn<'a>(
    turns: u32,
    block: &'a [Line],
    pieces: &'a [Piece],
) -> Option<(&'a Line, ScriptLines<'a>)>
    ensures { MatchOption result (times_over turns block.now ++ script_lines pieces.now ≡ []) (λ found. times_over turns block.now ++ script_lines pieces.now ≡ found.0.now ∷ found.1) }
{
    if let Some(found) = first_of_block(turns, block, pieces) {
        return Some(found);
    }
    first_of(pieces)
}

/// The first line of pieces, with the lines that are left.
#[inline]
fn first_of<'a>(pieces: &'a [Piece]) -> Option<(&'a Line, ScriptLines<'a>)>
    ensures { MatchOption result (script_lines pieces.now ≡ []) (λ found. script_lines pieces.now ≡ found.0.now ∷ found.1) }
{
    let mut rest = pieces;
    'pieces: while let [piece, after @ ..] = rest {
        if let Some(found) = first_with(piece, after) {
            return Some(found);
        }
        rest = after;
    }
    None
}

/// The first line of a piece and the pieces after it; None where that piece has none.
#[inline]
fn first_with<'a>(piece: &'a Piece, after: &'a [Piece]) -> Option<(&'a Line, ScriptLines<'a>)>
    ensures { MatchOption result (piece_lines piece.now ≡ []) (λ found. piece_lines piece.now ++ script_lines after.now ≡ found.0.now ∷ found.1) }
{
    match piece {
        Piece::One(line) => Some((line, ScriptLines::of(after))),
        Piece::Block { times, lines } => first_of_block(*times, lines.as_slice(), after),
    }
}

/// The first line of a block and the pieces after it; None where the block has none.
#[inline]
fn first_of_block<'a>(
    times: u32,
    block: &'a [Line],
    pieces: &'a [Piece],
) -> Option<(&'a Line, ScriptLines<'a>)>
    ensures { MatchOption result (times_over times block.now ≡ []) (λ found. times_over times block.now ++ script_lines pieces.now ≡ found.0.now ∷ found.1) }
{
    let [line, turn @ ..] = block else {
        return None;
    };
    if times == 0 {
        return None;
    }
    Some((
        line,
        ScriptLines {
            turn,
            turns: times - 1,
            block,
            pieces,
        },
    ))
}
