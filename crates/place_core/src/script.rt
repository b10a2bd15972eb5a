//! The calls of a thread.

ghost use Rattle.std.specs.Prelude.{◌≡◌, ℕ, ◌<◌, ◌≤◌, ◌+◌, ◌-◌, ◌*◌, ◌^◌, List, [], ◌∷◌, ◌++◌, length, slice_get, Some, OnOk, OnErr, IfOk, IfErr};
ghost use Rattle.place_core.specs.declared.script.Line.{Line};

use crate::cursor::ScriptLines;
use op_table::{Call, NoMemory, Order};
use std::alloc::{AllocFailed, Global};
use std::marker::Model;

/// A call that a script asks for, on the object of that number. Only an exchange has a failure order.
#[derive(Clone, Copy, Debug, PartialEq, Eq)]
pub struct Line {
    pub call: Call,
    pub object: u32,
    pub success: Order,
    pub failure: Option<Order>,
}

/// The lines of a block, in order; contracts see it as the list of these.
#[derive(Drop)]
pub struct Lines {
    lines: Vec<Line>,
}

impl Model for Lines {
    ghost Value = { List Line };

    ghost view = { λ l. l.lines.items };

    ghost invariant = { λ l. length l.lines.items < 2 ^ 32 };
}

impl Lines {
    /// No lines. It takes no memory.
    pub fn new(alloc: Global) -> Self
        ensures { result ≡ [] }
    {
        Lines {
            lines: Vec::new(alloc),
        }
    }

    /// How many lines there are.
    pub fn len(&self) -> u32
        ensures { result ≡ length self.now }
    {
        self.lines.len() as u32
    }

    /// Line number `i`, counted from 0.
    pub fn at(&self, i: u32) -> &Line
        requires { i < length self.now }
        ensures { slice_get self.now i ≡ Some result.now }
    {
        &self.lines[i as usize]
    }

    /// The lines, one after another.
    pub fn as_slice(&self) -> &[Line]
        ensures { result.now ≡ self.now }
    {
        self.lines.as_slice()
    }

    /// The same lines again.
    pub fn copy(&self, alloc: Global) -> Result<Lines, NoMemory>
        ensures { IfOk result (λ copy. copy ≡ self.now) }
    {
        match Vec::from_slice(alloc, &self.lines) {
            Ok(lines) => Ok(Lines { lines }),
            Err(_) => Err(NoMemory),
        }
    }

    /// Adds a line at the end. Where memory is wanting the lines stay as they were.
    pub fn push(&mut self, line: Line) -> Result<(), NoMemory>
        requires { length self.old < 2 ^ 32 - 1 }
        ensures ok { OnOk result (self.new ≡ self.old ++ line ∷ []) }
        ensures err { OnErr result (self.new ≡ self.old) }
    {
        match self.lines.push(line) {
            Ok(()) => Ok(()),
            Err(_) => Err(NoMemory),
        }
    }
}

/// A piece of a script: one line, or a block of lines that is made a number of times over.
#[derive(Drop)]
pub enum Piece {
    One(Line),
    Block { times: u32, lines: Lines },
}

impl Piece {
    ghost use Rattle.place_core.specs.Pieces.{piece_lines};

    /// How many lines the piece makes.
    fn len(&self) -> u64
        ensures { result ≡ length (piece_lines self.now) }
    {
        match self {
            Piece::One(_) => 1,
            Piece::Block { times, lines } => *times as u64 * lines.len() as u64,
        }
    }

    /// Line number `i` of those that the piece makes, counted from 0.
    fn at(&self, i: u64) -> &Line
        requires { i < length (piece_lines self.now) }
        ensures { slice_get (piece_lines self.now) i ≡ Some result.now }
    {
        match self {
            Piece::One(line) => line,
            Piece::Block { lines, .. } => lines.at((i % lines.len() as u64) as u32),
        }
    }

    /// The same piece again.
    fn copy(&self, alloc: Global) -> Result<Piece, NoMemory>
        ensures { IfOk result (λ copy. copy ≡ self.now) }
    {
        match self {
            Piece::One(line) => Ok(Piece::One(*line)),
            Piece::Block { times, lines } => match lines.copy(alloc) {
                Ok(lines) => Ok(Piece::Block {
                    times: *times,
                    lines,
                }),
                Err(error) => Err(error),
            },
        }
    }
}

/// The calls of one thread, in order; contracts see it as the list of its pieces. Its lines are made from these: each
/// line of its own, and each block's lines as often as the block says (`script_lines`).
#[derive(Drop)]
pub struct Script {
    pieces: Vec<Piece>,
    count: u32,
}

impl Model for Script {
    ghost use Rattle.std.specs.Prelude.{◌≡◌, ◌<◌, ◌^◌, length, List};
    ghost use Rattle.place_core.specs.declared.script.Piece.{Piece};
    ghost use Rattle.place_core.specs.Pieces.{script_lines};

    ghost Value = { List Piece };

    ghost view = { λ s. s.pieces.items };

    ghost invariant = { λ s. (s.count ≡ length (script_lines s.pieces.items)) × (length s.pieces.items < 2 ^ 32) };
}

impl Script {
    ghost use Rattle.place_core.specs.declared.script.Piece.{Piece};
    ghost use Rattle.place_core.specs.Pieces.{script_lines};

    /// No pieces. It takes no memory.
    pub fn new(alloc: Global) -> Self
        ensures { result ≡ [] }
    {
        Script {
            pieces: Vec::new(alloc),
            count: 0,
        }
    }

    /// No pieces yet, with room for so many.
    pub fn with_capacity(alloc: Global, pieces: u32) -> Result<Script, NoMemory>
        ensures { IfOk result (λ script. script ≡ []) }
    {
        match Vec::with_capacity(alloc, pieces as usize) {
            Ok(pieces) => Ok(Script { pieces, count: 0 }),
            Err(_) => Err(NoMemory),
        }
    }

    /// How many lines there are, each of a block's counted as often as the block says.
    pub fn len(&self) -> u32
        ensures { result ≡ length (script_lines self.now) }
    {
        self.count
    }

    /// Line number `i`, counted from 0. It may walk over all pieces: to go through the lines take `lines`.
    pub fn at(&self, i: u32) -> &Line
        requires { i < length (script_lines self.now) }
        ensures { slice_get (script_lines self.now) i ≡ Some result.now }
    {
        let mut left = i as u64;
        let mut rest = self.pieces.as_slice();
        'pieces: while let [piece, after @ ..] = rest {
            let count = piece.len();
            if left < count {
                return piece.at(left);
            }
            left -= count;
            rest = after;
        }
        unreachable!()
    }

    /// How many pieces there are.
    pub fn pieces(&self) -> u32
        ensures { result ≡ length self.now }
    {
        self.pieces.len() as u32
    }

    /// Piece number `k`, counted from 0.
    pub fn piece(&self, k: u32) -> &Piece
        requires { k < length self.now }
        ensures { slice_get self.now k ≡ Some result.now }
    {
        &self.pieces[k as usize]
    }

    /// The lines, one after another.
    pub fn lines(&self) -> ScriptLines<'_>
        ensures { result ≡ script_lines self.now }
    {
        ScriptLines::of(self.pieces.as_slice())
    }

    /// Adds a line at the end. Where memory is wanting the script stays as it was.
    #[inline]
    pub fn push(&mut self, line: Line) -> Result<(), NoMemory>
        requires lines { length (script_lines self.old) < 2 ^ 32 - 1 }
        requires pieces { length self.old < 2 ^ 32 - 1 }
        ensures ok { OnOk result (self.new ≡ self.old ++ Piece.One line ∷ []) }
        ensures lines { OnOk result (script_lines self.new ≡ script_lines self.old ++ line ∷ []) }
        ensures err { OnErr result (self.new ≡ self.old) }
    {
        match self.pieces.push(Piece::One(line)) {
            Ok(()) => {
                self.count += 1;
                Ok(())
            }
            Err(_) => Err(NoMemory),
        }
    }

    /// Adds a block at the end, whose lines are made so many times over. Where memory is wanting the script stays as
    /// it was, and the lines come back.
    pub fn push_block(&mut self, times: u32, lines: Lines) -> Result<(), (Lines, NoMemory)>
        requires times { 1 ≤ times }
        requires lines { length (script_lines self.old) + times * length lines < 2 ^ 32 }
        requires pieces { length self.old < 2 ^ 32 - 1 }
        ensures ok { OnOk result (self.new ≡ self.old ++ Piece.Block times lines ∷ []) }
        ensures err { OnErr result (self.new ≡ self.old) }
        ensures back { IfErr result (λ e. e.0 ≡ lines) }
    {
        let added = times * lines.len();
        match self.pieces.push(Piece::Block { times, lines }) {
            Ok(()) => {
                self.count += added;
                Ok(())
            }
            Err(AllocFailed { value }) => match value {
                Piece::Block { lines, .. } => Err((lines, NoMemory)),
                Piece::One(_) => unreachable!(),
            },
        }
    }

    /// A script of the same pieces.
    pub fn copy(&self, alloc: Global) -> Result<Script, NoMemory>
        ensures { IfOk result (λ copy. copy ≡ self.now) }
    {
        let mut pieces = Vec::new(alloc);
        let mut rest = self.pieces.as_slice();
        'pieces: while let [piece, after @ ..] = rest {
            pieces.push(piece.copy(alloc)?).map_err(|_| NoMemory)?;
            rest = after;
        }
        Ok(Script {
            pieces,
            count: self.count,
        })
    }
}
