//! The machine of scripts over a shape.

ghost use Rattle.std.specs.Prelude.{◌≡◌, ◌+◌, ◌*◌, ◌%◌, ◌^◌, ◌<◌, ◌≤◌, ◌==◌, ◌||◌, ◌&&◌, if◌then◌else◌, length, map, slice_index, IfOk, IfSome, Some, None, []};
ghost use Rattle.std.specs.Option.{option_copied};
ghost use Rattle.std.proofs.lemmas.Map.Lookups.{exact_bytes};
ghost use Rattle.op_table.specs.Call.{CallFits};
ghost use Rattle.op_table.specs.Kind.{values_of};
ghost use Rattle.place_core.specs.Pieces.{script_lines};
ghost use Rattle.place_core.specs.Runs.{ScriptsFit};
ghost use Rattle.place_core.specs.Shapes.{cells_of_shape, kind_of, IsShape};
ghost use Rattle.run_steps.specs.Standing.{line_at, cell_count, state_of, first_cell, told_thread, told_place, reply_number, weak_word};
ghost use Rattle.run_steps.specs.Steps.{moves_word, cell_after, state_after, move_by, move_of, step_of};
ghost use Rattle.run_steps.specs.Machines.{IsAt};
ghost use Rattle.run_steps.proofs.MachineFacts.{still_at, mapped_below};

use op_table::{Reply, after, answer};
use outcomes::Stepping;
use place_core::{Line, Script, Shape};
use run_steps::{Move, State, expects, moves_word, reply_number, weak_word};
use std::alloc::{AllocError, Global};

/// The machine of scripts over a shape. At each state each thread has two choices: to make its next call with the reply of the
/// table, and to fail, where that is a weak exchange of which a failure with the value that it expects is earned.
#[derive(Drop)]
pub struct Machine<'a> {
    alloc: Global,
    shape: &'a Shape,
    scripts: &'a [Script],
    kept: u32,
    ghost few: { length scripts.now ≤ 64 },
}

impl<'a> Machine<'a> {
    /// The machine of scripts over a shape, whose states keep the replies to so many calls of each thread, 0 for none.
    pub fn new(alloc: Global, shape: &'a Shape, scripts: &'a [Script], kept: u32) -> Self
        requires { length scripts.now ≤ 64 }
        ensures shape { result.shape.now ≡ shape.now }
        ensures scripts { result.scripts.now ≡ scripts.now }
        ensures kept { result.kept ≡ kept }
    {
        Machine {
            alloc,
            shape,
            scripts,
            kept,
        }
    }
}

impl Machine<'_> {
    /// The line that a thread makes next, where it made so many calls.
    fn line_at(&self, thread: u32, place: u128) -> Option<&Line>
        requires { thread < length self.now.scripts.now }
        ensures line { option_copied result ≡ line_at (map script_lines self.now.scripts.now) thread place }
        ensures small { IfSome result (λ _. place < 2 ^ 32) }
    {
        let script = &self.scripts[thread as usize];
        if place >= u128::from(script.len()) {
            return None;
        }
        Some(script.at(place as u32))
    }

    /// How many numbers a state has.
    fn cells(&self) -> usize
        requires { IsShape self.now.shape.now }
        ensures { result ≡ cell_count self.now.shape.now (map script_lines self.now.scripts.now) self.now.kept }
    {
        let threads = self.scripts.len();
        threads + threads + self.shape.objects.len() + 2 * (threads * self.kept as usize)
    }

    /// Number `i` of the state before the first call.
    fn first_cell(&self, i: usize) -> u128
        ensures { result ≡ first_cell self.now.shape.now (length self.now.scripts.now) i }
    {
        let threads = self.scripts.len();
        let objects = self.shape.objects.len();
        if i < threads {
            return 0;
        }
        let i = i - threads;
        if i < threads {
            return 0;
        }
        let object = i - threads;
        if object < objects {
            self.shape.objects.at(object).start
        } else {
            0
        }
    }

    /// The state before the first call.
    pub fn start(&self) -> Result<State, AllocError>
        requires valid { IsShape self.now.shape.now }
        ensures { IfOk result (λ s. s ≡ state_of self.now.shape.now (map script_lines self.now.scripts.now) self.now.kept []) }
    {
        let count = self.cells();
        let mut first = State::with_room(self.alloc, count)?;
        for i in 0..count {
            first.push(self.first_cell(i))?;
        }
        Ok(first)
    }

    /// How many calls a thread made, after a move.
    fn count_after(&self, state: &State, step: &Move, thread: usize) -> u128
        requires { thread < length state.now }
        ensures { result ≡ (if thread == step.now.thread then step.now.place + 1 else slice_index state.now thread) }
    {
        if thread == step.thread as usize {
            u128::from(step.place) + 1
        } else {
            state.at(thread)
        }
    }

    /// Whether the next call of a thread may fail with the value that it expects, after a move.
    fn failure_after(&self, state: &State, step: &Move, thread: u32) -> u128
        requires fits { ScriptsFit (cells_of_shape self.now.shape.now) (map script_lines self.now.scripts.now) }
        requires object { step.now.object < length self.now.shape.now.objects }
        requires thread { thread < length self.now.scripts.now }
        requires cells { length self.now.scripts.now + length self.now.scripts.now ≤ length state.now }
        ensures { result ≡ (if thread == step.now.thread then 0 else (if slice_index state.now (length self.now.scripts.now + thread) == 1 || moves_word self.now.shape.now (weak_word self.now.shape.now (line_at (map script_lines self.now.scripts.now) thread (slice_index state.now thread))) step.now then 1 else 0)) }
    {
        if thread == step.thread {
            return 0;
        }
        if state.at(self.scripts.len() + thread as usize) == 1 {
            return 1;
        }
        let Some(line) = self.line_at(thread, state.at(thread as usize)) else {
            return 0;
        };
        if moves_word(self.shape, weak_word(self.shape, line), step) {
            1
        } else {
            0
        }
    }

    /// The value of an object, after a move.
    fn value_after(&self, state: &State, step: &Move, object: usize) -> u128
        requires { length self.now.scripts.now + length self.now.scripts.now + object < length state.now }
        ensures { result ≡ (if object == step.now.object then step.now.left else slice_index state.now (length self.now.scripts.now + length self.now.scripts.now + object)) }
    {
        let _count = state.len();
        if object == step.object as usize {
            step.left
        } else {
            state.at(self.scripts.len() + self.scripts.len() + object)
        }
    }

    /// A half of a reply, after a move.
    fn told_after(&self, state: &State, step: &Move, told: usize) -> u128
        requires some { 0 < length self.now.scripts.now }
        requires cells { length self.now.scripts.now + length self.now.scripts.now + length self.now.shape.now.objects + told < length state.now }
        ensures { result ≡ (if (told_thread (length self.now.scripts.now) told == step.now.thread) && (told_place (length self.now.scripts.now) told == step.now.place) then reply_number (told % 2) (Some step.now.told) else slice_index state.now (length self.now.scripts.now + length self.now.scripts.now + length self.now.shape.now.objects + told)) }
    {
        let _count = state.len();
        let threads = self.scripts.len();
        if told / 2 % threads == step.thread as usize && told / 2 / threads == step.place as usize {
            reply_number(told % 2, &step.told)
        } else {
            state.at(threads + threads + self.shape.objects.len() + told)
        }
    }

    /// Number `i` of the state after a move.
    fn cell_after(&self, state: &State, step: &Move, i: usize) -> u128
        requires fits { ScriptsFit (cells_of_shape self.now.shape.now) (map script_lines self.now.scripts.now) }
        requires valid { IsShape self.now.shape.now }
        requires object { step.now.object < length self.now.shape.now.objects }
        requires some { 0 < length self.now.scripts.now }
        requires cells { length state.now ≡ cell_count self.now.shape.now (map script_lines self.now.scripts.now) self.now.kept }
        requires within { i < length state.now }
        ensures { result ≡ cell_after self.now.shape.now (map script_lines self.now.scripts.now) state.now step.now i }
    {
        let threads = self.scripts.len();
        let objects = self.shape.objects.len();
        if i < threads {
            self.count_after(state, step, i)
        } else if i < threads + threads {
            self.failure_after(state, step, (i - threads) as u32)
        } else if i < threads + threads + objects {
            self.value_after(state, step, i - (threads + threads))
        } else {
            self.told_after(state, step, i - (threads + threads + objects))
        }
    }

    /// The state after a move. `AllocError` where memory is wanting.
    pub fn state_after(&self, state: &State, step: &Move) -> Result<State, AllocError>
        requires fits { ScriptsFit (cells_of_shape self.now.shape.now) (map script_lines self.now.scripts.now) }
        requires valid { IsShape self.now.shape.now }
        requires object { step.now.object < length self.now.shape.now.objects }
        requires some { 0 < length self.now.scripts.now }
        requires cells { length state.now ≡ cell_count self.now.shape.now (map script_lines self.now.scripts.now) self.now.kept }
        ensures { IfOk result (λ s. s ≡ state_after self.now.shape.now (map script_lines self.now.scripts.now) self.now.kept state.now step.now) }
    {
        let mut next = State::with_room(self.alloc, state.len())?;
        let count = state.len();
        for i in 0..count {
            next.push(self.cell_after(state, step, i))?;
        }
        Ok(next)
    }

    /// The move of a thread's next line: by the table for sort 0, and else a failure, where that may come.
    fn move_by(
        &self,
        state: &State,
        thread: u32,
        place: u32,
        sort: u32,
        line: &Line,
    ) -> Option<Move>
        requires valid { IsShape self.now.shape.now }
        requires cells { length state.now ≡ cell_count self.now.shape.now (map script_lines self.now.scripts.now) self.now.kept }
        requires thread { thread < length self.now.scripts.now }
        requires object { line.now.object < length self.now.shape.now.objects }
        requires call { CallFits (kind_of self.now.shape.now line.now.object) line.now.call }
        requires value { slice_index state.now (length self.now.scripts.now + length self.now.scripts.now + line.now.object) < values_of (kind_of self.now.shape.now line.now.object) }
        ensures moves { result ≡ move_by self.now.shape.now state.now (length self.now.scripts.now) thread place sort line.now }
        ensures object { IfSome result (λ step. step.object < length self.now.shape.now.objects) }
    {
        let threads = self.scripts.len();
        let object = line.object;
        let value = state.at(threads + threads + object as usize);
        let kind = self.shape.objects.at(object as usize).kind;
        let (told, left) = if sort == 0 {
            (
                answer(kind, &line.call, value),
                after(kind, &line.call, value),
            )
        } else if expects(&line.call, value) && state.at(threads + thread as usize) == 1 {
            (Reply::Failed(value), value)
        } else {
            return None;
        };
        Some(Move {
            thread,
            place,
            object,
            value,
            told,
            left,
        })
    }

    /// The move of a choice at a state, where it has one.
    pub fn move_of(&self, state: &State, choice: u32) -> Option<Move>
        requires at { IsAt self.now.shape.now (map script_lines self.now.scripts.now) self.now.kept state.now }
        requires cells { length state.now ≡ cell_count self.now.shape.now (map script_lines self.now.scripts.now) self.now.kept }
        requires choice { choice < 2 * length self.now.scripts.now }
        ensures moves { result ≡ move_of self.now.shape.now (map script_lines self.now.scripts.now) state.now choice }
        ensures object { IfSome result (λ step. step.object < length self.now.shape.now.objects) }
    {
        let thread = choice / 2;
        let place = state.at(thread as usize);
        match self.line_at(thread, place) {
            Some(line) => self.move_by(state, thread, place as u32, choice % 2, line),
            None => None,
        }
    }
}

impl Stepping for Machine<'_> {
    type State = State;

    ghost is_state = { λ m s. IsAt m.shape.now (map script_lines m.scripts.now) m.kept s };

    ghost choices = { λ m. 2 * length m.scripts.now };

    ghost after = { λ m s k. step_of m.shape.now (map script_lines m.scripts.now) m.kept s k };

    ghost same = { exact_bytes };

    ghost stays = { λ m s k at below. still_at m.shape.now (map script_lines m.scripts.now) m.kept s k at (mapped_below m.scripts.now k below) };

    fn choices(&self) -> u32 {
        2 * self.scripts.len() as u32
    }

    fn after(&self, state: &State, choice: u32) -> Result<Option<State>, AllocError> {
        match self.move_of(state, choice) {
            Some(step) => Ok(Some(self.state_after(state, &step)?)),
            None => Ok(None),
        }
    }
}
