//! Reading a workload line by line.

ghost use Rattle.std.specs.Prelude.{◌≡◌, ◌<◌, ◌≤◌, ◌^◌, ◌-◌, true, length, OnOk, IfOk, IsOk, false, Ok, Err};
ghost use Rattle.std.specs.List.{list_all};
ghost use Rattle.line_words.specs.Steps.{Gives};
ghost use Rattle.target_desc.specs.Target.{IsVersion};
ghost use Rattle.work_lang.specs.Limits.{most_bytes};
ghost use Rattle.work_lang.specs.Workload.{Workload};
ghost use Rattle.work_lang.specs.Reading.{State, start, has_room, call_at, is_repeat, first_thread_at, next_thread_at, in_thread_at, item_at, is_comment, is_printable, content_at, with_line, closed, next, after_line, takes_memory, NeedsMemory, Moves, ended, reading_of, Reads};
ghost use Rattle.work_lang.specs.Spelling.{Spells};
ghost use Rattle.work_lang.specs.Kept.{Allowed, IsKept};

use crate::fault::{Cause, LineFault, Slip, WorkFault};
use crate::item::{self, Awaits, Item, OpenBlock};
use crate::limits::{MOST_BYTES, limits_of};
use crate::objects::Objects;
use crate::orders::read_orders;
use crate::words::{check, end, fail, need, word};
use crate::work::Work;
use line_words::{Words, line_at};
use op_table::{NoMemory, StepSet};
use place_core::{Line, Lines, Script};
use std::alloc::{AllocFailed, Global};
use std::marker::Model;
use target_desc::Target;

/// What stands for the target until its line was read.
const UNREAD_TARGET: Target = Target {
    word_bits: 64,
    packed: false,
    steps: StepSet {
        swap: false,
        add: false,
        bits: false,
        order: false,
    },
    locks: 1,
    section: false,
    big: false,
};

/// How many call lines were written, and how many calls they make: a line in a block makes as many as the block says.
#[derive(Clone, Copy, Debug, PartialEq, Eq)]
struct Counts {
    lines: u32,
    calls: u32,
}

/// No lines.
const NONE: Counts = Counts { lines: 0, calls: 0 };

/// What was read so far.
#[derive(Drop)]
struct Reader {
    alloc: Global,
    awaits: Awaits,
    version: u32,
    target: Target,
    objects: Objects,
    /// The threads that are closed.
    threads: Vec<Script>,
    /// The thread that is open, without the block that is open.
    script: Script,
    /// The block that is open.
    block: Option<OpenBlock>,
    /// Of the thread that is open, with the block that is open.
    in_thread: Counts,
    /// Of all threads.
    in_all: Counts,
}

impl Model for Reader {
    ghost use Rattle.work_lang.specs.Reading.{State};
    ghost use Rattle.work_lang.specs.Kept.{AreCounts};

    ghost Value = { State };

    ghost view = { λ r. record { awaits = r.awaits; version = r.version; target = r.target; objects = r.objects; scripts = r.threads.items; pieces = r.script; block = r.block } };

    ghost invariant = { λ r. AreCounts r.in_thread r.in_all r.threads.items r.script r.block };
}

/// It looks at every byte, without an early exit, so that the compiler can take many at a time.
fn is_printable(line: &[u8]) -> bool
    ensures { result ≡ list_all is_printable line.now }
{
    let mut printable = true;
    for byte in line {
        printable &= 32 <= *byte && *byte <= 126;
    }
    printable
}

fn is_comment(word: &[u8]) -> bool
    ensures { result ≡ is_comment word.now }
{
    match word.first() {
        Some(byte) => *byte == b'#',
        None => false,
    }
}

/// Whether a word opens a block. Version 1 has none.
fn is_repeat(version: u32, word: &[u8]) -> bool
    ensures { result ≡ is_repeat version word.now }
{
    version == 2 && word == b"repeat:".as_slice()
}

impl Reader {
    fn new(alloc: Global) -> Reader
        ensures { result ≡ start }
    {
        Reader {
            alloc,
            awaits: Awaits::Version,
            version: 1,
            target: UNREAD_TARGET,
            objects: Objects::new(alloc),
            threads: Vec::new(alloc),
            script: Script::new(alloc),
            block: None,
            in_thread: NONE,
            in_all: NONE,
        }
    }

    /// An object or the first thread.
    #[tactic(auto, unfolding(crate::specs::Reading::first_thread_at))]
    fn first_thread_item(&self, word: &[u8], words: &mut Words<'_>) -> Result<Item, Slip>
        ensures { Gives (λ x. x) result (first_thread_at self.now word.now words.old.cursor) }
    {
        if word == b"object".as_slice() {
            item::object_item(limits_of(self.version).objects, &self.objects, words)
        } else if word == b"thread".as_slice() {
            item::thread_item(self.threads.len(), words)
        } else {
            fail(words, Cause::UnknownWord)
        }
    }

    /// A thread after the first.
    #[tactic(auto, unfolding(crate::specs::Reading::next_thread_at))]
    fn next_thread_item(&self, word: &[u8], words: &mut Words<'_>) -> Result<Item, Slip>
        ensures { Gives (λ x. x) result (next_thread_at self.now word.now words.old.cursor) }
    {
        if word == b"thread".as_slice() {
            item::thread_item(self.threads.len(), words)
        } else {
            fail(words, Cause::UnknownWord)
        }
    }

    /// Whether a call line more passes no limit.
    fn has_room(&self) -> bool
        ensures { result ≡ has_room self.now }
    {
        let most = limits_of(self.version);
        let times = match &self.block {
            Some(block) => block.times,
            None => 1,
        };
        self.in_thread.lines < most.lines
            && self.in_all.lines < most.lines_in_all
            && self.in_thread.calls as u64 + times as u64 <= most.calls as u64
            && self.in_all.calls as u64 + times as u64 <= most.calls_in_all as u64
    }

    /// A call line, whose first word is the name of an object.
    #[tactic(auto, unfolding(crate::specs::Reading::call_at))]
    fn call_item(&self, first: &[u8], words: &mut Words<'_>) -> Result<Item, Slip>
        ensures { Gives (λ x. x) result (call_at self.now first.now words.old.cursor) }
    {
        let object = need(words, Cause::UnknownName, self.objects.find(first))?;
        check(words, Cause::Limit, self.has_room())?;
        let text = word(words)?;
        let call = item::operation_item(self.version, self.objects.kind(object), text, words)?;
        let orders = read_orders(&call, words)?;
        Ok(Item::Call(Line {
            object,
            call,
            success: orders.success,
            failure: orders.failure,
        }))
    }

    /// A call, the beginning or the end of a block, or the end of the thread.
    #[tactic(auto, unfolding(crate::specs::Reading::in_thread_at))]
    fn in_thread_item(&self, word: &[u8], words: &mut Words<'_>) -> Result<Item, Slip>
        ensures { Gives (λ x. x) result (in_thread_at self.now word.now words.old.cursor) }
    {
        if word == b"end".as_slice() {
            end(words)?;
            Ok(Item::End)
        } else if is_repeat(self.version, word) {
            item::repeat_item(&self.block, words)
        } else {
            self.call_item(word, words)
        }
    }

    /// What a line says, by its first word and the others.
    #[tactic(auto, unfolding(crate::specs::Reading::item_at))]
    fn item(&self, word: &[u8], words: &mut Words<'_>) -> Result<Item, Slip>
        requires { IsVersion self.now.version }
        ensures { Gives (λ x. x) result (item_at self.now word.now words.old.cursor) }
    {
        match self.awaits {
            Awaits::Version => item::version_item(word, words),
            Awaits::Target => item::target_item(self.version, word, words),
            Awaits::Object => self.first_thread_item(word, words),
            Awaits::Thread => self.next_thread_item(word, words),
            Awaits::Call => self.in_thread_item(word, words),
        }
    }

    /// What a line says, if anything.
    #[tactic(auto, unfolding(crate::specs::Reading::content_at))]
    fn content(&self, line: &[u8]) -> Result<Option<Item>, Slip>
        requires version { IsVersion self.now.version }
        requires short { length line.now < 2 ^ 31 }
        ensures { Gives (λ x. x) result (content_at self.now line.now) }
    {
        if !is_printable(line) {
            return Err(Slip {
                word: 0,
                cause: Cause::NotAscii,
            });
        }
        let mut words = Words::after(0, line);
        match words.next() {
            None => Ok(None),
            Some(word) => {
                if is_comment(word) {
                    Ok(None)
                } else {
                    Ok(Some(self.item(word, &mut words)?))
                }
            }
        }
    }

    /// Adds a call line to the open block, or to the open thread where no block is open.
    fn add_line(&mut self, line: Line) -> Result<(), NoMemory>
        requires kept { IsKept self.old }
        requires room { has_room self.old ≡ true }
        requires few { length self.old.pieces < 2 ^ 32 - 1 }
        ensures { OnOk result (self.new ≡ with_line self.old line self.old.block) }
    {
        let times = match &mut self.block {
            Some(block) => {
                block.lines.push(line)?;
                block.times
            }
            None => {
                self.script.push(line)?;
                1
            }
        };
        self.in_thread.lines += 1;
        self.in_thread.calls += times;
        self.in_all.lines += 1;
        self.in_all.calls += times;
        Ok(())
    }

    /// Closes the open thread.
    fn close_thread(&mut self) -> Result<(), NoMemory>
        requires { self.old.block ≡ None }
        ensures { OnOk result (self.new ≡ closed self.old None) }
    {
        let script = std::mem::replace(&mut self.script, Script::new(self.alloc));
        if let Err(AllocFailed { value }) = self.threads.push(script) {
            self.script = value;
            return Err(NoMemory);
        }
        self.in_thread = NONE;
        self.awaits = Awaits::Thread;
        Ok(())
    }

    /// Closes the open block, or the open thread where no block is open.
    fn close(&mut self) -> Result<(), NoMemory>
        requires kept { IsKept self.old }
        requires few { length self.old.pieces < 2 ^ 32 - 1 }
        ensures { OnOk result (self.new ≡ closed self.old self.old.block) }
    {
        let Some(OpenBlock { times, lines }) = self.block.take() else {
            return self.close_thread();
        };
        if let Err((lines, NoMemory)) = self.script.push_block(times, lines) {
            self.block = Some(OpenBlock { times, lines });
            return Err(NoMemory);
        }
        Ok(())
    }

    /// Goes on by an item. This alone takes memory.
    fn add(&mut self, item: Item) -> Result<(), NoMemory>
        requires kept { IsKept self.old }
        requires allowed { Allowed self.old item }
        requires few { length self.old.pieces < 2 ^ 32 - 1 }
        ensures next { OnOk result (self.new ≡ next self.old item) }
        ensures free { takes_memory item ≡ false → IsOk result }
    {
        match item {
            Item::Version(version) => {
                self.version = version;
                self.awaits = Awaits::Target;
            }
            Item::Target(target) => {
                self.target = target;
                self.awaits = Awaits::Object;
            }
            Item::Object(object) => self.objects.push(object)?,
            Item::Thread => self.awaits = Awaits::Call,
            Item::Repeat(times) => {
                let lines = Lines::new(self.alloc);
                self.block = Some(OpenBlock { times, lines });
            }
            Item::Call(line) => self.add_line(line)?,
            Item::End => self.close()?,
        }
        Ok(())
    }

    /// Takes the next line.
    #[tactic(auto, unfolding(crate::specs::Reading::after_line))]
    fn take_line(&mut self, line: &[u8]) -> Result<(), LineFault>
        requires kept { IsKept self.old }
        requires few { length self.old.pieces < 2 ^ 32 - 1 }
        requires short { length line.now < 2 ^ 31 }
        ensures moves { Moves result self.new (after_line self.old line.now) }
        // A fault of the line is told as that, and a line that keeps nothing takes no memory.
        ensures free { result ≡ Err LineFault.NoMemory → NeedsMemory (content_at self.old line.now) }
    {
        let said = self.content(line)?;
        match said {
            None => Ok(()),
            Some(item) => {
                self.add(item)?;
                Ok(())
            }
        }
    }

    /// The workload, at the end of a text of so many lines.
    fn finish(self, lines: u32) -> Result<Work, WorkFault>
        requires { IsKept self }
        ensures { Reads result (ended self.awaits self lines) }
    {
        let Reader {
            alloc: _,
            awaits,
            version,
            target,
            objects,
            threads,
            script: _,
            block: _,
            in_thread: _,
            in_all: _,
        } = self;
        match awaits {
            Awaits::Version | Awaits::Target => Err(WorkFault::Text {
                line: lines,
                word: 0,
                cause: Cause::Missing,
            }),
            Awaits::Call => Err(WorkFault::Text {
                line: lines,
                word: 0,
                cause: Cause::Unclosed,
            }),
            Awaits::Object | Awaits::Thread => Ok(Work::of_parts(
                version,
                target,
                objects.into_items(),
                threads,
            )),
        }
    }
}

/// The text line by line, up to its end or its first fault.
fn read_lines(alloc: Global, text: &[u8]) -> Result<Work, WorkFault>
    ensures exact { Reads result (reading_of text.now) }
    ensures long { most_bytes < length text.now → result ≡ Err (WorkFault.Text 0 0 Cause.TooLong) }
{
    if text.len() > MOST_BYTES {
        return Err(WorkFault::Text {
            line: 0,
            word: 0,
            cause: Cause::TooLong,
        });
    }
    let mut reader = Reader::new(alloc);
    let mut rest = text;
    let mut number: u32 = 0;
    'lines: while !rest.is_empty() {
        let (line, after) = line_at(rest);
        number += 1;
        match reader.take_line(line) {
            Ok(()) => {}
            Err(fault) => return Err(fault.at(number)),
        }
        rest = after;
    }
    reader.finish(number)
}

/// The workload that the text spells, or the first fault of the text, with its place. Where memory is wanting it is
/// NoMemory, whatever the text, unless the text is too long.
pub fn read_work(alloc: Global, text: &[u8]) -> Result<Work, WorkFault>
    // What is read is spelled by the text.
    ensures found { IfOk result (λ w. Spells text.now w) }
    // What the text spells is read, unless memory is wanting.
    ensures only { (w : Workload) → Spells text.now w → Reads result (Ok w) }
    // Which fault it is, and at which word of which line.
    ensures exact { Reads result (reading_of text.now) }
    // A text that is too long is told as that, also where memory is wanting.
    ensures long { most_bytes < length text.now → result ≡ Err (WorkFault.Text 0 0 Cause.TooLong) }
{
    read_lines(alloc, text)
}

#[cfg(test)]
mod tests;
