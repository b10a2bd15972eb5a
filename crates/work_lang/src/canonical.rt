//! Writing a workload as its one canonical text.

ghost use Rattle.std.specs.Prelude.{◌≡◌, ◌∷◌, ◌++◌, [], map, slice_get, IsSomeAnd};
ghost use Rattle.std.specs.List.{flat_map, AllByRecursion};
ghost use Rattle.op_table.specs.Kind.{IsKind};
ghost use Rattle.target_desc.specs.Target.{IsTarget};
ghost use Rattle.place_core.specs.Name.{is_name};
ghost use Rattle.work_lang.specs.Streams.{Writes};
ghost use Rattle.place_core.specs.DeclaredObjects.{IsDeclared};
ghost use Rattle.work_lang.specs.Workload.{HasLine, LineFits, PieceStands};
ghost use Rattle.work_lang.specs.Canonical.{version_line, target_line, object_line, ended_call_line, repeat_line, block_texts, piece_texts, thread_lines, canonical_lines};

use crate::operands::POSITION;
use crate::print::push_call;
use crate::stream::{Sink, WriteEnd, write_line};
use crate::work::Work;
use op_table::{LineBuf, kind_word};
use place_core::{Declared, Line, Piece, Script};
use target_desc::{Target, push_target};

/// Writes the line of a version.
fn write_version<K: Sink>(version: u32, sink: &mut K) -> Result<(), WriteEnd>
    ensures { Writes K.taken K.faults K.tries K.whole sink.old sink.new result (version_line version ∷ []) }
{
    if version == 1 {
        write_line(b"work 1\n", sink)
    } else {
        write_line(b"work 2\n", sink)
    }
}

/// Writes the line of a target, as one piece with its end. Reports and plan tables begin with it too.
#[tactic(auto, unfolding(crate::specs::Canonical::target_line))]
pub fn write_target<K: Sink>(target: &Target, sink: &mut K) -> Result<(), WriteEnd>
    requires { IsTarget target.now }
    ensures { Writes K.taken K.faults K.tries K.whole sink.old sink.new result (target_line target.now ∷ []) }
{
    let mut out = LineBuf::new();
    out.push_text(b"target ");
    push_target(&mut out, target);
    out.push_text(b"\n");
    write_line(out.bytes(), sink)
}

/// Writes the line of an object.
#[tactic(auto, unfolding(crate::specs::Canonical::object_line))]
fn write_object<K: Sink>(object: &Declared, sink: &mut K) -> Result<(), WriteEnd>
    requires { IsDeclared object.now }
    ensures { Writes K.taken K.faults K.tries K.whole sink.old sink.new result (object_line object.now ∷ []) }
{
    let mut out = LineBuf::new();
    let name = object.name;
    out.push_text(b"object ");
    out.push_text(name.bytes());
    out.push_text(b" ");
    out.push_text(kind_word(object.kind).as_bytes());
    out.push_text(b" ");
    out.push_value(object.kind, object.start);
    out.push_text(b"\n");
    write_line(out.bytes(), sink)
}

/// Writes the lines of the objects.
fn write_objects<K: Sink>(objects: &[Declared], sink: &mut K) -> Result<(), WriteEnd>
    requires { AllByRecursion IsDeclared objects.now }
    ensures { Writes K.taken K.faults K.tries K.whole sink.old sink.new result (map object_line objects.now) }
{
    let mut i = 0;
    'objects: while i < objects.len() {
        match write_object(&objects[i], sink) {
            Ok(()) => {}
            Err(end) => return Err(end),
        }
        i += 1;
    }
    Ok(())
}

/// Writes the line of a call.
fn write_call<K: Sink>(objects: &[Declared], line: &Line, sink: &mut K) -> Result<(), WriteEnd>
    requires { IsSomeAnd (slice_get objects.now line.now.object) (λ d. IsKind d.kind × HasLine line.now d) }
    ensures { Writes K.taken K.faults K.tries K.whole sink.old sink.new result (ended_call_line objects.now line.now ∷ []) }
{
    let mut out = LineBuf::new();
    push_call(&mut out, objects, line);
    out.push_text(b"\n");
    write_line(out.bytes(), sink)
}

/// Writes the line that opens a block.
#[tactic(auto, unfolding(crate::specs::Canonical::repeat_line))]
fn write_repeat<K: Sink>(times: u32, sink: &mut K) -> Result<(), WriteEnd>
    ensures { Writes K.taken K.faults K.tries K.whole sink.old sink.new result (repeat_line times ∷ []) }
{
    let mut out = LineBuf::new();
    out.push_text(b"repeat: ");
    out.push_value(POSITION, times as u128);
    out.push_text(b"\n");
    write_line(out.bytes(), sink)
}

/// Writes the lines of a block's calls.
fn write_calls<K: Sink>(objects: &[Declared], lines: &[Line], sink: &mut K) -> Result<(), WriteEnd>
    requires sound { AllByRecursion IsDeclared objects.now }
    requires fits { AllByRecursion (LineFits objects.now) lines.now }
    ensures { Writes K.taken K.faults K.tries K.whole sink.old sink.new result (map (ended_call_line objects.now) lines.now) }
{
    let mut lines = lines;
    'calls: while let [line, next_lines @ ..] = lines {
        match write_call(objects, line, sink) {
            Ok(()) => {}
            Err(end) => return Err(end),
        }
        lines = next_lines;
    }
    Ok(())
}

/// Writes the lines of a block.
fn write_block<K: Sink>(
    objects: &[Declared],
    times: u32,
    lines: &[Line],
    sink: &mut K,
) -> Result<(), WriteEnd>
    requires sound { AllByRecursion IsDeclared objects.now }
    requires fits { AllByRecursion (LineFits objects.now) lines.now }
    ensures { Writes K.taken K.faults K.tries K.whole sink.old sink.new result (block_texts objects.now times lines.now) }
{
    match write_repeat(times, sink) {
        Ok(()) => {}
        Err(end) => return Err(end),
    }
    match write_calls(objects, lines, sink) {
        Ok(()) => {}
        Err(end) => return Err(end),
    }
    write_line(b"end\n", sink)
}

/// Writes the lines of a piece, as version 2 of the language has it: version 1 has fewer.
fn write_piece<K: Sink>(objects: &[Declared], piece: &Piece, sink: &mut K) -> Result<(), WriteEnd>
    requires sound { AllByRecursion IsDeclared objects.now }
    requires stands { PieceStands 2 objects.now piece.now }
    ensures { Writes K.taken K.faults K.tries K.whole sink.old sink.new result (piece_texts objects.now piece.now) }
{
    match piece {
        Piece::One(line) => write_call(objects, line, sink),
        Piece::Block { times, lines } => write_block(objects, *times, lines.as_slice(), sink),
    }
}

/// Writes the lines of a thread's pieces.
fn write_pieces<K: Sink>(
    objects: &[Declared],
    script: &Script,
    sink: &mut K,
) -> Result<(), WriteEnd>
    requires sound { AllByRecursion IsDeclared objects.now }
    requires stands { AllByRecursion (PieceStands 2 objects.now) script.now }
    ensures { Writes K.taken K.faults K.tries K.whole sink.old sink.new result (flat_map (piece_texts objects.now) script.now) }
{
    let mut k = 0;
    'pieces: while k < script.pieces() {
        match write_piece(objects, script.piece(k), sink) {
            Ok(()) => {}
            Err(end) => return Err(end),
        }
        k += 1;
    }
    Ok(())
}

/// Writes the lines of a thread.
fn write_thread<K: Sink>(
    objects: &[Declared],
    script: &Script,
    sink: &mut K,
) -> Result<(), WriteEnd>
    requires sound { AllByRecursion IsDeclared objects.now }
    requires stands { AllByRecursion (PieceStands 2 objects.now) script.now }
    ensures { Writes K.taken K.faults K.tries K.whole sink.old sink.new result (thread_lines objects.now script.now) }
{
    match write_line(b"thread\n", sink) {
        Ok(()) => {}
        Err(end) => return Err(end),
    }
    match write_pieces(objects, script, sink) {
        Ok(()) => {}
        Err(end) => return Err(end),
    }
    write_line(b"end\n", sink)
}

/// Writes the lines of the threads.
fn write_threads<K: Sink>(
    objects: &[Declared],
    threads: &[Script],
    sink: &mut K,
) -> Result<(), WriteEnd>
    requires sound { AllByRecursion IsDeclared objects.now }
    requires stand { AllByRecursion (AllByRecursion (PieceStands 2 objects.now)) threads.now }
    ensures { Writes K.taken K.faults K.tries K.whole sink.old sink.new result (flat_map (thread_lines objects.now) threads.now) }
{
    let mut threads = threads;
    'threads: while let [script, next_threads @ ..] = threads {
        match write_thread(objects, script, sink) {
            Ok(()) => {}
            Err(end) => return Err(end),
        }
        threads = next_threads;
    }
    Ok(())
}

/// Writes the one canonical text of a workload, line by line, each with its end as one piece: without comments, empty
/// lines and spare spaces, the target by its name where it has one, and without orders that may be left out. Blocks are
/// written as they stand. Where that text has at most 8,388,608 bytes, `read_work` reads the workload back from it. It
/// takes no memory. At Fault, which comes only where the sink's count rose, what was taken is a front of the text.
pub fn print_work<K: Sink>(work: &Work, sink: &mut K) -> Result<(), WriteEnd>
    ensures { Writes K.taken K.faults K.tries K.whole sink.old sink.new result (canonical_lines work.now) }
{
    let target = work.target();
    let objects = work.objects();
    let threads = work.threads();
    match write_version(work.version(), sink) {
        Ok(()) => {}
        Err(end) => return Err(end),
    }
    match write_target(target, sink) {
        Ok(()) => {}
        Err(end) => return Err(end),
    }
    match write_objects(objects, sink) {
        Ok(()) => {}
        Err(end) => return Err(end),
    }
    write_threads(objects, threads, sink)
}

#[cfg(test)]
mod tests;
