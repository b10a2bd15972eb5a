//! Generated workloads: eight objects on `word32`, and calls drawn from a seed.

ghost use Rattle.std.specs.Prelude.{◌≡◌, ◌++◌, ◌∷◌, [], ◌≤◌, ◌<◌, ◌*◌, IfOk, OnOk, true, length};
ghost use Rattle.op_table.specs.Words.{integer};
ghost use Rattle.place_core.specs.Name.{is_name};
ghost use Rattle.work_lang.specs.Generated.{many_fits, many_of, generated_target, generated_objects, declared, call_on, drawn_line, generator_of, after_words, script_from, scripts_from};

use crate::limits::{MOST_THREADS, limits_of};
use crate::work::Work;
use op_table::{Call, Class, Kind, NoMemory, Order, Width};
use place_core::{Declared, Line, Name, Script};
use rand_core::SeedableRng;
use rand_core::utils::NextWord;
use rand_pcg::Lcg128Xsl64;
use std::alloc::Global;
use target_desc::{Target, builtin};

/// Whether a generated workload may have so many threads with so many calls each: 1 to 64 threads, at most 65,536 calls
/// of each, and at most 1,000,000 calls in all.
pub fn many_fits(threads: u32, calls: u32) -> bool
    ensures { result ≡ many_fits threads calls }
{
    let limits = limits_of(1);
    1 <= threads
        && threads <= MOST_THREADS as u32
        && calls <= limits.calls
        && threads * calls <= limits.calls_in_all
}

/// The target `word32`.
fn generated_target() -> Target
    ensures { result ≡ generated_target }
{
    match builtin(b"word32") {
        Some(target) => target,
        None => unreachable!(),
    }
}

/// Declares one more object of integers.
fn declare(
    objects: &mut Vec<Declared>,
    name: &'static [u8],
    signed: bool,
    width: Width,
    start: u128,
) -> Result<(), NoMemory>
    requires { is_name name.now ≡ true }
    ensures { OnOk result (objects.new.items ≡ objects.old.items ++ declared name.now (integer signed width) start ∷ []) }
{
    let Some(name) = Name::of(name) else {
        unreachable!()
    };
    let kind = Kind {
        width,
        signed,
        class: Class::Int,
    };
    match objects.push(Declared { name, kind, start }) {
        Ok(()) => Ok(()),
        Err(_) => Err(NoMemory),
    }
}

/// The eight objects.
fn generated_objects(alloc: Global) -> Result<Vec<Declared>, NoMemory>
    ensures { IfOk result (λ objects. objects.items ≡ generated_objects) }
{
    let mut objects = Vec::with_capacity(alloc, 8).map_err(|_| NoMemory)?;
    declare(&mut objects, b"n8", false, Width::W8, 0)?;
    declare(&mut objects, b"n16", true, Width::W16, 0)?;
    declare(&mut objects, b"m32", false, Width::W32, 0)?;
    declare(&mut objects, b"s32", true, Width::W32, 0)?;
    declare(&mut objects, b"x64", false, Width::W64, 0)?;
    declare(&mut objects, b"o8", false, Width::W8, 0)?;
    declare(&mut objects, b"a16", false, Width::W16, 65_535)?;
    declare(&mut objects, b"w128", false, Width::W128, 0)?;
    Ok(objects)
}

/// How many bits the operand on the object of each number has, of the 61 that are drawn.
const OPERAND_BITS: [u32; 8] = [8, 16, 32, 32, 64, 8, 16, 64];

/// The call on the object of that number, whose operand is so many of these bits as the object has.
fn call_on(number: u32, bits: u64) -> Call
    requires number { number < 8 }
    ensures { result ≡ call_on number bits }
{
    // From a table, so that no branch hangs on what was drawn.
    let operand = u128::from(bits) % (1 << OPERAND_BITS[number as usize]);
    match number {
        0 => Call::Add(operand, false),
        1 => Call::Sub(operand, false),
        2 => Call::Max(operand),
        3 => Call::Min(operand),
        4 => Call::Xor(operand, false),
        5 => Call::Or(operand, false),
        6 => Call::And(operand, false),
        _ => Call::Add(operand, false),
    }
}

/// The line that a word draws: its lowest three bits are the number of the object.
fn drawn_line(word: u64) -> Line
    ensures { result ≡ drawn_line word }
{
    let object = (word % 8) as u32;
    Line {
        call: call_on(object, word / 8),
        object,
        success: Order::SeqCst,
        failure: None,
    }
}

/// The script of a thread of so many calls, a line for each word of the generator. Its memory is taken at once.
fn drawn_script(alloc: Global, calls: u32, generator: &mut Lcg128Xsl64) -> Result<Script, NoMemory>
    requires { calls ≤ 65536 }
    ensures script { IfOk result (λ script. script ≡ script_from calls generator.old) }
    ensures drawn { IfOk result (λ script. generator.new ≡ after_words calls generator.old) }
{
    let mut script = Script::with_capacity(alloc, calls)?;
    let mut left = calls;
    'calls: while left > 0 {
        script.push(drawn_line(generator.next_word()))?;
        left -= 1;
    }
    Ok(script)
}

/// The scripts of so many threads, drawn one thread after another.
fn drawn_scripts(
    alloc: Global,
    threads: u32,
    calls: u32,
    generator: &mut Lcg128Xsl64,
) -> Result<Vec<Script>, NoMemory>
    requires { calls ≤ 65536 }
    ensures { IfOk result (λ scripts. scripts.items ≡ scripts_from threads calls generator.old) }
{
    let mut scripts = Vec::with_capacity(alloc, threads as usize).map_err(|_| NoMemory)?;
    let mut left = threads;
    'threads: while left > 0 {
        let script = drawn_script(alloc, calls, generator)?;
        match scripts.push(script) {
            Ok(()) => left -= 1,
            Err(_) => return Err(NoMemory),
        }
    }
    Ok(scripts)
}

/// The workload that a seed generates: 8 objects on `word32`, and so many threads with so many calls each, which are
/// drawn from `Lcg128Xsl64` thread by thread. The same three numbers give the same workload.
#[tactic(auto, unfolding(crate::specs::Generated::many_of))]
pub fn make_many(alloc: Global, seed: u64, threads: u32, calls: u32) -> Result<Work, NoMemory>
    requires { many_fits threads calls ≡ true }
    ensures { IfOk result (λ work. work ≡ many_of seed threads calls) }
{
    let objects = generated_objects(alloc)?;
    let mut generator = Lcg128Xsl64::seed_from_u64(seed);
    let scripts = drawn_scripts(alloc, threads, calls, &mut generator)?;
    Ok(Work::of_parts(1, generated_target(), objects, scripts))
}

#[cfg(test)]
mod tests;
